//! What holds of any two readings.

ghost use Rattle.ecma_answers.specs.Same.{OneFinding, OneOutcome, OneReading};

/// A law: two readings of one text with one setting are the same, the same early errors are found in them, and they come out in the same way.
pub fn one_reading()
    ensures readings { OneReading }
    ensures findings { OneFinding }
    ensures outcomes { OneOutcome }
{}
