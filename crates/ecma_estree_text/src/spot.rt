//! Lines and columns as JavaScript's tools count them.

ghost use Rattle.std.specs.Prelude.{◌≡◌, ◌<◌, ◌+◌, ◌^◌, length, IfOk};
ghost use Rattle.ecma_estree_text.specs.Spots as spots;
ghost use Rattle.ecma_estree_text.specs.Spots.{AreSpots, unit_count, spot_behind};

use std::alloc::{AllocError, Global};

/// Which of the bytes that may end a line stand behind one: ECMA-262, "Line Terminators" (section 12.3).
#[derive(Clone, Copy, Debug, PartialEq, Eq)]
pub enum Mark {
    /// None of them.
    Plain,
    /// A carriage return, which ends a line together with a line feed.
    Return,
    /// One of the three bytes of U+2028 or U+2029.
    First,
    /// Two of them.
    Second,
}

/// A place in a text: its line from 1, and its column from 0 in code units of UTF-16.
#[derive(Clone, Copy, Debug, PartialEq, Eq)]
pub struct Spot {
    pub line: u64,
    pub column: u64,
    pub mark: Mark,
}

/// How many code units of UTF-16 begin with a byte of UTF-8.
pub(crate) fn units(byte: u8) -> u64
    ensures { result ≡ unit_count byte }
{
    if byte < 128 {
        1
    } else if byte < 192 {
        0
    } else if byte < 240 {
        1
    } else {
        2
    }
}

/// The start of the next line.
fn next_line(spot: Spot, mark: Mark) -> Spot
    requires { spot.line < 2 ^ 33 }
    ensures { result ≡ record { line = spot.line + 1; column = 0; mark = mark } }
{
    Spot {
        line: spot.line + 1,
        column: 0,
        mark,
    }
}

/// A place further on in its line.
fn along(spot: Spot, byte: u8, mark: Mark) -> Spot
    requires { spot.column < 2 ^ 34 }
    ensures { result
        ≡ record { line = spot.line; column = spot.column + unit_count byte; mark = mark } }
{
    Spot {
        line: spot.line,
        column: spot.column + units(byte),
        mark,
    }
}

/// The place behind a byte.
fn behind(spot: Spot, byte: u8) -> Spot
    requires line { spot.line < 2 ^ 33 }
    requires column { spot.column < 2 ^ 34 }
    ensures { result ≡ spot_behind spot byte }
{
    match (spot.mark, byte) {
        (Mark::Return, 10) => Spot {
            line: spot.line,
            column: 0,
            mark: Mark::Plain,
        },
        (_, 10) => next_line(spot, Mark::Plain),
        (_, 13) => next_line(spot, Mark::Return),
        (_, 226) => along(spot, byte, Mark::First),
        (Mark::First, 128) => along(spot, byte, Mark::Second),
        (Mark::Second, 168 | 169) => next_line(spot, Mark::Plain),
        _ => along(spot, byte, Mark::Plain),
    }
}

/// The start of a text.
fn outset() -> Spot
    ensures { result ≡ spots.outset }
{
    Spot {
        line: 1,
        column: 0,
        mark: Mark::Plain,
    }
}

/// The place of each byte, and that of the end.
#[tactic(auto, using(crate::proofs::Spots::spot_more, crate::proofs::Spots::spots_more))]
pub(crate) fn spots_of(alloc: Global, text: &str) -> Result<Vec<Spot>, AllocError>
    requires { length text.now < 2 ^ 32 }
    ensures { IfOk result (λ spots. AreSpots text.now spots.items) }
{
    let mut spots = Vec::with_capacity(alloc, text.len() + 1)?;
    let mut spot = outset();
    spots.push(spot)?;
    for byte in text.as_bytes() {
        spot = behind(spot, *byte);
        spots.push(spot)?;
    }
    Ok(spots)
}
