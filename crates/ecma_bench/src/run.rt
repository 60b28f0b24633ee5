//! A run, from its words to its status.

ghost use Rattle.std.specs.Prelude.{◌≡◌, ◌≢◌, ◌≤◌, ◌↔◌, None, length, IsOk, IfOk, IsErrOf};
ghost use Rattle.ecma_bench.specs.Words.{file_asked};

use crate::command::accept;
use crate::fault::Fault;
use crate::measure::measure;
use std::io;
use std::io::Write;
use std::rt::Files;
use std::time::CpuClock;

/// Measures what the words ask for, and writes its line.
fn answer<R: Files + CpuClock + AllocGlobal, W: Write>(
    rt: &R,
    words: &io::Result<Vec<String>>,
    output: &mut W,
) -> Result<(), Fault>
    ensures usage { IfOk words.now
        (λ words. length words.items ≢ 2 → file_asked words.items ≡ None
        → IsErrOf result Fault.Usage) }
    ensures unwritten { IfOk words.now
        (λ words. length words.items ≢ 2 → file_asked words.items ≡ None → output.new
        ≡ output.old) }
{
    let report = measure(rt, accept(words)?)?;
    if writeln!(output, "{report}").is_err() || output.flush().is_err() {
        return Err(Fault::CannotWrite);
    }
    Ok(())
}

/// The status that a run ends with.
fn status(outcome: &Result<(), Fault>) -> u8
    ensures clean { (result ≡ 0) ↔ IsOk outcome.now }
    ensures usage { (result ≡ 2) ↔ IsErrOf outcome.now Fault.Usage }
    ensures most { result ≤ 2 }
{
    match outcome {
        Ok(()) => 0,
        Err(Fault::Usage) => 2,
        Err(_) => 1,
    }
}

/// A run over its words and two writers. It answers the status: 0, 2 where the words are no command, 1 for any other fault.
pub fn run<R: Files + CpuClock + AllocGlobal, W: Write, E: Write>(
    rt: &R,
    words: &io::Result<Vec<String>>,
    output: &mut W,
    errors: &mut E,
) -> u8
    ensures status { result ≤ 2 }
    ensures usage { IfOk words.now
        (λ words. length words.items ≢ 2 → file_asked words.items ≡ None → result ≡ 2) }
    ensures unwritten { IfOk words.now
        (λ words. length words.items ≢ 2 → file_asked words.items ≡ None → output.new
        ≡ output.old) }
{
    let outcome = answer(rt, words, output);
    if let Err(fault) = outcome {
        // There is no place left to say that this fails.
        let _ = writeln!(errors, "{fault}");
    }
    status(&outcome)
}
