//! A run, from its words to its status.

ghost use Rattle.std.specs.Prelude.{◌≡◌, ◌<◌, ◌≤◌, ◌⊎◌, [], length, Some, None, Ok, IsErr, IsErrOf, IsOkAnd, IfOk, IfErr, OnOk, IfSome, IsUtf8, string_bytes};
ghost use Rattle.std.specs.Io.KnownBytes.{Appends, IsAtEnd};
ghost use Rattle.swc_ecma_parser_model.specs.Tree.{Tree};
ghost use Rattle.ecma_parse.specs.Command.{asked};
ghost use Rattle.ecma_report.specs.declared.answer.Goal.{Goal};
ghost use Rattle.ecma_report.specs.Lines.{answer_lines};
ghost use Rattle.ecma_report.specs.Spelled.{SpellsAs};

use crate::command::accept;
use crate::fault::Fault;
use crate::read::read_all;
use ecma_report::{Report, Verdict, parse};
use std::alloc::Global;
use std::io::{Read, Write};
use std::{io, str};

/// Writes all of a text.
fn write_text<W: Write>(output: &mut W, text: &str) -> Result<(), Fault>
    ensures ok { OnOk result (Appends (W.contents output.old) (W.contents output.new) text.now) }
    ensures err { IfErr result (λ fault. fault ≡ Fault.CannotWrite) }
{
    if output.write_all(text.as_bytes()).is_err() || output.flush().is_err() {
        return Err(Fault::CannotWrite);
    }
    Ok(())
}

/// Reads a text, parses it, and writes what that comes to.
fn answer<R: Read, W: Write>(
    alloc: Global,
    words: &io::Result<Vec<String>>,
    greatest: u32,
    input: &mut R,
    output: &mut W,
) -> Result<Verdict, Fault>
    ensures usage { IfOk words.now
        (λ words. asked words.items ≡ None → IsErrOf result Fault.Usage) }
    ensures unread { IfOk words.now (λ words. asked words.items ≡ None → input.new ≡ input.old) }
    ensures unwritten { IfOk words.now
        (λ words. asked words.items ≡ None → output.new ≡ output.old) }
    ensures fits { OnOk result (IfSome (R.remaining input.old) (λ xs. length xs ≤ greatest)) }
    ensures utf8 { OnOk result (IfSome (R.remaining input.old) IsUtf8) }
    ensures end { OnOk result (IsAtEnd (R.remaining input.new)) }
    ensures clean { IfOk result
        (λ verdict. verdict ≡ Verdict.Clean
        → IsOkAnd words.now (λ words. (goal : Goal) × (asked words.items ≡ Some goal)
        × IfSome (R.remaining input.old) (λ xs. (x : Tree) × SpellsAs goal xs x
        × Appends (W.contents output.old) (W.contents output.new) (answer_lines (Ok x) [])))) }
    ensures spelled { IfOk words.now
        (λ words. (goal : Goal) → asked words.items ≡ Some goal
        → IfSome (R.remaining input.old) (λ xs. (x : Tree) → SpellsAs goal xs x
        → IfOk result (λ verdict. verdict ≡ Verdict.Clean))) }
    ensures wordless { IfErr words.now (λ _. IsErr result) }
{
    let goal = accept(words)?;
    let bytes = read_all(alloc, greatest, input)?;
    let Ok(text) = str::from_utf8(bytes.as_slice()) else {
        return Err(Fault::NotUtf8);
    };
    let Report { verdict, lines } = parse(alloc, text, goal)?;
    write_text(output, lines.as_str())?;
    Ok(verdict)
}

/// The status that a run ends with.
fn status(outcome: &Result<Verdict, Fault>) -> u8
    ensures clean { outcome.now ≡ Ok Verdict.Clean → result ≡ 0 }
    ensures faulty { outcome.now ≡ Ok Verdict.Faulty → result ≡ 1 }
    ensures refused { outcome.now ≡ Ok Verdict.Refused → result ≡ 2 }
    ensures fault { IsErr outcome.now → result ≡ 3 }
    ensures zero { result ≡ 0 → outcome.now ≡ Ok Verdict.Clean }
{
    match outcome {
        Ok(Verdict::Clean) => 0,
        Ok(Verdict::Faulty) => 1,
        Ok(Verdict::Refused) => 2,
        Err(_) => 3,
    }
}

/// A run over its words, the greatest length of a text, a reader and two writers. It answers the status.
pub fn run<R: Read, W: Write, E: Write>(
    alloc: Global,
    words: io::Result<Vec<String>>,
    greatest: u32,
    input: &mut R,
    output: &mut W,
    errors: &mut E,
) -> u8
    ensures status { result ≤ 3 }

    // Words that are no command.
    ensures usage { IfOk words (λ words. asked words.items ≡ None → result ≡ 3) }
    ensures unread { IfOk words (λ words. asked words.items ≡ None → input.new ≡ input.old) }
    ensures unwritten { IfOk words (λ words. asked words.items ≡ None → output.new ≡ output.old) }

    // A text that was parsed.
    ensures fits { result < 3 → IfSome (R.remaining input.old) (λ xs. length xs ≤ greatest) }
    ensures utf8 { result < 3 → IfSome (R.remaining input.old) IsUtf8 }
    ensures end { result < 3 → IsAtEnd (R.remaining input.new) }
    ensures quiet { result < 3 → errors.new ≡ errors.old }

    ensures wordless { IfErr words (λ _. result ≡ 3) }

    // Status 0 says that the text spells a tree of what the words ask for, and that its lines were written; a text that does ends
    // with no other status, but that of a fault.
    ensures clean { result ≡ 0
        → IsOkAnd words (λ words. (goal : Goal) × (asked words.items ≡ Some goal)
        × IfSome (R.remaining input.old) (λ xs. (x : Tree) × SpellsAs goal xs x
        × Appends (W.contents output.old) (W.contents output.new) (answer_lines (Ok x) []))) }
    ensures spelled { IfOk words
        (λ words. (goal : Goal) → asked words.items ≡ Some goal
        → IfSome (R.remaining input.old) (λ xs. (x : Tree) → SpellsAs goal xs x
        → (result ≡ 0) ⊎ (result ≡ 3))) }
{
    let outcome = answer(alloc, &words, greatest, input, output);
    if let Err(fault) = outcome {
        // There is no place left to say that this fails.
        let _ = writeln!(errors, "{fault}");
    }
    status(&outcome)
}
