//! The text that is measured.

ghost use Rattle.std.specs.Prelude.{◌≡◌, ◌≤◌, ◌⊎◌, IfOk, IfErr, string_len};
ghost use Rattle.ecma_bench.specs.Words.{least_of};

use crate::command::Source;
use crate::fault::Fault;
use std::fs;
use std::io::ErrorKind;
use std::rt::Files;

/// The text of a file. What a file holds, no contract can say.
fn text_of_file<R: Files + AllocGlobal>(rt: &R, name: &str) -> Result<String, Fault>
    ensures { IfErr result (λ fault. (fault ≡ Fault.CannotRead) ⊎ (fault ≡ Fault.OutOfMemory)) }
{
    match fs::read_to_string(rt, name) {
        Ok(text) => Ok(text),
        Err(error) => {
            if error.kind() == ErrorKind::OutOfMemory {
                Err(Fault::OutOfMemory)
            } else {
                Err(Fault::CannotRead)
            }
        }
    }
}

/// The text that is asked for.
pub fn text_of<R: Files + AllocGlobal>(rt: &R, source: Source<'_>) -> Result<String, Fault>
    ensures { IfOk result (λ text. least_of source.entry ≤ string_len text) }
{
    match source {
        Source::Made { shape, bytes } => Ok(shape.text(rt.alloc(), bytes)?),
        Source::File(name) => text_of_file(rt, name),
    }
}
