//! The words that a run is called with.

ghost use Rattle.std.specs.Prelude.{◌≡◌, ◌≢◌, None, length, IsOk, IfOk, IsErrOf, OnSome};
ghost use Rattle.ecma_bench.specs.Words.{file_asked, file_of};

use crate::fault::Fault;
use crate::shape::Shape;
use std::io;
use std::io::ErrorKind;

/// What a text is read as: a goal symbol of ECMA-262, section 5.1.4.
#[derive(Clone, Copy)]
pub enum Goal {
    Script,
    Module,
}

/// Where a text comes from.
#[derive(Clone, Copy)]
pub enum Source<'a> {
    /// It is made: of this shape, and of at least so many bytes.
    Made { shape: Shape, bytes: u32 },
    /// It is read from the file of this name.
    File(&'a str),
}

/// What is measured.
#[derive(Clone, Copy)]
pub struct Command<'a> {
    pub source: Source<'a>,
    pub goal: Goal,
}

/// The command for the file of a name.
fn of_file(name: &str, goal: Goal) -> Command<'_>
    ensures { result ≡ record { source = Source.File name.entry; goal = goal } }
{
    Command {
        source: Source::File(name),
        goal,
    }
}

/// The command for a shape and a number of bytes.
fn of_shape<'a>(shape: &str, bytes: &str) -> Result<Command<'a>, Fault>
    ensures { IfOk result (λ command. file_of command ≡ None) }
{
    Ok(Command {
        source: Source::Made {
            shape: shape.parse()?,
            bytes: bytes.parse().map_err(|_| Fault::Usage)?,
        },
        goal: Goal::Script,
    })
}

/// The command of these words.
fn command_of(words: &[String]) -> Result<Command<'_>, Fault>
    ensures usage { length words.now ≢ 2 → file_asked words.now ≡ None
        → IsErrOf result Fault.Usage }
    ensures file { IfOk result (λ command. file_of command ≡ file_asked words.now) }
    ensures known { OnSome (file_asked words.now) (IsOk result) }
{
    match words {
        [first, name] => {
            if first.as_str() == "file" {
                Ok(of_file(name.as_str(), Goal::Script))
            } else {
                of_shape(first.as_str(), name.as_str())
            }
        }
        [first, name, last] => {
            if first.as_str() == "file" && last.as_str() == "module" {
                Ok(of_file(name.as_str(), Goal::Module))
            } else {
                Err(Fault::Usage)
            }
        }
        _ => Err(Fault::Usage),
    }
}

/// Accepts a shape and a number of bytes, or the word `file` and a name, behind which `module` may stand. A word that is not UTF-8
/// is none of those that the program knows.
pub fn accept(words: &io::Result<Vec<String>>) -> Result<Command<'_>, Fault>
    ensures usage { IfOk words.now
        (λ words. length words.items ≢ 2 → file_asked words.items ≡ None
        → IsErrOf result Fault.Usage) }
    ensures file { IfOk words.now
        (λ words. IfOk result (λ command. file_of command ≡ file_asked words.items)) }
    ensures known { IfOk words.now (λ words. OnSome (file_asked words.items) (IsOk result)) }
{
    match words {
        Ok(words) => command_of(words.as_slice()),
        Err(error) => {
            if error.kind() == ErrorKind::OutOfMemory {
                Err(Fault::OutOfMemory)
            } else {
                Err(Fault::Usage)
            }
        }
    }
}
