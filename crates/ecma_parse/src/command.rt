//! The words that a run is called with.

ghost use Rattle.std.specs.Prelude.{◌≡◌, ◌≢◌, Some, None, Ok, IsOkAnd, IfOk, IfErr, IsErrOf};
ghost use Rattle.std.specs.IoError.{error_kind};
ghost use Rattle.ecma_parse.specs.Command.{named, asked};

use crate::fault::Fault;
use ecma_report::Goal;
use std::io;
use std::io::ErrorKind;

/// What a word asks for, if it asks for anything.
fn goal_named(word: &str) -> Option<Goal>
    ensures { result ≡ named word.now }
{
    match word {
        "script" => Some(Goal::Script),
        "module" => Some(Goal::Module),
        "program" => Some(Goal::Program),
        _ => None,
    }
}

/// What the words ask for: one word alone does, and no word asks for a script.
fn goal_asked(words: &[String]) -> Option<Goal>
    ensures { result ≡ asked words.now }
{
    match words {
        [] => Some(Goal::Script),
        [word] => goal_named(word.as_str()),
        _ => None,
    }
}

/// What the words ask for. A word that is not UTF-8 is none of those that the program knows.
pub fn accept(words: &io::Result<Vec<String>>) -> Result<Goal, Fault>
    ensures ok { IfOk result (λ goal. IsOkAnd words.now (λ words. asked words.items ≡ Some goal)) }
    ensures known { IfOk words.now
        (λ words. (goal : _) → asked words.items ≡ Some goal → result ≡ Ok goal) }
    ensures usage { IfOk words.now
        (λ words. asked words.items ≡ None → IsErrOf result Fault.Usage) }
    ensures memory { IfErr words.now
        (λ e. error_kind e ≡ ErrorKind.OutOfMemory → IsErrOf result Fault.OutOfMemory) }
    ensures other { IfErr words.now
        (λ e. error_kind e ≢ ErrorKind.OutOfMemory → IsErrOf result Fault.Usage) }
{
    match words {
        Ok(words) => goal_asked(words.as_slice()).ok_or(Fault::Usage),
        Err(error) => {
            if error.kind() == ErrorKind::OutOfMemory {
                Err(Fault::OutOfMemory)
            } else {
                Err(Fault::Usage)
            }
        }
    }
}
