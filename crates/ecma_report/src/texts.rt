//! What a parser answers, as texts.

ghost use Rattle.std.specs.Prelude.{◌≡◌, [], IfOk, Result, string_bytes};
ghost use Rattle.swc_ecma_parser_ast.specs.View.{view_script};
ghost use Rattle.swc_ecma_parser_ast.specs.declared.script.Script.{Script};
ghost use Rattle.swc_ecma_parser_error.specs.Kind.{faults_of};
ghost use Rattle.swc_ecma_parser_error.specs.declared.error.Error.{Error};
ghost use Rattle.swc_ecma_parser_model.specs.Held.{Held};
ghost use Rattle.swc_ecma_parser_reader.specs.State.{State};
ghost use Rattle.swc_ecma_parser_reader.specs.Entry.{unmarked, SoundScript};
ghost use Rattle.ecma_report.specs.Lines.{answer_lines, seen};
ghost use Rattle.swc_ecma_parser_exactness.specs.Completes.{CompletesScript};

use crate::answer::discard;
use crate::lines::{Whole, lines};
use std::alloc::{AllocError, Global};
use std::fmt::Debug;
use swc_ecma_parser::Parser;
use swc_ecma_parser::error::{Error, PResult};
use swc_ecma_parser::input::Tokens;

/// An answer as texts.
#[derive(Debug, Drop)]
pub struct Shown {
    /// The lines of the answer and of the faults beside it.
    pub lines: String,
    /// The tree as `{:?}` prints it: each node by its name, with its span first, and what it holds in braces. Empty where there
    /// is none.
    pub tree: String,
}

/// A tree as it is printed, if there is one.
fn printed<T: Debug>(alloc: Global, answer: &PResult<T>) -> Result<String, AllocError> {
    match answer {
        Ok(tree) => format!(in alloc; "{tree:?}"),
        Err(_) => Ok(String::new(alloc)),
    }
}

/// An answer and the faults beside it as texts.
pub(crate) fn texts<T: Whole + Debug>(
    alloc: Global,
    answer: &PResult<T>,
    faults: &[Error],
) -> Result<Shown, AllocError>
    ensures { IfOk result
        (λ shown. string_bytes shown.lines
        ≡ answer_lines (seen T.view_of answer.now) (faults_of faults.now)) }
{
    Ok(Shown {
        lines: lines(alloc, answer, faults)?,
        tree: printed(alloc, answer)?,
    })
}

/// Has a parser read a script, and takes the faults that it recorded. The lines are those of an answer and of the faults of the
/// state `t` behind it, in which the parser is left but for them. A tree among them is sound, and each tree within the
/// limit that the language has for the parser's list is that answer.
pub fn show<I: Tokens>(alloc: Global, parser: &mut Parser<I>) -> Result<Shown, AllocError>
    ensures { IfOk result
        (λ shown. (answer : Result (Script Held) Error) × (t : State)
        × (parser.new.state ≡ record t { faults = [] })
        × (string_bytes shown.lines ≡ answer_lines (seen view_script answer) t.faults)
        × IfOk answer (λ x. SoundScript parser.old.limit (unmarked parser.old.state) (view_script x) t)
        × CompletesScript view_script parser.old.limit (unmarked parser.old.state) answer t) }
{
    let answer = parser.parse_script();
    let faults = parser.take_errors();
    let shown = texts(alloc, &answer, faults.as_slice());
    discard(answer);
    shown
}
