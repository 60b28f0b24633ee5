//! What a parser answers that is asked for a program, as lines.

ghost use Rattle.std.specs.Prelude.{◌≡◌, [], IfOk, Result, string_bytes};
ghost use Rattle.swc_ecma_parser_ast.specs.View.{view_program};
ghost use Rattle.swc_ecma_parser_ast.specs.declared.program.Program.{Program};
ghost use Rattle.swc_ecma_parser_error.specs.declared.error.Error.{Error};
ghost use Rattle.swc_ecma_parser_model.specs.Held.{Held};
ghost use Rattle.swc_ecma_parser_module_reader.specs.ProgramEntry.{SoundProgram};
ghost use Rattle.swc_ecma_parser_reader.specs.State.{State};
ghost use Rattle.swc_ecma_parser_reader.specs.Entry.{unmarked};
ghost use Rattle.ecma_report.specs.Lines.{answer_lines, seen};
ghost use Rattle.swc_ecma_parser_exactness.specs.Completes.{CompletesProgram};

use crate::answer::discard;
use crate::lines::Whole;
use crate::texts::{Shown, texts};
use std::alloc::{AllocError, Global};
use swc_ecma_parser::Parser;
use swc_ecma_parser::ast::Program;
use swc_ecma_parser::input::Tokens;

impl Whole for Program {
    ghost view_of = { view_program };

    fn write(&self, out: &mut String) -> Result<(), AllocError> {
        match self {
            Program::Module(whole) => whole.write(out),
            Program::Script(whole) => whole.write(out),
        }
    }

    fn let_go(self) {
        self.discard();
    }
}

/// Has a parser read a program, and takes the faults that it recorded. The lines are those of an answer and of the faults of the
/// state `t` behind it, in which the parser is left but for them: a script's or a module's, whichever it turned out to be. A tree
/// among them is sound, and each program within the limit that the language has for the parser's list is that answer.
pub fn show_program<I: Tokens>(alloc: Global, parser: &mut Parser<I>) -> Result<Shown, AllocError>
    ensures { IfOk result
        (λ shown. (answer : Result (Program Held) Error) × (t : State)
        × (parser.new.state ≡ record t { faults = [] })
        × (string_bytes shown.lines ≡ answer_lines (seen view_program answer) t.faults)
        × IfOk answer (λ x. SoundProgram parser.old.limit (unmarked parser.old.state) (view_program x) t)
        × CompletesProgram view_program parser.old.limit (unmarked parser.old.state) answer t) }
{
    let answer = parser.parse_program();
    let faults = parser.take_errors();
    let shown = texts(alloc, &answer, faults.as_slice());
    discard(answer);
    shown
}
