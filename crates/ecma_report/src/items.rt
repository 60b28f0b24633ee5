//! What a parser answers that is asked for one item of a module, as lines.

ghost use Rattle.std.specs.Prelude.{◌≡◌, [], IfOk, Result, string_bytes};
ghost use Rattle.swc_ecma_parser_ast.specs.View.{view_module_item};
ghost use Rattle.swc_ecma_parser_ast.specs.declared.program.ModuleItem.{ModuleItem};
ghost use Rattle.swc_ecma_parser_error.specs.declared.error.Error.{Error};
ghost use Rattle.swc_ecma_parser_model.specs.Held.{Held};
ghost use Rattle.swc_ecma_parser_module_reader.specs.ItemEntry.{SoundItemAlone};
ghost use Rattle.swc_ecma_parser_reader.specs.State.{State};
ghost use Rattle.swc_ecma_parser_reader.specs.Entry.{unmarked};
ghost use Rattle.ecma_report.specs.Lines.{answer_lines, seen};
ghost use Rattle.swc_ecma_parser_exactness.specs.Completes.{CompletesItem};

use crate::answer::discard;
use crate::lines::Whole;
use crate::modules::write_item;
use crate::texts::{Shown, texts};
use std::alloc::{AllocError, Global};
use swc_ecma_parser::Parser;
use swc_ecma_parser::ast::ModuleItem;
use swc_ecma_parser::input::Tokens;

impl Whole for ModuleItem {
    ghost view_of = { view_module_item };

    fn write(&self, out: &mut String) -> Result<(), AllocError> {
        write_item(out, self)
    }

    fn let_go(self) {
        self.discard();
    }
}

/// Has a parser read one item of a module, and takes the faults that it recorded. The lines are those of an answer and of the
/// faults of the state `t` behind it, in which the parser is left but for them. A tree among them is sound, and each item
/// within the limit that the language has for tokens from there on is that answer.
pub fn show_item<I: Tokens>(alloc: Global, parser: &mut Parser<I>) -> Result<Shown, AllocError>
    ensures { IfOk result
        (λ shown. (answer : Result (ModuleItem Held) Error) × (t : State)
        × (parser.new.state ≡ record t { faults = [] })
        × (string_bytes shown.lines ≡ answer_lines (seen view_module_item answer) t.faults)
        × IfOk answer (λ x. SoundItemAlone parser.old.limit (unmarked parser.old.state) (view_module_item x) t)
        × CompletesItem view_module_item parser.old.limit (unmarked parser.old.state) answer t) }
{
    let answer = parser.parse_module_item();
    let faults = parser.take_errors();
    let shown = texts(alloc, &answer, faults.as_slice());
    discard(answer);
    shown
}
