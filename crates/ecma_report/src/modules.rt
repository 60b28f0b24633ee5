//! What a parser answers that is asked for a module, as lines.

ghost use Rattle.std.specs.Prelude.{◌≡◌, ◌++◌, [], IfOk, OnOk, Result, map, string_bytes};
ghost use Rattle.swc_ecma_parser_ast.specs.View.{view_module, view_module_decl, view_module_item};
ghost use Rattle.swc_ecma_parser_ast.specs.declared.program.Module.{Module};
ghost use Rattle.swc_ecma_parser_error.specs.declared.error.Error.{Error};
ghost use Rattle.swc_ecma_parser_model.specs.Held.{Held};
ghost use Rattle.swc_ecma_parser_model.specs.Tree.{trees};
ghost use Rattle.swc_ecma_parser_module_reader.specs.Entry.{IsEntered, SoundModule};
ghost use Rattle.swc_ecma_parser_reader.specs.State.{State};
ghost use Rattle.swc_ecma_parser_reader.specs.Entry.{unmarked};
ghost use Rattle.ecma_report.specs.Lines.{form_name, item_line, item_lines, answer_lines, seen};
ghost use Rattle.swc_ecma_parser_exactness.specs.Completes.{CompletesModule};

use crate::answer::discard;
use crate::lines::{Whole, kind_name, write_node};
use crate::texts::{Shown, texts};
use std::alloc::{AllocError, Global};
use swc_ecma_parser::Parser;
use swc_ecma_parser::ast::{Module, ModuleDecl, ModuleItem};
use swc_ecma_parser::common::Spanned;
use swc_ecma_parser::input::Tokens;

/// The name of the variant of an import or an export.
fn decl_kind(decl: &ModuleDecl) -> &'static str
    ensures { result.now ≡ form_name (view_module_decl decl.now) }
{
    match decl {
        ModuleDecl::Import(_) => "Import",
        ModuleDecl::ExportDecl(_) => "ExportDecl",
        ModuleDecl::ExportNamed(_) => "ExportNamed",
        ModuleDecl::ExportDefaultDecl(_) => "ExportDefaultDecl",
        ModuleDecl::ExportDefaultExpr(_) => "ExportDefaultExpr",
        ModuleDecl::ExportAll(_) => "ExportAll",
    }
}

/// The name of an item's variant.
fn item_kind(item: &ModuleItem) -> &'static str
    ensures { result.now ≡ form_name (view_module_item item.now) }
{
    match item {
        ModuleItem::ModuleDecl(decl) => decl_kind(decl),
        ModuleItem::Stmt(stmt) => kind_name(stmt),
    }
}

/// Writes an item's line.
pub(crate) fn write_item(out: &mut String, item: &ModuleItem) -> Result<(), AllocError>
    ensures { OnOk result
        (string_bytes out.new ≡ string_bytes out.old ++ item_line (view_module_item item.now)) }
{
    out.push_str("  ")?;
    write_node(out, item_kind(item), item.span())
}

/// Writes a line for each item.
fn write_items(out: &mut String, items: &[ModuleItem]) -> Result<(), AllocError>
    ensures { OnOk result
        (string_bytes out.new ≡ string_bytes out.old
        ++ item_lines (trees (map view_module_item items.now))) }
{
    for item in items {
        write_item(out, item)?;
    }
    Ok(())
}

impl Whole for Module {
    ghost view_of = { view_module };

    fn write(&self, out: &mut String) -> Result<(), AllocError> {
        write_node(out, "Module", self.span)?;
        write_items(out, self.body.as_slice())
    }

    fn let_go(self) {
        self.discard();
    }
}

/// Has a parser read a module, and takes the faults that it recorded. The lines are those of an answer and of the faults of the
/// state `t` behind it, in which the parser is left but for them. From a state on in which module code begins, a tree among them
/// is sound, and each module within the limit that the language has for the parser's list is that answer.
pub fn show_module<I: Tokens>(alloc: Global, parser: &mut Parser<I>) -> Result<Shown, AllocError>
    ensures { IfOk result
        (λ shown. (answer : Result (Module Held) Error) × (t : State)
        × (parser.new.state ≡ record t { faults = [] })
        × (string_bytes shown.lines ≡ answer_lines (seen view_module answer) t.faults)
        × ((u : State) × IsEntered (unmarked parser.old.state) u × IfOk answer (λ x. SoundModule parser.old.limit u (view_module x) t))
        × ((u : State) × IsEntered (unmarked parser.old.state) u × CompletesModule view_module parser.old.limit u answer t)) }
{
    let answer = parser.parse_module();
    let faults = parser.take_errors();
    let shown = texts(alloc, &answer, faults.as_slice());
    discard(answer);
    shown
}
