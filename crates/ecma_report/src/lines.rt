//! The lines that say what a text parses to.

ghost use Rattle.std.specs.Prelude.{◌≡◌, ◌++◌, OnOk, IfOk, Ok, Err, codes, map, string_bytes};
ghost use Rattle.std.specs.List.{flat_map};
ghost use Rattle.swc_ecma_parser_error.specs.Kind.{fault_of, faults_of};
ghost use Rattle.swc_ecma_parser_model.specs.Tree.{Tree, trees};
ghost use Rattle.swc_ecma_parser_ast.specs.View.{view_decl, view_stmt, view_script};
ghost use Rattle.ecma_report.specs.Lines.{node_line, fault_line, form_name, item_line, item_lines, whole_lines, answer_lines, seen, statement_lines};

use std::alloc::{AllocError, Global};
use swc_ecma_parser::ast::{Decl, Script, Stmt};
use swc_ecma_parser::common::{Span, Spanned};
use swc_ecma_parser::error::{Error, PResult};

/// The name of a declaration's variant.
fn declaration_kind(decl: &Decl) -> &'static str
    ensures { result.now ≡ form_name (view_decl decl.now) }
{
    match decl {
        Decl::Class(_) => "Class",
        Decl::Fn(_) => "Fn",
        Decl::Var(_) => "Var",
        Decl::Using(_) => "Using",
    }
}

/// The name of a statement's variant, or of a declaration's.
pub(crate) fn kind_name(stmt: &Stmt) -> &'static str
    ensures { result.now ≡ form_name (view_stmt stmt.now) }
{
    match stmt {
        Stmt::Block(_) => "Block",
        Stmt::Empty(_) => "Empty",
        Stmt::Debugger(_) => "Debugger",
        Stmt::With(_) => "With",
        Stmt::Return(_) => "Return",
        Stmt::Labeled(_) => "Labeled",
        Stmt::Break(_) => "Break",
        Stmt::Continue(_) => "Continue",
        Stmt::If(_) => "If",
        Stmt::Switch(_) => "Switch",
        Stmt::Throw(_) => "Throw",
        Stmt::Try(_) => "Try",
        Stmt::While(_) => "While",
        Stmt::DoWhile(_) => "DoWhile",
        Stmt::For(_) => "For",
        Stmt::ForIn(_) => "ForIn",
        Stmt::ForOf(_) => "ForOf",
        Stmt::Decl(decl) => declaration_kind(decl),
        Stmt::Expr(_) => "Expr",
    }
}

/// Writes a line of a kind and a place.
pub(crate) fn write_node(out: &mut String, kind: &str, span: Span) -> Result<(), AllocError>
    ensures { OnOk result (string_bytes out.new ≡ string_bytes out.old ++ node_line kind.now span) }
{
    let low = span.lo.0;
    let high = span.hi.0;
    writeln!(out, "{kind} {low}..{high}")
}

/// Writes a line of a word, a fault's place and the name of its kind.
fn write_fault(out: &mut String, word: &str, error: &Error) -> Result<(), AllocError>
    ensures { OnOk result
        (string_bytes out.new ≡ string_bytes out.old ++ fault_line word.now (fault_of error.now)) }
{
    let low = error.span.lo.0;
    let high = error.span.hi.0;
    let name = error.kind.name();
    writeln!(out, "{word} {low}..{high} {name}")
}

/// Writes an item's line.
fn write_item(out: &mut String, item: &Stmt) -> Result<(), AllocError>
    ensures { OnOk result
        (string_bytes out.new ≡ string_bytes out.old ++ item_line (view_stmt item.now)) }
{
    out.push_str("  ")?;
    write_node(out, kind_name(item), item.span())
}

/// Writes a line for each item.
fn write_items(out: &mut String, items: &[Stmt]) -> Result<(), AllocError>
    ensures { OnOk result
        (string_bytes out.new ≡ string_bytes out.old
        ++ item_lines (trees (map view_stmt items.now))) }
{
    for item in items {
        write_item(out, item)?;
    }
    Ok(())
}

/// Writes a line for each fault.
fn write_faults(out: &mut String, faults: &[Error]) -> Result<(), AllocError>
    ensures { OnOk result
        (string_bytes out.new ≡ string_bytes out.old
        ++ flat_map (fault_line (codes "fault")) (faults_of faults.now)) }
{
    for fault in faults {
        write_fault(out, "fault", fault)?;
    }
    Ok(())
}

/// A script, a module, or one item by itself.
pub trait Whole {
    ghost view_of: { Self → Tree };

    /// Writes the lines of the tree: its own, and those of its items if it has any.
    fn write(&self, out: &mut String) -> Result<(), AllocError>
        ensures { OnOk result
            (string_bytes out.new ≡ string_bytes out.old ++ whole_lines (view_of self.now)) };

    /// Drops it. How its type is dropped is proved where it stands, so this crate needs no proof of that.
    fn let_go(self);
}

impl Whole for Script {
    ghost view_of = { view_script };

    fn write(&self, out: &mut String) -> Result<(), AllocError> {
        write_node(out, "Script", self.span)?;
        write_items(out, self.body.as_slice())
    }

    fn let_go(self) {
        self.discard();
    }
}

/// The lines of a tree and of the faults beside it.
fn tree_lines<T: Whole>(alloc: Global, tree: &T, faults: &[Error]) -> Result<String, AllocError>
    ensures { IfOk result
        (λ out. string_bytes out ≡ answer_lines (Ok (T.view_of tree.now)) (faults_of faults.now)) }
{
    let mut out = String::new(alloc);
    tree.write(&mut out)?;
    write_faults(&mut out, faults)?;
    Ok(out)
}

/// The lines of the faults, and of why there is no tree.
fn refusal_lines(alloc: Global, error: &Error, faults: &[Error]) -> Result<String, AllocError>
    ensures { IfOk result
        (λ out. string_bytes out ≡ answer_lines (Err (fault_of error.now)) (faults_of faults.now)) }
{
    let mut out = String::new(alloc);
    write_faults(&mut out, faults)?;
    write_fault(&mut out, "refused", error)?;
    Ok(out)
}

/// The lines of an answer and of the faults beside it.
pub(crate) fn lines<T: Whole>(
    alloc: Global,
    answer: &PResult<T>,
    faults: &[Error],
) -> Result<String, AllocError>
    ensures { IfOk result
        (λ out. string_bytes out
        ≡ answer_lines (seen T.view_of answer.now) (faults_of faults.now)) }
{
    match answer {
        Ok(tree) => tree_lines(alloc, tree, faults),
        Err(error) => refusal_lines(alloc, error, faults),
    }
}

/// The lines of a statement and of the faults beside it.
fn lines_of_item(alloc: Global, item: &Stmt, faults: &[Error]) -> Result<String, AllocError>
    ensures { IfOk result
        (λ out. string_bytes out
        ≡ statement_lines (Ok (view_stmt item.now)) (faults_of faults.now)) }
{
    let mut out = String::new(alloc);
    write_item(&mut out, item)?;
    write_faults(&mut out, faults)?;
    Ok(out)
}

/// The lines of what was asked for one statement, and of the faults beside it.
pub fn lines_of_statement(
    alloc: Global,
    answer: &PResult<Stmt>,
    faults: &[Error],
) -> Result<String, AllocError>
    ensures { IfOk result
        (λ out. string_bytes out
        ≡ statement_lines (seen view_stmt answer.now) (faults_of faults.now)) }
{
    match answer {
        Ok(item) => lines_of_item(alloc, item, faults),
        Err(error) => refusal_lines(alloc, error, faults),
    }
}
