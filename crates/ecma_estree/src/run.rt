//! From the stack to the text, step by step.

ghost use Rattle.std.specs.Prelude.{◌≡◌, ◌++◌, OnOk};
ghost use Rattle.ecma_estree_writer.specs.Parts.{directive};
ghost use Rattle.ecma_estree_writer.specs.Estree.{json, plain};
ghost use Rattle.ecma_estree_writer.specs.Writing.{Appends, Writes};
ghost use Rattle.ecma_estree_writer.specs.Work.{work_text};
ghost use Rattle.swc_ecma_parser_ast.specs.View.{view_str};

use crate::exports::write_item;
use crate::lists;
use crate::stmts::{
    write_block, write_body, write_case, write_catch, write_decl, write_declarator, write_stmt,
};
use ecma_estree_exprs::{
    write_accessor, write_argument, write_attribute, write_class_body, write_class_member,
    write_decorator, write_expr, write_linked, write_method_value, write_part, write_pat,
    write_pat_part, write_template,
};
use ecma_estree_writer::{
    Work, Writer, write_name, write_private_name, write_str, write_template_element,
};
use std::alloc::AllocError;
use swc_ecma_parser_ast::{ExprBox, PatBox, StmtBox, Str};

/// Writes an expression.
fn write_boxed_expr<'a>(w: &mut Writer<'a>, expr: &'a ExprBox) -> Result<(), AllocError>
    ensures { OnOk result (Writes w.old w.new (json w.old.source plain (expr.now.node.tree))) }
{
    match expr.get() {
        Some(x) => write_expr(w, x),
        None => Err(AllocError),
    }
}

/// Writes a pattern.
fn write_boxed_pat<'a>(w: &mut Writer<'a>, pat: &'a PatBox) -> Result<(), AllocError>
    ensures { OnOk result (Writes w.old w.new (json w.old.source plain (pat.now.node.tree))) }
{
    match pat.get() {
        Some(x) => write_pat(w, x),
        None => Err(AllocError),
    }
}

/// Writes a statement.
fn write_boxed_stmt<'a>(w: &mut Writer<'a>, stmt: &'a StmtBox) -> Result<(), AllocError>
    ensures { OnOk result (Writes w.old w.new (json w.old.source plain (stmt.now.node.tree))) }
{
    match stmt.get() {
        Some(x) => write_stmt(w, x),
        None => Err(AllocError),
    }
}

/// Writes the field that a string has as a directive: what stands between its quotes.
fn write_directive_field(w: &mut Writer<'_>, literal: &Str) -> Result<(), AllocError>
    ensures { OnOk result (Appends w.old w.new (directive (view_str literal.now))) }
{
    w.key("directive")?;
    w.inner(literal.raw.as_str())
}

/// Does one piece of work.
#[tactic(auto, using(ecma_estree_writer::proofs::Written::appended_on_ok, ecma_estree_writer::proofs::Written::pushed_on_ok))]
fn step<'a>(w: &mut Writer<'a>, work: Work<'a>) -> Result<(), AllocError>
    ensures { OnOk result (Writes w.old w.new (work_text w.old.source work.entry)) }
{
    match work {
        Work::End => w.end(),
        Work::OpenList => w.open_list(),
        Work::EndList => w.end_list(),
        Work::Nothing => w.nothing(),
        Work::Further => w.further_fields(),
        Work::Key(name) => w.key(name),
        Work::Word(name, word) => w.word(name, word),
        Work::Bool(name, value) => w.flag(name, value),
        Work::Name(x) => write_name(w, x),
        Work::PrivateName(x) => write_private_name(w, x),
        Work::Str(x) => write_str(w, x),
        Work::Directive(x) => write_directive_field(w, x),
        Work::Expr(x) => write_boxed_expr(w, x),
        Work::Link(x) => write_linked(w, x),
        Work::Template(x) => write_template(w, x),
        Work::Quasi(x) => write_template_element(w, x),
        Work::Quasis(xs, is_first) => lists::write_quasis(w, xs, is_first),
        Work::Exprs(xs, is_first) => lists::write_exprs(w, xs, is_first),
        Work::Elements(xs, is_first) => lists::write_elements(w, xs, is_first),
        Work::Argument(x) => write_argument(w, x),
        Work::Arguments(xs, is_first) => lists::write_arguments(w, xs, is_first),
        Work::Property(x) => write_part(w, x),
        Work::Properties(xs, is_first) => lists::write_properties(w, xs, is_first),
        Work::Attribute(x) => write_attribute(w, x),
        Work::Attributes(xs, is_first) => lists::write_attributes(w, xs, is_first),
        Work::Pat(x) => write_boxed_pat(w, x),
        Work::Pattern(x) => write_pat(w, x),
        Work::Patterns(xs, is_first) => lists::write_patterns(w, xs, is_first),
        Work::PatElements(xs, is_first) => lists::write_pat_elements(w, xs, is_first),
        Work::PatProperty(x) => write_pat_part(w, x),
        Work::PatProperties(xs, is_first) => lists::write_pat_properties(w, xs, is_first),
        Work::Params(xs, is_first) => lists::write_params(w, xs, is_first),
        Work::ConstructorParams(xs, is_first) => lists::write_constructor_params(w, xs, is_first),
        Work::Decorator(x) => write_decorator(w, x),
        Work::Decorators(xs, is_first) => lists::write_decorators(w, xs, is_first),
        Work::Function(x, start) => write_method_value(w, x, start),
        Work::Accessor(start, end) => write_accessor(w, start, end),
        Work::ClassBody(start, end) => write_class_body(w, start, end),
        Work::Member(x) => write_class_member(w, x),
        Work::Members(xs, is_first) => lists::write_members(w, xs, is_first),
        Work::Stmt(x) => write_boxed_stmt(w, x),
        Work::Statement(x) => write_stmt(w, x),
        Work::Statements(xs, is_first) => lists::write_statements(w, xs, is_first),
        Work::Directives(xs, is_first) => lists::write_directives(w, xs, is_first),
        Work::Block(x) => write_block(w, x),
        Work::Body(x) => write_body(w, x),
        Work::Case(x) => write_case(w, x),
        Work::Cases(xs, is_first) => lists::write_cases(w, xs, is_first),
        Work::Catch(x) => write_catch(w, x),
        Work::Declarator(x) => write_declarator(w, x),
        Work::Declarators(xs, is_first) => lists::write_declarators(w, xs, is_first),
        Work::Declaration(x) => write_decl(w, x),
        Work::Item(x) => write_item(w, x),
        Work::Items(xs, is_first) => lists::write_items(w, xs, is_first),
        Work::DirectiveItems(xs, is_first) => lists::write_directive_items(w, xs, is_first),
        Work::Imports(xs, is_first) => lists::write_imports(w, xs, is_first),
        Work::Exports(xs, is_first) => lists::write_exports(w, xs, is_first),
    }
}

/// Does all work.
pub(crate) fn finish(w: &mut Writer<'_>) -> Result<(), AllocError>
    ensures { OnOk result (w.new.written ≡ w.old.written ++ w.old.pending) }
{
    for _ in 0..u64::MAX {
        let Some(work) = w.pop() else {
            return Ok(());
        };
        step(w, work)?;
    }
    Err(AllocError)
}
