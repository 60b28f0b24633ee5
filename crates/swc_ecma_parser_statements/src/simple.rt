//! Statements of one line: the empty statement, `debugger` and expression statements: ECMA-262, sections 14.4, 14.16 and 14.5.

ghost use Rattle.std.specs.Prelude.{◌≡◌};
ghost use Rattle.swc_ecma_parser_grammar.specs.Follows as follows;
ghost use Rattle.swc_ecma_parser_grammar.specs.language.Goals.{expression};
ghost use Rattle.swc_ecma_parser_reader.specs.Reader as rules;
ghost use Rattle.swc_ecma_parser_reader.specs.State.{Gives, GivesAs};

use crate::statement_end::stmt_end;
use std::alloc::Global;
use swc_ecma_parser_common::{Atom, Boxed};
use swc_ecma_parser_cursor::{Cursor, Wanted};
use swc_ecma_parser_error::{PResult, SyntaxError};
use swc_ecma_parser_grammar::{Class, Position};
use swc_ecma_parser_shared::cover::nested;
use swc_ecma_parser_shared::readers::Readers;
use swc_ecma_parser_shared::steps::{grown, since, with_in};
use swc_ecma_parser_token::TokenKind;
use swc_ecma_parser_trees::{BuildsOperator, BuildsStmt, MakerOf, Trees};

/// A statement that is a part of another, and no declaration.
pub const SUB_STATEMENT: Position = Position {
    include_decl: false,
    top_level: false,
};

/// `;`
#[tactic(auto, unfolding(swc_ecma_parser_reader::specs::Reader::empty, swc_ecma_parser_grammar::specs::Looks::spanned))]
pub fn empty<P: Cursor, T: BuildsStmt>(alloc: Global, p: &mut P) -> PResult<T::Stmt>
    ensures { GivesAs T.stmt_of (rules.empty (P.seen p.old)) result (P.seen p.new) }
{
    let start = p.span();
    p.skip()?;
    let span = since(p, start);
    grown(p, T::empty(alloc, span))
}

/// `debugger`
#[tactic(auto, unfolding(swc_ecma_parser_reader::specs::Reader::debugger, swc_ecma_parser_grammar::specs::Looks::spanned))]
pub fn debugger<P: Cursor, T: BuildsStmt>(alloc: Global, p: &mut P) -> PResult<T::Stmt>
    ensures { GivesAs T.stmt_of (rules.debugger (P.seen p.old)) result (P.seen p.new) }
{
    let start = p.span();
    p.skip()?;
    p.end(Wanted::Token(";"))?;
    let span = since(p, start);
    grown(p, T::debugger(alloc, span))
}

/// Adds the fault that the bare name `interface` is in module code.
#[tactic(auto, unfolding(swc_ecma_parser_reader::specs::Reader::note_statement))]
pub(crate) fn note_statement<P: Cursor, T: Trees>(
    alloc: Global,
    p: &mut P,
    x: &T::Expr,
) -> PResult<()>
    ensures { Gives (rules.note_statement (T.expr_of x.now) (P.seen p.old)) result (P.seen p.new) }
{
    if !T::is_ident_named(x, "interface") {
        return Ok(());
    }
    let word = grown(p, Atom::new(alloc, "interface"))?;
    let word = grown(p, Boxed::new(alloc, word))?;
    p.module_fault(SyntaxError::InvalidIdentInStrict(word), T::expr_span(x))
}

/// Refuses a bare name before `:`, which is a label and no expression.
#[tactic(auto, unfolding(swc_ecma_parser_reader::specs::Reader::no_label))]
pub(crate) fn no_label<P: Cursor, T: Trees>(p: &mut P, x: &T::Expr) -> PResult<()>
    ensures { Gives (rules.no_label (T.expr_of x.now) (P.seen p.old)) result (P.seen p.new) }
{
    if T::is_ident(x) && p.sees(TokenKind::Colon) {
        return Err(p.wanted(Wanted::Expression));
    }
    Ok(())
}

/// An expression statement.
#[tactic(auto, unfolding(swc_ecma_parser_reader::specs::Reader::expr_stmt, swc_ecma_parser_grammar::specs::Looks::spanned))]
fn expr_stmt<P: Cursor, T: BuildsStmt + BuildsOperator, G: Readers<P, T>>(
    g: &G,
    t: &MakerOf<T>,
    p: &mut P,
) -> PResult<T::Stmt>
    requires { G.ready g.now }
    ensures { GivesAs T.stmt_of
        (rules.expr_stmt (rules.expr (G.depth g.now) expression) (rules.operators (G.depth g.now))
        (P.seen p.old)) result (P.seen p.new) }
{
    let start = p.span();
    let outer = p.flags();
    p.set_flags(with_in(outer));
    let x = nested(g, t, p, Class::Expression)?;
    p.set_flags(outer);
    no_label::<P, T>(p, &x)?;
    note_statement::<P, T>(t.alloc, p, &x)?;
    let whole = stmt_end(g, t, p, start, x)?;
    let span = since(p, start);
    grown(p, T::expr_stmt(t.alloc, span, whole))
}

/// An expression statement, where one may begin.
#[tactic(auto, unfolding(swc_ecma_parser_reader::specs::Reader::expr_stmt_at))]
#[inline(never)]
pub fn expr_stmt_at<P: Cursor, T: BuildsStmt + BuildsOperator, G: Readers<P, T>>(
    g: &G,
    t: &MakerOf<T>,
    p: &mut P,
    at: Position,
) -> PResult<T::Stmt>
    requires { G.ready g.now }
    ensures { GivesAs T.stmt_of
        (rules.expr_stmt_at (rules.expr (G.depth g.now) expression)
        (rules.operators (G.depth g.now)) at (P.seen p.old)) result (P.seen p.new) }
{
    if !p.may_begin_expression_statement(at) {
        return Err(p.wanted(Wanted::Expression));
    }
    expr_stmt(g, t, p)
}

/// An end that nothing demands.
#[tactic(auto, unfolding(swc_ecma_parser_reader::specs::Reader::optional_end))]
pub fn optional_end<P: Cursor>(p: &mut P) -> PResult<()>
    ensures { Gives (rules.optional_end (P.seen p.old)) result (P.seen p.new) }
{
    if p.sees(TokenKind::Semi) {
        return p.skip();
    }
    Ok(())
}

/// Whether `import(` or `import.` stands here.
#[tactic(auto, unfolding(swc_ecma_parser_grammar::specs::Follows::begins_import_expression))]
fn begins_import_expression<P: Cursor>(p: &P) -> bool
    ensures { result ≡ follows.begins_import_expression (P.seen p.now).at }
{
    p.sees(TokenKind::Import) && (p.next_sees(TokenKind::LParen) || p.next_sees(TokenKind::Dot))
}

/// An expression statement, where `import` begins one. Neither `import` nor `export` begins any other statement.
#[tactic(auto, unfolding(swc_ecma_parser_reader::specs::Reader::import_stmt_at))]
#[inline(never)]
pub fn import_stmt_at<P: Cursor, T: BuildsStmt + BuildsOperator, G: Readers<P, T>>(
    g: &G,
    t: &MakerOf<T>,
    p: &mut P,
) -> PResult<T::Stmt>
    requires { G.ready g.now }
    ensures { GivesAs T.stmt_of
        (rules.import_stmt_at (rules.expr (G.depth g.now) expression)
        (rules.operators (G.depth g.now)) (P.seen p.old)) result (P.seen p.new) }
{
    if begins_import_expression(p) {
        return expr_stmt(g, t, p);
    }
    Err(p.refuse_as(SyntaxError::ImportExportInScript))
}
