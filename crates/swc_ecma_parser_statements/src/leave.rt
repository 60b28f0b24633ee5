//! `return` and `throw`: ECMA-262, sections 14.10 and 14.14.

ghost use Rattle.std.specs.Prelude.{◌≡◌, ◌≢◌, Err};
ghost use Rattle.swc_ecma_parser_error.specs.Kind as kinds;
ghost use Rattle.swc_ecma_parser_error.specs.Kind.{fault_of, kind_of};
ghost use Rattle.swc_ecma_parser_grammar.specs.language.Goals.{expression};
ghost use Rattle.swc_ecma_parser_reader.specs.Reader as rules;
ghost use Rattle.swc_ecma_parser_reader.specs.State.{Gives, GivesAs};
ghost use Rattle.swc_ecma_parser_trees.specs.Parts.{part_of};

use swc_ecma_parser_common::Span;
use swc_ecma_parser_cursor::{Cursor, Wanted};
use swc_ecma_parser_error::{Error, PResult, SyntaxError};
use swc_ecma_parser_grammar::Class;
use swc_ecma_parser_shared::cover::inside;
use swc_ecma_parser_shared::ends::ends_at;
use swc_ecma_parser_shared::readers::Readers;
use swc_ecma_parser_shared::steps::{grown, since};
use swc_ecma_parser_token::TokenKind;
use swc_ecma_parser_trees::{BuildsControl, MakerOf, Trees};

/// Whether a `return` may stand here: a function stands around it, or the setting asks for none.
fn may_return<P: Cursor>(p: &P) -> bool
    ensures { result ≡ rules.may_return (P.seen p.now).code }
{
    p.flags().in_function || p.allow_return_outside_function()
}

/// Records that a `return` stands where it may not, up to what was read last.
#[tactic(auto, unfolding(swc_ecma_parser_reader::specs::Reader::misplaced))]
fn misplaced<P: Cursor>(p: &mut P, is_allowed: bool, start: Span) -> PResult<()>
    ensures { Gives (rules.misplaced is_allowed start (P.seen p.old)) result (P.seen p.new) }
{
    if !is_allowed {
        let span = since(p, start);
        p.fault(SyntaxError::ReturnNotAllowed, span)?;
    }
    Ok(())
}

/// The refusal of what stands behind `return`, with the fault of its own recorded. One for want of memory or depth stays as it is.
fn refused<P: Cursor>(p: &mut P, is_allowed: bool, start: Span, error: Error) -> Error
    ensures memory { kind_of result.kind ≢ kinds.OutOfMemory → kind_of error.kind
        ≢ kinds.OutOfMemory }
    ensures gives { kind_of result.kind ≢ kinds.OutOfMemory
        → rules.after_return is_allowed start (Err (fault_of error, P.seen p.old)) ≡ Err (fault_of result, P.seen p.new) }
{
    if matches!(error.kind, SyntaxError::OutOfMemory) || p.is_marked() {
        return error;
    }
    match misplaced(p, is_allowed, start) {
        Ok(()) => error,
        Err(error) => error,
    }
}

/// What a `return` answers, if the statement does not end here.
#[tactic(auto, unfolding(swc_ecma_parser_reader::specs::Reader::operand, swc_ecma_parser_reader::specs::Expressions::inside))]
fn operand<P: Cursor, T: Trees, G: Readers<P, T>>(
    g: &G,
    t: &MakerOf<T>,
    p: &mut P,
) -> PResult<Option<T::Expr>>
    requires { G.ready g.now }
    ensures { GivesAs (part_of T.expr_of)
        (rules.operand (rules.expr (G.depth g.now) expression) (P.seen p.old)) result
        (P.seen p.new) }
{
    if ends_at(p) {
        return Ok(None);
    }
    let arg = inside(g, t, p, Class::Expression)?;
    Ok(Some(arg))
}

/// A `return` from behind its word.
#[tactic(auto, unfolding(swc_ecma_parser_reader::specs::Reader::returned))]
fn returned<P: Cursor, T: BuildsControl, G: Readers<P, T>>(
    g: &G,
    t: &MakerOf<T>,
    p: &mut P,
    start: Span,
) -> PResult<T::Stmt>
    requires { G.ready g.now }
    ensures { GivesAs T.stmt_of
        (rules.returned (rules.expr (G.depth g.now) expression) start (P.seen p.old)) result
        (P.seen p.new) }
{
    let arg = operand(g, t, p)?;
    p.end(Wanted::Token(";"))?;
    let span = since(p, start);
    grown(p, T::return_stmt(t.alloc, span, arg))
}

/// A `return` statement.
#[tactic(auto, unfolding(swc_ecma_parser_reader::specs::Reader::return_stmt))]
#[inline(never)]
pub fn return_stmt<P: Cursor, T: BuildsControl, G: Readers<P, T>>(
    g: &G,
    t: &MakerOf<T>,
    p: &mut P,
) -> PResult<T::Stmt>
    requires { G.ready g.now }
    ensures { GivesAs T.stmt_of
        (rules.return_stmt (rules.expr (G.depth g.now) expression) (P.seen p.old)) result
        (P.seen p.new) }
{
    let start = p.span();
    p.skip()?;
    let is_allowed = may_return(p);
    match returned(g, t, p, start) {
        Ok(stmt) => {
            misplaced(p, is_allowed, start)?;
            Ok(stmt)
        }
        Err(error) => Err(refused(p, is_allowed, start, error)),
    }
}

/// `throw` and what is thrown, which begins on the same line.
#[tactic(auto, unfolding(swc_ecma_parser_reader::specs::Reader::throw, swc_ecma_parser_reader::specs::Reader::thrown, swc_ecma_parser_reader::specs::Expressions::inside, swc_ecma_parser_grammar::specs::Looks::spanned))]
#[inline(never)]
pub fn throw<P: Cursor, T: BuildsControl, G: Readers<P, T>>(
    g: &G,
    t: &MakerOf<T>,
    p: &mut P,
) -> PResult<T::Stmt>
    requires { G.ready g.now }
    ensures { GivesAs T.stmt_of (rules.throw (rules.expr (G.depth g.now) expression) (P.seen p.old))
        result (P.seen p.new) }
{
    let start = p.span();
    p.skip()?;
    if p.had_line_break() || p.sees(TokenKind::End) {
        return Err(p.refuse_as(SyntaxError::LineBreakInThrow));
    }
    let arg = inside(g, t, p, Class::Expression)?;
    p.end(Wanted::Token(";"))?;
    let span = since(p, start);
    grown(p, T::throw(t.alloc, span, arg))
}
