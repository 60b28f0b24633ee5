//! `for` of three parts, with `in` and with `of`: ECMA-262, sections 14.7.4 and 14.7.5.

ghost use Rattle.std.specs.Prelude.{◌≡◌, Some};
ghost use Rattle.swc_ecma_parser_grammar.specs.language.Goals.{expression};
ghost use Rattle.swc_ecma_parser_grammar.specs.language.Items.{sub_statement};
ghost use Rattle.swc_ecma_parser_loops.specs.Made as made;
ghost use Rattle.swc_ecma_parser_loops.specs.Openings.{opening_of, left_of, IsBare};
ghost use Rattle.swc_ecma_parser_reader.specs.Reader as rules;
ghost use Rattle.swc_ecma_parser_reader.specs.State.{Gives, GivesAs};
ghost use Rattle.swc_ecma_parser_trees.specs.Parts.{part_of};

use crate::head::{Left, Opening, as_init, as_left, head_of, head_opening, misdeclared};
use crate::while_do::looped;
use swc_ecma_parser_common::Span;
use swc_ecma_parser_cursor::Cursor;
use swc_ecma_parser_error::{PResult, SyntaxError};
use swc_ecma_parser_grammar::Class;
use swc_ecma_parser_shared::cover::inside;
use swc_ecma_parser_shared::readers::Readers;
use swc_ecma_parser_shared::steps::{grown, since};
use swc_ecma_parser_token::TokenKind;
use swc_ecma_parser_trees::{BuildsFor, BuildsPattern, MakerOf, Trees};

/// A further part of a head, if what stands behind it does not stand here.
#[tactic(auto, unfolding(swc_ecma_parser_reader::specs::Reader::head_part, swc_ecma_parser_reader::specs::Expressions::inside))]
fn head_part<P: Cursor, T: Trees, G: Readers<P, T>>(
    g: &G,
    t: &MakerOf<T>,
    p: &mut P,
    behind: TokenKind,
) -> PResult<Option<T::Expr>>
    requires { G.ready g.now }
    ensures { GivesAs (part_of T.expr_of)
        (rules.head_part behind (rules.expr (G.depth g.now) expression) (P.seen p.old)) result
        (P.seen p.new) }
{
    if p.sees(behind) {
        return Ok(None);
    }
    let part = inside(g, t, p, Class::Expression)?;
    Ok(Some(part))
}

/// The tree of a `for` of three parts.
#[inline(never)]
fn made_for<P: Cursor, T: BuildsFor>(
    t: &MakerOf<T>,
    p: &mut P,
    start: Span,
    init: Option<T::ForInit>,
    test: Option<T::Expr>,
    update: Option<T::Expr>,
    body: T::Stmt,
) -> PResult<T::Stmt>
    ensures { GivesAs T.stmt_of
        (made.made_for start (part_of T.init_of init) (part_of T.expr_of test)
        (part_of T.expr_of update) (T.stmt_of body) (P.seen p.old)) result (P.seen p.new) }
{
    let span = since(p, start);
    grown(p, T::for_stmt(t.alloc, span, init, test, update, body))
}

/// The tree of a `for` with `in`.
#[inline(never)]
fn made_for_in<P: Cursor, T: BuildsPattern + BuildsFor>(
    t: &MakerOf<T>,
    p: &mut P,
    start: Span,
    left: Left<T::Declarator, T::Pat>,
    right: T::Expr,
    body: T::Stmt,
) -> PResult<T::Stmt>
    ensures { GivesAs T.stmt_of
        (made.made_for_in start (left_of T.declarator_of T.pat_of left) (T.expr_of right)
        (T.stmt_of body) (P.seen p.old)) result (P.seen p.new) }
{
    let span = since(p, start);
    let head = head_of(t, p, left)?;
    grown(p, T::for_in(t.alloc, span, head, right, body))
}

/// The tree of a `for` with `of`.
#[inline(never)]
fn made_for_of<P: Cursor, T: BuildsPattern + BuildsFor>(
    t: &MakerOf<T>,
    p: &mut P,
    is_await: bool,
    start: Span,
    left: Left<T::Declarator, T::Pat>,
    right: T::Expr,
    body: T::Stmt,
) -> PResult<T::Stmt>
    ensures { GivesAs T.stmt_of
        (made.made_for_of start is_await (left_of T.declarator_of T.pat_of left) (T.expr_of right)
        (T.stmt_of body) (P.seen p.old)) result (P.seen p.new) }
{
    let span = since(p, start);
    let head = head_of(t, p, left)?;
    grown(p, T::for_of(t.alloc, span, is_await, head, right, body))
}

/// A `for` of three parts, from behind the first.
#[tactic(auto, unfolding(swc_ecma_parser_reader::specs::Reader::for_parts))]
#[inline(never)]
fn for_parts<P: Cursor, T: BuildsFor, G: Readers<P, T>>(
    g: &G,
    t: &MakerOf<T>,
    p: &mut P,
    start: Span,
    first: Opening<T::Declarator, T::Expr, T::Pat>,
) -> PResult<T::Stmt>
    requires { G.ready g.now }
    ensures { GivesAs T.stmt_of
        (rules.for_parts (rules.stmt (G.depth g.now) sub_statement) (rules.expr (G.depth g.now))
        start (opening_of T.declarator_of T.expr_of T.pat_of first) (P.seen p.old)) result
        (P.seen p.new) }
{
    let init = as_init(t, p, first)?;
    p.expect(TokenKind::Semi, ";")?;
    let test = head_part(g, t, p, TokenKind::Semi)?;
    p.expect(TokenKind::Semi, ";")?;
    let update = head_part(g, t, p, TokenKind::RParen)?;
    p.expect(TokenKind::RParen, ")")?;
    let body = looped(g, t, p)?;
    made_for::<P, T>(t, p, start, init, test, update, body)
}

/// A `for` with `in`, from there on.
#[tactic(auto, unfolding(swc_ecma_parser_reader::specs::Reader::for_in, swc_ecma_parser_reader::specs::Expressions::inside))]
#[inline(never)]
fn for_in<P: Cursor, T: BuildsPattern + BuildsFor, G: Readers<P, T>>(
    g: &G,
    t: &MakerOf<T>,
    p: &mut P,
    start: Span,
    first: Opening<T::Declarator, T::Expr, T::Pat>,
) -> PResult<T::Stmt>
    requires readers { G.ready g.now }
    requires bare { IsBare T.pat_of first }
    ensures { GivesAs T.stmt_of
        (rules.for_in (rules.stmt (G.depth g.now) sub_statement) (rules.expr (G.depth g.now)) start
        (opening_of T.declarator_of T.expr_of T.pat_of first) (P.seen p.old)) result
        (P.seen p.new) }
{
    let left = as_left(t, p, first)?;
    let refused = p.flags().strict;
    misdeclared::<P, T>(p, refused, &left)?;
    p.skip()?;
    let right = inside(g, t, p, Class::Expression)?;
    p.expect(TokenKind::RParen, ")")?;
    let body = looped(g, t, p)?;
    made_for_in::<P, T>(t, p, start, left, right, body)
}

/// A `for` with `of`, from there on.
#[tactic(auto, unfolding(swc_ecma_parser_reader::specs::Reader::for_of, swc_ecma_parser_reader::specs::Expressions::inside))]
#[inline(never)]
fn for_of<P: Cursor, T: BuildsPattern + BuildsFor, G: Readers<P, T>>(
    g: &G,
    t: &MakerOf<T>,
    p: &mut P,
    is_await: bool,
    start: Span,
    first: Opening<T::Declarator, T::Expr, T::Pat>,
) -> PResult<T::Stmt>
    requires readers { G.ready g.now }
    requires bare { IsBare T.pat_of first }
    ensures { GivesAs T.stmt_of
        (rules.for_of (rules.stmt (G.depth g.now) sub_statement) (rules.expr (G.depth g.now))
        is_await start (opening_of T.declarator_of T.expr_of T.pat_of first) (P.seen p.old)) result
        (P.seen p.new) }
{
    let left = as_left(t, p, first)?;
    misdeclared::<P, T>(p, true, &left)?;
    p.skip()?;
    let right = inside(g, t, p, Class::Assignment)?;
    p.expect(TokenKind::RParen, ")")?;
    let body = looped(g, t, p)?;
    made_for_of::<P, T>(t, p, is_await, start, left, right, body)
}

/// The word `await` behind `for`, if it stands there.
#[tactic(auto, unfolding(swc_ecma_parser_reader::specs::Reader::await_here))]
fn await_here<P: Cursor>(p: &mut P) -> PResult<Option<Span>>
    ensures { Gives (rules.await_here (P.seen p.old)) result (P.seen p.new) }
{
    if !p.sees(TokenKind::Await) {
        return Ok(None);
    }
    let word = p.span();
    p.skip()?;
    Ok(Some(word))
}

/// A `for` with `in`, behind `for await`, which is refused behind it.
#[inline(never)]
fn awaited_in<P: Cursor, T: BuildsPattern + BuildsFor, G: Readers<P, T>>(
    g: &G,
    t: &MakerOf<T>,
    p: &mut P,
    start: Span,
    word: Span,
    first: Opening<T::Declarator, T::Expr, T::Pat>,
) -> PResult<T::Stmt>
    requires readers { G.ready g.now }
    requires bare { IsBare T.pat_of first }
    ensures { GivesAs T.stmt_of
        (rules.unless_awaited (Some word)
        (rules.for_in (rules.stmt (G.depth g.now) sub_statement) (rules.expr (G.depth g.now)) start
        (opening_of T.declarator_of T.expr_of T.pat_of first)) (P.seen p.old)) result
        (P.seen p.new) }
{
    let _refused = for_in(g, t, p, start, first)?;
    Err(p.reject(SyntaxError::AwaitForStmt, word))
}

/// A `for` of three parts, behind `for await`, which is refused behind it.
#[inline(never)]
fn awaited_parts<P: Cursor, T: BuildsPattern + BuildsFor, G: Readers<P, T>>(
    g: &G,
    t: &MakerOf<T>,
    p: &mut P,
    start: Span,
    word: Span,
    first: Opening<T::Declarator, T::Expr, T::Pat>,
) -> PResult<T::Stmt>
    requires readers { G.ready g.now }
    ensures { GivesAs T.stmt_of
        (rules.unless_awaited (Some word)
        (rules.for_parts (rules.stmt (G.depth g.now) sub_statement) (rules.expr (G.depth g.now))
        start (opening_of T.declarator_of T.expr_of T.pat_of first)) (P.seen p.old)) result
        (P.seen p.new) }
{
    let _refused = for_parts(g, t, p, start, first)?;
    Err(p.reject(SyntaxError::AwaitForStmt, word))
}

/// A `for` statement, from behind its first part.
#[tactic(auto, unfolding(swc_ecma_parser_reader::specs::Reader::for_behind))]
fn for_behind<P: Cursor, T: BuildsPattern + BuildsFor, G: Readers<P, T>>(
    g: &G,
    t: &MakerOf<T>,
    p: &mut P,
    start: Span,
    word: Option<Span>,
    first: Opening<T::Declarator, T::Expr, T::Pat>,
) -> PResult<T::Stmt>
    requires readers { G.ready g.now }
    requires bare { IsBare T.pat_of first }
    ensures { GivesAs T.stmt_of
        (rules.for_behind (rules.stmt (G.depth g.now) sub_statement) (rules.expr (G.depth g.now))
        start word (opening_of T.declarator_of T.expr_of T.pat_of first) (P.seen p.old)) result
        (P.seen p.new) }
{
    if p.sees(TokenKind::In) {
        return match word {
            None => for_in(g, t, p, start, first),
            Some(word) => awaited_in(g, t, p, start, word, first),
        };
    }
    if p.word_at("of") {
        return for_of(g, t, p, word.is_some(), start, first);
    }
    match word {
        None => for_parts(g, t, p, start, first),
        Some(word) => awaited_parts(g, t, p, start, word, first),
    }
}

/// A `for` statement.
#[tactic(auto, unfolding(swc_ecma_parser_reader::specs::Reader::for_stmt))]
#[inline(never)]
pub fn for_stmt<P: Cursor, T: BuildsPattern + BuildsFor, G: Readers<P, T>>(
    g: &G,
    t: &MakerOf<T>,
    p: &mut P,
) -> PResult<T::Stmt>
    requires { G.ready g.now }
    ensures { GivesAs T.stmt_of
        (rules.for_stmt (rules.stmt (G.depth g.now) sub_statement) (rules.expr (G.depth g.now))
        (rules.pattern (G.depth g.now)) (rules.head_cover (G.depth g.now)) (P.seen p.old)) result
        (P.seen p.new) }
{
    let start = p.span();
    p.skip()?;
    let word = await_here(p)?;
    p.expect(TokenKind::LParen, "(")?;
    let first = head_opening(g, t, p, word.is_some())?;
    for_behind(g, t, p, start, word, first)
}
