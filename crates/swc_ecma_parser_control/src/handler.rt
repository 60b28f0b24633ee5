//! `try`, with what it catches and what it does at last: ECMA-262, section 14.15.

ghost use Rattle.std.specs.Prelude.{◌≡◌};
ghost use Rattle.swc_ecma_parser_grammar.specs.language.Items.{nested_item};
ghost use Rattle.swc_ecma_parser_reader.specs.Reader as rules;
ghost use Rattle.swc_ecma_parser_reader.specs.State as reader;
ghost use Rattle.swc_ecma_parser_reader.specs.State.{Gives, GivesAs};
ghost use Rattle.swc_ecma_parser_trees.specs.Parts.{part_of};

use swc_ecma_parser_bodies::body::braced;
use swc_ecma_parser_common::Span;
use swc_ecma_parser_cursor::Cursor;
use swc_ecma_parser_error::{PResult, SyntaxError};
use swc_ecma_parser_patterns::pat::inner_pat;
use swc_ecma_parser_recovery::recovery::dropped;
use swc_ecma_parser_shared::grammar::Part;
use swc_ecma_parser_shared::readers::Readers;
use swc_ecma_parser_shared::steps::{grown, since};
use swc_ecma_parser_token::TokenKind;
use swc_ecma_parser_trees::{BuildsBlock, BuildsOperator, BuildsStmt, BuildsTry, MakerOf, Trees};

/// What a catch binds, in parentheses.
#[tactic(auto, unfolding(swc_ecma_parser_reader::specs::Reader::bound))]
fn bound<P: Cursor, T: Trees, G: Readers<P, T>>(g: &G, t: &MakerOf<T>, p: &mut P) -> PResult<T::Pat>
    requires { G.ready g.now }
    ensures { GivesAs T.pat_of (rules.bound (rules.pattern (G.depth g.now)) (P.seen p.old)) result
        (P.seen p.new) }
{
    p.skip()?;
    let pat = inner_pat(g, t, p, Part::Pattern)?;
    p.expect(TokenKind::RParen, ")")?;
    Ok(pat)
}

/// What a catch binds, if it binds something.
#[tactic(auto, unfolding(swc_ecma_parser_reader::specs::Reader::parameter))]
fn parameter<P: Cursor, T: Trees, G: Readers<P, T>>(
    g: &G,
    t: &MakerOf<T>,
    p: &mut P,
) -> PResult<Option<T::Pat>>
    requires { G.ready g.now }
    ensures { GivesAs (part_of T.pat_of)
        (rules.parameter (rules.pattern (G.depth g.now)) (P.seen p.old)) result (P.seen p.new) }
{
    if !p.sees(TokenKind::LParen) {
        return Ok(None);
    }
    let pat = bound(g, t, p)?;
    Ok(Some(pat))
}

/// A catch, if one stands here.
#[tactic(auto, unfolding(swc_ecma_parser_reader::specs::Reader::handler, swc_ecma_parser_reader::specs::Reader::caught, swc_ecma_parser_grammar::specs::Looks::spanned))]
#[inline(never)]
fn handler<P: Cursor, T: BuildsTry, G: Readers<P, T>>(
    g: &G,
    t: &MakerOf<T>,
    p: &mut P,
) -> PResult<Option<T::Catch>>
    requires { G.ready g.now }
    ensures { GivesAs (part_of T.catch_of)
        (rules.handler (rules.stmt (G.depth g.now) nested_item) (rules.pattern (G.depth g.now))
        (P.seen p.old)) result (P.seen p.new) }
{
    if !p.sees(TokenKind::Catch) {
        return Ok(None);
    }
    let start = p.span();
    p.skip()?;
    let param = parameter(g, t, p)?;
    let body = braced(g, t, p)?;
    let span = since(p, start);
    let catch = grown(p, T::catch(t.alloc, span, param, body))?;
    Ok(Some(catch))
}

/// A finally, if one stands here.
#[tactic(auto, unfolding(swc_ecma_parser_reader::specs::Reader::finalizer))]
fn finalizer<P: Cursor, T: BuildsBlock, G: Readers<P, T>>(
    g: &G,
    t: &MakerOf<T>,
    p: &mut P,
) -> PResult<Option<T::Block>>
    requires { G.ready g.now }
    ensures { GivesAs (part_of T.block_of)
        (rules.finalizer (rules.stmt (G.depth g.now) nested_item) (P.seen p.old)) result
        (P.seen p.new) }
{
    if !p.sees(TokenKind::Finally) {
        return Ok(None);
    }
    p.skip()?;
    let block = braced(g, t, p)?;
    Ok(Some(block))
}

/// The empty span before what stands here; at the end of the list, behind what was read last.
#[tactic(auto, unfolding(swc_ecma_parser_reader::specs::Reader::begins_at))]
fn begins_at<P: Cursor>(p: &P) -> Span
    ensures { result ≡ rules.begins_at (P.seen p.now).at }
{
    let span = p.span();
    let at = if p.sees(TokenKind::End) {
        span.hi
    } else {
        span.lo
    };
    Span { lo: at, hi: at }
}

/// Whether a catch or a finally stands here.
#[tactic(auto, unfolding(swc_ecma_parser_reader::specs::Reader::is_handled))]
fn is_handled<P: Cursor>(p: &P) -> bool
    ensures { result ≡ rules.is_handled (P.seen p.now).at }
{
    p.sees(TokenKind::Catch) || p.sees(TokenKind::Finally)
}

/// A `try` statement. One with neither a catch nor a finally is a fault.
#[tactic(auto, unfolding(swc_ecma_parser_reader::specs::Reader::try_stmt, swc_ecma_parser_reader::specs::Reader::handled, swc_ecma_parser_grammar::specs::Looks::spanned))]
#[inline(never)]
pub(crate) fn try_stmt<P: Cursor, T: BuildsTry, G: Readers<P, T>>(
    g: &G,
    t: &MakerOf<T>,
    p: &mut P,
) -> PResult<T::Stmt>
    requires { G.ready g.now }
    ensures { GivesAs T.stmt_of
        (rules.try_stmt (rules.stmt (G.depth g.now) nested_item) (rules.pattern (G.depth g.now))
        (P.seen p.old)) result (P.seen p.new) }
{
    let start = p.span();
    p.skip()?;
    let block = braced(g, t, p)?;
    let behind = begins_at(p);
    let is_handled = is_handled(p);
    let handler = handler(g, t, p)?;
    let finalizer = finalizer(g, t, p)?;
    if !is_handled {
        p.fault(SyntaxError::TS1005, behind)?;
    }
    let span = since(p, start);
    grown(p, T::try_stmt(t.alloc, span, block, handler, finalizer))
}

/// Reads a catch, if one stands here, and drops it.
fn dropped_handler<P: Cursor, T: BuildsTry, G: Readers<P, T>>(
    g: &G,
    t: &MakerOf<T>,
    p: &mut P,
) -> PResult<()>
    requires { G.ready g.now }
    ensures { Gives
        (reader.attempted
        (rules.handler (rules.stmt (G.depth g.now) nested_item) (rules.pattern (G.depth g.now)))
        (P.seen p.old)) result (P.seen p.new) }
{
    let around = p.copy_around()?;
    let outer = p.flags();
    let read = handler(g, t, p);
    dropped(p, around, outer, read)
}

/// The same of a finally.
fn dropped_finalizer<P: Cursor, T: BuildsBlock, G: Readers<P, T>>(
    g: &G,
    t: &MakerOf<T>,
    p: &mut P,
) -> PResult<()>
    requires { G.ready g.now }
    ensures { Gives
        (reader.attempted (rules.finalizer (rules.stmt (G.depth g.now) nested_item)) (P.seen p.old))
        result (P.seen p.new) }
{
    let around = p.copy_around()?;
    let outer = p.flags();
    let read = finalizer(g, t, p);
    dropped(p, around, outer, read)
}

/// A catch or a finally behind no `try`: a fault of its word, which stands for it in the tree. What stands behind it is dropped.
#[tactic(auto, unfolding(swc_ecma_parser_reader::specs::Reader::stray))]
#[inline(never)]
pub(crate) fn stray<P: Cursor, T: BuildsTry + BuildsStmt + BuildsOperator, G: Readers<P, T>>(
    g: &G,
    t: &MakerOf<T>,
    p: &mut P,
) -> PResult<T::Stmt>
    requires { G.ready g.now }
    ensures { GivesAs T.stmt_of
        (rules.stray (rules.stmt (G.depth g.now) nested_item) (rules.pattern (G.depth g.now))
        (P.seen p.old)) result (P.seen p.new) }
{
    let word = p.span();
    p.fault(SyntaxError::TS1005, word)?;
    dropped_handler(g, t, p)?;
    dropped_finalizer(g, t, p)?;
    let invalid = grown(p, T::invalid(t.alloc, word))?;
    grown(p, T::expr_stmt(t.alloc, word, invalid))
}
