//! What goes on with an expression: accesses, arguments and the links of optional chains: ECMA-262, sections 13.3.2, 13.3.6 and
//! 13.3.9.

ghost use Rattle.std.specs.Prelude.{◌≡◌, false, true, IfOk};
ghost use Rattle.swc_ecma_parser_left_sides.specs.Accesses.{property_of};
ghost use Rattle.swc_ecma_parser_left_sides.specs.Chains.{as_link, linked_to};
ghost use Rattle.swc_ecma_parser_model.specs.Tree as tree;
ghost use Rattle.swc_ecma_parser_reader.specs.Expressions as exprs;
ghost use Rattle.swc_ecma_parser_reader.specs.Reader as rules;
ghost use Rattle.swc_ecma_parser_reader.specs.State.{GivesAs};

use crate::access::{Property, access, arguments, dotted};
use std::alloc::{AllocError, Global};
use swc_ecma_parser_common::Span;
use swc_ecma_parser_cursor::Cursor;
use swc_ecma_parser_error::PResult;
use swc_ecma_parser_shared::readers::Readers;
use swc_ecma_parser_shared::steps::{grown, since};
use swc_ecma_parser_token::TokenKind;
use swc_ecma_parser_trees::{BuildsCall, MakerOf};

/// A member, by what stands behind its object.
fn member<T: BuildsCall>(
    alloc: Global,
    span: Span,
    object: T::Expr,
    access: Property<T::Expr>,
) -> Result<T::Expr, AllocError>
    ensures { IfOk result
        (λ x. T.expr_of x ≡ tree.member span (T.expr_of object) (property_of T.expr_of access)) }
{
    match access {
        Property::Word(name) => T::member(alloc, span, object, name),
        Property::Private(name) => T::private_member(alloc, span, object, name),
        Property::Brackets(brackets, expr) => T::computed_member(
            alloc, span, object, brackets, expr,
        ),
    }
}

/// The same as a link of an optional chain.
fn chain_member<T: BuildsCall>(
    alloc: Global,
    span: Span,
    optional: bool,
    object: T::Expr,
    access: Property<T::Expr>,
) -> Result<T::Expr, AllocError>
    ensures { IfOk result
        (λ x. T.expr_of x
        ≡ tree.opt_chain span optional (tree.member span (T.expr_of object) (property_of T.expr_of access))) }
{
    match access {
        Property::Word(name) => T::chain_member(alloc, span, optional, object, name),
        Property::Private(name) => T::chain_private_member(alloc, span, optional, object, name),
        Property::Brackets(brackets, expr) => T::chain_computed_member(
            alloc, span, optional, object, brackets, expr,
        ),
    }
}

/// An access of what was read from a place on.
#[tactic(auto, unfolding(swc_ecma_parser_reader::specs::Expressions::accessed))]
#[inline(never)]
pub fn accessed<P: Cursor, T: BuildsCall, G: Readers<P, T>>(
    g: &G,
    t: &MakerOf<T>,
    p: &mut P,
    start: Span,
    x: T::Expr,
) -> PResult<T::Expr>
    requires { G.ready g.now }
    ensures { GivesAs (T.expr_of)
        (exprs.accessed (rules.expr (G.depth g.now)) (rules.cover (G.depth g.now)) start
        (T.expr_of x) (P.seen p.old)) result (P.seen p.new) }
{
    let property = access(g, t, p)?;
    let span = since(p, start);
    grown(p, member::<T>(t.alloc, span, x, property))
}

/// The same as a link of an optional chain.
#[tactic(auto, unfolding(swc_ecma_parser_reader::specs::Expressions::accessed))]
#[inline(never)]
fn access_link<P: Cursor, T: BuildsCall, G: Readers<P, T>>(
    g: &G,
    t: &MakerOf<T>,
    p: &mut P,
    start: Span,
    optional: bool,
    x: T::Expr,
) -> PResult<T::Expr>
    requires { G.ready g.now }
    ensures { GivesAs (T.expr_of)
        (as_link optional (exprs.accessed (rules.expr (G.depth g.now)) (rules.cover (G.depth g.now))
        start (T.expr_of x) (P.seen p.old))) result (P.seen p.new) }
{
    let property = access(g, t, p)?;
    let span = since(p, start);
    grown(p, chain_member::<T>(t.alloc, span, optional, x, property))
}

/// A call of what was read from a place on.
#[tactic(auto, unfolding(swc_ecma_parser_reader::specs::Expressions::called))]
#[inline(never)]
pub fn called<P: Cursor, T: BuildsCall, G: Readers<P, T>>(
    g: &G,
    t: &MakerOf<T>,
    p: &mut P,
    start: Span,
    x: T::Expr,
) -> PResult<T::Expr>
    requires { G.ready g.now }
    ensures { GivesAs (T.expr_of)
        (exprs.called (rules.expr (G.depth g.now)) (rules.cover (G.depth g.now)) start (T.expr_of x)
        (P.seen p.old)) result (P.seen p.new) }
{
    let arguments = arguments(g, t, p, true)?;
    let span = since(p, start);
    grown(p, T::call(t.alloc, span, x, arguments))
}

/// The same as a link of an optional chain.
#[tactic(auto, unfolding(swc_ecma_parser_reader::specs::Expressions::called))]
#[inline(never)]
fn call_link<P: Cursor, T: BuildsCall, G: Readers<P, T>>(
    g: &G,
    t: &MakerOf<T>,
    p: &mut P,
    start: Span,
    optional: bool,
    x: T::Expr,
) -> PResult<T::Expr>
    requires { G.ready g.now }
    ensures { GivesAs (T.expr_of)
        (as_link optional (exprs.called (rules.expr (G.depth g.now)) (rules.cover (G.depth g.now))
        start (T.expr_of x) (P.seen p.old))) result (P.seen p.new) }
{
    let arguments = arguments(g, t, p, true)?;
    let span = since(p, start);
    grown(p, T::chain_call(t.alloc, span, optional, x, arguments))
}

/// What stands behind `?.`, as a link: arguments, brackets or a name.
#[tactic(auto, unfolding(swc_ecma_parser_reader::specs::Expressions::behind_question, swc_ecma_parser_reader::specs::Expressions::named_link))]
fn behind_question<P: Cursor, T: BuildsCall, G: Readers<P, T>>(
    g: &G,
    t: &MakerOf<T>,
    p: &mut P,
    start: Span,
    x: T::Expr,
) -> PResult<T::Expr>
    requires { G.ready g.now }
    ensures { GivesAs (T.expr_of)
        (as_link true (exprs.behind_question (rules.expr (G.depth g.now))
        (rules.cover (G.depth g.now)) start (T.expr_of x) (P.seen p.old))) result (P.seen p.new) }
{
    if p.sees(TokenKind::LParen) {
        return call_link(g, t, p, start, true, x);
    }
    if p.sees(TokenKind::LBracket) {
        return access_link(g, t, p, start, true, x);
    }
    let property = dotted::<P, T>(p)?;
    let span = since(p, start);
    grown(p, chain_member::<T>(t.alloc, span, true, x, property))
}

/// A link of an optional chain, from `?.` on.
#[tactic(auto, unfolding(swc_ecma_parser_reader::specs::Expressions::chained))]
#[inline(never)]
pub(crate) fn chained<P: Cursor, T: BuildsCall, G: Readers<P, T>>(
    g: &G,
    t: &MakerOf<T>,
    p: &mut P,
    start: Span,
    x: T::Expr,
) -> PResult<T::Expr>
    requires { G.ready g.now }
    ensures { GivesAs (T.expr_of)
        (exprs.chained (rules.expr (G.depth g.now)) (rules.cover (G.depth g.now)) start
        (T.expr_of x) (P.seen p.old)) result (P.seen p.new) }
{
    p.skip()?;
    behind_question(g, t, p, start, x)
}

/// An access of what was read from a place on, which is a link where that is an optional chain.
pub(crate) fn accessed_on<P: Cursor, T: BuildsCall, G: Readers<P, T>>(
    g: &G,
    t: &MakerOf<T>,
    p: &mut P,
    start: Span,
    x: T::Expr,
) -> PResult<T::Expr>
    requires { G.ready g.now }
    ensures { GivesAs (T.expr_of)
        (linked_to (T.expr_of x) (exprs.accessed (rules.expr (G.depth g.now))
        (rules.cover (G.depth g.now)) start (T.expr_of x) (P.seen p.old))) result (P.seen p.new) }
{
    if T::is_chain(&x) {
        return access_link(g, t, p, start, false, x);
    }
    accessed(g, t, p, start, x)
}

/// The same of a call.
pub(crate) fn called_on<P: Cursor, T: BuildsCall, G: Readers<P, T>>(
    g: &G,
    t: &MakerOf<T>,
    p: &mut P,
    start: Span,
    x: T::Expr,
) -> PResult<T::Expr>
    requires { G.ready g.now }
    ensures { GivesAs (T.expr_of)
        (linked_to (T.expr_of x) (exprs.called (rules.expr (G.depth g.now))
        (rules.cover (G.depth g.now)) start (T.expr_of x) (P.seen p.old))) result (P.seen p.new) }
{
    if T::is_chain(&x) {
        return call_link(g, t, p, start, false, x);
    }
    called(g, t, p, start, x)
}
