//! What stands in parentheses, behind `async` too, and arrow functions that begin there: ECMA-262, sections 13.2.9, 15.3 and 15.9.

ghost use Rattle.swc_ecma_parser_reader.specs.Arrows as arrows;
ghost use Rattle.swc_ecma_parser_reader.specs.AsyncArrows as async_arrows;
ghost use Rattle.swc_ecma_parser_reader.specs.Reader as rules;
ghost use Rattle.swc_ecma_parser_reader.specs.State.{GivesAs};

use crate::assignment::continued;
use swc_ecma_parser_arrows::arrows::arrow_from;
use swc_ecma_parser_cursor::Cursor;
use swc_ecma_parser_error::PResult;
use swc_ecma_parser_left_sides::left::ident_expr;
use swc_ecma_parser_parentheses::arguments::{argument_parameters, async_called, either_arguments};
use swc_ecma_parser_parentheses::closed::closed_group;
use swc_ecma_parser_parentheses::group::parenthesized;
use swc_ecma_parser_parentheses::parameters::parameters_of;
use swc_ecma_parser_shared::readers::Readers;
use swc_ecma_parser_token::TokenKind;
use swc_ecma_parser_trees::{
    BuildsCall, BuildsExpr, BuildsMethod, BuildsOperator, BuildsPattern, MakerOf,
};

/// What stands in parentheses: the parameters of an arrow function before `=>`, else an expression, with what goes on with it.
#[tactic(auto, unfolding(swc_ecma_parser_reader::specs::Arrows::grouped))]
#[inline(never)]
pub(crate) fn grouped<
    P: Cursor,
    T: BuildsExpr + BuildsCall + BuildsMethod + BuildsOperator + BuildsPattern,
    G: Readers<P, T>,
>(g: &G, t: &MakerOf<T>, p: &mut P) -> PResult<T::Expr>
    requires { G.ready g.now }
    ensures { GivesAs T.expr_of
        (arrows.grouped (rules.expr (G.depth g.now)) (rules.function (G.depth g.now))
        (rules.cover (G.depth g.now)) (P.seen p.old)) result (P.seen p.new) }
{
    let start = p.span();
    let found = parenthesized(g, t, p)?;
    if p.sees(TokenKind::Arrow) {
        let params = parameters_of::<P, T>(t, p, found.parts, found.rest)?;
        return arrow_from(g, t, p, false, start, params);
    }
    let x = closed_group::<P, T>(t, p, start, found)?;
    continued(g, t, p, start, x)
}

/// `async` and what stands in parentheses on its line: the parameters of an arrow function before `=>`, else a call, with what goes
/// on with it.
#[tactic(auto, unfolding(swc_ecma_parser_reader::specs::AsyncArrows::async_grouped))]
#[inline(never)]
pub(crate) fn async_grouped<
    P: Cursor,
    T: BuildsExpr + BuildsCall + BuildsMethod + BuildsOperator + BuildsPattern,
    G: Readers<P, T>,
>(g: &G, t: &MakerOf<T>, p: &mut P) -> PResult<T::Expr>
    requires { G.ready g.now }
    ensures { GivesAs T.expr_of
        (async_arrows.async_grouped (rules.expr (G.depth g.now)) (rules.function (G.depth g.now))
        (rules.cover (G.depth g.now)) (P.seen p.old)) result (P.seen p.new) }
{
    let start = p.span();
    let callee = ident_expr::<P, T>(t.alloc, p)?;
    let found = either_arguments(g, t, p)?;
    if p.sees(TokenKind::Arrow) {
        let params = argument_parameters::<P, T>(t, p, found)?;
        return arrow_from(g, t, p, true, start, params);
    }
    let x = async_called::<P, T>(t, p, start, callee, found)?;
    continued(g, t, p, start, x)
}
