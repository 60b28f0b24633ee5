//! What may still become a pattern, by one of several rules: the choice is a function over the readers, outside the knot, so that the
//! knot hands its readers on once.

ghost use Rattle.swc_ecma_parser_knot.specs.Covering as covering;
ghost use Rattle.swc_ecma_parser_shared.specs.Covers.{cover_of};
ghost use Rattle.swc_ecma_parser_reader.specs.State.{GivesAs};

use crate::covering::Covering;
use swc_ecma_parser_cursor::Cursor;
use swc_ecma_parser_error::PResult;
use swc_ecma_parser_operators::assignment::{
    cover_expr, expr_behind_await, head_behind_async, head_expr,
};
use swc_ecma_parser_shared::cover::Cover;
use swc_ecma_parser_shared::readers::Readers;
use swc_ecma_parser_trees::{
    BuildsCall, BuildsExpr, BuildsMethod, BuildsOperator, BuildsPattern, MakerOf,
};

/// What may still become a pattern, where what stands in it is read by these readers.
pub(crate) fn cover_level<
    P: Cursor,
    T: BuildsExpr + BuildsCall + BuildsMethod + BuildsOperator + BuildsPattern,
    G: Readers<P, T>,
>(g: &G, t: &MakerOf<T>, p: &mut P, place: Covering) -> PResult<Cover<T::Expr>>
    requires { G.ready g.now }
    ensures { GivesAs (cover_of T.expr_of)
        (covering.covered_level (G.depth g.now) place (P.seen p.old)) result (P.seen p.new) }
{
    match place {
        Covering::Whole => cover_expr(g, t, p),
        Covering::Head => head_expr(g, t, p),
        Covering::Behind(start) => head_behind_async(g, t, p, start),
        Covering::BehindAwait(start) => expr_behind_await(g, t, p, start),
    }
}
