//! What stands in parentheses, as an expression: ECMA-262, sections 13.2.9 and 13.16.

ghost use Rattle.std.specs.Prelude.{◌≡◌, map, IfOk, IfErr};
ghost use Rattle.swc_ecma_parser_error.specs.Kind.{IsOutOfMemory};
ghost use Rattle.swc_ecma_parser_parentheses.specs.Groups.{group_of};
ghost use Rattle.swc_ecma_parser_shared.specs.Covers.{cover_of};
ghost use Rattle.swc_ecma_parser_reader.specs.Arrows as arrows;
ghost use Rattle.swc_ecma_parser_reader.specs.State.{GivesAs};

use crate::group::Group;
use swc_ecma_parser_common::Span;
use swc_ecma_parser_cursor::{Cursor, Wanted};
use swc_ecma_parser_error::PResult;
use swc_ecma_parser_shared::cover::{Cover, close};
use swc_ecma_parser_shared::steps::{grown, pushed, since};
use swc_ecma_parser_trees::{BuildsExpr, BuildsOperator, MakerOf, Trees};

/// Each part by itself, as an expression.
fn closed_parts<P: Cursor, T: Trees>(
    t: &MakerOf<T>,
    p: &mut P,
    parts: Vec<Cover<T::Expr>>,
) -> PResult<Vec<T::Expr>>
    ensures { GivesAs (λ found. map T.expr_of found.items)
        (arrows.closed_parts (map (cover_of T.expr_of) parts.items) (P.seen p.old)) result
        (P.seen p.new) }
{
    let mut found = Vec::new(t.alloc);
    'parts: for part in parts {
        let closed = close::<P, T>(p, part)?;
        pushed(p, &mut found, closed)?;
    }
    Ok(found)
}

/// One part by itself, or a sequence: section 13.16.
fn parted<P: Cursor, T: BuildsOperator>(
    t: &MakerOf<T>,
    p: &mut P,
    first: Span,
    last: Span,
    parts: Vec<T::Expr>,
) -> PResult<T::Expr>
    ensures made { IfOk result
        (λ x. T.expr_of x ≡ arrows.parted first last (map T.expr_of parts.items)) }
    ensures state { IfOk result (λ x. P.seen p.new ≡ P.seen p.old) }
    ensures err { IfErr result IsOutOfMemory }
{
    let mut parts = parts;
    if parts.len() == 1
        && let Some(only) = parts.pop()
    {
        return Ok(only);
    }
    let span = Span {
        lo: first.lo,
        hi: last.hi,
    };
    grown(p, T::seq(t.alloc, span, parts))
}

/// What stands in parentheses as an expression; refused where it cannot be one.
#[tactic(auto, unfolding(swc_ecma_parser_reader::specs::Arrows::closed_group))]
pub fn closed_group<P: Cursor, T: BuildsExpr + BuildsOperator>(
    t: &MakerOf<T>,
    p: &mut P,
    start: Span,
    group: Group<T::Expr, T::Pat>,
) -> PResult<T::Expr>
    ensures { GivesAs T.expr_of
        (arrows.closed_group start (group_of T.expr_of T.pat_of group) (P.seen p.old)) result
        (P.seen p.new) }
{
    let Group {
        parts,
        rest,
        comma,
        first,
        last,
    } = group;
    if parts.is_empty() || rest.is_some() || comma {
        return Err(p.wanted(Wanted::Expression));
    }
    let parts = closed_parts::<P, T>(t, p, parts)?;
    let span = since(p, start);
    let inner = parted::<P, T>(t, p, first, last, parts)?;
    grown(p, T::paren(t.alloc, span, inner))
}
