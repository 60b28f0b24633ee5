//! Arrays: ECMA-262, section 13.2.4.

ghost use Rattle.std.specs.Prelude.{◌≡◌, true, IfOk};
ghost use Rattle.swc_ecma_parser_shared.specs.Covers.{cover_of, covers_of};
ghost use Rattle.swc_ecma_parser_reader.specs.Expressions as exprs;
ghost use Rattle.swc_ecma_parser_reader.specs.Expressions.{is_literal};
ghost use Rattle.swc_ecma_parser_reader.specs.Reader as rules;
ghost use Rattle.swc_ecma_parser_reader.specs.State.{GivesAs};
ghost use Rattle.swc_ecma_parser_trees.specs.Parts.{part_of};

use swc_ecma_parser_cursor::Cursor;
use swc_ecma_parser_error::PResult;
use swc_ecma_parser_shared::cover::{Cover, Covers, behind_comma, covered, done, joined};
use swc_ecma_parser_shared::readers::Readers;
use swc_ecma_parser_shared::steps::{grown, since};
use swc_ecma_parser_token::TokenKind;
use swc_ecma_parser_trees::{BuildsCall, MakerOf};

/// A spread element, with the place of its dots.
#[tactic(auto, unfolding(swc_ecma_parser_reader::specs::Expressions::spread_item))]
#[inline(never)]
fn spread_item<P: Cursor, T: BuildsCall, G: Readers<P, T>>(
    g: &G,
    t: &MakerOf<T>,
    p: &mut P,
) -> PResult<Cover<Option<T::Arg>>>
    requires { G.ready g.now }
    ensures { GivesAs (cover_of (part_of T.arg_of))
        (exprs.spread_item (rules.expr (G.depth g.now)) (rules.cover (G.depth g.now))
        (P.seen p.old)) result (P.seen p.new) }
{
    let dots = p.span();
    p.skip()?;
    let Cover { tree, mark, comma } = covered(g, t, p)?;
    let tree = grown(p, T::element(t.alloc, Some(dots), tree))?;
    Ok(Cover {
        tree: Some(tree),
        mark,
        comma,
    })
}

/// An element that is not spread.
#[tactic(auto, unfolding(swc_ecma_parser_reader::specs::Expressions::plain_item))]
fn plain_item<P: Cursor, T: BuildsCall, G: Readers<P, T>>(
    g: &G,
    t: &MakerOf<T>,
    p: &mut P,
) -> PResult<Cover<Option<T::Arg>>>
    requires { G.ready g.now }
    ensures { GivesAs (cover_of (part_of T.arg_of))
        (exprs.plain_item (rules.expr (G.depth g.now)) (rules.cover (G.depth g.now)) (P.seen p.old))
        result (P.seen p.new) }
{
    let Cover { tree, mark, comma } = covered(g, t, p)?;
    let tree = grown(p, T::element(t.alloc, None, tree))?;
    Ok(Cover {
        tree: Some(tree),
        mark,
        comma,
    })
}

/// An element.
#[tactic(auto, unfolding(swc_ecma_parser_reader::specs::Expressions::item))]
fn item<P: Cursor, T: BuildsCall, G: Readers<P, T>>(
    g: &G,
    t: &MakerOf<T>,
    p: &mut P,
) -> PResult<Cover<Option<T::Arg>>>
    requires { G.ready g.now }
    ensures { GivesAs (cover_of (part_of T.arg_of))
        (exprs.item (rules.expr (G.depth g.now)) (rules.cover (G.depth g.now)) (P.seen p.old))
        result (P.seen p.new) }
{
    if p.sees(TokenKind::DotDotDot) {
        return spread_item(g, t, p);
    }
    plain_item(g, t, p)
}

/// Elements, from `[` on. A comma with nothing before it makes a hole.
#[tactic(auto, unfolding(swc_ecma_parser_reader::specs::Expressions::elements), using(swc_ecma_parser_reader::proofs::expressions::Loops::elements_done, swc_ecma_parser_reader::proofs::expressions::Loops::elements_hole, swc_ecma_parser_reader::proofs::expressions::Loops::elements_err, swc_ecma_parser_reader::proofs::expressions::Loops::elements_last, swc_ecma_parser_reader::proofs::expressions::Loops::elements_more, swc_ecma_parser_reader::proofs::expressions::Loops::elements_comma_err, swc_ecma_parser_reader::proofs::expressions::Loops::hole_shorter, swc_ecma_parser_reader::proofs::expressions::Loops::item_shorter, swc_ecma_parser_reader::proofs::expressions::Loops::items_shorter))]
fn elements<P: Cursor, T: BuildsCall, G: Readers<P, T>>(
    g: &G,
    t: &MakerOf<T>,
    p: &mut P,
) -> PResult<Covers<Option<T::Arg>>>
    requires { G.ready g.now }
    ensures { GivesAs (covers_of (part_of T.arg_of))
        (exprs.elements (rules.expr (G.depth g.now)) (rules.cover (G.depth g.now)) (P.seen p.old))
        result (P.seen p.new) }
{
    p.skip()?;
    let mut found = Covers {
        parts: Vec::new(t.alloc),
        mark: None,
        comma: false,
    };
    'elements: loop {
        if p.sees(TokenKind::RBracket) {
            p.skip()?;
            return Ok(found);
        }
        if p.sees(TokenKind::Comma) {
            p.skip()?;
            joined(p, &mut found, done(None))?;
        } else {
            let is_spread = p.sees(TokenKind::DotDotDot);
            let part = item(g, t, p)?;
            joined(p, &mut found, part)?;
            if !p.sees(TokenKind::RBracket) {
                p.expect(TokenKind::Comma, ",")?;
                behind_comma(&mut found, is_spread);
            }
        }
    }
}

/// An array.
#[tactic(auto, unfolding(swc_ecma_parser_reader::specs::Expressions::array))]
#[inline(never)]
pub fn array<P: Cursor, T: BuildsCall, G: Readers<P, T>>(
    g: &G,
    t: &MakerOf<T>,
    p: &mut P,
) -> PResult<Cover<T::Expr>>
    requires { G.ready g.now }
    ensures gives { GivesAs (cover_of T.expr_of)
        (exprs.array (rules.expr (G.depth g.now)) (rules.cover (G.depth g.now)) (P.seen p.old))
        result (P.seen p.new) }
    ensures literal { IfOk result (λ v. is_literal (T.expr_of v.tree) ≡ true) }
{
    let start = p.span();
    let Covers { parts, mark, comma } = elements(g, t, p)?;
    let span = since(p, start);
    let tree = grown(p, T::array(t.alloc, span, parts))?;
    Ok(Cover { tree, mark, comma })
}
