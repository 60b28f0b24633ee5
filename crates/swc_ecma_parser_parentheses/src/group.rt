//! What stands in parentheses, part by part: CoverParenthesizedExpressionAndArrowParameterList, ECMA-262, section 13.2.9.

ghost use Rattle.std.specs.Prelude.{◌≡◌, None, map};
ghost use Rattle.swc_ecma_parser_parentheses.specs.Groups.{group_of, parts_of};
ghost use Rattle.swc_ecma_parser_grammar.specs.language.Contexts.{with_in};
ghost use Rattle.swc_ecma_parser_shared.specs.Covers.{cover_of};
ghost use Rattle.swc_ecma_parser_reader.specs.Arrows as arrows;
ghost use Rattle.swc_ecma_parser_reader.specs.Methods.{parameter_form};
ghost use Rattle.swc_ecma_parser_reader.specs.Reader as rules;
ghost use Rattle.swc_ecma_parser_reader.specs.State.{GivesAs, within};

use swc_ecma_parser_common::Span;
use swc_ecma_parser_cursor::Cursor;
use swc_ecma_parser_error::PResult;
use swc_ecma_parser_patterns::pat::inner_pat;
use swc_ecma_parser_shared::cover::{Cover, covered};
use swc_ecma_parser_shared::grammar::Part;
use swc_ecma_parser_shared::readers::Readers;
use swc_ecma_parser_shared::steps::{grown, pushed, since};
use swc_ecma_parser_token::TokenKind;
use swc_ecma_parser_trees::{BuildsPattern, MakerOf};

/// What stands in parentheses, as an expression or as the parameters of an arrow function.
#[derive(Drop)]
pub struct Group<E, N> {
    /// What may still become patterns, one behind another.
    pub parts: Vec<Cover<E>>,
    /// The rest behind them, with its dots, if one stands there.
    pub rest: Option<N>,
    /// Whether a comma stands behind the last part.
    pub comma: bool,
    /// Where the first part begins: the span of its first token.
    pub first: Span,
    /// Where the last one ends: the span of its last token.
    pub last: Span,
}

/// The same, without where it begins and ends.
#[derive(Drop)]
struct Parts<E, N> {
    parts: Vec<Cover<E>>,
    rest: Option<N>,
    comma: bool,
}

/// What a rest binds.
#[tactic(auto, unfolding(swc_ecma_parser_reader::specs::Reader::function, swc_ecma_parser_reader::specs::Reader::function_by))]
fn rest_binding<P: Cursor, T: BuildsPattern, G: Readers<P, T>>(
    g: &G,
    t: &MakerOf<T>,
    p: &mut P,
) -> PResult<T::Pat>
    requires { G.ready g.now }
    ensures { GivesAs T.pat_of
        (within with_in (rules.function (G.depth g.now) parameter_form) (P.seen p.old)) result
        (P.seen p.new) }
{
    inner_pat(g, t, p, Part::Pattern)
}

/// A rest with its dots, which is the last.
#[tactic(auto, unfolding(swc_ecma_parser_reader::specs::Arrows::rest_part))]
#[inline(never)]
fn rest_part<P: Cursor, T: BuildsPattern, G: Readers<P, T>>(
    g: &G,
    t: &MakerOf<T>,
    p: &mut P,
    found: Vec<Cover<T::Expr>>,
) -> PResult<Parts<T::Expr, T::Pat>>
    requires { G.ready g.now }
    ensures { GivesAs (parts_of T.expr_of T.pat_of)
        (arrows.rest_part (rules.expr (G.depth g.now)) (rules.function (G.depth g.now))
        (map (cover_of T.expr_of) found.items) (P.seen p.old)) result (P.seen p.new) }
{
    let start = p.span();
    p.skip()?;
    let pat = rest_binding(g, t, p)?;
    let span = since(p, start);
    let rest = grown(p, T::rest_pat(t.alloc, span, pat))?;
    Ok(Parts {
        parts: found,
        rest: Some(rest),
        comma: false,
    })
}

/// Parts with no rest behind them.
fn ended<E, N>(parts: Vec<Cover<E>>, comma: bool) -> Parts<E, N>
    ensures { result ≡ record { parts = parts; rest = None; comma = comma } }
{
    Parts {
        parts,
        rest: None,
        comma,
    }
}

/// The parts, up to `)`. Nothing stands behind the rest.
#[tactic(auto, unfolding(swc_ecma_parser_reader::specs::Arrows::group_parts), using(swc_ecma_parser_reader::proofs::expressions::Loops::part_shorter, swc_ecma_parser_reader::proofs::expressions::Loops::parts_rest, swc_ecma_parser_reader::proofs::expressions::Loops::parts_rest_err, swc_ecma_parser_reader::proofs::expressions::Loops::parts_err, swc_ecma_parser_reader::proofs::expressions::Loops::parts_last, swc_ecma_parser_reader::proofs::expressions::Loops::parts_comma_err, swc_ecma_parser_reader::proofs::expressions::Loops::parts_comma_last, swc_ecma_parser_reader::proofs::expressions::Loops::parts_more, std::proofs::lemmas::List::map_push))]
fn group_parts<P: Cursor, T: BuildsPattern, G: Readers<P, T>>(
    g: &G,
    t: &MakerOf<T>,
    p: &mut P,
) -> PResult<Parts<T::Expr, T::Pat>>
    requires { G.ready g.now }
    ensures { GivesAs (parts_of T.expr_of T.pat_of)
        (arrows.group_parts (rules.expr (G.depth g.now)) (rules.function (G.depth g.now))
        (rules.cover (G.depth g.now)) (P.seen p.old)) result (P.seen p.new) }
{
    let mut found = Vec::new(t.alloc);
    if p.sees(TokenKind::RParen) {
        return Ok(ended(found, false));
    }
    'parts: loop {
        if p.sees(TokenKind::DotDotDot) {
            return rest_part(g, t, p, found);
        }
        let part = covered(g, t, p)?;
        pushed(p, &mut found, part)?;
        if p.sees(TokenKind::RParen) {
            return Ok(ended(found, false));
        }
        p.expect(TokenKind::Comma, ",")?;
        if p.sees(TokenKind::RParen) {
            return Ok(ended(found, true));
        }
    }
}

/// What stands from `(` to `)`.
#[tactic(auto, unfolding(swc_ecma_parser_reader::specs::Arrows::group))]
#[inline(never)]
pub fn parenthesized<P: Cursor, T: BuildsPattern, G: Readers<P, T>>(
    g: &G,
    t: &MakerOf<T>,
    p: &mut P,
) -> PResult<Group<T::Expr, T::Pat>>
    requires { G.ready g.now }
    ensures { GivesAs (group_of T.expr_of T.pat_of)
        (arrows.group (rules.expr (G.depth g.now)) (rules.function (G.depth g.now))
        (rules.cover (G.depth g.now)) (P.seen p.old)) result (P.seen p.new) }
{
    p.skip()?;
    let first = p.span();
    let Parts { parts, rest, comma } = group_parts(g, t, p)?;
    let last = p.last_span();
    p.expect(TokenKind::RParen, ")")?;
    Ok(Group {
        parts,
        rest,
        comma,
        first,
        last,
    })
}
