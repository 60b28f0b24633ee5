//! Binding patterns: ECMA-262, section 14.3.3.

ghost use Rattle.std.specs.Prelude.{map};
ghost use Rattle.swc_ecma_parser_grammar.specs.language.Contexts as language;
ghost use Rattle.swc_ecma_parser_shared.specs.Patterns.{read_pat};
ghost use Rattle.swc_ecma_parser_reader.specs.Patterns as patterns;
ghost use Rattle.swc_ecma_parser_reader.specs.Reader as rules;
ghost use Rattle.swc_ecma_parser_reader.specs.State as reader;
ghost use Rattle.swc_ecma_parser_reader.specs.State.{GivesAs};
ghost use Rattle.swc_ecma_parser_trees.specs.Parts.{part_of};

use crate::object_pat::object_pat;
use std::alloc::Global;
use swc_ecma_parser_common::Span;
use swc_ecma_parser_cursor::{Cursor, Wanted};
use swc_ecma_parser_error::PResult;
use swc_ecma_parser_grammar::Class;
use swc_ecma_parser_shared::cover::inside;
use swc_ecma_parser_shared::grammar::Part;
use swc_ecma_parser_shared::readers::Readers;
use swc_ecma_parser_shared::steps::{grown, pushed, since, with_in};
use swc_ecma_parser_token::TokenKind;
use swc_ecma_parser_trees::{BuildsObjectPat, BuildsPat, BuildsPattern, MakerOf, Trees};

/// A name that is bound.
#[tactic(auto, unfolding(swc_ecma_parser_reader::specs::Patterns::binding))]
fn binding<P: Cursor, T: BuildsPat>(alloc: Global, p: &mut P) -> PResult<T::Pat>
    ensures { GivesAs T.pat_of (patterns.binding (P.seen p.old)) result (P.seen p.new) }
{
    let name = p.name(Wanted::Name)?;
    grown(p, T::ident_pat(alloc, name))
}

/// A pattern one level further in, where `in` is an operator.
pub fn inner_pat<P: Cursor, T: Trees, G: Readers<P, T>>(
    g: &G,
    t: &MakerOf<T>,
    p: &mut P,
    part: Part,
) -> PResult<T::Pat>
    requires { G.ready g.now }
    ensures { GivesAs T.pat_of
        (reader.within language.with_in (read_pat (G.depth g.now) part) (P.seen p.old)) result
        (P.seen p.new) }
{
    let outer = p.flags();
    p.set_flags(with_in(outer));
    let inner = g.pat(t, p, part)?;
    p.set_flags(outer);
    Ok(inner)
}

/// The rest of an array or of parameters.
#[tactic(auto, unfolding(swc_ecma_parser_reader::specs::Patterns::rest))]
pub(crate) fn rest<P: Cursor, T: BuildsPattern, G: Readers<P, T>>(
    g: &G,
    t: &MakerOf<T>,
    p: &mut P,
) -> PResult<T::Pat>
    requires { G.ready g.now }
    ensures { GivesAs T.pat_of
        (patterns.rest (rules.expr (G.depth g.now)) (rules.cover (G.depth g.now))
        (rules.pattern (G.depth g.now)) (rules.element (G.depth g.now)) (P.seen p.old)) result
        (P.seen p.new) }
{
    let start = p.span();
    p.skip()?;
    let pat = inner_pat(g, t, p, Part::Pattern)?;
    let span = since(p, start);
    grown(p, T::rest_pat(t.alloc, span, pat))
}

/// Elements, from `[` on. A comma with nothing before it makes a hole, and nothing stands behind the rest.
#[tactic(auto, unfolding(swc_ecma_parser_reader::specs::Patterns::elements), using(swc_ecma_parser_reader::proofs::patterns::Loops::elements_done, swc_ecma_parser_reader::proofs::patterns::Loops::elements_hole, swc_ecma_parser_reader::proofs::patterns::Loops::elements_last, swc_ecma_parser_reader::proofs::patterns::Loops::elements_more, swc_ecma_parser_reader::proofs::expressions::Loops::hole_shorter, std::proofs::lemmas::List::map_push))]
fn elements<P: Cursor, T: BuildsPattern, G: Readers<P, T>>(
    g: &G,
    t: &MakerOf<T>,
    p: &mut P,
) -> PResult<Vec<Option<T::Pat>>>
    requires { G.ready g.now }
    ensures { GivesAs (λ found. map (part_of T.pat_of) found.items)
        (patterns.elements (rules.expr (G.depth g.now)) (rules.cover (G.depth g.now))
        (rules.pattern (G.depth g.now)) (rules.element (G.depth g.now)) (P.seen p.old)) result
        (P.seen p.new) }
{
    p.skip()?;
    let mut found = Vec::new(t.alloc);
    'elements: loop {
        if p.sees(TokenKind::RBracket) {
            p.skip()?;
            return Ok(found);
        }
        if p.sees(TokenKind::Comma) {
            p.skip()?;
            pushed(p, &mut found, None)?;
            continue;
        }
        if p.sees(TokenKind::DotDotDot) {
            let rest = rest(g, t, p)?;
            pushed(p, &mut found, Some(rest))?;
            p.expect(TokenKind::RBracket, "]")?;
            return Ok(found);
        }
        let element = inner_pat(g, t, p, Part::Element)?;
        pushed(p, &mut found, Some(element))?;
        if p.sees(TokenKind::RBracket) {
            continue;
        }
        p.expect(TokenKind::Comma, ",")?;
    }
}

/// An array pattern.
#[tactic(auto, unfolding(swc_ecma_parser_reader::specs::Patterns::array))]
#[inline(never)]
fn array_pat<P: Cursor, T: BuildsPattern, G: Readers<P, T>>(
    g: &G,
    t: &MakerOf<T>,
    p: &mut P,
) -> PResult<T::Pat>
    requires { G.ready g.now }
    ensures { GivesAs T.pat_of
        (patterns.array (rules.expr (G.depth g.now)) (rules.cover (G.depth g.now))
        (rules.pattern (G.depth g.now)) (rules.element (G.depth g.now)) (P.seen p.old)) result
        (P.seen p.new) }
{
    let start = p.span();
    let found = elements(g, t, p)?;
    let span = since(p, start);
    grown(p, T::array_pat(t.alloc, span, found))
}

/// A pattern without default.
#[tactic(auto, unfolding(swc_ecma_parser_reader::specs::Patterns::pattern_level))]
pub fn pattern_level<P: Cursor, T: BuildsPat + BuildsPattern + BuildsObjectPat, G: Readers<P, T>>(
    g: &G,
    t: &MakerOf<T>,
    p: &mut P,
) -> PResult<T::Pat>
    requires { G.ready g.now }
    ensures { GivesAs T.pat_of
        (patterns.pattern_level (rules.expr (G.depth g.now)) (rules.cover (G.depth g.now))
        (rules.pattern (G.depth g.now)) (rules.element (G.depth g.now)) (P.seen p.old)) result
        (P.seen p.new) }
{
    if p.sees(TokenKind::LBracket) {
        return array_pat(g, t, p);
    }
    if p.sees(TokenKind::LBrace) {
        return object_pat(g, t, p);
    }
    binding::<P, T>(t.alloc, p)
}

/// A pattern with its default, from `=` on.
#[tactic(auto, unfolding(swc_ecma_parser_reader::specs::Patterns::initialized))]
fn initialized<P: Cursor, T: BuildsPattern, G: Readers<P, T>>(
    g: &G,
    t: &MakerOf<T>,
    p: &mut P,
    start: Span,
    left: T::Pat,
) -> PResult<T::Pat>
    requires { G.ready g.now }
    ensures { GivesAs T.pat_of
        (patterns.initialized (rules.expr (G.depth g.now)) (rules.cover (G.depth g.now))
        (rules.pattern (G.depth g.now)) (rules.element (G.depth g.now)) start (T.pat_of left)
        (P.seen p.old)) result (P.seen p.new) }
{
    p.skip()?;
    let value = inside(g, t, p, Class::Assignment)?;
    let span = since(p, start);
    grown(p, T::assign_pat(t.alloc, span, left, value))
}

/// A pattern with its default, if one stands there.
#[tactic(auto, unfolding(swc_ecma_parser_reader::specs::Patterns::element_level))]
pub fn element_level<P: Cursor, T: BuildsPat + BuildsPattern + BuildsObjectPat, G: Readers<P, T>>(
    g: &G,
    t: &MakerOf<T>,
    p: &mut P,
) -> PResult<T::Pat>
    requires { G.ready g.now }
    ensures { GivesAs T.pat_of
        (patterns.element_level (rules.expr (G.depth g.now)) (rules.cover (G.depth g.now))
        (rules.pattern (G.depth g.now)) (rules.element (G.depth g.now)) (P.seen p.old)) result
        (P.seen p.new) }
{
    let start = p.span();
    let pat = pattern_level(g, t, p)?;
    if p.sees(TokenKind::Assign) {
        return initialized(g, t, p, start, pat);
    }
    Ok(pat)
}
