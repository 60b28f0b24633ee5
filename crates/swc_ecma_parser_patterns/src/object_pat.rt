//! Object patterns of bindings: ECMA-262, section 14.3.3.

ghost use Rattle.std.specs.Prelude.{map};
ghost use Rattle.swc_ecma_parser_shared.specs.Keys.{key_of};
ghost use Rattle.swc_ecma_parser_reader.specs.Patterns as patterns;
ghost use Rattle.swc_ecma_parser_reader.specs.Reader as rules;
ghost use Rattle.swc_ecma_parser_reader.specs.State.{GivesAs};

use crate::pat::inner_pat;
use swc_ecma_parser_common::Span;
use swc_ecma_parser_cursor::{Cursor, Wanted, may_bind_await};
use swc_ecma_parser_error::PResult;
use swc_ecma_parser_grammar::Class;
use swc_ecma_parser_model::Ident;
use swc_ecma_parser_shared::cover::inside;
use swc_ecma_parser_shared::grammar::Part;
use swc_ecma_parser_shared::keys::{Key, made_key, property_key};
use swc_ecma_parser_shared::readers::Readers;
use swc_ecma_parser_shared::steps::{as_name, grown, pushed, since};
use swc_ecma_parser_token::TokenKind;
use swc_ecma_parser_trees::{BuildsObjectPat, MakerOf, Trees};

/// The rest of an object, which is a name.
#[tactic(auto, unfolding(swc_ecma_parser_reader::specs::Patterns::rest_name))]
fn rest_name<P: Cursor, T: Trees, G: Readers<P, T>>(
    g: &G,
    t: &MakerOf<T>,
    p: &mut P,
) -> PResult<T::Pat>
    requires { G.ready g.now }
    ensures { GivesAs T.pat_of
        (patterns.rest_name (rules.expr (G.depth g.now)) (rules.cover (G.depth g.now))
        (rules.pattern (G.depth g.now)) (rules.element (G.depth g.now)) (P.seen p.old)) result
        (P.seen p.new) }
{
    if p.sees(TokenKind::LBracket) || p.sees(TokenKind::LBrace) {
        return Err(p.wanted(Wanted::Name));
    }
    inner_pat(g, t, p, Part::Pattern)
}

/// `...` and the rest of an object.
#[tactic(auto, unfolding(swc_ecma_parser_reader::specs::Patterns::rest_property))]
fn rest_property<P: Cursor, T: BuildsObjectPat, G: Readers<P, T>>(
    g: &G,
    t: &MakerOf<T>,
    p: &mut P,
) -> PResult<T::PatProp>
    requires { G.ready g.now }
    ensures { GivesAs T.pat_prop_of
        (patterns.rest_property (rules.expr (G.depth g.now)) (rules.cover (G.depth g.now))
        (rules.pattern (G.depth g.now)) (rules.element (G.depth g.now)) (P.seen p.old)) result
        (P.seen p.new) }
{
    let start = p.span();
    p.skip()?;
    let name = rest_name(g, t, p)?;
    let span = since(p, start);
    grown(p, T::rest_pat_prop(t.alloc, span, name))
}

/// A key and its pattern, from `:` on.
#[tactic(auto, unfolding(swc_ecma_parser_reader::specs::Patterns::key_value))]
fn key_value<P: Cursor, T: BuildsObjectPat, G: Readers<P, T>>(
    g: &G,
    t: &MakerOf<T>,
    p: &mut P,
    start: Span,
    key: Key<T::Expr>,
) -> PResult<T::PatProp>
    requires { G.ready g.now }
    ensures { GivesAs T.pat_prop_of
        (patterns.key_value (rules.expr (G.depth g.now)) (rules.cover (G.depth g.now))
        (rules.pattern (G.depth g.now)) (rules.element (G.depth g.now)) start (key_of T.expr_of key)
        (P.seen p.old)) result (P.seen p.new) }
{
    p.skip()?;
    let value = inner_pat(g, t, p, Part::Element)?;
    let span = since(p, start);
    let key = grown(p, made_key::<T>(t.alloc, key))?;
    grown(p, T::key_value_pat_prop(t.alloc, span, key, value))
}

/// A name that is its own key and its default, from `=` on.
#[tactic(auto, unfolding(swc_ecma_parser_reader::specs::Patterns::initialized_name))]
fn initialized_name<P: Cursor, T: BuildsObjectPat, G: Readers<P, T>>(
    g: &G,
    t: &MakerOf<T>,
    p: &mut P,
    start: Span,
    name: Ident,
) -> PResult<T::PatProp>
    requires { G.ready g.now }
    ensures { GivesAs T.pat_prop_of
        (patterns.initialized_name (rules.expr (G.depth g.now)) (rules.cover (G.depth g.now))
        (rules.pattern (G.depth g.now)) (rules.element (G.depth g.now)) start name.span name.sym
        (P.seen p.old)) result (P.seen p.new) }
{
    p.skip()?;
    let value = inside(g, t, p, Class::Assignment)?;
    let span = since(p, start);
    grown(p, T::assign_pat_prop(t.alloc, span, name, Some(value)))
}

/// A word that is its own key, with its default if one stands there: a name.
#[tactic(auto, unfolding(swc_ecma_parser_reader::specs::Patterns::named, swc_ecma_parser_reader::specs::Patterns::bare_name, swc_ecma_parser_reader::specs::State::as_name))]
fn named<P: Cursor, T: BuildsObjectPat, G: Readers<P, T>>(
    g: &G,
    t: &MakerOf<T>,
    p: &mut P,
    start: Span,
    name: Ident,
) -> PResult<T::PatProp>
    requires { G.ready g.now }
    ensures { GivesAs T.pat_prop_of
        (patterns.named (rules.expr (G.depth g.now)) (rules.cover (G.depth g.now))
        (rules.pattern (G.depth g.now)) (rules.element (G.depth g.now)) start name.span name.sym
        (P.seen p.old)) result (P.seen p.new) }
{
    let may_await = may_bind_await(p.flags());
    as_name(p, may_await, &name)?;
    if p.sees(TokenKind::Assign) {
        return initialized_name(g, t, p, start, name);
    }
    let span = since(p, start);
    grown(p, T::assign_pat_prop(t.alloc, span, name, None))
}

/// A key with no pattern behind it, which is a name.
fn bare_key<P: Cursor, T: BuildsObjectPat, G: Readers<P, T>>(
    g: &G,
    t: &MakerOf<T>,
    p: &mut P,
    start: Span,
    key: Key<T::Expr>,
) -> PResult<T::PatProp>
    requires { G.ready g.now }
    ensures { GivesAs T.pat_prop_of
        (patterns.bare_key (rules.expr (G.depth g.now)) (rules.cover (G.depth g.now))
        (rules.pattern (G.depth g.now)) (rules.element (G.depth g.now)) start (key_of T.expr_of key)
        (P.seen p.old)) result (P.seen p.new) }
{
    match key {
        Key::Word(name) => named(g, t, p, start, name),
        _ => Err(p.wanted(Wanted::Expression)),
    }
}

/// What stands behind a key.
#[tactic(auto, unfolding(swc_ecma_parser_reader::specs::Patterns::behind_key))]
fn behind_key<P: Cursor, T: BuildsObjectPat, G: Readers<P, T>>(
    g: &G,
    t: &MakerOf<T>,
    p: &mut P,
    start: Span,
    key: Key<T::Expr>,
) -> PResult<T::PatProp>
    requires { G.ready g.now }
    ensures { GivesAs T.pat_prop_of
        (patterns.behind_key (rules.expr (G.depth g.now)) (rules.cover (G.depth g.now))
        (rules.pattern (G.depth g.now)) (rules.element (G.depth g.now)) start (key_of T.expr_of key)
        (P.seen p.old)) result (P.seen p.new) }
{
    if p.sees(TokenKind::Colon) {
        return key_value(g, t, p, start, key);
    }
    bare_key(g, t, p, start, key)
}

/// A property.
#[tactic(auto, unfolding(swc_ecma_parser_reader::specs::Patterns::property))]
fn property<P: Cursor, T: BuildsObjectPat, G: Readers<P, T>>(
    g: &G,
    t: &MakerOf<T>,
    p: &mut P,
) -> PResult<T::PatProp>
    requires { G.ready g.now }
    ensures { GivesAs T.pat_prop_of
        (patterns.property (rules.expr (G.depth g.now)) (rules.cover (G.depth g.now))
        (rules.pattern (G.depth g.now)) (rules.element (G.depth g.now)) (P.seen p.old)) result
        (P.seen p.new) }
{
    let start = p.span();
    let key = property_key(g, t, p)?;
    behind_key(g, t, p, start, key)
}

/// Properties, from `{` on. Nothing stands behind the rest.
#[tactic(auto, unfolding(swc_ecma_parser_reader::specs::Patterns::properties), using(swc_ecma_parser_reader::proofs::patterns::Loops::properties_done, swc_ecma_parser_reader::proofs::patterns::Loops::properties_rest, swc_ecma_parser_reader::proofs::patterns::Loops::properties_last, swc_ecma_parser_reader::proofs::patterns::Loops::properties_more, swc_ecma_parser_reader::proofs::patterns::Loops::property_shorter, swc_ecma_parser_reader::proofs::patterns::Loops::properties_shorter, std::proofs::lemmas::List::map_push))]
fn properties<P: Cursor, T: BuildsObjectPat, G: Readers<P, T>>(
    g: &G,
    t: &MakerOf<T>,
    p: &mut P,
) -> PResult<Vec<T::PatProp>>
    requires { G.ready g.now }
    ensures { GivesAs (λ found. map T.pat_prop_of found.items)
        (patterns.properties (rules.expr (G.depth g.now)) (rules.cover (G.depth g.now))
        (rules.pattern (G.depth g.now)) (rules.element (G.depth g.now)) (P.seen p.old)) result
        (P.seen p.new) }
{
    p.skip()?;
    let mut found = Vec::new(t.alloc);
    'properties: loop {
        if p.sees(TokenKind::RBrace) {
            p.skip()?;
            return Ok(found);
        }
        if p.sees(TokenKind::DotDotDot) {
            let rest = rest_property(g, t, p)?;
            pushed(p, &mut found, rest)?;
            p.expect(TokenKind::RBrace, "}")?;
            return Ok(found);
        }
        let property = property(g, t, p)?;
        pushed(p, &mut found, property)?;
        if !p.sees(TokenKind::RBrace) {
            p.expect(TokenKind::Comma, ",")?;
        }
    }
}

/// An object pattern.
#[tactic(auto, unfolding(swc_ecma_parser_reader::specs::Patterns::object))]
#[inline(never)]
pub(crate) fn object_pat<P: Cursor, T: BuildsObjectPat, G: Readers<P, T>>(
    g: &G,
    t: &MakerOf<T>,
    p: &mut P,
) -> PResult<T::Pat>
    requires { G.ready g.now }
    ensures { GivesAs T.pat_of
        (patterns.object (rules.expr (G.depth g.now)) (rules.cover (G.depth g.now))
        (rules.pattern (G.depth g.now)) (rules.element (G.depth g.now)) (P.seen p.old)) result
        (P.seen p.new) }
{
    let start = p.span();
    let found = properties(g, t, p)?;
    let span = since(p, start);
    grown(p, T::object_pat(t.alloc, span, found))
}
