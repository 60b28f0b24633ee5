//! Objects: ECMA-262, section 13.2.5.

ghost use Rattle.std.specs.Prelude.{◌≡◌, true, IfOk};
ghost use Rattle.swc_ecma_parser_functions.specs.Methods.{form_of};
ghost use Rattle.swc_ecma_parser_shared.specs.Covers.{bare, cover_of, covers_of};
ghost use Rattle.swc_ecma_parser_shared.specs.Keys.{key_of, word_of};
ghost use Rattle.swc_ecma_parser_reader.specs.Expressions as exprs;
ghost use Rattle.swc_ecma_parser_reader.specs.Expressions.{is_literal};
ghost use Rattle.swc_ecma_parser_reader.specs.Reader as rules;
ghost use Rattle.swc_ecma_parser_reader.specs.State.{GivesAs};

use std::alloc::Global;
use swc_ecma_parser_common::Span;
use swc_ecma_parser_cursor::{Cursor, Wanted, may_refer_to_await};
use swc_ecma_parser_error::PResult;
use swc_ecma_parser_functions::methods::{MethodForm, method, method_words};
use swc_ecma_parser_grammar::Class;
use swc_ecma_parser_model::Ident;
use swc_ecma_parser_shared::cover::{
    Cover, Covers, Reading, behind_comma, close, covered, done, inside, joined, no_brace,
};
use swc_ecma_parser_shared::keys::{Key, made_key, property_key};
use swc_ecma_parser_shared::readers::Readers;
use swc_ecma_parser_shared::steps::{as_name, grown, since};
use swc_ecma_parser_token::TokenKind;
use swc_ecma_parser_trees::{BuildsMethod, BuildsObject, BuildsPattern, MakerOf};

/// A key with nothing behind it: a name.
#[tactic(auto, unfolding(swc_ecma_parser_reader::specs::Expressions::shorthand_name, swc_ecma_parser_reader::specs::State::as_name))]
fn shorthand_name<P: Cursor, T: BuildsObject>(
    alloc: Global,
    p: &mut P,
    name: Ident,
) -> PResult<T::Prop>
    ensures { GivesAs T.prop_of (exprs.shorthand_name name.span name.sym (P.seen p.old)) result
        (P.seen p.new) }
{
    let may_await = may_refer_to_await(p.flags());
    as_name(p, may_await, &name)?;
    grown(p, T::shorthand_prop(alloc, name))
}

/// A key and its value, from `:` on.
#[tactic(auto, unfolding(swc_ecma_parser_reader::specs::Expressions::key_value))]
#[inline(never)]
fn key_value<P: Cursor, T: BuildsObject, G: Readers<P, T>>(
    g: &G,
    t: &MakerOf<T>,
    p: &mut P,
    start: Span,
    key: Key<T::Expr>,
) -> PResult<Cover<T::Prop>>
    requires { G.ready g.now }
    ensures { GivesAs (cover_of T.prop_of)
        (exprs.key_value (rules.expr (G.depth g.now)) (rules.cover (G.depth g.now)) start
        (key_of T.expr_of key) (P.seen p.old)) result (P.seen p.new) }
{
    p.skip()?;
    let Cover { tree, mark, comma } = covered(g, t, p)?;
    let span = since(p, start);
    let key = grown(p, made_key::<T>(t.alloc, key))?;
    let tree = grown(p, T::key_value_prop(t.alloc, span, key, tree))?;
    Ok(Cover { tree, mark, comma })
}

/// A name and its default, from `=` on: a part that only a pattern has.
#[tactic(auto, unfolding(swc_ecma_parser_reader::specs::Expressions::initialized))]
fn initialized<P: Cursor, T: BuildsObject, G: Readers<P, T>>(
    g: &G,
    t: &MakerOf<T>,
    p: &mut P,
    start: Span,
    name: Ident,
) -> PResult<Cover<T::Prop>>
    requires { G.ready g.now }
    ensures { GivesAs (cover_of T.prop_of)
        (exprs.initialized (rules.expr (G.depth g.now)) (rules.cover (G.depth g.now)) start
        (word_of name) (P.seen p.old)) result (P.seen p.new) }
{
    p.skip()?;
    let value = inside(g, t, p, Class::Assignment)?;
    let span = since(p, start);
    let tree = grown(p, T::assign_prop(t.alloc, span, name, value))?;
    Ok(Cover {
        tree,
        mark: Some(span),
        comma: false,
    })
}

/// The same where it is a name.
#[tactic(auto, unfolding(swc_ecma_parser_reader::specs::Expressions::initialized_name, swc_ecma_parser_reader::specs::State::as_name))]
fn initialized_name<P: Cursor, T: BuildsObject, G: Readers<P, T>>(
    g: &G,
    t: &MakerOf<T>,
    p: &mut P,
    start: Span,
    name: Ident,
) -> PResult<Cover<T::Prop>>
    requires { G.ready g.now }
    ensures { GivesAs (cover_of T.prop_of)
        (exprs.initialized_name (rules.expr (G.depth g.now)) (rules.cover (G.depth g.now)) start
        name.span name.sym (P.seen p.old)) result (P.seen p.new) }
{
    let may_await = may_refer_to_await(p.flags());
    as_name(p, may_await, &name)?;
    initialized(g, t, p, start, name)
}

/// A key by itself.
#[inline(never)]
fn bare_key<P: Cursor, T: BuildsObject>(
    alloc: Global,
    p: &mut P,
    key: Key<T::Expr>,
) -> PResult<Cover<T::Prop>>
    ensures { GivesAs (cover_of T.prop_of) (bare (key_of T.expr_of key) (P.seen p.old)) result
        (P.seen p.new) }
{
    match key {
        Key::Word(name) => Ok(done(shorthand_name::<P, T>(alloc, p, name)?)),
        _ => Err(p.wanted(Wanted::Expression)),
    }
}

/// A key and its default, from `=` on, which only a name has.
#[tactic(auto, using(crate::proofs::Refusals::wanted_cover))]
#[inline(never)]
fn initialized_key<P: Cursor, T: BuildsObject, G: Readers<P, T>>(
    g: &G,
    t: &MakerOf<T>,
    p: &mut P,
    start: Span,
    key: Key<T::Expr>,
) -> PResult<Cover<T::Prop>>
    requires { G.ready g.now }
    ensures { GivesAs (cover_of T.prop_of)
        (exprs.initialized_key (rules.expr (G.depth g.now)) (rules.cover (G.depth g.now)) start
        (key_of T.expr_of key) (P.seen p.old)) result (P.seen p.new) }
{
    match key {
        Key::Word(name) => initialized_name(g, t, p, start, name),
        _ => Err(p.wanted(Wanted::Expression)),
    }
}

/// What stands behind a key.
#[tactic(auto, unfolding(swc_ecma_parser_reader::specs::Expressions::behind_key, swc_ecma_parser_reader::specs::Expressions::bare_key))]
fn behind_key<P: Cursor, T: BuildsObject, G: Readers<P, T>>(
    g: &G,
    t: &MakerOf<T>,
    p: &mut P,
    start: Span,
    key: Key<T::Expr>,
) -> PResult<Cover<T::Prop>>
    requires { G.ready g.now }
    ensures { GivesAs (cover_of T.prop_of)
        (exprs.behind_key (rules.expr (G.depth g.now)) (rules.cover (G.depth g.now)) start
        (key_of T.expr_of key) (P.seen p.old)) result (P.seen p.new) }
{
    if p.sees(TokenKind::Colon) {
        return key_value(g, t, p, start, key);
    }
    if p.sees(TokenKind::Assign) {
        return initialized_key(g, t, p, start, key);
    }
    bare_key::<P, T>(t.alloc, p, key)
}

/// What stands behind a key, where words of a method stand before it or not.
#[tactic(auto, unfolding(swc_ecma_parser_reader::specs::Expressions::behind_words, swc_ecma_parser_reader::specs::Expressions::method))]
fn behind_words<P: Cursor, T: BuildsMethod + BuildsPattern, G: Readers<P, T>>(
    g: &G,
    t: &MakerOf<T>,
    p: &mut P,
    form: MethodForm,
    start: Span,
    key: Key<T::Expr>,
) -> PResult<Cover<T::Prop>>
    requires { G.ready g.now }
    ensures { GivesAs (cover_of T.prop_of)
        (exprs.behind_words (rules.expr (G.depth g.now)) (rules.cover (G.depth g.now))
        (rules.function (G.depth g.now)) (form_of form) start (key_of T.expr_of key) (P.seen p.old))
        result (P.seen p.new) }
{
    if form.is_bare() && !p.sees(TokenKind::LParen) {
        return behind_key(g, t, p, start, key);
    }
    Ok(done(method(g, t, p, form, start, key)?))
}

/// A property that begins with a key, or with the words of a method before it.
#[tactic(auto, unfolding(swc_ecma_parser_reader::specs::Expressions::keyed_property))]
fn keyed_property<P: Cursor, T: BuildsMethod + BuildsPattern, G: Readers<P, T>>(
    g: &G,
    t: &MakerOf<T>,
    p: &mut P,
) -> PResult<Cover<T::Prop>>
    requires { G.ready g.now }
    ensures { GivesAs (cover_of T.prop_of)
        (exprs.keyed_property (rules.expr (G.depth g.now)) (rules.cover (G.depth g.now))
        (rules.function (G.depth g.now)) (P.seen p.old)) result (P.seen p.new) }
{
    let start = p.span();
    let form = method_words(p)?;
    let key = property_key(g, t, p)?;
    behind_words(g, t, p, form, start, key)
}

/// A spread property, with the place of its dots.
#[tactic(auto, unfolding(swc_ecma_parser_reader::specs::Expressions::spread_property))]
#[inline(never)]
fn spread_property<P: Cursor, T: BuildsObject, G: Readers<P, T>>(
    g: &G,
    t: &MakerOf<T>,
    p: &mut P,
) -> PResult<Cover<T::Prop>>
    requires { G.ready g.now }
    ensures { GivesAs (cover_of T.prop_of)
        (exprs.spread_property (rules.expr (G.depth g.now)) (rules.cover (G.depth g.now))
        (P.seen p.old)) result (P.seen p.new) }
{
    let dots = p.span();
    p.skip()?;
    let Cover { tree, mark, comma } = covered(g, t, p)?;
    let tree = grown(p, T::spread_prop(t.alloc, dots, tree))?;
    Ok(Cover { tree, mark, comma })
}

/// A property.
#[tactic(auto, unfolding(swc_ecma_parser_reader::specs::Expressions::property))]
fn property<P: Cursor, T: BuildsMethod + BuildsPattern, G: Readers<P, T>>(
    g: &G,
    t: &MakerOf<T>,
    p: &mut P,
) -> PResult<Cover<T::Prop>>
    requires { G.ready g.now }
    ensures { GivesAs (cover_of T.prop_of)
        (exprs.property (rules.expr (G.depth g.now)) (rules.cover (G.depth g.now))
        (rules.function (G.depth g.now)) (P.seen p.old)) result (P.seen p.new) }
{
    if p.sees(TokenKind::DotDotDot) {
        return spread_property(g, t, p);
    }
    keyed_property(g, t, p)
}

/// Properties, from `{` on.
#[tactic(auto, unfolding(swc_ecma_parser_reader::specs::Expressions::properties), using(swc_ecma_parser_reader::proofs::expressions::Loops::properties_done, swc_ecma_parser_reader::proofs::expressions::Loops::properties_err, swc_ecma_parser_reader::proofs::expressions::Loops::properties_last, swc_ecma_parser_reader::proofs::expressions::Loops::properties_more, swc_ecma_parser_reader::proofs::expressions::Loops::properties_comma_err, swc_ecma_parser_reader::proofs::expressions::Loops::property_shorter, swc_ecma_parser_reader::proofs::expressions::Loops::properties_shorter))]
fn properties<P: Cursor, T: BuildsMethod + BuildsPattern, G: Readers<P, T>>(
    g: &G,
    t: &MakerOf<T>,
    p: &mut P,
) -> PResult<Covers<T::Prop>>
    requires { G.ready g.now }
    ensures { GivesAs (covers_of T.prop_of)
        (exprs.properties (rules.expr (G.depth g.now)) (rules.cover (G.depth g.now))
        (rules.function (G.depth g.now)) (P.seen p.old)) result (P.seen p.new) }
{
    p.skip()?;
    let mut found = Covers {
        parts: Vec::new(t.alloc),
        mark: None,
        comma: false,
    };
    'properties: loop {
        if p.sees(TokenKind::RBrace) {
            p.skip()?;
            return Ok(found);
        }
        let is_spread = p.sees(TokenKind::DotDotDot);
        let part = property(g, t, p)?;
        joined(p, &mut found, part)?;
        if !p.sees(TokenKind::RBrace) {
            p.expect(TokenKind::Comma, ",")?;
            behind_comma(&mut found, is_spread);
        }
    }
}

/// An object.
#[tactic(auto, unfolding(swc_ecma_parser_reader::specs::Expressions::object))]
#[inline(never)]
pub fn object<P: Cursor, T: BuildsMethod + BuildsPattern, G: Readers<P, T>>(
    g: &G,
    t: &MakerOf<T>,
    p: &mut P,
) -> PResult<Cover<T::Expr>>
    requires { G.ready g.now }
    ensures gives { GivesAs (cover_of T.expr_of)
        (exprs.object (rules.expr (G.depth g.now)) (rules.cover (G.depth g.now))
        (rules.function (G.depth g.now)) (P.seen p.old)) result (P.seen p.new) }
    ensures literal { IfOk result (λ v. is_literal (T.expr_of v.tree) ≡ true) }
{
    let start = p.span();
    let Covers { parts, mark, comma } = properties(g, t, p)?;
    let span = since(p, start);
    let tree = grown(p, T::object(t.alloc, span, parts))?;
    Ok(Cover { tree, mark, comma })
}

/// An object alone, whatever goes on behind it.
#[tactic(auto, unfolding(swc_ecma_parser_reader::specs::Expressions::object_level))]
pub fn object_level<P: Cursor, T: BuildsMethod + BuildsPattern, G: Readers<P, T>>(
    g: &G,
    t: &MakerOf<T>,
    p: &mut P,
) -> PResult<T::Expr>
    requires { G.ready g.now }
    ensures { GivesAs T.expr_of
        (exprs.object_level (rules.expr (G.depth g.now)) (rules.cover (G.depth g.now))
        (rules.function (G.depth g.now)) (P.seen p.old)) result (P.seen p.new) }
{
    if !p.sees(TokenKind::LBrace) {
        return Err(no_brace(p));
    }
    let found = object(g, t, p)?;
    close::<P, T>(p, found)
}
