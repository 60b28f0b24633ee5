//! Keys of properties: PropertyName, ECMA-262, section 13.2.5.

ghost use Rattle.std.specs.Prelude.{◌≡◌, IfOk, nat_eq};
ghost use Rattle.swc_ecma_parser_grammar.specs.Looks.{span_at};
ghost use Rattle.swc_ecma_parser_shared.specs.Keys.{key_of, private_of, word_of};
ghost use Rattle.swc_ecma_parser_reader.specs.Expressions as exprs;
ghost use Rattle.swc_ecma_parser_reader.specs.Reader as rules;
ghost use Rattle.swc_ecma_parser_reader.specs.State.{Gives, GivesAs};

use crate::cover::inside;
use crate::readers::Readers;
use crate::steps::since;
use std::alloc::{AllocError, Global};
use swc_ecma_parser_common::Span;
use swc_ecma_parser_cursor::{Cursor, Literal, Wanted};
use swc_ecma_parser_error::PResult;
use swc_ecma_parser_grammar::Class;
use swc_ecma_parser_model::{BigInt, Ident, Number, PrivateName, Str};
use swc_ecma_parser_token::TokenKind;
use swc_ecma_parser_trees::{BuildsKey, MakerOf, Trees};

/// A key.
#[derive(Drop)]
pub enum Key<E> {
    Word(Ident),
    Str(Str),
    Num(Number),
    BigInt(BigInt),
    /// An expression in brackets, which stand there.
    Computed(Span, E),
}

/// The tree's key.
#[inline(never)]
pub fn made_key<T: BuildsKey>(alloc: Global, key: Key<T::Expr>) -> Result<T::Key, AllocError>
    ensures { IfOk result (λ x. T.key_of x ≡ key_of T.expr_of key) }
{
    match key {
        Key::Word(x) => T::ident_key(alloc, x),
        Key::Str(x) => T::str_key(alloc, x),
        Key::Num(x) => T::num_key(alloc, x),
        Key::BigInt(x) => T::big_int_key(alloc, x),
        Key::Computed(brackets, expr) => T::computed_key(alloc, brackets, expr),
    }
}

/// A word as a property.
#[tactic(auto, unfolding(swc_ecma_parser_reader::specs::Expressions::word_property))]
pub fn word_property<P: Cursor>(p: &mut P) -> PResult<Ident>
    ensures { GivesAs word_of (exprs.word_property (P.seen p.old)) result (P.seen p.new) }
{
    p.any_word()
}

/// Whether what stands here begins where the token before it ends.
fn touches<P: Cursor>(p: &P) -> bool
    ensures { result ≡ nat_eq (P.seen p.now).at.last.hi.0 (span_at (P.seen p.now).at).lo.0 }
{
    p.last_span().hi.0 == p.span().lo.0
}

/// A word that begins where the token before it ends.
#[tactic(auto, unfolding(swc_ecma_parser_reader::specs::Expressions::touching_word))]
fn touching_word<P: Cursor>(p: &mut P) -> PResult<Ident>
    ensures { Gives (exprs.touching_word (P.seen p.old)) result (P.seen p.new) }
{
    if touches(p) {
        return p.any_word();
    }
    Err(p.wanted(Wanted::Name))
}

/// `#` and its word.
#[tactic(auto, unfolding(swc_ecma_parser_reader::specs::Expressions::private_name))]
pub fn private_name<P: Cursor>(p: &mut P) -> PResult<PrivateName>
    ensures { GivesAs private_of (exprs.private_name (P.seen p.old)) result (P.seen p.new) }
{
    let start = p.span();
    p.skip()?;
    let id = touching_word(p)?;
    let span = since(p, start);
    Ok(PrivateName { span, id })
}

/// A string or a number as a key.
#[tactic(auto, unfolding(swc_ecma_parser_reader::specs::Expressions::literal_key))]
fn literal_key<P: Cursor, T: Trees>(p: &mut P) -> PResult<Key<T::Expr>>
    ensures { GivesAs (key_of T.expr_of) (exprs.literal_key (P.seen p.old)) result (P.seen p.new) }
{
    let Some(literal) = p.literal()? else {
        return Err(p.wanted(Wanted::Name));
    };
    match literal {
        Literal::Str(x) => Ok(Key::Str(x)),
        Literal::Num(x) => Ok(Key::Num(x)),
        Literal::BigInt(x) => Ok(Key::BigInt(x)),
        Literal::Null(_) | Literal::Bool(_) => Err(p.wanted(Wanted::Name)),
    }
}

/// A key in brackets.
#[tactic(auto, unfolding(swc_ecma_parser_reader::specs::Expressions::computed_key))]
fn computed_key<P: Cursor, T: Trees, G: Readers<P, T>>(
    g: &G,
    t: &MakerOf<T>,
    p: &mut P,
) -> PResult<Key<T::Expr>>
    requires { G.ready g.now }
    ensures { GivesAs (key_of T.expr_of)
        (exprs.computed_key (rules.expr (G.depth g.now)) (rules.cover (G.depth g.now))
        (P.seen p.old)) result (P.seen p.new) }
{
    let start = p.span();
    p.skip()?;
    let expr = inside(g, t, p, Class::Assignment)?;
    p.expect(TokenKind::RBracket, "]")?;
    let span = since(p, start);
    Ok(Key::Computed(span, expr))
}

/// A key.
#[tactic(auto, unfolding(swc_ecma_parser_reader::specs::Expressions::key))]
#[inline(never)]
pub fn property_key<P: Cursor, T: Trees, G: Readers<P, T>>(
    g: &G,
    t: &MakerOf<T>,
    p: &mut P,
) -> PResult<Key<T::Expr>>
    requires { G.ready g.now }
    ensures { GivesAs (key_of T.expr_of)
        (exprs.key (rules.expr (G.depth g.now)) (rules.cover (G.depth g.now)) (P.seen p.old)) result
        (P.seen p.new) }
{
    if p.is_word_here() {
        return Ok(Key::Word(word_property(p)?));
    }
    if p.sees(TokenKind::LBracket) {
        return computed_key(g, t, p);
    }
    literal_key::<P, T>(p)
}
