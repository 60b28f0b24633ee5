//! Accesses and arguments: ECMA-262, sections 13.3.2 and 13.3.8.

ghost use Rattle.std.specs.Prelude.{◌≡◌, ◌&&◌, ◌||◌, not, IfOk, map};
ghost use Rattle.swc_ecma_parser_grammar.specs.Looks.{sees};
ghost use Rattle.swc_ecma_parser_left_sides.specs.Accesses.{property_of};
ghost use Rattle.swc_ecma_parser_model.specs.Tree as tree;
ghost use Rattle.swc_ecma_parser_reader.specs.Expressions as exprs;
ghost use Rattle.swc_ecma_parser_reader.specs.Reader as rules;
ghost use Rattle.swc_ecma_parser_reader.specs.State.{Gives, GivesAs};
ghost use Rattle.swc_ecma_parser_token.specs.declared.kind.TokenKind.TheVariants as kind;

use swc_ecma_parser_common::Span;
use swc_ecma_parser_cursor::{Cursor, Wanted};
use swc_ecma_parser_error::{PResult, SyntaxError};
use swc_ecma_parser_grammar::Class;
use swc_ecma_parser_model::{Ident, PrivateName};
use swc_ecma_parser_shared::cover::inside;
use swc_ecma_parser_shared::keys::{private_name, word_property};
use swc_ecma_parser_shared::readers::Readers;
use swc_ecma_parser_shared::steps::{grown, pushed, since};
use swc_ecma_parser_token::TokenKind;
use swc_ecma_parser_trees::{BuildsCall, MakerOf, Trees};

/// What stands behind an object.
pub enum Property<E> {
    /// `.name`
    Word(Ident),
    /// `.#name`
    Private(PrivateName),
    /// An expression in brackets, which stand there.
    Brackets(Span, E),
}

/// What stands behind `.`.
#[tactic(auto, unfolding(swc_ecma_parser_reader::specs::Expressions::dotted))]
pub(crate) fn dotted<P: Cursor, T: Trees>(p: &mut P) -> PResult<Property<T::Expr>>
    ensures { GivesAs (property_of T.expr_of) (exprs.dotted (P.seen p.old)) result (P.seen p.new) }
{
    if p.sees(TokenKind::Hash) {
        return Ok(Property::Private(private_name(p)?));
    }
    Ok(Property::Word(word_property(p)?))
}

/// An expression in brackets, with their place.
#[tactic(auto, unfolding(swc_ecma_parser_reader::specs::Expressions::brackets))]
#[inline(never)]
pub(crate) fn brackets<P: Cursor, T: Trees, G: Readers<P, T>>(
    g: &G,
    t: &MakerOf<T>,
    p: &mut P,
) -> PResult<(Span, T::Expr)>
    requires { G.ready g.now }
    ensures { GivesAs (λ x. tree.computed x.0 (T.expr_of x.1))
        (exprs.brackets (rules.expr (G.depth g.now)) (rules.cover (G.depth g.now)) (P.seen p.old))
        result (P.seen p.new) }
{
    let start = p.span();
    p.skip()?;
    let expr = inside(g, t, p, Class::Expression)?;
    p.expect(TokenKind::RBracket, "]")?;
    Ok((since(p, start), expr))
}

/// Whether an access begins here.
pub(crate) fn begins_access<P: Cursor>(p: &P) -> bool
    ensures { result ≡ (sees kind.Dot (P.seen p.now).at || sees kind.LBracket (P.seen p.now).at) }
{
    p.sees(TokenKind::Dot) || p.sees(TokenKind::LBracket)
}

/// An access, from `.` or `[` on.
#[tactic(auto, unfolding(swc_ecma_parser_reader::specs::Expressions::access))]
pub(crate) fn access<P: Cursor, T: Trees, G: Readers<P, T>>(
    g: &G,
    t: &MakerOf<T>,
    p: &mut P,
) -> PResult<Property<T::Expr>>
    requires { G.ready g.now }
    ensures { GivesAs (property_of T.expr_of)
        (exprs.access (rules.expr (G.depth g.now)) (rules.cover (G.depth g.now)) (P.seen p.old))
        result (P.seen p.new) }
{
    if p.sees(TokenKind::Dot) {
        p.skip()?;
        return dotted::<P, T>(p);
    }
    let (place, expr) = brackets(g, t, p)?;
    Ok(Property::Brackets(place, expr))
}

/// A spread argument or element, with the place of its dots.
#[tactic(auto, unfolding(swc_ecma_parser_reader::specs::Expressions::spread_element))]
#[inline(never)]
fn spread_element<P: Cursor, T: BuildsCall, G: Readers<P, T>>(
    g: &G,
    t: &MakerOf<T>,
    p: &mut P,
) -> PResult<T::Arg>
    requires { G.ready g.now }
    ensures { GivesAs (T.arg_of)
        (exprs.spread_element (rules.expr (G.depth g.now)) (rules.cover (G.depth g.now))
        (P.seen p.old)) result (P.seen p.new) }
{
    let dots = p.span();
    p.skip()?;
    let expr = inside(g, t, p, Class::Assignment)?;
    grown(p, T::element(t.alloc, Some(dots), expr))
}

/// An argument or element that is not spread.
#[tactic(auto, unfolding(swc_ecma_parser_reader::specs::Expressions::plain_element))]
#[inline(never)]
fn plain_element<P: Cursor, T: BuildsCall, G: Readers<P, T>>(
    g: &G,
    t: &MakerOf<T>,
    p: &mut P,
) -> PResult<T::Arg>
    requires { G.ready g.now }
    ensures { GivesAs (T.arg_of)
        (exprs.plain_element (rules.expr (G.depth g.now)) (rules.cover (G.depth g.now))
        (P.seen p.old)) result (P.seen p.new) }
{
    let expr = inside(g, t, p, Class::Assignment)?;
    grown(p, T::element(t.alloc, None, expr))
}

/// An argument or an element.
#[tactic(auto, unfolding(swc_ecma_parser_reader::specs::Expressions::element))]
fn element<P: Cursor, T: BuildsCall, G: Readers<P, T>>(
    g: &G,
    t: &MakerOf<T>,
    p: &mut P,
) -> PResult<T::Arg>
    requires { G.ready g.now }
    ensures { GivesAs (T.arg_of)
        (exprs.element (rules.expr (G.depth g.now)) (rules.cover (G.depth g.now)) (P.seen p.old))
        result (P.seen p.new) }
{
    if p.sees(TokenKind::DotDotDot) {
        return spread_element(g, t, p);
    }
    plain_element(g, t, p)
}

/// Whether `)` stands here behind a comma, where none may stand before it.
fn ends_behind_comma<P: Cursor>(p: &P, commas: bool) -> bool
    ensures { result ≡ (not commas && sees kind.RParen (P.seen p.now).at) }
{
    !commas && p.sees(TokenKind::RParen)
}

/// Arguments, from `(` on. A comma may stand behind the last one, or is recorded there.
#[tactic(auto, unfolding(swc_ecma_parser_reader::specs::Expressions::arguments), using(swc_ecma_parser_reader::proofs::expressions::Loops::arguments_done, swc_ecma_parser_reader::proofs::expressions::Loops::arguments_err, swc_ecma_parser_reader::proofs::expressions::Loops::arguments_last, swc_ecma_parser_reader::proofs::expressions::Loops::arguments_more, swc_ecma_parser_reader::proofs::expressions::Loops::arguments_noted, swc_ecma_parser_reader::proofs::expressions::Loops::arguments_note_err, swc_ecma_parser_reader::proofs::expressions::Loops::arguments_comma_err, swc_ecma_parser_reader::proofs::expressions::Loops::element_shorter, swc_ecma_parser_reader::proofs::expressions::Loops::arguments_shorter, swc_ecma_parser_reader::proofs::expressions::Loops::arguments_noted_shorter, std::proofs::lemmas::List::map_push))]
#[inline(never)]
pub(crate) fn arguments<P: Cursor, T: BuildsCall, G: Readers<P, T>>(
    g: &G,
    t: &MakerOf<T>,
    p: &mut P,
    commas: bool,
) -> PResult<Vec<T::Arg>>
    requires { G.ready g.now }
    ensures { GivesAs (λ found. map T.arg_of found.items)
        (exprs.arguments (rules.expr (G.depth g.now)) (rules.cover (G.depth g.now)) commas
        (P.seen p.old)) result (P.seen p.new) }
{
    p.skip()?;
    let mut found = Vec::new(t.alloc);
    'arguments: loop {
        if p.sees(TokenKind::RParen) {
            p.skip()?;
            return Ok(found);
        }
        let argument = element(g, t, p)?;
        pushed(p, &mut found, argument)?;
        if !p.sees(TokenKind::RParen) {
            p.expect(TokenKind::Comma, ",")?;
            if ends_behind_comma(p, commas) {
                let comma = p.last_span();
                p.fault(SyntaxError::TrailingCommaInsideImport, comma)?;
            }
        }
    }
}
