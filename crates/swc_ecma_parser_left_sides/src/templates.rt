//! Regular expressions and templates: ECMA-262, sections 13.2.7, 13.2.8 and 13.3.11.

ghost use Rattle.std.specs.Prelude.{◌≡◌, ◌||◌};
ghost use Rattle.swc_ecma_parser_grammar.specs.Follows as follows;
ghost use Rattle.swc_ecma_parser_grammar.specs.Looks.{sees};
ghost use Rattle.swc_ecma_parser_left_sides.specs.TemplateParts as parts;
ghost use Rattle.swc_ecma_parser_left_sides.specs.TemplateParts.{pieces_of};
ghost use Rattle.swc_ecma_parser_trees.specs.Parts.{quasi_of};
ghost use Rattle.swc_ecma_parser_reader.specs.Expressions as exprs;
ghost use Rattle.swc_ecma_parser_reader.specs.Reader as rules;
ghost use Rattle.swc_ecma_parser_reader.specs.State.{GivesAs};
ghost use Rattle.swc_ecma_parser_token.specs.declared.kind.TokenKind.TheVariants as kind;

use std::alloc::Global;
use swc_ecma_parser_common::Span;
use swc_ecma_parser_cursor::{Cursor, Wanted};
use swc_ecma_parser_error::PResult;
use swc_ecma_parser_grammar::Class;
use swc_ecma_parser_model::TplElement;
use swc_ecma_parser_shared::cover::inside;
use swc_ecma_parser_shared::readers::Readers;
use swc_ecma_parser_shared::steps::{grown, pushed, since};
use swc_ecma_parser_token::TokenKind;
use swc_ecma_parser_trees::{BuildsCall, BuildsExpr, MakerOf, Trees};

/// A regular expression.
#[inline(never)]
pub(crate) fn regex_expr<P: Cursor, T: BuildsExpr>(alloc: Global, p: &mut P) -> PResult<T::Expr>
    ensures { GivesAs T.expr_of (exprs.regex (P.seen p.old)) result (P.seen p.new) }
{
    let regex = p.regex()?;
    grown(p, T::regex(alloc, regex))
}

/// Whether a template begins here, or what a tag stands before.
pub(crate) fn begins_template<P: Cursor>(p: &P) -> bool
    ensures { result ≡ follows.begins_template (P.seen p.now).at }
{
    p.sees(TokenKind::Template) || p.sees(TokenKind::TemplateHead)
}

/// The expressions and the texts of a template, which are one more.
pub struct Pieces<E> {
    pub exprs: Vec<E>,
    pub quasis: Vec<TplElement>,
}

/// Whether a text stands here that goes on behind an expression.
fn goes_on<P: Cursor>(p: &P) -> bool
    ensures { result ≡ (sees kind.TemplateMiddle (P.seen p.now).at || sees kind.TemplateTail (P.seen p.now).at) }
{
    p.sees(TokenKind::TemplateMiddle) || p.sees(TokenKind::TemplateTail)
}

/// The text that must stand behind an expression.
fn text_behind<P: Cursor>(p: &mut P, tagged: bool) -> PResult<TplElement>
    ensures { GivesAs quasi_of (parts.text_behind tagged (P.seen p.old)) result (P.seen p.new) }
{
    if goes_on(p) {
        return p.template_text(tagged);
    }
    Err(p.refuse(Wanted::Token("}")))
}

/// What stands behind the first text of a template, and the texts behind that.
#[tactic(auto, using(crate::proofs::Texts::started, std::proofs::lemmas::List::map_push))]
#[inline(never)]
fn pieces_from<P: Cursor, T: Trees, G: Readers<P, T>>(
    g: &G,
    t: &MakerOf<T>,
    p: &mut P,
    tagged: bool,
    first: TplElement,
) -> PResult<Pieces<T::Expr>>
    requires { G.ready g.now }
    ensures { GivesAs (pieces_of T.expr_of)
        (exprs.template_from (rules.expr (G.depth g.now)) (rules.cover (G.depth g.now)) tagged
        (quasi_of first) (P.seen p.old)) result (P.seen p.new) }
{
    let mut is_last = first.tail;
    let mut exprs = Vec::new(t.alloc);
    let mut quasis = Vec::new(t.alloc);
    pushed(p, &mut quasis, first)?;
    'pieces: loop {
        if is_last {
            return Ok(Pieces { exprs, quasis });
        }
        let expr = inside(g, t, p, Class::Expression)?;
        pushed(p, &mut exprs, expr)?;
        let text = text_behind(p, tagged)?;
        is_last = text.tail;
        pushed(p, &mut quasis, text)?;
    }
}

/// The pieces of a template, from its first text on.
#[tactic(auto, unfolding(swc_ecma_parser_reader::specs::Expressions::template_pieces))]
fn template_pieces<P: Cursor, T: Trees, G: Readers<P, T>>(
    g: &G,
    t: &MakerOf<T>,
    p: &mut P,
    tagged: bool,
) -> PResult<Pieces<T::Expr>>
    requires { G.ready g.now }
    ensures { GivesAs (pieces_of T.expr_of)
        (exprs.template_pieces (rules.expr (G.depth g.now)) (rules.cover (G.depth g.now)) tagged
        (P.seen p.old)) result (P.seen p.new) }
{
    let first = p.template_text(tagged)?;
    pieces_from(g, t, p, tagged, first)
}

/// A template.
#[tactic(auto, unfolding(swc_ecma_parser_reader::specs::Expressions::template))]
#[inline(never)]
pub(crate) fn template<P: Cursor, T: BuildsCall, G: Readers<P, T>>(
    g: &G,
    t: &MakerOf<T>,
    p: &mut P,
) -> PResult<T::Expr>
    requires { G.ready g.now }
    ensures { GivesAs (T.expr_of)
        (exprs.template (rules.expr (G.depth g.now)) (rules.cover (G.depth g.now)) (P.seen p.old))
        result (P.seen p.new) }
{
    let start = p.span();
    let Pieces { exprs, quasis } = template_pieces(g, t, p, false)?;
    let span = since(p, start);
    grown(p, T::template(t.alloc, span, exprs, quasis))
}

/// A template behind its tag, which was read from a place on and is no optional chain.
#[tactic(auto, unfolding(swc_ecma_parser_reader::specs::Expressions::tagged_by, swc_ecma_parser_reader::specs::Expressions::tagged))]
#[inline(never)]
pub(crate) fn tagged<P: Cursor, T: BuildsCall, G: Readers<P, T>>(
    g: &G,
    t: &MakerOf<T>,
    p: &mut P,
    start: Span,
    tag: T::Expr,
) -> PResult<T::Expr>
    requires { G.ready g.now }
    ensures { GivesAs (T.expr_of)
        (exprs.tagged (rules.expr (G.depth g.now)) (rules.cover (G.depth g.now)) start
        (T.expr_of tag) (P.seen p.old)) result (P.seen p.new) }
{
    if T::is_chain(&tag) {
        return Err(p.wanted(Wanted::Expression));
    }
    let place = p.span();
    let Pieces { exprs, quasis } = template_pieces(g, t, p, true)?;
    let template = since(p, place);
    let span = since(p, start);
    grown(
        p,
        T::tagged_template(t.alloc, span, tag, template, exprs, quasis),
    )
}
