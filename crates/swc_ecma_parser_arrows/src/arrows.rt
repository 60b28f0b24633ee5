//! Arrow functions, from behind their parameters: ECMA-262, sections 15.3 and 15.9.

ghost use Rattle.std.specs.Prelude.{◌≡◌, true, false, [], ◌∷◌, map, IfOk};
ghost use Rattle.swc_ecma_parser_arrows.specs.Arrows.{body_of, directive_of};
ghost use Rattle.swc_ecma_parser_functions.specs.Late.{late};
ghost use Rattle.swc_ecma_parser_grammar.specs.Own as own;
ghost use Rattle.swc_ecma_parser_grammar.specs.language.Contexts as contexts;
ghost use Rattle.swc_ecma_parser_grammar.specs.language.Goals.{assignment};
ghost use Rattle.swc_ecma_parser_model.specs.Forms as forms;
ghost use Rattle.swc_ecma_parser_model.specs.Tree as tree;
ghost use Rattle.swc_ecma_parser_reader.specs.Arrows as arrows;
ghost use Rattle.swc_ecma_parser_reader.specs.AsyncArrows as async_arrows;
ghost use Rattle.swc_ecma_parser_reader.specs.Methods.{block_form, parameter_form};
ghost use Rattle.swc_ecma_parser_reader.specs.Reader as rules;
ghost use Rattle.swc_ecma_parser_reader.specs.State.{GivesAs, enclosed, within};

use std::alloc::{AllocError, Global};
use swc_ecma_parser_common::Span;
use swc_ecma_parser_cursor::{Cursor, Wanted};
use swc_ecma_parser_error::{PResult, SyntaxError};
use swc_ecma_parser_functions::function::{FunctionBody, Manner, inner_body, misdirected};
use swc_ecma_parser_grammar::Class;
use swc_ecma_parser_input::Context;
use swc_ecma_parser_shared::cover::nested;
use swc_ecma_parser_shared::grammar::Part;
use swc_ecma_parser_shared::readers::Readers;
use swc_ecma_parser_shared::steps::{grown, pushed, since};
use swc_ecma_parser_token::TokenKind;
use swc_ecma_parser_trees::{BuildsFunction, BuildsPattern, MakerOf, Trees};

/// The body of an arrow function.
#[derive(Drop)]
pub enum ArrowBody<B, E> {
    /// Statements in braces.
    Block(FunctionBody<B>),
    /// What it answers.
    Expr(E),
}

/// What stands around an expression that is a body.
fn in_arrow(flags: Context, is_async: bool) -> Context
    ensures { result
        ≡ record flags {
          in_function = true;
          in_static_block = false;
          is_break_allowed = false;
          is_continue_allowed = false;
          in_async = is_async;
          in_generator = false;
        } }
{
    Context {
        in_function: true,
        in_static_block: false,
        is_break_allowed: false,
        is_continue_allowed: false,
        in_async: is_async,
        in_generator: false,
        ..flags
    }
}

/// A block that is a body.
#[tactic(auto, unfolding(swc_ecma_parser_reader::specs::Reader::function, swc_ecma_parser_reader::specs::Reader::function_by, swc_ecma_parser_reader::specs::Reader::arrow_block))]
fn arrow_block<P: Cursor, T: BuildsFunction, G: Readers<P, T>>(
    g: &G,
    t: &MakerOf<T>,
    p: &mut P,
    is_async: bool,
) -> PResult<FunctionBody<T::Block>>
    requires { G.ready g.now }
    ensures gives { GivesAs (λ body. T.block_of body.block)
        (rules.function (G.depth g.now) (block_form is_async) (P.seen p.old)) result
        (P.seen p.new) }
    ensures directive { IfOk result
        (λ body. own.misplaced_directive false (T.block_of body.block)
        ≡ late body.strict_directive) }
{
    let manner = Manner {
        is_async,
        is_generator: false,
    };
    inner_body(g, t, p, manner)
}

/// An expression that is a body: no label stands around it, and nothing in it makes a program a module.
fn arrow_expr<P: Cursor, T: BuildsFunction, G: Readers<P, T>>(
    g: &G,
    t: &MakerOf<T>,
    p: &mut P,
    is_async: bool,
) -> PResult<T::Expr>
    requires { G.ready g.now }
    ensures gives { GivesAs T.expr_of
        (within (λ k. contexts.in_arrow k is_async)
        (enclosed (rules.expr (G.depth g.now) assignment)) (P.seen p.old)) result (P.seen p.new) }
    ensures directive { IfOk result (λ e. own.misplaced_directive false (T.expr_of e) ≡ []) }
{
    let outer = p.flags();
    p.set_flags(in_arrow(outer, is_async));
    let around = p.enter_body(t.alloc);
    let body = nested(g, t, p, Class::Assignment)?;
    p.leave_body(around);
    p.set_flags(outer);
    Ok(body)
}

/// A block, or an expression that does not begin as one.
#[tactic(auto, unfolding(swc_ecma_parser_reader::specs::Arrows::arrow_body))]
pub fn arrow_body<P: Cursor, T: BuildsFunction, G: Readers<P, T>>(
    g: &G,
    t: &MakerOf<T>,
    p: &mut P,
    is_async: bool,
) -> PResult<ArrowBody<T::Block, T::Expr>>
    requires { G.ready g.now }
    ensures gives { GivesAs (body_of T.block_of T.expr_of)
        (arrows.arrow_body (rules.expr (G.depth g.now)) (rules.function (G.depth g.now)) is_async
        (P.seen p.old)) result (P.seen p.new) }
    ensures directive { IfOk result
        (λ body. own.misplaced_directive false (body_of T.block_of T.expr_of body)
        ≡ late (directive_of body)) }
{
    if p.sees(TokenKind::LBrace) {
        let block = arrow_block(g, t, p, is_async)?;
        return Ok(ArrowBody::Block(block));
    }
    let expr = arrow_expr(g, t, p, is_async)?;
    Ok(ArrowBody::Expr(expr))
}

/// The directive of a body that says it is strict.
pub fn strict_directive<B, E>(body: &ArrowBody<B, E>) -> Option<Span>
    ensures { result ≡ directive_of body.now }
{
    match body {
        ArrowBody::Block(block) => block.strict_directive,
        ArrowBody::Expr(_) => None,
    }
}

/// Whether each of these is a plain name.
fn are_plain_patterns<T: BuildsPattern>(params: &[T::Pat]) -> bool
    ensures { result ≡ forms.are_plain_params (tree.trees (map T.pat_of params.now)) }
{
    params.iter().all(|param| T::is_plain(param))
}

/// The tree's arrow function.
fn made_arrow<T: BuildsFunction>(
    alloc: Global,
    span: Span,
    params: Vec<T::Pat>,
    body: ArrowBody<T::Block, T::Expr>,
    is_async: bool,
) -> Result<T::Expr, AllocError>
    ensures { IfOk result
        (λ x. T.expr_of x
        ≡ tree.arrow span (tree.listed (map T.pat_of params.items))
        (body_of T.block_of T.expr_of body) is_async) }
{
    match body {
        ArrowBody::Block(body) => T::block_arrow(alloc, span, params, body.block, is_async),
        ArrowBody::Expr(body) => T::expr_arrow(alloc, span, params, body, is_async),
    }
}

/// An arrow function, from its `=>` on, which stands on the line of the parameters.
#[tactic(auto, unfolding(swc_ecma_parser_reader::specs::Arrows::arrow_from))]
pub fn arrow_from<P: Cursor, T: BuildsFunction + BuildsPattern, G: Readers<P, T>>(
    g: &G,
    t: &MakerOf<T>,
    p: &mut P,
    is_async: bool,
    start: Span,
    params: Vec<T::Pat>,
) -> PResult<T::Expr>
    requires { G.ready g.now }
    ensures { GivesAs T.expr_of
        (arrows.arrow_from (rules.expr (G.depth g.now)) (rules.function (G.depth g.now)) is_async
        start (map T.pat_of params.items) (P.seen p.old)) result (P.seen p.new) }
{
    if p.had_line_break() {
        return Err(p.refuse_as(SyntaxError::LineBreakBeforeArrow));
    }
    p.skip()?;
    let body = arrow_body(g, t, p, is_async)?;
    let span = since(p, start);
    let is_plain = are_plain_patterns::<T>(&params);
    misdirected(p, is_plain, strict_directive(&body))?;
    grown(p, made_arrow::<T>(t.alloc, span, params, body, is_async))
}

/// The only parameter of an arrow function, a name with no parentheses.
#[tactic(auto, unfolding(swc_ecma_parser_reader::specs::Reader::function, swc_ecma_parser_reader::specs::Reader::function_by))]
pub fn only_parameter<P: Cursor, T: Trees, G: Readers<P, T>>(
    g: &G,
    t: &MakerOf<T>,
    p: &mut P,
) -> PResult<T::Pat>
    requires { G.ready g.now }
    ensures { GivesAs T.pat_of (rules.function (G.depth g.now) parameter_form (P.seen p.old)) result
        (P.seen p.new) }
{
    g.pat(t, p, Part::Pattern)
}

/// An arrow function with one parameter, from its `=>` on.
#[inline(never)]
pub fn arrow_of_one<P: Cursor, T: BuildsFunction + BuildsPattern, G: Readers<P, T>>(
    g: &G,
    t: &MakerOf<T>,
    p: &mut P,
    is_async: bool,
    start: Span,
    param: T::Pat,
) -> PResult<T::Expr>
    requires { G.ready g.now }
    ensures { GivesAs T.expr_of
        (arrows.arrow_from (rules.expr (G.depth g.now)) (rules.function (G.depth g.now)) is_async
        start (T.pat_of param ∷ []) (P.seen p.old)) result (P.seen p.new) }
{
    let mut params = Vec::new(t.alloc);
    pushed(p, &mut params, param)?;
    arrow_from(g, t, p, is_async, start, params)
}

/// An arrow function whose only parameter is a name with no parentheses.
#[tactic(auto, unfolding(swc_ecma_parser_reader::specs::Arrows::named_arrow))]
#[inline(never)]
pub fn named_arrow<P: Cursor, T: BuildsFunction + BuildsPattern, G: Readers<P, T>>(
    g: &G,
    t: &MakerOf<T>,
    p: &mut P,
) -> PResult<T::Expr>
    requires { G.ready g.now }
    ensures { GivesAs T.expr_of
        (arrows.named_arrow (rules.expr (G.depth g.now)) (rules.function (G.depth g.now))
        (P.seen p.old)) result (P.seen p.new) }
{
    let start = p.span();
    let param = only_parameter(g, t, p)?;
    arrow_of_one(g, t, p, false, start, param)
}

/// An async arrow function whose only parameter is a name with no parentheses, on the line of `async`.
#[tactic(auto, unfolding(swc_ecma_parser_reader::specs::AsyncArrows::async_named_arrow))]
#[inline(never)]
pub fn async_named_arrow<P: Cursor, T: BuildsFunction + BuildsPattern, G: Readers<P, T>>(
    g: &G,
    t: &MakerOf<T>,
    p: &mut P,
) -> PResult<T::Expr>
    requires { G.ready g.now }
    ensures { GivesAs T.expr_of
        (async_arrows.async_named_arrow (rules.expr (G.depth g.now))
        (rules.function (G.depth g.now)) (P.seen p.old)) result (P.seen p.new) }
{
    let start = p.span();
    p.skip()?;
    let param = only_parameter(g, t, p)?;
    if !p.sees(TokenKind::Arrow) {
        return Err(p.refuse(Wanted::Token("=>")));
    }
    arrow_of_one(g, t, p, true, start, param)
}
