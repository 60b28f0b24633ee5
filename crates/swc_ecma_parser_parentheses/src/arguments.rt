//! What stands in parentheses behind `async`, as arguments or as the parameters of an arrow function: CoverCallExpressionAndAsyncArrowHead,
//! ECMA-262, section 15.9.

ghost use Rattle.std.specs.Prelude.{◌≡◌, ◌||◌, Some, is_some, map};
ghost use Rattle.swc_ecma_parser_parentheses.specs.Groups.{argument_of};
ghost use Rattle.swc_ecma_parser_shared.specs.Covers.{cover_of};
ghost use Rattle.swc_ecma_parser_reader.specs.AsyncArrows as async_arrows;
ghost use Rattle.swc_ecma_parser_reader.specs.Reader as rules;
ghost use Rattle.swc_ecma_parser_reader.specs.State.{GivesAs};

use crate::parameters::parameter;
use swc_ecma_parser_common::Span;
use swc_ecma_parser_cursor::Cursor;
use swc_ecma_parser_error::{PResult, SyntaxError};
use swc_ecma_parser_shared::cover::{Cover, close, covered};
use swc_ecma_parser_shared::readers::Readers;
use swc_ecma_parser_shared::steps::{grown, pushed, since};
use swc_ecma_parser_token::TokenKind;
use swc_ecma_parser_trees::{BuildsCall, BuildsPattern, MakerOf, Trees};

/// An argument that may still become a parameter.
#[derive(Drop)]
pub struct Argument<E> {
    /// Where its dots stand, if it is spread.
    pub dots: Option<Span>,
    pub cover: Cover<E>,
}

/// An argument, with the dots of a spread.
#[tactic(auto, unfolding(swc_ecma_parser_reader::specs::AsyncArrows::argument, swc_ecma_parser_reader::specs::AsyncArrows::spread_argument, swc_ecma_parser_reader::specs::AsyncArrows::plain_argument))]
fn one_argument<P: Cursor, T: Trees, G: Readers<P, T>>(
    g: &G,
    t: &MakerOf<T>,
    p: &mut P,
) -> PResult<Argument<T::Expr>>
    requires { G.ready g.now }
    ensures { GivesAs (argument_of T.expr_of)
        (async_arrows.argument (rules.expr (G.depth g.now)) (rules.cover (G.depth g.now))
        (P.seen p.old)) result (P.seen p.new) }
{
    if p.sees(TokenKind::DotDotDot) {
        let dots = p.span();
        p.skip()?;
        let cover = covered(g, t, p)?;
        return Ok(Argument {
            dots: Some(dots),
            cover,
        });
    }
    let cover = covered(g, t, p)?;
    Ok(Argument { dots: None, cover })
}

/// A comma stands behind it.
fn followed<E>(argument: Argument<E>) -> Argument<E>
    ensures { result
        ≡ record {
          dots = argument.dots;
          cover = record {
            tree = argument.cover.tree;
            mark = argument.cover.mark;
            comma = argument.cover.comma || is_some argument.dots;
          };
        } }
{
    let Argument { dots, cover } = argument;
    let Cover { tree, mark, comma } = cover;
    Argument {
        dots,
        cover: Cover {
            tree,
            mark,
            comma: comma || dots.is_some(),
        },
    }
}

/// Arguments that may still become parameters, from `(` to `)`.
#[tactic(auto, unfolding(swc_ecma_parser_reader::specs::AsyncArrows::either_arguments), using(swc_ecma_parser_reader::proofs::expressions::Loops::argument_shorter, swc_ecma_parser_reader::proofs::expressions::Loops::eithers_shorter, swc_ecma_parser_reader::proofs::expressions::Loops::either_done, swc_ecma_parser_reader::proofs::expressions::Loops::either_err, swc_ecma_parser_reader::proofs::expressions::Loops::either_last, swc_ecma_parser_reader::proofs::expressions::Loops::either_more, swc_ecma_parser_reader::proofs::expressions::Loops::either_comma_err, std::proofs::lemmas::List::map_push))]
pub fn either_arguments<P: Cursor, T: Trees, G: Readers<P, T>>(
    g: &G,
    t: &MakerOf<T>,
    p: &mut P,
) -> PResult<Vec<Argument<T::Expr>>>
    requires { G.ready g.now }
    ensures { GivesAs (λ found. map (argument_of T.expr_of) found.items)
        (async_arrows.either_arguments (rules.expr (G.depth g.now)) (rules.cover (G.depth g.now))
        (P.seen p.old)) result (P.seen p.new) }
{
    p.skip()?;
    let mut found = Vec::new(t.alloc);
    'arguments: loop {
        if p.sees(TokenKind::RParen) {
            p.skip()?;
            return Ok(found);
        }
        let argument = one_argument(g, t, p)?;
        if p.sees(TokenKind::RParen) {
            pushed(p, &mut found, argument)?;
        } else {
            p.expect(TokenKind::Comma, ",")?;
            pushed(p, &mut found, followed(argument))?;
        }
    }
}

/// It as an argument of a call.
fn closed_argument<P: Cursor, T: BuildsCall>(
    t: &MakerOf<T>,
    p: &mut P,
    argument: Argument<T::Expr>,
) -> PResult<T::Arg>
    ensures { GivesAs T.arg_of
        (async_arrows.closed_argument (argument_of T.expr_of argument) (P.seen p.old)) result
        (P.seen p.new) }
{
    let Argument { dots, cover } = argument;
    let expr = close::<P, T>(p, cover)?;
    grown(p, T::element(t.alloc, dots, expr))
}

/// Each by itself, as an argument of a call.
fn closed_arguments<P: Cursor, T: BuildsCall>(
    t: &MakerOf<T>,
    p: &mut P,
    arguments: Vec<Argument<T::Expr>>,
) -> PResult<Vec<T::Arg>>
    ensures { GivesAs (λ found. map T.arg_of found.items)
        (async_arrows.closed_arguments (map (argument_of T.expr_of) arguments.items) (P.seen p.old))
        result (P.seen p.new) }
{
    let mut found = Vec::new(t.alloc);
    'arguments: for argument in arguments {
        let closed = closed_argument::<P, T>(t, p, argument)?;
        pushed(p, &mut found, closed)?;
    }
    Ok(found)
}

/// A call of `async`, which was read from a place on.
#[tactic(auto, unfolding(swc_ecma_parser_reader::specs::AsyncArrows::async_called))]
pub fn async_called<P: Cursor, T: BuildsCall>(
    t: &MakerOf<T>,
    p: &mut P,
    start: Span,
    callee: T::Expr,
    arguments: Vec<Argument<T::Expr>>,
) -> PResult<T::Expr>
    ensures { GivesAs T.expr_of
        (async_arrows.async_called start (T.expr_of callee)
        (map (argument_of T.expr_of) arguments.items) (P.seen p.old)) result (P.seen p.new) }
{
    let args = closed_arguments::<P, T>(t, p, arguments)?;
    let span = since(p, start);
    grown(p, T::call(t.alloc, span, callee, args))
}

/// What stands behind dots as a parameter, which takes the rest. No comma stands behind it.
#[tactic(auto, unfolding(swc_ecma_parser_reader::specs::AsyncArrows::argument_parameter))]
fn rest_parameter<P: Cursor, T: BuildsPattern>(
    t: &MakerOf<T>,
    p: &mut P,
    dots: Span,
    cover: Cover<T::Expr>,
) -> PResult<T::Pat>
    ensures { GivesAs T.pat_of
        (async_arrows.argument_parameter
        (record { dots = Some dots; cover = cover_of T.expr_of cover }) (P.seen p.old)) result
        (P.seen p.new) }
{
    let span = T::expr_span(&cover.tree);
    if cover.comma {
        return Err(p.reject(SyntaxError::InvalidPat, span));
    }
    let Some(pattern) = grown(p, T::target(t.alloc, cover.tree))? else {
        return Err(p.reject(SyntaxError::InvalidPat, span));
    };
    let whole = Span {
        lo: dots.lo,
        hi: span.hi,
    };
    let rest = grown(p, T::rest_pat(t.alloc, whole, pattern))?;
    if !T::binds(&rest) {
        return Err(p.reject(SyntaxError::InvalidPat, span));
    }
    Ok(rest)
}

/// It as a parameter.
#[tactic(auto, unfolding(swc_ecma_parser_reader::specs::AsyncArrows::argument_parameter, swc_ecma_parser_reader::specs::Arrows::parameter))]
fn argument_parameter<P: Cursor, T: BuildsPattern>(
    t: &MakerOf<T>,
    p: &mut P,
    argument: Argument<T::Expr>,
) -> PResult<T::Pat>
    ensures { GivesAs T.pat_of
        (async_arrows.argument_parameter (argument_of T.expr_of argument) (P.seen p.old)) result
        (P.seen p.new) }
{
    let Argument { dots, cover } = argument;
    match dots {
        Some(dots) => rest_parameter::<P, T>(t, p, dots, cover),
        None => parameter::<P, T>(t, p, cover),
    }
}

/// Each as a parameter.
pub fn argument_parameters<P: Cursor, T: BuildsPattern>(
    t: &MakerOf<T>,
    p: &mut P,
    arguments: Vec<Argument<T::Expr>>,
) -> PResult<Vec<T::Pat>>
    ensures { GivesAs (λ found. map T.pat_of found.items)
        (async_arrows.argument_parameters (map (argument_of T.expr_of) arguments.items)
        (P.seen p.old)) result (P.seen p.new) }
{
    let mut found = Vec::new(t.alloc);
    'arguments: for argument in arguments {
        let parameter = argument_parameter::<P, T>(t, p, argument)?;
        pushed(p, &mut found, parameter)?;
    }
    Ok(found)
}
