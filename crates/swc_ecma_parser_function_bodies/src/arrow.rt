//! A block or an expression: the body of an arrow function.

ghost use Rattle.std.specs.Prelude.{◌≡◌, IfOk, IfErr};
ghost use Rattle.swc_ecma_parser_arrows.specs.Arrows.{body_of as arrow_body_of};
ghost use Rattle.swc_ecma_parser_error.specs.Kind.{IsOutOfMemory};
ghost use Rattle.swc_ecma_parser_function_bodies.specs.Bodies.{directed_body};
ghost use Rattle.swc_ecma_parser_reader.specs.Arrows as arrows;
ghost use Rattle.swc_ecma_parser_reader.specs.Reader as rules;
ghost use Rattle.swc_ecma_parser_reader.specs.State.{GivesAs};

use crate::parser::{FnBodyParser, FromArrowBody};
use std::alloc::Global;
use swc_ecma_parser_arrows::arrows::{ArrowBody, arrow_body, strict_directive};
use swc_ecma_parser_cursor::Cursor;
use swc_ecma_parser_error::PResult;
use swc_ecma_parser_functions::function::{Manner, misdirected};
use swc_ecma_parser_shared::readers::Readers;
use swc_ecma_parser_trees::{BuildsFunction, MakerOf};

/// A block or an expression, with the fault of a directive that comes too late.
fn directed_arrow_body<P: Cursor, T: BuildsFunction, G: Readers<P, T>>(
    g: &G,
    t: &MakerOf<T>,
    p: &mut P,
    is_async: bool,
    is_simple: bool,
) -> PResult<ArrowBody<T::Block, T::Expr>>
    requires { G.ready g.now }
    ensures { GivesAs (arrow_body_of T.block_of T.expr_of)
        (directed_body is_simple
        (arrows.arrow_body (rules.expr (G.depth g.now)) (rules.function (G.depth g.now)) is_async)
        (P.seen p.old)) result (P.seen p.new) }
{
    let body = arrow_body(g, t, p, is_async)?;
    misdirected(p, is_simple, strict_directive(&body))?;
    Ok(body)
}

/// What an arrow function's body becomes, as a `B`.
fn body_as<T: BuildsFunction, B: FromArrowBody<T>>(body: ArrowBody<T::Block, T::Expr>) -> B
    ensures { B.arrow_body result ≡ arrow_body_of T.block_of T.expr_of body }
{
    match body {
        ArrowBody::Block(body) => B::from_block(body.block),
        ArrowBody::Expr(body) => B::from_expr(body),
    }
}

/// A value in a block of its own; it is noted where memory ran out.
fn boxed<P: Cursor, B: Drop>(alloc: Global, p: &mut P, value: B) -> PResult<Box<B>>
    ensures made { IfOk result (λ b. b.value ≡ value) }
    ensures state { IfOk result (λ b. P.seen p.new ≡ P.seen p.old) }
    ensures err { IfErr result IsOutOfMemory }
{
    match Box::new(alloc, value) {
        Ok(value) => Ok(value),
        Err(_) => Err(p.out_of_memory()),
    }
}

/// An arrow function is no generator.
impl<P: Cursor, T: BuildsFunction, B: FromArrowBody<T> + Drop> FnBodyParser<T, Box<B>> for P {
    ghost body_of = { λ b. B.arrow_body b.value };

    ghost body = { λ n is_async is_generator. arrows.arrow_body (rules.expr n) (rules.function n) is_async };

    fn parse_fn_body_inner<G: Readers<P, T>>(
        &mut self,
        g: &G,
        t: &MakerOf<T>,
        manner: Manner,
        is_simple_parameter_list: bool,
    ) -> PResult<Box<B>> {
        let body = directed_arrow_body(g, t, self, manner.is_async, is_simple_parameter_list)?;
        boxed(t.alloc, self, body_as::<T, B>(body))
    }
}
