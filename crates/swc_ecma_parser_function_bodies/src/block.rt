//! Statements in braces: the body of a function that is no arrow function.

ghost use Rattle.std.specs.Prelude.{◌≡◌};
ghost use Rattle.swc_ecma_parser_function_bodies.specs.Bodies.{directed_body};
ghost use Rattle.swc_ecma_parser_grammar.specs.language.Items.{nested_item};
ghost use Rattle.swc_ecma_parser_reader.specs.Reader as rules;
ghost use Rattle.swc_ecma_parser_reader.specs.State.{GivesAs};
ghost use Rattle.swc_ecma_parser_trees.specs.Parts.{part_of};

use crate::parser::FnBodyParser;
use swc_ecma_parser_cursor::Cursor;
use swc_ecma_parser_error::PResult;
use swc_ecma_parser_functions::function::{FunctionBody, Manner, function_body, misdirected};
use swc_ecma_parser_shared::readers::Readers;
use swc_ecma_parser_trees::{BuildsBlock, MakerOf};

/// Statements in braces, with the fault of a directive that comes too late.
fn directed_block<P: Cursor, T: BuildsBlock, G: Readers<P, T>>(
    g: &G,
    t: &MakerOf<T>,
    p: &mut P,
    manner: Manner,
    is_simple: bool,
) -> PResult<T::Block>
    requires { G.ready g.now }
    ensures { GivesAs T.block_of
        (directed_body is_simple
        (rules.function_body (rules.stmt (G.depth g.now) nested_item)
        (rules.parameters (G.depth g.now)) manner.is_async manner.is_generator) (P.seen p.old))
        result (P.seen p.new) }
{
    let FunctionBody {
        block,
        strict_directive,
    } = function_body(g, t, p, manner)?;
    misdirected(p, is_simple, strict_directive)?;
    Ok(block)
}

impl<P: Cursor, T: BuildsBlock> FnBodyParser<T, Option<T::Block>> for P {
    ghost body_of = { part_of T.block_of };

    ghost body = { λ n is_async is_generator. rules.function_body (rules.stmt n nested_item) (rules.parameters n) is_async is_generator };

    fn parse_fn_body_inner<G: Readers<P, T>>(
        &mut self,
        g: &G,
        t: &MakerOf<T>,
        manner: Manner,
        is_simple_parameter_list: bool,
    ) -> PResult<Option<T::Block>> {
        let block = directed_block(g, t, self, manner, is_simple_parameter_list)?;
        Ok(Some(block))
    }
}
