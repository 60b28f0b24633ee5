//! `await` in async functions: ECMA-262, section 15.8.

ghost use Rattle.swc_ecma_parser_reader.specs.AwaitWords as words;
ghost use Rattle.swc_ecma_parser_reader.specs.Expressions as exprs;
ghost use Rattle.swc_ecma_parser_reader.specs.Reader as rules;
ghost use Rattle.swc_ecma_parser_reader.specs.State.{Gives, GivesAs};

use swc_ecma_parser_common::Span;
use swc_ecma_parser_cursor::Cursor;
use swc_ecma_parser_error::{PResult, SyntaxError};
use swc_ecma_parser_grammar::Class;
use swc_ecma_parser_shared::cover::nested;
use swc_ecma_parser_shared::readers::Readers;
use swc_ecma_parser_shared::steps::{grown, since};
use swc_ecma_parser_trees::{BuildsOperator, MakerOf};

/// Records an `await` where none may stand: in the body of a function that is not async, and in parameters.
#[tactic(auto, unfolding(swc_ecma_parser_reader::specs::Expressions::await_allowed, swc_ecma_parser_grammar::specs::language::Contexts::may_await))]
fn await_allowed<P: Cursor>(p: &mut P, word: Span) -> PResult<()>
    ensures { Gives (exprs.await_allowed word (P.seen p.old)) result (P.seen p.new) }
{
    let flags = p.flags();
    if flags.in_function {
        if flags.in_async {
            return Ok(());
        }
        return p.fault(SyntaxError::AwaitInFunction, word);
    }
    if flags.in_parameters {
        return p.fault(SyntaxError::AwaitParamInAsync, word);
    }
    Ok(())
}

/// `await` and its operand: section 15.8.
#[tactic(auto, unfolding(swc_ecma_parser_reader::specs::Expressions::await_expr))]
#[inline(never)]
pub fn await_expr<P: Cursor, T: BuildsOperator, G: Readers<P, T>>(
    g: &G,
    t: &MakerOf<T>,
    p: &mut P,
) -> PResult<T::Expr>
    requires { G.ready g.now }
    ensures { GivesAs (T.expr_of)
        (exprs.await_expr (rules.expr (G.depth g.now)) (rules.cover (G.depth g.now)) (P.seen p.old))
        result (P.seen p.new) }
{
    let start = p.span();
    await_allowed(p, start)?;
    p.skip()?;
    let operand = nested(g, t, p, Class::Unary)?;
    let span = since(p, start);
    grown(p, T::await_expr(t.alloc, span, operand))
}

/// The same from behind `await` on.
#[tactic(auto, unfolding(swc_ecma_parser_reader::specs::AwaitWords::awaited))]
pub fn awaited<P: Cursor, T: BuildsOperator, G: Readers<P, T>>(
    g: &G,
    t: &MakerOf<T>,
    p: &mut P,
    start: Span,
) -> PResult<T::Expr>
    requires { G.ready g.now }
    ensures { GivesAs (T.expr_of)
        (words.awaited (rules.expr (G.depth g.now)) (rules.cover (G.depth g.now))
        (rules.function (G.depth g.now)) start (P.seen p.old)) result (P.seen p.new) }
{
    await_allowed(p, start)?;
    let operand = nested(g, t, p, Class::Unary)?;
    let span = since(p, start);
    grown(p, T::await_expr(t.alloc, span, operand))
}
