//! `yield` in generators: ECMA-262, section 15.5.

ghost use Rattle.std.specs.Prelude.{◌≡◌};
ghost use Rattle.swc_ecma_parser_grammar.specs.language.Begins as begins;
ghost use Rattle.swc_ecma_parser_reader.specs.Reader as rules;
ghost use Rattle.swc_ecma_parser_reader.specs.State.{GivesAs};
ghost use Rattle.swc_ecma_parser_reader.specs.Yields as yields;

use swc_ecma_parser_common::Span;
use swc_ecma_parser_cursor::{Cursor, begins_operand};
use swc_ecma_parser_error::PResult;
use swc_ecma_parser_grammar::Class;
use swc_ecma_parser_shared::cover::nested;
use swc_ecma_parser_shared::readers::Readers;
use swc_ecma_parser_shared::steps::{grown, since};
use swc_ecma_parser_token::TokenKind;
use swc_ecma_parser_trees::{BuildsOperator, MakerOf};

/// Whether `yield` stands here and is no name.
#[tactic(auto, unfolding(swc_ecma_parser_reader::specs::Yields::begins_yield))]
pub fn begins_yield<P: Cursor>(p: &P) -> bool
    ensures { result ≡ yields.begins_yield (P.seen p.now).code.flags (P.seen p.now).at }
{
    p.sees(TokenKind::Yield) && p.flags().in_generator
}

/// Whether an expression can begin here.
#[tactic(auto, unfolding(swc_ecma_parser_grammar::specs::language::Begins::begins_expression, swc_ecma_parser_grammar::specs::language::Begins::begins_unary))]
fn begins_expression<P: Cursor>(p: &P) -> bool
    ensures { result ≡ begins.begins_expression (P.seen p.now).code.flags (P.seen p.now).at }
{
    begins_operand(p.kind())
        || p.identifier_at()
        || p.sees(TokenKind::HashIn)
        || p.flags().in_generator && p.sees(TokenKind::Yield)
}

/// What is yielded, from behind the word or its `*`.
#[tactic(auto, unfolding(swc_ecma_parser_reader::specs::Yields::yielded))]
fn yielded<P: Cursor, T: BuildsOperator, G: Readers<P, T>>(
    g: &G,
    t: &MakerOf<T>,
    p: &mut P,
    delegate: bool,
    start: Span,
) -> PResult<T::Expr>
    requires { G.ready g.now }
    ensures { GivesAs (T.expr_of)
        (yields.yielded (rules.expr (G.depth g.now)) delegate start (P.seen p.old)) result
        (P.seen p.new) }
{
    let arg = nested(g, t, p, Class::Assignment)?;
    let span = since(p, start);
    grown(p, T::yield_expr(t.alloc, span, Some(arg), delegate))
}

/// `yield`, with what it yields, where that or a `*` stands on its line.
#[tactic(auto, unfolding(swc_ecma_parser_reader::specs::Yields::yield_expr, swc_ecma_parser_reader::specs::Yields::behind_yield, swc_ecma_parser_reader::specs::Yields::bare_yield))]
#[inline(never)]
pub fn yield_expr<P: Cursor, T: BuildsOperator, G: Readers<P, T>>(
    g: &G,
    t: &MakerOf<T>,
    p: &mut P,
) -> PResult<T::Expr>
    requires { G.ready g.now }
    ensures { GivesAs (T.expr_of) (yields.yield_expr (rules.expr (G.depth g.now)) (P.seen p.old))
        result (P.seen p.new) }
{
    let start = p.span();
    p.skip()?;
    if !p.had_line_break() {
        if p.sees(TokenKind::Mul) {
            p.skip()?;
            return yielded(g, t, p, true, start);
        }
        if begins_expression(p) {
            return yielded(g, t, p, false, start);
        }
    }
    let span = since(p, start);
    grown(p, T::yield_expr(t.alloc, span, None, false))
}
