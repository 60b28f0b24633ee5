//! What stands behind the `@` of a decorator: the proposal of decorators.

ghost use Rattle.std.specs.Prelude.{◌≡◌};
ghost use Rattle.swc_ecma_parser_grammar.specs.Looks.{sees};
ghost use Rattle.swc_ecma_parser_grammar.specs.language.Goals.{expression};
ghost use Rattle.swc_ecma_parser_reader.specs.Decorators as decorators;
ghost use Rattle.swc_ecma_parser_reader.specs.Expressions as exprs;
ghost use Rattle.swc_ecma_parser_reader.specs.Reader as rules;
ghost use Rattle.swc_ecma_parser_reader.specs.State.{GivesAs};
ghost use Rattle.swc_ecma_parser_token.specs.declared.kind.TokenKind.TheVariants as kind;

use crate::operator::expr_level;
use swc_ecma_parser_common::Span;
use swc_ecma_parser_cursor::{Cursor, Wanted};
use swc_ecma_parser_error::PResult;
use swc_ecma_parser_grammar::Class;
use swc_ecma_parser_left_sides::links::{accessed, called};
use swc_ecma_parser_shared::readers::Readers;
use swc_ecma_parser_shared::steps::{grown, with_in};
use swc_ecma_parser_token::TokenKind;
use swc_ecma_parser_trees::{
    BuildsCall, BuildsExpr, BuildsMethod, BuildsOperator, BuildsPattern, MakerOf,
};

/// Whether an access by `.` begins here.
fn begins_access<P: Cursor>(p: &P) -> bool
    ensures { result ≡ sees kind.Dot (P.seen p.now).at }
{
    p.sees(TokenKind::Dot)
}

/// Whether arguments begin here.
fn begins_arguments<P: Cursor>(p: &P) -> bool
    ensures { result ≡ sees kind.LParen (P.seen p.now).at }
{
    p.sees(TokenKind::LParen)
}

/// What goes on with a name: accesses by `.`, and arguments.
#[tactic(auto, unfolding(swc_ecma_parser_reader::specs::Decorators::chain_from), using(swc_ecma_parser_reader::proofs::decorators::Loops::chain_done, swc_ecma_parser_reader::proofs::decorators::Loops::chain_accessed, swc_ecma_parser_reader::proofs::decorators::Loops::chain_access_err, swc_ecma_parser_reader::proofs::decorators::Loops::chain_called, swc_ecma_parser_reader::proofs::decorators::Loops::chain_call_err, swc_ecma_parser_reader::proofs::expressions::Loops::accessed_shorter, swc_ecma_parser_reader::proofs::expressions::Loops::called_shorter))]
fn chain_from<P: Cursor, T: BuildsCall, G: Readers<P, T>>(
    g: &G,
    t: &MakerOf<T>,
    p: &mut P,
    start: Span,
    x: T::Expr,
) -> PResult<T::Expr>
    requires { G.ready g.now }
    ensures { GivesAs T.expr_of
        (decorators.chain_from (rules.expr (G.depth g.now)) (rules.cover (G.depth g.now)) start
        (T.expr_of x) (P.seen p.old)) result (P.seen p.new) }
{
    let mut x = x;
    'chain: loop {
        if begins_access(p) {
            x = accessed(g, t, p, start, x)?;
        } else if begins_arguments(p) {
            x = called(g, t, p, start, x)?;
        } else {
            return Ok(x);
        }
    }
}

/// A name, and what goes on with it.
#[tactic(auto, unfolding(swc_ecma_parser_reader::specs::Decorators::chain))]
fn chain<P: Cursor, T: BuildsExpr + BuildsCall, G: Readers<P, T>>(
    g: &G,
    t: &MakerOf<T>,
    p: &mut P,
) -> PResult<T::Expr>
    requires { G.ready g.now }
    ensures { GivesAs T.expr_of
        (decorators.chain (rules.expr (G.depth g.now)) (rules.cover (G.depth g.now)) (P.seen p.old))
        result (P.seen p.new) }
{
    let start = p.span();
    let name = p.name(Wanted::Name)?;
    let x = grown(p, T::ident(t.alloc, name))?;
    chain_from(g, t, p, start, x)
}

/// Arguments behind an expression in parentheses, which they call.
#[tactic(auto, unfolding(swc_ecma_parser_reader::specs::Decorators::behind_group))]
fn behind_group<P: Cursor, T: BuildsCall, G: Readers<P, T>>(
    g: &G,
    t: &MakerOf<T>,
    p: &mut P,
    start: Span,
    x: T::Expr,
) -> PResult<T::Expr>
    requires { G.ready g.now }
    ensures { GivesAs T.expr_of
        (decorators.behind_group (rules.expr (G.depth g.now)) (rules.cover (G.depth g.now)) start
        (T.expr_of x) (P.seen p.old)) result (P.seen p.new) }
{
    if p.sees(TokenKind::LParen) {
        return called(g, t, p, start, x);
    }
    Ok(x)
}

/// An expression in parentheses, which the tree does not keep, and its arguments.
#[tactic(auto, unfolding(swc_ecma_parser_reader::specs::Decorators::group))]
fn group<
    P: Cursor,
    T: BuildsExpr + BuildsCall + BuildsMethod + BuildsOperator + BuildsPattern,
    G: Readers<P, T>,
>(g: &G, t: &MakerOf<T>, p: &mut P) -> PResult<T::Expr>
    requires { G.ready g.now }
    ensures { GivesAs T.expr_of
        (decorators.group (rules.expr (G.depth g.now)) (rules.cover (G.depth g.now))
        (exprs.expr_level (rules.expr (G.depth g.now)) (rules.cover (G.depth g.now))
        (rules.function (G.depth g.now)) expression) (P.seen p.old)) result (P.seen p.new) }
{
    p.skip()?;
    let start = p.span();
    let outer = p.flags();
    p.set_flags(with_in(outer));
    let x = expr_level(g, t, p, Class::Expression)?;
    p.set_flags(outer);
    p.expect(TokenKind::RParen, ")")?;
    behind_group(g, t, p, start, x)
}

/// What stands behind `@`: a name with what goes on with it, or an expression in parentheses.
#[tactic(auto, unfolding(swc_ecma_parser_reader::specs::Decorators::decorated))]
pub fn decorated_level<
    P: Cursor,
    T: BuildsExpr + BuildsCall + BuildsMethod + BuildsOperator + BuildsPattern,
    G: Readers<P, T>,
>(g: &G, t: &MakerOf<T>, p: &mut P) -> PResult<T::Expr>
    requires { G.ready g.now }
    ensures { GivesAs T.expr_of
        (decorators.decorated (rules.expr (G.depth g.now)) (rules.cover (G.depth g.now))
        (exprs.expr_level (rules.expr (G.depth g.now)) (rules.cover (G.depth g.now))
        (rules.function (G.depth g.now)) expression) (P.seen p.old)) result (P.seen p.new) }
{
    if p.sees(TokenKind::LParen) {
        return group(g, t, p);
    }
    chain(g, t, p)
}
