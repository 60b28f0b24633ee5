//! Operators between two operands: ECMA-262, sections 13.6 to 13.13.

ghost use Rattle.std.specs.Prelude.{◌≡◌};
ghost use Rattle.swc_ecma_parser_grammar.specs.language.Operators as operators;
ghost use Rattle.swc_ecma_parser_shared.specs.Operators.{right};
ghost use Rattle.swc_ecma_parser_reader.specs.Classes.{class_of};
ghost use Rattle.swc_ecma_parser_reader.specs.Expressions as exprs;
ghost use Rattle.swc_ecma_parser_reader.specs.Reader as rules;
ghost use Rattle.swc_ecma_parser_reader.specs.State.{Gives, GivesAs};

use crate::cover::{Reading, nested};
use crate::readers::Readers;
use crate::steps::{grown, since};
use std::alloc::Global;
use swc_ecma_parser_common::Span;
use swc_ecma_parser_cursor::{Cursor, binary_operator, groups_left, mixes, precedence};
use swc_ecma_parser_error::{PResult, SyntaxError};
use swc_ecma_parser_grammar::Class;
use swc_ecma_parser_model::BinaryOp;
use swc_ecma_parser_trees::{BuildsOperator, MakerOf, Trees};

/// Where the right operands of operators stand.
#[derive(Clone, Copy)]
pub enum Operands {
    /// One level deeper, as those of the expression that is read here.
    Nested,
    /// Another level deeper, as those of an expression that stands one level deeper itself.
    Further,
}

/// Refuses a unary operator left of `**`.
#[tactic(auto, unfolding(swc_ecma_parser_reader::specs::Expressions::left_operand))]
#[inline(never)]
fn left_operand<P: Cursor, T: BuildsOperator>(p: &mut P, op: BinaryOp, x: &T::Expr) -> PResult<()>
    ensures { Gives (exprs.left_operand op (T.expr_of x.now) (P.seen p.old)) result (P.seen p.new) }
{
    if !groups_left(op) && (T::is_unary(x) || T::is_await(x)) {
        return Err(p.reject(SyntaxError::UnaryInExp, T::expr_span(x)));
    }
    Ok(())
}

/// Whether an operator does not stand beside that of an operand.
fn mixes_with<T: BuildsOperator>(op: BinaryOp, x: &T::Expr) -> bool
    ensures { result ≡ operators.mixes op (T.expr_of x.now) }
{
    match T::binary_operator(x) {
        Some(inner) => mixes(op, inner),
        None => false,
    }
}

/// An operator between two operands that were read from a place on.
#[tactic(auto, unfolding(swc_ecma_parser_reader::specs::Expressions::unmixed))]
#[inline(never)]
fn unmixed<P: Cursor, T: BuildsOperator>(
    alloc: Global,
    p: &mut P,
    start: Span,
    op: BinaryOp,
    x: T::Expr,
    y: T::Expr,
) -> PResult<T::Expr>
    ensures { GivesAs T.expr_of (exprs.unmixed start op (T.expr_of x) (T.expr_of y) (P.seen p.old))
        result (P.seen p.new) }
{
    let span = since(p, start);
    if mixes_with::<T>(op, &x) || mixes_with::<T>(op, &y) {
        return Err(p.reject(SyntaxError::NullishCoalescingWithLogicalOp, span));
    }
    grown(p, T::bin(alloc, span, op, x, y))
}

/// The class of the right operand.
pub fn right_class(op: BinaryOp) -> Class
    ensures { class_of result ≡ exprs.right_class op }
{
    let tightness = precedence(op);
    Class::Operator(if groups_left(op) {
        tightness + 1
    } else {
        tightness
    })
}

/// The right operand of an operator, of a class.
fn right_operand<P: Cursor, T: Trees, G: Readers<P, T>>(
    g: &G,
    t: &MakerOf<T>,
    p: &mut P,
    operands: Operands,
    class: Class,
) -> PResult<T::Expr>
    requires { G.ready g.now }
    ensures { GivesAs T.expr_of (right (G.depth g.now) operands (class_of class) (P.seen p.old))
        result (P.seen p.new) }
{
    match operands {
        Operands::Nested => nested(g, t, p, class),
        Operands::Further => {
            let found = g.expr(t, p, Reading::Operand(class))?;
            Ok(found.tree)
        }
    }
}

/// An operator and its right operand, behind what was read from a place on.
#[tactic(auto, unfolding(swc_ecma_parser_reader::specs::Expressions::operated))]
#[inline(never)]
fn operated<P: Cursor, T: BuildsOperator, G: Readers<P, T>>(
    g: &G,
    t: &MakerOf<T>,
    p: &mut P,
    operands: Operands,
    start: Span,
    x: T::Expr,
    op: BinaryOp,
) -> PResult<T::Expr>
    requires { G.ready g.now }
    ensures { GivesAs (T.expr_of)
        (exprs.operated (right (G.depth g.now) operands) (rules.cover (G.depth g.now)) start
        (T.expr_of x) op (P.seen p.old)) result (P.seen p.new) }
{
    left_operand::<P, T>(p, op, &x)?;
    p.skip()?;
    let y = right_operand(g, t, p, operands, right_class(op))?;
    unmixed::<P, T>(t.alloc, p, start, op, x, y)
}

/// The operator that stands here, where it is read and binds at least so tightly.
#[tactic(auto, unfolding(swc_ecma_parser_reader::specs::Expressions::operator_at))]
pub fn operator_here<P: Cursor>(p: &P, n: usize) -> Option<BinaryOp>
    ensures { result ≡ exprs.operator_at n (P.seen p.now) }
{
    match binary_operator(p.kind()) {
        Some(BinaryOp::In) if !p.flags().include_in_expr => None,
        Some(op) if n <= precedence(op) => Some(op),
        _ => None,
    }
}

/// The operators that bind at least so tightly, behind an operand that was read from a place on.
#[tactic(auto, unfolding(swc_ecma_parser_reader::specs::Expressions::binary_from), using(crate::proofs::Operations::binary_done, crate::proofs::Operations::binary_more, crate::proofs::Operations::binary_err, crate::proofs::Operations::operated_shorter))]
#[inline(never)]
pub fn binary_from<P: Cursor, T: BuildsOperator, G: Readers<P, T>>(
    g: &G,
    t: &MakerOf<T>,
    p: &mut P,
    operands: Operands,
    n: usize,
    start: Span,
    x: T::Expr,
) -> PResult<T::Expr>
    requires { G.ready g.now }
    ensures { GivesAs (T.expr_of)
        (exprs.binary_from (right (G.depth g.now) operands) (rules.cover (G.depth g.now)) n start
        (T.expr_of x) (P.seen p.old)) result (P.seen p.new) }
{
    let mut x = x;
    'operators: loop {
        match operator_here(p, n) {
            Some(op) => x = operated(g, t, p, operands, start, x, op)?,
            None => return Ok(x),
        }
    }
}
