//! The end of an expression statement, and the operators behind a fault where it is missing.

ghost use Rattle.std.specs.Prelude.{◌≡◌};
ghost use Rattle.swc_ecma_parser_reader.specs.Reader as rules;
ghost use Rattle.swc_ecma_parser_reader.specs.Recovery as recovery;
ghost use Rattle.swc_ecma_parser_reader.specs.State.{GivesAs};

use swc_ecma_parser_common::Span;
use swc_ecma_parser_cursor::{Cursor, Wanted, binary_operator};
use swc_ecma_parser_error::{PResult, SyntaxError};
use swc_ecma_parser_model::BinaryOp;
use swc_ecma_parser_shared::ends::can_end;
use swc_ecma_parser_shared::operators::{Operands, binary_from};
use swc_ecma_parser_shared::readers::Readers;
use swc_ecma_parser_shared::steps::with_in;
use swc_ecma_parser_trees::{BuildsOperator, MakerOf};

/// Whether an operator between two operands is written with signs, and not with a word.
fn is_sign(op: Option<BinaryOp>) -> bool
    ensures { result ≡ recovery.is_sign op }
{
    match op {
        None => false,
        Some(BinaryOp::In | BinaryOp::InstanceOf) => false,
        Some(_) => true,
    }
}

/// Whether such an operator stands in the place of the end of a statement.
#[tactic(auto, unfolding(swc_ecma_parser_reader::specs::Recovery::lacks_end))]
fn lacks_end<P: Cursor>(p: &P) -> bool
    ensures { result ≡ recovery.lacks_end (P.seen p.now).at }
{
    is_sign(binary_operator(p.kind())) && !can_end(p)
}

/// The end of an expression statement. Where it is missing before an operator, the expression goes on behind a fault.
#[tactic(auto, unfolding(swc_ecma_parser_reader::specs::Recovery::stmt_end, swc_ecma_parser_reader::specs::Recovery::operators_on))]
pub(crate) fn stmt_end<P: Cursor, T: BuildsOperator, G: Readers<P, T>>(
    g: &G,
    t: &MakerOf<T>,
    p: &mut P,
    start: Span,
    x: T::Expr,
) -> PResult<T::Expr>
    requires { G.ready g.now }
    ensures { GivesAs T.expr_of
        (recovery.stmt_end (rules.operators (G.depth g.now)) start (T.expr_of x) (P.seen p.old))
        result (P.seen p.new) }
{
    if !lacks_end(p) {
        p.end(Wanted::EndOfExpression(T::expr_span(&x)))?;
        return Ok(x);
    }
    let span = p.span();
    p.fault(SyntaxError::TS1005, span)?;
    let outer = p.flags();
    p.set_flags(with_in(outer));
    let whole = binary_from(g, t, p, Operands::Further, 1, start, x)?;
    p.set_flags(outer);
    Ok(whole)
}
