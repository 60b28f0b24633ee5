//! Operators, and the primary expressions that hold nothing.

ghost use Rattle.std.specs.Prelude.{◌≡◌, true, IfOk, map};

use crate::Trees;
use std::alloc::{AllocError, Global};
use swc_ecma_parser_common::Span;
use swc_ecma_parser_model::{
    AssignOp, BinaryOp, Ident, MetaPropKind, PrivateName, UnaryOp, UpdateOp,
};

/// Makes expressions of operators and their operands: ECMA-262, sections 13.4 to 13.16. Each function that answers a
/// `Result` fails only where memory runs out, and spans are in byte offsets.
pub trait BuildsOperator: Trees {
    ghost use Rattle.swc_ecma_parser_model.specs.Forms as forms;
    ghost use Rattle.swc_ecma_parser_model.specs.Tree as tree;
    ghost use Rattle.swc_ecma_parser_model.specs.Within as within;
    ghost use Rattle.swc_ecma_parser_trees.specs.Parts as parts;

    /// `this`: section 13.2.1.
    fn this(alloc: Global, span: Span) -> Result<Self::Expr, AllocError>
        ensures { IfOk result (λ x. Self.expr_of x ≡ tree.this span) };

    /// `import.meta` or `new.target`: section 13.3.12.
    fn meta_prop(alloc: Global, span: Span, kind: MetaPropKind) -> Result<Self::Expr, AllocError>
        ensures { IfOk result (λ x. Self.expr_of x ≡ tree.meta_prop span kind) };

    /// What stands where no expression was read.
    fn invalid(alloc: Global, span: Span) -> Result<Self::Expr, AllocError>
        ensures { IfOk result (λ x. Self.expr_of x ≡ tree.invalid span) };

    /// A private name as the left operand of `in`: section 13.10.
    fn private_name(alloc: Global, name: PrivateName) -> Result<Self::Expr, AllocError>
        ensures { IfOk result (λ x. Self.expr_of x ≡ tree.private_name name.span name.id.span name.id.sym) };

    /// An operator before its operand: section 13.5.
    fn unary(
        alloc: Global,
        span: Span,
        op: UnaryOp,
        arg: Self::Expr,
    ) -> Result<Self::Expr, AllocError>
        ensures { IfOk result (λ x. Self.expr_of x ≡ tree.unary span op (Self.expr_of arg)) };

    /// `++` or `--`, before its operand or behind it: section 13.4.
    fn update(
        alloc: Global,
        span: Span,
        op: UpdateOp,
        prefix: bool,
        arg: Self::Expr,
    ) -> Result<Self::Expr, AllocError>
        ensures { IfOk result (λ x. Self.expr_of x ≡ tree.update span op prefix (Self.expr_of arg)) };

    /// An operator between two operands: sections 13.6 to 13.13.
    fn bin(
        alloc: Global,
        span: Span,
        op: BinaryOp,
        left: Self::Expr,
        right: Self::Expr,
    ) -> Result<Self::Expr, AllocError>
        ensures { IfOk result (λ x. Self.expr_of x
            ≡ tree.bin span op (Self.expr_of left) (Self.expr_of right)) };

    /// An assignment to a name or a member, in any number of parentheses: section 13.15.
    fn assign(
        alloc: Global,
        span: Span,
        op: AssignOp,
        left: Self::Expr,
        right: Self::Expr,
    ) -> Result<Self::Expr, AllocError>
        requires { forms.is_simple_target (Self.expr_of left) ≡ true }
        ensures { IfOk result (λ x. Self.expr_of x
            ≡ tree.assign span op (Self.expr_of left) (Self.expr_of right)) };

    /// An assignment to an array or object pattern: section 13.15.5.
    fn assign_to_pat(
        alloc: Global,
        span: Span,
        op: AssignOp,
        left: Self::Pat,
        right: Self::Expr,
    ) -> Result<Self::Expr, AllocError>
        requires { forms.is_pattern_target (Self.pat_of left) ≡ true }
        ensures { IfOk result (λ x. Self.expr_of x
            ≡ tree.assign span op (Self.pat_of left) (Self.expr_of right)) };

    /// `? :`: section 13.14.
    fn cond(
        alloc: Global,
        span: Span,
        test: Self::Expr,
        cons: Self::Expr,
        alt: Self::Expr,
    ) -> Result<Self::Expr, AllocError>
        ensures { IfOk result (λ x. Self.expr_of x
            ≡ tree.cond span (Self.expr_of test) (Self.expr_of cons) (Self.expr_of alt)) };

    /// Expressions with commas between: section 13.16.
    fn seq(alloc: Global, span: Span, exprs: Vec<Self::Expr>) -> Result<Self::Expr, AllocError>
        ensures { IfOk result (λ x. Self.expr_of x
            ≡ tree.seq span (tree.listed (map Self.expr_of exprs.items))) };

    /// `yield`, with `*` where it delegates: section 15.5.
    fn yield_expr(
        alloc: Global,
        span: Span,
        arg: Option<Self::Expr>,
        delegate: bool,
    ) -> Result<Self::Expr, AllocError>
        ensures { IfOk result (λ x. Self.expr_of x
            ≡ tree.yield span (parts.part_of Self.expr_of arg) delegate) };

    /// `await`: section 15.8.
    fn await_expr(alloc: Global, span: Span, arg: Self::Expr) -> Result<Self::Expr, AllocError>
        ensures { IfOk result (λ x. Self.expr_of x ≡ tree.await span (Self.expr_of arg)) };

    /// The name that an expression is.
    fn into_ident(expr: Self::Expr) -> Ident
        requires { forms.is_ident (Self.expr_of expr) ≡ true }
        ensures { Self.expr_of expr ≡ tree.ident result.span result.sym };

    /// Whether it is a name or a member, in any number of parentheses.
    fn is_simple_target(expr: &Self::Expr) -> bool
        ensures { result ≡ forms.is_simple_target (Self.expr_of expr.now) };

    /// Whether it is an operator before an operand; `await` is none.
    fn is_unary(expr: &Self::Expr) -> bool
        ensures { result ≡ within.is_unary_expr (Self.expr_of expr.now) };

    /// Whether it is `await` with its operand.
    fn is_await(expr: &Self::Expr) -> bool
        ensures { result ≡ within.is_await_expr (Self.expr_of expr.now) };

    /// The operator between two operands; none of an expression of another form, as one in parentheses.
    fn binary_operator(expr: &Self::Expr) -> Option<BinaryOp>
        ensures { result ≡ within.binary_operator (Self.expr_of expr.now) };
}
