ghost use Rattle.std.specs.Prelude.{◌≡◌, true, IfOk, map};
ghost use Rattle.swc_ecma_parser_ast.specs.View.{view_expr, view_pat, view_simple_assign_target, view_assign_target_pat};
ghost use Rattle.swc_ecma_parser_ast_parts.specs.View.{view_made};
ghost use Rattle.swc_ecma_parser_model.specs.Forms as forms;

use crate::Ast;
use std::alloc::{AllocError, Global};
use swc_ecma_parser_ast::{
    AssignExpr, AssignOp, AssignTarget, AssignTargetPat, AwaitExpr, BinExpr, BinaryOp,
    BindingIdent, CondExpr, Expr, ExprBox, Ident, Invalid, MetaPropExpr, MetaPropKind, Pat,
    PrivateName, SeqExpr, SimpleAssignTarget, Span, ThisExpr, UnaryExpr, UnaryOp, UpdateExpr,
    UpdateOp, YieldExpr,
};
use swc_ecma_parser_ast_parts::boxes::{all, beside};
use swc_ecma_parser_ast_parts::made::Made;
use swc_ecma_parser_ast_parts::target::is_simple;
use swc_ecma_parser_trees::BuildsOperator;

impl BuildsOperator for Ast {
    ghost use Rattle.swc_ecma_parser_model.specs.Tree as tree;
    ghost use Rattle.swc_ecma_parser_trees.specs.Parts as parts;

    fn this(alloc: Global, span: Span) -> Result<Made, AllocError> {
        Made::new(alloc, Expr::This(ThisExpr { span }))
    }

    fn meta_prop(alloc: Global, span: Span, kind: MetaPropKind) -> Result<Made, AllocError> {
        Made::new(alloc, Expr::MetaProp(MetaPropExpr { span, kind }))
    }

    fn invalid(alloc: Global, span: Span) -> Result<Made, AllocError> {
        Made::new(alloc, Expr::Invalid(Invalid { span }))
    }

    fn private_name(alloc: Global, name: PrivateName) -> Result<Made, AllocError> {
        Made::new(alloc, Expr::PrivateName(name))
    }

    fn unary(alloc: Global, span: Span, op: UnaryOp, arg: Made) -> Result<Made, AllocError> {
        let arg = arg.into_handle();
        Made::new(alloc, Expr::Unary(UnaryExpr { span, op, arg }))
    }

    fn update(
        alloc: Global,
        span: Span,
        op: UpdateOp,
        prefix: bool,
        arg: Made,
    ) -> Result<Made, AllocError> {
        let update = UpdateExpr {
            span,
            op,
            prefix,
            arg: arg.into_handle(),
        };
        Made::new(alloc, Expr::Update(update))
    }

    fn bin(
        alloc: Global,
        span: Span,
        op: BinaryOp,
        left: Made,
        right: Made,
    ) -> Result<Made, AllocError> {
        let bin = BinExpr {
            span,
            op,
            left: left.into_handle(),
            right: right.into_handle(),
        };
        Made::new(alloc, Expr::Bin(bin))
    }

    fn assign(
        alloc: Global,
        span: Span,
        op: AssignOp,
        left: Made,
        right: Made,
    ) -> Result<Made, AllocError> {
        let target = AssignTarget::Simple(simple_target(left)).boxed(alloc);
        let (left, right) = beside(target, right.into_handle())?;
        let assign = AssignExpr {
            span,
            op,
            left,
            right,
        };
        Made::new(alloc, Expr::Assign(assign))
    }

    fn assign_to_pat(
        alloc: Global,
        span: Span,
        op: AssignOp,
        left: Pat,
        right: Made,
    ) -> Result<Made, AllocError> {
        let target = AssignTarget::Pat(pattern_target(left)).boxed(alloc);
        let (left, right) = beside(target, right.into_handle())?;
        let assign = AssignExpr {
            span,
            op,
            left,
            right,
        };
        Made::new(alloc, Expr::Assign(assign))
    }

    fn cond(
        alloc: Global,
        span: Span,
        test: Made,
        cons: Made,
        alt: Made,
    ) -> Result<Made, AllocError> {
        let cond = CondExpr {
            span,
            test: test.into_handle(),
            cons: cons.into_handle(),
            alt: alt.into_handle(),
        };
        Made::new(alloc, Expr::Cond(cond))
    }

    fn seq(alloc: Global, span: Span, exprs: Vec<Made>) -> Result<Made, AllocError>
        ensures { IfOk result
            (λ x. view_made x ≡ tree.seq span (tree.listed (map view_made exprs.items))) }
    {
        let exprs = all::<ExprBox>(alloc, exprs)?;
        Made::new(alloc, Expr::Seq(SeqExpr { span, exprs }))
    }

    fn yield_expr(
        alloc: Global,
        span: Span,
        arg: Option<Made>,
        delegate: bool,
    ) -> Result<Made, AllocError>
        ensures { IfOk result
            (λ x. view_made x ≡ tree.yield span (parts.part_of view_made arg) delegate) }
    {
        let arg = Made::optional(arg);
        let found = YieldExpr {
            span,
            arg,
            delegate,
        };
        Made::new(alloc, Expr::Yield(found))
    }

    fn await_expr(alloc: Global, span: Span, arg: Made) -> Result<Made, AllocError> {
        let arg = arg.into_handle();
        Made::new(alloc, Expr::Await(AwaitExpr { span, arg }))
    }

    fn into_ident(expr: Made) -> Ident {
        match expr.into_inner() {
            Expr::Ident(x) => x,
            _ => unreachable!(),
        }
    }

    fn is_simple_target(expr: &Made) -> bool {
        is_simple(expr.get())
    }

    fn is_unary(expr: &Made) -> bool {
        match expr.get() {
            Expr::Unary(_) => true,
            _ => false,
        }
    }

    fn is_await(expr: &Made) -> bool {
        match expr.get() {
            Expr::Await(_) => true,
            _ => false,
        }
    }

    fn binary_operator(expr: &Made) -> Option<BinaryOp> {
        match expr.get() {
            Expr::Bin(x) => Some(x.op),
            _ => None,
        }
    }
}

/// An expression as what is assigned to.
fn simple_target(expr: Made) -> SimpleAssignTarget
    requires { forms.is_simple_target (view_made expr) ≡ true }
    ensures { view_simple_assign_target result ≡ view_made expr }
{
    match expr.into_inner() {
        Expr::Ident(id) => SimpleAssignTarget::Ident(BindingIdent { id }),
        Expr::Member(x) => SimpleAssignTarget::Member(x),
        Expr::SuperProp(x) => SimpleAssignTarget::SuperProp(x),
        Expr::Paren(x) => SimpleAssignTarget::Paren(x),
        _ => unreachable!(),
    }
}

/// A pattern as what is assigned to.
fn pattern_target(pat: Pat) -> AssignTargetPat
    requires { forms.is_pattern_target (view_pat pat) ≡ true }
    ensures { view_assign_target_pat result ≡ view_pat pat }
{
    match pat {
        Pat::Array(x) => AssignTargetPat::Array(x),
        Pat::Object(x) => AssignTargetPat::Object(x),
        _ => unreachable!(),
    }
}
