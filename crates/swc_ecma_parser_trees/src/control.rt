//! Statements that steer control.

ghost use Rattle.std.specs.Prelude.{◌≡◌, IfOk, map};

use crate::Trees;
use crate::block::BuildsBlock;
use std::alloc::{AllocError, Global};
use swc_ecma_parser_common::Span;
use swc_ecma_parser_model::Ident;

/// Makes statements that steer control, but loops, `switch` and `try`: ECMA-262, sections 14.6 to 14.14. Each function that
/// answers a `Result` fails only where memory runs out, and spans are in byte offsets.
pub trait BuildsControl: Trees {
    ghost use Rattle.swc_ecma_parser_model.specs.Kinds as kinds;
    ghost use Rattle.swc_ecma_parser_model.specs.Tree as tree;
    ghost use Rattle.swc_ecma_parser_trees.specs.Parts as parts;

    /// `with`: section 14.11.
    fn with(
        alloc: Global,
        span: Span,
        obj: Self::Expr,
        body: Self::Stmt,
    ) -> Result<Self::Stmt, AllocError>
        ensures { IfOk result (λ x. Self.stmt_of x
            ≡ tree.with span (Self.expr_of obj) (Self.stmt_of body)) };

    /// `return`: section 14.10.
    fn return_stmt(
        alloc: Global,
        span: Span,
        arg: Option<Self::Expr>,
    ) -> Result<Self::Stmt, AllocError>
        ensures { IfOk result
            (λ x. Self.stmt_of x ≡ tree.return span (parts.part_of Self.expr_of arg)) };

    /// A statement with a label: section 14.13.
    fn labeled(
        alloc: Global,
        span: Span,
        label: Ident,
        body: Self::Stmt,
    ) -> Result<Self::Stmt, AllocError>
        ensures { IfOk result (λ x. Self.stmt_of x
            ≡ tree.labeled span (tree.ident label.span label.sym) (Self.stmt_of body)) };

    /// `break`: section 14.9.
    fn break_stmt(alloc: Global, span: Span, label: Option<Ident>) -> Result<Self::Stmt, AllocError>
        ensures { IfOk result (λ x. Self.stmt_of x
            ≡ tree.break span (parts.part_of (λ n. tree.ident n.span n.sym) label)) };

    /// `continue`: section 14.8.
    fn continue_stmt(
        alloc: Global,
        span: Span,
        label: Option<Ident>,
    ) -> Result<Self::Stmt, AllocError>
        ensures { IfOk result (λ x. Self.stmt_of x
            ≡ tree.continue span (parts.part_of (λ n. tree.ident n.span n.sym) label)) };

    /// `if`: section 14.6.
    fn if_stmt(
        alloc: Global,
        span: Span,
        test: Self::Expr,
        cons: Self::Stmt,
        alt: Option<Self::Stmt>,
    ) -> Result<Self::Stmt, AllocError>
        ensures { IfOk result (λ x. Self.stmt_of x
            ≡ tree.if_stmt span (Self.expr_of test) (Self.stmt_of cons) (parts.part_of Self.stmt_of alt)) };

    /// `throw`: section 14.14.
    fn throw(alloc: Global, span: Span, arg: Self::Expr) -> Result<Self::Stmt, AllocError>
        ensures { IfOk result (λ x. Self.stmt_of x ≡ tree.throw span (Self.expr_of arg)) };

    /// Whether it is `if`, with or without `else`.
    fn is_if(stmt: &Self::Stmt) -> bool
        ensures { result ≡ kinds.is_if (Self.stmt_of stmt.now) };
}

/// Makes `switch`: ECMA-262, section 14.12. Each function fails only where memory runs out, and spans are in byte offsets.
pub trait BuildsSwitch: Trees {
    ghost use Rattle.swc_ecma_parser_model.specs.Tree as tree;
    ghost use Rattle.swc_ecma_parser_model.specs.Tree.{Tree};
    ghost use Rattle.swc_ecma_parser_trees.specs.Parts as parts;

    /// A case of a `switch`.
    type Case: Drop;

    ghost case_of: { Self.Case → Tree };

    /// `switch`: section 14.12.
    fn switch(
        alloc: Global,
        span: Span,
        discriminant: Self::Expr,
        cases: Vec<Self::Case>,
    ) -> Result<Self::Stmt, AllocError>
        ensures { IfOk result (λ x. Self.stmt_of x
            ≡ tree.switch span (Self.expr_of discriminant) (tree.listed (map case_of cases.items))) };

    /// A case of a `switch`; `default` has no test.
    fn case(
        alloc: Global,
        span: Span,
        test: Option<Self::Expr>,
        cons: Vec<Self::Stmt>,
    ) -> Result<Self::Case, AllocError>
        ensures { IfOk result (λ x. case_of x
            ≡ tree.case span (parts.part_of Self.expr_of test) (tree.listed (map Self.stmt_of cons.items))) };
}

/// Makes `try`: ECMA-262, section 14.15. Each function fails only where memory runs out, and spans are in byte offsets.
pub trait BuildsTry: BuildsBlock {
    ghost use Rattle.swc_ecma_parser_model.specs.Tree as tree;
    ghost use Rattle.swc_ecma_parser_model.specs.Tree.{Tree};
    ghost use Rattle.swc_ecma_parser_trees.specs.Parts as parts;

    /// What catches what was thrown.
    type Catch: Drop;

    ghost catch_of: { Self.Catch → Tree };

    /// `try`: section 14.15.
    fn try_stmt(
        alloc: Global,
        span: Span,
        block: Self::Block,
        handler: Option<Self::Catch>,
        finalizer: Option<Self::Block>,
    ) -> Result<Self::Stmt, AllocError>
        ensures { IfOk result (λ x. Self.stmt_of x
            ≡ tree.try span (Self.block_of block) (parts.part_of catch_of handler) (parts.part_of Self.block_of finalizer)) };

    /// `catch`, with what it binds.
    fn catch(
        alloc: Global,
        span: Span,
        param: Option<Self::Pat>,
        body: Self::Block,
    ) -> Result<Self::Catch, AllocError>
        ensures { IfOk result (λ x. catch_of x
            ≡ tree.catch span (parts.part_of Self.pat_of param) (Self.block_of body)) };
}
