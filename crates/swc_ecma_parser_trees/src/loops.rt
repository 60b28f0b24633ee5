//! Loops.

ghost use Rattle.std.specs.Prelude.{◌≡◌, IfOk, map};

use crate::Trees;
use crate::variables::BuildsVariables;
use std::alloc::{AllocError, Global};
use swc_ecma_parser_common::Span;
use swc_ecma_parser_model::VarDeclKind;

/// Makes loops without a head of their own: ECMA-262, sections 14.7.2 and 14.7.3. Each function fails only where memory runs out,
/// and spans are in byte offsets.
pub trait BuildsLoop: Trees {
    ghost use Rattle.swc_ecma_parser_model.specs.Tree as tree;

    /// `while`: section 14.7.3.
    fn while_stmt(
        alloc: Global,
        span: Span,
        test: Self::Expr,
        body: Self::Stmt,
    ) -> Result<Self::Stmt, AllocError>
        ensures { IfOk result (λ x. Self.stmt_of x
            ≡ tree.while span (Self.expr_of test) (Self.stmt_of body)) };

    /// `do`, whose test stands behind its body: section 14.7.2.
    fn do_while(
        alloc: Global,
        span: Span,
        test: Self::Expr,
        body: Self::Stmt,
    ) -> Result<Self::Stmt, AllocError>
        ensures { IfOk result (λ x. Self.stmt_of x
            ≡ tree.do_while span (Self.expr_of test) (Self.stmt_of body)) };
}

/// Makes loops with `for` and their heads: ECMA-262, sections 14.7.4 and 14.7.5. Each function fails only where memory runs out,
/// and spans are in byte offsets.
pub trait BuildsFor: BuildsVariables {
    ghost use Rattle.swc_ecma_parser_model.specs.Tree as tree;
    ghost use Rattle.swc_ecma_parser_model.specs.Tree.{Tree};
    ghost use Rattle.swc_ecma_parser_trees.specs.Parts as parts;

    /// What a `for` of three parts begins with.
    type ForInit: Drop;

    /// What stands before `in` or `of`.
    type ForHead: Drop;

    ghost init_of: { Self.ForInit → Tree };

    ghost head_of: { Self.ForHead → Tree };

    /// A `for` of three parts: section 14.7.4.
    fn for_stmt(
        alloc: Global,
        span: Span,
        init: Option<Self::ForInit>,
        test: Option<Self::Expr>,
        update: Option<Self::Expr>,
        body: Self::Stmt,
    ) -> Result<Self::Stmt, AllocError>
        ensures { IfOk result (λ x. Self.stmt_of x
            ≡ tree.for span (parts.part_of init_of init) (parts.part_of Self.expr_of test)
            (parts.part_of Self.expr_of update) (Self.stmt_of body)) };

    /// A declaration that begins a `for` of three parts.
    fn var_init(
        alloc: Global,
        span: Span,
        kind: VarDeclKind,
        decls: Vec<Self::Declarator>,
    ) -> Result<Self::ForInit, AllocError>
        ensures { IfOk result (λ x. init_of x
            ≡ tree.var span kind (tree.listed (map Self.declarator_of decls.items))) };

    /// An expression that begins a `for` of three parts.
    fn expr_init(alloc: Global, expr: Self::Expr) -> Result<Self::ForInit, AllocError>
        ensures { IfOk result (λ x. init_of x ≡ Self.expr_of expr) };

    /// A `for` with `in`: section 14.7.5.
    fn for_in(
        alloc: Global,
        span: Span,
        left: Self::ForHead,
        right: Self::Expr,
        body: Self::Stmt,
    ) -> Result<Self::Stmt, AllocError>
        ensures { IfOk result (λ x. Self.stmt_of x
            ≡ tree.for_in span (head_of left) (Self.expr_of right) (Self.stmt_of body)) };

    /// A `for` with `of`: section 14.7.5.
    fn for_of(
        alloc: Global,
        span: Span,
        is_await: bool,
        left: Self::ForHead,
        right: Self::Expr,
        body: Self::Stmt,
    ) -> Result<Self::Stmt, AllocError>
        ensures { IfOk result (λ x. Self.stmt_of x
            ≡ tree.for_of span is_await (head_of left) (Self.expr_of right) (Self.stmt_of body)) };

    /// A declaration before `in` or `of`.
    fn var_head(
        alloc: Global,
        span: Span,
        kind: VarDeclKind,
        decls: Vec<Self::Declarator>,
    ) -> Result<Self::ForHead, AllocError>
        ensures { IfOk result (λ x. head_of x
            ≡ tree.var span kind (tree.listed (map Self.declarator_of decls.items))) };

    /// A declaration by `using` before `in` or `of`.
    fn using_head(
        alloc: Global,
        span: Span,
        is_await: bool,
        decls: Vec<Self::Declarator>,
    ) -> Result<Self::ForHead, AllocError>
        ensures { IfOk result (λ x. head_of x
            ≡ tree.using span is_await (tree.listed (map Self.declarator_of decls.items))) };

    /// A pattern before `in` or `of`.
    fn pat_head(alloc: Global, pat: Self::Pat) -> Result<Self::ForHead, AllocError>
        ensures { IfOk result (λ x. head_of x ≡ Self.pat_of pat) };
}
