//! Members, calls, optional chains, arrays and templates.

ghost use Rattle.std.specs.Prelude.{◌≡◌, IfOk, map};

use crate::Trees;
use std::alloc::{AllocError, Global};
use swc_ecma_parser_common::Span;
use swc_ecma_parser_model::{Ident, PrivateName, TplElement};

/// Makes members, calls, optional chains, arrays and templates: ECMA-262, sections 13.2.4, 13.2.8 and 13.3. Each function that answers a `Result` fails only
/// where memory runs out, and spans are in byte offsets.
pub trait BuildsCall: Trees {
    ghost use Rattle.swc_ecma_parser_model.specs.Forms as forms;
    ghost use Rattle.swc_ecma_parser_model.specs.Tree as tree;
    ghost use Rattle.swc_ecma_parser_model.specs.Tree.{Tree};
    ghost use Rattle.swc_ecma_parser_model.specs.Within as within;
    ghost use Rattle.swc_ecma_parser_trees.specs.Parts as parts;

    /// An argument, or an element of an array.
    type Arg: Drop;

    ghost arg_of: { Self.Arg → Tree };

    /// An argument or element, with the place of its dots where it is spread.
    fn element(
        alloc: Global,
        spread: Option<Span>,
        expr: Self::Expr,
    ) -> Result<Self::Arg, AllocError>
        ensures { IfOk result (λ x. arg_of x ≡ tree.element spread (Self.expr_of expr)) };

    /// An array; a hole is `None`. The span covers its brackets.
    fn array(
        alloc: Global,
        span: Span,
        elems: Vec<Option<Self::Arg>>,
    ) -> Result<Self::Expr, AllocError>
        ensures { IfOk result (λ x. Self.expr_of x
            ≡ tree.array span (tree.listed (map (parts.part_of arg_of) elems.items))) };

    /// A member by its name.
    fn member(
        alloc: Global,
        span: Span,
        obj: Self::Expr,
        prop: Ident,
    ) -> Result<Self::Expr, AllocError>
        ensures { IfOk result (λ x. Self.expr_of x
            ≡ tree.member span (Self.expr_of obj) (tree.ident prop.span prop.sym)) };

    /// A member by its private name.
    fn private_member(
        alloc: Global,
        span: Span,
        obj: Self::Expr,
        prop: PrivateName,
    ) -> Result<Self::Expr, AllocError>
        ensures { IfOk result (λ x. Self.expr_of x
            ≡ tree.member span (Self.expr_of obj) (tree.private_name prop.span prop.id.span prop.id.sym)) };

    /// A member by an expression in brackets, which stand at `brackets`.
    fn computed_member(
        alloc: Global,
        span: Span,
        obj: Self::Expr,
        brackets: Span,
        prop: Self::Expr,
    ) -> Result<Self::Expr, AllocError>
        ensures { IfOk result (λ x. Self.expr_of x
            ≡ tree.member span (Self.expr_of obj) (tree.computed brackets (Self.expr_of prop))) };

    /// A member of `super`, which stands at `word`, by its name.
    fn super_prop(
        alloc: Global,
        span: Span,
        word: Span,
        prop: Ident,
    ) -> Result<Self::Expr, AllocError>
        ensures { IfOk result (λ x. Self.expr_of x
            ≡ tree.super_prop span word (tree.ident prop.span prop.sym)) };

    /// A member of `super`, which stands at `word`, by an expression in brackets.
    fn computed_super_prop(
        alloc: Global,
        span: Span,
        word: Span,
        brackets: Span,
        prop: Self::Expr,
    ) -> Result<Self::Expr, AllocError>
        ensures { IfOk result (λ x. Self.expr_of x
            ≡ tree.super_prop span word (tree.computed brackets (Self.expr_of prop))) };

    /// A call.
    fn call(
        alloc: Global,
        span: Span,
        callee: Self::Expr,
        args: Vec<Self::Arg>,
    ) -> Result<Self::Expr, AllocError>
        ensures { IfOk result (λ x. Self.expr_of x
            ≡ tree.call span (Self.expr_of callee) (tree.listed (map arg_of args.items))) };

    /// A call of `super`, which stands at `word`.
    fn super_call(
        alloc: Global,
        span: Span,
        word: Span,
        args: Vec<Self::Arg>,
    ) -> Result<Self::Expr, AllocError>
        ensures { IfOk result (λ x. Self.expr_of x
            ≡ tree.call span (tree.super_callee word) (tree.listed (map arg_of args.items))) };

    /// A call of `import`, which stands at `word`.
    fn import_call(
        alloc: Global,
        span: Span,
        word: Span,
        args: Vec<Self::Arg>,
    ) -> Result<Self::Expr, AllocError>
        ensures { IfOk result (λ x. Self.expr_of x
            ≡ tree.call span (tree.import_callee word) (tree.listed (map arg_of args.items))) };

    /// `new`; without parentheses it has no arguments.
    fn new_expr(
        alloc: Global,
        span: Span,
        callee: Self::Expr,
        args: Option<Vec<Self::Arg>>,
    ) -> Result<Self::Expr, AllocError>
        ensures { IfOk result (λ x. Self.expr_of x
            ≡ tree.new span (Self.expr_of callee) (parts.part_of (λ xs. tree.listed (map arg_of xs.items)) args)) };

    /// A member by its name, as a link of an optional chain: section 13.3.9. `optional` says that `?.` stands before it.
    fn chain_member(
        alloc: Global,
        span: Span,
        optional: bool,
        obj: Self::Expr,
        prop: Ident,
    ) -> Result<Self::Expr, AllocError>
        ensures { IfOk result (λ x. Self.expr_of x
            ≡ tree.opt_chain span optional (tree.member span (Self.expr_of obj) (tree.ident prop.span prop.sym))) };

    /// A member by its private name, as such a link.
    fn chain_private_member(
        alloc: Global,
        span: Span,
        optional: bool,
        obj: Self::Expr,
        prop: PrivateName,
    ) -> Result<Self::Expr, AllocError>
        ensures { IfOk result (λ x. Self.expr_of x
            ≡ tree.opt_chain span optional
            (tree.member span (Self.expr_of obj) (tree.private_name prop.span prop.id.span prop.id.sym))) };

    /// A member by an expression in brackets, which stand at `brackets`, as such a link.
    fn chain_computed_member(
        alloc: Global,
        span: Span,
        optional: bool,
        obj: Self::Expr,
        brackets: Span,
        prop: Self::Expr,
    ) -> Result<Self::Expr, AllocError>
        ensures { IfOk result (λ x. Self.expr_of x
            ≡ tree.opt_chain span optional
            (tree.member span (Self.expr_of obj) (tree.computed brackets (Self.expr_of prop)))) };

    /// A call, as such a link.
    fn chain_call(
        alloc: Global,
        span: Span,
        optional: bool,
        callee: Self::Expr,
        args: Vec<Self::Arg>,
    ) -> Result<Self::Expr, AllocError>
        ensures { IfOk result (λ x. Self.expr_of x
            ≡ tree.opt_chain span optional
            (tree.call span (Self.expr_of callee) (tree.listed (map arg_of args.items)))) };

    /// A template, with one text more than it has expressions: section 13.2.8. The span covers its marks.
    fn template(
        alloc: Global,
        span: Span,
        exprs: Vec<Self::Expr>,
        quasis: Vec<TplElement>,
    ) -> Result<Self::Expr, AllocError>
        ensures { IfOk result (λ x. Self.expr_of x
            ≡ tree.tpl span (tree.listed (map Self.expr_of exprs.items)) (tree.listed (map parts.quasi_of quasis.items))) };

    /// A template behind its tag, which stands at `template`: section 13.3.11.
    fn tagged_template(
        alloc: Global,
        span: Span,
        tag: Self::Expr,
        template: Span,
        exprs: Vec<Self::Expr>,
        quasis: Vec<TplElement>,
    ) -> Result<Self::Expr, AllocError>
        ensures { IfOk result (λ x. Self.expr_of x
            ≡ tree.tagged_tpl span (Self.expr_of tag)
            (tree.tpl template (tree.listed (map Self.expr_of exprs.items)) (tree.listed (map parts.quasi_of quasis.items)))) };

    /// Whether it is an optional chain, with no parentheses.
    fn is_chain(expr: &Self::Expr) -> bool
        ensures { result ≡ forms.is_chain (Self.expr_of expr.now) };

    /// Whether it is a member, of a value or of `super`.
    fn is_member(expr: &Self::Expr) -> bool
        ensures { result ≡ forms.is_member (Self.expr_of expr.now) };

    /// Whether it is a call of the bare name `async`.
    fn is_async_call(expr: &Self::Expr) -> bool
        ensures { result ≡ within.is_async_call (Self.expr_of expr.now) };
}
