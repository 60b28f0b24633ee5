//! Functions.

ghost use Rattle.std.specs.Prelude.{◌≡◌, IfOk, map};

use crate::block::BuildsBlock;
use std::alloc::{AllocError, Global};
use swc_ecma_parser_common::Span;
use swc_ecma_parser_model::Ident;

/// Makes functions and their parts: ECMA-262, sections 15.1 to 15.8. Each function that answers a `Result` fails only
/// where memory runs out, and spans are in byte offsets.
pub trait BuildsFunction: BuildsBlock {
    ghost use Rattle.swc_ecma_parser_model.specs.Forms as forms;
    ghost use Rattle.swc_ecma_parser_model.specs.Tree as tree;
    ghost use Rattle.swc_ecma_parser_model.specs.Tree.{Tree};
    ghost use Rattle.swc_ecma_parser_model.specs.Within as within;
    ghost use Rattle.swc_ecma_parser_trees.specs.Parts as parts;

    /// `@` and an expression.
    type Decorator: Drop;

    /// A parameter of a function, a method or a constructor.
    type Param: Drop;

    /// A function without its name.
    type Function: Drop;

    ghost decorator_of: { Self.Decorator → Tree };

    ghost param_of: { Self.Param → Tree };

    ghost function_of: { Self.Function → Tree };

    /// `@` and an expression.
    fn decorator(alloc: Global, span: Span, expr: Self::Expr) -> Result<Self::Decorator, AllocError>
        ensures { IfOk result (λ x. decorator_of x ≡ tree.decorator span (Self.expr_of expr)) };

    /// A parameter.
    fn param(
        alloc: Global,
        span: Span,
        decorators: Vec<Self::Decorator>,
        pat: Self::Pat,
    ) -> Result<Self::Param, AllocError>
        ensures { IfOk result (λ x. param_of x
            ≡ tree.param span (tree.listed (map decorator_of decorators.items)) (Self.pat_of pat)) };

    /// A function without its name.
    fn function(
        alloc: Global,
        span: Span,
        decorators: Vec<Self::Decorator>,
        params: Vec<Self::Param>,
        body: Self::Block,
        is_async: bool,
        is_generator: bool,
    ) -> Result<Self::Function, AllocError>
        ensures { IfOk result (λ x. function_of x
            ≡ tree.function span (tree.listed (map decorator_of decorators.items))
            (tree.listed (map param_of params.items)) (Self.block_of body) is_async is_generator) };

    /// A function as an expression.
    fn fn_expr(
        alloc: Global,
        span: Span,
        name: Option<Ident>,
        function: Self::Function,
    ) -> Result<Self::Expr, AllocError>
        ensures { IfOk result (λ x. Self.expr_of x
            ≡ tree.fn_expr span (parts.part_of (λ n. tree.ident n.span n.sym) name) (function_of function)) };

    /// An arrow function whose body is a block.
    fn block_arrow(
        alloc: Global,
        span: Span,
        params: Vec<Self::Pat>,
        body: Self::Block,
        is_async: bool,
    ) -> Result<Self::Expr, AllocError>
        ensures { IfOk result (λ x. Self.expr_of x
            ≡ tree.arrow span (tree.listed (map Self.pat_of params.items)) (Self.block_of body) is_async) };

    /// An arrow function whose body is an expression.
    fn expr_arrow(
        alloc: Global,
        span: Span,
        params: Vec<Self::Pat>,
        body: Self::Expr,
        is_async: bool,
    ) -> Result<Self::Expr, AllocError>
        ensures { IfOk result (λ x. Self.expr_of x
            ≡ tree.arrow span (tree.listed (map Self.pat_of params.items)) (Self.expr_of body) is_async) };

    /// Where a decorator stands, its `@` included.
    fn decorator_span(decorator: &Self::Decorator) -> Span
        ensures { result ≡ forms.span_of (decorator_of decorator.now) };

    /// Where a parameter stands.
    fn param_span(param: &Self::Param) -> Span
        ensures { result ≡ forms.span_of (param_of param.now) };

    /// Whether a parameter is a plain name.
    fn is_plain_param(param: &Self::Param) -> bool
        ensures { result ≡ forms.is_plain_param (param_of param.now) };

    /// Whether a parameter takes the rest of the arguments.
    fn is_rest_param(param: &Self::Param) -> bool
        ensures { result ≡ within.is_rest_param (param_of param.now) };

    /// Where a function stands.
    fn function_span(function: &Self::Function) -> Span
        ensures { result ≡ forms.span_of (function_of function.now) };

    /// Whether a function is a generator.
    fn is_generator(function: &Self::Function) -> bool
        ensures { result ≡ within.is_generator_function (function_of function.now) };

    /// Whether it is an arrow function whose body is a block.
    fn is_block_arrow(expr: &Self::Expr) -> bool
        ensures { result ≡ within.is_block_arrow (Self.expr_of expr.now) };

    /// Whether it is a function or a class with a name.
    fn has_name(expr: &Self::Expr) -> bool
        ensures { result ≡ forms.has_name (Self.expr_of expr.now) };
}
