ghost use Rattle.std.specs.Prelude.{◌≡◌, IfOk, map};
ghost use Rattle.swc_ecma_parser_ast.specs.View.{view_block_stmt, view_decorator, view_function, view_param, view_pat};
ghost use Rattle.swc_ecma_parser_ast_parts.specs.View.{view_made};

use crate::Ast;
use std::alloc::{AllocError, Global};
use swc_ecma_parser_ast::{
    ArrowExpr, BlockStmt, BlockStmtOrExpr, Decorator, Expr, FnExpr, Function, Ident, Param, Pat,
    Span, Spanned,
};
use swc_ecma_parser_ast_parts::made::Made;
use swc_ecma_parser_trees::BuildsFunction;

impl BuildsFunction for Ast {
    ghost use Rattle.swc_ecma_parser_model.specs.Tree as tree;

    type Decorator = Decorator;

    type Param = Param;

    type Function = Box<Function>;

    ghost decorator_of = { view_decorator };

    ghost param_of = { view_param };

    ghost function_of = { λ f. view_function f.value };

    fn decorator(alloc: Global, span: Span, expr: Made) -> Result<Decorator, AllocError> {
        let expr = expr.into_handle();
        Ok(Decorator { span, expr })
    }

    fn param(
        alloc: Global,
        span: Span,
        decorators: Vec<Decorator>,
        pat: Pat,
    ) -> Result<Param, AllocError>
        ensures { IfOk result
            (λ x. view_param x
            ≡ tree.param span (tree.listed (map view_decorator decorators.items)) (view_pat pat)) }
    {
        Ok(Param {
            span,
            decorators,
            pat,
        })
    }

    fn function(
        alloc: Global,
        span: Span,
        decorators: Vec<Decorator>,
        params: Vec<Param>,
        body: BlockStmt,
        is_async: bool,
        is_generator: bool,
    ) -> Result<Box<Function>, AllocError>
        ensures { IfOk result (λ x. view_function x.value
            ≡ tree.function span (tree.listed (map view_decorator decorators.items))
            (tree.listed (map view_param params.items)) (view_block_stmt body) is_async is_generator) }
    {
        let function = Function {
            span,
            decorators,
            params,
            body: Some(body),
            is_async,
            is_generator,
        };
        function.boxed(alloc)
    }

    fn fn_expr(
        alloc: Global,
        span: Span,
        name: Option<Ident>,
        function: Box<Function>,
    ) -> Result<Made, AllocError> {
        let function = FnExpr {
            span,
            ident: name,
            function,
        };
        Made::new(alloc, Expr::Fn(function))
    }

    fn block_arrow(
        alloc: Global,
        span: Span,
        params: Vec<Pat>,
        body: BlockStmt,
        is_async: bool,
    ) -> Result<Made, AllocError>
        ensures { IfOk result (λ x. view_made x
            ≡ tree.arrow span (tree.listed (map view_pat params.items)) (view_block_stmt body) is_async) }
    {
        let arrow = ArrowExpr {
            span,
            params,
            body: BlockStmtOrExpr::BlockStmt(body),
            is_async,
        };
        Made::new(alloc, Expr::Arrow(arrow))
    }

    fn expr_arrow(
        alloc: Global,
        span: Span,
        params: Vec<Pat>,
        body: Made,
        is_async: bool,
    ) -> Result<Made, AllocError>
        ensures { IfOk result (λ x. view_made x
            ≡ tree.arrow span (tree.listed (map view_pat params.items)) (view_made body) is_async) }
    {
        let arrow = ArrowExpr {
            span,
            params,
            body: BlockStmtOrExpr::Expr(body.into_handle()),
            is_async,
        };
        Made::new(alloc, Expr::Arrow(arrow))
    }

    fn decorator_span(decorator: &Decorator) -> Span {
        decorator.span
    }

    fn param_span(param: &Param) -> Span {
        param.span
    }

    fn is_plain_param(param: &Param) -> bool {
        match &param.pat {
            Pat::Ident(_) => true,
            _ => false,
        }
    }

    fn is_rest_param(param: &Param) -> bool {
        match &param.pat {
            Pat::Rest(_) => true,
            _ => false,
        }
    }

    fn function_span(function: &Box<Function>) -> Span {
        function.span
    }

    fn is_generator(function: &Box<Function>) -> bool {
        function.is_generator
    }

    #[tactic(auto, using(crate::proofs::Kind::as_expr_no_block))]
    fn is_block_arrow(expr: &Made) -> bool {
        match expr.get() {
            Expr::Arrow(x) => match &x.body {
                BlockStmtOrExpr::BlockStmt(_) => true,
                BlockStmtOrExpr::Expr(_) => false,
            },
            _ => false,
        }
    }

    fn has_name(expr: &Made) -> bool {
        match expr.get() {
            Expr::Fn(x) => x.ident.is_some(),
            Expr::Class(x) => x.ident.is_some(),
            _ => false,
        }
    }
}
