//! Functions and classes as expressions, as declarations and as the default of a module.

ghost use Rattle.std.specs.Prelude.{◌≡◌, false, true, IfOk, IfErr};
ghost use Rattle.swc_ecma_parser_ast.specs.View.{view_expr};
ghost use Rattle.swc_ecma_parser_error.specs.Kind as kinds;
ghost use Rattle.swc_ecma_parser_error.specs.Kind.{kind_of};

use crate::output::OutputType;
use std::alloc::Global;
use swc_ecma_parser_ast::{
    Class, ClassDecl, ClassExpr, Decl, DefaultDecl, ExportDefaultDecl, Expr, ExprBox, FnDecl,
    FnExpr, Function, Ident, Span,
};
use swc_ecma_parser_ast_trees::Ast;
use swc_ecma_parser_error::SyntaxError;

/// A handle of an expression, or that memory ran out.
fn handle(alloc: Global, expr: Expr) -> Result<ExprBox, SyntaxError>
    ensures made { IfOk result (λ b. b.node.tree ≡ view_expr expr) }
    ensures err { IfErr result (λ e. kind_of e ≡ kinds.OutOfMemory) }
{
    match ExprBox::new(alloc, expr) {
        Ok(handle) => Ok(handle),
        Err(_) => Err(SyntaxError::OutOfMemory),
    }
}

/// A function without a name where one is required. The tree lets it go as an expression.
fn nameless_fn(span: Span, function: Box<Function>) -> SyntaxError
    ensures { kind_of result ≡ kinds.ExpectedIdent }
{
    let function = FnExpr {
        span,
        ident: None,
        function,
    };
    Expr::Fn(function).discard();
    SyntaxError::ExpectedIdent
}

/// A class without a name where one is required, as `nameless_fn`.
fn nameless_class(span: Span, class: Box<Class>) -> SyntaxError
    ensures { kind_of result ≡ kinds.ExpectedIdent }
{
    let class = ClassExpr {
        span,
        ident: None,
        class,
    };
    Expr::Class(class).discard();
    SyntaxError::ExpectedIdent
}

impl OutputType<Ast> for ExprBox {
    ghost use Rattle.swc_ecma_parser_outputs.specs.Outputs.{expression};

    const IS_IDENT_REQUIRED: bool = false;

    ghost IS_IDENT_REQUIRED = { false };

    ghost place = { expression };

    ghost output_of = { λ b. b.node.tree };

    fn is_fn_expr() -> bool {
        true
    }

    fn finish_fn(
        alloc: Global,
        span: Span,
        ident: Option<Ident>,
        function: Box<Function>,
    ) -> Result<ExprBox, SyntaxError> {
        let function = FnExpr {
            span,
            ident,
            function,
        };
        handle(alloc, Expr::Fn(function))
    }

    fn finish_class(
        alloc: Global,
        span: Span,
        ident: Option<Ident>,
        class: Box<Class>,
    ) -> Result<ExprBox, SyntaxError> {
        let class = ClassExpr { span, ident, class };
        handle(alloc, Expr::Class(class))
    }
}

impl OutputType<Ast> for DefaultDecl {
    ghost use Rattle.swc_ecma_parser_ast.specs.View.{view_default_decl};
    ghost use Rattle.swc_ecma_parser_outputs.specs.Outputs.{by_default};

    const IS_IDENT_REQUIRED: bool = false;

    ghost IS_IDENT_REQUIRED = { false };

    ghost place = { by_default };

    ghost output_of = { view_default_decl };

    fn is_fn_expr() -> bool {
        false
    }

    fn finish_fn(
        alloc: Global,
        span: Span,
        ident: Option<Ident>,
        function: Box<Function>,
    ) -> Result<DefaultDecl, SyntaxError> {
        Ok(DefaultDecl::Fn(FnExpr {
            span,
            ident,
            function,
        }))
    }

    fn finish_class(
        alloc: Global,
        span: Span,
        ident: Option<Ident>,
        class: Box<Class>,
    ) -> Result<DefaultDecl, SyntaxError> {
        Ok(DefaultDecl::Class(ClassExpr { span, ident, class }))
    }
}

impl OutputType<Ast> for ExportDefaultDecl {
    ghost use Rattle.swc_ecma_parser_ast.specs.View.{view_export_default_decl};
    ghost use Rattle.swc_ecma_parser_outputs.specs.Outputs.{exported};

    const IS_IDENT_REQUIRED: bool = false;

    ghost IS_IDENT_REQUIRED = { false };

    ghost place = { exported };

    ghost output_of = { view_export_default_decl };

    fn is_fn_expr() -> bool {
        false
    }

    fn finish_fn(
        alloc: Global,
        span: Span,
        ident: Option<Ident>,
        function: Box<Function>,
    ) -> Result<ExportDefaultDecl, SyntaxError> {
        let inner = function.span;
        let decl = DefaultDecl::Fn(FnExpr {
            span: inner,
            ident,
            function,
        });
        Ok(ExportDefaultDecl { span, decl })
    }

    fn finish_class(
        alloc: Global,
        span: Span,
        ident: Option<Ident>,
        class: Box<Class>,
    ) -> Result<ExportDefaultDecl, SyntaxError> {
        let inner = class.span;
        let decl = DefaultDecl::Class(ClassExpr {
            span: inner,
            ident,
            class,
        });
        Ok(ExportDefaultDecl { span, decl })
    }
}

impl OutputType<Ast> for Decl {
    ghost use Rattle.swc_ecma_parser_ast.specs.View.{view_decl};
    ghost use Rattle.swc_ecma_parser_outputs.specs.Outputs.{declaration};

    const IS_IDENT_REQUIRED: bool = true;

    ghost IS_IDENT_REQUIRED = { true };

    ghost place = { declaration };

    ghost output_of = { view_decl };

    fn is_fn_expr() -> bool {
        false
    }

    fn finish_fn(
        alloc: Global,
        span: Span,
        ident: Option<Ident>,
        function: Box<Function>,
    ) -> Result<Decl, SyntaxError> {
        match ident {
            Some(ident) => Ok(Decl::Fn(FnDecl { ident, function })),
            None => Err(nameless_fn(span, function)),
        }
    }

    fn finish_class(
        alloc: Global,
        span: Span,
        ident: Option<Ident>,
        class: Box<Class>,
    ) -> Result<Decl, SyntaxError> {
        match ident {
            Some(ident) => Ok(Decl::Class(ClassDecl { ident, class })),
            None => Err(nameless_class(span, class)),
        }
    }
}
