ghost use Rattle.std.specs.Prelude.{◌≡◌};

use crate::node::{ExprBox, Node};
use crate::pat::Pat;
use crate::stmt::BlockStmt;
use swc_ecma_parser_common::{Span, Spanned};
use swc_ecma_parser_model::Ident;

/// A function as an expression (ECMA-262, 15.2, 15.5, 15.6 and 15.8).
#[derive(Debug, PartialEq, Eq, Drop)]
pub struct FnExpr<N = Node> {
    pub span: Span,
    pub ident: Option<Ident>,
    pub function: Box<Function<N>>,
}

/// A function, whatever it stands in; a body that is left out is `None` (ECMA-262, 15.2).
#[derive(Debug, PartialEq, Eq, Drop)]
pub struct Function<N = Node> {
    pub span: Span,
    pub decorators: Vec<Decorator<N>>,
    pub params: Vec<Param<N>>,
    pub body: Option<BlockStmt<N>>,
    pub is_async: bool,
    pub is_generator: bool,
}

/// A parameter (ECMA-262, 15.1).
#[derive(Debug, PartialEq, Eq, Drop)]
pub struct Param<N = Node> {
    pub span: Span,
    pub decorators: Vec<Decorator<N>>,
    pub pat: Pat<N>,
}

/// `@` and what it calls.
#[derive(Debug, PartialEq, Eq, Drop)]
pub struct Decorator<N = Node> {
    pub span: Span,
    pub expr: ExprBox<N>,
}

/// An arrow function (ECMA-262, 15.3).
#[derive(Debug, PartialEq, Eq, Drop)]
pub struct ArrowExpr<N = Node> {
    pub span: Span,
    pub params: Vec<Pat<N>>,
    pub body: BlockStmtOrExpr<N>,
    pub is_async: bool,
}

/// The body of an arrow function (ECMA-262, 15.3).
#[derive(Debug, PartialEq, Eq, Drop)]
pub enum BlockStmtOrExpr<N = Node> {
    BlockStmt(BlockStmt<N>),
    Expr(ExprBox<N>),
}

/// A function as a declaration (ECMA-262, 15.2, 15.5, 15.6 and 15.8).
#[derive(Debug, PartialEq, Eq, Drop)]
pub struct FnDecl<N = Node> {
    pub ident: Ident,
    pub function: Box<Function<N>>,
}

impl<N> Spanned for FnExpr<N> {
    ghost span_of = { λ x. x.span };

    fn span(&self) -> Span {
        self.span
    }
}

impl<N> Spanned for Function<N> {
    ghost span_of = { λ x. x.span };

    fn span(&self) -> Span {
        self.span
    }
}

impl<N> Spanned for Param<N> {
    ghost span_of = { λ x. x.span };

    fn span(&self) -> Span {
        self.span
    }
}

impl<N> Spanned for Decorator<N> {
    ghost span_of = { λ x. x.span };

    fn span(&self) -> Span {
        self.span
    }
}

impl<N> Spanned for ArrowExpr<N> {
    ghost span_of = { λ x. x.span };

    fn span(&self) -> Span {
        self.span
    }
}

impl Spanned for BlockStmtOrExpr {
    ghost use Rattle.swc_ecma_parser_model.specs.Forms as model;
    ghost use Rattle.swc_ecma_parser_ast.specs.View.{view_block_stmt_or_expr};

    ghost span_of = { λ x. model.span_of (view_block_stmt_or_expr x) };

    fn span(&self) -> Span {
        match self {
            BlockStmtOrExpr::BlockStmt(x) => x.span(),
            BlockStmtOrExpr::Expr(x) => x.span(),
        }
    }
}

impl<N> Spanned for FnDecl<N> {
    ghost span_of = { λ x. x.function.value.span };

    fn span(&self) -> Span {
        self.function.span
    }
}
