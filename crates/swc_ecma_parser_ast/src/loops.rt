ghost use Rattle.std.specs.Prelude.{◌≡◌};

use crate::decl::{UsingDecl, VarDecl};
use crate::node::{ExprBox, Node, StmtBox};
use crate::pat::Pat;
use swc_ecma_parser_common::{Span, Spanned};

/// `while` (ECMA-262, 14.7.3).
#[derive(Debug, PartialEq, Eq, Drop)]
pub struct WhileStmt<N = Node> {
    pub span: Span,
    pub test: ExprBox<N>,
    pub body: StmtBox<N>,
}

/// `do`, with its test behind the body (ECMA-262, 14.7.2).
#[derive(Debug, PartialEq, Eq, Drop)]
pub struct DoWhileStmt<N = Node> {
    pub span: Span,
    pub test: ExprBox<N>,
    pub body: StmtBox<N>,
}

/// `for` with three parts (ECMA-262, 14.7.4).
#[derive(Debug, PartialEq, Eq, Drop)]
pub struct ForStmt<N = Node> {
    pub span: Span,
    pub init: Option<VarDeclOrExpr<N>>,
    pub test: Option<ExprBox<N>>,
    pub update: Option<ExprBox<N>>,
    pub body: StmtBox<N>,
}

/// What a `for` begins with (ECMA-262, 14.7.4).
#[derive(Debug, PartialEq, Eq, Drop)]
pub enum VarDeclOrExpr<N = Node> {
    VarDecl(VarDecl<N>),
    Expr(ExprBox<N>),
}

/// `for` with `in` (ECMA-262, 14.7.5).
#[derive(Debug, PartialEq, Eq, Drop)]
pub struct ForInStmt<N = Node> {
    pub span: Span,
    pub left: ForHead<N>,
    pub right: ExprBox<N>,
    pub body: StmtBox<N>,
}

/// `for` with `of` (ECMA-262, 14.7.5).
#[derive(Debug, PartialEq, Eq, Drop)]
pub struct ForOfStmt<N = Node> {
    pub span: Span,
    pub is_await: bool,
    pub left: ForHead<N>,
    pub right: ExprBox<N>,
    pub body: StmtBox<N>,
}

/// What a loop over values binds or assigns to (ECMA-262, 14.7.5).
#[derive(Debug, PartialEq, Eq, Drop)]
pub enum ForHead<N = Node> {
    VarDecl(VarDecl<N>),
    UsingDecl(UsingDecl<N>),
    Pat(Pat<N>),
}

impl<N> Spanned for WhileStmt<N> {
    ghost span_of = { λ x. x.span };

    fn span(&self) -> Span {
        self.span
    }
}

impl<N> Spanned for DoWhileStmt<N> {
    ghost span_of = { λ x. x.span };

    fn span(&self) -> Span {
        self.span
    }
}

impl<N> Spanned for ForStmt<N> {
    ghost span_of = { λ x. x.span };

    fn span(&self) -> Span {
        self.span
    }
}

impl Spanned for VarDeclOrExpr {
    ghost use Rattle.swc_ecma_parser_model.specs.Forms as model;
    ghost use Rattle.swc_ecma_parser_ast.specs.View.{view_var_decl_or_expr};

    ghost span_of = { λ x. model.span_of (view_var_decl_or_expr x) };

    fn span(&self) -> Span {
        match self {
            VarDeclOrExpr::VarDecl(x) => x.span(),
            VarDeclOrExpr::Expr(x) => x.span(),
        }
    }
}

impl<N> Spanned for ForInStmt<N> {
    ghost span_of = { λ x. x.span };

    fn span(&self) -> Span {
        self.span
    }
}

impl<N> Spanned for ForOfStmt<N> {
    ghost span_of = { λ x. x.span };

    fn span(&self) -> Span {
        self.span
    }
}

impl Spanned for ForHead {
    ghost use Rattle.swc_ecma_parser_model.specs.Forms as model;
    ghost use Rattle.swc_ecma_parser_ast.specs.View.{view_for_head};

    ghost span_of = { λ x. model.span_of (view_for_head x) };

    fn span(&self) -> Span {
        match self {
            ForHead::VarDecl(x) => x.span(),
            ForHead::UsingDecl(x) => x.span(),
            ForHead::Pat(x) => x.span(),
        }
    }
}
