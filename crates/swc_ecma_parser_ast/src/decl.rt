ghost use Rattle.std.specs.Prelude.{◌≡◌};

use crate::class::ClassDecl;
use crate::function::FnDecl;
use crate::node::{ExprBox, Node};
use crate::pat::Pat;
use swc_ecma_parser_common::{Span, Spanned};
use swc_ecma_parser_model::VarDeclKind;

/// A declaration (ECMA-262, 14.3).
#[derive(Debug, PartialEq, Eq, Drop)]
pub enum Decl<N = Node> {
    Class(ClassDecl<N>),
    Fn(FnDecl<N>),
    Var(VarDecl<N>),
    Using(UsingDecl<N>),
}

/// A declaration of variables (ECMA-262, 14.3.1 and 14.3.2). The span ends with its `;`, if it has one.
#[derive(Debug, PartialEq, Eq, Drop)]
pub struct VarDecl<N = Node> {
    pub span: Span,
    pub kind: VarDeclKind,
    pub decls: Vec<VarDeclarator<N>>,
}

/// One variable of a declaration, with its initializer.
#[derive(Debug, PartialEq, Eq, Drop)]
pub struct VarDeclarator<N = Node> {
    pub span: Span,
    pub name: Pat<N>,
    pub init: Option<ExprBox<N>>,
}

/// A declaration of resources that are disposed of at the end of their block (ECMA-262, 14.3.1). The span ends with its `;`, if it has one.
#[derive(Debug, PartialEq, Eq, Drop)]
pub struct UsingDecl<N = Node> {
    pub span: Span,
    pub is_await: bool,
    pub decls: Vec<VarDeclarator<N>>,
}

impl Spanned for Decl {
    ghost use Rattle.swc_ecma_parser_model.specs.Forms as model;
    ghost use Rattle.swc_ecma_parser_ast.specs.View.{view_decl};

    ghost span_of = { λ x. model.span_of (view_decl x) };

    fn span(&self) -> Span {
        match self {
            Decl::Class(x) => x.span(),
            Decl::Fn(x) => x.span(),
            Decl::Var(x) => x.span(),
            Decl::Using(x) => x.span(),
        }
    }
}

impl<N> Spanned for VarDecl<N> {
    ghost span_of = { λ x. x.span };

    fn span(&self) -> Span {
        self.span
    }
}

impl<N> Spanned for VarDeclarator<N> {
    ghost span_of = { λ x. x.span };

    fn span(&self) -> Span {
        self.span
    }
}

impl<N> Spanned for UsingDecl<N> {
    ghost span_of = { λ x. x.span };

    fn span(&self) -> Span {
        self.span
    }
}
