ghost use Rattle.std.specs.Prelude.{◌≡◌};

use crate::class::ClassExpr;
use crate::decl::Decl;
use crate::function::FnExpr;
use crate::imports::ModuleExportName;
use crate::node::{ExprBox, Node};
use crate::object::ObjectLit;
use swc_ecma_parser_common::{Span, Spanned};
use swc_ecma_parser_model::{Ident, Str};

/// An exported declaration (ECMA-262, 16.2.3).
#[derive(Debug, PartialEq, Eq, Drop)]
pub struct ExportDecl<N = Node> {
    pub span: Span,
    pub decl: Decl<N>,
}

/// Exported names, of this module or of another; `with` holds its attributes (ECMA-262, 16.2.3).
#[derive(Debug, PartialEq, Eq, Drop)]
pub struct NamedExport<N = Node> {
    pub span: Span,
    pub specifiers: Vec<ExportSpecifier>,
    pub src: Option<Str>,
    pub with: Option<ObjectLit<N>>,
}

/// A function or class that is exported by default (ECMA-262, 16.2.3).
#[derive(Debug, PartialEq, Eq, Drop)]
pub struct ExportDefaultDecl<N = Node> {
    pub span: Span,
    pub decl: DefaultDecl<N>,
}

/// A function or class, with or without a name (ECMA-262, 16.2.3).
#[derive(Debug, PartialEq, Eq, Drop)]
pub enum DefaultDecl<N = Node> {
    Class(ClassExpr<N>),
    Fn(FnExpr<N>),
}

/// An expression that is exported by default (ECMA-262, 16.2.3).
#[derive(Debug, PartialEq, Eq, Drop)]
pub struct ExportDefaultExpr<N = Node> {
    pub span: Span,
    pub expr: ExprBox<N>,
}

/// All names of another module; `with` holds its attributes (ECMA-262, 16.2.3).
#[derive(Debug, PartialEq, Eq, Drop)]
pub struct ExportAll<N = Node> {
    pub span: Span,
    pub src: Str,
    pub with: Option<ObjectLit<N>>,
}

/// A name that is exported (ECMA-262, 16.2.3).
#[derive(Debug, PartialEq, Eq, Drop)]
pub enum ExportSpecifier {
    Namespace(ExportNamespaceSpecifier),
    Default(ExportDefaultSpecifier),
    Named(ExportNamedSpecifier),
}

/// A name for all that another module exports (ECMA-262, 16.2.3).
#[derive(Debug, PartialEq, Eq, Drop)]
pub struct ExportNamespaceSpecifier {
    pub span: Span,
    pub name: ModuleExportName,
}

/// A name for what another module exports by default.
#[derive(Debug, PartialEq, Eq, Drop)]
pub struct ExportDefaultSpecifier {
    pub exported: Ident,
}

/// A name, with the one that it is exported by where that is another (ECMA-262, 16.2.3).
#[derive(Debug, PartialEq, Eq, Drop)]
pub struct ExportNamedSpecifier {
    pub span: Span,
    pub orig: ModuleExportName,
    pub exported: Option<ModuleExportName>,
}

impl<N> Spanned for ExportDecl<N> {
    ghost span_of = { λ x. x.span };

    fn span(&self) -> Span {
        self.span
    }
}

impl<N> Spanned for NamedExport<N> {
    ghost span_of = { λ x. x.span };

    fn span(&self) -> Span {
        self.span
    }
}

impl<N> Spanned for ExportDefaultDecl<N> {
    ghost span_of = { λ x. x.span };

    fn span(&self) -> Span {
        self.span
    }
}

impl Spanned for DefaultDecl {
    ghost use Rattle.swc_ecma_parser_model.specs.Forms as model;
    ghost use Rattle.swc_ecma_parser_ast.specs.View.{view_default_decl};

    ghost span_of = { λ x. model.span_of (view_default_decl x) };

    fn span(&self) -> Span {
        match self {
            DefaultDecl::Class(x) => x.span(),
            DefaultDecl::Fn(x) => x.span(),
        }
    }
}

impl<N> Spanned for ExportDefaultExpr<N> {
    ghost span_of = { λ x. x.span };

    fn span(&self) -> Span {
        self.span
    }
}

impl<N> Spanned for ExportAll<N> {
    ghost span_of = { λ x. x.span };

    fn span(&self) -> Span {
        self.span
    }
}

impl Spanned for ExportSpecifier {
    ghost use Rattle.swc_ecma_parser_model.specs.Forms as model;
    ghost use Rattle.swc_ecma_parser_ast.specs.View.{view_export_specifier};

    ghost span_of = { λ x. model.span_of (view_export_specifier x) };

    fn span(&self) -> Span {
        match self {
            ExportSpecifier::Namespace(x) => x.span(),
            ExportSpecifier::Default(x) => x.span(),
            ExportSpecifier::Named(x) => x.span(),
        }
    }
}

impl Spanned for ExportNamespaceSpecifier {
    ghost span_of = { λ x. x.span };

    fn span(&self) -> Span {
        self.span
    }
}

impl Spanned for ExportDefaultSpecifier {
    ghost span_of = { λ x. x.exported.span };

    fn span(&self) -> Span {
        self.exported.span
    }
}

impl Spanned for ExportNamedSpecifier {
    ghost span_of = { λ x. x.span };

    fn span(&self) -> Span {
        self.span
    }
}
