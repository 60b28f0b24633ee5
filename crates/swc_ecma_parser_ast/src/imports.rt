ghost use Rattle.std.specs.Prelude.{◌≡◌};

use crate::node::Node;
use crate::object::ObjectLit;
use swc_ecma_parser_common::{Span, Spanned};
use swc_ecma_parser_model::{Ident, ImportPhase, Str};

/// An import; `with` holds its attributes (ECMA-262, 16.2.2).
#[derive(Debug, PartialEq, Eq, Drop)]
pub struct ImportDecl<N = Node> {
    pub span: Span,
    pub specifiers: Vec<ImportSpecifier>,
    pub src: Str,
    pub with: Option<ObjectLit<N>>,
    pub phase: ImportPhase,
}

/// A name that is imported (ECMA-262, 16.2.2).
#[derive(Debug, PartialEq, Eq, Drop)]
pub enum ImportSpecifier {
    Named(ImportNamedSpecifier),
    Default(ImportDefaultSpecifier),
    Namespace(ImportStarAsSpecifier),
}

/// A name in braces, with the one that it is exported by where that is another (ECMA-262, 16.2.2).
#[derive(Debug, PartialEq, Eq, Drop)]
pub struct ImportNamedSpecifier {
    pub span: Span,
    pub local: Ident,
    pub imported: Option<ModuleExportName>,
}

/// A name for what a module exports by default (ECMA-262, 16.2.2).
#[derive(Debug, PartialEq, Eq, Drop)]
pub struct ImportDefaultSpecifier {
    pub span: Span,
    pub local: Ident,
}

/// A name for all that a module exports (ECMA-262, 16.2.2).
#[derive(Debug, PartialEq, Eq, Drop)]
pub struct ImportStarAsSpecifier {
    pub span: Span,
    pub local: Ident,
}

/// The name of an export (ECMA-262, 16.2).
#[derive(Debug, PartialEq, Eq, Drop)]
pub enum ModuleExportName {
    Ident(Ident),
    Str(Str),
}

impl<N> Spanned for ImportDecl<N> {
    ghost span_of = { λ x. x.span };

    fn span(&self) -> Span {
        self.span
    }
}

impl Spanned for ImportSpecifier {
    ghost use Rattle.swc_ecma_parser_model.specs.Forms as model;
    ghost use Rattle.swc_ecma_parser_ast.specs.View.{view_import_specifier};

    ghost span_of = { λ x. model.span_of (view_import_specifier x) };

    fn span(&self) -> Span {
        match self {
            ImportSpecifier::Named(x) => x.span(),
            ImportSpecifier::Default(x) => x.span(),
            ImportSpecifier::Namespace(x) => x.span(),
        }
    }
}

impl Spanned for ImportNamedSpecifier {
    ghost span_of = { λ x. x.span };

    fn span(&self) -> Span {
        self.span
    }
}

impl Spanned for ImportDefaultSpecifier {
    ghost span_of = { λ x. x.span };

    fn span(&self) -> Span {
        self.span
    }
}

impl Spanned for ImportStarAsSpecifier {
    ghost span_of = { λ x. x.span };

    fn span(&self) -> Span {
        self.span
    }
}

impl Spanned for ModuleExportName {
    ghost use Rattle.swc_ecma_parser_model.specs.Forms as model;
    ghost use Rattle.swc_ecma_parser_ast.specs.View.{view_module_export_name};

    ghost span_of = { λ x. model.span_of (view_module_export_name x) };

    fn span(&self) -> Span {
        match self {
            ModuleExportName::Ident(x) => x.span(),
            ModuleExportName::Str(x) => x.span(),
        }
    }
}
