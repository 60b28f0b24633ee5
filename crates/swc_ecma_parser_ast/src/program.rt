ghost use Rattle.std.specs.Prelude.{◌≡◌};

use crate::exports::{ExportAll, ExportDecl, ExportDefaultDecl, ExportDefaultExpr, NamedExport};
use crate::imports::ImportDecl;
use crate::node::Node;
use crate::script::Script;
use crate::stmt::Stmt;
use swc_ecma_parser_common::{Atom, Span, Spanned};

/// A whole text, as a module or a script (ECMA-262, 16).
#[derive(Debug, PartialEq, Eq, Drop)]
pub enum Program<N = Node> {
    Module(Module<N>),
    Script(Script<N>),
}

/// A whole module; `shebang` is what follows `#!` in a first line that begins so (ECMA-262, 16.2).
#[derive(Debug, PartialEq, Eq, Drop)]
pub struct Module<N = Node> {
    pub span: Span,
    pub body: Vec<ModuleItem<N>>,
    pub shebang: Option<Atom>,
}

/// An item of a module (ECMA-262, 16.2).
#[derive(Debug, PartialEq, Eq, Drop)]
pub enum ModuleItem<N = Node> {
    ModuleDecl(ModuleDecl<N>),
    Stmt(Stmt<N>),
}

/// An import or an export (ECMA-262, 16.2.2 and 16.2.3).
#[derive(Debug, PartialEq, Eq, Drop)]
pub enum ModuleDecl<N = Node> {
    Import(ImportDecl<N>),
    ExportDecl(ExportDecl<N>),
    ExportNamed(NamedExport<N>),
    ExportDefaultDecl(ExportDefaultDecl<N>),
    ExportDefaultExpr(ExportDefaultExpr<N>),
    ExportAll(ExportAll<N>),
}

impl Spanned for Program {
    ghost use Rattle.swc_ecma_parser_model.specs.Forms as model;
    ghost use Rattle.swc_ecma_parser_ast.specs.View.{view_program};

    ghost span_of = { λ x. model.span_of (view_program x) };

    fn span(&self) -> Span {
        match self {
            Program::Module(x) => x.span(),
            Program::Script(x) => x.span(),
        }
    }
}

impl<N> Spanned for Module<N> {
    ghost span_of = { λ x. x.span };

    fn span(&self) -> Span {
        self.span
    }
}

impl Spanned for ModuleItem {
    ghost use Rattle.swc_ecma_parser_model.specs.Forms as model;
    ghost use Rattle.swc_ecma_parser_ast.specs.View.{view_module_item};

    ghost span_of = { λ x. model.span_of (view_module_item x) };

    fn span(&self) -> Span {
        match self {
            ModuleItem::ModuleDecl(x) => x.span(),
            ModuleItem::Stmt(x) => x.span(),
        }
    }
}

impl Spanned for ModuleDecl {
    ghost use Rattle.swc_ecma_parser_model.specs.Forms as model;
    ghost use Rattle.swc_ecma_parser_ast.specs.View.{view_module_decl};

    ghost span_of = { λ x. model.span_of (view_module_decl x) };

    fn span(&self) -> Span {
        match self {
            ModuleDecl::Import(x) => x.span(),
            ModuleDecl::ExportDecl(x) => x.span(),
            ModuleDecl::ExportNamed(x) => x.span(),
            ModuleDecl::ExportDefaultDecl(x) => x.span(),
            ModuleDecl::ExportDefaultExpr(x) => x.span(),
            ModuleDecl::ExportAll(x) => x.span(),
        }
    }
}
