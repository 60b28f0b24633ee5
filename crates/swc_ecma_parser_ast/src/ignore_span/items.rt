//! Imports, exports and wholes compared but for their spans.

ghost use Rattle.std.specs.Prelude.{◌≡◌, Bool};
ghost use Rattle.swc_ecma_parser_ast.specs.Like.{any_span, like_default_decl, like_export_all, like_export_decl, like_export_default_decl, like_export_default_expr, like_export_default_specifier, like_export_named_specifier, like_export_namespace_specifier, like_export_specifier, like_import_decl, like_import_default_specifier, like_import_named_specifier, like_import_specifier, like_import_star_as_specifier, like_module, like_module_decl, like_module_export_name, like_module_item, like_named_export, like_program, like_script};

use crate::exports::{
    DefaultDecl, ExportAll, ExportDecl, ExportDefaultDecl, ExportDefaultExpr,
    ExportDefaultSpecifier, ExportNamedSpecifier, ExportNamespaceSpecifier, ExportSpecifier,
    NamedExport,
};
use crate::ignore_span::EqIgnoreSpan;
use crate::imports::{
    ImportDecl, ImportDefaultSpecifier, ImportNamedSpecifier, ImportSpecifier,
    ImportStarAsSpecifier, ModuleExportName,
};
use crate::program::{Module, ModuleDecl, ModuleItem, Program};
use crate::script::Script;

impl<N: EqIgnoreSpan> EqIgnoreSpan for ExportDecl<N> {
    ghost like = { like_export_decl any_span N.like };

    fn eq_ignore_span(&self, other: &ExportDecl<N>) -> bool {
        self.decl.eq_ignore_span(&other.decl)
    }
}

impl<N: EqIgnoreSpan> EqIgnoreSpan for NamedExport<N> {
    ghost like = { like_named_export any_span N.like };

    fn eq_ignore_span(&self, other: &NamedExport<N>) -> bool {
        self.specifiers.eq_ignore_span(&other.specifiers)
            && self.src.eq_ignore_span(&other.src)
            && self.with.eq_ignore_span(&other.with)
    }
}

impl<N: EqIgnoreSpan> EqIgnoreSpan for ExportDefaultDecl<N> {
    ghost like = { like_export_default_decl any_span N.like };

    fn eq_ignore_span(&self, other: &ExportDefaultDecl<N>) -> bool {
        self.decl.eq_ignore_span(&other.decl)
    }
}

impl<N: EqIgnoreSpan> EqIgnoreSpan for DefaultDecl<N> {
    ghost like = { like_default_decl any_span N.like };

    fn eq_ignore_span(&self, other: &DefaultDecl<N>) -> bool {
        are_like_forms!(self, other, DefaultDecl: Class Fn)
    }
}

impl<N: EqIgnoreSpan> EqIgnoreSpan for ExportDefaultExpr<N> {
    ghost like = { like_export_default_expr any_span N.like };

    fn eq_ignore_span(&self, other: &ExportDefaultExpr<N>) -> bool {
        self.expr.eq_ignore_span(&other.expr)
    }
}

impl<N: EqIgnoreSpan> EqIgnoreSpan for ExportAll<N> {
    ghost like = { like_export_all any_span N.like };

    fn eq_ignore_span(&self, other: &ExportAll<N>) -> bool {
        self.src.eq_ignore_span(&other.src) && self.with.eq_ignore_span(&other.with)
    }
}

impl EqIgnoreSpan for ExportSpecifier {
    ghost like = { like_export_specifier any_span };

    fn eq_ignore_span(&self, other: &ExportSpecifier) -> bool {
        are_like_forms!(self, other, ExportSpecifier: Namespace Default Named)
    }
}

impl EqIgnoreSpan for ExportNamespaceSpecifier {
    ghost like = { like_export_namespace_specifier any_span };

    fn eq_ignore_span(&self, other: &ExportNamespaceSpecifier) -> bool {
        self.name.eq_ignore_span(&other.name)
    }
}

impl EqIgnoreSpan for ExportDefaultSpecifier {
    ghost like = { like_export_default_specifier any_span };

    fn eq_ignore_span(&self, other: &ExportDefaultSpecifier) -> bool {
        self.exported.eq_ignore_span(&other.exported)
    }
}

impl EqIgnoreSpan for ExportNamedSpecifier {
    ghost like = { like_export_named_specifier any_span };

    fn eq_ignore_span(&self, other: &ExportNamedSpecifier) -> bool {
        self.orig.eq_ignore_span(&other.orig) && self.exported.eq_ignore_span(&other.exported)
    }
}

impl<N: EqIgnoreSpan> EqIgnoreSpan for ImportDecl<N> {
    ghost like = { like_import_decl any_span N.like };

    fn eq_ignore_span(&self, other: &ImportDecl<N>) -> bool {
        self.specifiers.eq_ignore_span(&other.specifiers)
            && self.src.eq_ignore_span(&other.src)
            && self.with.eq_ignore_span(&other.with)
            && self.phase.eq_ignore_span(&other.phase)
    }
}

impl EqIgnoreSpan for ImportSpecifier {
    ghost like = { like_import_specifier any_span };

    fn eq_ignore_span(&self, other: &ImportSpecifier) -> bool {
        are_like_forms!(self, other, ImportSpecifier: Named Default Namespace)
    }
}

impl EqIgnoreSpan for ImportNamedSpecifier {
    ghost like = { like_import_named_specifier any_span };

    fn eq_ignore_span(&self, other: &ImportNamedSpecifier) -> bool {
        self.local.eq_ignore_span(&other.local) && self.imported.eq_ignore_span(&other.imported)
    }
}

impl EqIgnoreSpan for ImportDefaultSpecifier {
    ghost like = { like_import_default_specifier any_span };

    fn eq_ignore_span(&self, other: &ImportDefaultSpecifier) -> bool {
        self.local.eq_ignore_span(&other.local)
    }
}

impl EqIgnoreSpan for ImportStarAsSpecifier {
    ghost like = { like_import_star_as_specifier any_span };

    fn eq_ignore_span(&self, other: &ImportStarAsSpecifier) -> bool {
        self.local.eq_ignore_span(&other.local)
    }
}

impl EqIgnoreSpan for ModuleExportName {
    ghost like = { like_module_export_name any_span };

    fn eq_ignore_span(&self, other: &ModuleExportName) -> bool {
        are_like_forms!(self, other, ModuleExportName: Ident Str)
    }
}

impl<N: EqIgnoreSpan> EqIgnoreSpan for Program<N> {
    ghost like = { like_program any_span N.like };

    fn eq_ignore_span(&self, other: &Program<N>) -> bool {
        are_like_forms!(self, other, Program: Module Script)
    }
}

impl<N: EqIgnoreSpan> EqIgnoreSpan for Module<N> {
    ghost like = { like_module any_span N.like };

    fn eq_ignore_span(&self, other: &Module<N>) -> bool {
        self.body.eq_ignore_span(&other.body) && self.shebang.eq_ignore_span(&other.shebang)
    }
}

impl<N: EqIgnoreSpan> EqIgnoreSpan for ModuleItem<N> {
    ghost like = { like_module_item any_span N.like };

    fn eq_ignore_span(&self, other: &ModuleItem<N>) -> bool {
        are_like_forms!(self, other, ModuleItem: ModuleDecl Stmt)
    }
}

impl<N: EqIgnoreSpan> EqIgnoreSpan for ModuleDecl<N> {
    ghost like = { like_module_decl any_span N.like };

    fn eq_ignore_span(&self, other: &ModuleDecl<N>) -> bool {
        are_like_forms!(self, other, ModuleDecl: Import ExportDecl ExportNamed ExportDefaultDecl
            ExportDefaultExpr ExportAll)
    }
}

impl<N: EqIgnoreSpan> EqIgnoreSpan for Script<N> {
    ghost like = { like_script any_span N.like };

    fn eq_ignore_span(&self, other: &Script<N>) -> bool {
        self.body.eq_ignore_span(&other.body) && self.shebang.eq_ignore_span(&other.shebang)
    }
}
