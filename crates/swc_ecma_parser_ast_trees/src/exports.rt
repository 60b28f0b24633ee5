ghost use Rattle.std.specs.Prelude.{◌≡◌, Some, IfOk, map};
ghost use Rattle.swc_ecma_parser_ast.specs.View.{view_default_decl, view_export_specifier, view_module_export_name, view_module_item, view_object_lit};
ghost use Rattle.swc_ecma_parser_model.specs.Forms as forms;
ghost use Rattle.swc_ecma_parser_model.specs.Kinds as kinds;

use crate::Ast;
use std::alloc::{AllocError, Global};
use swc_ecma_parser_ast::{
    Class, ClassExpr, Decl, DefaultDecl, ExportAll, ExportDecl, ExportDefaultDecl,
    ExportDefaultExpr, ExportDefaultSpecifier, ExportNamedSpecifier, ExportNamespaceSpecifier,
    ExportSpecifier, FnExpr, Function, Ident, ModuleDecl, ModuleExportName, ModuleItem,
    NamedExport, ObjectLit, Span, Spanned, Str,
};
use swc_ecma_parser_ast_parts::made::Made;
use swc_ecma_parser_trees::BuildsExport;

impl BuildsExport for Ast {
    ghost use Rattle.swc_ecma_parser_model.specs.Tree as tree;
    ghost use Rattle.swc_ecma_parser_trees.specs.Parts as parts;

    type ExportSpecifier = ExportSpecifier;

    type DefaultDecl = DefaultDecl;

    ghost export_specifier_of = { view_export_specifier };

    ghost default_decl_of = { view_default_decl };

    fn export_namespace(
        alloc: Global,
        span: Span,
        name: ModuleExportName,
    ) -> Result<ExportSpecifier, AllocError> {
        Ok(ExportSpecifier::Namespace(ExportNamespaceSpecifier { span, name }))
    }

    fn export_default(alloc: Global, exported: Ident) -> Result<ExportSpecifier, AllocError> {
        Ok(ExportSpecifier::Default(ExportDefaultSpecifier { exported }))
    }

    fn export_specifier(
        alloc: Global,
        span: Span,
        orig: ModuleExportName,
        exported: Option<ModuleExportName>,
    ) -> Result<ExportSpecifier, AllocError>
        ensures { IfOk result (λ x. view_export_specifier x
            ≡ tree.export_specifier span (view_module_export_name orig) (parts.part_of view_module_export_name exported)) }
    {
        Ok(ExportSpecifier::Named(ExportNamedSpecifier {
            span,
            orig,
            exported,
        }))
    }

    fn export_named(
        alloc: Global,
        span: Span,
        specifiers: Vec<ExportSpecifier>,
        src: Option<Str>,
        attributes: Option<ObjectLit>,
    ) -> Result<ModuleItem, AllocError>
        ensures { IfOk result (λ x. view_module_item x
            ≡ tree.export_named span (tree.listed (map view_export_specifier specifiers.items))
            (parts.part_of (λ s. tree.str s.span s.value s.raw) src) (parts.part_of view_object_lit attributes)) }
    {
        Ok(ModuleItem::ModuleDecl(ModuleDecl::ExportNamed(NamedExport {
            span,
            specifiers,
            src,
            with: attributes,
        })))
    }

    fn export_all(
        alloc: Global,
        span: Span,
        src: Str,
        attributes: Option<ObjectLit>,
    ) -> Result<ModuleItem, AllocError>
        ensures { IfOk result (λ x. view_module_item x
            ≡ tree.export_all span (tree.str src.span src.value src.raw) (parts.part_of view_object_lit attributes)) }
    {
        Ok(ModuleItem::ModuleDecl(ModuleDecl::ExportAll(ExportAll {
            span,
            src,
            with: attributes,
        })))
    }

    fn export_decl(alloc: Global, span: Span, decl: Decl) -> Result<ModuleItem, AllocError> {
        let export = ModuleDecl::ExportDecl(ExportDecl { span, decl });
        Ok(ModuleItem::ModuleDecl(export))
    }

    fn default_fn(
        alloc: Global,
        span: Span,
        name: Option<Ident>,
        function: Box<Function>,
    ) -> Result<DefaultDecl, AllocError> {
        Ok(DefaultDecl::Fn(FnExpr {
            span,
            ident: name,
            function,
        }))
    }

    fn default_class(
        alloc: Global,
        span: Span,
        name: Option<Ident>,
        class: Box<Class>,
    ) -> Result<DefaultDecl, AllocError> {
        Ok(DefaultDecl::Class(ClassExpr {
            span,
            ident: name,
            class,
        }))
    }

    fn export_default_decl(
        alloc: Global,
        span: Span,
        decl: DefaultDecl,
    ) -> Result<ModuleItem, AllocError> {
        let export = ModuleDecl::ExportDefaultDecl(ExportDefaultDecl { span, decl });
        Ok(ModuleItem::ModuleDecl(export))
    }

    fn export_default_expr(
        alloc: Global,
        span: Span,
        expr: Made,
    ) -> Result<ModuleItem, AllocError> {
        let expr = expr.into_handle();
        let export = ModuleDecl::ExportDefaultExpr(ExportDefaultExpr { span, expr });
        Ok(ModuleItem::ModuleDecl(export))
    }

    fn is_export_namespace(specifier: &ExportSpecifier) -> bool {
        match specifier {
            ExportSpecifier::Namespace(_) => true,
            _ => false,
        }
    }

    fn is_export_default(specifier: &ExportSpecifier) -> bool {
        match specifier {
            ExportSpecifier::Default(_) => true,
            _ => false,
        }
    }

    fn export_span(specifier: &ExportSpecifier) -> Span {
        specifier.span()
    }

    fn export_name_span(specifier: &ExportSpecifier) -> Span {
        match specifier {
            ExportSpecifier::Namespace(x) => x.name.span(),
            ExportSpecifier::Default(x) => x.exported.span,
            ExportSpecifier::Named(x) => x.orig.span(),
        }
    }

    fn is_str_export(specifier: &ExportSpecifier) -> bool {
        match specifier {
            ExportSpecifier::Namespace(x) => is_str(&x.name),
            ExportSpecifier::Default(_) => false,
            ExportSpecifier::Named(x) => is_str(&x.orig),
        }
    }

    fn export_text(specifier: &ExportSpecifier) -> &str {
        match specifier {
            ExportSpecifier::Namespace(x) => text(&x.name),
            ExportSpecifier::Default(x) => x.exported.sym.as_str(),
            ExportSpecifier::Named(x) => text(&x.orig),
        }
    }

    fn is_named(decl: &DefaultDecl) -> bool {
        match decl {
            DefaultDecl::Fn(x) => x.ident.is_some(),
            DefaultDecl::Class(x) => x.ident.is_some(),
        }
    }
}

/// Whether a name is a string.
fn is_str(name: &ModuleExportName) -> bool
    ensures { result ≡ kinds.is_str (view_module_export_name name.now) }
{
    match name {
        ModuleExportName::Str(_) => true,
        ModuleExportName::Ident(_) => false,
    }
}

/// What a name says.
fn text(name: &ModuleExportName) -> &str
    ensures { Some result.now ≡ forms.key_text (view_module_export_name name.now) }
{
    match name {
        ModuleExportName::Str(x) => x.value.as_str(),
        ModuleExportName::Ident(x) => x.sym.as_str(),
    }
}
