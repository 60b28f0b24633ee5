ghost use Rattle.std.specs.Prelude.{◌≡◌, IfOk, map};
ghost use Rattle.swc_ecma_parser_ast.specs.View.{view_import_specifier, view_module_export_name, view_module_item, view_object_lit};

use crate::Ast;
use std::alloc::{AllocError, Global};
use swc_ecma_parser_ast::{
    Ident, ImportDecl, ImportDefaultSpecifier, ImportNamedSpecifier, ImportPhase, ImportSpecifier,
    ImportStarAsSpecifier, ModuleDecl, ModuleExportName, ModuleItem, ObjectLit, Span, Str,
};
use swc_ecma_parser_ast_parts::made::Made;
use swc_ecma_parser_ast_parts::objects::as_object;
use swc_ecma_parser_trees::BuildsImport;

impl BuildsImport for Ast {
    ghost use Rattle.swc_ecma_parser_model.specs.Tree as tree;
    ghost use Rattle.swc_ecma_parser_trees.specs.Parts as parts;

    type ImportSpecifier = ImportSpecifier;

    type Attributes = ObjectLit;

    ghost import_specifier_of = { view_import_specifier };

    ghost attributes_of = { view_object_lit };

    fn attributes(object: Made) -> Option<ObjectLit> {
        as_object(object.into_inner())
    }

    fn import_named(
        alloc: Global,
        span: Span,
        local: Ident,
        imported: Option<ModuleExportName>,
    ) -> Result<ImportSpecifier, AllocError>
        ensures { IfOk result (λ x. view_import_specifier x
            ≡ tree.import_named span (tree.ident local.span local.sym) (parts.part_of view_module_export_name imported)) }
    {
        Ok(ImportSpecifier::Named(ImportNamedSpecifier {
            span,
            local,
            imported,
        }))
    }

    fn import_default(
        alloc: Global,
        span: Span,
        local: Ident,
    ) -> Result<ImportSpecifier, AllocError> {
        Ok(ImportSpecifier::Default(ImportDefaultSpecifier { span, local }))
    }

    fn import_namespace(
        alloc: Global,
        span: Span,
        local: Ident,
    ) -> Result<ImportSpecifier, AllocError> {
        Ok(ImportSpecifier::Namespace(ImportStarAsSpecifier { span, local }))
    }

    fn import(
        alloc: Global,
        span: Span,
        specifiers: Vec<ImportSpecifier>,
        src: Str,
        attributes: Option<ObjectLit>,
        phase: ImportPhase,
    ) -> Result<ModuleItem, AllocError>
        ensures { IfOk result (λ x. view_module_item x
            ≡ tree.import span (tree.listed (map view_import_specifier specifiers.items))
            (tree.str src.span src.value src.raw) (parts.part_of view_object_lit attributes) phase) }
    {
        Ok(ModuleItem::ModuleDecl(ModuleDecl::Import(ImportDecl {
            span,
            specifiers,
            src,
            with: attributes,
            phase,
        })))
    }
}
