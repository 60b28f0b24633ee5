//! Imports.

ghost use Rattle.std.specs.Prelude.{◌≡◌, IfOk, IfSome, is_some, map};

use crate::item::BuildsItem;
use crate::object::BuildsObject;
use std::alloc::{AllocError, Global};
use swc_ecma_parser_common::Span;
use swc_ecma_parser_model::{Ident, ImportPhase, Str};

/// Makes imports and their parts: ECMA-262, section 16.2.2. Each function fails only where memory runs out, and spans are
/// in byte offsets.
pub trait BuildsImport: BuildsItem + BuildsObject {
    ghost use Rattle.swc_ecma_parser_model.specs.Kinds as kinds;
    ghost use Rattle.swc_ecma_parser_model.specs.Tree as tree;
    ghost use Rattle.swc_ecma_parser_model.specs.Tree.{Tree};
    ghost use Rattle.swc_ecma_parser_trees.specs.Parts as parts;

    /// A name that is imported.
    type ImportSpecifier: Drop;

    /// The object behind `with`.
    type Attributes: Drop;

    ghost import_specifier_of: { Self.ImportSpecifier → Tree };

    ghost attributes_of: { Self.Attributes → Tree };

    /// An object as what stands behind `with`. None of another expression.
    fn attributes(object: Self::Expr) -> Option<Self::Attributes>
        ensures made { IfSome result (λ x. attributes_of x ≡ Self.expr_of object) }
        ensures found { is_some result ≡ kinds.is_object (Self.expr_of object) };

    /// A name in braces, with the one that it is exported by where that is written.
    fn import_named(
        alloc: Global,
        span: Span,
        local: Ident,
        imported: Option<Self::ModuleName>,
    ) -> Result<Self::ImportSpecifier, AllocError>
        ensures { IfOk result (λ x. import_specifier_of x
            ≡ tree.import_named span (tree.ident local.span local.sym) (parts.part_of Self.module_name_of imported)) };

    /// A name for what a module exports by default.
    fn import_default(
        alloc: Global,
        span: Span,
        local: Ident,
    ) -> Result<Self::ImportSpecifier, AllocError>
        ensures { IfOk result (λ x. import_specifier_of x
            ≡ tree.import_default span (tree.ident local.span local.sym)) };

    /// A name for all that a module exports.
    fn import_namespace(
        alloc: Global,
        span: Span,
        local: Ident,
    ) -> Result<Self::ImportSpecifier, AllocError>
        ensures { IfOk result (λ x. import_specifier_of x
            ≡ tree.import_namespace span (tree.ident local.span local.sym)) };

    /// An import.
    fn import(
        alloc: Global,
        span: Span,
        specifiers: Vec<Self::ImportSpecifier>,
        src: Str,
        attributes: Option<Self::Attributes>,
        phase: ImportPhase,
    ) -> Result<Self::Item, AllocError>
        ensures { IfOk result (λ x. Self.item_of x
            ≡ tree.import span (tree.listed (map import_specifier_of specifiers.items))
            (tree.str src.span src.value src.raw) (parts.part_of attributes_of attributes) phase) };
}
