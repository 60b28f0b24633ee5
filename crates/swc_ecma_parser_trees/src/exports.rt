//! Exports.

ghost use Rattle.std.specs.Prelude.{◌≡◌, Some, IfOk, map};

use crate::class::BuildsClass;
use crate::decl::BuildsDecl;
use crate::imports::BuildsImport;
use std::alloc::{AllocError, Global};
use swc_ecma_parser_common::Span;
use swc_ecma_parser_model::{Ident, Str};

/// Makes exports and their parts: ECMA-262, section 16.2.3. Each function that answers a `Result` fails only where memory
/// runs out, and spans are in byte offsets.
pub trait BuildsExport: BuildsImport + BuildsDecl + BuildsClass {
    ghost use Rattle.swc_ecma_parser_model.specs.Forms as forms;
    ghost use Rattle.swc_ecma_parser_model.specs.Kinds as kinds;
    ghost use Rattle.swc_ecma_parser_model.specs.Tree as tree;
    ghost use Rattle.swc_ecma_parser_model.specs.Tree.{Tree};
    ghost use Rattle.swc_ecma_parser_model.specs.Within as within;
    ghost use Rattle.swc_ecma_parser_trees.specs.Parts as parts;

    /// A name that is exported.
    type ExportSpecifier: Drop;

    /// A function or class that is exported by default.
    type DefaultDecl: Drop;

    ghost export_specifier_of: { Self.ExportSpecifier → Tree };

    ghost default_decl_of: { Self.DefaultDecl → Tree };

    /// A name for all that another module exports.
    fn export_namespace(
        alloc: Global,
        span: Span,
        name: Self::ModuleName,
    ) -> Result<Self::ExportSpecifier, AllocError>
        ensures { IfOk result (λ x. export_specifier_of x
            ≡ tree.export_namespace span (Self.module_name_of name)) };

    /// A name for what another module exports by default.
    fn export_default(alloc: Global, exported: Ident) -> Result<Self::ExportSpecifier, AllocError>
        ensures { IfOk result (λ x. export_specifier_of x
            ≡ tree.export_default (tree.ident exported.span exported.sym)) };

    /// A name in braces, with the one that it is exported by where that is written.
    fn export_specifier(
        alloc: Global,
        span: Span,
        orig: Self::ModuleName,
        exported: Option<Self::ModuleName>,
    ) -> Result<Self::ExportSpecifier, AllocError>
        ensures { IfOk result (λ x. export_specifier_of x
            ≡ tree.export_specifier span (Self.module_name_of orig) (parts.part_of Self.module_name_of exported)) };

    /// Exported names, of this module or of another.
    fn export_named(
        alloc: Global,
        span: Span,
        specifiers: Vec<Self::ExportSpecifier>,
        src: Option<Str>,
        attributes: Option<Self::Attributes>,
    ) -> Result<Self::Item, AllocError>
        ensures { IfOk result (λ x. Self.item_of x
            ≡ tree.export_named span (tree.listed (map export_specifier_of specifiers.items))
            (parts.part_of (λ s. tree.str s.span s.value s.raw) src) (parts.part_of Self.attributes_of attributes)) };

    /// All names of another module.
    fn export_all(
        alloc: Global,
        span: Span,
        src: Str,
        attributes: Option<Self::Attributes>,
    ) -> Result<Self::Item, AllocError>
        ensures { IfOk result (λ x. Self.item_of x
            ≡ tree.export_all span (tree.str src.span src.value src.raw) (parts.part_of Self.attributes_of attributes)) };

    /// An exported declaration.
    fn export_decl(alloc: Global, span: Span, decl: Self::Decl) -> Result<Self::Item, AllocError>
        ensures { IfOk result (λ x. Self.item_of x ≡ tree.export_decl span (Self.decl_of decl)) };

    /// A function, with or without a name, that is exported by default.
    fn default_fn(
        alloc: Global,
        span: Span,
        name: Option<Ident>,
        function: Self::Function,
    ) -> Result<Self::DefaultDecl, AllocError>
        ensures { IfOk result (λ x. default_decl_of x
            ≡ tree.fn_expr span (parts.part_of (λ n. tree.ident n.span n.sym) name) (Self.function_of function)) };

    /// A class, with or without a name, that is exported by default.
    fn default_class(
        alloc: Global,
        span: Span,
        name: Option<Ident>,
        class: Self::Class,
    ) -> Result<Self::DefaultDecl, AllocError>
        ensures { IfOk result (λ x. default_decl_of x
            ≡ tree.class_expr span (parts.part_of (λ n. tree.ident n.span n.sym) name) (Self.class_of class)) };

    /// A function or class that is exported by default.
    fn export_default_decl(
        alloc: Global,
        span: Span,
        decl: Self::DefaultDecl,
    ) -> Result<Self::Item, AllocError>
        ensures { IfOk result
            (λ x. Self.item_of x ≡ tree.export_default_decl span (default_decl_of decl)) };

    /// An expression that is exported by default.
    fn export_default_expr(
        alloc: Global,
        span: Span,
        expr: Self::Expr,
    ) -> Result<Self::Item, AllocError>
        ensures { IfOk result
            (λ x. Self.item_of x ≡ tree.export_default_expr span (Self.expr_of expr)) };

    /// Whether it names all that another module exports.
    fn is_export_namespace(specifier: &Self::ExportSpecifier) -> bool
        ensures { result ≡ within.is_export_namespace (export_specifier_of specifier.now) };

    /// Whether it names what another module exports by default.
    fn is_export_default(specifier: &Self::ExportSpecifier) -> bool
        ensures { result ≡ within.is_export_default (export_specifier_of specifier.now) };

    /// Where an exported name stands.
    fn export_span(specifier: &Self::ExportSpecifier) -> Span
        ensures { result ≡ forms.span_of (export_specifier_of specifier.now) };

    /// Where its first name stands.
    fn export_name_span(specifier: &Self::ExportSpecifier) -> Span
        ensures { result ≡ forms.span_of (within.export_name (export_specifier_of specifier.now)) };

    /// Whether its first name is a string.
    fn is_str_export(specifier: &Self::ExportSpecifier) -> bool
        ensures { result ≡ kinds.is_str (within.export_name (export_specifier_of specifier.now)) };

    /// What its first name says.
    fn export_text(specifier: &Self::ExportSpecifier) -> &str
        ensures { Some result.now ≡ within.export_text (export_specifier_of specifier.now) };

    /// Whether a function or class has a name.
    fn is_named(decl: &Self::DefaultDecl) -> bool
        ensures { result ≡ forms.has_name (default_decl_of decl.now) };
}
