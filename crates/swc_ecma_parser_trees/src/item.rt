//! Items of modules, and wholes.

ghost use Rattle.std.specs.Prelude.{◌≡◌, false, IfOk, map};

use crate::script::BuildsScript;
use std::alloc::{AllocError, Global};
use swc_ecma_parser_common::{Atom, Span};
use swc_ecma_parser_model::{Ident, Str};

/// Makes items of modules, and wholes of them: ECMA-262, chapter 16. Each function that answers a `Result` fails only
/// where memory runs out, and spans are in byte offsets.
pub trait BuildsItem: BuildsScript {
    ghost use Rattle.swc_ecma_parser_model.specs.Directive as directive;
    ghost use Rattle.swc_ecma_parser_model.specs.Forms as forms;
    ghost use Rattle.swc_ecma_parser_model.specs.Kinds as kinds;
    ghost use Rattle.swc_ecma_parser_model.specs.Tree as tree;
    ghost use Rattle.swc_ecma_parser_model.specs.Tree.{Tree};

    /// An import, an export or a statement.
    type Item: Drop;

    /// The name by which a module exports something.
    type ModuleName: Drop;

    /// A whole module.
    type Module: Drop;

    /// A whole script or module.
    type Program: Drop;

    ghost item_of: { Self.Item → Tree };

    ghost module_name_of: { Self.ModuleName → Tree };

    ghost module_of: { Self.Module → Tree };

    ghost program_of: { Self.Program → Tree };

    /// A statement as an item.
    fn stmt_item(alloc: Global, stmt: Self::Stmt) -> Result<Self::Item, AllocError>
        ensures { IfOk result (λ x. item_of x ≡ Self.stmt_of stmt) };

    /// The statement that an item is.
    fn item_stmt(item: Self::Item) -> Self::Stmt
        requires { kinds.is_module_decl (item_of item) ≡ false }
        ensures { Self.stmt_of result ≡ item_of item };

    /// A name that is a word.
    fn word_name(alloc: Global, ident: Ident) -> Result<Self::ModuleName, AllocError>
        ensures { IfOk result (λ x. module_name_of x ≡ tree.ident ident.span ident.sym) };

    /// A name that is a string.
    fn str_name(alloc: Global, str: Str) -> Result<Self::ModuleName, AllocError>
        ensures { IfOk result (λ x. module_name_of x ≡ tree.str str.span str.value str.raw) };

    /// A whole module, with the text of a first line `#!` behind these two.
    fn module(span: Span, body: Vec<Self::Item>, shebang: Option<Atom>) -> Self::Module
        ensures { module_of result
            ≡ tree.module_program span (tree.listed (map item_of body.items)) shebang };

    /// A script as a whole of either kind.
    fn script_program(script: Self::Script) -> Self::Program
        ensures { program_of result ≡ Self.script_of script };

    /// A module as a whole of either kind.
    fn module_program(whole: Self::Module) -> Self::Program
        ensures { program_of result ≡ module_of whole };

    /// Where an item stands.
    fn item_span(item: &Self::Item) -> Span
        ensures { result ≡ forms.span_of (item_of item.now) };

    /// Whether it is an import or an export.
    fn is_module_decl(item: &Self::Item) -> bool
        ensures { result ≡ kinds.is_module_decl (item_of item.now) };

    /// Whether it is `'use strict'` or `"use strict"` as written, with no parentheses: section 11.2.1.
    fn is_use_strict_item(item: &Self::Item) -> bool
        ensures { result ≡ directive.is_use_strict (item_of item.now) };

    /// Whether it is a string literal alone, with no parentheses: section 11.2.1.
    fn is_string_item(item: &Self::Item) -> bool
        ensures { result ≡ directive.is_string_statement (item_of item.now) };
}
