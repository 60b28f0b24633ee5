//! What stands in the place of a statement.

ghost use Rattle.std.specs.Prelude.{◌≡◌, IfOk, IfErr};
ghost use Rattle.swc_ecma_parser_error.specs.Kind.{IsOutOfMemory};

use std::alloc::Global;
use swc_ecma_parser_error::PResult;
use swc_ecma_parser_trees::{BuildsItem, Trees};

/// What can be a directive: section 11.2.1 of ECMA-262. Contracts see it as the tree that it holds.
pub trait IsDirective {
    ghost use Rattle.swc_ecma_parser_model.specs.Directive as directive;
    ghost use Rattle.swc_ecma_parser_model.specs.Tree.{Tree};

    /// What it holds: a statement, or what stands in the place of one.
    ghost held: { Self → Tree };

    /// Whether it is `'use strict'` or `"use strict"` as written, with no parentheses.
    fn is_use_strict(&self) -> bool
        ensures { result ≡ directive.is_use_strict (held self.now) };

    /// Whether a directive can stand behind it: it is a string literal alone, with no parentheses.
    fn can_precede_directive(&self) -> bool
        ensures { result ≡ directive.is_string_statement (held self.now) };
}

/// What can be made from a statement of the tree `T`. The value holds that statement, so it is a directive exactly where the
/// statement is one, and can precede one exactly where the statement can.
pub trait FromStmt<T: Trees>: IsDirective {
    /// The value that holds a statement; it fails only where memory runs out.
    fn from_stmt(alloc: Global, stmt: T::Stmt) -> PResult<Self>
        ensures holds { IfOk result (λ x. Self.held x ≡ T.stmt_of stmt) }
        ensures err { IfErr result IsOutOfMemory };
}

/// What can be made from an item of a module of the tree `T` too. The value holds that item.
pub trait FromItem<T: BuildsItem>: FromStmt<T> {
    /// The value that holds an item; it fails only where memory runs out.
    fn from_item(alloc: Global, item: T::Item) -> PResult<Self>
        ensures holds { IfOk result (λ x. Self.held x ≡ T.item_of item) }
        ensures err { IfErr result IsOutOfMemory };
}
