//! Variables.

ghost use Rattle.std.specs.Prelude.{◌≡◌, IfOk, map};

use crate::Trees;
use std::alloc::{AllocError, Global};
use swc_ecma_parser_common::Span;
use swc_ecma_parser_model::VarDeclKind;

/// Makes names that are declared, and declarations of them: ECMA-262, sections 14.3.1 and 14.3.2. Each function that answers a
/// `Result` fails only where memory runs out, and spans are in byte offsets.
pub trait BuildsVariables: Trees {
    ghost use Rattle.swc_ecma_parser_model.specs.Forms as forms;
    ghost use Rattle.swc_ecma_parser_model.specs.Tree as tree;
    ghost use Rattle.swc_ecma_parser_model.specs.Tree.{Tree};
    ghost use Rattle.swc_ecma_parser_model.specs.Within as within;
    ghost use Rattle.swc_ecma_parser_trees.specs.Parts as parts;

    /// A name that is declared, with what it is given.
    type Declarator: Drop;

    ghost declarator_of: { Self.Declarator → Tree };

    /// A name that is declared, with or without its initializer.
    fn declarator(
        alloc: Global,
        span: Span,
        name: Self::Pat,
        init: Option<Self::Expr>,
    ) -> Result<Self::Declarator, AllocError>
        ensures { IfOk result (λ x. declarator_of x
            ≡ tree.declarator span (Self.pat_of name) (parts.part_of Self.expr_of init)) };

    /// A declaration of one or more names.
    fn var(
        alloc: Global,
        span: Span,
        kind: VarDeclKind,
        decls: Vec<Self::Declarator>,
    ) -> Result<Self::Stmt, AllocError>
        ensures { IfOk result (λ x. Self.stmt_of x
            ≡ tree.var span kind (tree.listed (map declarator_of decls.items))) };

    /// Where a declarator stands.
    fn declarator_span(declarator: &Self::Declarator) -> Span
        ensures { result ≡ forms.span_of (declarator_of declarator.now) };

    /// Where the name or pattern of a declarator stands.
    fn declared_span(declarator: &Self::Declarator) -> Span
        ensures { result ≡ forms.span_of (within.declared_name (declarator_of declarator.now)) };

    /// Whether a declarator declares a plain name, and no pattern.
    fn declares_name(declarator: &Self::Declarator) -> bool
        ensures { result
            ≡ forms.is_binding_name (within.declared_name (declarator_of declarator.now)) };

    /// Whether a declarator has an initializer.
    fn is_initialized(declarator: &Self::Declarator) -> bool
        ensures { result ≡ within.is_initialized (declarator_of declarator.now) };

    /// Whether an expression is `await` before this name, as before what `await using` declares.
    fn awaits_name(expr: &Self::Expr, name: &str) -> bool
        ensures { result ≡ forms.is_ident_named name.now (parts.awaited (Self.expr_of expr.now)) };
}
