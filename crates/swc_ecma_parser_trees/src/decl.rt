//! Declarations.

ghost use Rattle.std.specs.Prelude.{◌≡◌, IfOk, map};

use crate::class::BuildsClass;
use crate::function::BuildsFunction;
use crate::variables::BuildsVariables;
use std::alloc::{AllocError, Global};
use swc_ecma_parser_common::Span;
use swc_ecma_parser_model::{Ident, VarDeclKind};

/// Makes declarations, of functions: ECMA-262, section 15.2. Each function that answers a `Result` fails only where memory runs
/// out, and spans are in byte offsets.
pub trait BuildsDecl: BuildsFunction {
    ghost use Rattle.swc_ecma_parser_model.specs.Forms as forms;
    ghost use Rattle.swc_ecma_parser_model.specs.Tree as tree;
    ghost use Rattle.swc_ecma_parser_model.specs.Tree.{Tree};

    /// A declaration.
    type Decl: Drop;

    ghost decl_of: { Self.Decl → Tree };

    /// A function as a declaration.
    fn fn_decl(
        alloc: Global,
        name: Ident,
        function: Self::Function,
    ) -> Result<Self::Decl, AllocError>
        ensures { IfOk result (λ x. decl_of x
            ≡ tree.fn_decl (tree.ident name.span name.sym) (Self.function_of function)) };

    /// A declaration in the place of a statement.
    fn decl_stmt(alloc: Global, decl: Self::Decl) -> Result<Self::Stmt, AllocError>
        ensures { IfOk result (λ x. Self.stmt_of x ≡ decl_of decl) };

    /// Where a declaration stands.
    fn decl_span(decl: &Self::Decl) -> Span
        ensures { result ≡ forms.span_of (decl_of decl.now) };
}

/// Makes declarations of classes: ECMA-262, section 15.7. It fails only where memory runs out.
pub trait BuildsClassDecl: BuildsDecl + BuildsClass {
    ghost use Rattle.swc_ecma_parser_model.specs.Tree as tree;

    /// A class as a declaration.
    fn class_decl(alloc: Global, name: Ident, class: Self::Class) -> Result<Self::Decl, AllocError>
        ensures { IfOk result (λ x. Self.decl_of x
            ≡ tree.class_decl (tree.ident name.span name.sym) (Self.class_of class)) };
}

/// Makes declarations of variables: ECMA-262, section 14.3. Each function fails only where memory runs out, and spans are in
/// byte offsets.
pub trait BuildsVarDecl: BuildsDecl + BuildsVariables {
    ghost use Rattle.swc_ecma_parser_model.specs.Tree as tree;

    /// A declaration of variables.
    fn var_decl(
        alloc: Global,
        span: Span,
        kind: VarDeclKind,
        decls: Vec<Self::Declarator>,
    ) -> Result<Self::Decl, AllocError>
        ensures { IfOk result (λ x. Self.decl_of x
            ≡ tree.var span kind (tree.listed (map Self.declarator_of decls.items))) };

    /// A declaration of resources that are disposed of at the end of their block.
    fn using_decl(
        alloc: Global,
        span: Span,
        is_await: bool,
        decls: Vec<Self::Declarator>,
    ) -> Result<Self::Decl, AllocError>
        ensures { IfOk result (λ x. Self.decl_of x
            ≡ tree.using span is_await (tree.listed (map Self.declarator_of decls.items))) };
}
