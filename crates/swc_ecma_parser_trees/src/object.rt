//! Objects.

ghost use Rattle.std.specs.Prelude.{◌≡◌, IfOk, map};

use crate::function::BuildsFunction;
use crate::key::BuildsKey;
use std::alloc::{AllocError, Global};
use swc_ecma_parser_common::Span;
use swc_ecma_parser_model::Ident;

/// Makes objects and their parts, but methods: ECMA-262, section 13.2.5. Each function fails only where memory runs out, and spans are
/// in byte offsets.
pub trait BuildsObject: BuildsKey {
    ghost use Rattle.swc_ecma_parser_model.specs.Tree as tree;
    ghost use Rattle.swc_ecma_parser_model.specs.Tree.{Tree};

    /// A part of an object.
    type Prop: Drop;

    ghost prop_of: { Self.Prop → Tree };

    /// An object; the span covers its braces.
    fn object(alloc: Global, span: Span, props: Vec<Self::Prop>) -> Result<Self::Expr, AllocError>
        ensures { IfOk result (λ x. Self.expr_of x
            ≡ tree.object span (tree.listed (map prop_of props.items))) };

    /// `...`, which stands at `dots`, and what is spread.
    fn spread_prop(alloc: Global, dots: Span, expr: Self::Expr) -> Result<Self::Prop, AllocError>
        ensures { IfOk result (λ x. prop_of x ≡ tree.spread_prop dots (Self.expr_of expr)) };

    /// A name that is its own key.
    fn shorthand_prop(alloc: Global, ident: Ident) -> Result<Self::Prop, AllocError>
        ensures { IfOk result (λ x. prop_of x ≡ tree.shorthand_prop ident.span ident.sym) };

    /// A key with its value.
    fn key_value_prop(
        alloc: Global,
        span: Span,
        key: Self::Key,
        value: Self::Expr,
    ) -> Result<Self::Prop, AllocError>
        ensures { IfOk result (λ x. prop_of x
            ≡ tree.key_value_prop span (Self.key_of key) (Self.expr_of value)) };

    /// A name with a default, which only a pattern may have.
    fn assign_prop(
        alloc: Global,
        span: Span,
        key: Ident,
        value: Self::Expr,
    ) -> Result<Self::Prop, AllocError>
        ensures { IfOk result (λ x. prop_of x
            ≡ tree.assign_prop span (tree.ident key.span key.sym) (Self.expr_of value)) };
}

/// Makes methods of objects: ECMA-262, section 15.4. Each function fails only where memory runs out, and spans are in byte
/// offsets.
pub trait BuildsMethod: BuildsObject + BuildsFunction {
    ghost use Rattle.swc_ecma_parser_model.specs.Tree as tree;

    /// `get`: section 15.4.
    fn getter_prop(
        alloc: Global,
        span: Span,
        key: Self::Key,
        body: Self::Block,
    ) -> Result<Self::Prop, AllocError>
        ensures { IfOk result (λ x. Self.prop_of x
            ≡ tree.getter_prop span (Self.key_of key) (Self.block_of body)) };

    /// `set`: section 15.4.
    fn setter_prop(
        alloc: Global,
        span: Span,
        key: Self::Key,
        param: Self::Pat,
        body: Self::Block,
    ) -> Result<Self::Prop, AllocError>
        ensures { IfOk result (λ x. Self.prop_of x
            ≡ tree.setter_prop span (Self.key_of key) (Self.pat_of param) (Self.block_of body)) };

    /// A method: section 15.4.
    fn method_prop(
        alloc: Global,
        span: Span,
        key: Self::Key,
        function: Self::Function,
    ) -> Result<Self::Prop, AllocError>
        ensures { IfOk result (λ x. Self.prop_of x
            ≡ tree.method_prop span (Self.key_of key) (Self.function_of function)) };
}
