//! Patterns other than a name.

ghost use Rattle.std.specs.Prelude.{◌≡◌, IfOk, map, option_map};

use crate::Trees;
use crate::key::BuildsKey;
use std::alloc::{AllocError, Global};
use swc_ecma_parser_common::Span;
use swc_ecma_parser_model::Ident;

/// Makes patterns, of a binding or of an assignment, but objects: ECMA-262, sections 13.15.5 and 14.3.3. Each function that answers a
/// `Result` fails only where memory runs out, and spans are in byte offsets.
pub trait BuildsPattern: Trees {
    ghost use Rattle.swc_ecma_parser_model.specs.Forms as forms;
    ghost use Rattle.swc_ecma_parser_model.specs.Targets as targets;
    ghost use Rattle.swc_ecma_parser_model.specs.Tree as tree;
    ghost use Rattle.swc_ecma_parser_trees.specs.Parts as parts;

    /// An array pattern; a hole is `None`. The span covers its brackets.
    fn array_pat(
        alloc: Global,
        span: Span,
        elems: Vec<Option<Self::Pat>>,
    ) -> Result<Self::Pat, AllocError>
        ensures { IfOk result (λ x. Self.pat_of x
            ≡ tree.array_pat span (tree.listed (map (parts.part_of Self.pat_of) elems.items))) };

    /// `...` and what takes the rest.
    fn rest_pat(alloc: Global, span: Span, arg: Self::Pat) -> Result<Self::Pat, AllocError>
        ensures { IfOk result (λ x. Self.pat_of x ≡ tree.rest_pat span (Self.pat_of arg)) };

    /// A pattern with its default.
    fn assign_pat(
        alloc: Global,
        span: Span,
        left: Self::Pat,
        right: Self::Expr,
    ) -> Result<Self::Pat, AllocError>
        ensures { IfOk result (λ x. Self.pat_of x
            ≡ tree.assign_pat span (Self.pat_of left) (Self.expr_of right)) };

    /// An expression that a pattern assigns to.
    fn expr_pat(alloc: Global, expr: Self::Expr) -> Result<Self::Pat, AllocError>
        ensures { IfOk result (λ x. Self.pat_of x ≡ tree.expr_pat (Self.expr_of expr)) };

    /// An expression as what `=` assigns to; an array or an object becomes a pattern. None where it is no target.
    fn target(alloc: Global, expr: Self::Expr) -> Result<Option<Self::Pat>, AllocError>
        ensures { IfOk result
            (λ x. targets.as_target (Self.expr_of expr) ≡ option_map Self.pat_of x) };

    /// An expression as an element of such a pattern, with its default if it has one. None where it is no target.
    fn element(alloc: Global, expr: Self::Expr) -> Result<Option<Self::Pat>, AllocError>
        ensures { IfOk result
            (λ x. targets.as_element (Self.expr_of expr) ≡ option_map Self.pat_of x) };

    /// Whether names alone stand in a pattern where targets could, so that it binds what it would assign to.
    fn binds(pat: &Self::Pat) -> bool
        ensures { result ≡ targets.binds (Self.pat_of pat.now) };

    /// What stands where no pattern was read.
    fn invalid_pat(alloc: Global, span: Span) -> Result<Self::Pat, AllocError>
        ensures { IfOk result (λ x. Self.pat_of x ≡ tree.invalid_pat span) };

    /// Where a pattern stands.
    fn pat_span(pat: &Self::Pat) -> Span
        ensures { result ≡ forms.span_of (Self.pat_of pat.now) };

    /// Whether it is a plain name.
    fn is_binding_name(pat: &Self::Pat) -> bool
        ensures { result ≡ forms.is_binding_name (Self.pat_of pat.now) };

    /// Whether it is a plain name where it stands as a parameter.
    fn is_plain(pat: &Self::Pat) -> bool
        ensures { result ≡ forms.is_plain_param (Self.pat_of pat.now) };

    /// Whether it takes the rest.
    fn is_rest(pat: &Self::Pat) -> bool
        ensures { result ≡ forms.is_rest (Self.pat_of pat.now) };

    /// Whether it is an array or object pattern, which `=` takes as a whole.
    fn is_pattern_target(pat: &Self::Pat) -> bool
        ensures { result ≡ forms.is_pattern_target (Self.pat_of pat.now) };
}

/// Makes object patterns and their parts: ECMA-262, sections 13.15.5 and 14.3.3. Each function fails only where memory runs out,
/// and spans are in byte offsets.
pub trait BuildsObjectPat: BuildsKey {
    ghost use Rattle.swc_ecma_parser_model.specs.Tree as tree;
    ghost use Rattle.swc_ecma_parser_model.specs.Tree.{Tree};
    ghost use Rattle.swc_ecma_parser_trees.specs.Parts as parts;

    /// A part of an object pattern.
    type PatProp: Drop;

    ghost pat_prop_of: { Self.PatProp → Tree };

    /// An object pattern; the span covers its braces.
    fn object_pat(
        alloc: Global,
        span: Span,
        props: Vec<Self::PatProp>,
    ) -> Result<Self::Pat, AllocError>
        ensures { IfOk result (λ x. Self.pat_of x
            ≡ tree.object_pat span (tree.listed (map pat_prop_of props.items))) };

    /// A key with the pattern of its value.
    fn key_value_pat_prop(
        alloc: Global,
        span: Span,
        key: Self::Key,
        value: Self::Pat,
    ) -> Result<Self::PatProp, AllocError>
        ensures { IfOk result (λ x. pat_prop_of x
            ≡ tree.key_value_pat_prop span (Self.key_of key) (Self.pat_of value)) };

    /// A name that is its own key, with its default where it has one.
    fn assign_pat_prop(
        alloc: Global,
        span: Span,
        key: Ident,
        value: Option<Self::Expr>,
    ) -> Result<Self::PatProp, AllocError>
        ensures { IfOk result (λ x. pat_prop_of x
            ≡ tree.assign_pat_prop span (tree.ident_pat key.span key.sym) (parts.part_of Self.expr_of value)) };

    /// `...` in an object pattern, and what takes the rest.
    fn rest_pat_prop(alloc: Global, span: Span, arg: Self::Pat) -> Result<Self::PatProp, AllocError>
        ensures { IfOk result (λ x. pat_prop_of x ≡ tree.rest_pat span (Self.pat_of arg)) };
}
