//! Classes.

ghost use Rattle.std.specs.Prelude.{◌≡◌, IfOk, map};

use crate::function::BuildsFunction;
use crate::key::BuildsKey;
use std::alloc::{AllocError, Global};
use swc_ecma_parser_common::Span;
use swc_ecma_parser_model::{Ident, MethodKind, PrivateName};

/// Makes classes and their members: ECMA-262, section 15.7. Each function that answers a `Result` fails only where memory
/// runs out, and spans are in byte offsets.
pub trait BuildsClass: BuildsKey + BuildsFunction {
    ghost use Rattle.swc_ecma_parser_model.specs.Forms as forms;
    ghost use Rattle.swc_ecma_parser_model.specs.Tree as tree;
    ghost use Rattle.swc_ecma_parser_model.specs.Tree.{Tree};
    ghost use Rattle.swc_ecma_parser_trees.specs.Parts as parts;

    /// A member of a class.
    type Member: Drop;

    /// A class without its name.
    type Class: Drop;

    ghost member_of: { Self.Member → Tree };

    ghost class_of: { Self.Class → Tree };

    /// A constructor.
    fn constructor(
        alloc: Global,
        span: Span,
        key: Self::Key,
        params: Vec<Self::Param>,
        body: Self::Block,
    ) -> Result<Self::Member, AllocError>
        ensures { IfOk result (λ x. member_of x
            ≡ tree.constructor span (Self.key_of key) (tree.listed (map Self.param_of params.items)) (Self.block_of body)) };

    /// A method, a getter or a setter.
    fn method(
        alloc: Global,
        span: Span,
        key: Self::Key,
        function: Self::Function,
        kind: MethodKind,
        is_static: bool,
    ) -> Result<Self::Member, AllocError>
        ensures { IfOk result (λ x. member_of x
            ≡ tree.method span (Self.key_of key) (Self.function_of function) kind is_static) };

    /// A method, a getter or a setter with a private name.
    fn private_method(
        alloc: Global,
        span: Span,
        key: PrivateName,
        function: Self::Function,
        kind: MethodKind,
        is_static: bool,
    ) -> Result<Self::Member, AllocError>
        ensures { IfOk result (λ x. member_of x
            ≡ tree.private_method span (tree.private_name key.span key.id.span key.id.sym) (Self.function_of function) kind is_static) };

    /// A field.
    fn class_prop(
        alloc: Global,
        span: Span,
        key: Self::Key,
        value: Option<Self::Expr>,
        is_static: bool,
        decorators: Vec<Self::Decorator>,
    ) -> Result<Self::Member, AllocError>
        ensures { IfOk result (λ x. member_of x
            ≡ tree.class_prop span (Self.key_of key) (parts.part_of Self.expr_of value) is_static
            (tree.listed (map Self.decorator_of decorators.items))) };

    /// A field with a private name.
    fn private_prop(
        alloc: Global,
        span: Span,
        key: PrivateName,
        value: Option<Self::Expr>,
        is_static: bool,
        decorators: Vec<Self::Decorator>,
    ) -> Result<Self::Member, AllocError>
        ensures { IfOk result (λ x. member_of x
            ≡ tree.private_prop span (tree.private_name key.span key.id.span key.id.sym) (parts.part_of Self.expr_of value) is_static
            (tree.listed (map Self.decorator_of decorators.items))) };

    /// A field with a getter and a setter.
    fn auto_accessor(
        alloc: Global,
        span: Span,
        key: Self::Key,
        value: Option<Self::Expr>,
        is_static: bool,
        decorators: Vec<Self::Decorator>,
    ) -> Result<Self::Member, AllocError>
        ensures { IfOk result (λ x. member_of x
            ≡ tree.auto_accessor span (Self.key_of key) (parts.part_of Self.expr_of value) is_static
            (tree.listed (map Self.decorator_of decorators.items))) };

    /// A field with a getter and a setter and a private name.
    fn private_auto_accessor(
        alloc: Global,
        span: Span,
        key: PrivateName,
        value: Option<Self::Expr>,
        is_static: bool,
        decorators: Vec<Self::Decorator>,
    ) -> Result<Self::Member, AllocError>
        ensures { IfOk result (λ x. member_of x
            ≡ tree.auto_accessor span (tree.private_name key.span key.id.span key.id.sym) (parts.part_of Self.expr_of value) is_static
            (tree.listed (map Self.decorator_of decorators.items))) };

    /// A block that runs with its class.
    fn static_block(
        alloc: Global,
        span: Span,
        body: Self::Block,
    ) -> Result<Self::Member, AllocError>
        ensures { IfOk result (λ x. member_of x ≡ tree.static_block span (Self.block_of body)) };

    /// `;` by itself.
    fn empty_member(alloc: Global, span: Span) -> Result<Self::Member, AllocError>
        ensures { IfOk result (λ x. member_of x ≡ tree.empty_member span) };

    /// A class without its name, with what it extends.
    fn class(
        alloc: Global,
        span: Span,
        decorators: Vec<Self::Decorator>,
        body: Vec<Self::Member>,
        super_class: Option<Self::Expr>,
    ) -> Result<Self::Class, AllocError>
        ensures { IfOk result (λ x. class_of x
            ≡ tree.class span (tree.listed (map Self.decorator_of decorators.items))
            (tree.listed (map member_of body.items)) (parts.part_of Self.expr_of super_class)) };

    /// A class as an expression.
    fn class_expr(
        alloc: Global,
        span: Span,
        name: Option<Ident>,
        class: Self::Class,
    ) -> Result<Self::Expr, AllocError>
        ensures { IfOk result (λ x. Self.expr_of x
            ≡ tree.class_expr span (parts.part_of (λ n. tree.ident n.span n.sym) name) (class_of class)) };

    /// Where a member stands.
    fn member_span(member: &Self::Member) -> Span
        ensures { result ≡ forms.span_of (member_of member.now) };

    /// Whether a member is the constructor.
    fn is_constructor(member: &Self::Member) -> bool
        ensures { result ≡ forms.is_constructor (member_of member.now) };

    /// Where a class stands.
    fn class_span(class: &Self::Class) -> Span
        ensures { result ≡ forms.span_of (class_of class.now) };
}
