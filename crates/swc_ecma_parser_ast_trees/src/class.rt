ghost use Rattle.std.specs.Prelude.{◌≡◌, IfOk, map};
ghost use Rattle.swc_ecma_parser_ast.specs.View.{view_block_stmt, view_class, view_class_member, view_decorator, view_param, view_prop_name};
ghost use Rattle.swc_ecma_parser_ast_parts.specs.View.{view_made};

use crate::Ast;
use std::alloc::{AllocError, Global};
use swc_ecma_parser_ast::{
    AutoAccessor, BlockStmt, Class, ClassExpr, ClassMember, ClassMethod, ClassProp, Decorator,
    EmptyStmt, Expr, Function, Ident, Key, MethodKind, Param, PrivateMethod, PrivateName,
    PrivateProp, PropName, Span, Spanned, StaticBlock,
};
use swc_ecma_parser_ast_parts::boxes;
use swc_ecma_parser_ast_parts::made::Made;
use swc_ecma_parser_trees::BuildsClass;

impl BuildsClass for Ast {
    ghost use Rattle.swc_ecma_parser_model.specs.Tree as tree;
    ghost use Rattle.swc_ecma_parser_trees.specs.Parts as parts;

    type Member = ClassMember;

    type Class = Box<Class>;

    ghost member_of = { view_class_member };

    ghost class_of = { λ c. view_class c.value };

    fn constructor(
        alloc: Global,
        span: Span,
        key: PropName,
        params: Vec<Param>,
        body: BlockStmt,
    ) -> Result<ClassMember, AllocError>
        ensures { IfOk result (λ x. view_class_member x
            ≡ tree.constructor span (view_prop_name key) (tree.listed (map view_param params.items)) (view_block_stmt body)) }
    {
        boxes::constructor(alloc, span, key, params, body)
    }

    fn method(
        alloc: Global,
        span: Span,
        key: PropName,
        function: Box<Function>,
        kind: MethodKind,
        is_static: bool,
    ) -> Result<ClassMember, AllocError> {
        let found = ClassMethod {
            span,
            key,
            function,
            kind,
            is_static,
        };
        Ok(ClassMember::Method(found.boxed(alloc)?))
    }

    fn private_method(
        alloc: Global,
        span: Span,
        key: PrivateName,
        function: Box<Function>,
        kind: MethodKind,
        is_static: bool,
    ) -> Result<ClassMember, AllocError> {
        let found = PrivateMethod {
            span,
            key,
            function,
            kind,
            is_static,
        };
        Ok(ClassMember::PrivateMethod(found.boxed(alloc)?))
    }

    fn class_prop(
        alloc: Global,
        span: Span,
        key: PropName,
        value: Option<Made>,
        is_static: bool,
        decorators: Vec<Decorator>,
    ) -> Result<ClassMember, AllocError>
        ensures { IfOk result (λ x. view_class_member x
            ≡ tree.class_prop span (view_prop_name key) (parts.part_of view_made value) is_static
            (tree.listed (map view_decorator decorators.items))) }
    {
        let value = Made::optional(value);
        let found = ClassProp {
            span,
            key,
            value,
            is_static,
            decorators,
        };
        Ok(ClassMember::ClassProp(found.boxed(alloc)?))
    }

    fn private_prop(
        alloc: Global,
        span: Span,
        key: PrivateName,
        value: Option<Made>,
        is_static: bool,
        decorators: Vec<Decorator>,
    ) -> Result<ClassMember, AllocError>
        ensures { IfOk result (λ x. view_class_member x
            ≡ tree.private_prop span (tree.private_name key.span key.id.span key.id.sym) (parts.part_of view_made value) is_static
            (tree.listed (map view_decorator decorators.items))) }
    {
        let value = Made::optional(value);
        let found = PrivateProp {
            span,
            key,
            value,
            is_static,
            decorators,
        };
        Ok(ClassMember::PrivateProp(found.boxed(alloc)?))
    }

    fn auto_accessor(
        alloc: Global,
        span: Span,
        key: PropName,
        value: Option<Made>,
        is_static: bool,
        decorators: Vec<Decorator>,
    ) -> Result<ClassMember, AllocError>
        ensures { IfOk result (λ x. view_class_member x
            ≡ tree.auto_accessor span (view_prop_name key) (parts.part_of view_made value) is_static
            (tree.listed (map view_decorator decorators.items))) }
    {
        let value = Made::optional(value);
        let key = Key::Public(key);
        let found = AutoAccessor {
            span,
            key,
            value,
            is_static,
            decorators,
        };
        Ok(ClassMember::AutoAccessor(found.boxed(alloc)?))
    }

    fn private_auto_accessor(
        alloc: Global,
        span: Span,
        key: PrivateName,
        value: Option<Made>,
        is_static: bool,
        decorators: Vec<Decorator>,
    ) -> Result<ClassMember, AllocError>
        ensures { IfOk result (λ x. view_class_member x
            ≡ tree.auto_accessor span (tree.private_name key.span key.id.span key.id.sym) (parts.part_of view_made value) is_static
            (tree.listed (map view_decorator decorators.items))) }
    {
        let value = Made::optional(value);
        let key = Key::Private(key);
        let found = AutoAccessor {
            span,
            key,
            value,
            is_static,
            decorators,
        };
        Ok(ClassMember::AutoAccessor(found.boxed(alloc)?))
    }

    fn static_block(alloc: Global, span: Span, body: BlockStmt) -> Result<ClassMember, AllocError> {
        Ok(ClassMember::StaticBlock(StaticBlock { span, body }))
    }

    fn empty_member(alloc: Global, span: Span) -> Result<ClassMember, AllocError> {
        Ok(ClassMember::Empty(EmptyStmt { span }))
    }

    fn class(
        alloc: Global,
        span: Span,
        decorators: Vec<Decorator>,
        body: Vec<ClassMember>,
        super_class: Option<Made>,
    ) -> Result<Box<Class>, AllocError>
        ensures { IfOk result (λ x. view_class x.value
            ≡ tree.class span (tree.listed (map view_decorator decorators.items))
            (tree.listed (map view_class_member body.items)) (parts.part_of view_made super_class)) }
    {
        let super_class = Made::optional(super_class);
        let class = Class {
            span,
            decorators,
            body,
            super_class,
        };
        class.boxed(alloc)
    }

    fn class_expr(
        alloc: Global,
        span: Span,
        name: Option<Ident>,
        class: Box<Class>,
    ) -> Result<Made, AllocError> {
        let class = ClassExpr {
            span,
            ident: name,
            class,
        };
        Made::new(alloc, Expr::Class(class))
    }

    fn member_span(member: &ClassMember) -> Span {
        member.span()
    }

    fn is_constructor(member: &ClassMember) -> bool {
        match member {
            ClassMember::Constructor(_) => true,
            _ => false,
        }
    }

    fn class_span(class: &Box<Class>) -> Span {
        class.span
    }
}
