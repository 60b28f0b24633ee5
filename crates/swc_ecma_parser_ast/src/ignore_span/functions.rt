//! Functions, classes and their members compared but for their spans.

ghost use Rattle.std.specs.Prelude.{◌≡◌, Bool};
ghost use Rattle.swc_ecma_parser_ast.specs.Like.{any_span, like_arrow_expr, like_auto_accessor, like_block_stmt_or_expr, like_class, like_class_decl, like_class_expr, like_class_member, like_class_method, like_class_prop, like_constructor, like_decorator, like_fn_decl, like_fn_expr, like_function, like_key, like_param, like_param_or_ts_param_prop, like_private_method, like_private_prop, like_static_block};

use crate::class::{
    Class, ClassDecl, ClassExpr, ClassMember, ClassMethod, Constructor, ParamOrTsParamProp,
    PrivateMethod,
};
use crate::function::{ArrowExpr, BlockStmtOrExpr, Decorator, FnDecl, FnExpr, Function, Param};
use crate::ignore_span::EqIgnoreSpan;
use crate::member::{AutoAccessor, ClassProp, Key, PrivateProp, StaticBlock};

impl<N: EqIgnoreSpan> EqIgnoreSpan for ClassExpr<N> {
    ghost like = { like_class_expr any_span N.like };

    fn eq_ignore_span(&self, other: &ClassExpr<N>) -> bool {
        self.ident.eq_ignore_span(&other.ident) && self.class.eq_ignore_span(&other.class)
    }
}

impl<N: EqIgnoreSpan> EqIgnoreSpan for ClassDecl<N> {
    ghost like = { like_class_decl any_span N.like };

    fn eq_ignore_span(&self, other: &ClassDecl<N>) -> bool {
        self.ident.eq_ignore_span(&other.ident) && self.class.eq_ignore_span(&other.class)
    }
}

impl<N: EqIgnoreSpan> EqIgnoreSpan for Class<N> {
    ghost like = { like_class any_span N.like };

    fn eq_ignore_span(&self, other: &Class<N>) -> bool {
        self.decorators.eq_ignore_span(&other.decorators)
            && self.body.eq_ignore_span(&other.body)
            && self.super_class.eq_ignore_span(&other.super_class)
    }
}

impl<N: EqIgnoreSpan> EqIgnoreSpan for ClassMember<N> {
    ghost like = { like_class_member any_span N.like };

    fn eq_ignore_span(&self, other: &ClassMember<N>) -> bool {
        are_like_forms!(self, other, ClassMember: Constructor Method PrivateMethod ClassProp
            PrivateProp Empty StaticBlock AutoAccessor)
    }
}

impl<N: EqIgnoreSpan> EqIgnoreSpan for Constructor<N> {
    ghost like = { like_constructor any_span N.like };

    fn eq_ignore_span(&self, other: &Constructor<N>) -> bool {
        self.key.eq_ignore_span(&other.key)
            && self.params.eq_ignore_span(&other.params)
            && self.body.eq_ignore_span(&other.body)
    }
}

impl<N: EqIgnoreSpan> EqIgnoreSpan for ParamOrTsParamProp<N> {
    ghost like = { like_param_or_ts_param_prop any_span N.like };

    fn eq_ignore_span(&self, other: &ParamOrTsParamProp<N>) -> bool {
        match (self, other) {
            (ParamOrTsParamProp::Param(a), ParamOrTsParamProp::Param(b)) => a.eq_ignore_span(b),
        }
    }
}

impl<N: EqIgnoreSpan> EqIgnoreSpan for ClassMethod<N> {
    ghost like = { like_class_method any_span N.like };

    fn eq_ignore_span(&self, other: &ClassMethod<N>) -> bool {
        self.key.eq_ignore_span(&other.key)
            && self.function.eq_ignore_span(&other.function)
            && self.kind.eq_ignore_span(&other.kind)
            && self.is_static.eq_ignore_span(&other.is_static)
    }
}

impl<N: EqIgnoreSpan> EqIgnoreSpan for PrivateMethod<N> {
    ghost like = { like_private_method any_span N.like };

    fn eq_ignore_span(&self, other: &PrivateMethod<N>) -> bool {
        self.key.eq_ignore_span(&other.key)
            && self.function.eq_ignore_span(&other.function)
            && self.kind.eq_ignore_span(&other.kind)
            && self.is_static.eq_ignore_span(&other.is_static)
    }
}

impl<N: EqIgnoreSpan> EqIgnoreSpan for FnExpr<N> {
    ghost like = { like_fn_expr any_span N.like };

    fn eq_ignore_span(&self, other: &FnExpr<N>) -> bool {
        self.ident.eq_ignore_span(&other.ident) && self.function.eq_ignore_span(&other.function)
    }
}

impl<N: EqIgnoreSpan> EqIgnoreSpan for Function<N> {
    ghost like = { like_function any_span N.like };

    fn eq_ignore_span(&self, other: &Function<N>) -> bool {
        self.decorators.eq_ignore_span(&other.decorators)
            && self.params.eq_ignore_span(&other.params)
            && self.body.eq_ignore_span(&other.body)
            && self.is_async.eq_ignore_span(&other.is_async)
            && self.is_generator.eq_ignore_span(&other.is_generator)
    }
}

impl<N: EqIgnoreSpan> EqIgnoreSpan for Param<N> {
    ghost like = { like_param any_span N.like };

    fn eq_ignore_span(&self, other: &Param<N>) -> bool {
        self.decorators.eq_ignore_span(&other.decorators) && self.pat.eq_ignore_span(&other.pat)
    }
}

impl<N: EqIgnoreSpan> EqIgnoreSpan for Decorator<N> {
    ghost like = { like_decorator any_span N.like };

    fn eq_ignore_span(&self, other: &Decorator<N>) -> bool {
        self.expr.eq_ignore_span(&other.expr)
    }
}

impl<N: EqIgnoreSpan> EqIgnoreSpan for ArrowExpr<N> {
    ghost like = { like_arrow_expr any_span N.like };

    fn eq_ignore_span(&self, other: &ArrowExpr<N>) -> bool {
        self.params.eq_ignore_span(&other.params)
            && self.body.eq_ignore_span(&other.body)
            && self.is_async.eq_ignore_span(&other.is_async)
    }
}

impl<N: EqIgnoreSpan> EqIgnoreSpan for BlockStmtOrExpr<N> {
    ghost like = { like_block_stmt_or_expr any_span N.like };

    fn eq_ignore_span(&self, other: &BlockStmtOrExpr<N>) -> bool {
        are_like_forms!(self, other, BlockStmtOrExpr: BlockStmt Expr)
    }
}

impl<N: EqIgnoreSpan> EqIgnoreSpan for FnDecl<N> {
    ghost like = { like_fn_decl any_span N.like };

    fn eq_ignore_span(&self, other: &FnDecl<N>) -> bool {
        self.ident.eq_ignore_span(&other.ident) && self.function.eq_ignore_span(&other.function)
    }
}

impl<N: EqIgnoreSpan> EqIgnoreSpan for ClassProp<N> {
    ghost like = { like_class_prop any_span N.like };

    fn eq_ignore_span(&self, other: &ClassProp<N>) -> bool {
        self.key.eq_ignore_span(&other.key)
            && self.value.eq_ignore_span(&other.value)
            && self.is_static.eq_ignore_span(&other.is_static)
            && self.decorators.eq_ignore_span(&other.decorators)
    }
}

impl<N: EqIgnoreSpan> EqIgnoreSpan for PrivateProp<N> {
    ghost like = { like_private_prop any_span N.like };

    fn eq_ignore_span(&self, other: &PrivateProp<N>) -> bool {
        self.key.eq_ignore_span(&other.key)
            && self.value.eq_ignore_span(&other.value)
            && self.is_static.eq_ignore_span(&other.is_static)
            && self.decorators.eq_ignore_span(&other.decorators)
    }
}

impl<N: EqIgnoreSpan> EqIgnoreSpan for AutoAccessor<N> {
    ghost like = { like_auto_accessor any_span N.like };

    fn eq_ignore_span(&self, other: &AutoAccessor<N>) -> bool {
        self.key.eq_ignore_span(&other.key)
            && self.value.eq_ignore_span(&other.value)
            && self.is_static.eq_ignore_span(&other.is_static)
            && self.decorators.eq_ignore_span(&other.decorators)
    }
}

impl<N: EqIgnoreSpan> EqIgnoreSpan for Key<N> {
    ghost like = { like_key any_span N.like };

    fn eq_ignore_span(&self, other: &Key<N>) -> bool {
        are_like_forms!(self, other, Key: Private Public)
    }
}

impl<N: EqIgnoreSpan> EqIgnoreSpan for StaticBlock<N> {
    ghost like = { like_static_block any_span N.like };

    fn eq_ignore_span(&self, other: &StaticBlock<N>) -> bool {
        self.body.eq_ignore_span(&other.body)
    }
}
