ghost use Rattle.std.specs.Prelude.{◌≡◌, IfOk, map};
ghost use Rattle.swc_ecma_parser_ast.specs.View.{view_prop_or_spread};
ghost use Rattle.swc_ecma_parser_ast_parts.specs.View.{view_made};

use crate::Ast;
use std::alloc::{AllocError, Global};
use swc_ecma_parser_ast::{
    AssignProp, BlockStmt, Expr, Function, GetterProp, Ident, KeyValueProp, MethodProp, ObjectLit,
    Pat, Prop, PropName, PropOrSpread, SetterProp, Span, SpreadElement,
};
use swc_ecma_parser_ast_parts::made::Made;
use swc_ecma_parser_trees::{BuildsMethod, BuildsObject};

impl BuildsObject for Ast {
    ghost use Rattle.swc_ecma_parser_model.specs.Tree as tree;

    type Prop = PropOrSpread;

    ghost prop_of = { view_prop_or_spread };

    fn object(alloc: Global, span: Span, props: Vec<PropOrSpread>) -> Result<Made, AllocError>
        ensures { IfOk result
            (λ x. view_made x
            ≡ tree.object span (tree.listed (map view_prop_or_spread props.items))) }
    {
        Made::new(alloc, Expr::Object(ObjectLit { span, props }))
    }

    fn spread_prop(alloc: Global, dots: Span, expr: Made) -> Result<PropOrSpread, AllocError> {
        let expr = expr.into_handle();
        Ok(PropOrSpread::Spread(SpreadElement {
            dot3_token: dots,
            expr,
        }))
    }

    fn shorthand_prop(alloc: Global, ident: Ident) -> Result<PropOrSpread, AllocError> {
        Ok(PropOrSpread::Prop(Prop::Shorthand(ident).boxed(alloc)?))
    }

    fn key_value_prop(
        alloc: Global,
        span: Span,
        key: PropName,
        value: Made,
    ) -> Result<PropOrSpread, AllocError> {
        let value = value.into_handle();
        let prop = Prop::KeyValue(KeyValueProp { span, key, value });
        Ok(PropOrSpread::Prop(prop.boxed(alloc)?))
    }

    fn assign_prop(
        alloc: Global,
        span: Span,
        key: Ident,
        value: Made,
    ) -> Result<PropOrSpread, AllocError> {
        let value = value.into_handle();
        let prop = Prop::Assign(AssignProp { span, key, value });
        Ok(PropOrSpread::Prop(prop.boxed(alloc)?))
    }
}

impl BuildsMethod for Ast {
    fn getter_prop(
        alloc: Global,
        span: Span,
        key: PropName,
        body: BlockStmt,
    ) -> Result<PropOrSpread, AllocError> {
        let body = Some(body);
        let prop = Prop::Getter(GetterProp { span, key, body });
        Ok(PropOrSpread::Prop(prop.boxed(alloc)?))
    }

    fn setter_prop(
        alloc: Global,
        span: Span,
        key: PropName,
        param: Pat,
        body: BlockStmt,
    ) -> Result<PropOrSpread, AllocError> {
        let prop = Prop::Setter(SetterProp {
            span,
            key,
            param,
            body: Some(body),
        });
        Ok(PropOrSpread::Prop(prop.boxed(alloc)?))
    }

    fn method_prop(
        alloc: Global,
        span: Span,
        key: PropName,
        function: Box<Function>,
    ) -> Result<PropOrSpread, AllocError> {
        let prop = Prop::Method(MethodProp {
            span,
            key,
            function,
        });
        Ok(PropOrSpread::Prop(prop.boxed(alloc)?))
    }
}
