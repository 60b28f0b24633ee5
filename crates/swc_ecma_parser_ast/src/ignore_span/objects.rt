//! Objects and patterns compared but for their spans.

ghost use Rattle.std.specs.Prelude.{◌≡◌, Bool};
ghost use Rattle.swc_ecma_parser_ast.specs.Like.{any_span, like_array_lit, like_array_pat, like_assign_pat, like_assign_pat_prop, like_assign_prop, like_binding_ident, like_computed_prop_name, like_getter_prop, like_key_value_pat_prop, like_key_value_prop, like_method_prop, like_object_lit, like_object_pat, like_object_pat_prop, like_pat, like_prop, like_prop_name, like_prop_or_spread, like_rest_pat, like_setter_prop, like_spread_element};

use crate::ignore_span::EqIgnoreSpan;
use crate::object::{
    ArrayLit, AssignProp, ComputedPropName, GetterProp, KeyValueProp, MethodProp, ObjectLit, Prop,
    PropName, PropOrSpread, SetterProp, SpreadElement,
};
use crate::pat::{
    ArrayPat, AssignPat, AssignPatProp, BindingIdent, KeyValuePatProp, ObjectPat, ObjectPatProp,
    Pat, RestPat,
};

impl<N: EqIgnoreSpan> EqIgnoreSpan for ArrayLit<N> {
    ghost like = { like_array_lit any_span N.like };

    fn eq_ignore_span(&self, other: &ArrayLit<N>) -> bool {
        self.elems.eq_ignore_span(&other.elems)
    }
}

impl<N: EqIgnoreSpan> EqIgnoreSpan for ObjectLit<N> {
    ghost like = { like_object_lit any_span N.like };

    fn eq_ignore_span(&self, other: &ObjectLit<N>) -> bool {
        self.props.eq_ignore_span(&other.props)
    }
}

impl<N: EqIgnoreSpan> EqIgnoreSpan for PropOrSpread<N> {
    ghost like = { like_prop_or_spread any_span N.like };

    fn eq_ignore_span(&self, other: &PropOrSpread<N>) -> bool {
        are_like_forms!(self, other, PropOrSpread: Spread Prop)
    }
}

impl<N: EqIgnoreSpan> EqIgnoreSpan for SpreadElement<N> {
    ghost like = { like_spread_element any_span N.like };

    fn eq_ignore_span(&self, other: &SpreadElement<N>) -> bool {
        self.expr.eq_ignore_span(&other.expr)
    }
}

impl<N: EqIgnoreSpan> EqIgnoreSpan for Prop<N> {
    ghost like = { like_prop any_span N.like };

    fn eq_ignore_span(&self, other: &Prop<N>) -> bool {
        are_like_forms!(self, other, Prop: Shorthand KeyValue Assign Getter Setter Method)
    }
}

impl<N: EqIgnoreSpan> EqIgnoreSpan for KeyValueProp<N> {
    ghost like = { like_key_value_prop any_span N.like };

    fn eq_ignore_span(&self, other: &KeyValueProp<N>) -> bool {
        self.key.eq_ignore_span(&other.key) && self.value.eq_ignore_span(&other.value)
    }
}

impl<N: EqIgnoreSpan> EqIgnoreSpan for AssignProp<N> {
    ghost like = { like_assign_prop any_span N.like };

    fn eq_ignore_span(&self, other: &AssignProp<N>) -> bool {
        self.key.eq_ignore_span(&other.key) && self.value.eq_ignore_span(&other.value)
    }
}

impl<N: EqIgnoreSpan> EqIgnoreSpan for PropName<N> {
    ghost like = { like_prop_name any_span N.like };

    fn eq_ignore_span(&self, other: &PropName<N>) -> bool {
        are_like_forms!(self, other, PropName: Ident Str Num BigInt Computed)
    }
}

impl<N: EqIgnoreSpan> EqIgnoreSpan for ComputedPropName<N> {
    ghost like = { like_computed_prop_name any_span N.like };

    fn eq_ignore_span(&self, other: &ComputedPropName<N>) -> bool {
        self.expr.eq_ignore_span(&other.expr)
    }
}

impl<N: EqIgnoreSpan> EqIgnoreSpan for GetterProp<N> {
    ghost like = { like_getter_prop any_span N.like };

    fn eq_ignore_span(&self, other: &GetterProp<N>) -> bool {
        self.key.eq_ignore_span(&other.key) && self.body.eq_ignore_span(&other.body)
    }
}

impl<N: EqIgnoreSpan> EqIgnoreSpan for SetterProp<N> {
    ghost like = { like_setter_prop any_span N.like };

    fn eq_ignore_span(&self, other: &SetterProp<N>) -> bool {
        self.key.eq_ignore_span(&other.key)
            && self.param.eq_ignore_span(&other.param)
            && self.body.eq_ignore_span(&other.body)
    }
}

impl<N: EqIgnoreSpan> EqIgnoreSpan for MethodProp<N> {
    ghost like = { like_method_prop any_span N.like };

    fn eq_ignore_span(&self, other: &MethodProp<N>) -> bool {
        self.key.eq_ignore_span(&other.key) && self.function.eq_ignore_span(&other.function)
    }
}

impl<N: EqIgnoreSpan> EqIgnoreSpan for Pat<N> {
    ghost like = { like_pat any_span N.like };

    fn eq_ignore_span(&self, other: &Pat<N>) -> bool {
        are_like_forms!(self, other, Pat: Ident Array Rest Object Assign Invalid Expr)
    }
}

impl<N: EqIgnoreSpan> EqIgnoreSpan for ArrayPat<N> {
    ghost like = { like_array_pat any_span N.like };

    fn eq_ignore_span(&self, other: &ArrayPat<N>) -> bool {
        self.elems.eq_ignore_span(&other.elems)
    }
}

impl<N: EqIgnoreSpan> EqIgnoreSpan for RestPat<N> {
    ghost like = { like_rest_pat any_span N.like };

    fn eq_ignore_span(&self, other: &RestPat<N>) -> bool {
        self.arg.eq_ignore_span(&other.arg)
    }
}

impl<N: EqIgnoreSpan> EqIgnoreSpan for ObjectPat<N> {
    ghost like = { like_object_pat any_span N.like };

    fn eq_ignore_span(&self, other: &ObjectPat<N>) -> bool {
        self.props.eq_ignore_span(&other.props)
    }
}

impl<N: EqIgnoreSpan> EqIgnoreSpan for ObjectPatProp<N> {
    ghost like = { like_object_pat_prop any_span N.like };

    fn eq_ignore_span(&self, other: &ObjectPatProp<N>) -> bool {
        are_like_forms!(self, other, ObjectPatProp: KeyValue Assign Rest)
    }
}

impl<N: EqIgnoreSpan> EqIgnoreSpan for KeyValuePatProp<N> {
    ghost like = { like_key_value_pat_prop any_span N.like };

    fn eq_ignore_span(&self, other: &KeyValuePatProp<N>) -> bool {
        self.key.eq_ignore_span(&other.key) && self.value.eq_ignore_span(&other.value)
    }
}

impl<N: EqIgnoreSpan> EqIgnoreSpan for AssignPatProp<N> {
    ghost like = { like_assign_pat_prop any_span N.like };

    fn eq_ignore_span(&self, other: &AssignPatProp<N>) -> bool {
        self.key.eq_ignore_span(&other.key) && self.value.eq_ignore_span(&other.value)
    }
}

impl<N: EqIgnoreSpan> EqIgnoreSpan for AssignPat<N> {
    ghost like = { like_assign_pat any_span N.like };

    fn eq_ignore_span(&self, other: &AssignPat<N>) -> bool {
        self.left.eq_ignore_span(&other.left) && self.right.eq_ignore_span(&other.right)
    }
}

impl EqIgnoreSpan for BindingIdent {
    ghost like = { like_binding_ident any_span };

    fn eq_ignore_span(&self, other: &BindingIdent) -> bool {
        self.id.eq_ignore_span(&other.id)
    }
}
