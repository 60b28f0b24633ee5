//! Expressions, calls and what is assigned to, compared but for their spans.

ghost use Rattle.std.specs.Prelude.{◌≡◌, Bool};
ghost use Rattle.swc_ecma_parser_ast.specs.Like.{any_span, like_assign_expr, like_assign_target, like_assign_target_pat, like_await_expr, like_bin_expr, like_call_expr, like_callee, like_cond_expr, like_expr, like_expr_or_spread, like_import, like_invalid, like_lit, like_member_expr, like_member_prop, like_meta_prop_expr, like_new_expr, like_opt_call, like_opt_chain_base, like_opt_chain_expr, like_paren_expr, like_seq_expr, like_simple_assign_target, like_super, like_super_prop, like_super_prop_expr, like_tagged_tpl, like_this_expr, like_tpl, like_unary_expr, like_update_expr, like_yield_expr};

use crate::call::{
    CallExpr, Callee, ExprOrSpread, Import, MemberExpr, MemberProp, NewExpr, OptCall, OptChainBase,
    OptChainExpr, Super, SuperProp, SuperPropExpr,
};
use crate::expr::{
    AwaitExpr, BinExpr, CondExpr, Expr, Invalid, Lit, MetaPropExpr, ParenExpr, SeqExpr, ThisExpr,
    UnaryExpr, UpdateExpr, YieldExpr,
};
use crate::ignore_span::EqIgnoreSpan;
use crate::target::{AssignExpr, AssignTarget, AssignTargetPat, SimpleAssignTarget};
use crate::template::{TaggedTpl, Tpl};

impl<N: EqIgnoreSpan> EqIgnoreSpan for MemberExpr<N> {
    ghost like = { like_member_expr any_span N.like };

    fn eq_ignore_span(&self, other: &MemberExpr<N>) -> bool {
        self.obj.eq_ignore_span(&other.obj) && self.prop.eq_ignore_span(&other.prop)
    }
}

impl<N: EqIgnoreSpan> EqIgnoreSpan for MemberProp<N> {
    ghost like = { like_member_prop any_span N.like };

    fn eq_ignore_span(&self, other: &MemberProp<N>) -> bool {
        are_like_forms!(self, other, MemberProp: Ident PrivateName Computed)
    }
}

impl<N: EqIgnoreSpan> EqIgnoreSpan for SuperPropExpr<N> {
    ghost like = { like_super_prop_expr any_span N.like };

    fn eq_ignore_span(&self, other: &SuperPropExpr<N>) -> bool {
        self.obj.eq_ignore_span(&other.obj) && self.prop.eq_ignore_span(&other.prop)
    }
}

impl<N: EqIgnoreSpan> EqIgnoreSpan for SuperProp<N> {
    ghost like = { like_super_prop any_span N.like };

    fn eq_ignore_span(&self, other: &SuperProp<N>) -> bool {
        are_like_forms!(self, other, SuperProp: Ident Computed)
    }
}

impl EqIgnoreSpan for Super {
    ghost like = { like_super any_span };

    fn eq_ignore_span(&self, _other: &Super) -> bool {
        true
    }
}

impl EqIgnoreSpan for Import {
    ghost like = { like_import any_span };

    fn eq_ignore_span(&self, _other: &Import) -> bool {
        true
    }
}

impl<N: EqIgnoreSpan> EqIgnoreSpan for CallExpr<N> {
    ghost like = { like_call_expr any_span N.like };

    fn eq_ignore_span(&self, other: &CallExpr<N>) -> bool {
        self.callee.eq_ignore_span(&other.callee) && self.args.eq_ignore_span(&other.args)
    }
}

impl<N: EqIgnoreSpan> EqIgnoreSpan for Callee<N> {
    ghost like = { like_callee any_span N.like };

    fn eq_ignore_span(&self, other: &Callee<N>) -> bool {
        are_like_forms!(self, other, Callee: Super Import Expr)
    }
}

impl<N: EqIgnoreSpan> EqIgnoreSpan for NewExpr<N> {
    ghost like = { like_new_expr any_span N.like };

    fn eq_ignore_span(&self, other: &NewExpr<N>) -> bool {
        self.callee.eq_ignore_span(&other.callee) && self.args.eq_ignore_span(&other.args)
    }
}

impl<N: EqIgnoreSpan> EqIgnoreSpan for OptChainExpr<N> {
    ghost like = { like_opt_chain_expr any_span N.like };

    fn eq_ignore_span(&self, other: &OptChainExpr<N>) -> bool {
        self.optional.eq_ignore_span(&other.optional) && self.base.eq_ignore_span(&other.base)
    }
}

impl<N: EqIgnoreSpan> EqIgnoreSpan for OptChainBase<N> {
    ghost like = { like_opt_chain_base any_span N.like };

    fn eq_ignore_span(&self, other: &OptChainBase<N>) -> bool {
        are_like_forms!(self, other, OptChainBase: Member Call)
    }
}

impl<N: EqIgnoreSpan> EqIgnoreSpan for OptCall<N> {
    ghost like = { like_opt_call any_span N.like };

    fn eq_ignore_span(&self, other: &OptCall<N>) -> bool {
        self.callee.eq_ignore_span(&other.callee) && self.args.eq_ignore_span(&other.args)
    }
}

impl<N: EqIgnoreSpan> EqIgnoreSpan for Tpl<N> {
    ghost like = { like_tpl any_span N.like };

    fn eq_ignore_span(&self, other: &Tpl<N>) -> bool {
        self.exprs.eq_ignore_span(&other.exprs) && self.quasis.eq_ignore_span(&other.quasis)
    }
}

impl<N: EqIgnoreSpan> EqIgnoreSpan for TaggedTpl<N> {
    ghost like = { like_tagged_tpl any_span N.like };

    fn eq_ignore_span(&self, other: &TaggedTpl<N>) -> bool {
        self.tag.eq_ignore_span(&other.tag) && self.tpl.eq_ignore_span(&other.tpl)
    }
}

impl<N: EqIgnoreSpan> EqIgnoreSpan for ExprOrSpread<N> {
    ghost like = { like_expr_or_spread any_span N.like };

    fn eq_ignore_span(&self, other: &ExprOrSpread<N>) -> bool {
        self.spread.eq_ignore_span(&other.spread) && self.expr.eq_ignore_span(&other.expr)
    }
}

impl<N: EqIgnoreSpan> EqIgnoreSpan for Expr<N> {
    ghost like = { like_expr any_span N.like };

    fn eq_ignore_span(&self, other: &Expr<N>) -> bool {
        are_like_forms!(self, other, Expr: This Array Object Fn Unary Update Bin Assign Member
            SuperProp Cond Call New Seq Ident Lit Arrow Class Yield MetaProp Await Paren Tpl
            TaggedTpl OptChain PrivateName Invalid)
    }
}

impl EqIgnoreSpan for Lit {
    ghost like = { like_lit any_span };

    fn eq_ignore_span(&self, other: &Lit) -> bool {
        are_like_forms!(self, other, Lit: Str Bool Null Num BigInt Regex)
    }
}

impl EqIgnoreSpan for ThisExpr {
    ghost like = { like_this_expr any_span };

    fn eq_ignore_span(&self, _other: &ThisExpr) -> bool {
        true
    }
}

impl<N: EqIgnoreSpan> EqIgnoreSpan for UnaryExpr<N> {
    ghost like = { like_unary_expr any_span N.like };

    fn eq_ignore_span(&self, other: &UnaryExpr<N>) -> bool {
        self.op.eq_ignore_span(&other.op) && self.arg.eq_ignore_span(&other.arg)
    }
}

impl<N: EqIgnoreSpan> EqIgnoreSpan for UpdateExpr<N> {
    ghost like = { like_update_expr any_span N.like };

    fn eq_ignore_span(&self, other: &UpdateExpr<N>) -> bool {
        self.op.eq_ignore_span(&other.op)
            && self.prefix.eq_ignore_span(&other.prefix)
            && self.arg.eq_ignore_span(&other.arg)
    }
}

impl<N: EqIgnoreSpan> EqIgnoreSpan for BinExpr<N> {
    ghost like = { like_bin_expr any_span N.like };

    fn eq_ignore_span(&self, other: &BinExpr<N>) -> bool {
        self.op.eq_ignore_span(&other.op)
            && self.left.eq_ignore_span(&other.left)
            && self.right.eq_ignore_span(&other.right)
    }
}

impl<N: EqIgnoreSpan> EqIgnoreSpan for CondExpr<N> {
    ghost like = { like_cond_expr any_span N.like };

    fn eq_ignore_span(&self, other: &CondExpr<N>) -> bool {
        self.test.eq_ignore_span(&other.test)
            && self.cons.eq_ignore_span(&other.cons)
            && self.alt.eq_ignore_span(&other.alt)
    }
}

impl<N: EqIgnoreSpan> EqIgnoreSpan for SeqExpr<N> {
    ghost like = { like_seq_expr any_span N.like };

    fn eq_ignore_span(&self, other: &SeqExpr<N>) -> bool {
        self.exprs.eq_ignore_span(&other.exprs)
    }
}

impl<N: EqIgnoreSpan> EqIgnoreSpan for YieldExpr<N> {
    ghost like = { like_yield_expr any_span N.like };

    fn eq_ignore_span(&self, other: &YieldExpr<N>) -> bool {
        self.arg.eq_ignore_span(&other.arg) && self.delegate.eq_ignore_span(&other.delegate)
    }
}

impl<N: EqIgnoreSpan> EqIgnoreSpan for AwaitExpr<N> {
    ghost like = { like_await_expr any_span N.like };

    fn eq_ignore_span(&self, other: &AwaitExpr<N>) -> bool {
        self.arg.eq_ignore_span(&other.arg)
    }
}

impl EqIgnoreSpan for MetaPropExpr {
    ghost like = { like_meta_prop_expr any_span };

    fn eq_ignore_span(&self, other: &MetaPropExpr) -> bool {
        self.kind.eq_ignore_span(&other.kind)
    }
}

impl<N: EqIgnoreSpan> EqIgnoreSpan for ParenExpr<N> {
    ghost like = { like_paren_expr any_span N.like };

    fn eq_ignore_span(&self, other: &ParenExpr<N>) -> bool {
        self.expr.eq_ignore_span(&other.expr)
    }
}

impl EqIgnoreSpan for Invalid {
    ghost like = { like_invalid any_span };

    fn eq_ignore_span(&self, _other: &Invalid) -> bool {
        true
    }
}

impl<N: EqIgnoreSpan> EqIgnoreSpan for AssignExpr<N> {
    ghost like = { like_assign_expr any_span N.like };

    fn eq_ignore_span(&self, other: &AssignExpr<N>) -> bool {
        self.op.eq_ignore_span(&other.op)
            && self.left.eq_ignore_span(&other.left)
            && self.right.eq_ignore_span(&other.right)
    }
}

impl<N: EqIgnoreSpan> EqIgnoreSpan for AssignTarget<N> {
    ghost like = { like_assign_target any_span N.like };

    fn eq_ignore_span(&self, other: &AssignTarget<N>) -> bool {
        are_like_forms!(self, other, AssignTarget: Simple Pat)
    }
}

impl<N: EqIgnoreSpan> EqIgnoreSpan for AssignTargetPat<N> {
    ghost like = { like_assign_target_pat any_span N.like };

    fn eq_ignore_span(&self, other: &AssignTargetPat<N>) -> bool {
        are_like_forms!(self, other, AssignTargetPat: Array Object)
    }
}

impl<N: EqIgnoreSpan> EqIgnoreSpan for SimpleAssignTarget<N> {
    ghost like = { like_simple_assign_target any_span N.like };

    fn eq_ignore_span(&self, other: &SimpleAssignTarget<N>) -> bool {
        are_like_forms!(self, other, SimpleAssignTarget: Ident Member SuperProp Paren)
    }
}
