//! Names, literals and operators compared but for their spans.

ghost use Rattle.std.specs.Prelude.{◌≡◌, Bool};
ghost use Rattle.swc_ecma_parser_model.specs.Leaf.{put_assign, put_binary, put_kind, put_meta, put_method, put_phase, put_unary, put_update};
ghost use Rattle.swc_ecma_parser_model.specs.Same.{alike};
ghost use Rattle.swc_ecma_parser_ast.specs.Like.{any_span, like_big_int, like_bool, like_flag, like_ident, like_null, like_number, like_private_name, like_regex, like_str, like_text, like_tpl_element};

use crate::ignore_span::EqIgnoreSpan;
use swc_ecma_parser_common::{Atom, Span};
use swc_ecma_parser_model::{
    AssignOp, BigInt, BinaryOp, Bool, Ident, ImportPhase, MetaPropKind, MethodKind, Null, Number,
    PrivateName, Regex, Str, TplElement, UnaryOp, UpdateOp, VarDeclKind,
};

impl EqIgnoreSpan for Span {
    ghost like = { any_span };

    fn eq_ignore_span(&self, _other: &Span) -> bool {
        true
    }
}

impl EqIgnoreSpan for bool {
    ghost like = { like_flag };

    fn eq_ignore_span(&self, other: &bool) -> bool {
        *self == *other
    }
}

impl EqIgnoreSpan for Atom {
    ghost like = { like_text };

    fn eq_ignore_span(&self, other: &Atom) -> bool {
        *self == *other
    }
}

impl EqIgnoreSpan for AssignOp {
    ghost like = { λ x y. alike (put_assign x) (put_assign y) };

    fn eq_ignore_span(&self, other: &AssignOp) -> bool {
        *self == *other
    }
}

impl EqIgnoreSpan for BinaryOp {
    ghost like = { λ x y. alike (put_binary x) (put_binary y) };

    fn eq_ignore_span(&self, other: &BinaryOp) -> bool {
        *self == *other
    }
}

impl EqIgnoreSpan for ImportPhase {
    ghost like = { λ x y. alike (put_phase x) (put_phase y) };

    fn eq_ignore_span(&self, other: &ImportPhase) -> bool {
        *self == *other
    }
}

impl EqIgnoreSpan for MetaPropKind {
    ghost like = { λ x y. alike (put_meta x) (put_meta y) };

    fn eq_ignore_span(&self, other: &MetaPropKind) -> bool {
        *self == *other
    }
}

impl EqIgnoreSpan for MethodKind {
    ghost like = { λ x y. alike (put_method x) (put_method y) };

    fn eq_ignore_span(&self, other: &MethodKind) -> bool {
        *self == *other
    }
}

impl EqIgnoreSpan for UnaryOp {
    ghost like = { λ x y. alike (put_unary x) (put_unary y) };

    fn eq_ignore_span(&self, other: &UnaryOp) -> bool {
        *self == *other
    }
}

impl EqIgnoreSpan for UpdateOp {
    ghost like = { λ x y. alike (put_update x) (put_update y) };

    fn eq_ignore_span(&self, other: &UpdateOp) -> bool {
        *self == *other
    }
}

impl EqIgnoreSpan for VarDeclKind {
    ghost like = { λ x y. alike (put_kind x) (put_kind y) };

    fn eq_ignore_span(&self, other: &VarDeclKind) -> bool {
        *self == *other
    }
}

impl EqIgnoreSpan for Ident {
    ghost like = { like_ident any_span };

    fn eq_ignore_span(&self, other: &Ident) -> bool {
        self.sym.eq_ignore_span(&other.sym)
    }
}

impl EqIgnoreSpan for Str {
    ghost like = { like_str any_span };

    fn eq_ignore_span(&self, other: &Str) -> bool {
        self.value.eq_ignore_span(&other.value) && self.raw.eq_ignore_span(&other.raw)
    }
}

impl EqIgnoreSpan for Bool {
    ghost like = { like_bool any_span };

    fn eq_ignore_span(&self, other: &Bool) -> bool {
        self.value.eq_ignore_span(&other.value)
    }
}

impl EqIgnoreSpan for Null {
    ghost like = { like_null any_span };

    fn eq_ignore_span(&self, _other: &Null) -> bool {
        true
    }
}

impl EqIgnoreSpan for Number {
    ghost like = { like_number any_span };

    fn eq_ignore_span(&self, other: &Number) -> bool {
        self.raw.eq_ignore_span(&other.raw)
    }
}

impl EqIgnoreSpan for BigInt {
    ghost like = { like_big_int any_span };

    fn eq_ignore_span(&self, other: &BigInt) -> bool {
        self.raw.eq_ignore_span(&other.raw)
    }
}

impl EqIgnoreSpan for Regex {
    ghost like = { like_regex any_span };

    fn eq_ignore_span(&self, other: &Regex) -> bool {
        self.exp.eq_ignore_span(&other.exp) && self.flags.eq_ignore_span(&other.flags)
    }
}

impl EqIgnoreSpan for TplElement {
    ghost like = { like_tpl_element any_span };

    fn eq_ignore_span(&self, other: &TplElement) -> bool {
        self.tail.eq_ignore_span(&other.tail)
            && self.cooked.eq_ignore_span(&other.cooked)
            && self.raw.eq_ignore_span(&other.raw)
    }
}

impl EqIgnoreSpan for PrivateName {
    ghost like = { like_private_name any_span };

    fn eq_ignore_span(&self, other: &PrivateName) -> bool {
        self.id.eq_ignore_span(&other.id)
    }
}
