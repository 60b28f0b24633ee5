ghost use Rattle.std.specs.Prelude.{◌≡◌};

use crate::expr::Invalid;
use crate::node::{ExprBox, Node, PatBox};
use crate::object::PropName;
use swc_ecma_parser_common::{Span, Spanned};
use swc_ecma_parser_model::Ident;

/// What a value is bound or assigned to (ECMA-262, 14.3.3 and 13.15.5).
#[derive(Debug, PartialEq, Eq, Drop)]
pub enum Pat<N = Node> {
    Ident(BindingIdent),
    Array(ArrayPat<N>),
    Rest(RestPat<N>),
    Object(ObjectPat<N>),
    Assign(AssignPat<N>),
    Invalid(Invalid),
    Expr(ExprBox<N>),
}

/// A pattern of elements; a hole is `None` (ECMA-262, 14.3.3).
#[derive(Debug, PartialEq, Eq, Drop)]
pub struct ArrayPat<N = Node> {
    pub span: Span,
    pub elems: Vec<Option<PatBox<N>>>,
}

/// `...` and what the rest is bound to (ECMA-262, 14.3.3).
#[derive(Debug, PartialEq, Eq, Drop)]
pub struct RestPat<N = Node> {
    pub span: Span,
    pub arg: PatBox<N>,
}

/// A pattern of properties (ECMA-262, 14.3.3).
#[derive(Debug, PartialEq, Eq, Drop)]
pub struct ObjectPat<N = Node> {
    pub span: Span,
    pub props: Vec<ObjectPatProp<N>>,
}

/// A part of an object pattern (ECMA-262, 14.3.3).
#[derive(Debug, PartialEq, Eq, Drop)]
pub enum ObjectPatProp<N = Node> {
    KeyValue(KeyValuePatProp<N>),
    Assign(AssignPatProp<N>),
    Rest(RestPat<N>),
}

/// A key with the pattern for its value (ECMA-262, 14.3.3).
#[derive(Debug, PartialEq, Eq, Drop)]
pub struct KeyValuePatProp<N = Node> {
    pub span: Span,
    pub key: PropName<N>,
    pub value: PatBox<N>,
}

/// A name that is its own key, with its default (ECMA-262, 14.3.3).
#[derive(Debug, PartialEq, Eq, Drop)]
pub struct AssignPatProp<N = Node> {
    pub span: Span,
    pub key: BindingIdent,
    pub value: Option<ExprBox<N>>,
}

/// A pattern with a default (ECMA-262, 14.3.3).
#[derive(Debug, PartialEq, Eq, Drop)]
pub struct AssignPat<N = Node> {
    pub span: Span,
    pub left: PatBox<N>,
    pub right: ExprBox<N>,
}

/// A name that is bound (ECMA-262, 13.1).
#[derive(Debug, PartialEq, Eq, Drop)]
pub struct BindingIdent {
    pub id: Ident,
}

impl Spanned for Pat {
    ghost use Rattle.swc_ecma_parser_model.specs.Forms as model;
    ghost use Rattle.swc_ecma_parser_ast.specs.View.{view_pat};

    ghost span_of = { λ x. model.span_of (view_pat x) };

    fn span(&self) -> Span {
        match self {
            Pat::Ident(x) => x.span(),
            Pat::Array(x) => x.span(),
            Pat::Rest(x) => x.span(),
            Pat::Object(x) => x.span(),
            Pat::Assign(x) => x.span(),
            Pat::Invalid(x) => x.span(),
            Pat::Expr(x) => x.span(),
        }
    }
}

impl<N> Spanned for ArrayPat<N> {
    ghost span_of = { λ x. x.span };

    fn span(&self) -> Span {
        self.span
    }
}

impl<N> Spanned for RestPat<N> {
    ghost span_of = { λ x. x.span };

    fn span(&self) -> Span {
        self.span
    }
}

impl<N> Spanned for ObjectPat<N> {
    ghost span_of = { λ x. x.span };

    fn span(&self) -> Span {
        self.span
    }
}

impl Spanned for ObjectPatProp {
    ghost use Rattle.swc_ecma_parser_model.specs.Forms as model;
    ghost use Rattle.swc_ecma_parser_ast.specs.View.{view_object_pat_prop};

    ghost span_of = { λ x. model.span_of (view_object_pat_prop x) };

    fn span(&self) -> Span {
        match self {
            ObjectPatProp::KeyValue(x) => x.span(),
            ObjectPatProp::Assign(x) => x.span(),
            ObjectPatProp::Rest(x) => x.span(),
        }
    }
}

impl<N> Spanned for KeyValuePatProp<N> {
    ghost span_of = { λ x. x.span };

    fn span(&self) -> Span {
        self.span
    }
}

impl<N> Spanned for AssignPatProp<N> {
    ghost span_of = { λ x. x.span };

    fn span(&self) -> Span {
        self.span
    }
}

impl<N> Spanned for AssignPat<N> {
    ghost span_of = { λ x. x.span };

    fn span(&self) -> Span {
        self.span
    }
}

impl Spanned for BindingIdent {
    ghost span_of = { λ x. x.id.span };

    fn span(&self) -> Span {
        self.id.span
    }
}
