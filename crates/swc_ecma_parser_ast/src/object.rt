ghost use Rattle.std.specs.Prelude.{◌≡◌};

use crate::call::ExprOrSpread;
use crate::function::Function;
use crate::node::{ExprBox, Node};
use crate::pat::Pat;
use crate::stmt::BlockStmt;
use swc_ecma_parser_common::{Span, Spanned};
use swc_ecma_parser_model::{BigInt, Ident, Number, Str};

/// An array; a hole is `None` (ECMA-262, 13.2.4).
#[derive(Debug, PartialEq, Eq, Drop)]
pub struct ArrayLit<N = Node> {
    pub span: Span,
    pub elems: Vec<Option<ExprOrSpread<N>>>,
}

/// An object (ECMA-262, 13.2.5).
#[derive(Debug, PartialEq, Eq, Drop)]
pub struct ObjectLit<N = Node> {
    pub span: Span,
    pub props: Vec<PropOrSpread<N>>,
}

/// A part of an object (ECMA-262, 13.2.5).
#[derive(Debug, PartialEq, Eq, Drop)]
pub enum PropOrSpread<N = Node> {
    Spread(SpreadElement<N>),
    Prop(Box<Prop<N>>),
}

/// `...` and what is spread (ECMA-262, 13.2.5). `dot3_token` is where the dots stand.
#[derive(Debug, PartialEq, Eq, Drop)]
pub struct SpreadElement<N = Node> {
    pub dot3_token: Span,
    pub expr: ExprBox<N>,
}

/// A property of an object (ECMA-262, 13.2.5).
#[derive(Debug, PartialEq, Eq, Drop)]
pub enum Prop<N = Node> {
    Shorthand(Ident),
    KeyValue(KeyValueProp<N>),
    Assign(AssignProp<N>),
    Getter(GetterProp<N>),
    Setter(SetterProp<N>),
    Method(MethodProp<N>),
}

/// A key with its value (ECMA-262, 13.2.5).
#[derive(Debug, PartialEq, Eq, Drop)]
pub struct KeyValueProp<N = Node> {
    pub span: Span,
    pub key: PropName<N>,
    pub value: ExprBox<N>,
}

/// A name with a default, which only a pattern may have (ECMA-262, 13.2.5).
#[derive(Debug, PartialEq, Eq, Drop)]
pub struct AssignProp<N = Node> {
    pub span: Span,
    pub key: Ident,
    pub value: ExprBox<N>,
}

/// A key (ECMA-262, 13.2.5).
#[derive(Debug, PartialEq, Eq, Drop)]
pub enum PropName<N = Node> {
    Ident(Ident),
    Str(Str),
    Num(Number),
    BigInt(BigInt),
    Computed(ComputedPropName<N>),
}

/// A key in brackets (ECMA-262, 13.2.5). The span takes in both of them.
#[derive(Debug, PartialEq, Eq, Drop)]
pub struct ComputedPropName<N = Node> {
    pub span: Span,
    pub expr: ExprBox<N>,
}

/// `get` (ECMA-262, 15.4).
#[derive(Debug, PartialEq, Eq, Drop)]
pub struct GetterProp<N = Node> {
    pub span: Span,
    pub key: PropName<N>,
    pub body: Option<BlockStmt<N>>,
}

/// `set` (ECMA-262, 15.4).
#[derive(Debug, PartialEq, Eq, Drop)]
pub struct SetterProp<N = Node> {
    pub span: Span,
    pub key: PropName<N>,
    pub param: Pat<N>,
    pub body: Option<BlockStmt<N>>,
}

/// A method (ECMA-262, 15.4).
#[derive(Debug, PartialEq, Eq, Drop)]
pub struct MethodProp<N = Node> {
    pub span: Span,
    pub key: PropName<N>,
    pub function: Box<Function<N>>,
}

impl<N> Spanned for ArrayLit<N> {
    ghost span_of = { λ x. x.span };

    fn span(&self) -> Span {
        self.span
    }
}

impl<N> Spanned for ObjectLit<N> {
    ghost span_of = { λ x. x.span };

    fn span(&self) -> Span {
        self.span
    }
}

impl Spanned for Prop {
    ghost use Rattle.swc_ecma_parser_model.specs.Forms as model;
    ghost use Rattle.swc_ecma_parser_ast.specs.View.{view_prop};

    ghost span_of = { λ x. model.span_of (view_prop x) };

    fn span(&self) -> Span {
        match self {
            Prop::Shorthand(x) => x.span(),
            Prop::KeyValue(x) => x.span(),
            Prop::Assign(x) => x.span(),
            Prop::Getter(x) => x.span(),
            Prop::Setter(x) => x.span(),
            Prop::Method(x) => x.span(),
        }
    }
}

impl<N> Spanned for KeyValueProp<N> {
    ghost span_of = { λ x. x.span };

    fn span(&self) -> Span {
        self.span
    }
}

impl<N> Spanned for AssignProp<N> {
    ghost span_of = { λ x. x.span };

    fn span(&self) -> Span {
        self.span
    }
}

impl Spanned for PropName {
    ghost use Rattle.swc_ecma_parser_model.specs.Forms as model;
    ghost use Rattle.swc_ecma_parser_ast.specs.View.{view_prop_name};

    ghost span_of = { λ x. model.span_of (view_prop_name x) };

    fn span(&self) -> Span {
        match self {
            PropName::Ident(x) => x.span(),
            PropName::Str(x) => x.span(),
            PropName::Num(x) => x.span(),
            PropName::BigInt(x) => x.span(),
            PropName::Computed(x) => x.span(),
        }
    }
}

impl<N> Spanned for ComputedPropName<N> {
    ghost span_of = { λ x. x.span };

    fn span(&self) -> Span {
        self.span
    }
}

impl<N> Spanned for GetterProp<N> {
    ghost span_of = { λ x. x.span };

    fn span(&self) -> Span {
        self.span
    }
}

impl<N> Spanned for SetterProp<N> {
    ghost span_of = { λ x. x.span };

    fn span(&self) -> Span {
        self.span
    }
}

impl<N> Spanned for MethodProp<N> {
    ghost span_of = { λ x. x.span };

    fn span(&self) -> Span {
        self.span
    }
}
