ghost use Rattle.std.specs.Prelude.{◌≡◌};

use crate::function::Decorator;
use crate::node::{ExprBox, Node};
use crate::object::PropName;
use crate::stmt::BlockStmt;
use swc_ecma_parser_common::{Span, Spanned};
use swc_ecma_parser_model::PrivateName;

/// A field (ECMA-262, 15.7).
#[derive(Debug, PartialEq, Eq, Drop)]
pub struct ClassProp<N = Node> {
    pub span: Span,
    pub key: PropName<N>,
    pub value: Option<ExprBox<N>>,
    pub is_static: bool,
    pub decorators: Vec<Decorator<N>>,
}

/// A field with a private name (ECMA-262, 15.7).
#[derive(Debug, PartialEq, Eq, Drop)]
pub struct PrivateProp<N = Node> {
    pub span: Span,
    pub key: PrivateName,
    pub value: Option<ExprBox<N>>,
    pub is_static: bool,
    pub decorators: Vec<Decorator<N>>,
}

/// A field with a getter and a setter.
#[derive(Debug, PartialEq, Eq, Drop)]
pub struct AutoAccessor<N = Node> {
    pub span: Span,
    pub key: Key<N>,
    pub value: Option<ExprBox<N>>,
    pub is_static: bool,
    pub decorators: Vec<Decorator<N>>,
}

/// The key of a field with a getter and a setter.
#[derive(Debug, PartialEq, Eq, Drop)]
pub enum Key<N = Node> {
    Private(PrivateName),
    Public(PropName<N>),
}

/// A block that runs with its class (ECMA-262, 15.7).
#[derive(Debug, PartialEq, Eq, Drop)]
pub struct StaticBlock<N = Node> {
    pub span: Span,
    pub body: BlockStmt<N>,
}

impl<N> Spanned for ClassProp<N> {
    ghost span_of = { λ x. x.span };

    fn span(&self) -> Span {
        self.span
    }
}

impl<N> Spanned for PrivateProp<N> {
    ghost span_of = { λ x. x.span };

    fn span(&self) -> Span {
        self.span
    }
}

impl<N> Spanned for AutoAccessor<N> {
    ghost span_of = { λ x. x.span };

    fn span(&self) -> Span {
        self.span
    }
}

impl Spanned for Key {
    ghost use Rattle.swc_ecma_parser_model.specs.Forms as model;
    ghost use Rattle.swc_ecma_parser_ast.specs.View.{view_key};

    ghost span_of = { λ x. model.span_of (view_key x) };

    fn span(&self) -> Span {
        match self {
            Key::Private(x) => x.span(),
            Key::Public(x) => x.span(),
        }
    }
}

impl<N> Spanned for StaticBlock<N> {
    ghost span_of = { λ x. x.span };

    fn span(&self) -> Span {
        self.span
    }
}
