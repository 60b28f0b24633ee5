ghost use Rattle.std.specs.Prelude.{◌≡◌};

use crate::node::{ExprBox, Node};
use swc_ecma_parser_common::{Span, Spanned};
use swc_ecma_parser_model::TplElement;

/// A template (ECMA-262, 13.2.8). The span takes in its marks. A text stands before, between and behind the expressions, so there is
/// one more.
#[derive(Debug, PartialEq, Eq, Drop)]
pub struct Tpl<N = Node> {
    pub span: Span,
    pub exprs: Vec<ExprBox<N>>,
    pub quasis: Vec<TplElement>,
}

/// A template behind its tag (ECMA-262, 13.3.11).
#[derive(Debug, PartialEq, Eq, Drop)]
pub struct TaggedTpl<N = Node> {
    pub span: Span,
    pub tag: ExprBox<N>,
    pub tpl: Box<Tpl<N>>,
}

impl<N> Spanned for Tpl<N> {
    ghost span_of = { λ x. x.span };

    fn span(&self) -> Span {
        self.span
    }
}

impl<N> Spanned for TaggedTpl<N> {
    ghost span_of = { λ x. x.span };

    fn span(&self) -> Span {
        self.span
    }
}
