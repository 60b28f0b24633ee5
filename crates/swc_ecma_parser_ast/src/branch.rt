ghost use Rattle.std.specs.Prelude.{◌≡◌};

use crate::node::{ExprBox, Node, StmtBox, StmtList};
use crate::pat::Pat;
use crate::stmt::BlockStmt;
use swc_ecma_parser_common::{Span, Spanned};

/// `if` (ECMA-262, 14.6).
#[derive(Debug, PartialEq, Eq, Drop)]
pub struct IfStmt<N = Node> {
    pub span: Span,
    pub test: ExprBox<N>,
    pub cons: StmtBox<N>,
    pub alt: Option<StmtBox<N>>,
}

/// `switch` (ECMA-262, 14.12).
#[derive(Debug, PartialEq, Eq, Drop)]
pub struct SwitchStmt<N = Node> {
    pub span: Span,
    pub discriminant: ExprBox<N>,
    pub cases: Vec<SwitchCase<N>>,
}

/// A case of a `switch`; `default` has no test (ECMA-262, 14.12).
#[derive(Debug, PartialEq, Eq, Drop)]
pub struct SwitchCase<N = Node> {
    pub span: Span,
    pub test: Option<ExprBox<N>>,
    pub cons: StmtList<N>,
}

/// `throw` (ECMA-262, 14.14). The span ends with its `;`, if it has one.
#[derive(Debug, PartialEq, Eq, Drop)]
pub struct ThrowStmt<N = Node> {
    pub span: Span,
    pub arg: ExprBox<N>,
}

/// `try` (ECMA-262, 14.15).
#[derive(Debug, PartialEq, Eq, Drop)]
pub struct TryStmt<N = Node> {
    pub span: Span,
    pub block: BlockStmt<N>,
    pub handler: Option<CatchClause<N>>,
    pub finalizer: Option<BlockStmt<N>>,
}

/// What catches what was thrown (ECMA-262, 14.15).
#[derive(Debug, PartialEq, Eq, Drop)]
pub struct CatchClause<N = Node> {
    pub span: Span,
    pub param: Option<Pat<N>>,
    pub body: BlockStmt<N>,
}

impl<N> Spanned for IfStmt<N> {
    ghost span_of = { λ x. x.span };

    fn span(&self) -> Span {
        self.span
    }
}

impl<N> Spanned for SwitchStmt<N> {
    ghost span_of = { λ x. x.span };

    fn span(&self) -> Span {
        self.span
    }
}

impl<N> Spanned for SwitchCase<N> {
    ghost span_of = { λ x. x.span };

    fn span(&self) -> Span {
        self.span
    }
}

impl<N> Spanned for ThrowStmt<N> {
    ghost span_of = { λ x. x.span };

    fn span(&self) -> Span {
        self.span
    }
}

impl<N> Spanned for TryStmt<N> {
    ghost span_of = { λ x. x.span };

    fn span(&self) -> Span {
        self.span
    }
}

impl<N> Spanned for CatchClause<N> {
    ghost span_of = { λ x. x.span };

    fn span(&self) -> Span {
        self.span
    }
}
