ghost use Rattle.std.specs.Prelude.{◌≡◌};

use crate::node::{ExprBox, Node};
use crate::object::ComputedPropName;
use swc_ecma_parser_common::{Span, Spanned};
use swc_ecma_parser_model::{Ident, PrivateName};

/// A member of an object (ECMA-262, 13.3.2).
#[derive(Debug, PartialEq, Eq, Drop)]
pub struct MemberExpr<N = Node> {
    pub span: Span,
    pub obj: ExprBox<N>,
    pub prop: MemberProp<N>,
}

/// How a member is named (ECMA-262, 13.3.2).
#[derive(Debug, PartialEq, Eq, Drop)]
pub enum MemberProp<N = Node> {
    Ident(Ident),
    PrivateName(PrivateName),
    Computed(ComputedPropName<N>),
}

/// A member of `super` (ECMA-262, 13.3.7).
#[derive(Debug, PartialEq, Eq, Drop)]
pub struct SuperPropExpr<N = Node> {
    pub span: Span,
    pub obj: Super,
    pub prop: SuperProp<N>,
}

/// How a member of `super` is named (ECMA-262, 13.3.7).
#[derive(Debug, PartialEq, Eq, Drop)]
pub enum SuperProp<N = Node> {
    Ident(Ident),
    Computed(ComputedPropName<N>),
}

/// `super` (ECMA-262, 13.3.7).
#[derive(Clone, Copy, Debug, PartialEq, Eq)]
pub struct Super {
    pub span: Span,
}

/// `import` as what is called (ECMA-262, 13.3.10).
#[derive(Clone, Copy, Debug, PartialEq, Eq)]
pub struct Import {
    pub span: Span,
}

/// A call (ECMA-262, 13.3.6).
#[derive(Debug, PartialEq, Eq, Drop)]
pub struct CallExpr<N = Node> {
    pub span: Span,
    pub callee: Callee<N>,
    pub args: Vec<ExprOrSpread<N>>,
}

/// A link of an optional chain (ECMA-262, 13.3.9); `optional` says that `?.` stands before it. What it is a link of is a link itself,
/// without parentheses, or `optional` holds: so a chain begins at `?.`.
#[derive(Debug, PartialEq, Eq, Drop)]
pub struct OptChainExpr<N = Node> {
    pub span: Span,
    pub optional: bool,
    pub base: Box<OptChainBase<N>>,
}

/// What a link of an optional chain is; its span is that of the link (ECMA-262, 13.3.9).
#[derive(Debug, PartialEq, Eq, Drop)]
pub enum OptChainBase<N = Node> {
    Member(MemberExpr<N>),
    Call(OptCall<N>),
}

/// A call as a link of an optional chain (ECMA-262, 13.3.9).
#[derive(Debug, PartialEq, Eq, Drop)]
pub struct OptCall<N = Node> {
    pub span: Span,
    pub callee: ExprBox<N>,
    pub args: Vec<ExprOrSpread<N>>,
}

/// What is called (ECMA-262, 13.3.6).
#[derive(Debug, PartialEq, Eq, Drop)]
pub enum Callee<N = Node> {
    Super(Super),
    Import(Import),
    Expr(ExprBox<N>),
}

/// `new`; without parentheses it has no arguments (ECMA-262, 13.3.5).
#[derive(Debug, PartialEq, Eq, Drop)]
pub struct NewExpr<N = Node> {
    pub span: Span,
    pub callee: ExprBox<N>,
    pub args: Option<Vec<ExprOrSpread<N>>>,
}

/// An element or an argument; `spread` is where its dots stand, if it has them (ECMA-262, 13.2.4 and 13.3.8).
#[derive(Debug, PartialEq, Eq, Drop)]
pub struct ExprOrSpread<N = Node> {
    pub spread: Option<Span>,
    pub expr: ExprBox<N>,
}

impl<N> Spanned for MemberExpr<N> {
    ghost span_of = { λ x. x.span };

    fn span(&self) -> Span {
        self.span
    }
}

impl Spanned for MemberProp {
    ghost use Rattle.swc_ecma_parser_model.specs.Forms as model;
    ghost use Rattle.swc_ecma_parser_ast.specs.View.{view_member_prop};

    ghost span_of = { λ x. model.span_of (view_member_prop x) };

    fn span(&self) -> Span {
        match self {
            MemberProp::Ident(x) => x.span(),
            MemberProp::PrivateName(x) => x.span(),
            MemberProp::Computed(x) => x.span(),
        }
    }
}

impl<N> Spanned for SuperPropExpr<N> {
    ghost span_of = { λ x. x.span };

    fn span(&self) -> Span {
        self.span
    }
}

impl Spanned for SuperProp {
    ghost use Rattle.swc_ecma_parser_model.specs.Forms as model;
    ghost use Rattle.swc_ecma_parser_ast.specs.View.{view_super_prop};

    ghost span_of = { λ x. model.span_of (view_super_prop x) };

    fn span(&self) -> Span {
        match self {
            SuperProp::Ident(x) => x.span(),
            SuperProp::Computed(x) => x.span(),
        }
    }
}

impl Spanned for Super {
    ghost span_of = { λ x. x.span };

    fn span(&self) -> Span {
        self.span
    }
}

impl Spanned for Import {
    ghost span_of = { λ x. x.span };

    fn span(&self) -> Span {
        self.span
    }
}

impl<N> Spanned for CallExpr<N> {
    ghost span_of = { λ x. x.span };

    fn span(&self) -> Span {
        self.span
    }
}

impl<N> Spanned for OptChainExpr<N> {
    ghost span_of = { λ x. x.span };

    fn span(&self) -> Span {
        self.span
    }
}

impl<N> Spanned for OptCall<N> {
    ghost span_of = { λ x. x.span };

    fn span(&self) -> Span {
        self.span
    }
}

impl Spanned for OptChainBase {
    ghost use Rattle.swc_ecma_parser_model.specs.Forms as model;
    ghost use Rattle.swc_ecma_parser_ast.specs.View.{view_opt_chain_base};

    ghost span_of = { λ x. model.span_of (view_opt_chain_base x) };

    fn span(&self) -> Span {
        match self {
            OptChainBase::Member(x) => x.span(),
            OptChainBase::Call(x) => x.span(),
        }
    }
}

impl Spanned for Callee {
    ghost use Rattle.swc_ecma_parser_model.specs.Forms as model;
    ghost use Rattle.swc_ecma_parser_ast.specs.View.{view_callee};

    ghost span_of = { λ x. model.span_of (view_callee x) };

    fn span(&self) -> Span {
        match self {
            Callee::Super(x) => x.span(),
            Callee::Import(x) => x.span(),
            Callee::Expr(x) => x.span(),
        }
    }
}

impl<N> Spanned for NewExpr<N> {
    ghost span_of = { λ x. x.span };

    fn span(&self) -> Span {
        self.span
    }
}
