ghost use Rattle.std.specs.Prelude.{◌≡◌};

use crate::call::{MemberExpr, SuperPropExpr};
use crate::expr::ParenExpr;
use crate::node::{ExprBox, Node};
use crate::pat::{ArrayPat, BindingIdent, ObjectPat};
use swc_ecma_parser_common::{Span, Spanned};
use swc_ecma_parser_model::AssignOp;

/// An assignment (ECMA-262, 13.15).
#[derive(Debug, PartialEq, Eq, Drop)]
pub struct AssignExpr<N = Node> {
    pub span: Span,
    pub op: AssignOp,
    pub left: Box<AssignTarget<N>>,
    pub right: ExprBox<N>,
}

/// What is assigned to (ECMA-262, 13.15).
#[derive(Debug, PartialEq, Eq, Drop)]
pub enum AssignTarget<N = Node> {
    Simple(SimpleAssignTarget<N>),
    Pat(AssignTargetPat<N>),
}

/// A pattern that is assigned to (ECMA-262, 13.15.5).
#[derive(Debug, PartialEq, Eq, Drop)]
pub enum AssignTargetPat<N = Node> {
    Array(ArrayPat<N>),
    Object(ObjectPat<N>),
}

/// A name or a member, with or without parentheses (ECMA-262, 13.15).
#[derive(Debug, PartialEq, Eq, Drop)]
pub enum SimpleAssignTarget<N = Node> {
    Ident(BindingIdent),
    Member(MemberExpr<N>),
    SuperProp(SuperPropExpr<N>),
    Paren(ParenExpr<N>),
}

impl<N> Spanned for AssignExpr<N> {
    ghost span_of = { λ x. x.span };

    fn span(&self) -> Span {
        self.span
    }
}

impl Spanned for AssignTarget {
    ghost use Rattle.swc_ecma_parser_model.specs.Forms as model;
    ghost use Rattle.swc_ecma_parser_ast.specs.View.{view_assign_target};

    ghost span_of = { λ x. model.span_of (view_assign_target x) };

    fn span(&self) -> Span {
        match self {
            AssignTarget::Simple(x) => x.span(),
            AssignTarget::Pat(x) => x.span(),
        }
    }
}

impl Spanned for AssignTargetPat {
    ghost use Rattle.swc_ecma_parser_model.specs.Forms as model;
    ghost use Rattle.swc_ecma_parser_ast.specs.View.{view_assign_target_pat};

    ghost span_of = { λ x. model.span_of (view_assign_target_pat x) };

    fn span(&self) -> Span {
        match self {
            AssignTargetPat::Array(x) => x.span(),
            AssignTargetPat::Object(x) => x.span(),
        }
    }
}

impl Spanned for SimpleAssignTarget {
    ghost use Rattle.swc_ecma_parser_model.specs.Forms as model;
    ghost use Rattle.swc_ecma_parser_ast.specs.View.{view_simple_assign_target};

    ghost span_of = { λ x. model.span_of (view_simple_assign_target x) };

    fn span(&self) -> Span {
        match self {
            SimpleAssignTarget::Ident(x) => x.span(),
            SimpleAssignTarget::Member(x) => x.span(),
            SimpleAssignTarget::SuperProp(x) => x.span(),
            SimpleAssignTarget::Paren(x) => x.span(),
        }
    }
}
