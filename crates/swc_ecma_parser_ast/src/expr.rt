ghost use Rattle.std.specs.Prelude.{◌≡◌};

use crate::call::{CallExpr, MemberExpr, NewExpr, OptChainExpr, SuperPropExpr};
use crate::class::ClassExpr;
use crate::function::{ArrowExpr, FnExpr};
use crate::node::{ExprBox, Node};
use crate::object::{ArrayLit, ObjectLit};
use crate::target::AssignExpr;
use crate::template::{TaggedTpl, Tpl};
use swc_ecma_parser_common::{Span, Spanned};
use swc_ecma_parser_model::{
    BigInt, BinaryOp, Bool, Ident, MetaPropKind, Null, Number, PrivateName, Regex, Str, UnaryOp,
    UpdateOp,
};

/// An expression (ECMA-262, 13).
#[derive(Debug, PartialEq, Eq, Drop)]
pub enum Expr<N = Node> {
    This(ThisExpr),
    Array(ArrayLit<N>),
    Object(ObjectLit<N>),
    Fn(FnExpr<N>),
    Unary(UnaryExpr<N>),
    Update(UpdateExpr<N>),
    Bin(BinExpr<N>),
    Assign(AssignExpr<N>),
    Member(MemberExpr<N>),
    SuperProp(SuperPropExpr<N>),
    Cond(CondExpr<N>),
    Call(CallExpr<N>),
    New(NewExpr<N>),
    Seq(SeqExpr<N>),
    Ident(Ident),
    Lit(Lit),
    Arrow(ArrowExpr<N>),
    Class(ClassExpr<N>),
    Yield(YieldExpr<N>),
    MetaProp(MetaPropExpr),
    Await(AwaitExpr<N>),
    Paren(ParenExpr<N>),
    Tpl(Tpl<N>),
    TaggedTpl(TaggedTpl<N>),
    OptChain(OptChainExpr<N>),
    /// The left operand of `in` alone.
    PrivateName(PrivateName),
    Invalid(Invalid),
}

/// A literal (ECMA-262, 13.2.3).
#[derive(Debug, PartialEq, Eq, Drop)]
pub enum Lit {
    Str(Str),
    Bool(Bool),
    Null(Null),
    Num(Number),
    BigInt(BigInt),
    Regex(Regex),
}

/// `this` (ECMA-262, 13.2.1).
#[derive(Clone, Copy, Debug, PartialEq, Eq)]
pub struct ThisExpr {
    pub span: Span,
}

/// An operator before its operand (ECMA-262, 13.5).
#[derive(Debug, PartialEq, Eq, Drop)]
pub struct UnaryExpr<N = Node> {
    pub span: Span,
    pub op: UnaryOp,
    pub arg: ExprBox<N>,
}

/// `++` or `--`, before or after its operand (ECMA-262, 13.4).
#[derive(Debug, PartialEq, Eq, Drop)]
pub struct UpdateExpr<N = Node> {
    pub span: Span,
    pub op: UpdateOp,
    pub prefix: bool,
    pub arg: ExprBox<N>,
}

/// An operator between two operands (ECMA-262, 13.6 to 13.13).
#[derive(Debug, PartialEq, Eq, Drop)]
pub struct BinExpr<N = Node> {
    pub span: Span,
    pub op: BinaryOp,
    pub left: ExprBox<N>,
    pub right: ExprBox<N>,
}

/// `? :` (ECMA-262, 13.14).
#[derive(Debug, PartialEq, Eq, Drop)]
pub struct CondExpr<N = Node> {
    pub span: Span,
    pub test: ExprBox<N>,
    pub cons: ExprBox<N>,
    pub alt: ExprBox<N>,
}

/// Expressions with `,` between them (ECMA-262, 13.16).
#[derive(Debug, PartialEq, Eq, Drop)]
pub struct SeqExpr<N = Node> {
    pub span: Span,
    pub exprs: Vec<ExprBox<N>>,
}

/// `yield`, with `*` where it hands over to another iterator (ECMA-262, 15.5).
#[derive(Debug, PartialEq, Eq, Drop)]
pub struct YieldExpr<N = Node> {
    pub span: Span,
    pub arg: Option<ExprBox<N>>,
    pub delegate: bool,
}

/// `await` (ECMA-262, 15.8).
#[derive(Debug, PartialEq, Eq, Drop)]
pub struct AwaitExpr<N = Node> {
    pub span: Span,
    pub arg: ExprBox<N>,
}

/// `import.meta` or `new.target` (ECMA-262, 13.3.12).
#[derive(Clone, Copy, Debug, PartialEq, Eq)]
pub struct MetaPropExpr {
    pub span: Span,
    pub kind: MetaPropKind,
}

/// An expression in parentheses (ECMA-262, 13.2.9). The span takes in both of them.
#[derive(Debug, PartialEq, Eq, Drop)]
pub struct ParenExpr<N = Node> {
    pub span: Span,
    pub expr: ExprBox<N>,
}

/// What stands where no expression was read.
#[derive(Clone, Copy, Debug, PartialEq, Eq)]
pub struct Invalid {
    pub span: Span,
}

impl Spanned for Expr {
    ghost use Rattle.swc_ecma_parser_model.specs.Forms as model;
    ghost use Rattle.swc_ecma_parser_ast.specs.View.{view_expr};

    ghost span_of = { λ x. model.span_of (view_expr x) };

    fn span(&self) -> Span {
        match self {
            Expr::This(x) => x.span(),
            Expr::Array(x) => x.span(),
            Expr::Object(x) => x.span(),
            Expr::Fn(x) => x.span(),
            Expr::Unary(x) => x.span(),
            Expr::Update(x) => x.span(),
            Expr::Bin(x) => x.span(),
            Expr::Assign(x) => x.span(),
            Expr::Member(x) => x.span(),
            Expr::SuperProp(x) => x.span(),
            Expr::Cond(x) => x.span(),
            Expr::Call(x) => x.span(),
            Expr::New(x) => x.span(),
            Expr::Seq(x) => x.span(),
            Expr::Ident(x) => x.span(),
            Expr::Lit(x) => x.span(),
            Expr::Arrow(x) => x.span(),
            Expr::Class(x) => x.span(),
            Expr::Yield(x) => x.span(),
            Expr::MetaProp(x) => x.span(),
            Expr::Await(x) => x.span(),
            Expr::Paren(x) => x.span(),
            Expr::Tpl(x) => x.span(),
            Expr::TaggedTpl(x) => x.span(),
            Expr::OptChain(x) => x.span(),
            Expr::PrivateName(x) => x.span(),
            Expr::Invalid(x) => x.span(),
        }
    }
}

impl Spanned for Lit {
    ghost use Rattle.swc_ecma_parser_model.specs.Forms as model;
    ghost use Rattle.swc_ecma_parser_ast.specs.View.{view_lit};

    ghost span_of = { λ x. model.span_of (view_lit x) };

    fn span(&self) -> Span {
        match self {
            Lit::Str(x) => x.span(),
            Lit::Bool(x) => x.span(),
            Lit::Null(x) => x.span(),
            Lit::Num(x) => x.span(),
            Lit::BigInt(x) => x.span(),
            Lit::Regex(x) => x.span(),
        }
    }
}

impl Spanned for ThisExpr {
    ghost span_of = { λ x. x.span };

    fn span(&self) -> Span {
        self.span
    }
}

impl<N> Spanned for UnaryExpr<N> {
    ghost span_of = { λ x. x.span };

    fn span(&self) -> Span {
        self.span
    }
}

impl<N> Spanned for UpdateExpr<N> {
    ghost span_of = { λ x. x.span };

    fn span(&self) -> Span {
        self.span
    }
}

impl<N> Spanned for BinExpr<N> {
    ghost span_of = { λ x. x.span };

    fn span(&self) -> Span {
        self.span
    }
}

impl<N> Spanned for CondExpr<N> {
    ghost span_of = { λ x. x.span };

    fn span(&self) -> Span {
        self.span
    }
}

impl<N> Spanned for SeqExpr<N> {
    ghost span_of = { λ x. x.span };

    fn span(&self) -> Span {
        self.span
    }
}

impl<N> Spanned for YieldExpr<N> {
    ghost span_of = { λ x. x.span };

    fn span(&self) -> Span {
        self.span
    }
}

impl<N> Spanned for AwaitExpr<N> {
    ghost span_of = { λ x. x.span };

    fn span(&self) -> Span {
        self.span
    }
}

impl Spanned for MetaPropExpr {
    ghost span_of = { λ x. x.span };

    fn span(&self) -> Span {
        self.span
    }
}

impl<N> Spanned for ParenExpr<N> {
    ghost span_of = { λ x. x.span };

    fn span(&self) -> Span {
        self.span
    }
}

impl Spanned for Invalid {
    ghost span_of = { λ x. x.span };

    fn span(&self) -> Span {
        self.span
    }
}
