//! Nodes compared but for their spans. As in `==`, two chains are compared link by link, in a loop.

ghost use Rattle.std.specs.Prelude.{◌≡◌, Bool};
ghost use Rattle.swc_ecma_parser_ast.specs.Like.{any_span, like_expr, like_pat, like_stmt, like_stmts};
ghost use Rattle.swc_ecma_parser_ast.specs.LikeChain as chain;
ghost use Rattle.swc_ecma_parser_ast.specs.Nodes.{view_any};
ghost use Rattle.swc_ecma_parser_ast.specs.Unspanned.{like_held};

use crate::branch::IfStmt;
use crate::call::{CallExpr, MemberExpr, OptCall, OptChainBase, OptChainExpr};
use crate::expr::{BinExpr, Expr};
use crate::ignore_span::EqIgnoreSpan;
use crate::node::{Any, ExprBox, Node, PatBox, StmtBox, StmtList};
use crate::pat::Pat;
use crate::stmt::Stmt;
use crate::template::TaggedTpl;

impl<N: EqIgnoreSpan> EqIgnoreSpan for ExprBox<N> {
    ghost like = { λ a b. N.like a.node b.node };

    fn eq_ignore_span(&self, other: &ExprBox<N>) -> bool {
        self.node.eq_ignore_span(&other.node)
    }
}

impl<N: EqIgnoreSpan> EqIgnoreSpan for PatBox<N> {
    ghost like = { λ a b. N.like a.node b.node };

    fn eq_ignore_span(&self, other: &PatBox<N>) -> bool {
        self.node.eq_ignore_span(&other.node)
    }
}

impl<N: EqIgnoreSpan> EqIgnoreSpan for StmtBox<N> {
    ghost like = { λ a b. N.like a.node b.node };

    fn eq_ignore_span(&self, other: &StmtBox<N>) -> bool {
        self.node.eq_ignore_span(&other.node)
    }
}

impl<N: EqIgnoreSpan> EqIgnoreSpan for StmtList<N> {
    ghost like = { λ a b. N.like a.node b.node };

    fn eq_ignore_span(&self, other: &StmtList<N>) -> bool {
        self.node.eq_ignore_span(&other.node)
    }
}

impl EqIgnoreSpan for Any {
    ghost like = { λ x y. like_held (view_any x) (view_any y) };

    #[cycle(ignore_span)]
    fn eq_ignore_span(&self, other: &Any) -> bool {
        match self {
            Any::Expr(a) => match other {
                Any::Expr(b) => are_like_exprs(a, b),
                Any::Pat(_) => false,
                Any::Stmt(_) => false,
                Any::Stmts(_) => false,
            },
            Any::Pat(a) => match other {
                Any::Pat(b) => are_like_pats(a, b),
                Any::Expr(_) => false,
                Any::Stmt(_) => false,
                Any::Stmts(_) => false,
            },
            Any::Stmt(a) => match other {
                Any::Stmt(b) => are_like_boxed_stmts(a, b),
                Any::Expr(_) => false,
                Any::Pat(_) => false,
                Any::Stmts(_) => false,
            },
            Any::Stmts(a) => match other {
                Any::Stmts(b) => are_like_stmts(a, b),
                Any::Expr(_) => false,
                Any::Pat(_) => false,
                Any::Stmt(_) => false,
            },
        }
    }
}

/// Whether they are alike but for spans, in a contract that stays small where `N` is `Node`.
fn are_like_exprs<N: EqIgnoreSpan>(a: &Box<Expr<N>>, b: &Box<Expr<N>>) -> bool
    ensures { result ≡ like_expr any_span N.like a.now.value b.now.value }
{
    a.eq_ignore_span(b)
}

/// As `are_like_exprs`.
fn are_like_pats<N: EqIgnoreSpan>(a: &Box<Pat<N>>, b: &Box<Pat<N>>) -> bool
    ensures { result ≡ like_pat any_span N.like a.now.value b.now.value }
{
    a.eq_ignore_span(b)
}

/// As `are_like_exprs`.
fn are_like_boxed_stmts<N: EqIgnoreSpan>(a: &Box<Stmt<N>>, b: &Box<Stmt<N>>) -> bool
    ensures { result ≡ like_stmt any_span N.like a.now.value b.now.value }
{
    a.eq_ignore_span(b)
}

/// As `are_like_exprs`.
fn are_like_stmts<N: EqIgnoreSpan>(a: &Box<Vec<Stmt<N>>>, b: &Box<Vec<Stmt<N>>>) -> bool
    ensures { result ≡ like_stmts any_span N.like a.now.value.items b.now.value.items }
{
    a.eq_ignore_span(b)
}

impl EqIgnoreSpan for Node {
    ghost like = { like_held };

    /// Two chains are compared link by link, in a loop.
    #[cycle(ignore_span)]
    fn eq_ignore_span(&self, other: &Node) -> bool {
        let mut left = self;
        let mut right = other;
        while let Some(left_rest) = left.inner.rest() {
            let Some(right_rest) = right.inner.rest() else {
                break;
            };
            if !are_like_links(&left.inner, &right.inner) {
                return false;
            }
            left = left_rest;
            right = right_rest;
        }
        left.inner.eq_ignore_span(&right.inner)
    }
}

/// Whether two links of chains are of one kind, and alike but for spans and the parts on which they go on.
#[cycle(ignore_span)]
fn are_like_links(a: &Any, b: &Any) -> bool
    ensures { result ≡ chain.like_links a.now b.now }
{
    match a {
        Any::Expr(a) => match b {
            Any::Expr(b) => are_like_linked_exprs(a, b),
            _ => false,
        },
        Any::Stmt(a) => match b {
            Any::Stmt(b) => are_like_linked_stmts(a, b),
            _ => false,
        },
        _ => false,
    }
}

/// Whether two expressions are links of one kind, alike but for spans and the parts on which they go on.
fn are_like_linked_exprs<N: EqIgnoreSpan>(a: &Box<Expr<N>>, b: &Box<Expr<N>>) -> bool
    ensures { result ≡ chain.like_exprs any_span N.like a.now.value b.now.value }
{
    match &**a {
        Expr::Bin(x) => match &**b {
            Expr::Bin(y) => are_like_bins(x, y),
            _ => false,
        },
        Expr::Member(x) => match &**b {
            Expr::Member(y) => are_like_members(x, y),
            _ => false,
        },
        Expr::Call(x) => match &**b {
            Expr::Call(y) => are_like_calls(x, y),
            _ => false,
        },
        Expr::TaggedTpl(x) => match &**b {
            Expr::TaggedTpl(y) => are_like_tagged(x, y),
            _ => false,
        },
        Expr::OptChain(x) => match &**b {
            Expr::OptChain(y) => are_like_opt_chains(x, y),
            _ => false,
        },
        _ => false,
    }
}

/// As `are_like_linked_exprs`.
fn are_like_linked_stmts<N: EqIgnoreSpan>(a: &Box<Stmt<N>>, b: &Box<Stmt<N>>) -> bool
    ensures { result ≡ chain.like_stmts any_span N.like a.now.value b.now.value }
{
    match (&**a, &**b) {
        (Stmt::If(x), Stmt::If(y)) => are_like_ifs(x, y),
        _ => false,
    }
}

/// Whether two operators are alike but for what stands left of them.
fn are_like_bins<N: EqIgnoreSpan>(a: &BinExpr<N>, b: &BinExpr<N>) -> bool
    ensures { result ≡ chain.like_bins any_span N.like a.now b.now }
{
    a.op.eq_ignore_span(&b.op) && a.right.eq_ignore_span(&b.right)
}

/// Whether two members are alike but for what they are members of.
fn are_like_members<N: EqIgnoreSpan>(a: &MemberExpr<N>, b: &MemberExpr<N>) -> bool
    ensures { result ≡ chain.like_members any_span N.like a.now b.now }
{
    a.prop.eq_ignore_span(&b.prop)
}

/// Whether two calls are alike but for what they call.
fn are_like_calls<N: EqIgnoreSpan>(a: &CallExpr<N>, b: &CallExpr<N>) -> bool
    ensures { result ≡ chain.like_calls any_span N.like a.now b.now }
{
    a.args.eq_ignore_span(&b.args)
}

/// Whether two templates are alike but for their tags.
fn are_like_tagged<N: EqIgnoreSpan>(a: &TaggedTpl<N>, b: &TaggedTpl<N>) -> bool
    ensures { result ≡ chain.like_tagged any_span N.like a.now b.now }
{
    a.tpl.eq_ignore_span(&b.tpl)
}

/// Whether two links of optional chains are alike but for what they are links of.
fn are_like_opt_chains<N: EqIgnoreSpan>(a: &OptChainExpr<N>, b: &OptChainExpr<N>) -> bool
    ensures { result ≡ chain.like_opt_chains any_span N.like a.now b.now }
{
    a.optional.eq_ignore_span(&b.optional) && are_like_bases(&a.base, &b.base)
}

/// As `are_like_opt_chains`.
fn are_like_bases<N: EqIgnoreSpan>(a: &OptChainBase<N>, b: &OptChainBase<N>) -> bool
    ensures { result ≡ chain.like_bases any_span N.like a.now b.now }
{
    match a {
        OptChainBase::Member(x) => match b {
            OptChainBase::Member(y) => are_like_members(x, y),
            OptChainBase::Call(_) => false,
        },
        OptChainBase::Call(x) => match b {
            OptChainBase::Call(y) => are_like_opt_calls(x, y),
            OptChainBase::Member(_) => false,
        },
    }
}

/// Whether two calls are alike but for what they call.
fn are_like_opt_calls<N: EqIgnoreSpan>(a: &OptCall<N>, b: &OptCall<N>) -> bool
    ensures { result ≡ chain.like_opt_calls any_span N.like a.now b.now }
{
    a.args.eq_ignore_span(&b.args)
}

/// Whether two `if` are alike but for what stands behind `else`.
fn are_like_ifs<N: EqIgnoreSpan>(a: &IfStmt<N>, b: &IfStmt<N>) -> bool
    ensures { result ≡ chain.like_ifs any_span N.like a.now b.now }
{
    a.test.eq_ignore_span(&b.test) && a.cons.eq_ignore_span(&b.cons)
}
