//! Links of chains: on the left (`a + a + ..`, `a.a.a..`, `f()()..`, `a?.a?.a..`, tags of templates), or of `else if`. No limit on levels bounds a chain, so it is
//! gone along in a loop, one link at a time.

ghost use Rattle.std.specs.Prelude.{◌≡◌, IfSome, Some};
ghost use Rattle.swc_ecma_parser_ast.specs.Chain as chain;

use crate::branch::IfStmt;
use crate::call::{CallExpr, Callee, MemberExpr, OptCall, OptChainBase, OptChainExpr};
use crate::expr::{BinExpr, Expr};
use crate::stmt::Stmt;
use crate::template::TaggedTpl;
use std::fmt::{self, Debug, DebugList, Formatter, Write};

/// The part on which a chain goes on, if this is a link of one.
pub(crate) fn expr_rest<N>(expr: &Expr<N>) -> Option<&N>
    ensures { IfSome result (λ n. chain.rest_of_expr expr.now ≡ Some n.now) }
{
    match expr {
        Expr::Bin(x) => Some(&x.left.node),
        Expr::Member(x) => Some(&x.obj.node),
        Expr::Call(x) => match &x.callee {
            Callee::Expr(callee) => Some(&callee.node),
            _ => None,
        },
        Expr::TaggedTpl(x) => Some(&x.tag.node),
        Expr::OptChain(x) => Some(base_rest(&x.base)),
        _ => None,
    }
}

/// The part on which an optional chain goes on.
fn base_rest<N>(base: &OptChainBase<N>) -> &N
    ensures { result.now ≡ chain.rest_of_base base.now }
{
    match base {
        OptChainBase::Member(x) => &x.obj.node,
        OptChainBase::Call(x) => &x.callee.node,
    }
}

/// As `expr_rest`.
pub(crate) fn stmt_rest<N>(stmt: &Stmt<N>) -> Option<&N>
    ensures { IfSome result (λ n. chain.rest_of_stmt stmt.now ≡ Some n.now) }
{
    match stmt {
        Stmt::If(x) => match &x.alt {
            Some(alt) => Some(&alt.node),
            None => None,
        },
        _ => None,
    }
}

/// Whether two expressions are links of one kind, alike but for the parts on which they go on.
pub(crate) fn are_alike_exprs<N: PartialEq>(a: &Box<Expr<N>>, b: &Box<Expr<N>>) -> bool
    ensures { result ≡ chain.alike_exprs N.eq a.now.value b.now.value }
{
    match &**a {
        Expr::Bin(x) => match &**b {
            Expr::Bin(y) => are_alike_bins(x, y),
            _ => false,
        },
        Expr::Member(x) => match &**b {
            Expr::Member(y) => are_alike_members(x, y),
            _ => false,
        },
        Expr::Call(x) => match &**b {
            Expr::Call(y) => are_alike_calls(x, y),
            _ => false,
        },
        Expr::TaggedTpl(x) => match &**b {
            Expr::TaggedTpl(y) => are_alike_tagged(x, y),
            _ => false,
        },
        Expr::OptChain(x) => match &**b {
            Expr::OptChain(y) => are_alike_opt_chains(x, y),
            _ => false,
        },
        _ => false,
    }
}

/// As `are_alike_exprs`.
pub(crate) fn are_alike_stmts<N: PartialEq>(a: &Box<Stmt<N>>, b: &Box<Stmt<N>>) -> bool
    ensures { result ≡ chain.alike_stmts N.eq a.now.value b.now.value }
{
    match (&**a, &**b) {
        (Stmt::If(x), Stmt::If(y)) => are_alike_ifs(x, y),
        _ => false,
    }
}

/// Whether two operators are alike but for what stands left of them.
fn are_alike_bins<N: PartialEq>(a: &BinExpr<N>, b: &BinExpr<N>) -> bool
    ensures { result ≡ chain.alike_bins N.eq a.now b.now }
{
    a.span == b.span && a.op == b.op && a.right == b.right
}

/// Whether two members are alike but for what they are members of.
fn are_alike_members<N: PartialEq>(a: &MemberExpr<N>, b: &MemberExpr<N>) -> bool
    ensures { result ≡ chain.alike_members N.eq a.now b.now }
{
    a.span == b.span && a.prop == b.prop
}

/// Whether two calls are alike but for what they call.
fn are_alike_calls<N: PartialEq>(a: &CallExpr<N>, b: &CallExpr<N>) -> bool
    ensures { result ≡ chain.alike_calls N.eq a.now b.now }
{
    a.span == b.span && a.args == b.args
}

/// Whether two templates are alike but for their tags.
fn are_alike_tagged<N: PartialEq>(a: &TaggedTpl<N>, b: &TaggedTpl<N>) -> bool
    ensures { result ≡ chain.alike_tagged N.eq a.now b.now }
{
    a.span == b.span && a.tpl == b.tpl
}

/// Whether two links of optional chains are alike but for what they are links of.
fn are_alike_opt_chains<N: PartialEq>(a: &OptChainExpr<N>, b: &OptChainExpr<N>) -> bool
    ensures { result ≡ chain.alike_opt_chains N.eq a.now b.now }
{
    a.span == b.span && a.optional == b.optional && are_alike_bases(&a.base, &b.base)
}

/// As `are_alike_opt_chains`.
fn are_alike_bases<N: PartialEq>(a: &OptChainBase<N>, b: &OptChainBase<N>) -> bool
    ensures { result ≡ chain.alike_bases N.eq a.now b.now }
{
    match a {
        OptChainBase::Member(x) => match b {
            OptChainBase::Member(y) => are_alike_members(x, y),
            OptChainBase::Call(_) => false,
        },
        OptChainBase::Call(x) => match b {
            OptChainBase::Call(y) => are_alike_opt_calls(x, y),
            OptChainBase::Member(_) => false,
        },
    }
}

/// Whether two calls are alike but for what they call.
fn are_alike_opt_calls<N: PartialEq>(a: &OptCall<N>, b: &OptCall<N>) -> bool
    ensures { result ≡ chain.alike_opt_calls N.eq a.now b.now }
{
    a.span == b.span && a.args == b.args
}

/// Whether two `if` are alike but for what stands behind `else`.
fn are_alike_ifs<N: PartialEq>(a: &IfStmt<N>, b: &IfStmt<N>) -> bool
    ensures { result ≡ chain.alike_ifs N.eq a.now b.now }
{
    a.span == b.span && a.test == b.test && a.cons == b.cons
}

/// A link of a chain, as it is printed: without the part on which the chain goes on, in whose place stands `..`.
#[derive(Drop)]
enum Link<'a, N> {
    Bin(&'a BinExpr<N>),
    Member(&'a MemberExpr<N>),
    Call(&'a CallExpr<N>),
    TaggedTpl(&'a TaggedTpl<N>),
    OptChain(&'a OptChainExpr<N>),
    If(&'a IfStmt<N>),
}

impl<N: Debug> Debug for Link<'_, N> {
    fn fmt<W: Write>(&self, f: &mut Formatter<W>) -> fmt::Result {
        match self {
            Link::Bin(x) => f
                .debug_struct("BinExpr")
                .field("span", &x.span)
                .field("op", &x.op)
                .field("right", &x.right)
                .finish_non_exhaustive(),
            Link::Member(x) => f
                .debug_struct("MemberExpr")
                .field("span", &x.span)
                .field("prop", &x.prop)
                .finish_non_exhaustive(),
            Link::Call(x) => f
                .debug_struct("CallExpr")
                .field("span", &x.span)
                .field("args", &x.args)
                .finish_non_exhaustive(),
            Link::TaggedTpl(x) => f
                .debug_struct("TaggedTpl")
                .field("span", &x.span)
                .field("tpl", &x.tpl)
                .finish_non_exhaustive(),
            Link::OptChain(x) => f
                .debug_struct("OptChainExpr")
                .field("span", &x.span)
                .field("optional", &x.optional)
                .field("base", &LinkBase { base: &x.base })
                .finish(),
            Link::If(x) => f
                .debug_struct("IfStmt")
                .field("span", &x.span)
                .field("test", &x.test)
                .field("cons", &x.cons)
                .finish_non_exhaustive(),
        }
    }
}

/// What a link of an optional chain is, as it is printed.
#[derive(Drop)]
struct LinkBase<'a, N> {
    base: &'a OptChainBase<N>,
}

impl<N: Debug> Debug for LinkBase<'_, N> {
    fn fmt<W: Write>(&self, f: &mut Formatter<W>) -> fmt::Result {
        match self.base {
            OptChainBase::Member(x) => f
                .debug_struct("MemberExpr")
                .field("span", &x.span)
                .field("prop", &x.prop)
                .finish_non_exhaustive(),
            OptChainBase::Call(x) => f
                .debug_struct("OptCall")
                .field("span", &x.span)
                .field("args", &x.args)
                .finish_non_exhaustive(),
        }
    }
}

/// Adds an entry to a list that is printed.
pub(crate) fn add_entry<T: Debug, W: Write>(list: &mut DebugList<'_, W>, entry: &T) {
    list.entry(entry);
}

/// Adds a link of a chain to the list of its links; nothing where it is none.
pub(crate) fn add_expr_link<N: Debug, W: Write>(list: &mut DebugList<'_, W>, expr: &Box<Expr<N>>) {
    match &**expr {
        Expr::Bin(x) => add_entry(list, &Link::Bin(x)),
        Expr::Member(x) => add_entry(list, &Link::Member(x)),
        Expr::Call(x) => add_entry(list, &Link::Call(x)),
        Expr::TaggedTpl(x) => add_entry(list, &Link::TaggedTpl(x)),
        Expr::OptChain(x) => add_entry(list, &Link::OptChain(x)),
        _ => {}
    }
}

/// As `add_expr_link`.
pub(crate) fn add_stmt_link<N: Debug, W: Write>(list: &mut DebugList<'_, W>, stmt: &Box<Stmt<N>>) {
    match &**stmt {
        Stmt::If(x) => add_entry(list, &Link::If(x)),
        _ => {}
    }
}
