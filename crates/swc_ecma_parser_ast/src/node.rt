//! `Node` holds what is on a way from a tree back to a tree: a boxed expression, or a list of statements.
//! A handle such as `ExprBox` says which of them a node holds.

ghost use Rattle.std.specs.Prelude.{◌≡◌, false, IfOk, IfSome, MatchOption, Some, map};
ghost use Rattle.swc_ecma_parser_model.specs.Tree.{listed};
ghost use Rattle.swc_ecma_parser_model.specs.Kinds.{is_expr, is_pat, is_stmt, is_list};
ghost use Rattle.swc_ecma_parser_ast.specs.View.{view_expr, view_pat, view_stmt};
ghost use Rattle.swc_ecma_parser_ast.specs.Nodes.{view_any};
ghost use Rattle.swc_ecma_parser_ast.specs.Chain as chain;
ghost use Rattle.swc_ecma_parser_ast.specs.Equal as equal;

use crate::boxed::in_block;
use crate::branch::IfStmt;
use crate::call::{
    CallExpr, Callee, ExprOrSpread, MemberExpr, MemberProp, OptCall, OptChainBase, OptChainExpr,
};
use crate::chain::{
    add_entry, add_expr_link, add_stmt_link, are_alike_exprs, are_alike_stmts, expr_rest, stmt_rest,
};
use crate::expr::{BinExpr, Expr};
use crate::pat::Pat;
use crate::stmt::Stmt;
use crate::template::{TaggedTpl, Tpl};
use std::alloc::{AllocError, Global};
use std::fmt::{self, Debug, DebugList, Formatter, Write};
use std::marker::Model;
use swc_ecma_parser_common::{BytePos, Span, Spanned};

/// A boxed expression.
#[derive(Debug, PartialEq, Eq, Drop)]
pub struct ExprBox<N = Node> {
    pub(crate) node: N,
}

/// A boxed pattern.
#[derive(Debug, PartialEq, Eq, Drop)]
pub struct PatBox<N = Node> {
    pub(crate) node: N,
}

/// A boxed statement.
#[derive(Debug, PartialEq, Eq, Drop)]
pub struct StmtBox<N = Node> {
    pub(crate) node: N,
}

/// A list of statements.
#[derive(Debug, PartialEq, Eq, Drop)]
pub struct StmtList<N = Node> {
    pub(crate) node: N,
}

/// What a node may hold.
#[cycle(ast)]
pub enum Any {
    Expr(Box<Expr<Node>>),
    Pat(Box<Pat<Node>>),
    Stmt(Box<Stmt<Node>>),
    Stmts(Box<Vec<Stmt<Node>>>),
}

/// A part of a tree, of any kind. Contracts see it as the model's tree, which is never one that is left out.
///
/// A chain on the left (`a + a + ..`, `a.a.a..`, `f()()..`, `a?.a?.a..`) or of `else if` may be longer than any limit on levels. It is compared,
/// printed and let go in a loop. `{:?}` lists its links, outermost first, each with `..` for the part on which the chain goes on, and
/// last what it ends with, so a link adds its own text and no depth. But for spans and handles `a.b + c` is printed as
/// `Node [BinExpr { op: Add, right: c, .. }, MemberExpr { prop: b, .. }, Expr(Ident(a))]`.
#[cycle(ast)]
pub struct Node {
    pub(crate) inner: Any,
}

impl Node {
    /// What it holds.
    fn into_any(self) -> Any
        ensures { view_any result ≡ self }
    {
        let Node { inner } = self;
        inner
    }
}

/// Drops them: in its proof a node is known by its bound alone.
fn discard_stmts<N: Drop>(_stmts: Vec<Stmt<N>>) {}

/// As `discard_stmts`.
fn discard_args<N: Drop>(_args: Vec<ExprOrSpread<N>>) {}

/// As `discard_stmts`.
fn discard_prop<N: Drop>(_prop: MemberProp<N>) {}

/// As `discard_stmts`.
fn discard_head<N: Drop>(_test: ExprBox<N>, _cons: StmtBox<N>) {}

/// As `discard_stmts`.
fn discard_tpl<N: Drop>(_tpl: Box<Tpl<N>>) {}

impl Drop for Node {
    /// A chain on the left (`a + a + ..`, `a.a.a..`, `f()()..`, `a?.a?.a..`) or of `else if`, which no limit on levels bounds, is
    /// dropped in a loop.
    #[cycle(ast)]
    fn drop(mut self) {
        loop {
            let Node { inner } = self;
            match inner {
                Any::Expr(expr) => match Box::into_inner(expr) {
                    Expr::Bin(bin) => {
                        let BinExpr { left, .. } = bin;
                        let ExprBox { node } = left;
                        self = node;
                    }
                    Expr::Member(member) => {
                        let MemberExpr { obj, prop, .. } = member;
                        discard_prop(prop);
                        let ExprBox { node } = obj;
                        self = node;
                    }
                    Expr::Call(call) => {
                        let CallExpr { callee, args, .. } = call;
                        discard_args(args);
                        match callee {
                            Callee::Expr(callee) => {
                                let ExprBox { node } = callee;
                                self = node;
                            }
                            Callee::Super(_) | Callee::Import(_) => return,
                        }
                    }
                    Expr::TaggedTpl(tagged) => {
                        let TaggedTpl { tag, tpl, .. } = tagged;
                        discard_tpl(tpl);
                        let ExprBox { node } = tag;
                        self = node;
                    }
                    Expr::OptChain(link) => {
                        let OptChainExpr { base, .. } = link;
                        match Box::into_inner(base) {
                            OptChainBase::Member(member) => {
                                let MemberExpr { obj, prop, .. } = member;
                                discard_prop(prop);
                                let ExprBox { node } = obj;
                                self = node;
                            }
                            OptChainBase::Call(call) => {
                                let OptCall { callee, args, .. } = call;
                                discard_args(args);
                                let ExprBox { node } = callee;
                                self = node;
                            }
                        }
                    }
                    other => return other.discard(),
                },
                Any::Pat(pat) => return Box::into_inner(pat).discard(),
                Any::Stmt(stmt) => match Box::into_inner(stmt) {
                    Stmt::If(stmt) => {
                        let IfStmt {
                            test,
                            cons,
                            alt,
                            ..
                        } = stmt;
                        discard_head(test, cons);
                        let Some(alt) = alt else {
                            return;
                        };
                        let StmtBox { node } = alt;
                        self = node;
                    }
                    other => return other.discard(),
                },
                Any::Stmts(stmts) => return discard_stmts(Box::into_inner(stmts)),
            }
        }
    }
}

impl Any {
    /// The part on which a chain goes on, if this is a link of one.
    pub(crate) fn rest(&self) -> Option<&Node>
        ensures { IfSome result (λ n. chain.rest_of_any self.now ≡ Some n.now) }
    {
        match self {
            Any::Expr(x) => expr_rest(x),
            Any::Stmt(x) => stmt_rest(x),
            _ => None,
        }
    }
}

impl Debug for Any {
    #[cycle(printed)]
    fn fmt<W: Write>(&self, f: &mut Formatter<W>) -> fmt::Result {
        match self {
            Any::Expr(x) => write_held(f, "Expr", x),
            Any::Pat(x) => write_held(f, "Pat", x),
            Any::Stmt(x) => write_held(f, "Stmt", x),
            Any::Stmts(x) => write_held(f, "Stmts", x),
        }
    }
}

/// Writes what a node holds behind the name of its kind.
fn write_held<T: Debug, W: Write>(f: &mut Formatter<W>, kind: &str, held: &T) -> fmt::Result {
    f.debug_tuple(kind).field(held).finish()
}

impl Debug for Node {
    /// A chain is printed link by link, in a loop.
    #[cycle(printed)]
    fn fmt<W: Write>(&self, f: &mut Formatter<W>) -> fmt::Result {
        if self.inner.rest().is_none() {
            return f.debug_struct("Node").field("inner", &self.inner).finish();
        }
        f.write_str("Node ")?;
        let mut list = f.debug_list();
        let mut node = self;
        while let Some(rest) = node.inner.rest() {
            add_link(&mut list, &node.inner);
            node = rest;
        }
        add_entry(&mut list, &node.inner);
        list.finish()
    }
}

/// Adds a link of a chain to the list of its links; nothing where it is none.
#[cycle(printed)]
fn add_link<W: Write>(list: &mut DebugList<'_, W>, link: &Any) {
    match link {
        Any::Expr(x) => add_expr_link(list, x),
        Any::Stmt(x) => add_stmt_link(list, x),
        _ => {}
    }
}

impl Model for Node {
    ghost use Rattle.swc_ecma_parser_model.specs.Size.{tree_size};
    ghost use Rattle.swc_ecma_parser_model.specs.Held.{Held, coded_held};

    ghost Value = { Held };

    ghost coded = { coded_held };

    ghost use Rattle.swc_ecma_parser_ast.specs.Nodes.{view_any};

    ghost view = { λ b. view_any b.inner };

    ghost size = { λ h. tree_size h.tree };

    ghost use Rattle.swc_ecma_parser_ast.specs.Falls.{le_any};

    ghost size_decreases = { λ a h. le_any a.inner };
}

impl PartialEq for Any {
    ghost use Rattle.swc_ecma_parser_model.specs.Held.{same_held};
    ghost use Rattle.swc_ecma_parser_ast.specs.Nodes.{view_any, same_any_laws};

    ghost eq = { λ x y. same_held (view_any x) (view_any y) };

    ghost laws = { same_any_laws };

    #[cycle(ast)]
    fn eq(&self, other: &Any) -> bool {
        match self {
            Any::Expr(a) => match other {
                Any::Expr(b) => equal_exprs(a, b),
                Any::Pat(_) => false,
                Any::Stmt(_) => false,
                Any::Stmts(_) => false,
            },
            Any::Pat(a) => match other {
                Any::Pat(b) => equal_pats(a, b),
                Any::Expr(_) => false,
                Any::Stmt(_) => false,
                Any::Stmts(_) => false,
            },
            Any::Stmt(a) => match other {
                Any::Stmt(b) => equal_boxed_stmts(a, b),
                Any::Expr(_) => false,
                Any::Pat(_) => false,
                Any::Stmts(_) => false,
            },
            Any::Stmts(a) => match other {
                Any::Stmts(b) => equal_stmts(a, b),
                Any::Expr(_) => false,
                Any::Pat(_) => false,
                Any::Stmt(_) => false,
            },
        }
    }
}

/// `==`, in a contract that stays small: one that is derived, at `Node`, would be spelled out in the proof of `Any::eq`.
fn equal_exprs<N: PartialEq>(a: &Box<Expr<N>>, b: &Box<Expr<N>>) -> bool
    ensures { result ≡ equal.equal_expr N.eq a.now.value b.now.value }
{
    *a == *b
}

/// `==`, as `equal_exprs`.
fn equal_pats<N: PartialEq>(a: &Box<Pat<N>>, b: &Box<Pat<N>>) -> bool
    ensures { result ≡ equal.equal_pat N.eq a.now.value b.now.value }
{
    *a == *b
}

/// `==`, as `equal_exprs`.
fn equal_boxed_stmts<N: PartialEq>(a: &Box<Stmt<N>>, b: &Box<Stmt<N>>) -> bool
    ensures { result ≡ equal.equal_stmt N.eq a.now.value b.now.value }
{
    *a == *b
}

/// `==`, as `equal_exprs`.
fn equal_stmts<N: PartialEq>(a: &Box<Vec<Stmt<N>>>, b: &Box<Vec<Stmt<N>>>) -> bool
    ensures { result ≡ equal.equal_stmts N.eq a.now.value.items b.now.value.items }
{
    *a == *b
}

impl PartialEq for Node {
    ghost use Rattle.swc_ecma_parser_model.specs.Held.{same_held, same_held_laws};

    ghost eq = { same_held };

    ghost laws = { same_held_laws };

    /// Two chains are compared link by link, in a loop.
    #[cycle(ast)]
    fn eq(&self, other: &Node) -> bool {
        let mut left = self;
        let mut right = other;
        while let Some(left_rest) = left.inner.rest() {
            let Some(right_rest) = right.inner.rest() else {
                break;
            };
            if !are_alike_links(&left.inner, &right.inner) {
                return false;
            }
            left = left_rest;
            right = right_rest;
        }
        left.inner == right.inner
    }
}

/// Whether two links of chains are of one kind, and alike but for the parts on which they go on.
#[cycle(ast)]
fn are_alike_links(a: &Any, b: &Any) -> bool
    ensures { result ≡ chain.alike_links a.now b.now }
{
    match a {
        Any::Expr(a) => match b {
            Any::Expr(b) => are_alike_exprs(a, b),
            _ => false,
        },
        Any::Stmt(a) => match b {
            Any::Stmt(b) => are_alike_stmts(a, b),
            _ => false,
        },
        _ => false,
    }
}

impl Eq for Node {
    ghost use Rattle.swc_ecma_parser_model.specs.Held.{same_held_equivalence};

    ghost laws = { same_held_equivalence };
}

impl ExprBox<Node> {
    /// A handle of an expression; it fails only where memory runs out.
    pub fn new(alloc: Global, value: Expr<Node>) -> Result<ExprBox<Node>, AllocError>
        ensures { IfOk result (λ b. b.node.tree ≡ view_expr value) }
    {
        let inner = Any::Expr(in_block(alloc, value)?);
        Ok(ExprBox {
            node: Node { inner },
        })
    }

    /// The expression; none only of a handle that no function of this crate makes.
    pub fn get(&self) -> Option<&Expr<Node>>
        ensures { MatchOption result (is_expr self.now.node.tree ≡ false)
            (λ e. view_expr e.now ≡ self.now.node.tree) }
    {
        match &self.node.inner {
            Any::Expr(e) => Some(e),
            _ => None,
        }
    }

    /// The expression itself, in place of the handle.
    pub fn into_inner(self) -> Option<Expr<Node>>
        ensures { MatchOption result (is_expr self.node.tree ≡ false)
            (λ e. view_expr e ≡ self.node.tree) }
    {
        let ExprBox { node } = self;
        match node.into_any() {
            Any::Expr(e) => Some(Box::into_inner(e)),
            inner => {
                let _node = Node { inner };
                None
            }
        }
    }
}

impl PatBox<Node> {
    ghost use Rattle.std.specs.Prelude.{◌||◌, true, IfNone};

    /// A handle of a pattern; it fails only where memory runs out.
    pub fn new(alloc: Global, value: Pat<Node>) -> Result<PatBox<Node>, AllocError>
        ensures { IfOk result (λ b. b.node.tree ≡ view_pat value) }
    {
        let inner = Any::Pat(in_block(alloc, value)?);
        Ok(PatBox {
            node: Node { inner },
        })
    }

    /// The pattern; none only of a handle that no function of this crate makes.
    pub fn get(&self) -> Option<&Pat<Node>>
        ensures view { MatchOption result (is_pat self.now.node.tree ≡ false)
            (λ e. view_pat e.now ≡ self.now.node.tree) }
        ensures other { let t = self.now.node.tree in IfNone result
            ((is_expr t || is_stmt t || is_list t) ≡ true) }
    {
        match &self.node.inner {
            Any::Pat(e) => Some(e),
            _ => None,
        }
    }

    /// The pattern itself, in place of the handle.
    pub fn into_inner(self) -> Option<Pat<Node>>
        ensures { MatchOption result (is_pat self.node.tree ≡ false)
            (λ e. view_pat e ≡ self.node.tree) }
    {
        let PatBox { node } = self;
        match node.into_any() {
            Any::Pat(e) => Some(Box::into_inner(e)),
            inner => {
                let _node = Node { inner };
                None
            }
        }
    }
}

impl StmtBox<Node> {
    /// A handle of a statement; it fails only where memory runs out.
    pub fn new(alloc: Global, value: Stmt<Node>) -> Result<StmtBox<Node>, AllocError>
        ensures { IfOk result (λ b. b.node.tree ≡ view_stmt value) }
    {
        let inner = Any::Stmt(in_block(alloc, value)?);
        Ok(StmtBox {
            node: Node { inner },
        })
    }

    /// The statement; none only of a handle that no function of this crate makes.
    pub fn get(&self) -> Option<&Stmt<Node>>
        ensures { MatchOption result (is_stmt self.now.node.tree ≡ false)
            (λ e. view_stmt e.now ≡ self.now.node.tree) }
    {
        match &self.node.inner {
            Any::Stmt(e) => Some(e),
            _ => None,
        }
    }

    /// The statement itself, in place of the handle.
    pub fn into_inner(self) -> Option<Stmt<Node>>
        ensures { MatchOption result (is_stmt self.node.tree ≡ false)
            (λ e. view_stmt e ≡ self.node.tree) }
    {
        let StmtBox { node } = self;
        match node.into_any() {
            Any::Stmt(e) => Some(Box::into_inner(e)),
            inner => {
                let _node = Node { inner };
                None
            }
        }
    }
}

impl StmtList<Node> {
    /// A handle of a list of statements; it fails only where memory runs out.
    pub fn new(alloc: Global, stmts: Vec<Stmt<Node>>) -> Result<StmtList<Node>, AllocError>
        ensures { IfOk result (λ l. l.node.tree ≡ listed (map view_stmt stmts.items)) }
    {
        let inner = Any::Stmts(in_block(alloc, stmts)?);
        Ok(StmtList {
            node: Node { inner },
        })
    }

    /// The statements; none only of a handle that no function of this crate makes.
    pub fn get(&self) -> Option<&Vec<Stmt<Node>>>
        ensures { MatchOption result (is_list self.now.node.tree ≡ false)
            (λ xs. listed (map view_stmt xs.now.items) ≡ self.now.node.tree) }
    {
        match &self.node.inner {
            Any::Stmts(xs) => Some(xs),
            _ => None,
        }
    }

    /// The statements themselves, in place of the handle.
    pub fn into_inner(self) -> Option<Vec<Stmt<Node>>>
        ensures { MatchOption result (is_list self.node.tree ≡ false)
            (λ xs. listed (map view_stmt xs.items) ≡ self.node.tree) }
    {
        let StmtList { node } = self;
        match node.into_any() {
            Any::Stmts(xs) => Some(Box::into_inner(xs)),
            inner => {
                let _node = Node { inner };
                None
            }
        }
    }
}

impl Spanned for ExprBox {
    ghost use Rattle.swc_ecma_parser_model.specs.Forms as model;
    ghost use Rattle.swc_ecma_parser_ast.specs.Parts.{as_expr};

    ghost span_of = { λ x. model.span_of (as_expr x.node.tree) };

    fn span(&self) -> Span {
        match self.get() {
            Some(x) => x.span(),
            None => Span {
                lo: BytePos(0),
                hi: BytePos(0),
            },
        }
    }
}
