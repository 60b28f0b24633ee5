ghost use Rattle.std.specs.Prelude.{◌≡◌};
ghost use Rattle.swc_ecma_parser_model.specs.Directive.{is_string_statement, is_use_strict};
ghost use Rattle.swc_ecma_parser_ast.specs.View.{view_stmt};

use crate::branch::{IfStmt, SwitchStmt, ThrowStmt, TryStmt};
use crate::decl::Decl;
use crate::expr::{Expr, Lit};
use crate::loops::{DoWhileStmt, ForInStmt, ForOfStmt, ForStmt, WhileStmt};
use crate::node::{ExprBox, Node, StmtBox, StmtList};
use swc_ecma_parser_common::{Span, Spanned};
use swc_ecma_parser_model::Ident;

/// A statement, or a declaration in its place (ECMA-262, 14).
#[derive(Debug, PartialEq, Eq, Drop)]
pub enum Stmt<N = Node> {
    Block(BlockStmt<N>),
    Empty(EmptyStmt),
    Debugger(DebuggerStmt),
    With(WithStmt<N>),
    Return(ReturnStmt<N>),
    Labeled(LabeledStmt<N>),
    Break(BreakStmt),
    Continue(ContinueStmt),
    If(IfStmt<N>),
    Switch(SwitchStmt<N>),
    Throw(ThrowStmt<N>),
    Try(Box<TryStmt<N>>),
    While(WhileStmt<N>),
    DoWhile(DoWhileStmt<N>),
    For(Box<ForStmt<N>>),
    ForIn(Box<ForInStmt<N>>),
    ForOf(Box<ForOfStmt<N>>),
    Decl(Decl<N>),
    Expr(ExprStmt<N>),
}

/// Statements in braces (ECMA-262, 14.2). The span takes in both braces.
#[derive(Debug, PartialEq, Eq, Drop)]
pub struct BlockStmt<N = Node> {
    pub span: Span,
    pub stmts: StmtList<N>,
}

/// A `;` alone (ECMA-262, 14.4).
#[derive(Clone, Copy, Debug, PartialEq, Eq)]
pub struct EmptyStmt {
    pub span: Span,
}

/// `debugger` (ECMA-262, 14.16). The span ends with its `;`, if it has one.
#[derive(Clone, Copy, Debug, PartialEq, Eq)]
pub struct DebuggerStmt {
    pub span: Span,
}

/// An expression as a statement (ECMA-262, 14.5). The span ends with its `;`, if it has one.
#[derive(Debug, PartialEq, Eq, Drop)]
pub struct ExprStmt<N = Node> {
    pub span: Span,
    pub expr: ExprBox<N>,
}

/// `with` (ECMA-262, 14.11).
#[derive(Debug, PartialEq, Eq, Drop)]
pub struct WithStmt<N = Node> {
    pub span: Span,
    pub obj: ExprBox<N>,
    pub body: StmtBox<N>,
}

/// `return` (ECMA-262, 14.10). The span ends with its `;`, if it has one.
#[derive(Debug, PartialEq, Eq, Drop)]
pub struct ReturnStmt<N = Node> {
    pub span: Span,
    pub arg: Option<ExprBox<N>>,
}

/// A statement with a label (ECMA-262, 14.13).
#[derive(Debug, PartialEq, Eq, Drop)]
pub struct LabeledStmt<N = Node> {
    pub span: Span,
    pub label: Ident,
    pub body: StmtBox<N>,
}

/// `break` (ECMA-262, 14.9). The span ends with its `;`, if it has one.
#[derive(Debug, PartialEq, Eq, Drop)]
pub struct BreakStmt {
    pub span: Span,
    pub label: Option<Ident>,
}

/// `continue` (ECMA-262, 14.8). The span ends with its `;`, if it has one.
#[derive(Debug, PartialEq, Eq, Drop)]
pub struct ContinueStmt {
    pub span: Span,
    pub label: Option<Ident>,
}

impl Stmt<Node> {
    /// Whether it is the directive that turns code strict: `'use strict'` or `"use strict"` as written, with no parentheses (ECMA-262, 11.2.1).
    #[tactic(auto, using(crate::proofs::Directive::not_expr_use_strict))]
    pub fn is_use_strict(&self) -> bool
        ensures { result ≡ is_use_strict (view_stmt self.now) }
    {
        match self {
            Stmt::Expr(x) => match x.expr.get() {
                Some(Expr::Lit(Lit::Str(s))) => {
                    let raw = s.raw.as_str();
                    raw == "'use strict'" || raw == "\"use strict\""
                }
                _ => false,
            },
            _ => false,
        }
    }

    /// Whether it may stand before a directive: an expression statement of a string literal, with no parentheses (ECMA-262, 11.2.1).
    #[tactic(auto, using(crate::proofs::Directive::not_expr_string))]
    pub fn can_precede_directive(&self) -> bool
        ensures { result ≡ is_string_statement (view_stmt self.now) }
    {
        match self {
            Stmt::Expr(x) => match x.expr.get() {
                Some(Expr::Lit(Lit::Str(_))) => true,
                _ => false,
            },
            _ => false,
        }
    }
}

impl Spanned for Stmt {
    ghost use Rattle.swc_ecma_parser_model.specs.Forms as model;
    ghost use Rattle.swc_ecma_parser_ast.specs.View.{view_stmt};

    ghost span_of = { λ x. model.span_of (view_stmt x) };

    fn span(&self) -> Span {
        match self {
            Stmt::Block(x) => x.span(),
            Stmt::Empty(x) => x.span(),
            Stmt::Debugger(x) => x.span(),
            Stmt::With(x) => x.span(),
            Stmt::Return(x) => x.span(),
            Stmt::Labeled(x) => x.span(),
            Stmt::Break(x) => x.span(),
            Stmt::Continue(x) => x.span(),
            Stmt::If(x) => x.span(),
            Stmt::Switch(x) => x.span(),
            Stmt::Throw(x) => x.span(),
            Stmt::Try(x) => x.span(),
            Stmt::While(x) => x.span(),
            Stmt::DoWhile(x) => x.span(),
            Stmt::For(x) => x.span(),
            Stmt::ForIn(x) => x.span(),
            Stmt::ForOf(x) => x.span(),
            Stmt::Decl(x) => x.span(),
            Stmt::Expr(x) => x.span(),
        }
    }
}

impl<N> Spanned for BlockStmt<N> {
    ghost span_of = { λ x. x.span };

    fn span(&self) -> Span {
        self.span
    }
}

impl Spanned for EmptyStmt {
    ghost span_of = { λ x. x.span };

    fn span(&self) -> Span {
        self.span
    }
}

impl Spanned for DebuggerStmt {
    ghost span_of = { λ x. x.span };

    fn span(&self) -> Span {
        self.span
    }
}

impl<N> Spanned for ExprStmt<N> {
    ghost span_of = { λ x. x.span };

    fn span(&self) -> Span {
        self.span
    }
}

impl<N> Spanned for WithStmt<N> {
    ghost span_of = { λ x. x.span };

    fn span(&self) -> Span {
        self.span
    }
}

impl<N> Spanned for ReturnStmt<N> {
    ghost span_of = { λ x. x.span };

    fn span(&self) -> Span {
        self.span
    }
}

impl<N> Spanned for LabeledStmt<N> {
    ghost span_of = { λ x. x.span };

    fn span(&self) -> Span {
        self.span
    }
}

impl Spanned for BreakStmt {
    ghost span_of = { λ x. x.span };

    fn span(&self) -> Span {
        self.span
    }
}

impl Spanned for ContinueStmt {
    ghost span_of = { λ x. x.span };

    fn span(&self) -> Span {
        self.span
    }
}
