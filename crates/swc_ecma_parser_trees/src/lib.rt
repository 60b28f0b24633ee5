//! What a rule may know of the tree that it makes: the kinds of node that pass between rules, the model that each node
//! stands for, and for each form a function that makes it.
#![tactic(auto)]

ghost use Rattle.std.specs.Prelude.{◌≡◌, IfOk, map};

mod block;
mod call;
mod class;
mod control;
mod decl;
mod exports;
mod function;
mod imports;
mod item;
mod key;
mod loops;
mod object;
mod operator;
mod pattern;
mod script;
mod variables;

pub use block::BuildsBlock;
pub use call::BuildsCall;
pub use class::BuildsClass;
pub use control::{BuildsControl, BuildsSwitch, BuildsTry};
pub use decl::{BuildsClassDecl, BuildsDecl, BuildsVarDecl};
pub use exports::BuildsExport;
pub use function::BuildsFunction;
pub use imports::BuildsImport;
pub use item::BuildsItem;
pub use key::BuildsKey;
pub use loops::{BuildsFor, BuildsLoop};
pub use object::{BuildsMethod, BuildsObject};
pub use operator::BuildsOperator;
pub use pattern::{BuildsObjectPat, BuildsPattern};
pub use script::BuildsScript;
use std::alloc::{AllocError, Global};
use std::marker::PhantomData;
use swc_ecma_parser_common::Span;
use swc_ecma_parser_model::{BigInt, Bool, Ident, Null, Number, Regex, Str};
pub use variables::BuildsVariables;

/// Where trees are made. A function value that answers a node takes this, since its arguments have to name the types of
/// its answer.
pub struct Maker<T, E, P, S> {
    pub alloc: Global,
    nodes: PhantomData<(T, E, P, S)>,
}

/// The maker of a tree's nodes.
pub type MakerOf<T> = Maker<T, <T as Trees>::Expr, <T as Trees>::Pat, <T as Trees>::Stmt>;

impl<T, E, P, S> Maker<T, E, P, S> {
    /// A maker that allocates so.
    pub fn new(alloc: Global) -> Maker<T, E, P, S>
        ensures { result.alloc ≡ alloc }
    {
        Maker {
            alloc,
            nodes: PhantomData,
        }
    }

    /// Lets it go.
    pub fn finish(self) {
        let Maker { alloc: _, nodes: _ } = self;
    }
}

/// The kinds of node, each with the model that a node stands for.
pub trait Trees {
    ghost use Rattle.swc_ecma_parser_model.specs.Tree.{Tree};
    ghost use Rattle.std.specs.Prelude.{Bool};
    ghost use Rattle.swc_ecma_parser_model.specs.Directive as directive;
    ghost use Rattle.swc_ecma_parser_model.specs.Forms as forms;

    /// An expression.
    type Expr: Drop;

    /// A pattern.
    type Pat: Drop;

    /// A statement.
    type Stmt: Drop;

    ghost expr_of: { Self.Expr → Tree };

    ghost pat_of: { Self.Pat → Tree };

    ghost stmt_of: { Self.Stmt → Tree };

    /// Whether it is `'use strict'` or `"use strict"` as written, with no parentheses.
    fn is_use_strict(stmt: &Self::Stmt) -> bool
        ensures { result ≡ directive.is_use_strict (stmt_of stmt.now) };

    /// Whether it is a string literal alone, with no parentheses: section 11.2.1.
    fn is_string_statement(stmt: &Self::Stmt) -> bool
        ensures { result ≡ directive.is_string_statement (stmt_of stmt.now) };

    /// Where an expression stands, in byte offsets.
    fn expr_span(expr: &Self::Expr) -> Span
        ensures { result ≡ forms.span_of (expr_of expr.now) };

    /// Whether it is a bare name, with no parentheses.
    fn is_ident(expr: &Self::Expr) -> bool
        ensures { result ≡ forms.is_ident (expr_of expr.now) };

    /// Whether it is this name, bare.
    fn is_ident_named(expr: &Self::Expr, name: &str) -> bool
        ensures { result ≡ forms.is_ident_named name.now (expr_of expr.now) };

    /// Whether it stands in parentheses.
    fn is_paren(expr: &Self::Expr) -> bool
        ensures { result ≡ forms.is_paren (expr_of expr.now) };
}

/// Makes expressions. Each function fails only where memory runs out.
pub trait BuildsExpr: Trees {
    ghost use Rattle.swc_ecma_parser_model.specs.Tree as tree;

    /// A name.
    fn ident(alloc: Global, ident: Ident) -> Result<Self::Expr, AllocError>
        ensures { IfOk result (λ x. Self.expr_of x ≡ tree.ident ident.span ident.sym) };

    /// A string literal.
    fn str(alloc: Global, str: Str) -> Result<Self::Expr, AllocError>
        ensures { IfOk result (λ x. Self.expr_of x ≡ tree.str str.span str.value str.raw) };

    /// `true` or `false`.
    fn bool(alloc: Global, bool: Bool) -> Result<Self::Expr, AllocError>
        ensures { IfOk result (λ x. Self.expr_of x ≡ tree.bool bool.span bool.value) };

    /// `null`.
    fn null(alloc: Global, null: Null) -> Result<Self::Expr, AllocError>
        ensures { IfOk result (λ x. Self.expr_of x ≡ tree.null null.span) };

    /// A number.
    fn num(alloc: Global, num: Number) -> Result<Self::Expr, AllocError>
        ensures { IfOk result (λ x. Self.expr_of x ≡ tree.num num.span num.raw) };

    /// A big integer.
    fn big_int(alloc: Global, big_int: BigInt) -> Result<Self::Expr, AllocError>
        ensures { IfOk result (λ x. Self.expr_of x ≡ tree.big_int big_int.span big_int.raw) };

    /// A regular expression: ECMA-262, section 12.9.5.
    fn regex(alloc: Global, regex: Regex) -> Result<Self::Expr, AllocError>
        ensures { IfOk result (λ x. Self.expr_of x ≡ tree.regex regex.span regex.exp regex.flags) };

    /// An expression in parentheses; the span covers them.
    fn paren(alloc: Global, span: Span, expr: Self::Expr) -> Result<Self::Expr, AllocError>
        ensures { IfOk result (λ x. Self.expr_of x ≡ tree.paren span (Self.expr_of expr)) };
}

/// Makes patterns. Each function fails only where memory runs out.
pub trait BuildsPat: Trees {
    ghost use Rattle.swc_ecma_parser_model.specs.Tree as tree;

    /// A pattern that is a name.
    fn ident_pat(alloc: Global, ident: Ident) -> Result<Self::Pat, AllocError>
        ensures { IfOk result (λ x. Self.pat_of x ≡ tree.ident_pat ident.span ident.sym) };
}

/// Makes statements that hold at most an expression or statements. Each function fails only where memory runs out, and spans
/// are in byte offsets.
pub trait BuildsStmt: Trees {
    ghost use Rattle.swc_ecma_parser_model.specs.Tree as tree;

    /// A block; the span covers its braces.
    fn block(alloc: Global, span: Span, stmts: Vec<Self::Stmt>) -> Result<Self::Stmt, AllocError>
        ensures { IfOk result (λ x. Self.stmt_of x
            ≡ tree.block span (tree.listed (map Self.stmt_of stmts.items))) };

    /// `;` by itself.
    fn empty(alloc: Global, span: Span) -> Result<Self::Stmt, AllocError>
        ensures { IfOk result (λ x. Self.stmt_of x ≡ tree.empty span) };

    /// `debugger`.
    fn debugger(alloc: Global, span: Span) -> Result<Self::Stmt, AllocError>
        ensures { IfOk result (λ x. Self.stmt_of x ≡ tree.debugger span) };

    /// An expression as a statement.
    fn expr_stmt(alloc: Global, span: Span, expr: Self::Expr) -> Result<Self::Stmt, AllocError>
        ensures { IfOk result (λ x. Self.stmt_of x ≡ tree.expr_stmt span (Self.expr_of expr)) };
}

/// Makes all that statements are made of.
pub trait BuildsStatements: BuildsExpr
    + BuildsCall
    + BuildsMethod
    + BuildsOperator
    + BuildsPat
    + BuildsPattern
    + BuildsObjectPat
    + BuildsStmt
    + BuildsVariables
    + BuildsControl
    + BuildsSwitch
    + BuildsTry
    + BuildsLoop
    + BuildsFor
    + BuildsClassDecl
    + BuildsVarDecl {}
