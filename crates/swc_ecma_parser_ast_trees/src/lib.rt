//! The tree of `swc_ecma_parser_ast` as one that rules can make.
#![tactic(auto)]

ghost use Rattle.std.specs.Prelude.{◌≡◌, IfOk, map};
ghost use Rattle.swc_ecma_parser_ast.specs.View.{view_pat, view_stmt, view_script};
ghost use Rattle.swc_ecma_parser_ast_parts.specs.View.{view_made};

mod block;
mod call;
mod class;
mod control;
mod decl;
mod exports;
mod function;
mod imports;
mod item;
mod key;
mod loops;
mod object;
mod operator;
mod pattern;
mod variables;

use std::alloc::{AllocError, Global};
use swc_ecma_parser_ast::{
    Atom, BigInt, BindingIdent, BlockStmt, Bool, DebuggerStmt, EmptyStmt, Expr, ExprStmt, Ident,
    Lit, Null, Number, ParenExpr, Pat, Regex, Script, Span, Spanned, Stmt, StmtList, Str,
};
use swc_ecma_parser_ast_parts::made::Made;
use swc_ecma_parser_trees::{
    BuildsExpr, BuildsPat, BuildsScript, BuildsStatements, BuildsStmt, Trees,
};

/// The trees of `swc_ecma_parser_ast`.
pub struct Ast;

impl Trees for Ast {
    type Expr = Made;

    type Pat = Pat;

    type Stmt = Stmt;

    ghost expr_of = { view_made };

    ghost pat_of = { view_pat };

    ghost stmt_of = { view_stmt };

    fn is_use_strict(stmt: &Stmt) -> bool {
        stmt.is_use_strict()
    }

    fn is_string_statement(stmt: &Stmt) -> bool {
        stmt.can_precede_directive()
    }

    fn expr_span(expr: &Made) -> Span {
        expr.get().span()
    }

    fn is_ident(expr: &Made) -> bool {
        match expr.get() {
            Expr::Ident(_) => true,
            _ => false,
        }
    }

    fn is_ident_named(expr: &Made, name: &str) -> bool {
        match expr.get() {
            Expr::Ident(ident) => ident.sym.as_str() == name,
            _ => false,
        }
    }

    fn is_paren(expr: &Made) -> bool {
        match expr.get() {
            Expr::Paren(_) => true,
            _ => false,
        }
    }
}

impl BuildsExpr for Ast {
    fn ident(alloc: Global, ident: Ident) -> Result<Made, AllocError> {
        Made::new(alloc, Expr::Ident(ident))
    }

    fn str(alloc: Global, str: Str) -> Result<Made, AllocError> {
        Made::new(alloc, Expr::Lit(Lit::Str(str)))
    }

    fn bool(alloc: Global, bool: Bool) -> Result<Made, AllocError> {
        Made::new(alloc, Expr::Lit(Lit::Bool(bool)))
    }

    fn null(alloc: Global, null: Null) -> Result<Made, AllocError> {
        Made::new(alloc, Expr::Lit(Lit::Null(null)))
    }

    fn num(alloc: Global, num: Number) -> Result<Made, AllocError> {
        Made::new(alloc, Expr::Lit(Lit::Num(num)))
    }

    fn big_int(alloc: Global, big_int: BigInt) -> Result<Made, AllocError> {
        Made::new(alloc, Expr::Lit(Lit::BigInt(big_int)))
    }

    fn regex(alloc: Global, regex: Regex) -> Result<Made, AllocError> {
        Made::new(alloc, Expr::Lit(Lit::Regex(regex)))
    }

    fn paren(alloc: Global, span: Span, expr: Made) -> Result<Made, AllocError> {
        let expr = expr.into_handle();
        Made::new(alloc, Expr::Paren(ParenExpr { span, expr }))
    }
}

impl BuildsPat for Ast {
    fn ident_pat(alloc: Global, ident: Ident) -> Result<Pat, AllocError> {
        Ok(Pat::Ident(BindingIdent { id: ident }))
    }
}

impl BuildsStmt for Ast {
    ghost use Rattle.swc_ecma_parser_model.specs.Tree as tree;

    fn block(alloc: Global, span: Span, stmts: Vec<Stmt>) -> Result<Stmt, AllocError>
        ensures { IfOk result
            (λ x. view_stmt x ≡ tree.block span (tree.listed (map view_stmt stmts.items))) }
    {
        let stmts = StmtList::new(alloc, stmts)?;
        Ok(Stmt::Block(BlockStmt { span, stmts }))
    }

    fn empty(alloc: Global, span: Span) -> Result<Stmt, AllocError> {
        Ok(Stmt::Empty(EmptyStmt { span }))
    }

    fn debugger(alloc: Global, span: Span) -> Result<Stmt, AllocError> {
        Ok(Stmt::Debugger(DebuggerStmt { span }))
    }

    fn expr_stmt(alloc: Global, span: Span, expr: Made) -> Result<Stmt, AllocError> {
        let expr = expr.into_handle();
        Ok(Stmt::Expr(ExprStmt { span, expr }))
    }
}

impl BuildsScript for Ast {
    ghost use Rattle.swc_ecma_parser_model.specs.Tree as tree;

    type Script = Script;

    ghost script_of = { view_script };

    fn script(span: Span, body: Vec<Stmt>, shebang: Option<Atom>) -> Script
        ensures { view_script result
            ≡ tree.script span (tree.listed (map view_stmt body.items)) shebang }
    {
        Script {
            span,
            body,
            shebang,
        }
    }
}

impl BuildsStatements for Ast {}
