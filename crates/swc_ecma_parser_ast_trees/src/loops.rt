ghost use Rattle.std.specs.Prelude.{◌≡◌, IfOk, map};
ghost use Rattle.swc_ecma_parser_ast.specs.View.{view_declarator, view_for_head, view_stmt, view_var_decl_or_expr};
ghost use Rattle.swc_ecma_parser_ast_parts.specs.View.{view_made};

use crate::Ast;
use std::alloc::{AllocError, Global};
use swc_ecma_parser_ast::{
    DoWhileStmt, ForHead, ForInStmt, ForOfStmt, ForStmt, Pat, Span, Spanned, Stmt, StmtBox,
    UsingDecl, VarDecl, VarDeclKind, VarDeclOrExpr, VarDeclarator, WhileStmt,
};
use swc_ecma_parser_ast_parts::boxes::beside;
use swc_ecma_parser_ast_parts::made::Made;
use swc_ecma_parser_trees::{BuildsFor, BuildsLoop};

impl BuildsLoop for Ast {
    fn while_stmt(alloc: Global, span: Span, test: Made, body: Stmt) -> Result<Stmt, AllocError> {
        let (body, test) = beside(StmtBox::new(alloc, body), test.into_handle())?;
        Ok(Stmt::While(WhileStmt { span, test, body }))
    }

    fn do_while(alloc: Global, span: Span, test: Made, body: Stmt) -> Result<Stmt, AllocError> {
        let (body, test) = beside(StmtBox::new(alloc, body), test.into_handle())?;
        Ok(Stmt::DoWhile(DoWhileStmt { span, test, body }))
    }
}

impl BuildsFor for Ast {
    ghost use Rattle.swc_ecma_parser_model.specs.Tree as tree;
    ghost use Rattle.swc_ecma_parser_trees.specs.Parts as parts;

    type ForInit = VarDeclOrExpr;

    type ForHead = ForHead;

    ghost init_of = { view_var_decl_or_expr };

    ghost head_of = { view_for_head };

    fn for_stmt(
        alloc: Global,
        span: Span,
        init: Option<VarDeclOrExpr>,
        test: Option<Made>,
        update: Option<Made>,
        body: Stmt,
    ) -> Result<Stmt, AllocError>
        ensures { IfOk result (λ x. view_stmt x
            ≡ tree.for span (parts.part_of view_var_decl_or_expr init) (parts.part_of view_made test)
            (parts.part_of view_made update) (view_stmt body)) }
    {
        let others = (Made::optional(test), Made::optional(update));
        match beside(StmtBox::new(alloc, body), others) {
            Ok((body, (test, update))) => {
                let found = ForStmt {
                    span,
                    init,
                    test,
                    update,
                    body,
                };
                Ok(Stmt::For(found.boxed(alloc)?))
            }
            Err(e) => {
                if let Some(init) = init {
                    init.discard();
                }
                Err(e)
            }
        }
    }

    fn var_init(
        alloc: Global,
        span: Span,
        kind: VarDeclKind,
        decls: Vec<VarDeclarator>,
    ) -> Result<VarDeclOrExpr, AllocError>
        ensures { IfOk result
            (λ x. view_var_decl_or_expr x
            ≡ tree.var span kind (tree.listed (map view_declarator decls.items))) }
    {
        Ok(VarDeclOrExpr::VarDecl(VarDecl { span, kind, decls }))
    }

    fn expr_init(alloc: Global, expr: Made) -> Result<VarDeclOrExpr, AllocError> {
        Ok(VarDeclOrExpr::Expr(expr.into_handle()))
    }

    fn for_in(
        alloc: Global,
        span: Span,
        left: ForHead,
        right: Made,
        body: Stmt,
    ) -> Result<Stmt, AllocError> {
        match beside(StmtBox::new(alloc, body), right.into_handle()) {
            Ok((body, right)) => {
                let found = ForInStmt {
                    span,
                    left,
                    right,
                    body,
                };
                Ok(Stmt::ForIn(found.boxed(alloc)?))
            }
            Err(e) => {
                left.discard();
                Err(e)
            }
        }
    }

    fn for_of(
        alloc: Global,
        span: Span,
        is_await: bool,
        left: ForHead,
        right: Made,
        body: Stmt,
    ) -> Result<Stmt, AllocError> {
        match beside(StmtBox::new(alloc, body), right.into_handle()) {
            Ok((body, right)) => {
                let found = ForOfStmt {
                    span,
                    is_await,
                    left,
                    right,
                    body,
                };
                Ok(Stmt::ForOf(found.boxed(alloc)?))
            }
            Err(e) => {
                left.discard();
                Err(e)
            }
        }
    }

    fn var_head(
        alloc: Global,
        span: Span,
        kind: VarDeclKind,
        decls: Vec<VarDeclarator>,
    ) -> Result<ForHead, AllocError>
        ensures { IfOk result
            (λ x. view_for_head x
            ≡ tree.var span kind (tree.listed (map view_declarator decls.items))) }
    {
        Ok(ForHead::VarDecl(VarDecl { span, kind, decls }))
    }

    fn using_head(
        alloc: Global,
        span: Span,
        is_await: bool,
        decls: Vec<VarDeclarator>,
    ) -> Result<ForHead, AllocError>
        ensures { IfOk result
            (λ x. view_for_head x
            ≡ tree.using span is_await (tree.listed (map view_declarator decls.items))) }
    {
        Ok(ForHead::UsingDecl(UsingDecl {
            span,
            is_await,
            decls,
        }))
    }

    fn pat_head(alloc: Global, pat: Pat) -> Result<ForHead, AllocError> {
        Ok(ForHead::Pat(pat))
    }
}
