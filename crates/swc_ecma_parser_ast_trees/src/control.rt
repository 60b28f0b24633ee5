ghost use Rattle.std.specs.Prelude.{◌≡◌, IfOk, map};
ghost use Rattle.swc_ecma_parser_ast.specs.View.{view_block_stmt, view_catch_clause, view_pat, view_stmt, view_switch_case};
ghost use Rattle.swc_ecma_parser_ast_parts.specs.View.{view_made};

use crate::Ast;
use std::alloc::{AllocError, Global};
use swc_ecma_parser_ast::{
    BlockStmt, BreakStmt, CatchClause, ContinueStmt, Ident, IfStmt, LabeledStmt, Pat, ReturnStmt,
    Span, Stmt, StmtBox, StmtList, SwitchCase, SwitchStmt, ThrowStmt, TryStmt, WithStmt,
};
use swc_ecma_parser_ast_parts::boxes::{beside, both, optional_stmt};
use swc_ecma_parser_ast_parts::made::Made;
use swc_ecma_parser_trees::{BuildsControl, BuildsSwitch, BuildsTry};

impl BuildsControl for Ast {
    ghost use Rattle.swc_ecma_parser_model.specs.Tree as tree;
    ghost use Rattle.swc_ecma_parser_trees.specs.Parts as parts;

    fn with(alloc: Global, span: Span, obj: Made, body: Stmt) -> Result<Stmt, AllocError> {
        let (body, obj) = beside(StmtBox::new(alloc, body), obj.into_handle())?;
        Ok(Stmt::With(WithStmt { span, obj, body }))
    }

    fn return_stmt(alloc: Global, span: Span, arg: Option<Made>) -> Result<Stmt, AllocError>
        ensures { IfOk result (λ x. view_stmt x ≡ tree.return span (parts.part_of view_made arg)) }
    {
        let arg = Made::optional(arg);
        Ok(Stmt::Return(ReturnStmt { span, arg }))
    }

    fn labeled(alloc: Global, span: Span, label: Ident, body: Stmt) -> Result<Stmt, AllocError> {
        let (body, label) = beside(StmtBox::new(alloc, body), label)?;
        Ok(Stmt::Labeled(LabeledStmt { span, label, body }))
    }

    fn break_stmt(alloc: Global, span: Span, label: Option<Ident>) -> Result<Stmt, AllocError> {
        Ok(Stmt::Break(BreakStmt { span, label }))
    }

    fn continue_stmt(alloc: Global, span: Span, label: Option<Ident>) -> Result<Stmt, AllocError> {
        Ok(Stmt::Continue(ContinueStmt { span, label }))
    }

    fn if_stmt(
        alloc: Global,
        span: Span,
        test: Made,
        cons: Stmt,
        alt: Option<Stmt>,
    ) -> Result<Stmt, AllocError>
        ensures { IfOk result (λ x. view_stmt x
            ≡ tree.if_stmt span (view_made test) (view_stmt cons) (parts.part_of view_stmt alt)) }
    {
        let alt = optional_stmt(alloc, alt);
        let branches = both(StmtBox::new(alloc, cons), alt);
        let ((cons, alt), test) = beside(branches, test.into_handle())?;
        Ok(Stmt::If(IfStmt {
            span,
            test,
            cons,
            alt,
        }))
    }

    fn throw(alloc: Global, span: Span, arg: Made) -> Result<Stmt, AllocError> {
        let arg = arg.into_handle();
        Ok(Stmt::Throw(ThrowStmt { span, arg }))
    }

    fn is_if(stmt: &Stmt) -> bool {
        match stmt {
            Stmt::If(_) => true,
            _ => false,
        }
    }
}

impl BuildsSwitch for Ast {
    ghost use Rattle.swc_ecma_parser_model.specs.Tree as tree;
    ghost use Rattle.swc_ecma_parser_trees.specs.Parts as parts;

    type Case = SwitchCase;

    ghost case_of = { view_switch_case };

    fn switch(
        alloc: Global,
        span: Span,
        discriminant: Made,
        cases: Vec<SwitchCase>,
    ) -> Result<Stmt, AllocError>
        ensures { IfOk result (λ x. view_stmt x
            ≡ tree.switch span (view_made discriminant) (tree.listed (map view_switch_case cases.items))) }
    {
        let discriminant = discriminant.into_handle();
        Ok(Stmt::Switch(SwitchStmt {
            span,
            discriminant,
            cases,
        }))
    }

    fn case(
        alloc: Global,
        span: Span,
        test: Option<Made>,
        cons: Vec<Stmt>,
    ) -> Result<SwitchCase, AllocError>
        ensures { IfOk result (λ x. view_switch_case x
            ≡ tree.case span (parts.part_of view_made test) (tree.listed (map view_stmt cons.items))) }
    {
        let test = Made::optional(test);
        let (cons, test) = beside(StmtList::new(alloc, cons), test)?;
        Ok(SwitchCase { span, test, cons })
    }
}

impl BuildsTry for Ast {
    ghost use Rattle.swc_ecma_parser_model.specs.Tree as tree;
    ghost use Rattle.swc_ecma_parser_trees.specs.Parts as parts;

    type Catch = CatchClause;

    ghost catch_of = { view_catch_clause };

    fn try_stmt(
        alloc: Global,
        span: Span,
        block: BlockStmt,
        handler: Option<CatchClause>,
        finalizer: Option<BlockStmt>,
    ) -> Result<Stmt, AllocError>
        ensures { IfOk result (λ x. view_stmt x
            ≡ tree.try span (view_block_stmt block) (parts.part_of view_catch_clause handler) (parts.part_of view_block_stmt finalizer)) }
    {
        let found = TryStmt {
            span,
            block,
            handler,
            finalizer,
        };
        Ok(Stmt::Try(found.boxed(alloc)?))
    }

    fn catch(
        alloc: Global,
        span: Span,
        param: Option<Pat>,
        body: BlockStmt,
    ) -> Result<CatchClause, AllocError>
        ensures { IfOk result (λ x. view_catch_clause x
            ≡ tree.catch span (parts.part_of view_pat param) (view_block_stmt body)) }
    {
        Ok(CatchClause { span, param, body })
    }
}
