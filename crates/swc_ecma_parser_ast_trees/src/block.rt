ghost use Rattle.std.specs.Prelude.{◌≡◌, IfOk, map};
ghost use Rattle.swc_ecma_parser_ast.specs.View.{view_block_stmt, view_stmt};

use crate::Ast;
use std::alloc::{AllocError, Global};
use swc_ecma_parser_ast::{BlockStmt, Span, Spanned, Stmt, StmtList};
use swc_ecma_parser_trees::BuildsBlock;

impl BuildsBlock for Ast {
    ghost use Rattle.swc_ecma_parser_model.specs.Tree as tree;

    type Block = BlockStmt;

    ghost block_of = { view_block_stmt };

    fn body(alloc: Global, span: Span, stmts: Vec<Stmt>) -> Result<BlockStmt, AllocError>
        ensures { IfOk result
            (λ x. view_block_stmt x ≡ tree.block span (tree.listed (map view_stmt stmts.items))) }
    {
        let stmts = StmtList::new(alloc, stmts)?;
        Ok(BlockStmt { span, stmts })
    }

    fn stmt_span(stmt: &Stmt) -> Span {
        stmt.span()
    }
}
