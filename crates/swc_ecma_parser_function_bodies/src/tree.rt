//! The tree's own body of an arrow function.

ghost use Rattle.std.specs.Prelude.{◌≡◌};

use crate::parser::FromArrowBody;
use swc_ecma_parser_ast::{BlockStmt, BlockStmtOrExpr};
use swc_ecma_parser_ast_parts::made::Made;
use swc_ecma_parser_ast_trees::Ast;

impl FromArrowBody<Ast> for BlockStmtOrExpr {
    ghost use Rattle.swc_ecma_parser_ast.specs.View.{view_block_stmt_or_expr};

    ghost arrow_body = { view_block_stmt_or_expr };

    fn from_block(block: BlockStmt) -> BlockStmtOrExpr {
        BlockStmtOrExpr::BlockStmt(block)
    }

    fn from_expr(expr: Made) -> BlockStmtOrExpr {
        BlockStmtOrExpr::Expr(expr.into_handle())
    }
}
