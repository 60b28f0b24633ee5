//! Statements, their handles and items of modules, as what can stand in the place of a statement.

use crate::directive::{FromItem, FromStmt, IsDirective};
use std::alloc::Global;
use swc_ecma_parser_ast::{ModuleItem, Stmt, StmtBox};
use swc_ecma_parser_ast_trees::Ast;
use swc_ecma_parser_error::PResult;

impl IsDirective for Stmt {
    ghost use Rattle.swc_ecma_parser_ast.specs.View.{view_stmt};

    ghost held = { view_stmt };

    fn is_use_strict(&self) -> bool {
        Stmt::is_use_strict(self)
    }

    fn can_precede_directive(&self) -> bool {
        Stmt::can_precede_directive(self)
    }
}

impl FromStmt<Ast> for Stmt {
    fn from_stmt(alloc: Global, stmt: Stmt) -> PResult<Stmt> {
        Ok(stmt)
    }
}

impl IsDirective for StmtBox {
    ghost held = { λ b. b.node.tree };

    #[tactic(auto, using(crate::proofs::Handles::no_statement_no_directive))]
    fn is_use_strict(&self) -> bool {
        match self.get() {
            Some(stmt) => stmt.is_use_strict(),
            None => false,
        }
    }

    #[tactic(auto, using(crate::proofs::Handles::no_statement_no_string))]
    fn can_precede_directive(&self) -> bool {
        match self.get() {
            Some(stmt) => stmt.can_precede_directive(),
            None => false,
        }
    }
}

impl FromStmt<Ast> for StmtBox {
    fn from_stmt(alloc: Global, stmt: Stmt) -> PResult<StmtBox> {
        match StmtBox::new(alloc, stmt) {
            Ok(handle) => Ok(handle),
            Err(e) => Err(e.into()),
        }
    }
}

impl IsDirective for ModuleItem {
    ghost use Rattle.swc_ecma_parser_ast.specs.View.{view_module_item};

    ghost held = { view_module_item };

    #[tactic(auto, using(swc_ecma_parser_ast_trees::proofs::Kind::module_decl_no_directive))]
    fn is_use_strict(&self) -> bool {
        match self {
            ModuleItem::Stmt(stmt) => stmt.is_use_strict(),
            ModuleItem::ModuleDecl(_) => false,
        }
    }

    #[tactic(auto, using(swc_ecma_parser_ast_trees::proofs::Kind::module_decl_no_string))]
    fn can_precede_directive(&self) -> bool {
        match self {
            ModuleItem::Stmt(stmt) => stmt.can_precede_directive(),
            ModuleItem::ModuleDecl(_) => false,
        }
    }
}

impl FromStmt<Ast> for ModuleItem {
    fn from_stmt(alloc: Global, stmt: Stmt) -> PResult<ModuleItem> {
        Ok(ModuleItem::Stmt(stmt))
    }
}

impl FromItem<Ast> for ModuleItem {
    fn from_item(alloc: Global, item: ModuleItem) -> PResult<ModuleItem> {
        Ok(item)
    }
}
