//! Statements, sorted.

ghost use Rattle.std.specs.Prelude.{◌≡◌, IfOk};

use std::alloc::Global;
use swc_ecma_parser_ast::{Decl, Stmt};
use swc_ecma_parser_ast_trees::Ast;
use swc_ecma_parser_error::PResult;
use swc_ecma_parser_outputs::{FromStmt, IsDirective};

/// A statement, with declarations apart.
pub enum Part {
    /// What declares names.
    Declaration(Decl),
    /// What runs.
    Other(Stmt),
}

impl Drop for Part {
    fn drop(self) {
        match self {
            Part::Declaration(decl) => Stmt::Decl(decl).discard(),
            Part::Other(stmt) => stmt.discard(),
        }
    }
}

impl IsDirective for Part {
    ghost use Rattle.ecma_sorted.specs.Parts.{view_part};

    ghost held = { view_part };

    #[tactic(auto, using(crate::proofs::Declared::no_directive))]
    fn is_use_strict(&self) -> bool {
        match self {
            Part::Declaration(_) => false,
            Part::Other(stmt) => stmt.is_use_strict(),
        }
    }

    #[tactic(auto, using(crate::proofs::Declared::no_string))]
    fn can_precede_directive(&self) -> bool {
        match self {
            Part::Declaration(_) => false,
            Part::Other(stmt) => stmt.can_precede_directive(),
        }
    }
}

impl FromStmt<Ast> for Part {
    fn from_stmt(alloc: Global, stmt: Stmt) -> PResult<Part> {
        match stmt {
            Stmt::Decl(decl) => Ok(Part::Declaration(decl)),
            other => Ok(Part::Other(other)),
        }
    }
}
