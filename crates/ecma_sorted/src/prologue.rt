//! What is written once for every type that can stand in the place of a statement.

ghost use Rattle.std.specs.Prelude.{◌≡◌, [], ◌∷◌, ◌++◌, map, IfErr, OnOk};
ghost use Rattle.ecma_sorted.specs.Prologues.{says_strict};
ghost use Rattle.swc_ecma_parser_error.specs.Kind.{IsOutOfMemory};

use std::alloc::{AllocError, Global};
use swc_ecma_parser_error::PResult;
use swc_ecma_parser_outputs::{FromStmt, IsDirective};
use swc_ecma_parser_trees::Trees;

/// Whether the directives that stand first say that the code is strict: section 11.2.2 of ECMA-262.
pub fn is_strict<Y: IsDirective>(items: &[Y]) -> bool
    ensures { result ≡ says_strict (map Y.held items.now) }
{
    let mut rest = items;
    'directives: while let Some((first, others)) = rest.split_first() {
        if first.is_use_strict() {
            return true;
        }
        if !first.can_precede_directive() {
            return false;
        }
        rest = others;
    }
    false
}

/// Puts a statement behind the others, as a value that holds it.
#[tactic(auto, using(std::proofs::lemmas::List::map_push))]
pub fn keep<T: Trees, Y: FromStmt<T> + Drop>(
    alloc: Global,
    items: &mut Vec<Y>,
    stmt: T::Stmt,
) -> PResult<()>
    ensures holds { OnOk result
        (map Y.held items.new.items ≡ map Y.held items.old.items ++ T.stmt_of stmt ∷ []) }
    ensures err { IfErr result IsOutOfMemory }
{
    let item = Y::from_stmt(alloc, stmt)?;
    match items.push(item) {
        Ok(()) => Ok(()),
        Err(e) => Err(AllocError::from(e).into()),
    }
}
