//! A block holds what stands in it.

ghost use Rattle.std.specs.Prelude.{◌≡◌, IfOk, IfErr};
ghost use Rattle.swc_ecma_parser_error.specs.Kind.{IsOutOfMemory};

use crate::directive::{FromStmt, IsDirective};
use std::alloc::{AllocError, Global};
use swc_ecma_parser_error::PResult;
use swc_ecma_parser_trees::Trees;

impl<B: IsDirective> IsDirective for Box<B> {
    ghost held = { λ b. B.held b.value };

    fn is_use_strict(&self) -> bool {
        (**self).is_use_strict()
    }

    fn can_precede_directive(&self) -> bool {
        (**self).can_precede_directive()
    }
}

impl<T: Trees, B: FromStmt<T> + Drop> FromStmt<T> for Box<B> {
    fn from_stmt(alloc: Global, stmt: T::Stmt) -> PResult<Box<B>> {
        let value = B::from_stmt(alloc, stmt)?;
        match Box::new(alloc, value) {
            Ok(block) => Ok(block),
            Err(e) => Err(AllocError::from(e).into()),
        }
    }
}
