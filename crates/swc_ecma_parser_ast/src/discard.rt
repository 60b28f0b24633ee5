//! Letting go of trees. What is dropped at the end of a scope is proved in each crate where that happens, for every type that
//! stands there, as far as its nodes; a call of `discard` costs such a crate nothing. Each calls `drop`, which knows the value by its
//! bound alone: in an empty body the forms of the type would be proved once more.

use crate::expr::Expr;
use crate::loops::{ForHead, VarDeclOrExpr};
use crate::object::Prop;
use crate::pat::Pat;
use crate::program::{Module, ModuleItem, Program};
use crate::script::Script;
use crate::stmt::Stmt;

impl<N: Drop> Expr<N> {
    /// Drops it.
    pub fn discard(self) {
        drop(self);
    }
}

impl<N: Drop> Pat<N> {
    /// Drops it.
    pub fn discard(self) {
        drop(self);
    }
}

impl<N: Drop> Stmt<N> {
    /// Drops it.
    pub fn discard(self) {
        drop(self);
    }
}

impl<N: Drop> Prop<N> {
    /// Drops it.
    pub fn discard(self) {
        drop(self);
    }
}

impl<N: Drop> ForHead<N> {
    /// Drops it.
    pub fn discard(self) {
        drop(self);
    }
}

impl<N: Drop> VarDeclOrExpr<N> {
    /// Drops it.
    pub fn discard(self) {
        drop(self);
    }
}

impl<N: Drop> Script<N> {
    /// Drops it.
    pub fn discard(self) {
        drop(self);
    }
}

impl<N: Drop> Module<N> {
    /// Drops it.
    pub fn discard(self) {
        drop(self);
    }
}

impl<N: Drop> ModuleItem<N> {
    /// Drops it.
    pub fn discard(self) {
        drop(self);
    }
}

impl<N: Drop> Program<N> {
    /// Drops it.
    pub fn discard(self) {
        drop(self);
    }
}
