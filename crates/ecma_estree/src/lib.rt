//! A tree as ESTree, in the form of acorn: its JSON, with the keys of acorn in acorn's order and offsets as JavaScript counts them.
//!
//! Nothing here recurs: what is yet to be written stands on a stack. So a chain of any length and the deepest nest are written.
#![tactic(auto)]

mod entry;
mod exports;
mod imports;
mod lists;
mod loops;
mod run;
mod stmts;

pub use entry::{write_module, write_program, write_script};
