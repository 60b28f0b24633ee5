//! Names that a module exports twice, and names that it exports and does not declare (ECMA-262, 16.2.1.1), over the events of a tree.
#![tactic(auto)]

mod check;
mod exports;
mod places;

pub use check::export_errors;
