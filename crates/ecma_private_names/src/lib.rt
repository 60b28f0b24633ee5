//! Private names that a class declares twice, and those that no class around declares (ECMA-262, 15.7.1, 16.1.1 and 16.2.1.1), over the events of a
//! tree.
#![tactic(auto)]

mod check;
mod classes;
mod members;

pub use check::private_name_errors;
