//! Rows that are read while memory is refused.
#![tactic(auto)]

mod memory;

pub use memory::refuse_rows;
