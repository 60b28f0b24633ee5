//! The rules of recovery, over any source of tokens and any tree: what is dropped behind a fault. What stands further in is read by
//! the readers that a rule takes as parameters.
#![tactic(auto)]

pub mod recovery;
