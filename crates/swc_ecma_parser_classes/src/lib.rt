//! The rules of classes, over any source of tokens and any tree: ECMA-262, section 15.7. What stands further in, the members
//! among it, is read by the readers that a rule takes as parameters.
#![tactic(auto)]

pub mod class;
pub mod readers;
pub mod words;
