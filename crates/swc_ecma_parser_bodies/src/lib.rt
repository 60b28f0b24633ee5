//! The rules of bodies, over any source of tokens and any tree: ECMA-262, sections 14.2, 14.12 and 15.2. What stands further in is
//! read by the readers that a rule takes as parameters.
#![tactic(auto)]

pub mod body;
