//! The rules of operators, assignments and sequences, over any source of tokens and any tree: ECMA-262, sections 13.4 to 13.16.
//! What stands further in is read by the readers that a rule takes as parameters.
#![tactic(auto)]

mod arrows;
pub mod assignment;
pub mod decorator;
pub mod operator;
