//! The rules of functions and of methods, over any source of tokens and any tree: ECMA-262, sections 15.2, 15.4 to 15.6 and 15.8.
//! What stands further in is read by the readers that a rule takes as parameters.
#![tactic(auto)]

pub mod function;
pub mod methods;
