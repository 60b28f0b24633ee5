//! The rules of arrow functions, of `yield` and of `await`, over any source of tokens and any tree: ECMA-262, sections 15.3, 15.5,
//! 15.8 and 15.9. What stands further in is read by the readers that a rule takes as parameters.
#![tactic(auto)]

pub mod arrows;
pub mod awaits;
pub mod yields;
