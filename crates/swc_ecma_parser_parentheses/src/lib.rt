//! What stands in parentheses where an expression or the parameters of an arrow function may stand, over any source of tokens and any
//! tree: ECMA-262, section 13.2.9. What stands further in is read by the readers that a rule takes as parameters.
#![tactic(auto)]

pub mod arguments;
pub mod closed;
pub mod group;
pub mod parameters;
