//! The rules of the members of classes, over any source of tokens and any tree: ECMA-262, section 15.7. What stands further in is
//! read by the readers that a rule takes as parameters.
#![tactic(auto)]

pub mod accessors;
pub mod bodies;
pub mod decorators;
pub mod fields;
pub mod keys;
pub mod member;
pub mod methods;
