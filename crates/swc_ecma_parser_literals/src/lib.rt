//! The rules of array and object literals, which may still become patterns, over any source of tokens and any tree: ECMA-262,
//! sections 13.2.4 and 13.2.5.
#![tactic(auto)]

pub mod array;
pub mod object;
