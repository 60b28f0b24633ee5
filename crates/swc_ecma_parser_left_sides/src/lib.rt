//! The rules of primary and left-hand-side expressions, over any source of tokens and any tree: ECMA-262, sections 13.2 and 13.3.
#![tactic(auto)]

pub mod access;
pub mod left;
pub mod links;
mod templates;
