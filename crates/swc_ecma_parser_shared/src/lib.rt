//! What the rules of the grammar share: the readers of what stands further in, which a rule takes as parameters, so that each is
//! proved by itself; what may still become a pattern; operators; keys; ends; and steps. Over any source of tokens and any tree.
#![tactic(auto)]

pub mod cover;
pub mod ends;
pub mod found;
pub mod grammar;
pub mod keys;
pub mod operators;
pub mod readers;
pub mod steps;
