//! The rule of `if`, over any source of tokens and any tree: ECMA-262, section 14.6. It takes the readers of what stands further in
//! as parameters.
#![tactic(auto)]

pub mod branch;
