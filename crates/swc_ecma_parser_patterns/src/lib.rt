//! The rules of binding patterns, over any source of tokens and any tree: ECMA-262, section 14.3.3. What stands further in is read
//! by the readers that a rule takes as parameters.
#![tactic(auto)]

mod object_pat;
pub mod params;
pub mod pat;
