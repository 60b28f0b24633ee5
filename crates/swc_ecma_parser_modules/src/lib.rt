//! The rules of imports and of names that are exported: ECMA-262, section 16.2.
#![tactic(auto)]

pub mod exports;
pub mod imports;
pub mod parts;
