//! A worked example: a tool's own type in the place of a statement, and functions that are written once for every such type.
#![tactic(auto)]

mod part;
mod prologue;
mod read;
#[cfg(test)]
mod tests;

pub use part::Part;
pub use prologue::{is_strict, keep};
pub use read::parts;
