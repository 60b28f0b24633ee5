//! Bodies of functions, read as a type that the caller picks: ECMA-262, sections 15.2 and 15.3.
#![tactic(auto)]

mod arrow;
mod block;
mod parser;
mod tree;

pub use parser::{FnBodyParser, FromArrowBody};
