//! Early errors of a tree that the parser does not look for: what ECMA-262 forbids beyond its grammar.
//!
//! A tree goes in, and what is wrong with it comes out in the order of places. The parser and its faults stay as they are; none of these is
//! one of its faults.
#![tactic(auto)]

mod entry;
mod sentences;

pub use ecma_events::{EarlyError, EarlyErrorKind};
pub use entry::{early, early_module, early_script};
pub use sentences::{name, note, sentence};
