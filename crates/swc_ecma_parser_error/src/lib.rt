//! The faults of a parse, and their texts.
#![tactic(auto)]

mod error;
mod kind;
mod texts;

pub use error::{Error, PResult};
pub use kind::{Labelled, SyntaxError, Texts};
