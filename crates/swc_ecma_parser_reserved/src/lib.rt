//! Reserved words and names: ECMA-262, sections 12.7.2 and 13.1. A plain name is told by its length and its first bytes.
#![tactic(auto)]

mod special;
mod words;

pub use words::{is_clean, is_free};
