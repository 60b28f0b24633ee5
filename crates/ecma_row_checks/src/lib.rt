//! Rows held against what their texts come to: answers, trees, faults, tokens, and the levels that they need.
#![tactic(auto)]

mod check;
mod lexed;
mod limits;

pub use check::compare;
