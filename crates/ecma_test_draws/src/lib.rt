//! Tests of how far a parser reads ahead: a source that counts what it is asked, and the counts after each item.
#![tactic(auto)]

mod counting;
#[cfg(test)]
mod draws;

pub use counting::Counting;
