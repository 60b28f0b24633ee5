//! What parsers answer that are asked what a row asks, over each of its sources.
#![tactic(auto)]

pub mod answers;
pub mod sources;
