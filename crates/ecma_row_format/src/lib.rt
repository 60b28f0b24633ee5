//! How a row is written: what it asks of a parser, and the lines and trees that it says are answered.
#![tactic(auto)]

pub mod asked;
pub mod faults;
pub mod lines;
mod nodes;
mod parts;
pub mod row;
pub mod tally;
pub mod trees;
