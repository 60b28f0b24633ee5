//! Tests of parsers that no row can be: what they hand out beside trees and faults.
#![tactic(auto)]

#[cfg(test)]
mod forms;
#[cfg(test)]
mod headlines;
#[cfg(test)]
mod lists;
#[cfg(test)]
mod parsers;
#[cfg(test)]
mod shapes;
