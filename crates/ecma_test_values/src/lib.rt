//! Tests of the values that a user of the parser meets: each public function once.
#![tactic(auto)]

#[cfg(test)]
mod check;
#[cfg(test)]
mod faults;
#[cfg(test)]
mod lexers;
#[cfg(test)]
mod places;
#[cfg(test)]
mod sizes;
#[cfg(test)]
mod sources;
#[cfg(test)]
mod tokens;
