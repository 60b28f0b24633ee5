//! What a text is answered with: a tree, faults, or both as JSON.
#![tactic(auto)]

mod cap;
mod choice;
mod faults;
mod findings;
mod goals;
mod laws;
mod object;
mod options;
mod outcome;
mod parsing;
mod source;
mod told;
mod tree;

pub use cap::{MAX_FAULTS, early_front, front, left_out};
pub use findings::{Findings, find};
pub use goals::read;
pub use laws::one_reading;
pub use object::answer;
pub use options::{Goal, Language, MAX_LIMIT, Options};
pub use outcome::Outcome;
pub use parsing::{Reading, Tree};
pub use told::{Point, Previous, Severity, Told, told_faults};
pub use tree::write;
