//! A sentence for each fault of a text, and the other place that it speaks of.
#![tactic(auto)]

mod look;
mod messages;
mod note;
mod payload;
mod sentences;

pub use messages::message;
pub use note::{Note, note_of};
pub use sentences::sentence;
