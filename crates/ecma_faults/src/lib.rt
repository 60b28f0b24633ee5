//! Faults as they are printed: for people with the line and carets under what is wrong, for tools as JSON.
#![tactic(auto)]

mod early;
mod excerpt;
mod json;
mod place;
mod room;
mod shown;
mod text;

pub use early::{early_note, push_early_json, push_early_text};
pub use ecma_outline::Source;
pub use ecma_sentences::{Note, message, note_of, sentence};
pub use json::push_fault as push_json;
pub use shown::push_name;
pub use text::push_fault as push_text;
