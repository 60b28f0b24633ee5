//! The tokens of a text and the brackets that are open at each, told by single bytes, for sentences on what stands around a fault.
#![tactic(auto)]

mod bytes;
mod outline;
mod parts;
mod source;

pub use bytes::is_word;
pub use outline::{Lexeme, Open};
pub use parts::{byte_at, is_start, piece};
pub use source::Source;
