//! Positions, spans, comments, owned text and a box that contracts see as its value.
#![tactic(auto)]

mod atom;
mod boxed;
mod comment;
mod short;
mod span;

pub use atom::Atom;
pub use boxed::Boxed;
pub use comment::{Comment, CommentKind};
pub use span::{BytePos, Span, Spanned};
