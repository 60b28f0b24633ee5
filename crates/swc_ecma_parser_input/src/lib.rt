//! Where tokens come from: the trait of sources with its laws, two sources, a buffer over a source, settings and contexts.
#![tactic(auto)]

mod buffer;
mod capturing;
mod comments;
mod context;
mod faults;
mod ring;
mod syntax;
mod tokens;
mod tokens_input;

pub use buffer::Buffer;
pub use capturing::Capturing;
pub use comments::CommentSource;
pub use context::Context;
pub use faults::{FaultLists, out_of_memory};
pub use syntax::{EsSyntax, Syntax};
pub use tokens::{Tokens, is_out_of_memory};
pub use tokens_input::{TokensInput, spans_ordered};
