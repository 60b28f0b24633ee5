//! The lexer: from a source text to its tokens, after ECMA-262, "ECMAScript Language: Lexical Grammar" (section 12).
#![tactic(auto)]

mod blank;
mod comment;
mod escape;
mod input;
mod lexer;
mod make;
mod place;
mod plain;
mod words;

pub use escape::{Escape, Turn, escaped, is_well_escaped, lossy, say, say_last, value_of};
pub use input::StringInput;
pub use lexer::Lexer;
pub use make::is_number;
pub use place::Place;
