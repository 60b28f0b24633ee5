//! The pieces of a source text, after ECMA-262, "ECMAScript Language: Lexical Grammar" (section 12): where each ends,
//! and of what kind it is.
#![tactic(auto)]

mod chars;
mod number;
mod piece;
mod run;
mod state;
mod step;

pub use chars::{first_char, hex_digit, is_digit, is_line_break, is_name_part, is_name_start};
pub use piece::{Piece, scan};
pub use state::{Base, Mark, Number, State};
