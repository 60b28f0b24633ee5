//! The tokens of a source text: ECMA-262, "Lexical Grammar" (section 12).
#![tactic(auto)]

mod keyword;
mod kind;
mod operator;
mod token;

pub use keyword::Keyword;
pub use kind::TokenKind;
pub use operator::{AssignOp, BinOpToken};
pub use token::{Token, TokenAndSpan, Word};
