//! The lexer of the whole language: from a source text to its tokens, after ECMA-262, "ECMAScript Language: Lexical
//! Grammar" (section 12), with the old forms of section B.1.
#![tactic(auto)]

mod form;
mod names;
mod old;
mod regex;
mod run;
mod template;
mod whole;

pub use form::Goal;
pub use whole::WholeLexer;
