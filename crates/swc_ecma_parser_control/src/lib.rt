//! The rules of statements that hold others, and of any statement by its first token, over any source of tokens and any tree:
//! ECMA-262, section 14. A rule takes the readers of what stands further in as parameters, so each is proved by itself.
#![tactic(auto)]

mod handler;
mod label;
pub mod stmt;
mod switch;
mod with_statement;
