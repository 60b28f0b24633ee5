//! The rules of statements that hold no other, over any source of tokens and any tree: ECMA-262, section 14. Expressions and patterns
//! are read by the readers that a rule takes as parameters.
#![tactic(auto)]

pub mod jump;
pub mod leave;
pub mod simple;
mod statement_end;
pub mod using;
pub mod variables;
