//! The rules of loops, over any source of tokens and any tree: ECMA-262, section 14.7. Statements, expressions and patterns are read
//! by the readers that a rule takes as parameters.
#![tactic(auto)]

pub mod for_loop;
pub mod head;
pub mod while_do;
