//! What each entry of the parser does around its rules, over any source of tokens and any tree: it begins in the code that is asked
//! for, and behind a refusal the code and what was noted are as before. ECMA-262, sections 16.1 and 16.2.
#![tactic(auto)]

pub mod entry;
mod program;
