//! Comments and tokens as tools for ESTree take them, in the form of espree.
#![tactic(auto)]

mod comments;
mod tokens;

pub use comments::push_comments;
pub use tokens::push_tokens;
