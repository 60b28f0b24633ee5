//! What may come behind the tokens of a text: whether `/` begins a regular expression there and whether `}` goes on with a
//! template. It is told by the kinds of the tokens alone.
#![tactic(auto)]

mod ahead;
mod nest;
mod stack;

pub use ahead::Ahead;
pub use nest::Nest;
pub use stack::{LIMIT, Open};
