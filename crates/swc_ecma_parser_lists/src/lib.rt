//! What stands one behind another up to an end, in one loop for all kinds of it: statements, items of modules, and what a caller makes of
//! them. ECMA-262, sections 14.2, 16.1 and 16.2.
#![tactic(auto)]

mod each;
mod lists;

pub use each::Listed;
pub use lists::{ListEnd, items, items_behind};
