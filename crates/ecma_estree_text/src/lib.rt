//! The texts that ESTree is made of: JSON strings, numbers, places as JavaScript counts them, and places of brackets.
#![tactic(auto)]

mod bracket;
mod long;
mod number;
mod places;
mod quoted;
mod spot;
mod strings;

pub use bracket::find;
pub use number::{push_count, push_digits, push_number};
pub use places::{Extras, Places};
pub use quoted::{push_inner, push_quoted, push_quoted_bytes, push_regex};
pub use spot::{Mark, Spot};
pub use strings::push_string;
