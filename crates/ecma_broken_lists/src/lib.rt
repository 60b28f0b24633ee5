//! Rows whose lists are broken at one place: an error token or a stray bracket stands there, or the list is cut.
#![tactic(auto)]

mod broken;

pub use broken::break_rows;
