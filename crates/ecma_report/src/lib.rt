//! What a text comes to, in lines: its items and its faults.
#![tactic(auto)]

mod answer;
mod items;
mod lines;
mod modules;
mod programs;
mod statements;
mod texts;

pub use answer::{Goal, Report, Verdict, parse};
pub use items::show_item;
pub use lines::{Whole, lines_of_statement};
pub use modules::show_module;
pub use programs::show_program;
pub use statements::show_statement;
pub use texts::{Shown, show};
