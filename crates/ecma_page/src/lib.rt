//! A page that shows a text, its faults and its tree, and that stands alone: HTML Living Standard.
#![tactic(auto)]

mod block;
mod blocks;
mod check;
mod faults;
mod frame;
mod head;
mod page;
mod parts;
mod reader;
mod rows;
mod seek;
mod style;
mod text;
mod tree;
mod view;
mod worker;

pub use frame::{FRAME, Frame};
pub use page::{Page, push_page};
