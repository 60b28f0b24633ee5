//! What may not stand in the code around it: names that strict code does not bind or assign, words that it reserves, `delete` of names, `with`,
//! `super`, `arguments`, `new.target`, `await` and `yield` out of place, old forms of numbers and escapes, flags of regular expressions (ECMA-262,
//! 12.9.3.1, 12.9.4.1, 13.1.1, 13.2.5.1, 13.2.7.1, 13.5.1.1, 14.11.1, 15.2.1, 15.3.1, 15.5.1, 15.7.1, 15.9.1, 16.1.1 and 16.2.1.1), over the events of a tree.
#![tactic(auto)]

mod check;
mod context;
mod words;

pub use check::context_errors;
