//! What the tree of `swc_ecma_parser_ast` is put together from: expressions as rules hand them on, parts in the places that
//! they take in a form, expressions turned into what `=` assigns to, whether such a pattern binds names alone, and objects by
//! themselves.
#![tactic(auto)]

pub mod binds;
pub mod boxes;
pub mod made;
pub mod objects;
pub mod target;
