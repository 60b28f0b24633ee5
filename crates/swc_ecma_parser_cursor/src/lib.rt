//! What the rules read from, as a trait over the state of a parser; what they want of it; and the tables of names and operators.
#![tactic(auto)]

mod around;
mod cursor;
mod keys;
mod literal;
mod names;
mod operators;
mod wanted;

pub use around::Around;
pub use cursor::Cursor;
pub use keys::ends_key;
pub use literal::Literal;
pub use names::{
    count_labels, follows_let, is_identifier, is_label, is_name, is_reserved_word, may_bind_await,
    may_refer_to_await,
};
pub use operators::{
    assign_operator, begins_operand, binary_operator, groups_left, mixes, precedence,
    unary_operator, update_operator,
};
pub use wanted::{Wanted, missing};
