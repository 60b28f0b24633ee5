//! What ESTree is written with: a writer, which holds the text that is written and a stack of what is yet to be written.
#![tactic(auto)]

mod leaves;
mod words;
mod work;
mod writer;

pub use leaves::{
    write_big_int, write_literal, write_meta, write_name, write_number, write_optional_name,
    write_private_name, write_regex, write_str, write_template_element,
};
pub use words::{
    assign_word, binary_kind, binary_word, bool_word, kind_word, method_word, unary_word,
    update_word, using_word,
};
pub use work::Work;
pub use writer::Writer;
