//! Expressions, patterns, functions and classes as ESTree. Each function writes one node as far as its first part, and lays the parts and
//! what stands between them upon the writer's stack.
#![tactic(auto)]

mod calls;
mod chains;
mod classes;
mod exprs;
mod functions;
mod members;
mod objects;
mod operators;
mod patterns;
mod templates;

pub use calls::write_argument;
pub use chains::write_linked;
pub use classes::{write_class, write_class_body, write_class_decl};
pub use exprs::write_expr;
pub use functions::{
    write_accessor, write_decorator, write_function_decl, write_function_expr, write_method_value,
};
pub use members::write_class_member;
pub use objects::{write_attribute, write_part};
pub use operators::push_optional;
pub use patterns::{write_pat, write_pat_part};
pub use templates::write_template;
