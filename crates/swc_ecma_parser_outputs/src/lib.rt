//! Types that a reader can be asked for, and what it may know of them: statements and items, functions and classes in their places,
//! lists of parameters.
#![tactic(auto)]

mod boxed;
mod directive;
mod output;
mod parameters;
mod patterns;
mod places;
mod statements;

pub use directive::{FromItem, FromStmt, IsDirective};
pub use output::OutputType;
pub use parameters::{IsSimpleParameterList, Parameter};
