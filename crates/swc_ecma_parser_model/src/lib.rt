//! The model of a tree, which contracts speak of, and the parts of a tree that hold no tree.
#![tactic(auto)]

mod leaves;
mod operators;

pub use leaves::{
    BigInt, Bool, Ident, ImportPhase, MetaPropKind, MethodKind, Null, Number, PrivateName, Regex,
    Str, TplElement, VarDeclKind,
};
pub use operators::{AssignOp, BinaryOp, UnaryOp, UpdateOp};
