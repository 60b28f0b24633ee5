/// How tightly an expression binds, loosest first: ECMA-262, section 13.
#[derive(Clone, Copy, Debug, PartialEq, Eq)]
pub enum Class {
    /// With commas.
    Expression,
    /// An assignment expression.
    Assignment,
    /// The operand of a binary operator that binds so tightly, from 1 (`||`) to 11 (`**`).
    Operator(usize),
    /// A unary expression.
    Unary,
    /// A left-hand-side expression.
    LeftSide,
    /// What `new` calls.
    Callee,
}
