/// What may come behind the tokens that were read.
#[derive(Clone, Copy, Debug, PartialEq, Eq)]
pub enum Ahead {
    /// A statement.
    Statement,
    /// An operand.
    Operand,
    /// The same, directly behind `new`.
    New,
    /// What goes on with an operand.
    Ended,
    /// A name, which any word may be.
    Name,
    /// A key of an object or the name of a member of a class.
    Key,
    /// What goes on with a key, or another word of it.
    BehindKey,
    /// The parenthesis of `if`, `while`, `for` or `with`.
    Head,
    /// The body of an arrow function.
    Arrow,
    /// What stands behind `async`, where a statement may begin.
    Async,
    /// The same, where an operand must come.
    AsyncOperand,
    /// What stands behind `export` and `default`.
    Exported,
    /// What stands behind `let`: a declared name or pattern, or what goes on with the name `let`.
    Let,
}
