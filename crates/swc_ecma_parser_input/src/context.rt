/// What stands around the tokens that are read next: the parameters of the productions of ECMA-262 (section 5.1.5) and
/// what its static semantics ask of the code around. All flags are off by default.
#[derive(Clone, Copy, Debug, PartialEq, Eq, Default)]
pub struct Context {
    /// Module code.
    pub module: bool,
    /// The code may turn out to be a module's.
    pub can_be_module: bool,
    /// Strict mode code (section 11.2.2).
    pub strict: bool,
    /// The code of an async function: `[Await]`.
    pub in_async: bool,
    /// The code of a generator: `[Yield]`.
    pub in_generator: bool,
    /// The body of a function, or of a `with` statement: `[Return]`.
    pub in_function: bool,
    /// The parameters of a function.
    pub in_parameters: bool,
    /// The code of a class.
    pub in_class: bool,
    /// A static block of a class.
    pub in_static_block: bool,
    /// `break` has something to leave.
    pub is_break_allowed: bool,
    /// `continue` has a loop to go on with.
    pub is_continue_allowed: bool,
    /// The operator `in` is read: `[In]`.
    pub include_in_expr: bool,
}
