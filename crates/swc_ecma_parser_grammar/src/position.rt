/// What a statement may be in its place.
#[derive(Clone, Copy, Debug, PartialEq, Eq)]
pub struct Position {
    /// Declarations are read: the place is a `StatementListItem` of ECMA-262 (section 14).
    pub include_decl: bool,
    /// It stands in no block or body: it is an item of the script itself.
    pub top_level: bool,
}
