//! What stands around a place of a text.

/// The texts around a place; each is empty where there is none.
#[derive(Clone, Copy)]
pub struct Look<'a> {
    /// The token before that before the place.
    pub earlier: &'a str,
    /// The token before the place, or what of a token stands before it.
    pub before: &'a str,
    /// The token at the place, or that behind it where none is there.
    pub found: &'a str,
    /// The token behind that.
    pub after: &'a str,
    /// The innermost bracket that is open before the place.
    pub opener: &'a str,
    /// The token before that bracket.
    pub head: &'a str,
    /// The token before the brackets that end before that bracket.
    pub owner: &'a str,
    /// The token before the brackets that end before the place.
    pub callee: &'a str,
    /// What was expected, as the fault holds it.
    pub wanted: &'a str,
    /// The bytes that the fault belongs to.
    pub token: &'a str,
    /// Whether the text ends there.
    pub is_end: bool,
    /// Whether the place is within a token, as between signs that touch.
    pub is_within: bool,
}
