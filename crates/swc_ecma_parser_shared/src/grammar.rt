//! The readers that rules take as parameters.

/// What is asked of a reader of patterns.
#[derive(Clone, Copy)]
pub enum Part {
    /// A pattern without default.
    Pattern,
    /// A pattern, with its default if it has one.
    Element,
}

/// The readers of what stands one level deeper.
#[derive(Clone, Copy)]
pub struct Grammar<S, E, N> {
    /// How many levels are left there.
    pub depth: usize,
    pub stmt: S,
    pub expr: E,
    pub pat: N,
}
