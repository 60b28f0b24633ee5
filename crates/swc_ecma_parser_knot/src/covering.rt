//! Where something stands that may still become a pattern.

use swc_ecma_parser_common::Span;

/// Where something stands that may still become a pattern.
#[derive(Clone, Copy)]
pub enum Covering {
    /// Anywhere in an expression.
    Whole,
    /// At the head of a loop.
    Head,
    /// There too, but for the word `async` that it begins with, which was taken: its span.
    Behind(Span),
    /// At the beginning of a statement, but for the word `await`, which was taken: its span.
    BehindAwait(Span),
}
