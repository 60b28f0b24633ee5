ghost use Rattle.std.specs.Prelude.{◌≡◌, IfOk};

use crate::atom::Atom;
use crate::span::Span;
use std::alloc::AllocError;

/// How a comment is written: ECMA-262, "Comments" (section 12.4).
#[derive(Clone, Copy, Debug, PartialEq, Eq)]
pub enum CommentKind {
    /// From `//` to the end of the line, which is no part of it.
    Line,
    /// From `/*` to `*/`.
    Block,
}

/// A comment. Its span covers the marks, and its text stands between them.
#[derive(Debug, PartialEq, Eq, Drop)]
pub struct Comment {
    pub kind: CommentKind,
    pub span: Span,
    pub text: Atom,
}

impl Comment {
    /// An equal comment, or no memory.
    pub fn try_clone(&self) -> Result<Comment, AllocError>
        ensures { IfOk result (λ comment. comment ≡ self.now) }
    {
        Ok(Comment {
            kind: self.kind,
            span: self.span,
            text: self.text.try_clone()?,
        })
    }
}
