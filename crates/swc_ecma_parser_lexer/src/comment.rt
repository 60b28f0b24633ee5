//! Comments: ECMA-262, section 12.4.

ghost use Rattle.std.specs.Prelude.{◌≡◌, [], true, false, IfOk, OnErr, IsSome, MatchOption};
ghost use Rattle.swc_ecma_parser_lexer.specs.Comments as read;

use crate::make::behind_mark;
use std::alloc::{AllocError, Global};
use std::mem;
use swc_ecma_parser_common::{Atom, Comment, CommentKind, Span};
use swc_ecma_parser_scan::State;

/// The comments that were read and not taken yet.
#[derive(Debug, Drop)]
pub struct CommentList {
    comments: Vec<Comment>,
    is_wanted: bool,
    /// Whether a comment found no memory.
    is_lossy: bool,
}

/// The text before its last character.
fn before_last(text: &str) -> &str
    ensures { result.now ≡ read.before_last text.now }
{
    let mut characters = text.chars();
    match characters.next_back() {
        Some(_) => characters.as_str(),
        None => text,
    }
}

/// The text between the marks of a block comment: each has two characters.
#[tactic(auto, unfolding(crate::specs::Comments::inner_text))]
fn inner_text(comment: &str) -> &str
    ensures { result.now ≡ read.inner_text comment.now }
{
    before_last(before_last(behind_mark(comment)))
}

/// The comment that a piece is, if it is one.
#[tactic(auto, unfolding(crate::specs::Comments::comment_of))]
fn comment_of(
    alloc: Global,
    state: State,
    text: &str,
    span: Span,
) -> Result<Option<Comment>, AllocError>
    ensures found { IfOk result (λ found. found ≡ read.comment_of state text.now span) }
    ensures lost { OnErr result (IsSome (read.comment_of state text.now span)) }
{
    let (kind, text) = match state {
        State::LineComment => (CommentKind::Line, behind_mark(text)),
        State::BlockCommentEnd(_) => (CommentKind::Block, inner_text(text)),
        _ => return Ok(None),
    };
    Ok(Some(Comment {
        kind,
        span,
        text: Atom::new(alloc, text)?,
    }))
}

impl CommentList {
    /// No comment. With `is_wanted` off, none will come.
    pub fn new(alloc: Global, is_wanted: bool) -> CommentList
        ensures comments { result.comments.items ≡ [] }
        ensures wanted { result.is_wanted ≡ is_wanted }
        ensures lossy { result.is_lossy ≡ false }
    {
        CommentList {
            comments: Vec::new(alloc),
            is_wanted,
            is_lossy: false,
        }
    }

    /// Adds the comment that a piece is, if it is one, or notes that there is no memory for it.
    pub fn note(&mut self, state: State, text: &str, span: Span)
        ensures { read.IsNoted self.old (read.comment_of state text.now span) self.new }
    {
        if self.is_wanted {
            let alloc = *self.comments.allocator();
            match comment_of(alloc, state, text, span) {
                Ok(Some(comment)) => if self.comments.push(comment).is_err() {
                    self.is_lossy = true;
                },
                Ok(None) => {}
                Err(_) => self.is_lossy = true,
            }
        }
    }

    /// The comments, or nothing where one found no memory. None is left.
    pub fn take(&mut self) -> Option<Vec<Comment>>
        ensures result { MatchOption result (self.old.is_lossy ≡ true)
            (λ comments. (self.old.is_lossy ≡ false) × (comments.items ≡ self.old.comments.items)) }
        ensures comments { self.new.comments.items ≡ [] }
        ensures wanted { self.new.is_wanted ≡ self.old.is_wanted }
        ensures lossy { self.new.is_lossy ≡ false }
    {
        let alloc = *self.comments.allocator();
        let comments = mem::replace(&mut self.comments, Vec::new(alloc));
        if self.is_lossy {
            self.is_lossy = false;
            None
        } else {
            Some(comments)
        }
    }

    /// An equal list, or no memory.
    pub fn try_clone(&self) -> Result<CommentList, AllocError>
        ensures { IfOk result (λ it. read.IsSameList it self.now) }
    {
        let alloc = *self.comments.allocator();
        let mut comments = Vec::with_capacity(alloc, self.comments.len())?;
        for comment in &self.comments {
            comments.push(comment.try_clone()?)?;
        }
        Ok(CommentList {
            comments,
            is_wanted: self.is_wanted,
            is_lossy: self.is_lossy,
        })
    }
}
