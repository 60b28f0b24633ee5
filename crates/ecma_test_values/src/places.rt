//! Positions, spans, texts and what stands at a place.

use crate::check::{equals, let_go, shows};
use std::alloc::{AllocError, Global};
use swc_ecma_parser_common::{Atom, Boxed, BytePos, Comment, CommentKind, Span, Spanned};

/// The span between two positions.
pub fn span(low: u32, high: u32) -> Span {
    Span::new(BytePos(low), BytePos(high))
}

#[test]
fn positions_are_ordered(rt: HostRuntime) {
    let span = Span::new(BytePos(5), BytePos(2));
    let found = [
        BytePos(1) < BytePos(2),
        BytePos(2) <= BytePos(2),
        span.lo() == BytePos(2),
        span.hi() == BytePos(5),
        span.span() == span,
    ];
    shows(&rt, rt.alloc(), found, "[true, true, true, true, true]\n");
}

/// Compares a text with a copy, with an equal text and with another, and its characters with `a`.
fn compared(alloc: Global, text: &Atom) -> [Option<bool>; 4] {
    [
        equals(text.try_clone(), text),
        equals(Atom::new(alloc, "a"), text),
        equals(Atom::new(alloc, "b"), text),
        Some(text.as_str() == "a"),
    ]
}

/// Compares a text, and prints it.
fn texts(alloc: Global) -> Result<([Option<bool>; 4], String), AllocError> {
    let text = Atom::from_string(String::from_str(alloc, "a")?)?;
    let printed = format!(in alloc; "{text}")?;
    Ok((compared(alloc, &text), printed))
}

#[test]
fn texts_are_equal_where_their_characters_are(rt: HostRuntime) {
    let wanted = "Ok(([Some(true), Some(true), Some(false), Some(true)], \"a\"))\n";
    shows(&rt, rt.alloc(), texts(rt.alloc()), wanted);
}

/// How many bytes a text has, and whether one made of it, one made of a `String` and a copy have its characters.
fn kept(alloc: Global, text: &str) -> Result<(usize, bool), AllocError> {
    let made = Atom::new(alloc, text)?;
    let owned = Atom::from_string(String::from_str(alloc, text)?)?;
    let copy = owned.try_clone()?;
    let is_kept = made.as_str() == text && owned == made && copy == made;
    Ok((copy.as_str().len(), is_kept))
}

#[test]
fn texts_are_kept_at_any_length(rt: HostRuntime) {
    let alloc = rt.alloc();
    let found = [
        kept(alloc, ""),
        kept(alloc, "abcdefghijklmnopqrstuv"),
        kept(alloc, "abcdefghijklmnopqrstuvw"),
        kept(alloc, "abcdefghijklmnopqrst\u{e9}"),
        kept(alloc, "abcdefghijklmnopqrstu\u{e9}"),
        kept(
            alloc,
            "\u{65e5}\u{65e5}\u{65e5}\u{65e5}\u{65e5}\u{65e5}\u{65e5}\u{65e5}",
        ),
    ];
    let wanted =
        "[Ok((0, true)), Ok((22, true)), Ok((23, true)), Ok((22, true)), Ok((23, true)), Ok((24, true))]\n";
    shows(&rt, alloc, found, wanted);
}

/// Compares a box of 5 with one more and with one of 6, and takes what it holds.
fn boxes(alloc: Global) -> Result<(Option<bool>, Option<bool>, u32, u32), AllocError> {
    let boxed = Boxed::new(alloc, 5u32)?;
    let is_equal = equals(Boxed::new(boxed.allocator(), 5u32), &boxed);
    let is_other_equal = equals(Boxed::new(alloc, 6u32), &boxed);
    let held = *boxed.get();
    Ok((is_equal, is_other_equal, held, boxed.into_inner()))
}

#[test]
fn boxes_are_equal_where_their_values_are(rt: HostRuntime) {
    let wanted = "Ok((Some(true), Some(false), 5, 5))\n";
    shows(&rt, rt.alloc(), boxes(rt.alloc()), wanted);
}

fn comment(alloc: Global, kind: CommentKind) -> Result<Comment, AllocError> {
    let text = Atom::new(alloc, " a ")?;
    Ok(Comment {
        kind,
        span: span(0, 7),
        text,
    })
}

/// Compares a comment with a copy, and with one of another kind.
fn comments(alloc: Global) -> Result<[Option<bool>; 2], AllocError> {
    let block = comment(alloc, CommentKind::Block)?;
    let found = [
        equals(block.try_clone(), &block),
        equals(comment(alloc, CommentKind::Line), &block),
    ];
    let_go(block);
    Ok(found)
}

#[test]
fn comments_are_copied(rt: HostRuntime) {
    let wanted = "Ok([Some(true), Some(false)])\n";
    shows(&rt, rt.alloc(), comments(rt.alloc()), wanted);
}
