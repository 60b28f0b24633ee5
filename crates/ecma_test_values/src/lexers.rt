//! Texts, and what lexers do beside their tokens.

use crate::check::{count, expect, let_go, made, note, shows};
use crate::places::span;
use std::alloc::{AllocError, Global};
use swc_ecma_parser_common::{BytePos, Comment};
use swc_ecma_parser_error::{Error, SyntaxError};
use swc_ecma_parser_input::{CommentSource, Syntax, Tokens};
use swc_ecma_parser_lexer::{Lexer, StringInput};

/// A text at position 100.
fn input() -> StringInput<'static> {
    StringInput::new("#!b", BytePos(100), BytePos(103))
}

fn lexer(alloc: Global) -> Lexer<'static> {
    Lexer::new(alloc, Syntax::default(), input(), false)
}

#[test]
fn a_text_has_a_place(rt: HostRuntime) {
    let input = input();
    let found = (input.text(), input.start().0, input.end().0);
    shows(&rt, rt.alloc(), found, "(\"#!b\", 100, 103)\n");
}

/// Writes where a lexer starts and its first token does.
fn write_places(out: &mut String, lexer: &mut Lexer) -> Result<(), AllocError> {
    if let Some(first) = lexer.next() {
        let place = (first.span.lo.0, first.span.hi.0);
        let_go(first);
        note(out, place)?;
    }
    note(out, lexer.start_pos().0)
}

#[test]
fn a_lexer_starts_where_its_text_does(rt: HostRuntime) {
    let mut out = String::new(rt.alloc());
    let mut lexer = lexer(rt.alloc());
    let written = write_places(&mut out, &mut lexer);
    let_go(lexer);
    expect(&rt, out, written, "(100, 103)\n100\n");
}

fn fault(kind: SyntaxError) -> Error {
    Error {
        span: span(101, 101),
        kind,
    }
}

/// How many faults a lexer hands out in a script, and how many more in a module.
fn recorded(lexer: &mut Lexer) -> Result<(usize, usize), AllocError> {
    made(lexer.add_error(fault(SyntaxError::Eof)))?;
    made(lexer.add_module_mode_error(fault(SyntaxError::TS1005)))?;
    let found = count(lexer.take_errors());
    let mut context = lexer.ctx();
    context.module = true;
    lexer.set_ctx(context);
    Ok((found, count(lexer.take_errors())))
}

#[test]
fn a_lexer_holds_faults_back_for_modules(rt: HostRuntime) {
    let mut lexer = lexer(rt.alloc());
    shows(&rt, rt.alloc(), recorded(&mut lexer), "Ok((1, 1))\n");
    let_go(lexer);
}

const COMMENTED: &str = "a/*\n*/b//c\n/**//***/d//";

const COMMENTS: &str = "Block 1..6 \n|Line 7..10 c|Block 11..15 |Block 15..20 *|Line 21..23 |\n";

fn write_comment(out: &mut String, comment: &Comment) -> Result<(), AllocError> {
    let kind = comment.kind;
    let low = comment.span.lo.0;
    let high = comment.span.hi.0;
    let text = comment.text.as_str();
    write!(out, "{kind:?} {low}..{high} {text}|")
}

/// Writes the comments that a lexer hands out.
fn write_taken(out: &mut String, lexer: &mut Lexer) -> Result<(), AllocError> {
    let found = made(lexer.take_comments())?;
    for comment in &found {
        write_comment(out, comment)?;
    }
    out.push('\n')
}

/// Writes what the copy of a lexer hands out that has come to its end, then what the lexer does, in two calls.
fn write_copied(out: &mut String, lexer: &mut Lexer) -> Result<(), AllocError> {
    for _ in 0..10 {
        match lexer.next() {
            Some(token) => let_go(token),
            None => break,
        }
    }
    let mut copy = made(lexer.try_clone())?;
    let written = write_taken(out, &mut copy);
    let_go(copy);
    written?;
    write_taken(out, lexer)?;
    write_taken(out, lexer)
}

/// Writes that of a lexer which keeps comments or not.
fn write_comments(out: &mut String, alloc: Global, comments: bool) -> Result<(), AllocError> {
    let input = StringInput::new(COMMENTED, BytePos(0), BytePos(23));
    let mut lexer = Lexer::new(alloc, Syntax::default(), input, comments);
    let written = write_copied(out, &mut lexer);
    let_go(lexer);
    written
}

#[test]
fn comments_are_kept_where_they_are_wanted(rt: HostRuntime) {
    let mut out = String::new(rt.alloc());
    let kept = write_comments(&mut out, rt.alloc(), true);
    let mut wanted = String::new(rt.alloc());
    let twice = write!(wanted, "{COMMENTS}{COMMENTS}\n");
    assert!(rt; twice.is_ok());
    expect(&rt, out, kept, wanted.as_str());
    let mut out = String::new(rt.alloc());
    let unkept = write_comments(&mut out, rt.alloc(), false);
    expect(&rt, out, unkept, "\n\n\n");
}
