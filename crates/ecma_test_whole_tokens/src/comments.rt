//! Comments: those that stand between tokens, but for those as in HTML.

use crate::written::{LONGEST, let_go, lexer};
use std::alloc::{AllocError, Global};
use std::process::Abort;
use swc_ecma_parser_common::Comment;
use swc_ecma_parser_error::PResult;
use swc_ecma_parser_input::{CommentSource, Tokens};
use swc_ecma_parser_whole_lexer::{Goal, WholeLexer};

fn made<A>(outcome: PResult<A>) -> Result<A, AllocError> {
    match outcome {
        Ok(a) => Ok(a),
        Err(_) => Err(AllocError),
    }
}

fn write_comment(out: &mut String, comment: &Comment) -> Result<(), AllocError> {
    let kind = comment.kind;
    let low = comment.span.lo.0;
    let high = comment.span.hi.0;
    let words = comment.text.as_str();
    write!(out, "{kind:?} {low}..{high}{words}|")
}

/// Writes the comments that a lexer hands out behind its last token.
fn write_comments(out: &mut String, lexer: &mut WholeLexer) -> Result<(), AllocError> {
    for _ in 0..LONGEST {
        match lexer.next() {
            Some(token) => let_go(token),
            None => break,
        }
    }
    for comment in &made(lexer.take_comments())? {
        write_comment(out, comment)?;
    }
    Ok(())
}

fn keeps<R: Abort>(rt: &R, alloc: Global, goal: Goal, text: &str, wanted: &str) {
    let mut out = String::new(alloc);
    let mut lexer = lexer(alloc, goal, text, true);
    let written = write_comments(&mut out, &mut lexer);
    let_go(lexer);
    assert!(rt; written.is_ok());
    assert_eq!(rt; out.as_str(), wanted);
}

#[test]
fn marks_of_comments_in_a_token_are_none(rt: HostRuntime) {
    let wanted = "Block 12..19 b |Line 22..26 d|";
    keeps(
        &rt,
        rt.alloc(),
        Goal::Script,
        "a = /[/*]/; /* b */ c // d",
        wanted,
    );
    let wanted = "Block 12..19 b |Line 30..34 e|";
    keeps(
        &rt,
        rt.alloc(),
        Goal::Script,
        "`/* a */ ${ /* b */ c } // d` // e",
        wanted,
    );
}

#[test]
fn comments_as_in_html_are_left_out(rt: HostRuntime) {
    let wanted = "Block 7..14 b |Line 21..25 d|";
    keeps(
        &rt,
        rt.alloc(),
        Goal::Script,
        "<!-- a\n/* b */\n--> c\n// d",
        wanted,
    );
}
