//! What the tests share: the tokens of a text, written in one line.

use std::alloc::{AllocError, Global};
use std::process::Abort;
use swc_ecma_parser_common::BytePos;
use swc_ecma_parser_input::{Syntax, Tokens};
use swc_ecma_parser_lexer::StringInput;
use swc_ecma_parser_token::{Token, TokenAndSpan, Word};
use swc_ecma_parser_whole_lexer::{Goal, WholeLexer};

/// The greatest length in bytes of a text that the tests read. It has no more tokens.
pub const LONGEST: usize = 10_000;

/// Drops it. What drops a token is proved to do so on each way out, so tokens are let go of here.
pub fn let_go<T: Drop>(_: T) {}

/// A lexer at the start of a text; of an empty one where the text is too long.
pub fn lexer(alloc: Global, goal: Goal, text: &str, comments: bool) -> WholeLexer<'_> {
    let text = if text.len() > LONGEST { "" } else { text };
    let input = StringInput::new(text, BytePos(0), BytePos(text.len() as u32));
    WholeLexer::new(alloc, Syntax::default(), input, comments, goal)
}

/// What is written of a token.
#[derive(Clone, Copy)]
pub enum Shown {
    /// Its kind and its span.
    Kinds,
    /// What it holds.
    Texts,
}

fn write_kind(out: &mut String, token: &TokenAndSpan) -> Result<(), AllocError> {
    let kind = token.token.kind();
    let low = token.span.lo.0;
    let high = token.span.hi.0;
    write!(out, "{kind:?} {low}..{high}|")
}

fn write_part(
    out: &mut String,
    name: &str,
    raw: &str,
    cooked: Option<&str>,
) -> Result<(), AllocError> {
    write!(out, "{name} {raw:?} {cooked:?}|")
}

fn write_text(out: &mut String, token: &Token) -> Result<(), AllocError> {
    match token {
        Token::Regex { exp, flags } => {
            write!(out, "regex {:?} {:?}|", exp.as_str(), flags.as_str())
        }
        Token::Template { raw, cooked } => {
            write_part(
                out,
                "whole",
                raw.as_str(),
                cooked.as_ref().map(|it| it.as_str()),
            )
        }
        Token::TemplateHead { raw, cooked } => {
            write_part(
                out,
                "head",
                raw.as_str(),
                cooked.as_ref().map(|it| it.as_str()),
            )
        }
        Token::TemplateMiddle { raw, cooked } => {
            write_part(
                out,
                "middle",
                raw.as_str(),
                cooked.as_ref().map(|it| it.as_str()),
            )
        }
        Token::TemplateTail { raw, cooked } => {
            write_part(
                out,
                "tail",
                raw.as_str(),
                cooked.as_ref().map(|it| it.as_str()),
            )
        }
        Token::Str { value, raw: _ } => write!(out, "string {:?}|", value.as_str()),
        Token::Num { raw } => write!(out, "number {}|", raw.as_str()),
        Token::Word(Word::Escaped(text)) => write!(out, "escaped {}|", text.as_str()),
        Token::Word(word) => write!(out, "{}|", word.as_str()),
        Token::Error(error) => write!(out, "{:?}|", error.kind),
        token => write!(out, "{:?}|", token.kind()),
    }
}

fn write_token(out: &mut String, shown: Shown, token: &TokenAndSpan) -> Result<(), AllocError> {
    match shown {
        Shown::Kinds => write_kind(out, token),
        Shown::Texts => write_text(out, &token.token),
    }
}

fn write_tokens(out: &mut String, lexer: &mut WholeLexer, shown: Shown) -> Result<(), AllocError> {
    for _ in 0..LONGEST {
        let Some(token) = lexer.next() else {
            break;
        };
        let written = write_token(out, shown, &token);
        let_go(token);
        written?;
    }
    Ok(())
}

/// Ends the test where other tokens than these are read.
pub fn reads<R: Abort>(rt: &R, alloc: Global, goal: Goal, shown: Shown, text: &str, wanted: &str) {
    let mut out = String::new(alloc);
    let mut lexer = lexer(alloc, goal, text, false);
    let written = write_tokens(&mut out, &mut lexer, shown);
    let_go(lexer);
    assert!(rt; written.is_ok());
    assert_eq!(rt; out.as_str(), wanted);
}
