//! The sources that a text is read from: its lexer, one that keeps what is drawn, and a list of what was kept.

use crate::answers::{Found, ask_all, nothing};
use ecma_row_format::asked::Asked;
use ecma_row_format::faults::write_faults;
use ecma_row_format::row::{list, text_of};
use serde_json::Value;
use std::alloc::{AllocError, Global};
use swc_ecma_parser::Parser;
use swc_ecma_parser::common::{BytePos, Span};
use swc_ecma_parser::error::{Error, SyntaxError};
use swc_ecma_parser::input::{Capturing, Syntax, Tokens, TokensInput, spans_ordered};
use swc_ecma_parser::lexer::{Lexer, StringInput};
use swc_ecma_parser::token::{Token, TokenAndSpan};

/// How long a text may be.
const LONGEST: usize = 4_000_000;

/// Drops it. What drops a parser or tokens is proved to do so on each way out, so they are let go of here.
pub fn let_go<T: Drop>(_: T) {}

/// A text as an input at position 0; an empty one where the text is too long.
pub fn input(text: &str) -> StringInput<'_> {
    if text.len() > LONGEST {
        return StringInput::new("", BytePos(0), BytePos(0));
    }
    StringInput::new(text, BytePos(0), BytePos(text.len() as u32))
}

/// A lexer over a text, in the code and the settings that are asked for. It keeps comments.
pub fn lexer(alloc: Global, text: &str, asked: Asked) -> Lexer<'_> {
    let mut lexer = Lexer::new(alloc, Syntax::Es(asked.settings), input(text), true);
    lexer.set_ctx(asked.code.context());
    lexer
}

/// Writes all that a source hands out into a list.
fn draw<I: Tokens>(tokens: &mut Vec<TokenAndSpan>, source: &mut I) -> Result<(), AllocError> {
    for _ in 0..LONGEST {
        match source.next() {
            Some(token) => tokens.push(token)?,
            None => break,
        }
    }
    Ok(())
}

/// The kind of an error token that a word names.
fn kind_named(word: &str) -> SyntaxError {
    match word {
        "TS1107" => SyntaxError::TS1107,
        "OutOfMemory" => SyntaxError::OutOfMemory,
        _ => SyntaxError::UnexpectedChar,
    }
}

/// An error token of this kind.
pub fn error_at(low: u32, high: u32, kind: SyntaxError) -> TokenAndSpan {
    let span = Span {
        lo: BytePos(low),
        hi: BytePos(high),
    };
    TokenAndSpan {
        token: Token::Error(Error { span, kind }),
        had_line_break: false,
        span,
    }
}

/// A position as it is written.
fn position(text: &str) -> u32 {
    text.parse::<u32>().unwrap_or(0)
}

/// The error token that is written `LOW..HIGH KIND`.
fn error_written(text: &str) -> TokenAndSpan {
    let (place, kind) = text.split_once(' ').unwrap_or((text, ""));
    let (low, high) = place.split_once("..").unwrap_or((place, place));
    error_at(position(low), position(high), kind_named(kind))
}

/// Writes the tokens of a row into a list: those of its text, and behind them its error tokens.
fn write_list(
    alloc: Global,
    tokens: &mut Vec<TokenAndSpan>,
    row: &Value,
    text: &str,
    asked: Asked,
) -> Result<(), AllocError> {
    let mut lexer = lexer(alloc, text, asked);
    let drawn = draw(tokens, &mut lexer);
    let_go(lexer);
    drawn?;
    for error in list(row, "errors") {
        tokens.push(error_written(text_of(error)))?;
    }
    Ok(())
}

/// The tokens of a row.
pub fn tokens(
    alloc: Global,
    row: &Value,
    text: &str,
    asked: Asked,
) -> Result<Vec<TokenAndSpan>, AllocError> {
    let mut tokens = Vec::new(alloc);
    match write_list(alloc, &mut tokens, row, text, asked) {
        Ok(()) => Ok(tokens),
        Err(error) => {
            let_go(tokens);
            Err(error)
        }
    }
}

/// A list of tokens as a source. One that is out of order is read as an empty list.
pub fn listed(alloc: Global, tokens: Vec<TokenAndSpan>, asked: Asked) -> TokensInput {
    let syntax = Syntax::Es(asked.settings);
    let context = asked.code.context();
    if spans_ordered(tokens.as_slice()) {
        return TokensInput::new(alloc, tokens, context, syntax);
    }
    let_go(tokens);
    TokensInput::new(alloc, Vec::new(alloc), context, syntax)
}

/// Writes the faults that a source holds back for module code.
fn write_held_back<I: Tokens>(out: &mut String, source: &mut I) -> Result<(), AllocError> {
    let mut context = source.ctx();
    context.module = true;
    source.set_ctx(context);
    let faults = source.take_errors();
    let written = write_faults(out, "", faults.as_slice());
    let_go(faults);
    written
}

/// What a parser of a source answers, and the source as it leaves it.
fn answered<I: Tokens>(
    alloc: Global,
    found: &mut Found,
    source: I,
    asked: Asked,
) -> (Result<(), AllocError>, I) {
    let mut parser = Parser::new_from_limited(alloc, source, asked.limit);
    let written = ask_all(alloc, found, &mut parser, asked);
    (written, parser.into_input())
}

/// Writes what is read over a source.
fn read_into<I: Tokens>(
    alloc: Global,
    found: &mut Found,
    source: I,
    asked: Asked,
) -> Result<(), AllocError> {
    let (answered, mut source) = answered(alloc, found, source, asked);
    let held = write_held_back(&mut found.second, &mut source);
    let_go(source);
    answered?;
    held
}

/// What is read over a source.
pub fn read<I: Tokens>(alloc: Global, source: I, asked: Asked) -> Result<Found, AllocError> {
    let mut found = nothing(alloc);
    read_into(alloc, &mut found, source, asked)?;
    Ok(found)
}

/// Writes what is read over a source that keeps what is drawn from another one; and what it kept.
fn capture_into<I: Tokens>(
    alloc: Global,
    found: &mut Found,
    source: I,
    asked: Asked,
) -> (Result<(), AllocError>, Vec<TokenAndSpan>) {
    let (answered, mut source) = answered(alloc, found, Capturing::new(alloc, source), asked);
    let held = write_held_back(&mut found.second, &mut source);
    let kept = source.take();
    let_go(source);
    (answered.and(held), kept)
}

/// Whether two texts, trees and all, are the same.
fn is_same(one: &Found, other: &Found) -> bool {
    one.lines.as_str() == other.lines.as_str()
        && one.trees.as_str() == other.trees.as_str()
        && one.second.as_str() == other.second.as_str()
}

/// Whether what is read over a source that keeps what is drawn, and over a list of what it kept, is the same as was found.
fn is_kept<I: Tokens>(
    alloc: Global,
    source: I,
    asked: Asked,
    wanted: &Found,
) -> Result<bool, AllocError> {
    let mut found = nothing(alloc);
    let (written, kept) = capture_into(alloc, &mut found, source, asked);
    let again = read(alloc, listed(alloc, kept, asked), asked);
    written?;
    let again = again?;
    Ok(is_same(&found, wanted) && is_same(&again, wanted))
}

/// What is read over a source that can be made twice; none where another source over it is read otherwise.
fn read_thrice<I: Tokens>(
    alloc: Global,
    source: I,
    second: I,
    asked: Asked,
) -> Result<(Found, bool), AllocError> {
    let found = read(alloc, source, asked);
    match found {
        Ok(found) => {
            let is_kept = is_kept(alloc, second, asked, &found)?;
            Ok((found, is_kept))
        }
        Err(error) => {
            let_go(second);
            Err(error)
        }
    }
}

/// What a row's list is read as, and whether it is the same over each source.
pub fn read_all(
    alloc: Global,
    row: &Value,
    text: &str,
    asked: Asked,
) -> Result<(Found, bool), AllocError> {
    if list(row, "errors").is_empty() {
        return read_thrice(
            alloc,
            lexer(alloc, text, asked),
            lexer(alloc, text, asked),
            asked,
        );
    }
    let first = tokens(alloc, row, text, asked);
    let second = tokens(alloc, row, text, asked);
    read_lists(alloc, first, second, asked)
}

/// The same of a list of tokens, made twice.
fn read_lists(
    alloc: Global,
    first: Result<Vec<TokenAndSpan>, AllocError>,
    second: Result<Vec<TokenAndSpan>, AllocError>,
    asked: Asked,
) -> Result<(Found, bool), AllocError> {
    match (first, second) {
        (Ok(first), Ok(second)) => {
            let first = listed(alloc, first, asked);
            read_thrice(alloc, first, listed(alloc, second, asked), asked)
        }
        (first, second) => {
            let_go(first);
            let_go(second);
            Err(AllocError)
        }
    }
}
