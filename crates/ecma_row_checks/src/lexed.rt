//! The tokens of a text, in lines. A token is `KIND LOW..HIGH`, behind `LF` where a line break stands before it, with its text behind;
//! an error token goes by the kind of its error.

use ecma_row_format::lines::{END, lines_agree};
use ecma_texts::sources::{input, let_go};
use serde_json::Value;
use std::alloc::{AllocError, Global};
use swc_ecma_parser::common::Comment;
use swc_ecma_parser::error::PResult;
use swc_ecma_parser::input::{
    Capturing, CommentSource, Context, Syntax, Tokens, TokensInput, spans_ordered,
};
use swc_ecma_parser::lexer::Lexer;
use swc_ecma_parser::token::{Token, TokenAndSpan, Word};

/// How many tokens are drawn.
const MOST: usize = 1000;

/// Writes a text in quotes, with `\n` for a line feed.
fn write_quoted(out: &mut String, text: &str) -> Result<(), AllocError> {
    out.push_str(" '")?;
    for letter in text.chars() {
        match letter {
            '\n' => out.push_str("\\n")?,
            _ => out.push(letter)?,
        }
    }
    out.push('\'')
}

/// Writes the name of a token's kind.
fn write_name(out: &mut String, token: &Token) -> Result<(), AllocError> {
    match token {
        Token::Error(error) => out.push_str(error.kind.name()),
        other => {
            let kind = other.kind();
            write!(out, "{kind:?}")
        }
    }
}

/// Writes the text of a token, if it has one.
fn write_text(out: &mut String, token: &Token) -> Result<(), AllocError> {
    match token {
        Token::Word(Word::Ident(name)) => write_quoted(out, name.as_str()),
        Token::Str { value, raw } => {
            write_quoted(out, value.as_str())?;
            write_quoted(out, raw.as_str())
        }
        Token::Num { raw } => write_quoted(out, raw.as_str()),
        Token::BigInt { raw } => write_quoted(out, raw.as_str()),
        Token::Shebang(text) => write_quoted(out, text.as_str()),
        _ => Ok(()),
    }
}

/// Writes the line of a token.
fn write_token(out: &mut String, found: &TokenAndSpan) -> Result<(), AllocError> {
    if found.had_line_break {
        out.push_str("LF ")?;
    }
    write_name(out, &found.token)?;
    let low = found.span.lo.0;
    let high = found.span.hi.0;
    write!(out, " {low}..{high}")?;
    write_text(out, &found.token)?;
    out.push('\n')
}

/// Writes the next token, and tells whether there is one.
fn write_next<I: Tokens>(out: &mut String, source: &mut I) -> Result<bool, AllocError> {
    match source.next() {
        Some(found) => {
            let written = write_token(out, &found);
            let_go(found);
            written?;
            Ok(true)
        }
        None => Ok(false),
    }
}

/// Writes the tokens that a source hands out.
fn write_drawn<I: Tokens>(out: &mut String, source: &mut I) -> Result<(), AllocError> {
    for _ in 0..MOST {
        if !write_next(out, source)? {
            break;
        }
    }
    Ok(())
}

/// Writes the line of a comment.
fn write_comment(out: &mut String, comment: &Comment) -> Result<(), AllocError> {
    let kind = comment.kind;
    let low = comment.span.lo.0;
    let high = comment.span.hi.0;
    write!(out, "{kind:?} {low}..{high}")?;
    write_quoted(out, comment.text.as_str())?;
    out.push('\n')
}

/// Writes the comments that a source hands out.
fn write_comments<I: CommentSource>(out: &mut String, source: &mut I) -> PResult<()> {
    let comments = source.take_comments()?;
    for comment in comments.as_slice() {
        write_comment(out, comment)?;
    }
    Ok(())
}

/// The tokens of a text and its comments, in lines.
#[derive(Drop)]
struct Lines {
    tokens: String,
    comments: String,
    /// The tokens of a source that keeps them.
    kept: String,
    /// The tokens of a list of those.
    listed: String,
}

/// Writes the tokens and the comments of a lexer.
fn write_lexed(lines: &mut Lines, lexer: &mut Lexer) -> Result<(), AllocError> {
    write_drawn(&mut lines.tokens, lexer)?;
    match write_comments(&mut lines.comments, lexer) {
        Ok(()) => Ok(()),
        Err(_) => Err(AllocError),
    }
}

/// A lexer of a text that keeps comments.
fn lexer(alloc: Global, text: &str) -> Lexer<'_> {
    Lexer::new(alloc, Syntax::default(), input(text), true)
}

/// Writes the tokens of a source that keeps them, and of a list of those.
fn write_kept<I: Tokens>(
    alloc: Global,
    lines: &mut Lines,
    source: &mut Capturing<I>,
) -> Result<(), AllocError> {
    write_drawn(&mut lines.kept, source)?;
    let kept = source.take();
    if !spans_ordered(kept.as_slice()) {
        let_go(kept);
        return Ok(());
    }
    let mut list = TokensInput::new(alloc, kept, Context::default(), Syntax::default());
    let written = write_drawn(&mut lines.listed, &mut list);
    let_go(list);
    written
}

/// Writes the lines of a text.
fn write_lines(alloc: Global, lines: &mut Lines, text: &str) -> Result<(), AllocError> {
    let mut lexer = self::lexer(alloc, text);
    let written = write_lexed(lines, &mut lexer);
    let_go(lexer);
    written?;
    let mut source = Capturing::new(alloc, self::lexer(alloc, text));
    let kept = write_kept(alloc, lines, &mut source);
    let_go(source);
    kept
}

/// Writes in what the tokens and the comments of a row's text are unlike it.
pub fn check_tokens(
    alloc: Global,
    out: &mut String,
    row: &Value,
    text: &str,
) -> Result<(), AllocError> {
    let mut lines = Lines {
        tokens: String::new(alloc),
        comments: String::new(alloc),
        kept: String::new(alloc),
        listed: String::new(alloc),
    };
    write_lines(alloc, &mut lines, text)?;
    let tokens = lines.tokens.as_str();
    if !lines_agree(tokens, row, "answer") {
        write!(out, "{tokens}{END}")?;
    }
    let comments = lines.comments.as_str();
    if row.get("comments").is_some() && !lines_agree(comments, row, "comments") {
        write!(out, "{comments}")?;
    }
    if lines.kept.as_str() != tokens || lines.listed.as_str() != tokens {
        writeln!(out, "  not the same over each source")?;
    }
    Ok(())
}
