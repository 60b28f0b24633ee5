//! Words, operators and tokens.

use crate::check::{equals, expect, let_go, note, shows};
use crate::places::span;
use std::alloc::{AllocError, Global};
use swc_ecma_parser_common::{Atom, Spanned};
use swc_ecma_parser_error::{Error, SyntaxError};
use swc_ecma_parser_token::{AssignOp, BinOpToken, Keyword, Token, TokenAndSpan, Word};

fn text(alloc: Global) -> Result<Atom, AllocError> {
    Atom::new(alloc, "a")
}

/// A word of this kind.
fn word(alloc: Global, kind: &str) -> Result<Word, AllocError> {
    let word = match kind {
        "InstanceOf" => Word::Keyword(Keyword::InstanceOf),
        "Null" => Word::Null,
        "True" => Word::True,
        "False" => Word::False,
        _ => Word::Ident(text(alloc)?),
    };
    Ok(word)
}

/// Writes the kind of a word, how it is written, and whether its copy is equal.
fn write_word(out: &mut String, word: Word) -> Result<(), AllocError> {
    let is_copied = equals(word.try_clone(), &word);
    let written = note(out, (word.kind(), word.as_str(), is_copied));
    let_go(word);
    written
}

fn write_words(out: &mut String, alloc: Global) -> Result<(), AllocError> {
    for kind in &["InstanceOf", "Null", "True", "False", "Ident"] {
        write_word(out, word(alloc, kind)?)?;
    }
    Ok(())
}

const WORDS: &str = r#"(InstanceOf, "instanceof", Some(true))
(Null, "null", Some(true))
(True, "true", Some(true))
(False, "false", Some(true))
(Ident, "a", Some(true))
"#;

#[test]
fn words_are_read_and_copied(rt: HostRuntime) {
    let mut out = String::new(rt.alloc());
    let written = write_words(&mut out, rt.alloc());
    expect(&rt, out, written, WORDS);
}

#[test]
fn operators_are_read(rt: HostRuntime) {
    let keyword = Keyword::TypeOf;
    let operator = BinOpToken::Exp;
    let assignment = AssignOp::NullishAssign;
    let kinds = (keyword.kind(), operator.kind(), assignment.kind());
    let texts = (keyword.as_str(), operator.as_str(), assignment.as_str());
    let wanted = "((TypeOf, Exp, NullishAssign), (\"typeof\", \"**\", \"??=\"))\n";
    shows(&rt, rt.alloc(), (kinds, texts), wanted);
}

/// A token of this kind.
fn token(alloc: Global, kind: &str) -> Result<Token, AllocError> {
    let token = match kind {
        "Null" => Token::Word(Word::Null),
        "Lt" => Token::BinOp(BinOpToken::Lt),
        "Assign" => Token::AssignOp(AssignOp::Assign),
        "Str" => Token::Str {
            value: text(alloc)?,
            raw: text(alloc)?,
        },
        "Num" => Token::Num { raw: text(alloc)? },
        "BigInt" => Token::BigInt { raw: text(alloc)? },
        "Shebang" => Token::Shebang(text(alloc)?),
        "Error" => Token::Error(Error {
            span: span(0, 1),
            kind: SyntaxError::UnexpectedChar,
        }),
        _ => Token::Arrow,
    };
    Ok(token)
}

/// Writes the kind of a token, and whether its copy is equal.
fn write_token(out: &mut String, token: Token) -> Result<(), AllocError> {
    let found = (token.kind(), equals(token.try_clone(), &token));
    let_go(token);
    note(out, found)
}

fn write_tokens(out: &mut String, alloc: Global) -> Result<(), AllocError> {
    for kind in &[
        "Null", "Lt", "Assign", "Str", "Num", "BigInt", "Shebang", "Error", "Arrow",
    ] {
        write_token(out, token(alloc, kind)?)?;
    }
    Ok(())
}

const TOKENS: &str = "(Null, Some(true))
(Lt, Some(true))
(Assign, Some(true))
(Str, Some(true))
(Num, Some(true))
(BigInt, Some(true))
(Shebang, Some(true))
(Error, Some(true))
(Arrow, Some(true))
";

#[test]
fn tokens_are_read_and_copied(rt: HostRuntime) {
    let mut out = String::new(rt.alloc());
    let written = write_tokens(&mut out, rt.alloc());
    expect(&rt, out, written, TOKENS);
}

/// Whether a token with its place is equal to its copy, and where it stands.
fn placed() -> (Option<bool>, bool) {
    let token = TokenAndSpan {
        token: Token::Semi,
        had_line_break: true,
        span: span(2, 3),
    };
    let is_copied = equals(token.try_clone(), &token);
    let is_placed = token.span() == span(2, 3);
    let_go(token);
    (is_copied, is_placed)
}

#[test]
fn tokens_with_places_are_copied(rt: HostRuntime) {
    shows(&rt, rt.alloc(), placed(), "(Some(true), true)\n");
}
