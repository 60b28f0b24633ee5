//! Lists of tokens by hand, each behind the one before it.

use std::alloc::{AllocError, Global};
use std::test::Fail;
use swc_ecma_parser::common::{Atom, BytePos, Span};
use swc_ecma_parser::input::{Context, Syntax, TokensInput, spans_ordered};
use swc_ecma_parser::token::{AssignOp, BinOpToken, Keyword, Token, TokenAndSpan, Word};

/// The part of a text between its first and its last so many bytes.
fn between(text: &str, front: usize, back: usize) -> &str {
    text.get(front..text.len().saturating_sub(back))
        .unwrap_or("")
}

/// What a text of a template says: nothing where an escape in it is none.
fn cooked(alloc: Global, raw: &str) -> Result<Option<Atom>, AllocError> {
    if raw.contains("\\u") {
        return Ok(None);
    }
    Ok(Some(Atom::new(alloc, raw)?))
}

/// A text of a template.
fn template(alloc: Global, text: &str) -> Result<Token, AllocError> {
    let is_first = text.starts_with('`');
    let is_last = text.ends_with('`');
    let raw = between(text, 1, if is_last { 1 } else { 2 });
    let cooked = cooked(alloc, raw)?;
    let raw = Atom::new(alloc, raw)?;
    Ok(match (is_first, is_last) {
        (true, true) => Token::Template { raw, cooked },
        (true, false) => Token::TemplateHead { raw, cooked },
        (false, true) => Token::TemplateTail { raw, cooked },
        (false, false) => Token::TemplateMiddle { raw, cooked },
    })
}

/// A regular expression, whose last `/` stands before its flags.
fn regex(alloc: Global, text: &str) -> Result<Token, AllocError> {
    let behind = between(text, 1, 0);
    let (exp, flags) = match behind.split_once('/') {
        Some(parts) => parts,
        None => (behind, ""),
    };
    Ok(Token::Regex {
        exp: Atom::new(alloc, exp)?,
        flags: Atom::new(alloc, flags)?,
    })
}

/// The mark that a text is, by what stands before it.
fn mark(text: &str, before: &str) -> Option<Token> {
    let token = match text {
        "." => if before == "new" {
            Token::NewDot
        } else {
            Token::Dot
        },
        "#" => if before == "." || before == "?." {
            Token::Hash
        } else {
            Token::HashIn
        },
        "?." => Token::QuestionDot,
        "?" => Token::QuestionMark,
        ":" => Token::Colon,
        "(" => Token::LParen,
        ")" => Token::RParen,
        "[" => Token::LBracket,
        "]" => Token::RBracket,
        "{" => Token::LBrace,
        "}" => Token::RBrace,
        ";" => Token::Semi,
        "," => Token::Comma,
        "=>" => Token::Arrow,
        "=" => Token::AssignOp(AssignOp::Assign),
        "++" => Token::PlusPlus,
        "+" => Token::BinOp(BinOpToken::Add),
        "<<" => Token::BinOp(BinOpToken::LShift),
        _ => return None,
    };
    Some(token)
}

/// A word, which is an escaped one behind `\`.
fn word(alloc: Global, text: &str) -> Result<Word, AllocError> {
    Ok(match text {
        "new" => Word::Keyword(Keyword::New),
        "in" => Word::Keyword(Keyword::In),
        "super" => Word::Keyword(Keyword::Super),
        "import" => Word::Keyword(Keyword::Import),
        "delete" => Word::Keyword(Keyword::Delete),
        "let" => Word::Keyword(Keyword::Let),
        "for" => Word::Keyword(Keyword::For),
        _ => if text.starts_with('\\') {
            Word::Escaped(Atom::new(alloc, between(text, 1, 0))?)
        } else {
            Word::Ident(Atom::new(alloc, text)?)
        },
    })
}

/// The token that a text is, by what stands before it.
fn token(alloc: Global, text: &str, before: &str) -> Result<Token, AllocError> {
    if let Some(token) = mark(text, before) {
        return Ok(token);
    }
    if text.starts_with('`') || text.starts_with('}') {
        return template(alloc, text);
    }
    if text.starts_with('/') {
        return regex(alloc, text);
    }
    Ok(Token::Word(word(alloc, text)?))
}

/// The tokens that these texts are, each behind the one before it, from 0 on.
fn tokens(alloc: Global, texts: &[&str]) -> Result<Vec<TokenAndSpan>, AllocError> {
    let mut found = Vec::new(alloc);
    let mut before = "";
    let mut low: u32 = 0;
    for text in texts {
        let high = low.saturating_add(text.len().min(100) as u32);
        let token = token(alloc, text, before)?;
        found.push(TokenAndSpan {
            token,
            had_line_break: false,
            span: Span {
                lo: BytePos(low),
                hi: BytePos(high),
            },
        })?;
        before = *text;
        low = high;
    }
    Ok(found)
}

/// Drops it.
fn let_go<T: Drop>(_: T) {}

/// A source of these tokens.
pub(crate) fn source(alloc: Global, texts: &[&str]) -> Result<TokensInput, Fail> {
    let tokens = tokens(alloc, texts)?;
    if !spans_ordered(tokens.as_slice()) {
        let_go(tokens);
        return Err("not in order")?;
    }
    Ok(TokensInput::new(alloc, tokens, Context::default(), Syntax::default()))
}
