//! The tokens that pieces of the text spell.

ghost use Rattle.std.specs.Prelude.{◌≡◌, true, IfOk, OnErr};
ghost use Rattle.swc_ecma_parser_token.specs.declared.token.Token.TheVariants as token;
ghost use Rattle.swc_ecma_parser_lexer.specs.Make as read;
ghost use Rattle.swc_ecma_parser_lexer.specs.Tokens.{has_text};

use crate::escape::{is_well_escaped, value_of};
use crate::plain::plain_text;
use crate::words::{is_false, is_null, is_true, keyword_of};
use std::alloc::{AllocError, Global};
use swc_ecma_parser_common::{Atom, Span};
use swc_ecma_parser_error::{Error, SyntaxError};
use swc_ecma_parser_scan::{Mark, Number, State, first_char};
use swc_ecma_parser_token::{Token, Word};

#[tactic(auto, unfolding(crate::specs::Make::word_of, crate::specs::Tokens::has_text))]
fn word_of(alloc: Global, name: &str) -> Result<Word, AllocError>
    ensures word { IfOk result (λ word. word ≡ read.word_of name.now) }
    ensures lost { OnErr result (has_text (token.Word (read.word_of name.now)) ≡ true) }
{
    let word = if let Some(keyword) = keyword_of(name) {
        Word::Keyword(keyword)
    } else if is_null(name) {
        Word::Null
    } else if is_true(name) {
        Word::True
    } else if is_false(name) {
        Word::False
    } else {
        Word::Ident(Atom::new(alloc, name)?)
    };
    Ok(word)
}

/// The error token of a fault.
#[tactic(auto, unfolding(crate::specs::Make::fault))]
pub fn fault(kind: SyntaxError, span: Span) -> Token
    ensures { result ≡ read.fault kind span }
{
    Token::Error(Error { span, kind })
}

#[tactic(auto, unfolding(crate::specs::Make::number_token, crate::specs::Tokens::has_text))]
fn number_token(alloc: Global, number: Number, raw: &str, span: Span) -> Result<Token, AllocError>
    ensures token { IfOk result (λ token. token ≡ read.number_token number raw.now span) }
    ensures lost { OnErr result (has_text (read.number_token number raw.now span) ≡ true) }
{
    if is_big_int(number) {
        Ok(Token::BigInt {
            raw: Atom::new(alloc, raw)?,
        })
    } else if is_number(number) {
        Ok(Token::Num {
            raw: Atom::new(alloc, raw)?,
        })
    } else {
        Ok(fault(SyntaxError::InvalidNumber, span))
    }
}

#[tactic(auto, unfolding(crate::specs::Make::is_big_int))]
fn is_big_int(number: Number) -> bool
    ensures { result ≡ read.is_big_int number }
{
    match number {
        Number::BigInt => true,
        _ => false,
    }
}

/// Whether a number may end here.
#[tactic(auto, unfolding(crate::specs::Make::is_number))]
pub fn is_number(number: Number) -> bool
    ensures { result ≡ read.is_number number }
{
    match number {
        Number::Zero => true,
        Number::Integer => true,
        Number::Point => true,
        Number::Fraction => true,
        Number::ExponentDigits => true,
        Number::Digits(_) => true,
        _ => false,
    }
}

#[tactic(auto, unfolding(crate::specs::Make::string_token, crate::specs::Tokens::has_text))]
fn string_token(alloc: Global, quote: char, raw: &str, span: Span) -> Result<Token, AllocError>
    ensures token { IfOk result (λ token. token ≡ read.string_token quote raw.now span) }
    ensures lost { OnErr result (has_text (read.string_token quote raw.now span) ≡ true) }
{
    if let Some(inner) = plain_text(quote, raw) {
        let value = Atom::new(alloc, inner)?;
        let raw = Atom::new(alloc, raw)?;
        Ok(Token::Str { value, raw })
    } else if is_well_escaped(quote, raw) {
        let value = Atom::from_string(value_of(alloc, quote, raw)?)?;
        let raw = Atom::new(alloc, raw)?;
        Ok(Token::Str { value, raw })
    } else {
        Ok(fault(SyntaxError::InvalidStrEscape, span))
    }
}

/// The text behind its first character.
#[tactic(auto, unfolding(crate::specs::Make::behind_first))]
fn behind_first(text: &str) -> &str
    ensures { result.now ≡ read.behind_first text.now }
{
    match first_char(text) {
        Some((_, behind)) => behind,
        None => text,
    }
}

/// The text behind the two characters that open a comment or a shebang.
#[tactic(auto, unfolding(crate::specs::Make::behind_mark))]
pub fn behind_mark(text: &str) -> &str
    ensures { result.now ≡ read.behind_mark text.now }
{
    behind_first(behind_first(text))
}

#[tactic(auto, unfolding(crate::specs::Make::mark_token))]
fn mark_token(mark: Mark) -> Token
    ensures { result ≡ read.mark_token mark }
{
    match mark {
        Mark::FirstHash => Token::Hash,
        Mark::DotDot => Token::Dot,
        Mark::Arrow => Token::Arrow,
        Mark::Hash => Token::Hash,
        Mark::At => Token::At,
        Mark::Dot => Token::Dot,
        Mark::DotDotDot => Token::DotDotDot,
        Mark::Bang => Token::Bang,
        Mark::LParen => Token::LParen,
        Mark::RParen => Token::RParen,
        Mark::LBracket => Token::LBracket,
        Mark::RBracket => Token::RBracket,
        Mark::LBrace => Token::LBrace,
        Mark::RBrace => Token::RBrace,
        Mark::Semi => Token::Semi,
        Mark::Comma => Token::Comma,
        Mark::Colon => Token::Colon,
        Mark::QuestionMark => Token::QuestionMark,
        Mark::PlusPlus => Token::PlusPlus,
        Mark::MinusMinus => Token::MinusMinus,
        Mark::Tilde => Token::Tilde,
    }
}

/// The token that a piece spells; `text` is the piece.
#[tactic(auto, unfolding(crate::specs::Make::token_of, crate::specs::Tokens::has_text))]
pub fn token_of(alloc: Global, state: State, text: &str, span: Span) -> Result<Token, AllocError>
    ensures token { IfOk result (λ token. token ≡ read.token_of state text.now span) }
    ensures lost { OnErr result (has_text (read.token_of state text.now span) ≡ true) }
{
    match state {
        State::Name => Ok(Token::Word(word_of(alloc, text)?)),
        State::Number(number) => number_token(alloc, number, text, span),
        State::StrEnd(quote) => string_token(alloc, quote, text, span),
        State::Str(_) => Ok(fault(SyntaxError::UnterminatedStrLit, span)),
        State::StrEscape(_) => Ok(fault(SyntaxError::UnterminatedStrLit, span)),
        State::StrReturn(_) => Ok(fault(SyntaxError::UnterminatedStrLit, span)),
        State::BlockComment(_) => Ok(fault(SyntaxError::UnterminatedBlockComment, span)),
        State::BlockCommentStar(_) => Ok(fault(SyntaxError::UnterminatedBlockComment, span)),
        State::Shebang => Ok(Token::Shebang(Atom::new(alloc, behind_mark(text))?)),
        State::Mark(mark) => Ok(mark_token(mark)),
        State::BinOp(op) => Ok(Token::BinOp(op)),
        State::AssignOp(op) => Ok(Token::AssignOp(op)),
        _ => Ok(fault(SyntaxError::UnexpectedChar, span)),
    }
}
