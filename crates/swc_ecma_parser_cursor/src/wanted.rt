//! What a rule wants to stand at a place, and the fault that says so.

ghost use Rattle.std.specs.Prelude.{◌≡◌, IfOk};
ghost use Rattle.swc_ecma_parser_error.specs.Kind.{kind_of};
ghost use Rattle.swc_ecma_parser_cursor.specs.Wanted.{wanted_kind};

use std::alloc::{AllocError, Global};
use swc_ecma_parser_common::Span;
use swc_ecma_parser_error::SyntaxError;
use swc_ecma_parser_token::Token;

/// What a rule wants.
#[derive(Clone, Copy, Debug, PartialEq, Eq)]
pub enum Wanted {
    /// A name, or the key of a property or a member.
    Name,
    /// An expression, or whatever goes on in a way that no rule takes.
    Expression,
    /// A string.
    StringLiteral,
    /// What goes on behind the key of a member of a class.
    Member,
    /// A token, by its spelling.
    Token(&'static str),
    /// The end of an expression statement, whose expression has this span.
    EndOfExpression(Span),
}

/// A token's text in a message; none at the end.
fn text_of(token: Option<&Token>) -> &str {
    let Some(token) = token else {
        return "<eof>";
    };
    match token {
        Token::Word(word) => word.as_str(),
        Token::BinOp(op) => op.as_str(),
        Token::AssignOp(op) => op.as_str(),
        Token::Str { raw, .. } | Token::Num { raw } | Token::BigInt { raw } => raw.as_str(),
        Token::Shebang(text) => text.as_str(),
        Token::Regex { exp, .. } => exp.as_str(),
        Token::Template { raw, .. }
        | Token::TemplateHead { raw, .. }
        | Token::TemplateMiddle { raw, .. }
        | Token::TemplateTail { raw, .. } => raw.as_str(),
        Token::Error(_) => "<error>",
        other => mark_text(other),
    }
}

/// The spelling of a token that is a mark.
fn mark_text(token: &Token) -> &'static str {
    match token {
        Token::Arrow => "=>",
        Token::Hash => "#",
        Token::At => "@",
        Token::Dot => ".",
        Token::DotDotDot => "...",
        Token::Bang => "!",
        Token::LParen => "(",
        Token::RParen => ")",
        Token::LBracket => "[",
        Token::RBracket => "]",
        Token::LBrace => "{",
        Token::RBrace => "}",
        Token::Semi => ";",
        Token::Comma => ",",
        Token::Colon => ":",
        Token::QuestionMark => "?",
        Token::QuestionDot => "?.",
        Token::NewDot => ".",
        Token::HashIn => "#",
        Token::PlusPlus => "++",
        Token::MinusMinus => "--",
        Token::Tilde => "~",
        _ => "",
    }
}

/// The kind of fault where another token stands, or none.
pub fn missing(
    alloc: Global,
    wanted: Wanted,
    found: Option<&Token>,
) -> Result<SyntaxError, AllocError>
    ensures { IfOk result (λ kind. kind_of kind ≡ wanted_kind wanted) }
{
    let kind = match wanted {
        Wanted::Name => SyntaxError::ExpectedIdent,
        Wanted::Expression => SyntaxError::unexpected(alloc, "an expression", text_of(found))?,
        Wanted::StringLiteral => SyntaxError::unexpected(
            alloc,
            "a string literal",
            text_of(found),
        )?,
        Wanted::Member => SyntaxError::unexpected(
            alloc,
            "* for generator, private key, identifier or async",
            text_of(found),
        )?,
        Wanted::Token(spelling) => SyntaxError::expected(alloc, spelling, text_of(found))?,
        Wanted::EndOfExpression(expr) => SyntaxError::ExpectedSemiForExprStmt { expr },
    };
    Ok(kind)
}
