//! Tokens, as espree names them: a word is a `Keyword` where it is one in every context or is `static`, and `#` and its name are one token.

ghost use Rattle.std.specs.Prelude.{◌≡◌, ◌++◌, OnOk, codes, true, Some, None};
ghost use Rattle.ecma_estree_lists.specs.Tokens as tokens;
ghost use Rattle.ecma_estree_text.specs.Places.{place_fields};
ghost use Rattle.ecma_estree_text.specs.Quoted.{quoted, wrapped};
ghost use Rattle.ecma_estree_lists.specs.Tokens.{part, regex_field, step_text, token_head, token_list, token_text, tokens_field, value_text};

use ecma_estree_text::{Places, push_quoted, push_quoted_bytes};
use std::alloc::AllocError;
use swc_ecma_parser_common::Span;
use swc_ecma_parser_token::{Keyword, Token, TokenAndSpan, Word};

/// What a keyword is.
#[tactic(auto, unfolding(crate::specs::Tokens::keyword_type))]
fn keyword_type(keyword: Keyword) -> &'static str
    ensures { result.now ≡ tokens.keyword_type keyword }
{
    match keyword {
        Keyword::Await => "Identifier",
        _ => "Keyword",
    }
}

/// What a name is: espree has `static` for a keyword.
#[tactic(auto, unfolding(crate::specs::Tokens::name_type))]
fn name_type(text: &str) -> &'static str
    ensures { result.now ≡ tokens.name_type text.now }
{
    if text == "static" {
        "Keyword"
    } else {
        "Identifier"
    }
}

/// What a word is.
#[tactic(auto, unfolding(crate::specs::Tokens::word_type))]
fn word_type(word: &Word) -> &'static str
    ensures { result.now ≡ tokens.word_type word.now }
{
    match word {
        Word::Keyword(keyword) => keyword_type(*keyword),
        Word::Null => "Null",
        Word::True | Word::False => "Boolean",
        Word::Ident(text) => name_type(text.as_str()),
        Word::Escaped(text) => name_type(text.as_str()),
    }
}

/// What a token is.
#[tactic(auto, unfolding(crate::specs::Tokens::token_type))]
fn token_type(token: &Token) -> &'static str
    ensures { result.now ≡ tokens.token_type token.now }
{
    match token {
        Token::Word(word) => word_type(word),
        Token::Str { .. } => "String",
        Token::Num { .. } | Token::BigInt { .. } => "Numeric",
        Token::Regex { .. } => "RegularExpression",
        Token::Template { .. }
        | Token::TemplateHead { .. }
        | Token::TemplateMiddle { .. }
        | Token::TemplateTail { .. } => "Template",
        _ => "Punctuator",
    }
}

/// Whether a token is a `#`, which is one with the name behind it.
fn is_hash(token: &Token) -> bool
    ensures { result ≡ tokens.is_hash token.now }
{
    match token {
        Token::Hash | Token::HashIn => true,
        _ => false,
    }
}

/// Whether a token is a first line that begins with `#!`.
fn is_shebang(token: &Token) -> bool
    ensures { result ≡ tokens.is_shebang token.now }
{
    match token {
        Token::Shebang(_) => true,
        _ => false,
    }
}

/// A part of a text.
fn part_of(text: &str, low: usize, high: usize) -> &[u8]
    ensures { result.now ≡ part text.now low high }
{
    let bytes = text.as_bytes();
    let high = high.min(bytes.len());
    let low = low.min(high);
    &bytes[low..high]
}

/// How a token is written, of a word what it says.
fn value_of<'a>(text: &'a str, token: &'a Token, span: Span) -> &'a [u8]
    ensures { result.now ≡ value_text text.now token.now span }
{
    match token {
        Token::Word(word) => word.as_str().as_bytes(),
        _ => part_of(text, span.lo.0 as usize, span.hi.0 as usize),
    }
}

/// Writes how a token begins, up to its text.
#[tactic(auto, unfolding(crate::specs::Tokens::token_head))]
fn push_head(out: &mut Vec<u8>, kind: &str) -> Result<(), AllocError>
    ensures { OnOk result (out.new.items ≡ out.old.items ++ token_head kind.now) }
{
    out.extend_from_slice(b"{\"type\":\"")?;
    out.extend_from_slice(kind.as_bytes())?;
    out.extend_from_slice(b"\",\"value\":")
}

/// Writes the flags and the pattern of a regular expression.
fn push_regex_parts(out: &mut Vec<u8>, exp: &str, flags: &str) -> Result<(), AllocError>
    ensures { OnOk result
        (out.new.items ≡ out.old.items
        ++ (codes ",\"regex\":{\"flags\":" ++ (quoted flags.now
        ++ (codes ",\"pattern\":" ++ (quoted exp.now ++ codes "}"))))) }
{
    out.extend_from_slice(b",\"regex\":{\"flags\":")?;
    push_quoted(out, flags)?;
    out.extend_from_slice(b",\"pattern\":")?;
    push_quoted(out, exp)?;
    out.extend_from_slice(b"}")
}

/// Writes what a regular expression has besides; of another token nothing.
#[tactic(auto, unfolding(crate::specs::Tokens::regex_field))]
fn push_regex_field(out: &mut Vec<u8>, token: &Token) -> Result<(), AllocError>
    ensures { OnOk result (out.new.items ≡ out.old.items ++ regex_field token.now) }
{
    match token {
        Token::Regex { exp, flags } => push_regex_parts(out, exp.as_str(), flags.as_str()),
        _ => Ok(()),
    }
}

/// Writes where a token stands.
fn push_place(
    out: &mut Vec<u8>,
    places: &Places<'_>,
    low: usize,
    high: usize,
) -> Result<(), AllocError>
    ensures { OnOk result
        (out.new.items ≡ out.old.items ++ (codes "," ++ place_fields places.now low high)) }
{
    out.extend_from_slice(b",")?;
    places.push_fields(out, low, high)
}

/// Writes a token of the given kind with its text and its place, from an offset on, as far as these.
fn push_from(
    out: &mut Vec<u8>,
    places: &Places<'_>,
    kind: &str,
    token: &TokenAndSpan,
    low: usize,
) -> Result<(), AllocError>
    ensures { OnOk result
        (out.new.items ≡ out.old.items
        ++ (token_head kind.now
        ++ (wrapped (value_text places.now.text token.now.token token.now.span)
        ++ (codes "," ++ place_fields places.now low token.now.span.hi.0)))) }
{
    push_head(out, kind)?;
    push_quoted_bytes(out, value_of(places.text(), &token.token, token.span))?;
    push_place(out, places, low, token.span.hi.0 as usize)
}

/// Writes the name of the `#` that stands at `mark`.
fn push_private_name(
    out: &mut Vec<u8>,
    places: &Places<'_>,
    mark: Span,
    token: &TokenAndSpan,
) -> Result<(), AllocError>
    ensures { OnOk result
        (out.new.items ≡ out.old.items ++ token_text places.now (Some mark) token.now) }
{
    push_from(out, places, "PrivateIdentifier", token, mark.lo.0 as usize)?;
    out.extend_from_slice(b"}")?;
    Ok(())
}

/// Writes a token that stands alone.
#[tactic(auto, unfolding(crate::specs::Tokens::written, crate::specs::Tokens::token_tail))]
fn push_plain(
    out: &mut Vec<u8>,
    places: &Places<'_>,
    token: &TokenAndSpan,
) -> Result<(), AllocError>
    ensures { OnOk result (out.new.items ≡ out.old.items ++ token_text places.now None token.now) }
{
    let kind = token_type(&token.token);
    push_from(out, places, kind, token, token.span.lo.0 as usize)?;
    push_regex_field(out, &token.token)?;
    out.extend_from_slice(b"}")
}

/// Writes a token, which is the name of the `#` before it if there is one.
fn push_token(
    out: &mut Vec<u8>,
    places: &Places<'_>,
    hash: Option<Span>,
    token: &TokenAndSpan,
) -> Result<(), AllocError>
    ensures { OnOk result (out.new.items ≡ out.old.items ++ token_text places.now hash token.now) }
{
    match hash {
        Some(mark) => push_private_name(out, places, mark, token),
        None => push_plain(out, places, token),
    }
}

/// Writes a token with the comma before it, but not one that is none there.
fn push_step(
    out: &mut Vec<u8>,
    places: &Places<'_>,
    is_first: bool,
    hash: Option<Span>,
    token: &TokenAndSpan,
) -> Result<(), AllocError>
    ensures { OnOk result
        (out.new.items ≡ out.old.items ++ step_text places.now is_first hash token.now) }
{
    if is_hash(&token.token) || is_shebang(&token.token) {
        return Ok(());
    }
    if !is_first {
        out.extend_from_slice(b",")?;
    }
    push_token(out, places, hash, token)
}

/// Whether what stands behind a token is the first of all.
fn is_first_behind(is_first: bool, token: &TokenAndSpan) -> bool
    ensures { result ≡ tokens.is_first_behind is_first token.now }
{
    is_first && (is_hash(&token.token) || is_shebang(&token.token))
}

/// The place of a token that is a `#`.
fn hash_behind(token: &TokenAndSpan) -> Option<Span>
    ensures { result ≡ tokens.hash_behind token.now }
{
    if is_hash(&token.token) {
        return Some(token.span);
    }
    None
}

/// Writes tokens with commas between them.
#[tactic(auto, using(crate::proofs::Listed::list_more, crate::proofs::Listed::list_all))]
fn push_list(
    out: &mut Vec<u8>,
    places: &Places<'_>,
    tokens: &[TokenAndSpan],
) -> Result<(), AllocError>
    ensures { OnOk result
        (out.new.items ≡ out.old.items ++ token_list places.now true None tokens.now) }
{
    let mut is_first = true;
    let mut hash = None;
    for token in tokens {
        push_step(out, places, is_first, hash, token)?;
        is_first = is_first_behind(is_first, token);
        hash = hash_behind(token);
    }
    Ok(())
}

/// Writes tokens as a field `tokens` that stands behind another.
#[tactic(auto, unfolding(crate::specs::Tokens::tokens_field))]
pub fn push_tokens(
    out: &mut Vec<u8>,
    places: &Places<'_>,
    tokens: &[TokenAndSpan],
) -> Result<(), AllocError>
    ensures { OnOk result (out.new.items ≡ out.old.items ++ tokens_field places.now tokens.now) }
{
    out.extend_from_slice(b",\"tokens\":[")?;
    push_list(out, places, tokens)?;
    out.extend_from_slice(b"]")
}
