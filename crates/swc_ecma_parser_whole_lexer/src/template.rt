//! Parts of templates: ECMA-262, "Template Literal Lexical Components" (section 12.9.6).

ghost use Rattle.std.specs.Prelude.{◌≡◌, false, None, IfOk, MatchOption, string_bytes};
ghost use Rattle.std.specs.Str.{chars};
ghost use Rattle.swc_ecma_parser_whole_lexer.specs.Templates as read;

use crate::run::{begins_with, push_some};
use std::alloc::{AllocError, Global};
use swc_ecma_parser_common::Atom;
use swc_ecma_parser_lexer::{is_well_escaped, value_of};
use swc_ecma_parser_scan::first_char;
use swc_ecma_parser_token::Token;

/// The end of a part of a template.
#[derive(Clone, Copy)]
pub struct PartEnd<'a> {
    /// Whether the part is the last one, which a grave accent ends, and not `${`.
    pub is_last: bool,
    /// The text from that mark on.
    pub rest: &'a str,
}

/// Whether a character ends a part, or `$` before `{`.
#[tactic(auto, unfolding(crate::specs::Templates::ends_part))]
fn ends_part(is_escaped: bool, c: char, behind: &str) -> bool
    ensures { result ≡ read.ends_part is_escaped c (chars behind.now) }
{
    !is_escaped && (c == '`' || c == '$' && begins_with('{', behind))
}

/// The end of the part whose characters a text begins with, if it has one.
pub fn past_part(text: &str) -> Option<PartEnd<'_>>
    ensures { MatchOption result (read.past_part false (chars text.now) ≡ None)
        (λ end. read.IsEnd (chars text.now) end) }
{
    let mut rest = text;
    let mut is_escaped = false;
    while let Some((c, behind)) = first_char(rest) {
        if ends_part(is_escaped, c, behind) {
            return Some(PartEnd {
                is_last: c == '`',
                rest,
            });
        }
        is_escaped = !is_escaped & (c == '\\');
        rest = behind;
    }
    None
}

/// What is written for a character. `behind_return`: it stands directly behind a carriage return.
#[tactic(auto, unfolding(crate::specs::Templates::fed))]
fn fed(behind_return: bool, c: char) -> Option<char>
    ensures { result ≡ read.fed behind_return c }
{
    if c == '\r' {
        Some('\n')
    } else if behind_return & (c == '\n') {
        None
    } else {
        Some(c)
    }
}

/// A text with a line feed for each `\r\n` and each `\r`.
fn with_line_feeds(alloc: Global, text: &str) -> Result<String, AllocError>
    ensures { IfOk result
        (λ out. string_bytes out ≡ read.with_line_feeds false (chars text.now)) }
{
    let mut out = String::new(alloc);
    let mut rest = text;
    let mut behind_return = false;
    while let Some((c, behind)) = first_char(rest) {
        push_some(&mut out, fed(behind_return, c))?;
        behind_return = c == '\r';
        rest = behind;
    }
    Ok(out)
}

/// What the characters between two marks of a template say, or nothing where an escape in them is none. The text ends
/// with a grave accent, so that no escape is left open.
#[tactic(auto, unfolding(crate::specs::Templates::cooked))]
fn cooked(alloc: Global, ended: &str) -> Result<Option<Atom>, AllocError>
    ensures { IfOk result (λ said. said ≡ read.cooked (chars ended.now)) }
{
    if is_well_escaped('`', ended) {
        Ok(Some(Atom::from_string(value_of(alloc, '`', ended)?)?))
    } else {
        Ok(None)
    }
}

#[tactic(auto, unfolding(crate::specs::Templates::part_token))]
fn part_token(is_first: bool, is_last: bool, raw: Atom, cooked: Option<Atom>) -> Token
    ensures { result ≡ read.part_token is_first is_last raw cooked }
{
    if is_first {
        if is_last {
            Token::Template { raw, cooked }
        } else {
            Token::TemplateHead { raw, cooked }
        }
    } else if is_last {
        Token::TemplateTail { raw, cooked }
    } else {
        Token::TemplateMiddle { raw, cooked }
    }
}

/// The token of a part, by what stands between its marks.
#[tactic(auto, unfolding(crate::specs::Templates::part))]
pub fn part(
    alloc: Global,
    is_first: bool,
    is_last: bool,
    between: &str,
) -> Result<Token, AllocError>
    ensures { IfOk result (λ token. token ≡ read.part is_first is_last between.now) }
{
    let mut written = with_line_feeds(alloc, between)?;
    let raw = Atom::new(alloc, written.as_str())?;
    written.push('`')?;
    let cooked = cooked(alloc, written.as_str())?;
    Ok(part_token(is_first, is_last, raw, cooked))
}
