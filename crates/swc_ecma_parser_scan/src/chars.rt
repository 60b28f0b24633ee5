//! Classes of characters. Those of ASCII are told by cheap tests, without Unicode's tables.

ghost use Rattle.std.specs.Prelude.{◌≡◌, ◌<◌, [], IfSome, MatchOption};
ghost use Rattle.std.specs.Str.{chars};
ghost use Rattle.swc_ecma_parser_scan.specs.Chars as class;

use crate::state::Base;

/// The first character of a text, and the text behind it.
pub fn first_char(text: &str) -> Option<(char, &str)>
    ensures { MatchOption result (chars text.now ≡ [])
        (λ first. class.IsFirst text.now first.0 first.1.now) }
{
    let mut characters = text.chars();
    let first = characters.next()?;
    Some((first, characters.as_str()))
}

/// White space: ECMA-262, section 12.2.
#[tactic(auto, unfolding(crate::specs::Chars::is_space))]
pub fn is_space(c: char) -> bool
    ensures { result ≡ class.is_space c }
{
    if c < '\u{80}' {
        (c == '\t') | (c == '\u{b}') | (c == '\u{c}') | (c == ' ')
    } else {
        (c == '\t')
            | (c == '\u{b}')
            | (c == '\u{c}')
            | (c == ' ')
            | (c == '\u{a0}')
            | (c == '\u{feff}')
            | (c == '\u{1680}')
            | (('\u{2000}' <= c) & (c <= '\u{200a}'))
            | (c == '\u{202f}')
            | (c == '\u{205f}')
            | (c == '\u{3000}')
    }
}

/// A line terminator: section 12.3.
#[tactic(auto, unfolding(crate::specs::Chars::is_line_break))]
pub fn is_line_break(c: char) -> bool
    ensures { result ≡ class.is_line_break c }
{
    (c == '\n') | (c == '\r') | (c == '\u{2028}') | (c == '\u{2029}')
}

/// What a name may begin with: section 12.7.
#[tactic(auto, unfolding(crate::specs::Chars::is_name_start))]
pub fn is_name_start(c: char) -> bool
    ensures { result ≡ class.is_name_start c }
{
    if c < '\u{80}' {
        (c == '$') | (c == '_') | c.is_ascii_alphabetic()
    } else {
        (c == '$') | (c == '_') | unicode_ident::is_xid_start(c)
    }
}

/// What a name may go on with: section 12.7.
#[tactic(auto, unfolding(crate::specs::Chars::is_name_part))]
pub fn is_name_part(c: char) -> bool
    ensures { result ≡ class.is_name_part c }
{
    if c < '\u{80}' {
        (c == '$') | (c.is_ascii_alphanumeric() | (c == '_'))
    } else {
        (c == '$') | (c == '\u{200c}') | (c == '\u{200d}') | unicode_ident::is_xid_continue(c)
    }
}

/// A decimal digit.
#[tactic(auto, unfolding(crate::specs::Chars::is_digit))]
pub fn is_digit(c: char) -> bool
    ensures { result ≡ class.is_digit c }
{
    ('0' <= c) & (c <= '9')
}

/// The value of a hexadecimal digit.
#[tactic(auto, unfolding(crate::specs::Chars::hex_digit))]
pub fn hex_digit(c: char) -> Option<u32>
    ensures { result ≡ class.hex_digit c }
{
    let code = c as u32;
    if ('0' <= c) & (c <= '9') {
        Some(code - 48)
    } else if ('a' <= c) & (c <= 'f') {
        Some(code - 87)
    } else if ('A' <= c) & (c <= 'F') {
        Some(code - 55)
    } else {
        None
    }
}

/// A digit of a base.
#[tactic(auto, unfolding(crate::specs::Chars::is_base_digit))]
pub fn is_base_digit(base: Base, c: char) -> bool
    ensures { result ≡ class.is_base_digit base c }
{
    match base {
        Base::Binary => (c == '0') | (c == '1'),
        Base::Octal => ('0' <= c) & (c <= '7'),
        Base::Hexadecimal => hex_digit(c).is_some(),
    }
}
