//! Runs of characters of one class.

ghost use Rattle.std.specs.Prelude.{◌≡◌, ◌++◌, OnOk, string_bytes};
ghost use Rattle.std.specs.Str.{chars};
ghost use Rattle.swc_ecma_parser_whole_lexer.specs.Runs as read;

use std::alloc::AllocError;
use swc_ecma_parser_scan::{first_char, is_digit, is_line_break, is_name_part};

/// A class of characters.
#[derive(Clone, Copy)]
pub enum Class {
    /// What a name may go on with.
    NamePart,
    /// All but line terminators.
    Line,
    /// Decimal digits.
    Digit,
    /// Octal digits.
    Octal,
    /// `0`.
    Zero,
}

/// Whether a character is of a class.
#[tactic(auto, unfolding(crate::specs::Runs::is_of))]
pub fn is_of(class: Class, c: char) -> bool
    ensures { result ≡ read.is_of class c }
{
    match class {
        Class::NamePart => is_name_part(c),
        Class::Line => !is_line_break(c),
        Class::Digit => is_digit(c),
        Class::Octal => ('0' <= c) & (c <= '7'),
        Class::Zero => c == '0',
    }
}

/// The text behind the characters of a class that it begins with.
pub fn past(class: Class, text: &str) -> &str
    ensures { chars result.now ≡ read.past class (chars text.now) }
{
    let mut rest = text;
    while let Some((c, behind)) = first_char(rest) {
        if !is_of(class, c) {
            return rest;
        }
        rest = behind;
    }
    rest
}

/// Whether a text begins with a character of a class.
#[tactic(auto, unfolding(crate::specs::Runs::is_ahead))]
pub fn is_ahead(class: Class, text: &str) -> bool
    ensures { result ≡ read.is_ahead class (chars text.now) }
{
    match first_char(text) {
        Some((c, _)) => is_of(class, c),
        None => false,
    }
}

/// Whether a text begins with a character.
#[tactic(auto, unfolding(crate::specs::Runs::begins_with))]
pub fn begins_with(mark: char, text: &str) -> bool
    ensures { result ≡ read.begins_with mark (chars text.now) }
{
    match first_char(text) {
        Some((c, _)) => c == mark,
        None => false,
    }
}

/// The text behind its first character, if it has one.
#[tactic(auto, unfolding(crate::specs::Runs::behind))]
pub fn behind(text: &str) -> &str
    ensures { chars result.now ≡ read.behind (chars text.now) }
{
    match first_char(text) {
        Some((_, behind)) => behind,
        None => text,
    }
}

/// Appends a character, if there is one.
pub fn push_some(out: &mut String, c: Option<char>) -> Result<(), AllocError>
    ensures { OnOk result (string_bytes out.new ≡ string_bytes out.old ++ read.bytes_of c) }
{
    match c {
        Some(c) => out.push(c),
        None => Ok(()),
    }
}
