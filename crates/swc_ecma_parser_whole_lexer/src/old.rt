//! Numbers and strings in old forms: ECMA-262, `LegacyOctalIntegerLiteral` and `NonOctalDecimalIntegerLiteral` (section
//! 12.9.3), `LegacyOctalEscapeSequence` and `NonOctalDecimalEscapeSequence` (section 12.9.4).

ghost use Rattle.std.specs.Prelude.{◌≡◌, None, IfOk, MatchOption, string_bytes};
ghost use Rattle.std.specs.Str.{chars};
ghost use Rattle.swc_ecma_parser_lexer.specs.declared.escape.Escape.TheVariants as escape;
ghost use Rattle.swc_ecma_parser_whole_lexer.specs.declared.old.Old.TheVariants as old;
ghost use Rattle.swc_ecma_parser_whole_lexer.specs.Old as read;
ghost use Rattle.swc_ecma_parser_whole_lexer.specs.Runs.{HasChars};

use crate::run::{Class, begins_with, behind, is_ahead, is_of, past};
use std::alloc::{AllocError, Global};
use swc_ecma_parser_lexer::{Escape, Turn, escaped, is_number, say, say_last};
use swc_ecma_parser_scan::{State, first_char, scan};

#[tactic(auto, unfolding(crate::specs::Old::octal_value))]
fn octal_value(c: char) -> u32
    ensures { result ≡ read.octal_value c }
{
    if is_of(Class::Octal, c) {
        (c as u32).saturating_sub(48)
    } else {
        0
    }
}

/// Where in a string with old escapes a text is.
#[derive(Clone, Copy)]
pub enum Old {
    /// As in any other string.
    Plain(Escape),
    /// Before an octal digit of an escape: so many may come, and the value of those before.
    Octal(u32, u32),
}

/// What one more character makes of a string, and the unit that it completes.
#[derive(Clone, Copy)]
struct OldTurn {
    state: Old,
    unit: Option<u32>,
}

#[tactic(auto, unfolding(crate::specs::Old::says))]
fn says(unit: u32) -> OldTurn
    ensures { result ≡ read.says unit }
{
    OldTurn {
        state: Old::Plain(Escape::Text),
        unit: Some(unit),
    }
}

#[tactic(auto, unfolding(crate::specs::Old::as_ever))]
fn as_ever(turn: Turn) -> OldTurn
    ensures { result ≡ read.as_ever turn }
{
    OldTurn {
        state: Old::Plain(turn.state),
        unit: turn.unit,
    }
}

/// An octal digit was read: `value` with it, and so many may come behind it.
#[tactic(auto, unfolding(crate::specs::Old::octal))]
fn octal(left: u32, value: u32, goes_on: bool) -> OldTurn
    ensures { result ≡ read.octal left value goes_on }
{
    if (left > 0) & goes_on {
        OldTurn {
            state: Old::Octal(left, value),
            unit: None,
        }
    } else {
        says(value)
    }
}

/// A value with one more octal digit; those that come have two digits at most.
#[tactic(auto, unfolding(crate::specs::Old::with_octal))]
fn with_octal(value: u32, c: char) -> u32
    ensures { result ≡ read.with_octal value c }
{
    if value < 256 {
        value * 8 + octal_value(c)
    } else {
        value
    }
}

/// How many digits may come behind a first one: the value stays below 256.
#[tactic(auto, unfolding(crate::specs::Old::further))]
fn further(c: char) -> u32
    ensures { result ≡ read.further c }
{
    if c <= '3' { 2 } else { 1 }
}

/// The character behind a backslash.
#[tactic(auto, unfolding(crate::specs::Old::behind_backslash))]
fn behind_backslash(quote: char, c: char, goes_on: bool) -> OldTurn
    ensures { result ≡ read.behind_backslash quote c goes_on }
{
    if is_of(Class::Octal, c) {
        octal(further(c), octal_value(c), goes_on)
    } else if (c == '8') | (c == '9') {
        says(c as u32)
    } else {
        as_ever(escaped(quote, Escape::Backslash, c))
    }
}

/// One more character. `goes_on`: an octal digit stands behind it.
#[tactic(auto, unfolding(crate::specs::Old::step))]
fn step(quote: char, state: Old, c: char, goes_on: bool) -> OldTurn
    ensures { result ≡ read.step quote state c goes_on }
{
    match state {
        Old::Octal(left, value) => octal(left.saturating_sub(1), with_octal(value, c), goes_on),
        Old::Plain(Escape::Backslash) => behind_backslash(quote, c, goes_on),
        Old::Plain(escape) => as_ever(escaped(quote, escape, c)),
    }
}

#[tactic(auto, unfolding(crate::specs::Old::is_right))]
fn is_right(state: Old) -> bool
    ensures { result ≡ read.is_right state }
{
    match state {
        Old::Plain(Escape::Wrong) => false,
        _ => true,
    }
}

/// Whether no escape of a whole literal is written wrong, old ones included.
pub fn is_old_string(quote: char, literal: &str) -> bool
    ensures { result ≡ read.is_old_string quote (old.Plain escape.Text) (chars literal.now) }
{
    let mut state = Old::Plain(Escape::Text);
    let mut rest = literal;
    while let Some((c, behind)) = first_char(rest) {
        state = step(quote, state, c, is_ahead(Class::Octal, behind)).state;
        rest = behind;
    }
    is_right(state)
}

/// What a whole literal says, whose escapes are well written, old ones included.
pub fn old_value_of(alloc: Global, quote: char, literal: &str) -> Result<String, AllocError>
    ensures { IfOk result
        (λ value. string_bytes value
        ≡ read.old_value_of quote (old.Plain escape.Text) None (chars literal.now)) }
{
    let mut value = String::new(alloc);
    let mut state = Old::Plain(Escape::Text);
    let mut waiting = None;
    let mut rest = literal;
    while let Some((c, behind)) = first_char(rest) {
        let next = step(quote, state, c, is_ahead(Class::Octal, behind));
        waiting = say(&mut value, waiting, next.unit)?;
        state = next.state;
        rest = behind;
    }
    say_last(&mut value, waiting)?;
    Ok(value)
}

/// Whether a piece is a decimal number, and no big integer.
#[tactic(auto, unfolding(crate::specs::Old::is_decimal))]
fn is_decimal(state: State) -> bool
    ensures { result ≡ read.is_decimal state }
{
    match state {
        State::Number(number) => is_number(number),
        _ => false,
    }
}

/// The text behind a decimal number that it begins with, which may have a fraction and an exponent, but no separator in its
/// first digits.
fn past_decimal(text: &str) -> Option<&str>
    ensures { let behind = read.past_decimal (chars text.now) in
        MatchOption result (behind ≡ None) (λ rest. HasChars behind rest.now) }
{
    if begins_with('_', past(Class::Digit, text)) {
        return None;
    }
    let piece = scan(false, text)?;
    if is_decimal(piece.state) {
        Some(piece.rest)
    } else {
        None
    }
}

/// Whether a text begins with `0` and one more digit.
#[tactic(auto, unfolding(crate::specs::Old::is_old))]
fn is_old(text: &str) -> bool
    ensures { result ≡ read.is_old (chars text.now) }
{
    begins_with('0', text) && is_ahead(Class::Digit, behind(text))
}

/// The text behind the number in an old form that it begins with.
pub fn past_old_number(text: &str) -> Option<&str>
    ensures { let behind = read.past_old_number (chars text.now) in
        MatchOption result (behind ≡ None) (λ rest. HasChars behind rest.now) }
{
    if !is_old(text) {
        return None;
    }
    let octals = past(Class::Octal, text);
    if is_ahead(Class::Digit, octals) {
        past_decimal(past(Class::Zero, text))
    } else if is_ahead(Class::NamePart, octals) {
        None
    } else {
        Some(octals)
    }
}
