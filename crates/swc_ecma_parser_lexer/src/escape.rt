//! What a string literal says: ECMA-262, section 12.9.4.2, "Static Semantics: SV".

ghost use Rattle.std.specs.Prelude.{◌≡◌, ◌++◌, [], None, IfOk, OnOk, string_bytes};
ghost use Rattle.std.specs.Str.{chars};
ghost use Rattle.swc_ecma_parser_lexer.specs.declared.escape.Escape.TheVariants as escape;
ghost use Rattle.swc_ecma_parser_lexer.specs.Strings as read;

use std::alloc::{AllocError, Global};
use swc_ecma_parser_scan::{first_char, hex_digit, is_digit, is_line_break};

/// Where in an escape sequence a string literal is.
#[derive(Clone, Copy, Debug, PartialEq, Eq)]
pub enum Escape {
    /// Outside.
    Text,
    /// Behind a backslash.
    Backslash,
    /// Behind a backslash and a carriage return.
    Return,
    /// Behind `\0`.
    Zero,
    /// So many more hexadecimal digits, and the value of those before.
    Hex(u32, u32),
    /// Behind `\u`.
    Unicode,
    /// Behind `\u{`.
    Brace,
    /// Digits behind `\u{`, with their value.
    Braces(u32),
    /// In or behind an escape that is written wrong.
    Wrong,
}

/// What one more character makes of an escape, and the code unit or code point that is complete.
#[derive(Clone, Copy)]
pub struct Turn {
    pub state: Escape,
    pub unit: Option<u32>,
}

#[tactic(auto, unfolding(crate::specs::Strings::silent))]
fn silent(state: Escape) -> Turn
    ensures { result ≡ read.silent state }
{
    Turn { state, unit: None }
}

#[tactic(auto, unfolding(crate::specs::Strings::says))]
fn says(unit: u32) -> Turn
    ensures { result ≡ read.says unit }
{
    Turn {
        state: Escape::Text,
        unit: Some(unit),
    }
}

/// One more character, where `quote` begins and ends the literal.
#[tactic(auto, unfolding(crate::specs::Strings::escaped))]
pub fn escaped(quote: char, state: Escape, c: char) -> Turn
    ensures { result ≡ read.escaped quote state c }
{
    match state {
        Escape::Text => in_text(quote, c),
        Escape::Backslash => behind_backslash(c),
        Escape::Return => if c == '\n' {
            silent(Escape::Text)
        } else {
            in_text(quote, c)
        },
        Escape::Zero => if is_digit(c) {
            silent(Escape::Wrong)
        } else {
            in_text(quote, c)
        },
        Escape::Hex(left, value) => in_hex(left, value, c),
        Escape::Unicode => if c == '{' {
            silent(Escape::Brace)
        } else {
            in_hex(4, 0, c)
        },
        Escape::Brace => in_braces(0, c),
        Escape::Braces(value) => if c == '}' {
            says(value)
        } else {
            in_braces(value, c)
        },
        Escape::Wrong => silent(Escape::Wrong),
    }
}

#[tactic(auto, unfolding(crate::specs::Strings::in_text))]
fn in_text(quote: char, c: char) -> Turn
    ensures { result ≡ read.in_text quote c }
{
    if c == quote {
        silent(Escape::Text)
    } else if c == '\\' {
        silent(Escape::Backslash)
    } else {
        says(c as u32)
    }
}

#[tactic(auto, unfolding(crate::specs::Strings::behind_backslash))]
fn behind_backslash(c: char) -> Turn
    ensures { result ≡ read.behind_backslash c }
{
    if c == '0' {
        Turn {
            state: Escape::Zero,
            unit: Some(0),
        }
    } else if is_digit(c) {
        silent(Escape::Wrong)
    } else if c == 'x' {
        silent(Escape::Hex(2, 0))
    } else if c == 'u' {
        silent(Escape::Unicode)
    } else if c == '\r' {
        silent(Escape::Return)
    } else if is_line_break(c) {
        silent(Escape::Text)
    } else {
        says(single(c))
    }
}

/// What a backslash and one character stand for.
#[tactic(auto, unfolding(crate::specs::Strings::single))]
fn single(c: char) -> u32
    ensures { result ≡ read.single c }
{
    match c {
        'b' => 8,
        't' => 9,
        'n' => 10,
        'v' => 11,
        'f' => 12,
        'r' => 13,
        _ => c as u32,
    }
}

/// A value with one more hexadecimal digit, up to the greatest code point.
#[tactic(auto, unfolding(crate::specs::Strings::with_digit))]
fn with_digit(value: u32, digit: u32) -> Option<u32>
    ensures { result ≡ read.with_digit value digit }
{
    if (value > 0x10_ffff) | (digit > 15) {
        return None;
    }
    let longer = value * 16 + digit;
    if longer > 0x10_ffff {
        None
    } else {
        Some(longer)
    }
}

#[tactic(auto, unfolding(crate::specs::Strings::hex_value))]
fn hex_value(value: u32, c: char) -> Option<u32>
    ensures { result ≡ read.hex_value value c }
{
    match hex_digit(c) {
        Some(digit) => with_digit(value, digit),
        None => None,
    }
}

#[tactic(auto, unfolding(crate::specs::Strings::in_hex))]
fn in_hex(left: u32, value: u32, c: char) -> Turn
    ensures { result ≡ read.in_hex left value c }
{
    match hex_value(value, c) {
        Some(longer) => if left > 1 {
            silent(Escape::Hex(left - 1, longer))
        } else {
            says(longer)
        },
        None => silent(Escape::Wrong),
    }
}

#[tactic(auto, unfolding(crate::specs::Strings::in_braces))]
fn in_braces(value: u32, c: char) -> Turn
    ensures { result ≡ read.in_braces value c }
{
    match hex_value(value, c) {
        Some(longer) => silent(Escape::Braces(longer)),
        None => silent(Escape::Wrong),
    }
}

/// Whether no escape of a whole literal is written wrong.
pub fn is_well_escaped(quote: char, literal: &str) -> bool
    ensures { result ≡ read.is_well_escaped quote escape.Text (chars literal.now) }
{
    let mut state = Escape::Text;
    let mut rest = literal;
    while let Some((c, behind)) = first_char(rest) {
        let next = escaped(quote, state, c);
        state = next.state;
        rest = behind;
    }
    is_right(state)
}

#[tactic(auto, unfolding(crate::specs::Strings::is_right))]
fn is_right(state: Escape) -> bool
    ensures { result ≡ read.is_right state }
{
    match state {
        Escape::Wrong => false,
        _ => true,
    }
}

/// The first half of a surrogate pair: section 6.1.4.
#[tactic(auto, unfolding(crate::specs::Strings::is_high))]
fn is_high(unit: u32) -> bool
    ensures { result ≡ read.is_high unit }
{
    (0xd800 <= unit) & (unit <= 0xdbff)
}

/// A character, or U+FFFD for a lone half of a pair.
#[tactic(auto, unfolding(crate::specs::Strings::lossy))]
pub fn lossy(unit: u32) -> char
    ensures { result ≡ read.lossy unit }
{
    char::from_u32(unit).unwrap_or('\u{fffd}')
}

/// The character of a pair, if it is one.
#[tactic(auto, unfolding(crate::specs::Strings::paired, crate::specs::Strings::is_pair))]
fn paired(high: u32, low: u32) -> Option<char>
    ensures { result ≡ read.paired high low }
{
    if is_pair(high, low) {
        Some(lossy((high - 0xd800) * 0x400 + (low - 0xdc00) + 0x1_0000))
    } else {
        None
    }
}

#[tactic(auto, unfolding(crate::specs::Strings::is_pair))]
fn is_pair(high: u32, low: u32) -> bool
    ensures { result ≡ read.is_pair high low }
{
    (0xd800 <= high) & (high <= 0xdbff) & (0xdc00 <= low) & (low <= 0xdfff)
}

/// Appends a unit, or answers it where it waits for its second half.
#[tactic(auto, unfolding(crate::specs::Strings::said_alone))]
fn say_alone(value: &mut String, unit: u32) -> Result<Option<u32>, AllocError>
    ensures waiting { IfOk result (λ waiting. waiting ≡ (read.said_alone unit).waiting) }
    ensures bytes { OnOk result
        (string_bytes value.new ≡ string_bytes value.old ++ (read.said_alone unit).bytes) }
{
    if is_high(unit) {
        return Ok(Some(unit));
    }
    value.push(lossy(unit))?;
    Ok(None)
}

/// Appends a unit behind one that waits.
#[tactic(auto, unfolding(crate::specs::Strings::said_behind))]
fn say_behind(value: &mut String, high: u32, unit: u32) -> Result<Option<u32>, AllocError>
    ensures waiting { IfOk result (λ waiting. waiting ≡ (read.said_behind high unit).waiting) }
    ensures bytes { OnOk result
        (string_bytes value.new ≡ string_bytes value.old ++ (read.said_behind high unit).bytes) }
{
    match paired(high, unit) {
        Some(c) => {
            value.push(c)?;
            Ok(None)
        }
        None => {
            value.push('\u{fffd}')?;
            say_alone(value, unit)
        }
    }
}

#[tactic(auto, unfolding(crate::specs::Strings::said))]
pub fn say(
    value: &mut String,
    waiting: Option<u32>,
    unit: Option<u32>,
) -> Result<Option<u32>, AllocError>
    ensures waiting { IfOk result (λ after. after ≡ (read.said waiting unit).waiting) }
    ensures bytes { OnOk result
        (string_bytes value.new ≡ string_bytes value.old ++ (read.said waiting unit).bytes) }
{
    match unit {
        None => Ok(waiting),
        Some(unit) => match waiting {
            None => say_alone(value, unit),
            Some(high) => say_behind(value, high, unit),
        },
    }
}

/// Appends what still waits.
#[tactic(auto, unfolding(crate::specs::Strings::said_last))]
pub fn say_last(value: &mut String, waiting: Option<u32>) -> Result<(), AllocError>
    ensures { OnOk result
        (string_bytes value.new ≡ string_bytes value.old ++ read.said_last waiting) }
{
    match waiting {
        None => Ok(()),
        Some(_) => value.push('\u{fffd}'),
    }
}

/// What a whole literal says, whose escapes are well written.
pub fn value_of(alloc: Global, quote: char, literal: &str) -> Result<String, AllocError>
    ensures { IfOk result
        (λ value. string_bytes value ≡ read.value_of quote escape.Text None (chars literal.now)) }
{
    let mut value = String::new(alloc);
    let mut state = Escape::Text;
    let mut waiting = None;
    let mut rest = literal;
    while let Some((c, behind)) = first_char(rest) {
        let next = escaped(quote, state, c);
        waiting = say(&mut value, waiting, next.unit)?;
        state = next.state;
        rest = behind;
    }
    say_last(&mut value, waiting)?;
    Ok(value)
}
