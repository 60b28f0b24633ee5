//! Numeric literals: ECMA-262, section 12.9.3, with separators and without the old octal forms.

ghost use Rattle.std.specs.Prelude.{◌≡◌};
ghost use Rattle.swc_ecma_parser_scan.specs.Numbers as read;

use crate::chars::{is_base_digit, is_digit, is_name_part};
use crate::state::{Base, Number, State};

/// What a number is with one more character, or nothing where the character does not belong to it.
#[tactic(auto, unfolding(crate::specs::Numbers::step_number))]
pub fn step_number(number: Number, c: char) -> Option<State>
    ensures { result ≡ read.step_number number c }
{
    match known_step(number, c) {
        Some(next) => Some(State::Number(next)),
        None => if is_name_part(c) {
            Some(State::Number(Number::Wrong))
        } else {
            None
        },
    }
}

#[tactic(auto, unfolding(crate::specs::Numbers::known_step))]
fn known_step(number: Number, c: char) -> Option<Number>
    ensures { result ≡ read.known_step number c }
{
    match number {
        Number::Zero => step_zero(c),
        Number::Integer => step_integer(c),
        Number::IntegerSeparator => digit(c, Number::Integer),
        Number::Point => digit_or_exponent(c, Number::Fraction),
        Number::Fraction => step_fraction(c),
        Number::FractionSeparator => digit(c, Number::Fraction),
        Number::Exponent => step_exponent(c),
        Number::ExponentSign => digit(c, Number::ExponentDigits),
        Number::ExponentDigits => digit_or_separator(
            c,
            Number::ExponentDigits,
            Number::ExponentSeparator,
        ),
        Number::ExponentSeparator => digit(c, Number::ExponentDigits),
        Number::Prefix(base) => base_digit(base, c),
        Number::Digits(base) => step_digits(base, c),
        Number::DigitsSeparator(base) => base_digit(base, c),
        Number::BigInt => None,
        Number::Wrong => None,
    }
}

/// A digit leads to `next`.
#[tactic(auto, unfolding(crate::specs::Numbers::digit))]
fn digit(c: char, next: Number) -> Option<Number>
    ensures { result ≡ read.digit c next }
{
    if is_digit(c) { Some(next) } else { None }
}

#[tactic(auto, unfolding(crate::specs::Numbers::digit_or_separator))]
fn digit_or_separator(c: char, next: Number, separated: Number) -> Option<Number>
    ensures { result ≡ read.digit_or_separator c next separated }
{
    if c == '_' {
        Some(separated)
    } else {
        digit(c, next)
    }
}

#[tactic(auto, unfolding(crate::specs::Numbers::digit_or_exponent))]
fn digit_or_exponent(c: char, next: Number) -> Option<Number>
    ensures { result ≡ read.digit_or_exponent c next }
{
    if (c == 'e') | (c == 'E') {
        Some(Number::Exponent)
    } else {
        digit(c, next)
    }
}

#[tactic(auto, unfolding(crate::specs::Numbers::base_digit))]
fn base_digit(base: Base, c: char) -> Option<Number>
    ensures { result ≡ read.base_digit base c }
{
    if is_base_digit(base, c) {
        Some(Number::Digits(base))
    } else {
        None
    }
}

#[tactic(auto, unfolding(crate::specs::Numbers::behind_integer))]
fn behind_integer(c: char) -> Option<Number>
    ensures { result ≡ read.behind_integer c }
{
    if c == '.' {
        Some(Number::Point)
    } else if c == 'n' {
        Some(Number::BigInt)
    } else if (c == 'e') | (c == 'E') {
        Some(Number::Exponent)
    } else {
        None
    }
}

#[tactic(auto, unfolding(crate::specs::Numbers::step_zero))]
fn step_zero(c: char) -> Option<Number>
    ensures { result ≡ read.step_zero c }
{
    if (c == 'x') | (c == 'X') {
        Some(Number::Prefix(Base::Hexadecimal))
    } else if (c == 'o') | (c == 'O') {
        Some(Number::Prefix(Base::Octal))
    } else if (c == 'b') | (c == 'B') {
        Some(Number::Prefix(Base::Binary))
    } else {
        behind_integer(c)
    }
}

#[tactic(auto, unfolding(crate::specs::Numbers::step_integer))]
fn step_integer(c: char) -> Option<Number>
    ensures { result ≡ read.step_integer c }
{
    if is_digit(c) {
        Some(Number::Integer)
    } else if c == '_' {
        Some(Number::IntegerSeparator)
    } else {
        behind_integer(c)
    }
}

#[tactic(auto, unfolding(crate::specs::Numbers::step_fraction))]
fn step_fraction(c: char) -> Option<Number>
    ensures { result ≡ read.step_fraction c }
{
    if c == '_' {
        Some(Number::FractionSeparator)
    } else {
        digit_or_exponent(c, Number::Fraction)
    }
}

#[tactic(auto, unfolding(crate::specs::Numbers::step_exponent))]
fn step_exponent(c: char) -> Option<Number>
    ensures { result ≡ read.step_exponent c }
{
    if (c == '+') | (c == '-') {
        Some(Number::ExponentSign)
    } else {
        digit(c, Number::ExponentDigits)
    }
}

#[tactic(auto, unfolding(crate::specs::Numbers::step_digits))]
fn step_digits(base: Base, c: char) -> Option<Number>
    ensures { result ≡ read.step_digits base c }
{
    if c == '_' {
        Some(Number::DigitsSeparator(base))
    } else if c == 'n' {
        Some(Number::BigInt)
    } else {
        base_digit(base, c)
    }
}
