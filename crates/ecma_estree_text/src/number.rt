//! What a numeric literal says, as JSON: ECMA-262, "Numeric Literals" (section 12.9.3).

ghost use Rattle.std.specs.Prelude.{◌≡◌, ◌++◌, ◌<◌, ◌≤◌, ◌^◌, OnOk, IfSome, MatchOption, decimal, drop, false};
ghost use Rattle.std.specs.List.{list_all};
ghost use Rattle.ecma_estree_text.specs.Number as number;
ghost use Rattle.ecma_estree_text.specs.Number.{bare_text, decimal_text, digit_value, digits_text, number_text, past_zeros, radix_of, value_behind, zero_text};

use crate::long::{push_double, push_whole};
use itoa::Buffer;
use std::alloc::AllocError;

/// The radix that the letter behind a 0 tells.
fn letter_radix(letter: u8) -> Option<u64>
    ensures radix { result ≡ number.letter_radix letter }
    ensures bound { IfSome result (λ radix. (2 ≤ radix) × (radix ≤ 16)) }
{
    match letter {
        b'x' | b'X' => Some(16),
        b'o' | b'O' => Some(8),
        b'b' | b'B' => Some(2),
        _ => None,
    }
}

/// The radix that a literal's first two bytes tell; none of a decimal one.
fn radix(bytes: &[u8]) -> Option<u64>
    ensures radix { result ≡ radix_of bytes.now }
    ensures bound { IfSome result (λ radix. (2 ≤ radix) × (radix ≤ 16)) }
{
    match bytes {
        [b'0', letter, ..] => letter_radix(*letter),
        _ => None,
    }
}

/// Whether a byte stands in numbers: a letter, a digit or a sign.
fn is_numeral(byte: u8) -> bool
    ensures { result ≡ number.is_numeral byte }
{
    matches!(byte, b'0'..=b'9' | b'a'..=b'z' | b'A'..=b'Z' | b'+' | b'-')
}

/// Whether a byte is no digit of a literal: `_`, or the `n` of a big integer.
pub(crate) fn is_mark(byte: u8) -> bool
    ensures { result ≡ number.is_mark byte }
{
    matches!(byte, b'_' | b'n')
}

/// The value of a digit.
pub(crate) fn digit(byte: u8) -> u64
    ensures value { result ≡ digit_value byte }
    ensures bound { result < 16 }
{
    if b'0' <= byte && byte <= b'9' {
        (byte - b'0') as u64
    } else if b'a' <= byte && byte <= b'f' {
        (byte - b'a' + 10) as u64
    } else if b'A' <= byte && byte <= b'F' {
        (byte - b'A' + 10) as u64
    } else {
        0
    }
}

/// The value of digits and one more byte, which may be a mark; none where it is no number of 64 bits.
fn next_value(sum: u64, radix: u64, byte: u8) -> Option<u64>
    ensures { MatchOption result (2 ^ 64 ≤ number.next_value radix sum byte)
        (λ n. n ≡ number.next_value radix sum byte) }
{
    if is_mark(byte) {
        return Some(sum);
    }
    let Some(shifted) = sum.checked_mul(radix) else {
        return None;
    };
    shifted.checked_add(digit(byte))
}

/// The value of digits in a radix; none where it is no number of 64 bits.
#[tactic(auto, using(crate::proofs::Value::value_more, crate::proofs::Value::value_past, crate::proofs::Value::value_all))]
fn value(bytes: &[u8], radix: u64) -> Option<u64>
    requires { 1 ≤ radix }
    ensures { MatchOption result (2 ^ 64 ≤ value_behind radix 0 bytes.now)
        (λ n. n ≡ value_behind radix 0 bytes.now) }
{
    let mut sum: u64 = 0;
    for byte in bytes {
        let Some(next) = next_value(sum, radix, *byte) else {
            return None;
        };
        sum = next;
    }
    Some(sum)
}

/// Writes a number in decimal digits.
pub fn push_count(out: &mut Vec<u8>, number: u64) -> Result<(), AllocError>
    ensures { OnOk result (out.new.items ≡ out.old.items ++ decimal number) }
{
    let mut buffer = Buffer::new();
    out.extend_from_slice(buffer.format(number).as_bytes())
}

/// Whether a point is yet to be written behind a byte of a decimal literal.
fn is_behind_point(was_behind: bool, byte: u8) -> bool
    ensures { result ≡ number.is_point_next was_behind byte }
{
    match byte {
        b'.' => true,
        b'_' => was_behind,
        _ => false,
    }
}

/// Writes a byte of a decimal literal, and the point before it if it is one of a fraction.
fn push_decimal_byte(out: &mut Vec<u8>, is_behind_point: bool, byte: u8) -> Result<(), AllocError>
    ensures { OnOk result
        (out.new.items ≡ out.old.items ++ number.point_byte is_behind_point byte) }
{
    if byte == b'.' || byte == b'_' {
        return Ok(());
    }
    if is_behind_point && b'0' <= byte && byte <= b'9' {
        out.push(b'.')?;
        out.push(byte)?;
        return Ok(());
    }
    if is_numeral(byte) {
        out.push(byte)?;
    }
    Ok(())
}

/// Writes decimal digits, with a point where there are digits behind it.
fn push_points(out: &mut Vec<u8>, bytes: &[u8]) -> Result<(), AllocError>
    ensures { OnOk result (out.new.items ≡ out.old.items ++ number.point_behind false bytes.now) }
{
    let mut is_behind = false;
    for byte in bytes {
        push_decimal_byte(out, is_behind, *byte)?;
        is_behind = is_behind_point(is_behind, *byte);
    }
    Ok(())
}

/// Writes a decimal literal as a JSON number.
fn push_decimal(out: &mut Vec<u8>, bytes: &[u8]) -> Result<(), AllocError>
    ensures { OnOk result (out.new.items ≡ out.old.items ++ decimal_text bytes.now) }
{
    match bytes {
        [b'.', ..] => {
            out.push(b'0')?;
            push_points(out, bytes)
        }
        _ => push_points(out, bytes),
    }
}

/// Writes a byte of a literal, but no `_` and no `n`.
fn push_bare_byte(out: &mut Vec<u8>, byte: u8) -> Result<(), AllocError>
    ensures { OnOk result (out.new.items ≡ out.old.items ++ number.bare_byte byte) }
{
    if is_mark(byte) {
        return Ok(());
    }
    if is_numeral(byte) {
        out.push(byte)?;
    }
    Ok(())
}

/// Writes a literal but for `_` and `n`.
fn push_bare(out: &mut Vec<u8>, bytes: &[u8]) -> Result<(), AllocError>
    ensures { OnOk result (out.new.items ≡ out.old.items ++ bare_text bytes.now) }
{
    for byte in bytes {
        push_bare_byte(out, *byte)?;
    }
    Ok(())
}

/// Whether a literal is a 0 with a digit behind it.
fn has_leading_zero(bytes: &[u8]) -> bool
    ensures { result ≡ number.has_leading_zero bytes.now }
{
    match bytes {
        [b'0', digit, ..] => b'0' <= *digit && *digit <= b'9',
        _ => false,
    }
}

/// Whether a byte is a digit of base 8.
fn is_octal_digit(byte: u8) -> bool
    ensures { result ≡ number.is_octal_digit byte }
{
    b'0' <= byte && byte <= b'7'
}

/// Whether all of a literal are digits of base 8.
fn is_octal(bytes: &[u8]) -> bool
    ensures { result ≡ list_all number.is_octal_digit bytes.now }
{
    bytes.iter().all(|byte| is_octal_digit(*byte))
}

/// What stands behind the zeros that a literal begins with.
fn behind_zeros(bytes: &[u8]) -> &[u8]
    ensures { result.now ≡ past_zeros bytes.now }
{
    let mut rest = bytes;
    while let [b'0', more @ ..] = rest {
        rest = more;
    }
    rest
}

/// Writes the value of a literal that is a 0 with digits behind it: in base 8 where it has no others, else decimal.
#[tactic(auto, using(crate::proofs::Digits::decimal_double))]
fn push_zero_led(out: &mut Vec<u8>, bytes: &[u8]) -> Result<(), AllocError>
    ensures { OnOk result (out.new.items ≡ out.old.items ++ zero_text bytes.now) }
{
    if !is_octal(bytes) {
        return push_decimal(out, behind_zeros(bytes));
    }
    match value(bytes, 8) {
        Some(value) => push_count(out, value),
        None => push_double(out, bytes, 8),
    }
}

/// What stands behind the first two bytes.
fn digits(bytes: &[u8]) -> &[u8]
    ensures { result.now ≡ drop 2 bytes.now }
{
    match bytes {
        [_, _, rest @ ..] => rest,
        _ => b"",
    }
}

/// Writes the value of a number literal, which is given as it is written. One with a radix of its own is written as the integer that it is, in
/// decimal digits; past 400 of them as `1e400`, since both are infinite to JavaScript.
#[tactic(auto, unfolding(crate::specs::Number::number_text), using(crate::proofs::Digits::decimal_double))]
pub fn push_number(out: &mut Vec<u8>, raw: &str) -> Result<(), AllocError>
    ensures { OnOk result (out.new.items ≡ out.old.items ++ number_text raw.now) }
{
    let bytes = raw.as_bytes();
    if has_leading_zero(bytes) {
        return push_zero_led(out, bytes);
    }
    let Some(radix) = radix(bytes) else {
        return push_decimal(out, bytes);
    };
    match value(digits(bytes), radix) {
        Some(value) => push_count(out, value),
        None => push_double(out, digits(bytes), radix),
    }
}

/// Writes the value of a big integer literal in decimal digits. The literal is given as it is written with its `n`.
#[tactic(auto, unfolding(crate::specs::Number::digits_text), using(crate::proofs::Digits::decimal_whole))]
pub fn push_digits(out: &mut Vec<u8>, raw: &str) -> Result<(), AllocError>
    ensures { OnOk result (out.new.items ≡ out.old.items ++ digits_text raw.now) }
{
    let bytes = raw.as_bytes();
    let Some(radix) = radix(bytes) else {
        return push_bare(out, bytes);
    };
    match value(digits(bytes), radix) {
        Some(value) => push_count(out, value),
        None => push_whole(out, digits(bytes), radix),
    }
}
