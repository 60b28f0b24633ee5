//! Literals: numbers and escapes in old forms, and the flags of regular expressions.

ghost use Rattle.std.specs.Prelude.{◌≡◌, false, OnOk};
ghost use Rattle.ecma_event_exprs.specs.Events.{events, number, regex, string, used};
ghost use Rattle.ecma_event_exprs.specs.Literals as text;
ghost use Rattle.swc_ecma_parser_ast.specs.View.{view_lit};

use crate::walk::Walk;
use ecma_events::Event;
use std::alloc::AllocError;
use swc_ecma_parser_ast::{Lit, Number, Regex, Str};

fn is_digit(byte: u8) -> bool
    ensures { result ≡ text.is_digit byte }
{
    b'0' <= byte && byte <= b'9'
}

fn starts_with_digit(bytes: &[u8]) -> bool
    ensures { result ≡ text.starts_with_digit bytes.now }
{
    match bytes {
        [byte, ..] => is_digit(*byte),
        _ => false,
    }
}

/// Whether a number is a 0 with a digit behind it.
fn is_old_number(bytes: &[u8]) -> bool
    ensures { result ≡ text.is_old_number bytes.now }
{
    match bytes {
        [byte, rest @ ..] => *byte == b'0' && starts_with_digit(rest),
        _ => false,
    }
}

/// Whether what stands behind a `\` is an escape in an old form.
fn is_old_escape(byte: u8, rest: &[u8]) -> bool
    ensures { result ≡ text.is_old_escape byte rest.now }
{
    is_digit(byte) && (byte != b'0' || starts_with_digit(rest))
}

/// Whether a string has an escape in an old form.
fn has_old_escape(bytes: &[u8]) -> bool
    ensures { result ≡ text.has_old_escape false bytes.now }
{
    let mut is_escaped = false;
    let mut rest = bytes;
    while let [byte, more @ ..] = rest {
        if is_escaped && is_old_escape(*byte, more) {
            return true;
        }
        is_escaped = !is_escaped && *byte == b'\\';
        rest = more;
    }
    false
}

#[tactic(auto, unfolding(crate::specs::Literals::is_flag))]
fn is_flag(byte: u8) -> bool
    ensures { result ≡ text.is_flag byte }
{
    byte == b'd'
        || byte == b'g'
        || byte == b'i'
        || byte == b'm'
        || byte == b's'
        || byte == b'u'
        || byte == b'v'
        || byte == b'y'
}

/// Whether two flags do not stand side by side.
fn excludes(one: u8, other: u8) -> bool
    ensures { result ≡ text.excludes one other }
{
    one == other || one == b'u' && other == b'v' || one == b'v' && other == b'u'
}

/// Whether a flag does not stand beside one of others.
fn excludes_any(flag: u8, others: &[u8]) -> bool
    ensures { result ≡ text.excludes_any flag others.now }
{
    let mut rest = others;
    while let [other, more @ ..] = rest {
        if excludes(flag, *other) {
            return true;
        }
        rest = more;
    }
    false
}

/// Whether it is a flag that may stand beside those behind it.
#[tactic(auto, unfolding(crate::specs::Literals::may_precede))]
fn may_precede(flag: u8, rest: &[u8]) -> bool
    ensures { result ≡ text.may_precede flag rest.now }
{
    is_flag(flag) && !excludes_any(flag, rest)
}

/// Whether each is a flag that may stand beside the others.
fn are_flags(bytes: &[u8]) -> bool
    ensures { result ≡ text.are_flags bytes.now }
{
    let mut rest = bytes;
    while let [flag, more @ ..] = rest {
        if !may_precede(*flag, more) {
            return false;
        }
        rest = more;
    }
    true
}

/// Tells a string with an escape in an old form.
pub(crate) fn string<'a>(walk: &mut Walk<'a>, x: &'a Str) -> Result<(), AllocError>
    ensures { OnOk result (walk.new ≡ string x.now.span x.now.raw walk.old) }
{
    if has_old_escape(x.raw.as_str().as_bytes()) {
        return walk.event(Event::OldString(x.span));
    }
    Ok(())
}

/// Tells a number in an old form.
pub(crate) fn number<'a>(walk: &mut Walk<'a>, x: &'a Number) -> Result<(), AllocError>
    ensures { OnOk result (walk.new ≡ number x.now.span x.now.raw walk.old) }
{
    if is_old_number(x.raw.as_str().as_bytes()) {
        return walk.event(Event::OldNumber(x.span));
    }
    Ok(())
}

/// Tells a regular expression with wrong flags.
fn regex<'a>(walk: &mut Walk<'a>, x: &'a Regex) -> Result<(), AllocError>
    ensures { OnOk result (walk.new ≡ regex x.now.span x.now.flags walk.old) }
{
    if are_flags(x.flags.as_str().as_bytes()) {
        return Ok(());
    }
    walk.event(Event::WrongFlags(x.span))
}

/// A literal.
pub(crate) fn literal<'a>(walk: &mut Walk<'a>, x: &'a Lit) -> Result<(), AllocError>
    ensures { OnOk result (walk.new ≡ events used (view_lit x.now) walk.old) }
{
    match x {
        Lit::Str(x) => string(walk, x),
        Lit::Num(x) => number(walk, x),
        Lit::Regex(x) => regex(walk, x),
        Lit::Bool(_) | Lit::Null(_) | Lit::BigInt(_) => Ok(()),
    }
}
