//! What a terminal is given to show.

ghost use Rattle.std.specs.Prelude.{◌≡◌, ◌++◌, ◌≤◌, OnOk, replicate};
ghost use Rattle.ecma_faults.specs.Shown as show;
ghost use Rattle.ecma_faults.specs.Shown.{blank, blank_text, columns, is_turn, name_text, shown_bytes, shown_text};

use std::alloc::AllocError;
use unicode_width::UnicodeWidthChar;

/// What stands for a character that a terminal might take for an order: Unicode's replacement character.
const MARK: char = '\u{fffd}';

/// Whether a character ends lines or turns the direction of a text.
fn turns(c: char) -> bool
    ensures { result ≡ is_turn c }
{
    match c {
        '\u{61c}' | '\u{200e}' | '\u{200f}' | '\u{feff}' => true,
        '\u{2028}'..='\u{202e}' | '\u{2066}'..='\u{2069}' => true,
        _ => false,
    }
}

/// What is shown of a character: itself, but a mark of a control character; of a tab what is given.
fn shown(tab: char, c: char) -> char
    ensures { result ≡ show.shown tab c }
{
    if c == '\t' {
        return tab;
    }
    if c.is_control() || turns(c) {
        return MARK;
    }
    c
}

/// The columns that a character takes as it is shown; of a tab 1.
pub(crate) fn width(c: char) -> usize
    ensures value { result ≡ columns c }
    ensures bound { result ≤ 3 }
{
    match shown('\t', c).width() {
        Some(width) => width,
        None => 1,
    }
}

/// Writes a character as it is shown.
pub(crate) fn push_char(out: &mut Vec<u8>, tab: char, c: char) -> Result<(), AllocError>
    ensures { OnOk result (out.new.items ≡ out.old.items ++ shown_bytes tab c) }
{
    let mut buffer = [0; 4];
    out.extend_from_slice(shown(tab, c).encode_utf8(&mut buffer).as_bytes())
}

/// Writes a text as it is shown, with what is given for each tab.
pub(crate) fn push_shown(out: &mut Vec<u8>, tab: char, text: &str) -> Result<(), AllocError>
    ensures { OnOk result (out.new.items ≡ out.old.items ++ shown_text tab text.now) }
{
    for c in text.chars() {
        push_char(out, tab, c)?;
    }
    Ok(())
}

/// Writes a name as it is shown, with a mark for each tab too.
pub fn push_name(out: &mut Vec<u8>, text: &str) -> Result<(), AllocError>
    ensures { OnOk result (out.new.items ≡ out.old.items ++ name_text text.now) }
{
    push_shown(out, MARK, text)
}

/// Writes so many times a byte.
pub(crate) fn push_times(out: &mut Vec<u8>, byte: u8, times: usize) -> Result<(), AllocError>
    ensures { OnOk result (out.new.items ≡ out.old.items ++ replicate times byte) }
{
    for i in 0..times {
        out.push(byte)?;
    }
    Ok(())
}

/// Writes blanks as wide as a character.
fn push_blank(out: &mut Vec<u8>, c: char) -> Result<(), AllocError>
    ensures { OnOk result (out.new.items ≡ out.old.items ++ blank c) }
{
    if c == '\t' {
        out.push(b'\t')?;
        return Ok(());
    }
    push_times(out, b' ', width(c))
}

/// Writes blanks under a text; a tab stands under a tab.
pub(crate) fn push_blanks(out: &mut Vec<u8>, text: &str) -> Result<(), AllocError>
    ensures { OnOk result (out.new.items ≡ out.old.items ++ blank_text text.now) }
{
    for c in text.chars() {
        push_blank(out, c)?;
    }
    Ok(())
}
