//! The line that a fault stands in, and carets under what is wrong there.

ghost use Rattle.std.specs.Prelude.{◌≡◌, ◌++◌, ◌≤◌, OnOk, chars};
ghost use Rattle.ecma_faults.specs.Excerpt.{caret_text, dots, excerpt_text, is_line_end, line_rest, line_text, rest_columns};

use crate::place::{column, room, start};
use crate::room::room_taken;
use crate::shown::{push_blanks, push_char, push_shown, push_times, width};
use ecma_estree_text::Places;
use ecma_outline::piece;
use std::alloc::AllocError;

/// Whether a character ends a line: ECMA-262, "Line Terminators" (section 12.3).
fn ends_line(c: char) -> bool
    ensures { result ≡ is_line_end c }
{
    match c {
        '\n' | '\r' | '\u{2028}' | '\u{2029}' => true,
        _ => false,
    }
}

/// Writes what stands from a place on, up to the end of the line or as far as there is room; dots where there is not enough.
fn push_rest(out: &mut Vec<u8>, room: usize, text: &str) -> Result<(), AllocError>
    ensures { OnOk result (out.new.items ≡ out.old.items ++ line_rest room (chars text.now)) }
{
    let mut left = room;
    for c in text.chars() {
        if ends_line(c) {
            return Ok(());
        }
        if left < room_taken(c) {
            return out.extend_from_slice(b"...");
        }
        left -= room_taken(c);
        push_char(out, '\t', c)?;
    }
    Ok(())
}

/// How many columns that takes.
fn columns_of(room: usize, text: &str) -> usize
    requires { room ≤ 74 }
    ensures { result ≡ rest_columns room (chars text.now) }
{
    let mut left = room;
    let mut sum: usize = 0;
    for c in text.chars() {
        if ends_line(c) {
            return sum;
        }
        if left < room_taken(c) {
            return sum;
        }
        left -= room_taken(c);
        sum += width(c);
    }
    sum
}

/// Writes dots, or blanks under them, where the line does not begin with what is shown.
fn push_dots(
    out: &mut Vec<u8>,
    places: &Places<'_>,
    from: usize,
    bytes: &[u8],
) -> Result<(), AllocError>
    ensures { OnOk result (out.new.items ≡ out.old.items ++ dots places.now from bytes.now) }
{
    if column(places, from) == 0 {
        return Ok(());
    }
    out.extend_from_slice(bytes)
}

/// Writes the line of a place, from an offset on.
fn push_line(
    out: &mut Vec<u8>,
    places: &Places<'_>,
    from: usize,
    room: usize,
    low: usize,
) -> Result<(), AllocError>
    ensures { OnOk result
        (out.new.items ≡ out.old.items ++ line_text places.now from room low) }
{
    let text = places.text();
    push_dots(out, places, from, b"...")?;
    push_shown(out, '\t', piece(text, from, low))?;
    push_rest(out, room, piece(text, low, text.len()))?;
    out.push(b'\n')?;
    Ok(())
}

/// Writes carets under a place.
fn push_carets(
    out: &mut Vec<u8>,
    places: &Places<'_>,
    from: usize,
    room: usize,
    low: usize,
    high: usize,
) -> Result<(), AllocError>
    requires { room ≤ 74 }
    ensures { OnOk result
        (out.new.items ≡ out.old.items ++ caret_text places.now from room low high) }
{
    let text = places.text();
    push_dots(out, places, from, b"   ")?;
    push_blanks(out, piece(text, from, low))?;
    let carets = columns_of(room, piece(text, low, high)).max(1);
    push_times(out, b'^', carets)?;
    out.push(b'\n')?;
    Ok(())
}

/// Writes the line of a place between two offsets in bytes, and carets under the place. A long line is cut around it, which dots show.
#[tactic(auto, unfolding(crate::specs::Excerpt::excerpt_text))]
pub(crate) fn push_excerpt(
    out: &mut Vec<u8>,
    places: &Places<'_>,
    low: usize,
    high: usize,
) -> Result<(), AllocError>
    ensures { OnOk result (out.new.items ≡ out.old.items ++ excerpt_text places.now low high) }
{
    let low = low.min(places.text().len());
    let from = start(places, low);
    let room = room(places, from, low);
    push_line(out, places, from, room, low)?;
    push_carets(out, places, from, room, low, high)
}
