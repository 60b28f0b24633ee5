//! How much room characters take in a terminal.

ghost use Rattle.std.specs.Prelude.{◌≡◌, ◌≤◌, chars};
ghost use Rattle.ecma_faults.specs.Excerpt as show;
ghost use Rattle.ecma_faults.specs.Excerpt.{cost};
ghost use Rattle.ecma_faults.specs.Shown.{columns};

use crate::shown::width;

/// The room that a character takes away: its columns, 8 for a tab, and at least 1.
pub(crate) fn room_taken(c: char) -> usize
    ensures value { result ≡ cost c }
    ensures bound { columns c ≤ result }
{
    let columns = width(c);
    if c == '\t' {
        return 8;
    }
    columns.max(1)
}

/// The room that is left behind a text.
pub(crate) fn room_left(room: usize, text: &str) -> usize
    ensures value { result ≡ show.room_left room (chars text.now) }
    ensures bound { result ≤ room }
{
    let mut left = room;
    for c in text.chars() {
        left = left.saturating_sub(room_taken(c));
    }
    left
}
