//! Which part of a line is shown around a place. Work is bounded, however long the line is.

ghost use Rattle.std.specs.Prelude.{◌≡◌, ◌≤◌};
ghost use Rattle.ecma_faults.specs.Excerpt as show;
ghost use Rattle.ecma_faults.specs.Excerpt.{column_of, room_of, start_of};

use crate::room::room_left;
use ecma_estree_text::{Places, Spot};
use ecma_outline::{byte_at, is_start, piece};

/// How many columns are shown before what is wrong.
const BEFORE: usize = 40;

/// How many columns are shown in all.
const MOST: usize = 74;

/// Whether a text begins with a byte order mark.
fn has_mark(text: &str) -> bool
    ensures { result ≡ show.has_mark text.now }
{
    byte_at(text, 0) == 239 && byte_at(text, 1) == 187 && byte_at(text, 2) == 191
}

/// The column of a place, from 0, in which a byte order mark is not counted.
pub(crate) fn column_in(text: &str, spot: Spot) -> u64
    ensures value { result ≡ show.column_in text.now spot }
    ensures bound { result ≤ spot.column }
{
    if spot.line == 1 && has_mark(text) {
        spot.column.saturating_sub(1)
    } else {
        spot.column
    }
}

/// The column of an offset, from 0, in code units of UTF-16; 0 where no columns are known.
pub(crate) fn column(places: &Places<'_>, position: usize) -> usize
    ensures { result ≡ column_of places.now position }
{
    match places.spot(position) {
        Some(spot) => column_in(places.text(), spot) as usize,
        None => 0,
    }
}

/// Whether the part of the line that is shown can begin at an offset: at the start of the line, or far enough before the place.
fn is_far(places: &Places<'_>, left: usize, at: usize) -> bool
    ensures { result ≡ show.is_far places.now left at }
{
    column(places, at) == 0 || left < 3
}

/// Where the part of the line begins that is shown before a place. It takes a step for each byte between them.
#[tactic(auto, using(crate::proofs::Back::back_here, crate::proofs::Back::back_on, crate::proofs::Back::back_in))]
pub(crate) fn start(places: &Places<'_>, low: usize) -> usize
    ensures { result ≡ start_of places.now low }
{
    let mut at = low;
    let mut edge = low;
    let mut left = BEFORE;
    while 0 < at {
        if !is_start(places.text(), at) {
            at -= 1;
            continue;
        }
        left = room_left(left, piece(places.text(), at, edge));
        edge = at;
        if is_far(places, left, at) {
            return at;
        }
        at -= 1;
    }
    at
}

/// How many columns are left for what stands from a place on.
pub(crate) fn room(places: &Places<'_>, from: usize, low: usize) -> usize
    ensures value { result ≡ room_of places.now from low }
    ensures bound { result ≤ 74 }
{
    room_left(MOST, piece(places.text(), from, low))
}
