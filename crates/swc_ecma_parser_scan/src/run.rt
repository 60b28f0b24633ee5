//! Runs of bytes that leave a piece as it is.

ghost use Rattle.std.specs.Prelude.{◌≡◌, ◌<◌, ◌≤◌, false, length, get_or};
ghost use Rattle.std.specs.Str.{chars, IsUtf8};
ghost use Rattle.swc_ecma_parser_scan.specs.Runs as run;
ghost use Rattle.swc_ecma_parser_scan.specs.Scan as read;

use crate::state::State;

/// What each byte leaves as it is: a name (1), a string (2), a comment of a line (4), a block comment (8).
static CLASSES: [u8; 256] = [
    14, 14, 14, 14, 14, 14, 14, 14, 14, 14, 0, 14, 14, 0, 14, 14, 14, 14, 14, 14, 14, 14, 14, 14,
    14, 14, 14, 14, 14, 14, 14, 14, 14, 14, 12, 14, 15, 14, 14, 12, 14, 14, 6, 14, 14, 14, 14, 14,
    15, 15, 15, 15, 15, 15, 15, 15, 15, 15, 14, 14, 14, 14, 14, 14, 14, 15, 15, 15, 15, 15, 15, 15,
    15, 15, 15, 15, 15, 15, 15, 15, 15, 15, 15, 15, 15, 15, 15, 15, 15, 15, 15, 14, 12, 14, 14, 15,
    14, 15, 15, 15, 15, 15, 15, 15, 15, 15, 15, 15, 15, 15, 15, 15, 15, 15, 15, 15, 15, 15, 15, 15,
    15, 15, 15, 14, 14, 14, 14, 14, 0, 0, 0, 0, 0, 0, 0, 0, 0, 0, 0, 0, 0, 0, 0, 0, 0, 0, 0, 0, 0,
    0, 0, 0, 0, 0, 0, 0, 0, 0, 0, 0, 0, 0, 0, 0, 0, 0, 0, 0, 0, 0, 0, 0, 0, 0, 0, 0, 0, 0, 0, 0, 0,
    0, 0, 0, 0, 0, 0, 0, 0, 0, 0, 0, 0, 0, 0, 0, 0, 0, 0, 0, 0, 0, 0, 0, 0, 0, 0, 0, 0, 0, 0, 0, 0,
    0, 0, 0, 0, 0, 0, 0, 0, 0, 0, 0, 0, 0, 0, 0, 0, 0, 0, 0, 0, 0, 0, 0, 0, 0, 0, 0, 0, 0, 0, 0, 0,
    0, 0, 0, 0, 0, 0, 0, 0, 0, 0, 0,
];

/// The bit of the bytes that leave a state as it is.
#[tactic(auto, unfolding(crate::specs::Runs::class_of))]
fn class_of(state: State) -> u8
    ensures { result ≡ run.class_of state }
{
    match state {
        State::Name => 1,
        State::Str(quote) => if (quote == '\'') | (quote == '"') {
            2
        } else {
            0
        },
        State::LineComment => 4,
        State::Shebang => 4,
        State::BlockComment(_) => 8,
        _ => 0,
    }
}

/// Whether a byte is of a class.
#[tactic(auto, unfolding(crate::specs::Runs::is_of))]
fn is_of(class: u8, byte: u8) -> bool
    ensures { result ≡ run.is_of class byte }
{
    CLASSES[byte as usize] & class != 0
}

/// The text behind the bytes that leave a piece as it is.
pub fn past_run(state: State, text: &str) -> &str
    ensures state { (read.munch state (chars result.now)).state
        ≡ (read.munch state (chars text.now)).state }
    ensures left { (read.munch state (chars result.now)).left
        ≡ (read.munch state (chars text.now)).left }
    ensures ends { 0 < length result.now → run.is_of (run.class_of state) (get_or result.now 0 0)
        ≡ false }
    ensures shorter { length result.now ≤ length text.now }
    ensures utf8 { IsUtf8 result.now }
{
    let class = class_of(state);
    let bytes = text.as_bytes();
    let mut at = 0;
    while at < bytes.len() && is_of(class, bytes[at]) {
        at += 1;
    }
    &text[at..]
}
