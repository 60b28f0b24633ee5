//! Parts of a text.

ghost use Rattle.std.specs.Prelude.{◌≡◌};
ghost use Rattle.ecma_outline.specs.Piece as spec;
ghost use Rattle.ecma_outline.specs.Piece.{is_boundary};

/// A byte of a text; 0 where there is none.
pub fn byte_at(text: &str, n: usize) -> u8
    ensures { result ≡ spec.byte_at text.now n }
{
    let bytes = text.as_bytes();
    if n < bytes.len() { bytes[n] } else { 0 }
}

/// Whether a text may be cut at an offset in bytes.
pub fn is_start(text: &str, position: usize) -> bool
    ensures { result ≡ is_boundary text.now position }
{
    let bytes = text.as_bytes();
    if position < bytes.len() {
        bytes[position] < 128 || 192 <= bytes[position]
    } else {
        position == bytes.len()
    }
}

/// A part of a text, between two offsets in bytes; nothing where it is cut in the midst of a character.
#[tactic(auto, unfolding(crate::specs::Piece::piece))]
pub fn piece(text: &str, from: usize, to: usize) -> &str
    ensures { result.now ≡ spec.piece text.now from to }
{
    if from <= to && is_start(text, from) && is_start(text, to) {
        &text[from..to]
    } else {
        ""
    }
}
