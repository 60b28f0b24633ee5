//! Where a bracket stands. A tree does not say where the parentheses of a method or the braces of a class begin.

ghost use Rattle.std.specs.Prelude.{◌≡◌};
ghost use Rattle.ecma_estree_text.specs.Bracket.{bracket, mode_behind};

/// Where in a text that may hold comments one is: ECMA-262, "Comments" (section 12.4).
#[derive(Clone, Copy, Debug, PartialEq, Eq)]
pub enum Mode {
    /// In no comment.
    Code,
    /// Behind a `/` that may begin one.
    Slash,
    /// In one that goes to the end of its line.
    Line,
    /// In such a one, in a character of three bytes that may end the line (U+2028 and U+2029), behind one and two of them.
    LineFirst,
    LineSecond,
    /// In one that goes to `*/`.
    Block,
    /// In such a one, behind a `*`.
    Star,
}

/// Where one is behind a byte.
fn behind(mode: Mode, byte: u8) -> Mode
    ensures { result ≡ mode_behind mode byte }
{
    match mode {
        Mode::Code => {
            if byte == b'/' {
                Mode::Slash
            } else {
                Mode::Code
            }
        }
        Mode::Slash => match byte {
            b'/' => Mode::Line,
            b'*' => Mode::Block,
            _ => Mode::Code,
        },
        Mode::Line => line_behind(byte),
        Mode::LineFirst => {
            if byte == 0x80 {
                Mode::LineSecond
            } else {
                line_behind(byte)
            }
        }
        Mode::LineSecond => {
            if byte == 0xa8 || byte == 0xa9 {
                Mode::Code
            } else {
                line_behind(byte)
            }
        }
        Mode::Block => {
            if byte == b'*' {
                Mode::Star
            } else {
                Mode::Block
            }
        }
        Mode::Star => match byte {
            b'/' => Mode::Code,
            b'*' => Mode::Star,
            _ => Mode::Block,
        },
    }
}

/// Where one is behind a byte of a comment that goes to the end of its line.
fn line_behind(byte: u8) -> Mode
    ensures { result ≡ mode_behind Mode.Line byte }
{
    match byte {
        b'\n' | b'\r' => Mode::Code,
        0xe2 => Mode::LineFirst,
        _ => Mode::Line,
    }
}

/// The offset of the first byte `mark` from the offset `from` on that stands in no comment, in bytes; the end of the text, where
/// there is none.
#[tactic(auto, unfolding(crate::specs::Bracket::bracket))]
pub fn find(text: &str, mark: u8, from: usize) -> usize
    ensures { result ≡ bracket text.now mark from }
{
    let bytes = text.as_bytes();
    let mut place = from.min(bytes.len());
    let mut mode = Mode::Code;
    let rest = &bytes[place..];
    for byte in rest {
        if mode == Mode::Code && *byte == mark {
            return place;
        }
        mode = behind(mode, *byte);
        place += 1;
    }
    place
}
