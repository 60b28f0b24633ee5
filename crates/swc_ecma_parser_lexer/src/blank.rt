//! Spaces and line breaks that are ASCII, a run of them at once.

ghost use Rattle.std.specs.Prelude.{◌≡◌, ◌+◌, ℕ, drop, length};
ghost use Rattle.std.specs.Str.{chars};
ghost use Rattle.swc_ecma_parser_lexer.specs.Blanks as blank;
ghost use Rattle.swc_ecma_parser_lexer.specs.Collected.{comments};
ghost use Rattle.swc_ecma_parser_lexer.specs.Tokens.{IsSkipped};

/// What stands behind the blanks of a text.
#[derive(Clone, Copy)]
pub struct Behind<'a> {
    /// How many bytes the blanks have.
    pub size: usize,
    /// Whether a line break stands between the place behind the blanks and the token before it.
    pub had_line_break: bool,
    /// The text behind them.
    pub rest: &'a str,
}

#[tactic(auto, unfolding(crate::specs::Blanks::is_blank))]
fn is_blank(byte: u8) -> bool
    ensures { result ≡ blank.is_blank byte }
{
    (byte == b' ') | (byte == b'\n') | (byte == b'\t') | (byte == b'\r')
}

#[tactic(auto, unfolding(crate::specs::Blanks::is_break))]
fn is_break(byte: u8) -> bool
    ensures { result ≡ blank.is_break byte }
{
    (byte == b'\n') | (byte == b'\r')
}

/// Goes past the blanks that a text begins with. `broken`: a line break stands before the text.
pub fn blanks(broken: bool, text: &str) -> Behind<'_>
    ensures skipped { IsSkipped broken text.now result.size result.had_line_break result.rest.now }
    ensures comments { (start at : ℕ) → comments start at (chars text.now)
        ≡ comments start (at + result.size) (chars result.rest.now) }
    ensures size { result.size + length result.rest.now ≡ length text.now }
    ensures rest { result.rest.now ≡ drop result.size text.now }
{
    let bytes = text.as_bytes();
    let mut at = 0;
    let mut had_line_break = broken;
    while at < bytes.len() && is_blank(bytes[at]) {
        had_line_break |= is_break(bytes[at]);
        at += 1;
    }
    Behind {
        size: at,
        had_line_break,
        rest: &text[at..],
    }
}
