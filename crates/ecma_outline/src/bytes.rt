//! What a byte of a text is part of, as far as bytes tell it: a word, a sign, a string, a comment. No grammar is read.

ghost use Rattle.std.specs.Prelude.{◌≡◌};
ghost use Rattle.ecma_outline.specs.Bytes as bytes;

/// What the byte before is part of.
#[derive(Clone, Copy)]
pub enum Mode {
    /// No token.
    Blank,
    /// A name, a word or a number.
    Word,
    /// Operators that touch each other.
    Sign,
    /// A bracket, `;`, `,`, `:`, or the end of a string.
    Mark,
    /// A `/` that may begin a comment or a regular expression.
    Slash,
    /// A comment that its line ends.
    Line,
    /// A block comment.
    Block,
    /// A `*` in a block comment.
    Star,
    /// A string, a template or a regular expression that this byte ends. `[`: a class of a regular expression.
    Quoted(u8),
    /// A `$` in a template.
    Dollar,
    /// A backslash in one.
    Escaped(u8),
}

/// Whether a byte ends a line.
pub(crate) fn is_newline(byte: u8) -> bool
    ensures { result ≡ bytes.is_newline byte }
{
    byte == b'\n' || byte == b'\r'
}

/// Whether a byte stands between tokens.
pub(crate) fn is_blank(byte: u8) -> bool
    ensures { result ≡ bytes.is_blank byte }
{
    byte <= b' '
}

/// Whether a byte is one of a name or a number.
pub fn is_word(byte: u8) -> bool
    ensures { result ≡ bytes.is_word byte }
{
    match byte {
        b'_' | b'$' | b'#' | b'@' | b'\\' => true,
        b'a'..=b'z' | b'A'..=b'Z' | b'0'..=b'9' | 128..=255 => true,
        _ => false,
    }
}

/// Whether a byte is one of an operator.
fn is_sign(byte: u8) -> bool
    ensures { result ≡ bytes.is_sign byte }
{
    match byte {
        b'!' | b'%' | b'&' | b'*' | b'+' | b'-' | b'.' => true,
        b'<' | b'=' | b'>' | b'?' | b'^' | b'|' | b'~' => true,
        _ => false,
    }
}

/// Whether a byte begins a string or a template.
fn is_quote(byte: u8) -> bool
    ensures { result ≡ bytes.is_quote byte }
{
    byte == b'\'' || byte == b'"' || byte == b'`'
}

/// Whether a byte ends what a `/` behind it would divide.
fn ends_operand(byte: u8) -> bool
    ensures { result ≡ bytes.ends_operand byte }
{
    is_word(byte) || is_quote(byte) || byte == b')' || byte == b']' || byte == b'}'
}

/// What a byte begins.
#[tactic(auto, unfolding(crate::specs::Bytes::begun))]
fn begun(byte: u8) -> Mode
    ensures { result ≡ bytes.begun byte }
{
    if is_blank(byte) {
        Mode::Blank
    } else if is_word(byte) {
        Mode::Word
    } else if is_sign(byte) {
        Mode::Sign
    } else if is_quote(byte) {
        Mode::Quoted(byte)
    } else if byte == b'/' {
        Mode::Slash
    } else {
        Mode::Mark
    }
}

/// What a byte in a class of a regular expression is part of. A `/` does not end the expression there.
#[tactic(auto, unfolding(crate::specs::Bytes::in_class))]
fn in_class(byte: u8) -> Mode
    ensures { result ≡ bytes.in_class byte }
{
    if byte == b'\\' {
        Mode::Escaped(b'[')
    } else if byte == b']' {
        Mode::Quoted(b'/')
    } else if is_newline(byte) {
        Mode::Blank
    } else {
        Mode::Quoted(b'[')
    }
}

/// What a byte of a string is part of. Its line ends it too, but no template.
#[tactic(auto, unfolding(crate::specs::Bytes::quoted))]
fn quoted(quote: u8, byte: u8) -> Mode
    ensures { result ≡ bytes.quoted quote byte }
{
    if quote == b'[' {
        in_class(byte)
    } else if byte == b'\\' {
        Mode::Escaped(quote)
    } else if byte == quote {
        Mode::Mark
    } else if quote == b'/' && byte == b'[' {
        Mode::Quoted(b'[')
    } else if quote == b'`' && byte == b'$' {
        Mode::Dollar
    } else if is_newline(byte) && quote != b'`' {
        Mode::Blank
    } else {
        Mode::Quoted(quote)
    }
}

/// What a byte behind a `/` is part of; `last` is the last byte before that.
#[tactic(auto, unfolding(crate::specs::Bytes::behind_slash))]
fn behind_slash(last: u8, byte: u8) -> Mode
    ensures { result ≡ bytes.behind_slash last byte }
{
    if byte == b'/' {
        Mode::Line
    } else if byte == b'*' {
        Mode::Block
    } else if ends_operand(last) {
        begun(byte)
    } else {
        quoted(b'/', byte)
    }
}

/// What a byte behind a `$` in a template is part of: `{` opens a bracket.
#[tactic(auto, unfolding(crate::specs::Bytes::behind_dollar))]
fn behind_dollar(byte: u8) -> Mode
    ensures { result ≡ bytes.behind_dollar byte }
{
    if byte == b'{' {
        Mode::Mark
    } else {
        quoted(b'`', byte)
    }
}

/// What a byte in a block comment is part of, where a `*` stands before it or not.
#[tactic(auto, unfolding(crate::specs::Bytes::in_block))]
fn in_block(is_behind_star: bool, byte: u8) -> Mode
    ensures { result ≡ bytes.in_block is_behind_star byte }
{
    if is_behind_star && byte == b'/' {
        Mode::Blank
    } else if byte == b'*' {
        Mode::Star
    } else {
        Mode::Block
    }
}

/// What a byte is part of, by what the one before is part of.
#[tactic(auto, unfolding(crate::specs::Bytes::next_mode))]
pub(crate) fn next_mode(mode: Mode, last: u8, byte: u8) -> Mode
    ensures { result ≡ bytes.next_mode mode last byte }
{
    match mode {
        Mode::Line => {
            if is_newline(byte) {
                Mode::Blank
            } else {
                Mode::Line
            }
        }
        Mode::Block => in_block(false, byte),
        Mode::Star => in_block(true, byte),
        Mode::Quoted(quote) => quoted(quote, byte),
        Mode::Escaped(quote) => Mode::Quoted(quote),
        Mode::Dollar => behind_dollar(byte),
        Mode::Slash => behind_slash(last, byte),
        Mode::Blank | Mode::Word | Mode::Sign | Mode::Mark => begun(byte),
    }
}

/// Whether a token that goes on up to a byte ends before it.
#[tactic(auto, unfolding(crate::specs::Bytes::ends_before))]
pub(crate) fn ends_before(mode: Mode, last: u8, byte: u8) -> bool
    ensures { result ≡ bytes.ends_before mode last byte }
{
    match mode {
        Mode::Word => !is_word(byte),
        Mode::Sign => !is_sign(byte),
        Mode::Mark => true,
        Mode::Slash => ends_operand(last) && byte != b'/' && byte != b'*',
        Mode::Quoted(quote) => is_newline(byte) && quote != b'`',
        Mode::Dollar => byte == b'{',
        Mode::Blank | Mode::Line | Mode::Block | Mode::Star | Mode::Escaped(_) => false,
    }
}

/// Whether it is a `$` in a template.
#[tactic(auto, unfolding(crate::specs::Bytes::is_dollar))]
pub(crate) fn is_dollar(mode: Mode) -> bool
    ensures { result ≡ bytes.is_dollar mode }
{
    matches!(mode, Mode::Dollar)
}

/// Whether it is part of a token.
#[tactic(auto, unfolding(crate::specs::Bytes::is_token))]
pub(crate) fn is_token(mode: Mode) -> bool
    ensures { result ≡ bytes.is_token mode }
{
    match mode {
        Mode::Blank | Mode::Line | Mode::Block | Mode::Star => false,
        Mode::Word | Mode::Sign | Mode::Mark | Mode::Slash => true,
        Mode::Quoted(_) | Mode::Escaped(_) | Mode::Dollar => true,
    }
}
