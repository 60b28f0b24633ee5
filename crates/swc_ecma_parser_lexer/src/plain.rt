//! String literals without an escape: what stands between the quotes is what they say.

ghost use Rattle.std.specs.Prelude.{◌≡◌, ◌<◌, [], ◌∷◌, ◌++◌, None, true, IfSome};
ghost use Rattle.std.specs.Str.{chars, IsUtf8};
ghost use Rattle.swc_ecma_parser_lexer.specs.Plain as plain;
ghost use Rattle.swc_ecma_parser_lexer.specs.Strings as read;
ghost use Rattle.swc_ecma_parser_lexer.specs.declared.escape.Escape.TheVariants as escape;

/// Whether neither a quote nor a backslash is among the bytes.
fn is_plain(quote: u8, bytes: &[u8]) -> bool
    ensures { result ≡ plain.is_plain quote bytes.now }
{
    for byte in bytes {
        if (*byte == quote) | (*byte == b'\\') {
            return false;
        }
    }
    true
}

/// The text between two bytes of a mark, if a text begins and ends so.
fn between(mark: u8, text: &str) -> Option<&str>
    requires { mark < 128 }
    ensures text { IfSome result (λ inner. text.now ≡ mark ∷ (inner.now ++ mark ∷ [])) }
    ensures utf8 { IfSome result (λ inner. IsUtf8 inner.now) }
{
    let bytes = text.as_bytes();
    if bytes.len() < 2 {
        return None;
    }
    let end = bytes.len() - 1;
    let first = bytes[0];
    let last = bytes[end];
    if first != mark {
        return None;
    }
    if last != mark {
        return None;
    }
    Some(&text[1..end])
}

/// The byte of a quote.
fn byte_of(quote: char) -> Option<u8>
    ensures { IfSome result (λ byte. (byte ≡ quote) × (byte < 128)) }
{
    if quote == '"' {
        Some(b'"')
    } else if quote == '\'' {
        Some(b'\'')
    } else {
        None
    }
}

/// The text between the quotes of a literal, if it has no further quote and no escape.
pub fn plain_text(quote: char, literal: &str) -> Option<&str>
    ensures well { IfSome result
        (λ _. read.is_well_escaped quote escape.Text (chars literal.now) ≡ true) }
    ensures value { IfSome result
        (λ inner. read.value_of quote escape.Text None (chars literal.now) ≡ inner.now) }
{
    let mark = byte_of(quote)?;
    let inner = between(mark, literal)?;
    if is_plain(mark, inner.as_bytes()) {
        Some(inner)
    } else {
        None
    }
}
