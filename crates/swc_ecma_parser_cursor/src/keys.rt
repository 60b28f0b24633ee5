//! What stands behind a key.

ghost use Rattle.std.specs.Prelude.{◌≡◌};
ghost use Rattle.swc_ecma_parser_reader.specs.Methods as methods;

use swc_ecma_parser_token::TokenKind;

/// Whether a word before this token is a key, and no `get`, `set` or `async` of a method: ECMA-262, section 15.4.
pub fn ends_key(kind: TokenKind) -> bool
    ensures { result ≡ methods.ends_key kind }
{
    matches!(
        kind,
        TokenKind::LParen
            | TokenKind::Comma
            | TokenKind::Colon
            | TokenKind::RBrace
            | TokenKind::Assign
    )
}
