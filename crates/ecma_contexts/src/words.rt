//! Words that strict code treats in its own way.

ghost use Rattle.std.specs.Prelude.{◌≡◌};
ghost use Rattle.ecma_contexts.specs.Contexts as rule;

/// Whether it is `eval` or `arguments`.
pub(crate) fn is_restricted(text: &str) -> bool
    ensures { result ≡ rule.is_restricted text.now }
{
    text == "eval" || text == "arguments"
}

/// Whether strict code reserves it.
pub(crate) fn is_strict_word(text: &str) -> bool
    ensures { result ≡ rule.is_strict_word text.now }
{
    text == "implements"
        || text == "interface"
        || text == "let"
        || text == "package"
        || text == "private"
        || text == "protected"
        || text == "public"
        || text == "static"
        || text == "yield"
}
