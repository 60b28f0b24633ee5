//! Reserved words and names: ECMA-262, sections 12.7.2 and 13.1.

ghost use Rattle.std.specs.Prelude.{◌≡◌, map, count_by};
ghost use Rattle.std.specs.Str.{bytes_eq};
ghost use Rattle.swc_ecma_parser_grammar.specs.Follows as follows;
ghost use Rattle.swc_ecma_parser_grammar.specs.Names as names;

use swc_ecma_parser_common::Atom;
use swc_ecma_parser_input::Context;
use swc_ecma_parser_token::{Token, Word};

/// Reserved in every context.
const RESERVED_WORDS: [&str; 36] = [
    "break",
    "case",
    "catch",
    "continue",
    "debugger",
    "default",
    "do",
    "else",
    "finally",
    "for",
    "function",
    "if",
    "return",
    "switch",
    "throw",
    "try",
    "var",
    "const",
    "while",
    "with",
    "new",
    "this",
    "super",
    "class",
    "extends",
    "export",
    "import",
    "in",
    "instanceof",
    "typeof",
    "void",
    "delete",
    "null",
    "true",
    "false",
    "enum",
];

/// Reserved in strict mode code.
const STRICT_WORDS: [&str; 8] = [
    "let",
    "yield",
    "implements",
    "interface",
    "package",
    "private",
    "protected",
    "public",
];

fn is_one_of(words: &[&str], text: &str) -> bool
    ensures { result ≡ names.is_one_of (map (λ word. word.now) words.now) text.now }
{
    words.iter().any(|word| text == *word)
}

/// Whether a text is one of these labels: ECMA-262, section 14.13.
pub fn is_label(labels: &[Atom], text: &str) -> bool
    ensures { result ≡ names.is_one_of labels.now text.now }
{
    labels.iter().any(|label| text == label.as_str())
}

/// How many of these labels have a text.
pub fn count_labels(labels: &[Atom], text: &str) -> usize
    ensures { result ≡ count_by (λ label. bytes_eq text.now label) labels.now }
{
    labels.iter().filter(|label| text == label.as_str()).count()
}

pub fn is_reserved_word(text: &str) -> bool
    ensures { result ≡ names.is_one_of names.reserved_words text.now }
{
    is_one_of(&RESERVED_WORDS, text)
}

pub fn is_strict_word(text: &str) -> bool
    ensures { result ≡ names.is_one_of names.strict_words text.now }
{
    is_one_of(&STRICT_WORDS, text)
}

#[tactic(auto, unfolding(swc_ecma_parser_grammar::specs::Names::is_reserved))]
fn is_reserved(flags: Context, text: &str) -> bool
    ensures { result ≡ names.is_reserved flags text.now }
{
    is_reserved_word(text)
        || flags.strict && is_strict_word(text)
        || flags.in_generator && text == "yield"
}

/// Whether a word names something here without a fault: `await` does not in module code, in async code and in static blocks.
#[tactic(auto, unfolding(swc_ecma_parser_grammar::specs::Names::is_name, swc_ecma_parser_grammar::specs::Names::is_clean_name))]
pub fn is_name(flags: Context, text: &str) -> bool
    ensures { result ≡ names.is_name flags text.now }
{
    let is_unclean = flags.module || (flags.in_async || flags.in_static_block);
    is_identifier(flags, text) && !(text == "await" && is_unclean)
}

/// Whether `await` that is bound is a fault where it is no clean name, and not refused.
#[tactic(auto, unfolding(swc_ecma_parser_grammar::specs::Names::may_bind_await))]
pub fn may_bind_await(flags: Context) -> bool
    ensures { result ≡ names.may_bind_await flags }
{
    !flags.in_static_block
}

/// The same of `await` that refers to something.
#[tactic(auto, unfolding(swc_ecma_parser_grammar::specs::Names::may_refer_to_await))]
pub fn may_refer_to_await(flags: Context) -> bool
    ensures { result ≡ names.may_refer_to_await flags }
{
    !(flags.in_async || flags.in_static_block)
}

/// Whether a word is not reserved here.
#[tactic(auto, unfolding(swc_ecma_parser_grammar::specs::Names::is_identifier))]
pub fn is_identifier(flags: Context, text: &str) -> bool
    ensures { result ≡ names.is_identifier flags text.now }
{
    !is_reserved(flags, text)
}

/// Whether `let` before this token begins a declaration.
pub fn follows_let(token: &Token) -> bool
    ensures { result ≡ follows.token_follows_let token.now }
{
    match token {
        Token::LBrace | Token::LBracket => true,
        Token::Word(word) => !is_reserved_word(word.as_str()) || word.as_str() == "enum",
        _ => false,
    }
}
