//! Whether a word is reserved here, and whether it is a name without a fault.

ghost use Rattle.std.specs.Prelude.{◌≡◌};
ghost use Rattle.swc_ecma_parser_token.specs.Text.{word_text};
ghost use Rattle.swc_ecma_parser_grammar.specs.Names as names;
ghost use Rattle.swc_ecma_parser_reserved.specs.Words as words;

use crate::special::is_special;
use swc_ecma_parser_cursor::{is_identifier, is_name};
use swc_ecma_parser_input::Context;
use swc_ecma_parser_token::{Keyword, Word};

/// Whether a keyword is not reserved here.
#[inline]
#[tactic(auto, unfolding(crate::specs::Words::is_free_keyword))]
fn is_free_keyword(flags: Context, keyword: Keyword) -> bool
    ensures { result ≡ words.is_free_keyword flags keyword }
{
    match keyword {
        Keyword::Await => true,
        Keyword::Let => !flags.strict,
        Keyword::Yield => !(flags.strict || flags.in_generator),
        _ => false,
    }
}

/// Whether a keyword names something here without a fault.
#[inline]
#[tactic(auto, unfolding(crate::specs::Words::is_clean_keyword))]
fn is_clean_keyword(flags: Context, keyword: Keyword) -> bool
    ensures { result ≡ words.is_clean_keyword flags keyword }
{
    match keyword {
        Keyword::Await => !(flags.module || (flags.in_async || flags.in_static_block)),
        _ => is_free_keyword(flags, keyword),
    }
}

/// A special text that is not reserved here. It is asked of few words, and stands apart so that others pass by it.
#[inline(never)]
fn is_free_text(flags: Context, text: &str) -> bool
    ensures { result ≡ names.is_identifier flags text.now }
{
    is_identifier(flags, text)
}

/// The same of names without a fault.
#[inline(never)]
fn is_clean_text(flags: Context, text: &str) -> bool
    ensures { result ≡ names.is_name flags text.now }
{
    is_name(flags, text)
}

/// Not reserved; a text that is no special one is none.
#[inline]
#[tactic(auto, unfolding(crate::specs::Words::is_free_word))]
fn is_free_word(flags: Context, word: &Word) -> bool
    ensures { result ≡ words.is_free_word flags word.now }
{
    match word {
        Word::Keyword(keyword) => is_free_keyword(flags, *keyword),
        Word::Null => false,
        Word::True => false,
        Word::False => false,
        Word::Ident(text) | Word::Escaped(text) => if is_special(text.as_str()) {
            is_free_text(flags, text.as_str())
        } else {
            true
        },
    }
}

/// The same of names without a fault.
#[inline]
#[tactic(auto, unfolding(crate::specs::Words::is_clean_word))]
fn is_clean_word(flags: Context, word: &Word) -> bool
    ensures { result ≡ words.is_clean_word flags word.now }
{
    match word {
        Word::Keyword(keyword) => is_clean_keyword(flags, *keyword),
        Word::Null => false,
        Word::True => false,
        Word::False => false,
        Word::Ident(text) | Word::Escaped(text) => if is_special(text.as_str()) {
            is_clean_text(flags, text.as_str())
        } else {
            true
        },
    }
}

/// Whether a word is not reserved in code with these flags: ECMA-262, section 12.7.2.
#[inline]
pub fn is_free(flags: Context, word: &Word) -> bool
    ensures { result ≡ names.is_identifier flags (word_text word.now) }
{
    is_free_word(flags, word)
}

/// Whether a word is a name in code with these flags, and no fault as one: ECMA-262, section 13.1.
#[inline]
pub fn is_clean(flags: Context, word: &Word) -> bool
    ensures { result ≡ names.is_name flags (word_text word.now) }
{
    is_clean_word(flags, word)
}
