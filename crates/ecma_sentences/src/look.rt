//! What stands around a fault of a text.

ghost use Rattle.std.specs.Prelude.{◌≡◌, ◌≤◌};
ghost use Rattle.ecma_sentences.specs.Look as spec;
ghost use Rattle.ecma_sentences.specs.Look.{look_at};
ghost use Rattle.ecma_situations.specs.Looked.{looked};

use crate::payload::{found_of, wanted_of};
use ecma_outline::{Lexeme, Open, Source, piece};
use ecma_situations::Look;
use swc_ecma_parser_common::Span;
use swc_ecma_parser_error::Error;

/// The text of a place.
fn cut<'a>(source: &Source<'a>, span: Span) -> &'a str
    ensures { result.now ≡ spec.cut source.now.text span }
{
    piece(
        source.places().text(),
        span.lo.0 as usize,
        span.hi.0 as usize,
    )
}

/// Where a fault is looked at: where it begins, or the end where the text ends there.
fn place_of(source: &Source<'_>, error: &Error) -> usize
    ensures { result ≡ spec.place_of source.now.text error.now }
{
    if found_of(&error.kind) == "<eof>" {
        source.places().text().len()
    } else {
        error.span.lo.0 as usize
    }
}

/// Which token stands at a fault.
pub(crate) fn index_of(source: &Source<'_>, error: &Error) -> usize
    ensures { result ≡ spec.found_at source.now.text error.now }
{
    source.index(place_of(source, error))
}

/// The token at a fault, or that behind it.
pub(crate) fn lexeme_of(source: &Source<'_>, error: &Error) -> Lexeme
    ensures { result ≡ spec.found_lexeme source.now.text error.now }
{
    source.lexeme(index_of(source, error))
}

/// The innermost bracket that is open at a fault.
pub(crate) fn opener_of(source: &Source<'_>, error: &Error) -> Open
    ensures { result ≡ spec.opener_of source.now.text error.now }
{
    source.bracket_at(lexeme_of(source, error).top)
}

/// Whether a fault is within a token, as between signs that touch.
fn is_within(source: &Source<'_>, error: &Error) -> bool
    ensures { result ≡ spec.is_within source.now.text error.now }
{
    lexeme_of(source, error).start < place_of(source, error)
}

/// The token so many before a fault; where the fault is within a token what of that stands before it is the first of them.
fn before<'a>(source: &Source<'a>, error: &Error, by: usize) -> &'a str
    requires { 1 ≤ by }
    ensures { result.now ≡ spec.text_before source.now.text error.now by }
{
    let n = index_of(source, error);
    if !is_within(source, error) {
        return source.spelled(source.lexeme_before(n, by));
    }
    if by == 1 {
        let start = lexeme_of(source, error).start;
        return piece(source.places().text(), start, place_of(source, error));
    }
    source.spelled(source.lexeme_before(n, by - 1))
}

/// The token at a fault, or what of it stands behind.
fn found<'a>(source: &Source<'a>, error: &Error) -> &'a str
    ensures { result.now ≡ spec.found_text source.now.text error.now }
{
    let it = lexeme_of(source, error);
    if is_within(source, error) {
        return piece(source.places().text(), place_of(source, error), it.end);
    }
    source.spelled(it)
}

/// What stands around a fault.
#[tactic(auto, unfolding(crate::specs::Look::look_at))]
pub(crate) fn look<'a>(source: &'a Source<'_>, error: &'a Error) -> Look<'a>
    ensures { looked result ≡ look_at source.now.text error.now }
{
    let is_end = found_of(&error.kind) == "<eof>";
    let n = index_of(source, error);
    let it = lexeme_of(source, error);
    let around = opener_of(source, error);
    Look {
        earlier: before(source, error, 2),
        before: before(source, error, 1),
        found: found(source, error),
        after: source.spelled(source.lexeme_behind(n)),
        opener: source.bracket(it.top),
        head: source.spelled(source.lexeme_before(around.lexeme, 1)),
        owner: source.spelled(source.lexeme_before(around.closed, 1)),
        callee: source.spelled(source.lexeme_before(it.closed, 1)),
        wanted: wanted_of(&error.kind),
        token: cut(source, error.span),
        is_end,
        is_within: is_within(source, error),
    }
}
