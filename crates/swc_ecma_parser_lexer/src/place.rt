//! Places in a text, and the next token from a place on.

ghost use Rattle.std.specs.Prelude.{◌≡◌, [], ◌==◌, ◌+◌, false, length, IfNone, MatchOption};
ghost use Rattle.swc_ecma_parser_scan.specs.Scan.{IsFirstPiece};
ghost use Rattle.swc_ecma_parser_lexer.specs.Collected.{IsReadOn, comments_at};
ghost use Rattle.swc_ecma_parser_lexer.specs.Blanks as blank;
ghost use Rattle.swc_ecma_parser_lexer.specs.Tokens as read;

use crate::blank::blanks;
use crate::comment::CommentList;
use crate::make::{fault, token_of};
use std::alloc::Global;
use swc_ecma_parser_common::{BytePos, Span};
use swc_ecma_parser_error::SyntaxError;
use swc_ecma_parser_scan::{Piece, State, scan};
use swc_ecma_parser_token::{Token, TokenAndSpan};

/// A place in a text.
#[derive(Clone, Copy, Debug, PartialEq, Eq)]
pub struct Place<'a> {
    /// Where the text starts.
    pub start: BytePos,
    /// How many bytes stand before the place.
    pub at: u32,
    /// Whether a line break stands between the place and the token before it.
    pub had_line_break: bool,
    /// The text behind the place.
    pub rest: &'a str,
}

impl<'a> Place<'a> {
    /// Goes past the token at a place further on. Behind it stands no line break yet.
    #[inline(always)]
    pub(crate) fn go_past(&mut self, place: Place<'a>, piece: Piece<'a>)
        requires start { place.start ≡ self.old.start }
        requires fits { read.Fits place }
        requires piece { IsFirstPiece (place.at == 0) place.rest.now piece }
        requires token { read.is_skipped piece.state ≡ false }
        ensures { read.IsPast place.entry piece.entry self.new }
    {
        self.at = place.at + piece.text.len() as u32;
        self.had_line_break = false;
        self.rest = piece.rest;
    }
}

/// A place and the token there, or the end of the text.
#[derive(Clone, Copy)]
pub struct Found<'a> {
    pub place: Place<'a>,
    pub piece: Option<Piece<'a>>,
}

/// White space, a line terminator or a comment.
#[tactic(auto, unfolding(crate::specs::Tokens::is_skipped))]
fn is_skipped(state: State) -> bool
    ensures { result ≡ read.is_skipped state }
{
    match state {
        State::Space => true,
        State::LineBreak => true,
        State::LineComment => true,
        State::BlockCommentEnd(_) => true,
        _ => false,
    }
}

/// Whether a piece has a line break in it that counts: section 12.4 for those in comments.
#[tactic(auto, unfolding(crate::specs::Tokens::breaks))]
fn breaks(state: State) -> bool
    ensures { result ≡ read.breaks state }
{
    match state {
        State::LineBreak => true,
        State::BlockCommentEnd(breaks) => breaks,
        _ => false,
    }
}

/// The span of the piece at a place.
pub fn span_of(place: Place, piece: Piece) -> Span
    requires fits { read.Fits place }
    requires piece { IsFirstPiece (place.at == 0) place.rest.now piece }
    ensures { result
        ≡ read.span_at (place.entry.start.0 + place.entry.at) (length piece.entry.text.now) }
{
    let low = place.start.0 + place.at;
    let high = low + piece.text.len() as u32;
    Span {
        lo: BytePos(low),
        hi: BytePos(high),
    }
}

/// The place behind the piece at a place.
pub fn past<'a>(place: Place<'a>, piece: Piece<'a>) -> Place<'a>
    requires fits { read.Fits place }
    requires piece { IsFirstPiece (place.at == 0) place.rest.now piece }
    ensures { read.IsPast place.entry piece.entry result }
{
    Place {
        start: place.start,
        at: place.at + piece.text.len() as u32,
        had_line_break: is_skipped(piece.state) & (place.had_line_break | breaks(piece.state)),
        rest: piece.rest,
    }
}

/// The place behind the spaces and line breaks that are ASCII.
fn past_blanks(first: Place<'_>) -> Place<'_>
    requires { read.Fits first }
    ensures { blank.IsBehindBlanks first.entry result }
{
    let blanks = blanks(first.had_line_break, first.rest);
    Place {
        start: first.start,
        at: first.at + blanks.size as u32,
        had_line_break: blanks.had_line_break,
        rest: blanks.rest,
    }
}

/// Goes past white space, line terminators and comments.
pub fn find<'a>(first: Place<'a>, comments: &mut CommentList) -> Found<'a>
    requires { read.Fits first }
    ensures tokens { read.tokens_at first.entry ≡ read.tokens_at result.place }
    ensures alike { read.AreAlike first.entry result.place }
    ensures behind { read.IsBehind first.entry result.place }
    ensures start { result.place.start ≡ first.entry.start }
    ensures fits { read.Fits result.place }
    ensures comments { IsReadOn comments.old first.entry comments.new result.place }
    ensures piece { MatchOption result.piece (read.tokens_at result.place ≡ [])
        (λ piece. read.IsToken result.place piece) }
    ensures ended { IfNone result.piece (comments_at result.place ≡ []) }
{
    let mut place = past_blanks(first);
    while let Some(piece) = scan(place.at == 0, place.rest) {
        if !is_skipped(piece.state) {
            return Found {
                place,
                piece: Some(piece),
            };
        }
        comments.note(piece.state, piece.text, span_of(place, piece));
        place = past_blanks(past(place, piece));
    }
    Found { place, piece: None }
}

/// The token that a piece spells at a place, or an error token where there is no memory for its text.
#[inline(always)]
pub fn spelled(alloc: Global, place: Place, piece: Piece) -> TokenAndSpan
    requires fits { read.Fits place }
    requires piece { IsFirstPiece (place.at == 0) place.rest.now piece }
    ensures { read.IsSpelled place.entry piece.entry result }
{
    let span = span_of(place, piece);
    let token = token_or_fault(alloc, piece.state, piece.text, span);
    TokenAndSpan {
        token,
        had_line_break: place.had_line_break,
        span,
    }
}

/// The token that a piece spells, or an error token where there is no memory for its text.
#[tactic(auto, unfolding(crate::specs::Make::fault))]
pub fn token_or_fault(alloc: Global, state: State, text: &str, span: Span) -> Token
    ensures token { read.IsTokenOrFault (read.token_of state text.now span) result }
    ensures lost { read.IsLost (read.token_of state text.now span) result }
{
    match token_of(alloc, state, text, span) {
        Ok(token) => token,
        Err(_) => fault(SyntaxError::OutOfMemory, span),
    }
}
