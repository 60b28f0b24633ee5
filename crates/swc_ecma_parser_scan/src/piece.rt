//! Pieces of a text: tokens, comments, white space and line breaks. Each character is looked at a bounded number of
//! times, and nothing is allocated.

ghost use Rattle.std.specs.Prelude.{◌≡◌, ◌==◌, ◌||◌, ◌<◌, ◌++◌, [], List, ℕ, true, get_or, IfSome, MatchOption};
ghost use Rattle.std.specs.Str.{chars, IsUtf8};
ghost use Rattle.swc_ecma_parser_scan.specs.Lone as lone;
ghost use Rattle.swc_ecma_parser_scan.specs.Scan as read;
ghost use Rattle.swc_ecma_parser_scan.specs.declared.state.State.TheVariants as state;

use crate::chars::{first_char, is_name_start};
use crate::run::past_run;
use crate::state::{Mark, State};
use crate::step::{begin, step};
use swc_ecma_parser_token::{AssignOp, BinOpToken};

/// How far a piece goes.
#[derive(Clone, Copy)]
pub struct Munched<'a> {
    state: State,
    /// The text behind the piece.
    rest: &'a str,
}

/// A piece of the text and the text behind it.
#[derive(Clone, Copy)]
pub struct Piece<'a> {
    pub state: State,
    pub text: &'a str,
    pub rest: &'a str,
}

/// Reads on, as far as the piece goes.
fn munch(first: State, text: &str) -> Munched<'_>
    ensures state { result.state ≡ (read.munch first (chars text.now)).state }
    ensures rest { chars result.rest.now ≡ (read.munch first (chars text.now)).left }
    ensures utf8 { IsUtf8 result.rest.now }
{
    let mut state = first;
    let mut rest = past_run(first, text);
    while let Some((c, behind)) = first_char(rest) {
        match step(state, c) {
            Some(next) => {
                state = next;
                rest = past_run(next, behind);
            }
            None => return Munched { state, rest },
        }
    }
    Munched { state, rest }
}

/// Gives back the second dot of `..`, which is no token.
#[tactic(auto, unfolding(crate::specs::Scan::settled))]
fn settle<'a>(behind: &'a str, munched: Munched<'a>) -> Munched<'a>
    ensures state { result.state
        ≡ (read.settled (chars behind.entry.now)
        (record {
          taken = [];
          left = chars munched.entry.rest.now;
          state = munched.entry.state;
        })).state }
    ensures rest { chars result.rest.now
        ≡ (read.settled (chars behind.entry.now)
        (record {
          taken = [];
          left = chars munched.entry.rest.now;
          state = munched.entry.state;
        })).left }
    ensures utf8 { IsUtf8 munched.entry.rest.now → IsUtf8 result.rest.now }
{
    match munched.state {
        State::Mark(Mark::DotDot) => Munched {
            state: State::Mark(Mark::Dot),
            rest: behind,
        },
        _ => munched,
    }
}

/// The text before the rest of it.
fn before<'a>(text: &'a str, rest: &str) -> &'a str
    requires { (taken : List ℕ) × (text.now ≡ taken ++ rest.now) }
    ensures { text.entry.now ≡ result.now ++ rest.now }
{
    let length = text.len() - rest.len();
    &text[..length]
}

/// A mark that nothing goes on with.
fn lone_mark(c: char) -> Option<Mark>
    ensures { IfSome result (λ mark. lone.IsLone c mark) }
{
    match c {
        '(' => Some(Mark::LParen),
        ')' => Some(Mark::RParen),
        '[' => Some(Mark::LBracket),
        ']' => Some(Mark::RBracket),
        '{' => Some(Mark::LBrace),
        '}' => Some(Mark::RBrace),
        ';' => Some(Mark::Semi),
        ',' => Some(Mark::Comma),
        ':' => Some(Mark::Colon),
        _ => None,
    }
}

/// Whether a text does not begin with a character beyond ASCII.
fn is_ascii_ahead(text: &str) -> bool
    ensures { result ≡ true → get_or text.now 0 0 < 128 }
{
    let bytes = text.as_bytes();
    bytes.is_empty() || bytes[0] < 128
}

/// A piece that is neither a name of ASCII nor a mark that nothing goes on with. `behind`: the text behind its first
/// character.
#[inline(never)]
fn other<'a>(first: State, behind: &'a str, text: &'a str) -> Munched<'a>
    ensures state { result.state
        ≡ (read.settled (chars behind.entry.now) (read.munch first (chars text.entry.now))).state }
    ensures rest { chars result.rest.now
        ≡ (read.settled (chars behind.entry.now) (read.munch first (chars text.entry.now))).left }
    ensures utf8 { IsUtf8 result.rest.now }
{
    settle(behind, munch(first, text))
}

/// A name that goes on with a character beyond ASCII, or ends before one.
fn long_name<'a>(behind: &'a str, rest: &'a str) -> Munched<'a>
    ensures state { result.state
        ≡ (read.settled (chars behind.entry.now)
        (read.munch state.Name (chars rest.entry.now))).state }
    ensures rest { chars result.rest.now
        ≡ (read.settled (chars behind.entry.now)
        (read.munch state.Name (chars rest.entry.now))).left }
    ensures utf8 { IsUtf8 result.rest.now }
{
    other(State::Name, behind, rest)
}

/// A name, of which `behind` stands behind the first character.
fn name(behind: &str) -> Munched<'_>
    ensures state { result.state
        ≡ (read.settled (chars behind.now) (read.munch state.Name (chars behind.now))).state }
    ensures rest { chars result.rest.now
        ≡ (read.settled (chars behind.now) (read.munch state.Name (chars behind.now))).left }
    ensures utf8 { IsUtf8 result.rest.now }
{
    let rest = past_run(State::Name, behind);
    if is_ascii_ahead(rest) {
        Munched {
            state: State::Name,
            rest,
        }
    } else {
        long_name(behind, rest)
    }
}

/// An operator of one character, or `?`: each ends before a space.
fn operator(c: char) -> Option<State>
    ensures { IfSome result (λ found. lone.IsBefore c 32 found) }
{
    match c {
        '=' => Some(State::AssignOp(AssignOp::Assign)),
        '<' => Some(State::BinOp(BinOpToken::Lt)),
        '>' => Some(State::BinOp(BinOpToken::Gt)),
        '+' => Some(State::BinOp(BinOpToken::Add)),
        '-' => Some(State::BinOp(BinOpToken::Sub)),
        '*' => Some(State::BinOp(BinOpToken::Mul)),
        '/' => Some(State::BinOp(BinOpToken::Div)),
        '%' => Some(State::BinOp(BinOpToken::Mod)),
        '|' => Some(State::BinOp(BinOpToken::BitOr)),
        '&' => Some(State::BinOp(BinOpToken::BitAnd)),
        '?' => Some(State::Mark(Mark::QuestionMark)),
        _ => None,
    }
}

/// A `.` before a letter, or an operator before a space: it ends there.
fn mark_before(c: char, next: u8) -> Option<State>
    ensures { IfSome result (λ found. lone.IsBefore c next found) }
{
    if c == '.' {
        if b'A' <= next && next < 128 {
            Some(State::Mark(Mark::Dot))
        } else {
            None
        }
    } else if next == b' ' {
        operator(c)
    } else {
        None
    }
}

/// The same, if the text behind the character begins so.
fn mark_at(c: char, behind: &str) -> Option<State>
    ensures { IfSome result (λ found. lone.IsAt c (chars behind.now) found) }
{
    let bytes = behind.as_bytes();
    if bytes.len() == 0 {
        None
    } else {
        mark_before(c, bytes[0])
    }
}

/// A piece that is read on to its end.
fn long(is_first: bool, c: char, behind: &str) -> Munched<'_>
    ensures state { result.state ≡ (read.scan is_first c (chars behind.now)).state }
    ensures rest { chars result.rest.now ≡ (read.scan is_first c (chars behind.now)).left }
    ensures utf8 { IsUtf8 result.rest.now }
{
    other(begin(is_first, c), behind, behind)
}

/// Whether a character begins a string.
fn is_quote(c: char) -> bool
    ensures { result ≡ (c == 39) || (c == 34) }
{
    (c == '\'') | (c == '"')
}

/// A string without an escape, which ends where its quote stands again. `behind`: the text behind its first quote.
fn quoted(c: char, behind: &str) -> Option<Munched<'_>>
    ensures { IfSome result (λ munched. lone.IsWhole c (chars behind.now) munched) }
{
    if !is_quote(c) {
        return None;
    }
    let rest = past_run(State::Str(c), behind);
    let bytes = rest.as_bytes();
    if bytes.len() == 0 || bytes[0] as char != c {
        return None;
    }
    Some(Munched {
        state: State::StrEnd(c),
        rest: &rest[1..],
    })
}

/// How far the piece goes that a character begins.
fn whole(is_first: bool, c: char, behind: &str) -> Munched<'_>
    ensures state { result.state ≡ (read.scan is_first c (chars behind.now)).state }
    ensures rest { chars result.rest.now ≡ (read.scan is_first c (chars behind.now)).left }
    ensures utf8 { IsUtf8 result.rest.now }
{
    if is_name_start(c) {
        name(behind)
    } else if let Some(mark) = lone_mark(c) {
        Munched {
            state: State::Mark(mark),
            rest: behind,
        }
    } else if let Some(state) = mark_at(c, behind) {
        Munched {
            state,
            rest: behind,
        }
    } else if let Some(munched) = quoted(c, behind) {
        munched
    } else {
        long(is_first, c, behind)
    }
}

/// The first piece of a text, if it is not empty. `is_first`: nothing stands before the text.
pub fn scan(is_first: bool, text: &str) -> Option<Piece<'_>>
    ensures { MatchOption result (chars text.now ≡ [])
        (λ piece. read.IsFirstPiece is_first text.now piece) }
{
    let (c, behind) = first_char(text)?;
    let munched = whole(is_first, c, behind);
    Some(Piece {
        state: munched.state,
        text: before(text, munched.rest),
        rest: munched.rest,
    })
}
