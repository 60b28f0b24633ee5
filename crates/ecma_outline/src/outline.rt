//! The tokens of a text, and which brackets are open at each, told by single bytes. A sentence on a fault looks there at what stands around it.

ghost use Rattle.std.specs.Prelude.{◌≡◌, ◌++◌, ◌+◌, ◌<◌, ◌≤◌, ◌^◌, IfOk, OnOk, length};
ghost use Rattle.ecma_outline.specs.Outline as outline;
ghost use Rattle.ecma_outline.specs.Outline.{IsOutline, scan, scanned, start, step};

use crate::bytes::{Mode, ends_before, is_blank, is_dollar, is_newline, is_token, next_mode};
use std::alloc::{AllocError, Global};

/// A token, and what stood open where it begins.
#[derive(Clone, Copy)]
pub struct Lexeme {
    /// In bytes.
    pub start: usize,
    pub end: usize,
    /// Which of the brackets is the innermost open one; 0 is none.
    pub top: usize,
    /// Where the first bracket is that is closed inside of it by one of another indentation; 0 is none.
    pub misfit: usize,
    /// Which token is the bracket that was closed last.
    pub closed: usize,
}

/// A bracket that opens.
#[derive(Clone, Copy)]
pub struct Open {
    /// In bytes.
    pub at: usize,
    /// How many blanks its line begins with, that of the `(` where it stands behind a `)`.
    pub indent: usize,
    /// Which bracket is the innermost open one around it; 0 is none.
    pub parent: usize,
    /// Which token it is.
    pub lexeme: usize,
    /// Which token is the bracket that was closed last before it.
    pub closed: usize,
    /// Whether it stands behind the `$` of a template, which goes on where it is closed.
    pub is_part: bool,
}

/// What is known before a byte.
#[derive(Clone, Copy)]
pub struct State {
    /// In bytes.
    pub at: usize,
    pub mode: Mode,
    /// The last byte of a token that is no `/`.
    pub last: u8,
    /// Whether no token of the line has begun. A line of a template is one with that before it.
    pub is_fresh: bool,
    /// How many blanks the line begins with.
    pub indent: usize,
    /// The indentation of the bracket that was closed last.
    pub hold: usize,
    pub top: usize,
    pub misfit: usize,
    pub closed: usize,
    /// The token that has begun last.
    pub pending: Lexeme,
}

/// No bracket.
pub(crate) fn no_open() -> Open
    ensures { result ≡ outline.no_open }
{
    Open {
        at: 0,
        indent: 0,
        parent: 0,
        lexeme: 0,
        closed: 0,
        is_part: false,
    }
}

/// A token without bytes at an offset, where so much stands open.
fn empty_at(state: State) -> Lexeme
    ensures { result ≡ outline.empty_at state }
{
    Lexeme {
        start: state.at,
        end: state.at,
        top: state.top,
        misfit: state.misfit,
        closed: state.closed,
    }
}

/// The token that ends.
fn ended(state: State) -> Lexeme
    ensures { result ≡ outline.ended state }
{
    let begun = state.pending;
    Lexeme {
        start: begun.start,
        end: state.at,
        top: begun.top,
        misfit: begun.misfit,
        closed: begun.closed,
    }
}

/// No token.
pub(crate) fn no_lexeme() -> Lexeme
    ensures { result ≡ outline.no_lexeme }
{
    Lexeme {
        start: 0,
        end: 0,
        top: 0,
        misfit: 0,
        closed: 0,
    }
}

/// The start of a text.
fn outset() -> State
    ensures { result ≡ outline.outset }
{
    State {
        at: 0,
        mode: Mode::Blank,
        last: 0,
        is_fresh: true,
        indent: 0,
        hold: 0,
        top: 0,
        misfit: 0,
        closed: 0,
        pending: no_lexeme(),
    }
}

/// Whether a token ends before a byte.
fn ends(state: State, byte: u8) -> bool
    ensures { result ≡ outline.ends state byte }
{
    ends_before(state.mode, state.last, byte)
}

/// Whether a token begins with a byte.
fn begins(state: State, byte: u8) -> bool
    ensures { result ≡ outline.begins state byte }
{
    let is_in = is_token(next_mode(state.mode, state.last, byte));
    is_in && (!is_token(state.mode) || ends(state, byte))
}

/// Whether a byte is a bracket that opens.
fn opens(state: State, byte: u8) -> bool
    ensures { result ≡ outline.opens state byte }
{
    begins(state, byte) && (byte == b'(' || byte == b'[' || byte == b'{')
}

/// Whether a byte is a bracket that closes.
fn closes(state: State, byte: u8) -> bool
    ensures { result ≡ outline.closes state byte }
{
    begins(state, byte) && (byte == b')' || byte == b']' || byte == b'}')
}

/// The indentation that belongs to a bracket that opens here.
fn indent_of(state: State) -> usize
    ensures { result ≡ outline.indent_of state }
{
    if state.last == b')' {
        state.hold
    } else {
        state.indent
    }
}

/// The bracket that opens here.
fn opened(state: State, lexeme: usize) -> Open
    ensures { result ≡ outline.opened state lexeme }
{
    Open {
        at: state.at,
        indent: indent_of(state),
        parent: state.top,
        lexeme,
        closed: state.closed,
        is_part: is_dollar(state.mode),
    }
}

/// The first bracket of those inside of what is open that another indentation closes, once `around` is closed: only a bracket that is the first of its
/// line tells of one.
fn misfit_behind(state: State, around: Open) -> usize
    ensures { result ≡ outline.misfit_behind state around }
{
    if !state.is_fresh {
        state.misfit
    } else if around.at < state.misfit {
        if state.indent == around.indent {
            0
        } else {
            state.misfit
        }
    } else if state.indent == around.indent {
        state.misfit
    } else {
        around.at
    }
}

/// What a bracket that closes another is part of: a template where a `}` closes one that stands in it.
fn mode_closed(mode: Mode, around: Open, byte: u8) -> Mode
    ensures { result ≡ outline.mode_closed mode around byte }
{
    if around.is_part && byte == b'}' {
        Mode::Quoted(b'`')
    } else {
        mode
    }
}

/// The same with the brackets that are open behind a byte; `around` is the innermost one before it, and `count` how many have opened before.
#[tactic(auto, unfolding(crate::specs::Outline::with_brackets))]
fn with_brackets(state: State, next: State, around: Open, count: usize, byte: u8) -> State
    ensures value { result ≡ outline.with_brackets state next around count byte }
    ensures at { result.at ≡ next.at }
    ensures indent { result.indent ≡ next.indent }
{
    let mut next = next;
    if opens(state, byte) {
        next.top = count;
    } else if closes(state, byte) {
        next.mode = mode_closed(next.mode, around, byte);
        next.hold = around.indent;
        next.top = around.parent;
        next.misfit = misfit_behind(state, around);
        next.closed = around.lexeme;
    }
    next
}

/// Whether a byte ends a line, by what it is part of: none ends within a token, as in a template.
fn ends_line(mode: Mode, byte: u8) -> bool
    ensures { result ≡ outline.ends_line mode byte }
{
    is_newline(byte) && !is_token(mode)
}

/// The indentation of a line with a byte more.
fn indent_behind(state: State, mode: Mode, byte: u8) -> usize
    requires { state.indent < 2 ^ 33 }
    ensures value { result ≡ outline.indent_behind state mode byte }
    ensures bound { result ≤ state.indent + 1 }
{
    if ends_line(mode, byte) {
        0
    } else if state.is_fresh && is_blank(byte) {
        state.indent + 1
    } else {
        state.indent
    }
}

/// The last byte of a token, with a byte more.
fn last_behind(state: State, mode: Mode, byte: u8) -> u8
    ensures { result ≡ outline.last_behind state mode byte }
{
    if is_token(mode) && byte != b'/' {
        byte
    } else {
        state.last
    }
}

/// What is known behind a byte, but of brackets.
#[tactic(auto, unfolding(crate::specs::Outline::along))]
fn along(state: State, byte: u8) -> State
    requires at { state.at < 2 ^ 33 }
    requires indent { state.indent < 2 ^ 33 }
    ensures value { result ≡ outline.along state byte }
    ensures at { result.at ≡ state.at + 1 }
    ensures indent { result.indent ≤ state.indent + 1 }
{
    let mode = next_mode(state.mode, state.last, byte);
    let begins = begins(state, byte);
    let mut next = state;
    next.at = state.at + 1;
    next.mode = mode;
    next.last = last_behind(state, mode, byte);
    next.is_fresh = ends_line(mode, byte) || state.is_fresh && !begins;
    next.indent = indent_behind(state, mode, byte);
    if begins {
        next.pending = empty_at(state);
    }
    next
}

/// A bracket by its number; 0 is none.
#[tactic(auto, using(crate::proofs::Outlines::open_in, crate::proofs::Outlines::open_past))]
pub(crate) fn open_at(opens: &[Open], n: usize) -> Open
    ensures { result ≡ outline.open_at opens.now n }
{
    if n < opens.len() { opens[n] } else { no_open() }
}

/// A token by its number.
#[tactic(auto, using(crate::proofs::Outlines::lexeme_in, crate::proofs::Outlines::lexeme_past))]
pub(crate) fn lexeme_at(lexemes: &[Lexeme], n: usize) -> Lexeme
    ensures { result ≡ outline.lexeme_at lexemes.now n }
{
    if n < lexemes.len() {
        lexemes[n]
    } else {
        no_lexeme()
    }
}

/// A number of a list; 0 where there is none.
#[tactic(auto, using(crate::proofs::Outlines::count_in, crate::proofs::Outlines::count_past))]
pub(crate) fn count_at(counts: &[usize], n: usize) -> usize
    ensures { result ≡ outline.count_at counts.now n }
{
    if n < counts.len() { counts[n] } else { 0 }
}

/// The tokens of a text in order and one at its end, its brackets, and for each byte and the end the number of the token there or behind.
#[derive(Drop)]
pub struct Outline {
    pub lexemes: Vec<Lexeme>,
    pub opens: Vec<Open>,
    pub counts: Vec<usize>,
}

/// Adds the token that ends before a byte, if one does.
fn push_ended(lexemes: &mut Vec<Lexeme>, state: State, byte: u8) -> Result<(), AllocError>
    ensures { OnOk result
        (lexemes.new.items ≡ lexemes.old.items ++ outline.ended_before state byte) }
{
    if ends(state, byte) {
        lexemes.push(ended(state))?;
    }
    Ok(())
}

/// Adds a bracket that opens, if a byte is one.
fn push_opened(
    opened_before: &mut Vec<Open>,
    state: State,
    lexeme: usize,
    byte: u8,
) -> Result<(), AllocError>
    ensures { OnOk result
        (opened_before.new.items
        ≡ opened_before.old.items ++ outline.opened_at state lexeme byte) }
{
    if opens(state, byte) {
        opened_before.push(opened(state, lexeme))?;
    }
    Ok(())
}

impl Outline {
    /// Takes a byte in.
    #[tactic(auto, unfolding(crate::specs::Outline::scanned, crate::specs::Outline::step))]
    fn step(&mut self, state: State, byte: u8) -> Result<State, AllocError>
        requires at { state.at < 2 ^ 33 }
        requires indent { state.indent < 2 ^ 33 }
        ensures steps { IfOk result
            (λ next. scanned next self.new ≡ step (scanned state self.old) byte) }
        ensures at { IfOk result (λ next. next.at ≡ state.at + 1) }
        ensures indent { IfOk result (λ next. next.indent ≤ state.indent + 1) }
    {
        let around = open_at(self.opens.as_slice(), state.top);
        let count = self.opens.len();
        push_ended(&mut self.lexemes, state, byte)?;
        push_opened(&mut self.opens, state, self.lexemes.len(), byte)?;
        self.counts.push(self.lexemes.len())?;
        Ok(with_brackets(state, along(state, byte), around, count, byte))
    }

    /// An outline of no text.
    #[tactic(auto, unfolding(crate::specs::Outline::scanned))]
    fn empty(alloc: Global) -> Result<Outline, AllocError>
        ensures { IfOk result (λ it. scanned outline.outset it ≡ start) }
    {
        let mut opens = Vec::new(alloc);
        opens.push(no_open())?;
        Ok(Outline {
            lexemes: Vec::new(alloc),
            opens,
            counts: Vec::new(alloc),
        })
    }
}

/// Takes all bytes of a text in.
#[tactic(auto, using(crate::proofs::Outlines::scan_more, crate::proofs::Outlines::scan_all))]
fn take_all(it: &mut Outline, text: &str) -> Result<State, AllocError>
    requires text { length text.now < 2 ^ 32 }
    requires empty { scanned outline.outset it.old ≡ start }
    ensures read { IfOk result (λ state. scanned state it.new ≡ scan start text.now) }
    ensures at { IfOk result (λ state. state.at ≤ length text.now) }
    ensures indent { IfOk result (λ state. state.indent ≤ length text.now) }
{
    let mut state = outset();
    for byte in text.as_bytes() {
        let next = it.step(state, *byte)?;
        state = next;
    }
    Ok(state)
}

/// Ends the last token of a text, and adds one without bytes at its end.
#[tactic(auto, using(crate::proofs::Outlines::finished))]
fn close(it: &mut Outline, text: &str, state: State) -> Result<(), AllocError>
    requires at { state.at < 2 ^ 33 }
    requires indent { state.indent < 2 ^ 33 }
    requires read { scanned state it.old ≡ scan start text.now }
    ensures { OnOk result (IsOutline text.now it.new) }
{
    let last = it.step(state, b'\n')?;
    it.lexemes.push(empty_at(last))?;
    Ok(())
}

/// The tokens of a text.
pub(crate) fn outline_of(alloc: Global, text: &str) -> Result<Outline, AllocError>
    requires { length text.now < 2 ^ 32 }
    ensures { IfOk result (IsOutline text.now) }
{
    let mut it = Outline::empty(alloc)?;
    let state = take_all(&mut it, text)?;
    close(&mut it, text, state)?;
    Ok(it)
}
