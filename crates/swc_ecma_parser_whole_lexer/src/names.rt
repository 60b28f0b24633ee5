//! Names that are written with escapes: ECMA-262, "Names and Keywords" (section 12.7).

ghost use Rattle.std.specs.Prelude.{◌≡◌, true, None, IfOk, MatchOption, string_bytes};
ghost use Rattle.std.specs.Str.{chars};
ghost use Rattle.swc_ecma_parser_lexer.specs.declared.escape.Escape.TheVariants as escape;
ghost use Rattle.swc_ecma_parser_whole_lexer.specs.Names as read;
ghost use Rattle.swc_ecma_parser_whole_lexer.specs.Runs.{HasChars};

use crate::run::push_some;
use std::alloc::{AllocError, Global};
use swc_ecma_parser_lexer::{Escape, Turn, escaped, lossy};
use swc_ecma_parser_scan::{first_char, is_name_part, is_name_start};

/// What one more character of a name leads to, and what it says.
#[derive(Clone, Copy)]
struct NameTurn {
    state: Escape,
    said: Option<char>,
}

/// Whether a name may have this character, at its start or behind it.
#[tactic(auto, unfolding(crate::specs::Names::is_part))]
fn is_part(is_start: bool, c: char) -> bool
    ensures { result ≡ read.is_part is_start c }
{
    if is_start {
        is_name_start(c)
    } else {
        is_name_part(c)
    }
}

#[tactic(auto, unfolding(crate::specs::Names::silent))]
fn silent(state: Escape) -> Option<NameTurn>
    ensures { result ≡ read.silent state }
{
    Some(NameTurn { state, said: None })
}

#[tactic(auto, unfolding(crate::specs::Names::says))]
fn says(is_start: bool, c: char) -> Option<NameTurn>
    ensures { result ≡ read.says is_start c }
{
    if is_part(is_start, c) {
        Some(NameTurn {
            state: Escape::Text,
            said: Some(c),
        })
    } else {
        None
    }
}

/// An escape goes on, if it is one.
#[tactic(auto, unfolding(crate::specs::Names::turned))]
fn turned(is_start: bool, turn: Turn) -> Option<NameTurn>
    ensures { result ≡ read.turned is_start turn }
{
    match turn.unit {
        Some(unit) => says(is_start, lossy(unit)),
        None => match turn.state {
            Escape::Wrong => None,
            state => silent(state),
        },
    }
}

/// One more character of a name, or nothing where it does not belong to it. `is_start`: nothing was said yet.
#[tactic(auto, unfolding(crate::specs::Names::step))]
fn step(is_start: bool, state: Escape, c: char) -> Option<NameTurn>
    ensures { result ≡ read.step is_start state c }
{
    match state {
        Escape::Text => if c == '\\' {
            silent(Escape::Backslash)
        } else {
            says(is_start, c)
        },
        Escape::Backslash => if c == 'u' {
            silent(Escape::Unicode)
        } else {
            None
        },
        _ => turned(is_start, escaped('\\', state, c)),
    }
}

#[tactic(auto, unfolding(crate::specs::Names::is_outside))]
fn is_outside(state: Escape) -> bool
    ensures { result ≡ read.is_outside state }
{
    match state {
        Escape::Text => true,
        _ => false,
    }
}

/// A name ends here, if nothing is left open in it.
#[tactic(auto, unfolding(crate::specs::Names::ends))]
fn ended(is_start: bool, state: Escape, rest: &str) -> Option<&str>
    ensures { let behind = read.ends is_start state (chars rest.now) in
        MatchOption result (behind ≡ None) (λ rest. HasChars behind rest.now) }
{
    if is_outside(state) && !is_start {
        Some(rest)
    } else {
        None
    }
}

/// The text behind the name that it begins with, if it begins with one.
pub fn past_name(text: &str) -> Option<&str>
    ensures { let behind = read.past_name true escape.Text (chars text.now) in
        MatchOption result (behind ≡ None) (λ rest. HasChars behind rest.now) }
{
    let mut state = Escape::Text;
    let mut is_start = true;
    let mut rest = text;
    while let Some((c, behind)) = first_char(rest) {
        match step(is_start, state, c) {
            Some(turn) => {
                state = turn.state;
                is_start = is_start & turn.said.is_none();
                rest = behind;
            }
            None => return ended(is_start, state, rest),
        }
    }
    ended(is_start, state, rest)
}

/// The same of a character that belongs to a name.
#[tactic(auto, unfolding(crate::specs::Names::turn_of))]
fn turn_of(state: Escape, c: char) -> NameTurn
    ensures { result ≡ read.turn_of state c }
{
    match step(false, state, c) {
        Some(turn) => turn,
        None => NameTurn { state, said: None },
    }
}

/// What a name says, which is all of a text.
pub fn name_said(alloc: Global, name: &str) -> Result<String, AllocError>
    ensures { IfOk result
        (λ said. string_bytes said ≡ read.name_said escape.Text (chars name.now)) }
{
    let mut said = String::new(alloc);
    let mut state = Escape::Text;
    let mut rest = name;
    while let Some((c, behind)) = first_char(rest) {
        let turn = turn_of(state, c);
        push_some(&mut said, turn.said)?;
        state = turn.state;
        rest = behind;
    }
    Ok(said)
}
