//! What is told of a text, one by one.

ghost use Rattle.std.specs.Prelude.{◌≡◌, ◌++◌, IfErr, IfOk, OnOk};
ghost use Rattle.std.specs.List.{flat_map};
ghost use Rattle.ecma_link.specs.Calls.{IsReason};
ghost use Rattle.ecma_link.specs.Faults as list;
ghost use Rattle.ecma_link.specs.Faults.{AreFaults, Ends, IsCall, IsFault, words_of};

use crate::failure::Failure;
use crate::given::text_of;
use crate::options::{EcmaOptions, options_of};
use crate::room::put;
use ecma_answers::{Outcome, Point, Previous, Severity, Told, find, left_out, told_faults};
use std::alloc::{AllocError, Global};

/// A place.
#[repr(C)]
#[derive(Clone, Copy)]
pub struct EcmaPoint {
    /// Bytes of UTF-8 before it.
    pub byte: u64,
    /// Code units of UTF-16 before it.
    pub unit: u64,
    /// From 1.
    pub line: u64,
    /// From 1, in code units of UTF-16.
    pub column: u64,
}

/// A fault or an early error. Its words stand among those of all.
#[repr(C)]
#[derive(Clone, Copy)]
pub struct EcmaFault {
    /// How many bytes this struct has: 192.
    pub struct_size: u64,
    /// 0 for a fault that was recorded, 1 for an early error, 2 for why there is no tree.
    pub severity: u64,
    pub start: EcmaPoint,
    pub end: EcmaPoint,
    /// Where the name of its kind begins, and how many bytes it has.
    pub kind_at: u64,
    pub kind_length: u64,
    /// Where its sentence begins, and how many bytes it has.
    pub message_at: u64,
    pub message_length: u64,
    /// Another place that it speaks of, as an earlier declaration; zeros, where there is none.
    pub previous_start: EcmaPoint,
    pub previous_end: EcmaPoint,
    /// Where the words for that place begin, and how many bytes they have: 0, where there is none.
    pub note_at: u64,
    pub note_length: u64,
}

/// How many bytes `EcmaFault` has.
const FAULT_SIZE: u64 = 192;

/// How much room faults take.
#[repr(C)]
#[derive(Clone, Copy)]
pub struct EcmaNeeded {
    /// How many bytes this struct has: 32.
    pub struct_size: usize,
    /// How many faults and early errors there are.
    pub faults: usize,
    /// How many bytes their words have.
    pub words: usize,
    /// How many more there are, and are not among these.
    pub more: usize,
}

/// How many bytes `EcmaNeeded` has.
const NEEDED_SIZE: usize = 32;

/// A place as C takes it.
fn point_of(point: Point) -> EcmaPoint
    ensures { result ≡ list.point_of point }
{
    EcmaPoint {
        byte: point.byte as u64,
        unit: point.unit,
        line: point.line,
        column: point.column,
    }
}

/// No place.
const NOWHERE: EcmaPoint = EcmaPoint {
    byte: 0,
    unit: 0,
    line: 0,
    column: 0,
};

/// The number of a severity.
fn severity_number(severity: Severity) -> u64
    ensures { result ≡ list.severity_number severity }
{
    match severity {
        Severity::Fault => 0,
        Severity::Error => 1,
        Severity::Refusal => 2,
    }
}

/// The words for another place; none, where there is none.
fn note_of(previous: Option<Previous>) -> &'static str
    ensures { result.now ≡ list.note_of previous }
{
    match previous {
        Some(it) => it.note,
        None => "",
    }
}

/// Where another place begins; nowhere, where there is none.
fn start_of(previous: Option<Previous>) -> EcmaPoint
    ensures { result ≡ list.start_of previous }
{
    match previous {
        Some(it) => point_of(it.start),
        None => NOWHERE,
    }
}

/// The same of its end.
fn end_of(previous: Option<Previous>) -> EcmaPoint
    ensures { result ≡ list.end_of previous }
{
    match previous {
        Some(it) => point_of(it.end),
        None => NOWHERE,
    }
}

/// A fault as C takes it, and its words behind those of others.
#[tactic(auto, using(crate::proofs::Words::first_piece, crate::proofs::Words::middle_piece, crate::proofs::Words::last_piece))]
fn fault_of(words: &mut Vec<u8>, told: &Told) -> Result<EcmaFault, AllocError>
    ensures fault { IfOk result (IsFault words.new.items told.now) }
    ensures words { OnOk result (words.new.items ≡ words.old.items ++ words_of told.now) }
{
    let kind_at = words.len();
    words.extend_from_slice(told.kind.as_bytes())?;
    let message_at = words.len();
    words.extend_from_slice(told.message.as_bytes())?;
    let note = note_of(told.previous);
    let note_at = words.len();
    words.extend_from_slice(note.as_bytes())?;
    Ok(EcmaFault {
        struct_size: FAULT_SIZE,
        severity: severity_number(told.severity),
        start: point_of(told.start),
        end: point_of(told.end),
        kind_at: kind_at as u64,
        kind_length: told.kind.len() as u64,
        message_at: message_at as u64,
        message_length: told.message.len() as u64,
        previous_start: start_of(told.previous),
        previous_end: end_of(told.previous),
        note_at: note_at as u64,
        note_length: note.len() as u64,
    })
}

/// How a text comes out, and what is told of it.
#[derive(Drop)]
struct Found {
    outcome: Outcome,
    faults: Vec<EcmaFault>,
    words: Vec<u8>,
    /// How many more there are.
    more: usize,
}

/// What is told, as C takes it.
#[tactic(auto, using(crate::proofs::Words::faults_more))]
fn listed(alloc: Global, outcome: Outcome, told: &[Told], more: usize) -> Result<Found, AllocError>
    ensures outcome { IfOk result (λ it. it.outcome ≡ outcome) }
    ensures more { IfOk result (λ it. it.more ≡ more) }
    ensures faults { IfOk result (λ it. AreFaults it.words.items told.now it.faults.items) }
    ensures words { IfOk result (λ it. it.words.items ≡ flat_map words_of told.now) }
{
    let mut faults = Vec::new(alloc);
    let mut words = Vec::new(alloc);
    for it in told {
        let fault = fault_of(&mut words, it)?;
        faults.push(fault)?;
    }
    Ok(Found {
        outcome,
        faults,
        words,
        more,
    })
}

/// The faults of a text.
#[tactic(auto, using(crate::proofs::Reasons::unknown, crate::proofs::Reasons::no_memory, crate::proofs::Reasons::bad_text))]
fn read_faults(alloc: Global, text: &[u8], options: &EcmaOptions) -> Result<Found, Failure>
    ensures found { IfOk result
        (λ it. IsCall options.now text.now it.outcome it.faults.items it.words.items it.more) }
    ensures failure { IfErr result (IsReason options.now text.now) }
{
    let options = options_of(options)?;
    let text = text_of(text)?;
    let found = find(alloc, options, text)?;
    let outcome = found.outcome();
    let most = options.max_faults;
    let told = told_faults(alloc, most, text, &found);
    let more = left_out(found.reading.faults.len() + found.early.len(), most);
    found.discard();
    Ok(listed(alloc, outcome, told?.as_slice(), more)?)
}

/// Writes the faults of a text and their words to the fronts of two rooms, if both are long enough. `needed` becomes how much they take.
#[tactic(auto, using(crate::proofs::Reasons::unanswered_faults, crate::proofs::Reasons::no_room))]
pub(crate) fn put_faults(
    alloc: Global,
    text: &[u8],
    options: &EcmaOptions,
    faults: &mut [EcmaFault],
    words: &mut [u8],
    needed: &mut EcmaNeeded,
) -> Result<Outcome, Failure>
    ensures { Ends options.now text.now result faults.old faults.new words.old words.new
        needed.new }
{
    *needed = EcmaNeeded {
        struct_size: NEEDED_SIZE,
        faults: 0,
        words: 0,
        more: 0,
    };
    let found = read_faults(alloc, text, options)?;
    let items = found.faults.as_slice();
    let bytes = found.words.as_slice();
    *needed = EcmaNeeded {
        struct_size: NEEDED_SIZE,
        faults: items.len(),
        words: bytes.len(),
        more: found.more,
    };
    if faults.len() < items.len() {
        return Err(Failure::TooShort);
    }
    put(bytes, words)?;
    put(items, faults)?;
    Ok(found.outcome)
}
