//! What is told of a text, one by one.

ghost use Rattle.std.specs.Prelude.{◌≡◌, ◌++◌, ◌<◌, ◌^◌, ℕ, List, IfOk, OnOk, length};
ghost use Rattle.ecma_sentences.specs.Note.{noted};
ghost use Rattle.ecma_answers.specs.declared.told.Severity.TheVariants as severity;
ghost use Rattle.ecma_answers.specs.declared.told.Told.{Told};
ghost use Rattle.ecma_answers.specs.Listed.{lined};
ghost use Rattle.ecma_answers.specs.Told.{AllTold, AreAllTold, AreTold, AreToldEarly, IsPrevious, IsRefusal, IsTold, IsToldEarly, point_at};

use crate::cap::{early_front, front};
use crate::faults::Telling;
use crate::findings::Findings;
use crate::parsing::Tree;
use ecma_early::{name, sentence};
use ecma_estree_text::Places;
use ecma_events::EarlyError;
use ecma_faults::{Note, Source, early_note, message, note_of};
use std::alloc::{AllocError, Global};
use swc_ecma_parser::error::{Error, PResult};

/// A place as JavaScript's tools count it.
#[derive(Clone, Copy)]
pub struct Point {
    /// In bytes of UTF-8.
    pub byte: u32,
    /// In code units of UTF-16.
    pub unit: u64,
    /// From 1.
    pub line: u64,
    /// From 1, in code units of UTF-16.
    pub column: u64,
}

/// How much a fault weighs.
#[derive(Clone, Copy)]
pub enum Severity {
    /// It was recorded, and the parser went on.
    Fault,
    /// An early error of the tree.
    Error,
    /// It is why there is no tree.
    Refusal,
}

/// Another place that a fault speaks of: an earlier declaration, the bracket that is open.
#[derive(Clone, Copy)]
pub struct Previous {
    /// What stands there.
    pub note: &'static str,
    pub start: Point,
    pub end: Point,
}

/// A fault, told.
#[derive(Drop)]
pub struct Told {
    pub severity: Severity,
    /// The name of its kind.
    pub kind: &'static str,
    pub message: String,
    pub start: Point,
    pub end: Point,
    pub previous: Option<Previous>,
}

/// A place of a text whose lines are known.
#[tactic(auto, using(ecma_faults::proofs::Columns::column_bound))]
fn point_of(places: &Places<'_>, byte: u32) -> Point
    requires text { length places.now.text < 2 ^ 32 }
    requires lines { places.now ≡ lined places.now.text }
    ensures { result ≡ point_at places.now.text byte }
{
    let unit = places.at(byte as usize);
    let spot = places.spot(byte as usize).unwrap();
    Point {
        byte,
        unit,
        line: spot.line,
        column: spot.column + 1,
    }
}

/// The other place of a fault, if it speaks of one.
fn previous_of(places: &Places<'_>, note: Option<Note>) -> Option<Previous>
    requires text { length places.now.text < 2 ^ 32 }
    requires lines { places.now ≡ lined places.now.text }
    ensures { IsPrevious places.now.text (noted note) result }
{
    match note {
        Some(note) => Some(Previous {
            note: note.sentence,
            start: point_of(places, note.span.lo.0),
            end: point_of(places, note.span.hi.0),
        }),
        None => None,
    }
}

/// A fault, told.
fn told_of(
    alloc: Global,
    source: &Source<'_>,
    error: &Error,
    severity: Severity,
) -> Result<Told, AllocError>
    requires text { length source.now.text < 2 ^ 32 }
    requires lines { source.now ≡ lined source.now.text }
    ensures { IfOk result (IsTold source.now.text severity error.now) }
{
    Ok(Told {
        severity,
        kind: error.kind.name(),
        message: message(alloc, source, error)?,
        start: point_of(source.places(), error.span.lo.0),
        end: point_of(source.places(), error.span.hi.0),
        previous: previous_of(source.places(), note_of(source, error)),
    })
}

/// An early error, told.
fn told_early(alloc: Global, source: &Source<'_>, error: EarlyError) -> Result<Told, AllocError>
    requires text { length source.now.text < 2 ^ 32 }
    requires lines { source.now ≡ lined source.now.text }
    ensures { IfOk result (IsToldEarly source.now.text error) }
{
    Ok(Told {
        severity: Severity::Error,
        kind: name(error.kind),
        message: String::from_str(alloc, sentence(error.kind))?,
        start: point_of(source.places(), error.span.lo.0),
        end: point_of(source.places(), error.span.hi.0),
        previous: previous_of(source.places(), early_note(error)),
    })
}

/// The faults that were recorded, told.
#[tactic(auto, using(crate::proofs::Listing::told_more))]
fn recorded(alloc: Global, source: &Source<'_>, faults: &[Error]) -> Result<Vec<Told>, AllocError>
    requires text { length source.now.text < 2 ^ 32 }
    requires lines { source.now ≡ lined source.now.text }
    ensures { IfOk result (λ list. AreTold source.now.text faults.now list.items) }
{
    let mut list = Vec::new(alloc);
    for fault in faults {
        let it = told_of(alloc, source, fault, Severity::Fault)?;
        list.push(it)?;
    }
    Ok(list)
}

/// Early errors, told.
#[tactic(auto, using(crate::proofs::Listing::early_more))]
fn errors_told(
    alloc: Global,
    source: &Source<'_>,
    errors: &[EarlyError],
) -> Result<Vec<Told>, AllocError>
    requires text { length source.now.text < 2 ^ 32 }
    requires lines { source.now ≡ lined source.now.text }
    ensures { IfOk result (λ list. AreToldEarly source.now.text errors.now list.items) }
{
    let mut list = Vec::new(alloc);
    for error in errors {
        let it = told_early(alloc, source, *error)?;
        list.push(it)?;
    }
    Ok(list)
}

/// Tells why there is no tree.
fn push_refusal(
    alloc: Global,
    out: &mut Vec<Told>,
    source: &Source<'_>,
    tree: &PResult<Tree>,
) -> Result<(), AllocError>
    requires text { length source.now.text < 2 ^ 32 }
    requires lines { source.now ≡ lined source.now.text }
    ensures { OnOk result
        ((it : List Told) × IsRefusal source.now.text tree.now it
        × (out.new.items ≡ out.old.items ++ it)) }
{
    if let Err(error) = tree {
        let it = told_of(alloc, source, error, Severity::Refusal)?;
        out.push(it)?;
    }
    Ok(())
}

/// What is told of a text of which something is told, one by one.
fn list_of(alloc: Global, text: &str, told: Telling<'_>) -> Result<Vec<Told>, AllocError>
    requires { length text.now < 2 ^ 32 }
    ensures { IfOk result
        (λ list. AreAllTold text.now told.entry.tree.now told.entry.faults.now
        told.entry.early.now list.items) }
{
    let source = Source::new(alloc, text)?;
    let mut list = recorded(alloc, &source, told.faults)?;
    let mut errors = errors_told(alloc, &source, told.early)?;
    push_refusal(alloc, &mut errors, &source, told.tree)?;
    list.append(&mut errors)?;
    Ok(list)
}

/// The same of a text of which nothing may be told. Lines are counted only where something is.
fn list_if_any(alloc: Global, text: &str, told: Telling<'_>) -> Result<Vec<Told>, AllocError>
    requires { length text.now < 2 ^ 32 }
    ensures { IfOk result
        (λ list. AreAllTold text.now told.entry.tree.now told.entry.faults.now
        told.entry.early.now list.items) }
{
    if told.tree.is_ok() && told.faults.is_empty() && told.early.is_empty() {
        return Ok(Vec::new(alloc));
    }
    list_of(alloc, text, told)
}

/// What is told of a text, one by one: the first of the faults that were recorded and of the early errors behind them, so many at most (all of
/// them, where that is 0), and why there is no tree. It fails only where memory runs out.
pub fn told_faults(
    alloc: Global,
    most: u32,
    text: &str,
    found: &Findings,
) -> Result<Vec<Told>, AllocError>
    requires { length text.now < 2 ^ 32 }
    ensures { IfOk result (λ list. AllTold most text.now found.now list.items) }
{
    let faults = found.reading.faults.as_slice();
    let told = Telling {
        tree: &found.reading.tree,
        faults: front(faults, most),
        early: early_front(found.early.as_slice(), faults.len(), most),
    };
    list_if_any(alloc, text, told)
}
