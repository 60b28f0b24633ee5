//! Faults in lines: `LOW..HIGH KIND: TEXT`, and in parentheses behind it what the kind holds and its text does not say.

use std::alloc::AllocError;
use swc_ecma_parser_common::{Atom, Span};
use swc_ecma_parser_error::{Error, Labelled, SyntaxError};

/// Writes a name with what a kind holds.
fn write_name(out: &mut String, name: &str, text: &Atom) -> Result<(), AllocError> {
    let text = text.as_str();
    write!(out, " ({name} {text})")
}

/// Writes a place that a kind holds.
fn write_place(out: &mut String, name: &str, span: Span) -> Result<(), AllocError> {
    let low = span.lo.0;
    let high = span.hi.0;
    write!(out, " ({name} {low}..{high})")
}

/// Writes what a refusal with a place is of, and the note on it.
fn write_labelled(out: &mut String, labelled: &Labelled) -> Result<(), AllocError> {
    let name = labelled.inner.kind.name();
    let note = labelled.note.as_str();
    write_place(out, "of", labelled.inner.span)?;
    write!(out, " (kind {name})")?;
    write_place(out, "at", labelled.span)?;
    write!(out, " (note {note})")
}

/// Writes what a kind holds and its text does not say.
fn write_held(out: &mut String, kind: &SyntaxError) -> Result<(), AllocError> {
    match kind {
        SyntaxError::DuplicateLabel(text) => write_name(out, "label", text.get()),
        SyntaxError::ExportExpectFrom(text) => write_name(out, "name", text.get()),
        SyntaxError::TS1089(text) => write_name(out, "modifier", text.get()),
        SyntaxError::InvalidIdentInStrict(text) => write_name(out, "word", text.get()),
        SyntaxError::ImportBindingIsString(text) => write_name(out, "string", text.get()),
        SyntaxError::ExpectedSemiForExprStmt { expr } => write_place(out, "expression", *expr),
        SyntaxError::MultipleDefault { previous } => write_place(out, "previous", *previous),
        SyntaxError::WithLabel(labelled) => write_labelled(out, labelled.get()),
        _ => Ok(()),
    }
}

/// Writes the line of a fault behind a word.
pub fn write_fault(out: &mut String, word: &str, error: &Error) -> Result<(), AllocError> {
    let low = error.span.lo.0;
    let high = error.span.hi.0;
    let name = error.kind.name();
    write!(out, "{word}{low}..{high} {name}: {error}")?;
    write_held(out, &error.kind)?;
    out.push('\n')
}

/// Writes a line for each fault.
pub fn write_faults(out: &mut String, word: &str, faults: &[Error]) -> Result<(), AllocError> {
    for fault in faults {
        write_fault(out, word, fault)?;
    }
    Ok(())
}
