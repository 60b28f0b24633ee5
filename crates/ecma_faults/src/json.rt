//! Faults as JSON: one object a line.

ghost use Rattle.std.specs.Prelude.{◌≡◌, ◌++◌, ◌<◌, ◌^◌, OnOk, length};
ghost use Rattle.ecma_faults.specs.Json as json;
ghost use Rattle.ecma_sentences.specs.Note.{noted};
ghost use Rattle.ecma_faults.specs.Json.{fault_json, first, head_json, key, note_json, offsets_json, place_json, span_json, spot_json};

use ecma_estree_text::{Places, Spot, push_count, push_quoted};
use ecma_outline::Source;
use ecma_sentences::{Note, message, note_of};
use std::alloc::AllocError;
use swc_ecma_parser_common::Span;
use swc_ecma_parser_error::Error;

/// Writes how a further field begins.
#[tactic(auto, unfolding(crate::specs::Json::key))]
fn push_key(out: &mut Vec<u8>, name: &str) -> Result<(), AllocError>
    ensures { OnOk result (out.new.items ≡ out.old.items ++ key name.now) }
{
    out.extend_from_slice(b",\"")?;
    out.extend_from_slice(name.as_bytes())?;
    out.extend_from_slice(b"\":")
}

/// Writes a field that is a number.
#[tactic(auto, unfolding(crate::specs::Json::number))]
fn push_number(out: &mut Vec<u8>, name: &str, value: u64) -> Result<(), AllocError>
    ensures { OnOk result (out.new.items ≡ out.old.items ++ json.number name.now value) }
{
    push_key(out, name)?;
    push_count(out, value)
}

/// Writes a field that is a text.
#[tactic(auto, unfolding(crate::specs::Json::string))]
pub(crate) fn push_string(out: &mut Vec<u8>, name: &str, value: &str) -> Result<(), AllocError>
    ensures { OnOk result (out.new.items ≡ out.old.items ++ json.string name.now value.now) }
{
    push_key(out, name)?;
    push_quoted(out, value)
}

/// Writes a line and a column, both counted from 1.
fn push_spot(out: &mut Vec<u8>, line: &str, column: &str, spot: Spot) -> Result<(), AllocError>
    requires { spot.column < 2 ^ 34 }
    ensures { OnOk result (out.new.items ≡ out.old.items ++ spot_json line.now column.now spot) }
{
    push_number(out, line, spot.line)?;
    push_number(out, column, spot.column + 1)
}

/// Writes the line and the column of an offset, if lines are known.
#[tactic(auto, using(crate::proofs::Columns::column_bound))]
fn push_place(
    out: &mut Vec<u8>,
    places: &Places<'_>,
    line: &str,
    column: &str,
    position: usize,
) -> Result<(), AllocError>
    requires { length places.now.text < 2 ^ 32 }
    ensures { OnOk result
        (out.new.items ≡ out.old.items ++ place_json places.now line.now column.now position) }
{
    match places.spot(position) {
        Some(spot) => push_spot(out, line, column, spot),
        None => Ok(()),
    }
}

/// Writes two offsets of a place in bytes, and the same in code units of UTF-16.
#[tactic(auto, unfolding(crate::specs::Json::offsets_json))]
fn push_offsets(
    out: &mut Vec<u8>,
    places: &Places<'_>,
    low: usize,
    high: usize,
) -> Result<(), AllocError>
    ensures { OnOk result (out.new.items ≡ out.old.items ++ offsets_json places.now low high) }
{
    push_number(out, "byteStart", low as u64)?;
    push_number(out, "byteEnd", high as u64)?;
    push_number(out, "start", places.at(low))?;
    push_number(out, "end", places.at(high))
}

/// Writes a place: `byteStart` and `byteEnd` in bytes, `start` and `end` in code units of UTF-16, lines and columns from 1.
#[tactic(auto, unfolding(crate::specs::Json::span_json))]
pub(crate) fn push_span(
    out: &mut Vec<u8>,
    places: &Places<'_>,
    span: Span,
) -> Result<(), AllocError>
    requires { length places.now.text < 2 ^ 32 }
    ensures { OnOk result (out.new.items ≡ out.old.items ++ span_json places.now span) }
{
    let low = span.lo.0 as usize;
    let high = span.hi.0 as usize;
    push_offsets(out, places, low, high)?;
    push_place(out, places, "line", "column", low)?;
    push_place(out, places, "endLine", "endColumn", high)
}

/// Writes how an object begins with a text.
#[tactic(auto, unfolding(crate::specs::Json::first))]
pub(crate) fn push_first(out: &mut Vec<u8>, name: &str, text: &str) -> Result<(), AllocError>
    ensures { OnOk result (out.new.items ≡ out.old.items ++ first name.now text.now) }
{
    out.push(b'{')?;
    push_quoted(out, name)?;
    out.push(b':')?;
    push_quoted(out, text)
}

/// Writes another place that a fault speaks of.
pub(crate) fn push_note(
    out: &mut Vec<u8>,
    places: &Places<'_>,
    note: Option<Note>,
) -> Result<(), AllocError>
    requires { length places.now.text < 2 ^ 32 }
    ensures { OnOk result (out.new.items ≡ out.old.items ++ note_json places.now (noted note)) }
{
    let Some(note) = note else {
        return Ok(());
    };
    push_key(out, "note")?;
    push_first(out, "message", note.sentence)?;
    push_span(out, places, note.span)?;
    out.extend_from_slice(b"}")
}

/// Writes what a fault says.
#[tactic(auto, unfolding(crate::specs::Json::head_json))]
fn push_head(
    out: &mut Vec<u8>,
    source: &Source<'_>,
    file: &str,
    word: &str,
    error: &Error,
) -> Result<(), AllocError>
    ensures { OnOk result
        (out.new.items ≡ out.old.items ++ head_json source.now.text file.now word.now error.now) }
{
    let said = message(*out.allocator(), source, error)?;
    push_first(out, "file", file)?;
    push_string(out, "severity", word)?;
    push_string(out, "kind", error.kind.name())?;
    push_string(out, "message", said.as_str())
}

/// Writes a fault of a file as an object in a line of its own: `severity` is the word, and `note` another place that it speaks of.
#[tactic(auto, unfolding(crate::specs::Json::fault_json))]
pub fn push_fault(
    out: &mut Vec<u8>,
    file: &str,
    source: &Source<'_>,
    word: &str,
    error: &Error,
) -> Result<(), AllocError>
    requires { length source.now.text < 2 ^ 32 }
    ensures { OnOk result
        (out.new.items ≡ out.old.items ++ fault_json source.now file.now word.now error.now) }
{
    push_head(out, source, file, word, error)?;
    push_span(out, source.places(), error.span)?;
    push_note(out, source.places(), note_of(source, error))?;
    out.extend_from_slice(b"}\n")
}
