//! Faults as text: a line with the place and a sentence, the line of the text, and carets under what is wrong.

ghost use Rattle.std.specs.Prelude.{◌≡◌, ◌++◌, ◌<◌, ◌^◌, OnOk, length};
ghost use Rattle.ecma_sentences.specs.Note.{noted};
ghost use Rattle.ecma_faults.specs.Text.{fault_text, note_text, place_text, spot_text, told_text};

use crate::excerpt::push_excerpt;
use crate::place::column_in;
use crate::shown::push_name;
use ecma_estree_text::{Places, Spot, push_count};
use ecma_outline::Source;
use ecma_sentences::{Note, message, note_of};
use std::alloc::AllocError;
use swc_ecma_parser_common::Span;
use swc_ecma_parser_error::Error;

/// Writes a file and a place of it, with the column counted from 1: `FILE:LINE:COLUMN: `. A byte order mark is no column.
fn push_spot(out: &mut Vec<u8>, file: &str, text: &str, spot: Spot) -> Result<(), AllocError>
    requires { spot.column < 2 ^ 34 }
    ensures { OnOk result (out.new.items ≡ out.old.items ++ spot_text file.now text.now spot) }
{
    push_name(out, file)?;
    out.extend_from_slice(b":")?;
    push_count(out, spot.line)?;
    out.extend_from_slice(b":")?;
    push_count(out, column_in(text, spot) + 1)?;
    out.extend_from_slice(b": ")
}

/// Writes a place, if lines are known.
#[tactic(auto, using(crate::proofs::Columns::column_bound))]
fn push_place(
    out: &mut Vec<u8>,
    file: &str,
    places: &Places<'_>,
    position: usize,
) -> Result<(), AllocError>
    requires { length places.now.text < 2 ^ 32 }
    ensures { OnOk result
        (out.new.items ≡ out.old.items ++ place_text places.now file.now position) }
{
    match places.spot(position) {
        Some(spot) => push_spot(out, file, places.text(), spot),
        None => Ok(()),
    }
}

/// Writes a place, a word, a sentence, and the line of the text.
#[tactic(auto, unfolding(crate::specs::Text::told_text))]
pub(crate) fn push_told(
    out: &mut Vec<u8>,
    file: &str,
    places: &Places<'_>,
    span: Span,
    word: &[u8],
    sentence: &str,
) -> Result<(), AllocError>
    requires { length places.now.text < 2 ^ 32 }
    ensures { OnOk result
        (out.new.items ≡ out.old.items
        ++ told_text places.now file.now span word.now sentence.now) }
{
    push_place(out, file, places, span.lo.0 as usize)?;
    out.extend_from_slice(word)?;
    out.extend_from_slice(b": ")?;
    push_name(out, sentence)?;
    out.extend_from_slice(b"\n")?;
    push_excerpt(out, places, span.lo.0 as usize, span.hi.0 as usize)
}

/// Writes another place that a fault speaks of.
pub(crate) fn push_note(
    out: &mut Vec<u8>,
    file: &str,
    places: &Places<'_>,
    note: Option<Note>,
) -> Result<(), AllocError>
    requires { length places.now.text < 2 ^ 32 }
    ensures { OnOk result
        (out.new.items ≡ out.old.items ++ note_text places.now file.now (noted note)) }
{
    match note {
        Some(note) => push_told(out, file, places, note.span, b"note", note.sentence),
        None => Ok(()),
    }
}

/// Writes a fault of a file: `FILE:LINE:COLUMN: WORD: sentence`, the line of the text, and carets; and the same of another place that it speaks of.
#[tactic(auto, unfolding(crate::specs::Text::fault_text))]
pub fn push_fault(
    out: &mut Vec<u8>,
    file: &str,
    source: &Source<'_>,
    word: &str,
    error: &Error,
) -> Result<(), AllocError>
    requires { length source.now.text < 2 ^ 32 }
    ensures { OnOk result
        (out.new.items ≡ out.old.items ++ fault_text source.now file.now word.now error.now) }
{
    let said = message(*out.allocator(), source, error)?;
    push_told(
        out,
        file,
        source.places(),
        error.span,
        word.as_bytes(),
        said.as_str(),
    )?;
    push_note(out, file, source.places(), note_of(source, error))
}
