//! Early errors, written as faults are.

ghost use Rattle.std.specs.Prelude.{◌≡◌, ◌++◌, ◌<◌, ◌^◌, OnOk, length};
ghost use Rattle.ecma_sentences.specs.Note.{noted};
ghost use Rattle.ecma_faults.specs.Early as spec;
ghost use Rattle.ecma_faults.specs.Early.{early_head, early_json, early_text};

use crate::{json, text};
use ecma_early::{EarlyError, name, note, sentence};
use ecma_outline::Source;
use ecma_sentences::Note;
use std::alloc::AllocError;

/// The earlier place of an early error, if it has one.
pub fn early_note(error: EarlyError) -> Option<Note>
    ensures { noted result ≡ spec.note_at error }
{
    match error.previous {
        Some(span) => Some(Note {
            span,
            sentence: note(error.kind),
        }),
        None => None,
    }
}

/// Writes what an early error says.
#[tactic(auto, unfolding(crate::specs::Early::early_head))]
fn push_head(out: &mut Vec<u8>, file: &str, error: EarlyError) -> Result<(), AllocError>
    ensures { OnOk result (out.new.items ≡ out.old.items ++ early_head file.now error) }
{
    json::push_first(out, "file", file)?;
    json::push_string(out, "severity", "error")?;
    json::push_string(out, "kind", name(error.kind))?;
    json::push_string(out, "message", sentence(error.kind))
}

/// Writes an early error of a file as an object in a line of its own: `severity` is `error`, and `note` the earlier place that it speaks of.
#[tactic(auto, unfolding(crate::specs::Early::early_json))]
pub fn push_early_json(
    out: &mut Vec<u8>,
    file: &str,
    source: &Source<'_>,
    error: EarlyError,
) -> Result<(), AllocError>
    requires { length source.now.text < 2 ^ 32 }
    ensures { OnOk result
        (out.new.items ≡ out.old.items ++ early_json source.now file.now error) }
{
    push_head(out, file, error)?;
    json::push_span(out, source.places(), error.span)?;
    json::push_note(out, source.places(), early_note(error))?;
    out.extend_from_slice(b"}\n")
}

/// Writes an early error of a file: `FILE:LINE:COLUMN: error: sentence`, the line of the text, and carets; and the same of the earlier place.
#[tactic(auto, unfolding(crate::specs::Early::early_text))]
pub fn push_early_text(
    out: &mut Vec<u8>,
    file: &str,
    source: &Source<'_>,
    error: EarlyError,
) -> Result<(), AllocError>
    requires { length source.now.text < 2 ^ 32 }
    ensures { OnOk result
        (out.new.items ≡ out.old.items ++ early_text source.now file.now error) }
{
    text::push_told(
        out,
        file,
        source.places(),
        error.span,
        b"error",
        sentence(error.kind),
    )?;
    text::push_note(out, file, source.places(), early_note(error))
}
