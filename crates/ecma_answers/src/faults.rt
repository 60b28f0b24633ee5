//! Faults as JSON.

ghost use Rattle.std.specs.Prelude.{◌≡◌, ◌++◌, ◌<◌, ◌^◌, OnOk, codes, length};
ghost use Rattle.std.specs.List.{flat_map};
ghost use Rattle.ecma_faults.specs.Early.{early_json};
ghost use Rattle.ecma_answers.specs.Listed.{early_text, fault_text, next_early, next_text, recorded_text, refusal_text, told_text};

use crate::parsing::Tree;
use ecma_events::EarlyError;
use ecma_faults::{Source, push_early_json, push_json};
use std::alloc::{AllocError, Global};
use swc_ecma_parser::error::{Error, PResult};

/// Writes a fault, with the word of its severity.
fn push_fault(
    out: &mut Vec<u8>,
    source: &Source<'_>,
    word: &str,
    error: &Error,
) -> Result<(), AllocError>
    requires { length source.now.text < 2 ^ 32 }
    ensures { OnOk result
        (out.new.items ≡ out.old.items ++ fault_text source.now word.now error.now) }
{
    push_json(out, "", source, word, error)
}

/// Writes a fault that stands behind another.
fn push_next(
    out: &mut Vec<u8>,
    source: &Source<'_>,
    word: &str,
    error: &Error,
) -> Result<(), AllocError>
    requires { length source.now.text < 2 ^ 32 }
    ensures { OnOk result
        (out.new.items ≡ out.old.items ++ next_text source.now word.now error.now) }
{
    out.extend_from_slice(b",")?;
    push_fault(out, source, word, error)
}

/// Writes faults that stand behind another.
fn push_rest(out: &mut Vec<u8>, source: &Source<'_>, rest: &[Error]) -> Result<(), AllocError>
    requires { length source.now.text < 2 ^ 32 }
    ensures { OnOk result
        (out.new.items ≡ out.old.items
        ++ flat_map (next_text source.now (codes "fault")) rest.now) }
{
    for fault in rest {
        push_next(out, source, "fault", fault)?;
    }
    Ok(())
}

/// Writes the faults that were recorded, with a comma between two of them.
fn push_recorded(out: &mut Vec<u8>, source: &Source<'_>, faults: &[Error]) -> Result<(), AllocError>
    requires { length source.now.text < 2 ^ 32 }
    ensures { OnOk result (out.new.items ≡ out.old.items ++ recorded_text source.now faults.now) }
{
    match faults {
        [first, rest @ ..] => {
            push_fault(out, source, "fault", first)?;
            push_rest(out, source, rest)
        }
        _ => Ok(()),
    }
}

/// Writes early errors that stand behind something.
fn push_early_rest(
    out: &mut Vec<u8>,
    source: &Source<'_>,
    rest: &[EarlyError],
) -> Result<(), AllocError>
    requires { length source.now.text < 2 ^ 32 }
    ensures { OnOk result
        (out.new.items ≡ out.old.items ++ flat_map (next_early source.now) rest.now) }
{
    for error in rest {
        out.extend_from_slice(b",")?;
        push_early_json(out, "", source, *error)?;
    }
    Ok(())
}

/// Writes early errors behind the faults that were recorded.
fn push_early(
    out: &mut Vec<u8>,
    source: &Source<'_>,
    faults: &[Error],
    early: &[EarlyError],
) -> Result<(), AllocError>
    requires { length source.now.text < 2 ^ 32 }
    ensures { OnOk result
        (out.new.items ≡ out.old.items ++ early_text source.now faults.now early.now) }
{
    match (faults, early) {
        ([], [first, rest @ ..]) => {
            push_early_json(out, "", source, *first)?;
            push_early_rest(out, source, rest)
        }
        _ => push_early_rest(out, source, early),
    }
}

/// Writes why there is no tree, behind all others.
fn push_refusal(
    out: &mut Vec<u8>,
    source: &Source<'_>,
    tree: &PResult<Tree>,
    faults: &[Error],
    early: &[EarlyError],
) -> Result<(), AllocError>
    requires { length source.now.text < 2 ^ 32 }
    ensures { OnOk result
        (out.new.items
        ≡ out.old.items ++ refusal_text source.now tree.now faults.now early.now) }
{
    match (tree, faults, early) {
        (Ok(_), _, _) => Ok(()),
        (Err(error), [], []) => push_fault(out, source, "refused", error),
        (Err(error), _, _) => push_next(out, source, "refused", error),
    }
}

/// What is told of a text, as far as it is asked for.
#[derive(Clone, Copy)]
pub(crate) struct Telling<'a> {
    pub(crate) tree: &'a PResult<Tree>,
    pub(crate) faults: &'a [Error],
    pub(crate) early: &'a [EarlyError],
}

/// Writes the faults that were recorded, early errors, and why there is no tree.
fn push_listed(out: &mut Vec<u8>, source: &Source<'_>, told: Telling<'_>) -> Result<(), AllocError>
    requires { length source.now.text < 2 ^ 32 }
    ensures { OnOk result
        (out.new.items
        ≡ out.old.items
        ++ (recorded_text source.now told.entry.faults.now
        ++ (early_text source.now told.entry.faults.now told.entry.early.now
        ++ refusal_text source.now told.entry.tree.now told.entry.faults.now
        told.entry.early.now))) }
{
    push_recorded(out, source, told.faults)?;
    push_early(out, source, told.faults, told.early)?;
    push_refusal(out, source, told.tree, told.faults, told.early)
}

/// Writes what is told of a text with faults, between brackets.
#[tactic(auto, unfolding(crate::specs::Listed::told_text))]
fn push_told(
    alloc: Global,
    out: &mut Vec<u8>,
    text: &str,
    told: Telling<'_>,
) -> Result<(), AllocError>
    requires { length text.now < 2 ^ 32 }
    ensures { OnOk result
        (out.new.items
        ≡ out.old.items
        ++ told_text text.now told.entry.tree.now told.entry.faults.now told.entry.early.now) }
{
    let source = Source::new(alloc, text)?;
    out.extend_from_slice(b"[")?;
    push_listed(out, &source, told)?;
    out.extend_from_slice(b"]")
}

/// Writes what is told of a text as a list: faults that were recorded, early errors, and why there is no tree. Lines are counted only where
/// something is told.
#[tactic(auto, unfolding(crate::specs::Listed::told_text))]
pub(crate) fn push_faults(
    alloc: Global,
    out: &mut Vec<u8>,
    text: &str,
    told: Telling<'_>,
) -> Result<(), AllocError>
    requires { length text.now < 2 ^ 32 }
    ensures { OnOk result
        (out.new.items
        ≡ out.old.items
        ++ told_text text.now told.entry.tree.now told.entry.faults.now told.entry.early.now) }
{
    if told.tree.is_ok() && told.faults.is_empty() && told.early.is_empty() {
        return out.extend_from_slice(b"[]");
    }
    push_told(alloc, out, text, told)
}
