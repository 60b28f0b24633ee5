//! What a fault holds.

ghost use Rattle.std.specs.Prelude.{◌≡◌};
ghost use Rattle.ecma_sentences.specs.Payload as spec;

use swc_ecma_parser_error::{Error, SyntaxError};

/// What was expected, of a fault that says it.
#[tactic(auto, using(crate::proofs::Payloads::wanted_other))]
pub(crate) fn wanted_of(kind: &SyntaxError) -> &str
    ensures { result.now ≡ spec.wanted_of kind.now }
{
    match kind {
        SyntaxError::Expected(texts) => texts.get().wanted.as_str(),
        SyntaxError::Unexpected(texts) => texts.get().wanted.as_str(),
        _ => "",
    }
}

/// What was found in its place, which at the end is `<eof>`.
#[tactic(auto, using(crate::proofs::Payloads::found_other))]
pub(crate) fn found_of(kind: &SyntaxError) -> &str
    ensures { result.now ≡ spec.found_of kind.now }
{
    match kind {
        SyntaxError::Expected(texts) => texts.get().found.as_str(),
        SyntaxError::Unexpected(texts) => texts.get().found.as_str(),
        _ => "",
    }
}

/// A fault itself, or what is wrong in the condition that it speaks of.
#[tactic(auto, using(crate::proofs::Payloads::inner_label, crate::proofs::Payloads::inner_plain))]
pub(crate) fn inner_of(error: &Error) -> &Error
    ensures { result.now ≡ spec.inner_of error.now }
{
    match &error.kind {
        SyntaxError::WithLabel(labelled) => &labelled.get().inner,
        _ => error,
    }
}
