//! How a text comes out.

ghost use Rattle.std.specs.Prelude.{◌≡◌};
ghost use Rattle.swc_ecma_parser_error.specs.Kind.{kind_of};
ghost use Rattle.ecma_answers.specs.Outcomes as outcomes;
ghost use Rattle.ecma_answers.specs.Outcomes.{outcome_of};

use crate::findings::Findings;
use swc_ecma_parser::error::SyntaxError;

/// How a text comes out.
#[derive(Clone, Copy)]
pub enum Outcome {
    /// A tree, no fault and no early error.
    Clean,
    /// A tree, and faults or early errors beside it.
    Faulty,
    /// No tree.
    Refused,
    /// No tree, since the text nests deeper than the limit.
    TooDeep,
}

/// Whether a kind of fault says that a text nests too deep.
fn is_too_deep(kind: &SyntaxError) -> bool
    ensures { result ≡ outcomes.is_too_deep (kind_of kind.now) }
{
    matches!(kind, SyntaxError::TooDeep)
}

impl Findings {
    /// How the text comes out.
    pub fn outcome(&self) -> Outcome
        ensures { result
            ≡ outcome_of self.now.reading.tree self.now.reading.faults.items
            self.now.early.items }
    {
        match &self.reading.tree {
            Ok(_) => {
                if self.reading.faults.is_empty() && self.early.is_empty() {
                    Outcome::Clean
                } else {
                    Outcome::Faulty
                }
            }
            Err(error) => {
                if is_too_deep(&error.kind) {
                    Outcome::TooDeep
                } else {
                    Outcome::Refused
                }
            }
        }
    }
}
