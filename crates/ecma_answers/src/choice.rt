//! Which of two readings is taken of a text that is read as whichever it turns out to be.

ghost use Rattle.std.specs.Prelude.{◌≡◌};
ghost use Rattle.swc_ecma_parser_error.specs.Kind.{faults_of, kind_of};
ghost use Rattle.ecma_answers.specs.Chosen as spec;
ghost use Rattle.ecma_answers.specs.Chosen.{told_of};
ghost use Rattle.ecma_answers.specs.Spelled as spelled;
ghost use Rattle.ecma_answers.specs.Spelled.{view_tree};

use crate::parsing::{Reading, Tree};
use swc_ecma_parser::ast::Program;
use swc_ecma_parser::error::{Error, PResult, SyntaxError};

/// Whether a tree was read, and no fault stands beside it.
pub(crate) fn is_clean(reading: &Reading) -> bool
    ensures { result ≡ spec.is_clean (told_of reading.now) }
{
    reading.tree.is_ok() && reading.faults.is_empty()
}

/// Whether a tree is a module's.
pub(crate) fn is_module(tree: &Tree) -> bool
    ensures { result ≡ spelled.is_module (view_tree tree.now) }
{
    match tree {
        Tree::Module(_) | Tree::Program(Program::Module(_)) => true,
        Tree::Script(_) | Tree::Program(Program::Script(_)) => false,
    }
}

/// Whether what was read is a module.
fn has_module(tree: &PResult<Tree>) -> bool
    ensures { result ≡ spelled.has_module tree.now }
{
    match tree {
        Ok(tree) => is_module(tree),
        Err(_) => false,
    }
}

/// Whether a module was read, and no fault stands beside it.
pub(crate) fn is_clean_module(reading: &Reading) -> bool
    ensures { result ≡ spelled.is_clean_module reading.now }
{
    is_clean(reading) && has_module(&reading.tree)
}

/// Whether a fault of a script says that it is a module's text.
fn is_of_module(kind: &SyntaxError) -> bool
    ensures { result ≡ spec.is_of_module (kind_of kind.now) }
{
    matches!(
        kind,
        SyntaxError::ImportExportInScript
            | SyntaxError::ImportMetaInScript
            | SyntaxError::AwaitParamInAsync
    )
}

/// Whether one of a script's faults says so.
#[tactic(auto, using(crate::proofs::Choosing::says_more))]
fn has_module_fault(faults: &[Error]) -> bool
    ensures { result ≡ spec.has_module_fault (faults_of faults.now) }
{
    let mut found = false;
    for fault in faults {
        found |= is_of_module(&fault.kind);
    }
    found
}

/// Whether the reading as a module is taken in the place of that as a script.
fn prefers_module(script: &Reading, module: &Reading) -> bool
    ensures { result ≡ spec.prefers_module (told_of script.now) (told_of «module».now) }
{
    match (&script.tree, &module.tree) {
        (Ok(_), Ok(_)) => {
            has_module_fault(script.faults.as_slice()) || module.faults.len() < script.faults.len()
        }
        (Ok(_), Err(_)) => has_module_fault(script.faults.as_slice()),
        (Err(_), Ok(_)) => true,
        (Err(error), Err(other)) => {
            is_of_module(&error.kind) || error.span.lo.0 <= other.span.lo.0
        }
    }
}

/// The reading that is taken. The other is let go.
pub(crate) fn chosen(script: Reading, module: Reading) -> Reading
    ensures { result ≡ spec.chosen script «module» }
{
    if prefers_module(&script, &module) {
        script.discard();
        module
    } else {
        module.discard();
        script
    }
}
