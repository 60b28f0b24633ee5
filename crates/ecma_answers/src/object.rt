//! A tree and faults as one text.

ghost use Rattle.std.specs.Prelude.{◌≡◌, ◌++◌, ◌<◌, ◌^◌, ℕ, List, IfOk, OnOk, length};
ghost use Rattle.ecma_answers.specs.Listed.{IsAnswer, IsTree, faults_text, more_text};

use crate::cap::{early_front, front, left_out};
use crate::faults::{Telling, push_faults};
use crate::findings::Findings;
use crate::options::Options;
use crate::parsing::Tree;
use crate::tree::write;
use ecma_estree_text::push_count;
use std::alloc::{AllocError, Global};
use swc_ecma_parser::error::PResult;

/// Writes the tree, or `null` where there is none.
fn push_tree(
    alloc: Global,
    out: &mut Vec<u8>,
    options: Options,
    text: &str,
    tree: &PResult<Tree>,
) -> Result<(), AllocError>
    requires { length text.now < 2 ^ 32 }
    ensures { OnOk result
        ((told : List ℕ) × IsTree options text.now tree.now told
        × (out.new.items ≡ out.old.items ++ told)) }
{
    match tree {
        Ok(tree) => {
            let written = write(alloc, options, text, tree)?;
            out.extend_from_slice(written.as_slice())
        }
        Err(_) => out.extend_from_slice(b"null"),
    }
}

/// Writes how many more faults there are, if there are more.
fn push_more(out: &mut Vec<u8>, more: usize) -> Result<(), AllocError>
    ensures { OnOk result (out.new.items ≡ out.old.items ++ more_text more) }
{
    if more == 0 {
        return Ok(());
    }
    out.extend_from_slice(b",\"more\":")?;
    push_count(out, more as u64)
}

/// Writes what is told of a text, as much as is asked for.
fn push_all_faults(
    alloc: Global,
    out: &mut Vec<u8>,
    options: Options,
    text: &str,
    found: &Findings,
) -> Result<(), AllocError>
    requires { length text.now < 2 ^ 32 }
    ensures { OnOk result
        (out.new.items ≡ out.old.items ++ faults_text options text.now found.now) }
{
    let faults = found.reading.faults.as_slice();
    let told = Telling {
        tree: &found.reading.tree,
        faults: front(faults, options.max_faults),
        early: early_front(found.early.as_slice(), faults.len(), options.max_faults),
    };
    push_faults(alloc, out, text, told)
}

/// The tree and the faults of a text as one object of JSON: `{"tree":..,"faults":[..]}`, with a field `more` where there are more faults than
/// are asked for. It fails only where memory runs out.
pub fn answer(
    alloc: Global,
    options: Options,
    text: &str,
    found: &Findings,
) -> Result<Vec<u8>, AllocError>
    requires { length text.now < 2 ^ 32 }
    ensures { IfOk result (λ out. IsAnswer options text.now found.now out.items) }
{
    let mut out = Vec::new(alloc);
    out.extend_from_slice(b"{\"tree\":")?;
    push_tree(alloc, &mut out, options, text, &found.reading.tree)?;
    out.extend_from_slice(b",\"faults\":")?;
    push_all_faults(alloc, &mut out, options, text, found)?;
    let count = found.reading.faults.len() + found.early.len();
    push_more(&mut out, left_out(count, options.max_faults))?;
    out.extend_from_slice(b"}")?;
    Ok(out)
}
