//! What all pages have.

ghost use Rattle.std.specs.Prelude.{◌≡◌, ◌++◌, OnOk};
ghost use Rattle.ecma_page.specs.Page.{head_text, script_text, text_view, tree_view, worker_text};

use crate::blocks::BLOCKS;
use crate::check::CHECK;
use crate::faults::FAULTS;
use crate::head::{BODY, END, HEAD};
use crate::parts::PARTS;
use crate::reader::READER;
use crate::rows::ROWS;
use crate::seek::SEEK;
use crate::style::STYLE;
use crate::text::TEXT;
use crate::tree::TREE;
use crate::view::VIEW;
use crate::worker::WORKER;
use std::alloc::AllocError;

/// What stands around the data of a page.
#[derive(Clone, Copy, Debug)]
pub struct Frame {
    /// The head up to the style, the style, and the elements that the script fills.
    pub(crate) head: &'static str,
    pub(crate) style: &'static str,
    pub(crate) body: &'static str,
    /// The parts of the worker's script.
    pub(crate) parts: &'static str,
    pub(crate) worker: &'static str,
    pub(crate) seek: &'static str,
    pub(crate) blocks: &'static str,
    /// The parts of the script of what is seen.
    pub(crate) rows: &'static str,
    pub(crate) text: &'static str,
    pub(crate) reader: &'static str,
    pub(crate) faults: &'static str,
    pub(crate) tree: &'static str,
    pub(crate) view: &'static str,
    pub(crate) check: &'static str,
    /// What has the tree shown.
    pub(crate) end: &'static str,
}

/// The frame of this crate. It names no address.
pub const FRAME: Frame = Frame {
    head: HEAD,
    style: STYLE,
    body: BODY,
    parts: PARTS,
    worker: WORKER,
    seek: SEEK,
    blocks: BLOCKS,
    rows: ROWS,
    text: TEXT,
    reader: READER,
    faults: FAULTS,
    tree: TREE,
    view: VIEW,
    check: CHECK,
    end: END,
};

/// Writes what all pages begin with.
#[tactic(auto, unfolding(crate::specs::Page::head_text))]
pub(crate) fn push_head(out: &mut Vec<u8>, frame: &Frame) -> Result<(), AllocError>
    ensures { OnOk result (out.new.items ≡ out.old.items ++ head_text frame.now) }
{
    out.extend_from_slice(frame.head.as_bytes())?;
    out.extend_from_slice(frame.style.as_bytes())?;
    out.extend_from_slice(frame.body.as_bytes())
}

/// Writes the worker's script.
#[tactic(auto, unfolding(crate::specs::Page::worker_text))]
fn push_worker(out: &mut Vec<u8>, frame: &Frame) -> Result<(), AllocError>
    ensures { OnOk result (out.new.items ≡ out.old.items ++ worker_text frame.now) }
{
    out.extend_from_slice(frame.parts.as_bytes())?;
    out.extend_from_slice(frame.worker.as_bytes())?;
    out.extend_from_slice(frame.seek.as_bytes())?;
    out.extend_from_slice(frame.blocks.as_bytes())
}

/// Writes the parts of the script that show the text.
#[tactic(auto, unfolding(crate::specs::Page::text_view))]
fn push_text_view(out: &mut Vec<u8>, frame: &Frame) -> Result<(), AllocError>
    ensures { OnOk result (out.new.items ≡ out.old.items ++ text_view frame.now) }
{
    out.extend_from_slice(frame.rows.as_bytes())?;
    out.extend_from_slice(frame.text.as_bytes())?;
    out.extend_from_slice(frame.reader.as_bytes())
}

/// Writes the parts that show faults and tree, and read the data.
#[tactic(auto, unfolding(crate::specs::Page::tree_view))]
fn push_tree_view(out: &mut Vec<u8>, frame: &Frame) -> Result<(), AllocError>
    ensures { OnOk result (out.new.items ≡ out.old.items ++ tree_view frame.now) }
{
    out.extend_from_slice(frame.faults.as_bytes())?;
    out.extend_from_slice(frame.tree.as_bytes())?;
    out.extend_from_slice(frame.view.as_bytes())?;
    out.extend_from_slice(frame.check.as_bytes())
}

/// Writes the scripts.
#[tactic(auto, unfolding(crate::specs::Page::script_text))]
pub(crate) fn push_script(out: &mut Vec<u8>, frame: &Frame) -> Result<(), AllocError>
    ensures { OnOk result (out.new.items ≡ out.old.items ++ script_text frame.now) }
{
    push_worker(out, frame)?;
    push_text_view(out, frame)?;
    push_tree_view(out, frame)
}
