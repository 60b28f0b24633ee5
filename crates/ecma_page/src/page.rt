//! A page.

ghost use Rattle.std.specs.Prelude.{◌≡◌, ◌++◌, OnOk};
ghost use Rattle.ecma_page.specs.Page.{page_text, text_blocks};

use crate::block::push_block;
use crate::frame::{Frame, push_head, push_script};
use std::alloc::AllocError;

/// What a page shows. All of it is JSON (RFC 8259) in UTF-8.
#[derive(Clone, Copy, Debug)]
pub struct Page<'a> {
    /// The name of the file, a string.
    pub name: &'a [u8],
    /// The text of the file, a string.
    pub source: &'a [u8],
    /// The tree as ESTree; `null`, where there is none.
    pub tree: &'a [u8],
    /// The faults, an object a line: `start` and `end` are offsets in code units of UTF-16, `line` and `column` count from 1, and `severity`,
    /// `kind` and `message` are strings. Another place that a fault speaks of is an object `note` with `start`, `end` and `message`. An object
    /// whose `severity` is `more` has a `count` alone: how many faults there are besides.
    pub faults: &'a [u8],
}

/// Writes what is shown of a text without its tree.
#[tactic(auto, unfolding(crate::specs::Page::text_blocks))]
fn push_text(out: &mut Vec<u8>, page: &Page<'_>) -> Result<(), AllocError>
    ensures { OnOk result (out.new.items ≡ out.old.items ++ text_blocks page.now) }
{
    push_block(out, "name", page.name)?;
    push_block(out, "source", page.source)?;
    push_block(out, "faults", page.faults)
}

/// Writes a page: `frame` is what all pages have, as `FRAME`. No text in the data is taken for a tag.
#[tactic(auto, unfolding(crate::specs::Page::page_text))]
pub fn push_page(out: &mut Vec<u8>, frame: &Frame, page: &Page<'_>) -> Result<(), AllocError>
    ensures { OnOk result (out.new.items ≡ out.old.items ++ page_text frame.now page.now) }
{
    push_head(out, frame)?;
    push_text(out, page)?;
    push_script(out, frame)?;
    push_block(out, "tree", page.tree)?;
    out.extend_from_slice(frame.end.as_bytes())
}
