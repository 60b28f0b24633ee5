//! Data in a page.

ghost use Rattle.std.specs.Prelude.{◌≡◌, ◌++◌, ◌∷◌, OnOk, List, ℕ};
ghost use Rattle.ecma_page.specs.Page.{block, escaped, safe, up_to_tag};

use std::alloc::AllocError;

/// Writes a byte of JSON, with an escape for `<`.
fn push_escaped(out: &mut Vec<u8>, byte: u8) -> Result<(), AllocError>
    ensures { OnOk result (out.new.items ≡ out.old.items ++ escaped byte) }
{
    if byte == b'<' {
        return out.extend_from_slice(b"\\u003c");
    }
    out.push(byte)?;
    Ok(())
}

/// Writes JSON, with an escape for each `<`. What is read of it up to the next `<` is the whole of it.
#[tactic(auto, using(crate::proofs::Whole::whole), unfolding(crate::specs::Page::safe))]
fn push_safe(out: &mut Vec<u8>, json: &[u8]) -> Result<(), AllocError>
    ensures value { OnOk result (out.new.items ≡ out.old.items ++ safe json.now) }
    ensures whole { (rest : List ℕ) → up_to_tag (safe json.now ++ 60 ∷ rest) ≡ safe json.now }
{
    for byte in json {
        push_escaped(out, *byte)?;
    }
    Ok(())
}

/// Writes a block of data.
#[tactic(auto, unfolding(crate::specs::Page::block))]
pub(crate) fn push_block(out: &mut Vec<u8>, name: &str, json: &[u8]) -> Result<(), AllocError>
    ensures { OnOk result (out.new.items ≡ out.old.items ++ block name.now json.now) }
{
    out.extend_from_slice(b"<script type=\"application/json\" id=\"")?;
    out.extend_from_slice(name.as_bytes())?;
    out.extend_from_slice(b"\">")?;
    push_safe(out, json)?;
    out.extend_from_slice(b"</script>\n")
}
