//! The nodes of a printed tree.

use std::alloc::{AllocError, Global};

/// What stands between the name of a node that has a span and where it starts.
const STARTS: &str = " { span: Span { lo: BytePos(";

/// Writes a line for each name.
fn write_lines(out: &mut String, names: &str, low: &str, high: &str) -> Result<(), AllocError> {
    for name in names.split('(') {
        write!(out, "\n{name} {low}..{high}")?;
    }
    Ok(())
}

/// The names that a node behind this text goes by: those of its forms and its own, one in the other.
fn last_names(text: &str) -> &str {
    match text.rsplit_once([' ', '[']) {
        Some((_, names)) => names,
        None => text,
    }
}

/// Writes what a piece of a printed tree holds that begins where a node starts: a line for each name of the node, with the
/// node's texts behind the last one.
fn write_node(out: &mut String, names: &str, piece: &str) -> Result<(), AllocError> {
    let (low, rest) = piece.split_once("), hi: BytePos(").unwrap_or((piece, ""));
    let (high, rest) = rest.split_once(')').unwrap_or((rest, ""));
    write_lines(out, names, low, high)?;
    for text in rest.split("text: \"").skip(1) {
        out.push(' ')?;
        out.push_str(text.split('"').next().unwrap_or(""))?;
    }
    Ok(())
}

/// A line `Kind low..high` for each name of each node of a printed tree that has a span, outermost first.
pub fn nodes(alloc: Global, tree: &str) -> Result<String, AllocError> {
    let mut out = String::new(alloc);
    let mut names = String::new(alloc);
    for piece in tree.split(STARTS) {
        if !names.is_empty() {
            write_node(&mut out, names.as_str(), piece)?;
        }
        names.clear();
        names.push_str(last_names(piece))?;
    }
    Ok(out)
}
