//! Printed trees, and in what they are unlike a row.

use crate::nodes::nodes;
use crate::parts::has_part;
use crate::row::{list, text_of};
use serde_json::Value;
use std::alloc::{AllocError, Global};

/// Writes those nodes of a row that its trees do not have.
fn write_nodes(out: &mut String, row: &Value, trees: &str, nodes: &str) -> Result<(), AllocError> {
    for node in list(row, "nodes") {
        let node = text_of(node);
        let is_found = nodes.lines().any(|line| line == node) || trees.contains(node);
        if !is_found {
            writeln!(out, "  without {node}")?;
        }
    }
    Ok(())
}

/// Writes those parts of a row that its trees do not have.
fn write_parts(
    alloc: Global,
    out: &mut String,
    row: &Value,
    trees: &str,
) -> Result<(), AllocError> {
    for part in list(row, "parts") {
        let part = text_of(part);
        if !has_part(alloc, trees, part)? {
            writeln!(out, "  without {part}")?;
        }
    }
    Ok(())
}

/// How many nodes go by a name. One that goes by it twice, as a form and as its part, has two equal lines in a row.
fn count(nodes: &str, name: &str) -> usize {
    let mut found = 0usize;
    let mut last = "";
    for line in nodes.lines() {
        if line != last && line.split(' ').next() == Some(name) {
            found = found.saturating_add(1);
        }
        last = line;
    }
    found
}

/// Writes those names of a row that not so many nodes go by.
fn write_counts(out: &mut String, row: &Value, nodes: &str) -> Result<(), AllocError> {
    for wanted in list(row, "counts") {
        let wanted = text_of(wanted);
        let (name, number) = wanted.split_once(' ').unwrap_or((wanted, ""));
        let found = count(nodes, name);
        if number.parse::<usize>().ok() != Some(found) {
            writeln!(out, "  not {wanted}: {found}")?;
        }
    }
    Ok(())
}

/// Whether the nodes of a name, of which there are some, all end at one place.
fn all_end(nodes: &str, name: &str, place: &str) -> bool {
    let mut some = false;
    for line in nodes.lines() {
        let mut words = line.split(' ');
        if words.next() == Some(name) {
            some = true;
            let span = words.next().unwrap_or("");
            let (_, high) = span.split_once("..").unwrap_or((span, ""));
            if high != place {
                return false;
            }
        }
    }
    some
}

/// Writes those names of a row whose nodes do not all end where it says.
fn write_ends(out: &mut String, row: &Value, nodes: &str) -> Result<(), AllocError> {
    for wanted in list(row, "ends") {
        let wanted = text_of(wanted);
        let (name, place) = wanted.split_once(' ').unwrap_or((wanted, ""));
        if !all_end(nodes, name, place) {
            writeln!(out, "  not all {wanted}")?;
        }
    }
    Ok(())
}

/// Writes in what the trees are unlike a row.
pub fn write_trees(
    alloc: Global,
    out: &mut String,
    row: &Value,
    trees: &str,
) -> Result<(), AllocError> {
    let nodes = nodes(alloc, trees)?;
    write_nodes(out, row, trees, nodes.as_str())?;
    write_parts(alloc, out, row, trees)?;
    write_counts(out, row, nodes.as_str())?;
    write_ends(out, row, nodes.as_str())
}
