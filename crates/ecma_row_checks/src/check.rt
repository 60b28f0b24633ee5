//! Rows, and in what their texts are unlike them.

use crate::lexed::check_tokens;
use crate::limits::write_limits;
use ecma_row_format::asked::Asked;
use ecma_row_format::lines::{answers_agree, lines_agree};
use ecma_row_format::row::{asked, is_of_tokens, read, text};
use ecma_row_format::tally::Tally;
use ecma_row_format::trees::write_trees;
use ecma_texts::answers::Found;
use ecma_texts::sources::read_all;
use serde_json::Value;
use std::alloc::{AllocError, Global};

/// Writes in what the answers and the held-back faults are unlike a row.
fn write_lines(out: &mut String, row: &Value, found: &Found) -> Result<(), AllocError> {
    if !answers_agree(found.lines.as_str(), row) {
        let lines = found.lines.as_str();
        write!(out, "{lines}")?;
    }
    if row.get("second").is_some() && !lines_agree(found.second.as_str(), row, "second") {
        let second = found.second.as_str();
        writeln!(out, "  held back:\n{second}")?;
    }
    Ok(())
}

/// Writes in what a row's text is unlike it.
fn write_unlike(
    alloc: Global,
    out: &mut String,
    row: &Value,
    text: &str,
    asked: Asked,
) -> Result<(), AllocError> {
    let (found, is_same) = read_all(alloc, row, text, asked)?;
    if !is_same {
        writeln!(out, "  not the same over each source")?;
    }
    write_lines(out, row, &found)?;
    write_trees(alloc, out, row, found.trees.as_str())?;
    write_limits(alloc, out, row, text, found.lines.as_str(), asked)
}

/// In what a row of JSON is unlike what comes out.
fn unlike(alloc: Global, row: &Value) -> Result<String, AllocError> {
    let mut out = String::new(alloc);
    let text = text(alloc, row)?;
    if is_of_tokens(row) {
        check_tokens(alloc, &mut out, row, text.as_str())?;
        return Ok(out);
    }
    match asked(row) {
        Some(asked) => write_unlike(alloc, &mut out, row, text.as_str(), asked)?,
        None => writeln!(out, "  no row")?,
    }
    Ok(out)
}

/// Writes the row of a line if it does not come out as it says, and tells whether it does.
fn compare_line(alloc: Global, out: &mut String, line: &str) -> Result<bool, AllocError> {
    let unlike = match read(alloc, line)? {
        Some(row) => unlike(alloc, &row)?,
        None => String::from_str(alloc, "  no JSON\n")?,
    };
    if !unlike.is_empty() {
        write!(out, "not {line}\n{unlike}")?;
    }
    Ok(unlike.is_empty())
}

/// Compares each row of a file.
pub fn compare(alloc: Global, out: &mut String, rows: &str) -> Result<Tally, AllocError> {
    let mut tally = Tally::default();
    for line in rows.lines() {
        tally.count(compare_line(alloc, out, line)?);
    }
    Ok(tally)
}
