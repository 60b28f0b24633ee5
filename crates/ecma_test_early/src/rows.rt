//! Rows, and in what their texts are unlike them.

use crate::told::write_told;
use ecma_row_format::asked::Entry;
use ecma_row_format::row::{list, read, text, text_of, text_or};
use ecma_row_format::tally::Tally;
use serde_json::Value;
use std::alloc::{AllocError, Global};

/// The lines that a row says, one for each early error.
fn wanted(alloc: Global, row: &Value) -> Result<String, AllocError> {
    let mut out = String::new(alloc);
    for line in list(row, "early") {
        let line = text_of(line);
        writeln!(out, "{line}")?;
    }
    Ok(out)
}

/// Writes what is told of a row's text, if the row does not say just that, and tells whether it does.
fn compare_row(alloc: Global, out: &mut String, row: &Value) -> Result<bool, AllocError> {
    let entry = Entry::named(text_or(row, "entry", "parse_script"));
    let text = text(alloc, row)?;
    let mut told = String::new(alloc);
    write_told(alloc, &mut told, entry, text.as_str())?;
    let wanted = wanted(alloc, row)?;
    let is_right = told == wanted;
    if !is_right {
        write!(out, "{told}")?;
    }
    Ok(is_right)
}

/// Writes the row of a line and what is told of its text, if the row does not say just that, and tells whether it does.
fn compare_line(alloc: Global, out: &mut String, line: &str) -> Result<bool, AllocError> {
    let mut unlike = String::new(alloc);
    let is_right = match read(alloc, line)? {
        Some(row) => compare_row(alloc, &mut unlike, &row)?,
        None => {
            writeln!(unlike, "  no JSON")?;
            false
        }
    };
    if !is_right {
        write!(out, "not {line}\n{unlike}")?;
    }
    Ok(is_right)
}

/// Compares each row of a file.
pub fn compare(alloc: Global, out: &mut String, rows: &str) -> Result<Tally, AllocError> {
    let mut tally = Tally::default();
    for line in rows.lines() {
        tally.count(compare_line(alloc, out, line)?);
    }
    Ok(tally)
}
