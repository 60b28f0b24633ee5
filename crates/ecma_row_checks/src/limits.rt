//! Within how many levels a row's list is read.

use ecma_row_format::asked::Asked;
use ecma_row_format::lines::is_clean;
use ecma_row_format::row::number;
use ecma_texts::sources::{let_go, listed, read, tokens};
use serde_json::Value;
use std::alloc::{AllocError, Global};

/// Lists up to here are read with a limit that none meets, whatever they are.
const SHORT: usize = 1000;

/// The lines of a row within so many levels.
fn lines_within(
    alloc: Global,
    row: &Value,
    text: &str,
    asked: Asked,
    limit: u32,
) -> Result<String, AllocError> {
    let tokens = tokens(alloc, row, text, asked)?;
    let asked = Asked {
        limit,
        prints: false,
        ..asked
    };
    let found = read(alloc, listed(alloc, tokens, asked), asked)?;
    Ok(found.lines)
}

/// How many tokens a row has.
fn count(alloc: Global, row: &Value, text: &str, asked: Asked) -> Result<usize, AllocError> {
    let tokens = tokens(alloc, row, text, asked)?;
    let count = tokens.len();
    let_go(tokens);
    Ok(count)
}

/// Writes that a row is too deep within two levels for each token and two, if it is.
fn write_widest(
    alloc: Global,
    out: &mut String,
    row: &Value,
    text: &str,
    found: &str,
    asked: Asked,
) -> Result<(), AllocError> {
    let count = count(alloc, row, text, asked)?;
    if count > SHORT && !is_clean(found) {
        return Ok(());
    }
    let limit = u32::try_from(count)
        .unwrap_or(0)
        .saturating_mul(2)
        .saturating_add(2);
    let lines = lines_within(alloc, row, text, asked, limit)?;
    if lines.as_str().contains(" TooDeep") {
        writeln!(out, "  too deep within {limit}")?;
    }
    Ok(())
}

/// The fewest levels within which a row is clean that is clean within its limit: those that it says, or those that are found.
fn fewest(alloc: Global, row: &Value, text: &str, asked: Asked) -> Result<u32, AllocError> {
    if let Some(depth) = number(row, "depth") {
        return Ok(depth);
    }
    let mut low = 0u32;
    let mut high = asked.limit;
    for _ in 0..32 {
        if low >= high {
            break;
        }
        let middle = low.midpoint(high);
        let lines = lines_within(alloc, row, text, asked, middle)?;
        if is_clean(lines.as_str()) {
            high = middle;
        } else {
            low = middle.saturating_add(1);
        }
    }
    Ok(high)
}

/// Whether these are the lines of a list that is too deep.
fn is_too_deep(lines: &str) -> bool {
    lines.starts_with("refused ") && lines.contains(" TooDeep")
}

/// Writes in what a clean row is unlike what it is within just so many levels, and within one less.
fn write_depth(
    alloc: Global,
    out: &mut String,
    row: &Value,
    text: &str,
    found: &str,
    asked: Asked,
) -> Result<(), AllocError> {
    let depth = fewest(alloc, row, text, asked)?;
    let within = lines_within(alloc, row, text, asked, depth)?;
    if within.as_str() != found {
        writeln!(out, "  another answer within {depth}")?;
    }
    if let Some(wanted) = number(row, "depth")
        && wanted != depth
    {
        writeln!(out, "  not {wanted} deep: {depth}")?;
    }
    if depth > 0 {
        let below = lines_within(alloc, row, text, asked, depth - 1)?;
        if !is_too_deep(below.as_str()) {
            writeln!(out, "  not too deep below {depth}")?;
        }
    }
    Ok(())
}

/// Writes in what a row is unlike what it should be within more and fewer levels.
pub fn write_limits(
    alloc: Global,
    out: &mut String,
    row: &Value,
    text: &str,
    found: &str,
    asked: Asked,
) -> Result<(), AllocError> {
    write_widest(alloc, out, row, text, found, asked)?;
    if asked.times == 1 && is_clean(found) {
        write_depth(alloc, out, row, text, found, asked)?;
    }
    Ok(())
}
