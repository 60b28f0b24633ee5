//! Rows as they stand in a file: one object of JSON a line.

use crate::asked::{Asked, Code, Entry, turn_on};
use serde_json::Value;
use std::alloc::{AllocError, Global};
use swc_ecma_parser_input::EsSyntax;

/// The list under a name; an empty one where there is none.
pub fn list<'a>(row: &'a Value, name: &str) -> &'a [Value] {
    match row.get(name).and_then(Value::as_array) {
        Some(list) => list.as_slice(),
        None => &[],
    }
}

/// The text under a name, or another one where there is none.
pub fn text_or<'a>(row: &'a Value, name: &str, other: &'a str) -> &'a str {
    row.get(name).and_then(Value::as_str).unwrap_or(other)
}

/// The text of a value; an empty one where it is none.
pub fn text_of(value: &Value) -> &str {
    value.as_str().unwrap_or("")
}

/// The number under a name, if it is one of 32 bits.
pub fn number(row: &Value, name: &str) -> Option<u32> {
    let found = row.get(name).and_then(Value::as_u64)?;
    u32::try_from(found).ok()
}

/// Whether a flag is set.
fn is_set(row: &Value, name: &str, other: bool) -> bool {
    row.get(name).and_then(Value::as_bool).unwrap_or(other)
}

/// The settings that a row turns on, if it names no other.
fn settings(row: &Value) -> Option<EsSyntax> {
    let mut settings = EsSyntax::default();
    for word in list(row, "settings") {
        if !turn_on(&mut settings, text_of(word)) {
            return None;
        }
    }
    Some(settings)
}

/// Whether a row is one of tokens.
pub fn is_of_tokens(row: &Value) -> bool {
    text_or(row, "entry", "") == "lex"
}

/// What a row asks for, if it is written as one.
pub fn asked(row: &Value) -> Option<Asked> {
    let entry = Entry::named(text_or(row, "entry", "parse_script"))?;
    let code = Code::named(text_or(row, "code", "script"))?;
    let settings = settings(row)?;
    Some(Asked {
        entry,
        top_level: is_set(row, "top_level", true),
        times: list(row, "answers").len().max(1),
        settings,
        code,
        limit: number(row, "limit").unwrap_or(1000),
        prints: !is_set(row, "unprinted", false),
    })
}

/// Writes a piece of a text: a text, and how often it stands there.
fn write_piece(out: &mut String, piece: &[Value]) -> Result<(), AllocError> {
    let (Some(text), Some(times)) = (piece.first(), piece.get(1)) else {
        return Ok(());
    };
    let text = text_of(text);
    for _ in 0..times.as_u64().unwrap_or(0) {
        out.push_str(text)?;
    }
    Ok(())
}

/// A row's text: as it stands there, and behind it its pieces.
pub fn text(alloc: Global, row: &Value) -> Result<String, AllocError> {
    let mut out = String::from_str(alloc, text_or(row, "text", ""))?;
    for piece in list(row, "pieces") {
        match piece.as_array() {
            Some(piece) => write_piece(&mut out, piece.as_slice())?,
            None => {}
        }
    }
    Ok(out)
}

/// A row of a line, if the line is JSON.
pub fn read(alloc: Global, line: &str) -> Result<Option<Value>, AllocError> {
    match Value::from_str(alloc, line) {
        Ok(row) => Ok(Some(row)),
        Err(_) => Ok(None),
    }
}
