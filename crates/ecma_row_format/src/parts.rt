//! Parts of nodes in a printed tree.

use std::alloc::{AllocError, Global};

/// How a place is printed.
fn printed_span(alloc: Global, place: &str) -> Result<String, AllocError> {
    let (low, high) = place.split_once("..").unwrap_or((place, ""));
    format!(in alloc; "span: Span {{ lo: BytePos({low}), hi: BytePos({high}) }}")
}

/// Where a letter stands: how many brackets are open there, and whether it is in quotes.
#[derive(Clone, Copy)]
struct At {
    depth: u32,
    is_quoted: bool,
    is_escaped: bool,
}

/// What is ahead of a text that begins inside a node.
const START: At = At {
    depth: 1,
    is_quoted: false,
    is_escaped: false,
};

/// The same behind a letter in quotes.
fn behind_quoted(at: At, letter: char) -> At {
    At {
        depth: at.depth,
        is_quoted: at.is_escaped || letter != '"',
        is_escaped: !at.is_escaped && letter == '\\',
    }
}

/// The same behind a letter.
fn behind(at: At, letter: char) -> At {
    if at.is_quoted {
        return behind_quoted(at, letter);
    }
    let depth = match letter {
        '{' | '[' | '(' => at.depth.saturating_add(1),
        '}' | ']' | ')' => at.depth.saturating_sub(1),
        _ => at.depth,
    };
    At {
        depth,
        is_quoted: letter == '"',
        is_escaped: false,
    }
}

/// Whether a field that is printed has this name and is as wanted: in full, or by its first place or its first text.
fn is_field(alloc: Global, field: &str, name: &str, wanted: &str) -> Result<bool, AllocError> {
    let Some((found, value)) = field.trim_start().split_once(": ") else {
        return Ok(false);
    };
    if found != name {
        return Ok(false);
    }
    let span = printed_span(alloc, wanted)?;
    let (_, behind) = value.split_once("span: Span").unwrap_or((value, ""));
    let is_first_span = match span.as_str().strip_prefix("span: Span") {
        Some(rest) => behind.starts_with(rest),
        None => false,
    };
    let (_, text) = value.split_once("text: \"").unwrap_or((value, ""));
    let is_first_text = match text.split_once('"') {
        Some((text, _)) => text == wanted,
        None => false,
    };
    Ok(value.trim_end() == wanted || is_first_span || is_first_text)
}

/// Whether one of the fields of a node, of which this is printed behind its span, is as wanted.
fn has_field(alloc: Global, text: &str, name: &str, wanted: &str) -> Result<bool, AllocError> {
    let mut field = String::new(alloc);
    let mut at = START;
    for letter in text.chars() {
        at = behind(at, letter);
        let ends = at.depth == 0 || (at.depth == 1 && !at.is_quoted && letter == ',');
        if ends && is_field(alloc, field.as_str(), name, wanted)? {
            return Ok(true);
        }
        if at.depth == 0 {
            return Ok(false);
        }
        if ends {
            field.clear();
        } else {
            field.push(letter)?;
        }
    }
    Ok(false)
}

/// Whether a tree has a node with a part that is written `NODE LOW..HIGH FIELD: VALUE`. The value is the field as it is printed, or
/// its first place, or its first text.
pub fn has_part(alloc: Global, trees: &str, written: &str) -> Result<bool, AllocError> {
    let (node, rest) = written.split_once(' ').unwrap_or((written, ""));
    let (place, rest) = rest.split_once(' ').unwrap_or((rest, ""));
    let (name, wanted) = rest.split_once(": ").unwrap_or((rest, ""));
    let span = printed_span(alloc, place)?;
    let span = span.as_str();
    let start = format!(in alloc; "{node} {{ {span}")?;
    for behind in trees.split(start.as_str()).skip(1) {
        if has_field(alloc, behind, name, wanted)? {
            return Ok(true);
        }
    }
    Ok(false)
}
