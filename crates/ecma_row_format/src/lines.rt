//! Lines of answers, and whether they are those that a row says.

use crate::row::{list, text_of};
use serde_json::Value;

/// What stands behind the lines of an answer.
pub const END: &str = ".\n";

/// Whether no fault and no refusal stands in these lines.
pub fn is_clean(lines: &str) -> bool {
    !lines.lines().any(|line| line.starts_with("fault ") || line.starts_with("refused "))
}

/// The first line, and what stands behind it.
fn cut(lines: &str) -> (&str, &str) {
    lines.split_once('\n').unwrap_or((lines, ""))
}

/// Whether a line says what is wanted, and maybe more of the same.
fn says(line: &str, wanted: &str) -> bool {
    match line.trim_start().strip_prefix(wanted) {
        Some(rest) => rest.is_empty() || rest.starts_with(':') || rest.starts_with(' '),
        None => false,
    }
}

/// Whether a line is one of a tree.
fn is_of_tree(line: &str) -> bool {
    !line.is_empty() && line != "." && !line.starts_with("fault ") && !line.starts_with("refused ")
}

/// What stands behind the lines of a tree, if there are some.
fn behind_tree(lines: &str) -> Option<&str> {
    let mut left = lines;
    for line in lines.lines() {
        if !is_of_tree(line) {
            break;
        }
        left = cut(left).1;
    }
    if left.len() == lines.len() {
        return None;
    }
    Some(left)
}

/// What stands behind a line that is wanted, or behind those of a tree.
fn behind_line<'a>(lines: &'a str, wanted: &str) -> Option<&'a str> {
    if wanted == "tree" {
        return behind_tree(lines);
    }
    let (line, rest) = cut(lines);
    if says(line, wanted) {
        return Some(rest);
    }
    None
}

/// What stands behind an answer that has these lines and no other.
fn behind_answer<'a>(lines: &'a str, wanted: &[Value]) -> Option<&'a str> {
    let mut left = lines;
    for line in wanted {
        left = behind_line(left, text_of(line))?;
    }
    left.strip_prefix(END)
}

/// Whether the answers are those that a row says.
pub fn answers_agree(lines: &str, row: &Value) -> bool {
    let answers = list(row, "answers");
    if answers.is_empty() {
        return behind_answer(lines, list(row, "answer")) == Some("");
    }
    let mut left = lines;
    for answer in answers {
        let wanted = match answer.as_array() {
            Some(wanted) => wanted.as_slice(),
            None => &[],
        };
        match behind_answer(left, wanted) {
            Some(rest) => left = rest,
            None => return false,
        }
    }
    left.is_empty()
}

/// Whether these are the lines that stand under a name.
pub fn lines_agree(lines: &str, row: &Value, name: &str) -> bool {
    let mut left = lines;
    for line in list(row, name) {
        match behind_line(left, text_of(line)) {
            Some(rest) => left = rest,
            None => return false,
        }
    }
    left.is_empty()
}
