//! Faults.

use crate::check::{equals, expect, let_go, note};
use crate::places::span;
use std::alloc::{AllocError, Global};
use swc_ecma_parser_common::{Atom, Boxed, Spanned};
use swc_ecma_parser_error::{Error, Labelled, SyntaxError};

fn error(kind: SyntaxError) -> Error {
    Error {
        span: span(3, 4),
        kind,
    }
}

/// A fault that holds one more.
fn labelled(alloc: Global) -> Result<SyntaxError, AllocError> {
    let note = Atom::new(alloc, "a note")?;
    let labelled = Labelled {
        inner: error(SyntaxError::ExpectedIdent),
        span: span(0, 1),
        note,
    };
    Ok(SyntaxError::WithLabel(Boxed::new(alloc, labelled)?))
}

/// A kind of this name.
fn kind(alloc: Global, name: &str) -> Result<SyntaxError, AllocError> {
    let kind = match name {
        "Expected" => SyntaxError::expected(alloc, "from", ",")?,
        "Unexpected" => SyntaxError::unexpected(alloc, "an expression", ")")?,
        "WithLabel" => labelled(alloc)?,
        "ExpectedSemiForExprStmt" => SyntaxError::ExpectedSemiForExprStmt { expr: span(0, 1) },
        _ => SyntaxError::TooDeep,
    };
    Ok(kind)
}

/// Writes the name of a fault and its place, and whether its copy and that of its kind are equal.
fn write_name(out: &mut String, error: &Error) -> Result<(), AllocError> {
    let place = (error.span().lo.0, Spanned::span(error).hi.0);
    let is_copied = equals(error.try_clone(), error);
    let is_kind_copied = equals(error.kind().try_clone(), &error.kind);
    note(out, (error.kind().name(), place, is_copied, is_kind_copied))
}

/// Writes what a fault shows, its text and that of its kind.
fn write_fault(out: &mut String, error: Error) -> Result<(), AllocError> {
    let named = write_name(out, &error);
    let kind = &error.kind;
    let written = writeln!(out, "{error}|{kind}");
    let_go(error);
    named?;
    written
}

fn write_faults(out: &mut String, alloc: Global) -> Result<(), AllocError> {
    for name in &[
        "Expected",
        "Unexpected",
        "WithLabel",
        "TooDeep",
        "ExpectedSemiForExprStmt",
    ] {
        write_fault(out, error(kind(alloc, name)?))?;
    }
    write_fault(out, Error::from(AllocError))
}

// A wanted token is named, and one that no rule takes; a label shows what it holds, and a kind without a text its name.
const FAULTS: &str = r#"("Expected", (3, 4), Some(true), Some(true))
Expected 'from', got ','|Expected 'from', got ','
("Unexpected", (3, 4), Some(true), Some(true))
Unexpected token ')'. Expected an expression|Unexpected token ')'. Expected an expression
("WithLabel", (3, 4), Some(true), Some(true))
Expected ident|Expected ident
("TooDeep", (3, 4), Some(true), Some(true))
TooDeep|TooDeep
("ExpectedSemiForExprStmt", (3, 4), Some(true), Some(true))
ExpectedSemiForExprStmt|ExpectedSemiForExprStmt
("OutOfMemory", (0, 0), Some(true), Some(true))
OutOfMemory|OutOfMemory
"#;

#[test]
fn faults_are_read_and_copied(rt: HostRuntime) {
    let mut out = String::new(rt.alloc());
    let written = write_faults(&mut out, rt.alloc());
    expect(&rt, out, written, FAULTS);
}
