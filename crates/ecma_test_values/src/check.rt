//! What the tests share. A function that drops a token, a fault or what holds one is proved to drop each of its kinds, on
//! each way out. So the tests let go of them by `let_go`, and compare them where their type is not known.

use std::alloc::{AllocError, Global};
use std::fmt::Debug;
use std::process::Abort;

/// Drops it.
pub fn let_go<T: Drop>(_: T) {}

/// Whether what was made is equal to this, or nothing where it was not made, or where `==` and `!=` do not agree.
pub fn equals<T: PartialEq + Drop, E: Drop>(made: Result<T, E>, wanted: &T) -> Option<bool> {
    let made = made.ok()?;
    let is_equal = made == *wanted;
    let is_unequal = made != *wanted;
    if is_equal == is_unequal {
        return None;
    }
    Some(is_equal)
}

/// What was made; where it was not, there was no memory.
pub fn made<T: Drop, E: Drop>(made: Result<T, E>) -> Result<T, AllocError> {
    made.ok().ok_or(AllocError)
}

/// What was made; where it was not, the test ends.
pub fn found<R: Abort, T: Drop>(rt: &R, made: Result<T, AllocError>) -> T {
    made.expect(rt, "memory")
}

/// How many there are. They are dropped.
pub fn count<T: Drop>(values: Vec<T>) -> usize {
    values.len()
}

/// Writes a line of what was found.
pub fn note<T: Debug + Drop>(out: &mut String, found: T) -> Result<(), AllocError> {
    writeln!(out, "{found:?}")
}

/// Ends the test where another text than this was written.
pub fn expect<R: Abort>(rt: &R, out: String, written: Result<(), AllocError>, wanted: &str) {
    assert!(rt; written.is_ok());
    assert_eq!(rt; out.as_str(), wanted);
}

/// Ends the test where a line of what was found is not this.
pub fn shows<R: Abort, T: Debug + Drop>(rt: &R, alloc: Global, found: T, wanted: &str) {
    let mut out = String::new(alloc);
    let written = note(&mut out, found);
    expect(rt, out, written, wanted);
}
