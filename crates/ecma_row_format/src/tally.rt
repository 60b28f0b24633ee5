//! How many tries came out as expected.

use std::fmt;

/// How many did, and how many did not.
#[derive(Clone, Copy, Debug, PartialEq, Eq, Default)]
pub struct Tally {
    pub right: u64,
    pub wrong: u64,
}

impl Tally {
    /// Counts one.
    pub fn count(&mut self, is_right: bool) {
        if is_right {
            self.right = self.right.saturating_add(1);
        } else {
            self.wrong = self.wrong.saturating_add(1);
        }
    }
}

impl fmt::Display for Tally {
    fn fmt<W: fmt::Write>(&self, f: &mut fmt::Formatter<W>) -> fmt::Result {
        let right = self.right;
        let wrong = self.wrong;
        write!(f, "{right} as expected, {wrong} not")
    }
}
