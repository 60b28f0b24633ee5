//! Texts that stand in the value itself.
ghost use Rattle.std.specs.Prelude.{◌≡◌, ◌≤◌, length};

use std::marker::Model;
use std::str;

/// How many bytes a short text has at most.
pub(crate) const LONGEST: usize = 22;

/// A text of at most `LONGEST` bytes, and how many it has.
#[derive(Drop)]
pub(crate) struct Short {
    len: u8,
    bytes: [u8; LONGEST],
}

impl Model for Short {
    ghost use Rattle.std.specs.Prelude.{◌≡◌, ◌≤◌, ℕ, List, length, take, IsUtf8};

    ghost Value = { List ℕ };

    ghost view = { λ s. take s.len s.bytes };

    ghost invariant = { λ s. (s.len ≤ 22) × (length s.bytes ≡ 22) × ∥ IsUtf8 (take s.len s.bytes) ∥₁ };
}

impl Short {
    /// A copy of a text.
    #[inline]
    pub(crate) fn new(text: &str) -> Short
        requires { length text.now ≤ 22 }
        ensures { result ≡ text.now }
    {
        let count = text.len();
        let mut bytes = [0; LONGEST];
        bytes[..count].copy_from_slice(text.as_bytes());
        Short {
            len: count as u8,
            bytes,
        }
    }

    /// The text, borrowed.
    #[inline]
    pub(crate) fn as_str(&self) -> &str
        ensures { result.now ≡ self.now }
    {
        unsafe { str::from_utf8_unchecked(&self.bytes[..self.len as usize]) }
    }

    /// An equal text.
    #[inline]
    pub(crate) fn copy(&self) -> Short
        ensures { result ≡ self.now }
    {
        Short {
            len: self.len,
            bytes: self.bytes,
        }
    }
}
