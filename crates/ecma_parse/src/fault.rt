//! Why a run comes to no answer.

ghost use Rattle.std.specs.Prelude.{◌≡◌};
ghost use Rattle.ecma_parse.specs.declared.fault.Fault.TheVariants.{OutOfMemory};

use std::alloc::AllocError;
use thiserror::Error;

/// Why a run comes to no answer. Each is one line on standard error.
#[derive(Clone, Copy, Debug, PartialEq, Eq, Error)]
pub enum Fault {
    /// The words are none of those that the program knows.
    #[error("usage: ecma-parse script|module|program")]
    Usage,
    /// The reader failed.
    #[error("cannot read standard input")]
    CannotRead,
    /// There is more to read than the greatest length.
    #[error("input is too long")]
    TooLong,
    /// What was read is no text.
    #[error("input is not UTF-8")]
    NotUtf8,
    /// The writer failed.
    #[error("cannot write standard output")]
    CannotWrite,
    /// Memory ran out.
    #[error("out of memory")]
    OutOfMemory,
}

impl From<AllocError> for Fault {
    ghost from_gives = { λ _ e. e ≡ OutOfMemory };

    fn from(_: AllocError) -> Fault {
        Fault::OutOfMemory
    }
}
