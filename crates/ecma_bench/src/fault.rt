//! Why a run comes to no figures.

ghost use Rattle.std.specs.Prelude.{◌≡◌};
ghost use Rattle.ecma_bench.specs.declared.fault.Fault.TheVariants.{OutOfMemory};

use std::alloc::AllocError;
use thiserror::Error;

/// Why a run comes to no figures. Each is one line on standard error.
#[derive(Clone, Copy, Debug, Error)]
pub enum Fault {
    /// The words are none of those that the program knows.
    #[error("usage: ecma-bench expressions|nests|patterns BYTES, or: ecma-bench file NAME [module]")]
    Usage,
    /// The file cannot be read, or is no text.
    #[error("cannot read the file as UTF-8 text")]
    CannotRead,
    /// Positions in the text do not fit 32 bits.
    #[error("the text is too long")]
    TooLong,
    /// The parser refused the text at these bytes.
    #[error("the text is refused at {low}..{high}: {kind}")]
    Refused {
        low: u32,
        high: u32,
        kind: &'static str,
    },
    /// The parser recorded a fault beside the tree.
    #[error("a fault is recorded at {low}..{high}: {kind}")]
    Recorded {
        low: u32,
        high: u32,
        kind: &'static str,
    },
    /// The clock cannot be read.
    #[error("cannot read the clock")]
    CannotReadClock,
    /// The writer failed.
    #[error("cannot write standard output")]
    CannotWrite,
    /// Memory ran out.
    #[error("out of memory")]
    OutOfMemory,
}

impl From<AllocError> for Fault {
    ghost from_gives = { λ _ e. e ≡ OutOfMemory };

    fn from(_: AllocError) -> Fault {
        Fault::OutOfMemory
    }
}
