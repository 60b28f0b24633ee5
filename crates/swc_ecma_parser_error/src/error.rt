use crate::kind::SyntaxError;
use std::alloc::AllocError;
use swc_ecma_parser_common::{BytePos, Span, Spanned};

/// A fault, with the bytes of the source text that it belongs to.
#[cycle(error)]
#[derive(Debug, PartialEq, Eq, Drop)]
pub struct Error {
    pub span: Span,
    pub kind: SyntaxError,
}

/// The answer of whatever can be refused.
pub type PResult<T> = Result<T, Error>;

impl Error {
    ghost use Rattle.std.specs.Prelude.{◌≡◌, IfOk, IfErr};
    ghost use Rattle.swc_ecma_parser_error.specs.Kind.{fault_of, no_memory};

    /// Where the fault is, in byte offsets.
    pub fn span(&self) -> Span
        ensures { result ≡ self.now.span }
    {
        self.span
    }

    /// What is wrong.
    pub fn kind(&self) -> &SyntaxError
        ensures { result.now ≡ self.now.kind }
    {
        &self.kind
    }

    /// An equal fault, or one of kind `OutOfMemory` at 0.
    #[cycle(copy)]
    pub fn try_clone(&self) -> PResult<Error>
        ensures ok { IfOk result (λ e. e ≡ self.now) }
        ensures err { IfErr result (λ e. fault_of e ≡ no_memory) }
    {
        let kind = self.kind.try_clone()?;
        Ok(Error {
            span: self.span,
            kind,
        })
    }
}

impl Spanned for Error {
    ghost span_of = { λ e. e.span };

    fn span(&self) -> Span {
        self.span
    }
}

impl From<AllocError> for Error {
    ghost use Rattle.std.specs.Prelude.{◌≡◌};
    ghost use Rattle.swc_ecma_parser_error.specs.Kind.{fault_of, no_memory};

    ghost from_gives = { λ _ e. fault_of e ≡ no_memory };

    /// The fault of kind `OutOfMemory` at 0.
    fn from(_: AllocError) -> Error {
        let start = BytePos(0);
        Error {
            span: Span {
                lo: start,
                hi: start,
            },
            kind: SyntaxError::OutOfMemory,
        }
    }
}
