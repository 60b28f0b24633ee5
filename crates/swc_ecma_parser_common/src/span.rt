ghost use Rattle.std.specs.Prelude.{◌≡◌, min, max};

/// A position in a source text: an offset in bytes of UTF-8. A text may start at another position than 0.
#[derive(Clone, Copy, Debug, PartialEq, Eq, PartialOrd, Ord)]
pub struct BytePos(pub u32);

/// The half-open range of bytes from `lo` up to `hi`, both of them byte offsets. Nothing says here that `lo` comes first:
/// `Span::new` puts it first.
#[derive(Clone, Copy, Debug, PartialEq, Eq)]
pub struct Span {
    pub lo: BytePos,
    pub hi: BytePos,
}

impl Span {
    /// The span between two positions, the smaller one first.
    pub fn new(a: BytePos, b: BytePos) -> Span
        ensures lo { result.lo.0 ≡ min a.0 b.0 }
        ensures hi { result.hi.0 ≡ max a.0 b.0 }
    {
        if a.0 <= b.0 {
            Span { lo: a, hi: b }
        } else {
            Span { lo: b, hi: a }
        }
    }

    /// Where it starts: the offset of its first byte.
    pub fn lo(self) -> BytePos
        ensures { result ≡ self.lo }
    {
        self.lo
    }

    /// Where it ends: the offset behind its last byte.
    pub fn hi(self) -> BytePos
        ensures { result ≡ self.hi }
    {
        self.hi
    }
}

/// What has a place in the source text.
pub trait Spanned {
    ghost use Rattle.swc_ecma_parser_common.specs.declared.span.Span.{Span};

    ghost span_of: { Self → Span };

    /// From the start of its first token to the end of its last.
    fn span(&self) -> Span
        ensures { result ≡ span_of self.now };
}

impl Spanned for Span {
    ghost span_of = { λ s. s };

    fn span(&self) -> Span {
        *self
    }
}
