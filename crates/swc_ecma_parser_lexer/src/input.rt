ghost use Rattle.std.specs.Prelude.{◌≡◌, ◌+◌, length};

use swc_ecma_parser_common::BytePos;

/// A text that stands at positions: from `start` to `end`, counted in bytes.
#[derive(Debug, PartialEq, Eq, Drop)]
pub struct StringInput<'a> {
    src: &'a str,
    start: BytePos,
    end: BytePos,
    ghost fits: { start.0 + length src.now ≡ end.0 },
}

impl<'a> StringInput<'a> {
    /// A text that starts at a position, and ends at another one.
    pub fn new(src: &'a str, start: BytePos, end: BytePos) -> StringInput<'a>
        requires { start.0 + length src.now ≡ end.0 }
        ensures src { result.src.now ≡ src.entry.now }
        ensures start { result.start ≡ start }
        ensures end { result.end ≡ end }
    {
        StringInput { src, start, end }
    }

    /// The text.
    pub fn text(&self) -> &'a str
        ensures text { result.now ≡ self.now.src.now }
        ensures fits { self.now.start.0 + length result.now ≡ self.now.end.0 }
    {
        self.src
    }

    /// Where it starts.
    pub fn start(&self) -> BytePos
        ensures { result ≡ self.now.start }
    {
        self.start
    }

    /// Where it ends.
    pub fn end(&self) -> BytePos
        ensures { result ≡ self.now.end }
    {
        self.end
    }
}
