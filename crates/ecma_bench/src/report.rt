//! The figures of a run, and the line that tells them.

use crate::command::{Command, Source};
use std::fmt;
use std::time::Duration;

/// What a run found.
#[derive(Clone, Copy)]
pub struct Report<'a> {
    pub command: Command<'a>,
    /// The bytes of the text.
    pub bytes: usize,
    /// The tokens of the text.
    pub tokens: u64,
    /// How long lexing took by itself.
    pub lexing: Duration,
    /// How long the first parse took, with its lexer.
    pub first_parse: Duration,
    /// How long the shortest parse took, with its lexer.
    pub parse: Duration,
    /// How long it took to drop the tree.
    pub letting_go: Duration,
    /// By how many bytes the peak of the process's memory grew over the parse, where that is known.
    pub growth: Option<u64>,
}

fn microseconds(time: Duration) -> u64 {
    u64::try_from(time.as_micros()).unwrap_or(u64::MAX)
}

impl Report<'_> {
    /// How many hundred thousand bytes a second were parsed, where that is known.
    fn speed(&self) -> Option<u64> {
        let bytes = self.bytes as u64;
        bytes.checked_mul(10)?.checked_div(microseconds(self.parse))
    }

    fn bytes_a_token(&self) -> Option<u64> {
        self.growth?.checked_div(self.tokens)
    }
}

/// A figure, or `-` where there is none.
#[derive(Clone, Copy)]
struct Figure(Option<u64>);

/// A figure in tenths, or `-` where there is none.
#[derive(Clone, Copy)]
struct Tenths(Option<u64>);

/// A time in milliseconds, with thousandths.
#[derive(Clone, Copy)]
struct Milliseconds(Duration);

impl fmt::Display for Figure {
    fn fmt<W: fmt::Write>(&self, f: &mut fmt::Formatter<W>) -> fmt::Result {
        match self.0 {
            Some(figure) => write!(f, "{figure}"),
            None => f.write_str("-"),
        }
    }
}

impl fmt::Display for Tenths {
    fn fmt<W: fmt::Write>(&self, f: &mut fmt::Formatter<W>) -> fmt::Result {
        match self.0 {
            Some(tenths) => {
                let whole = tenths / 10;
                let tenth = tenths % 10;
                write!(f, "{whole}.{tenth}")
            }
            None => f.write_str("-"),
        }
    }
}

impl fmt::Display for Milliseconds {
    fn fmt<W: fmt::Write>(&self, f: &mut fmt::Formatter<W>) -> fmt::Result {
        let whole = microseconds(self.0) / 1000;
        let thousandths = microseconds(self.0) % 1000;
        write!(f, "{whole}.{thousandths:03}")
    }
}

impl fmt::Display for Source<'_> {
    fn fmt<W: fmt::Write>(&self, f: &mut fmt::Formatter<W>) -> fmt::Result {
        match self {
            Source::Made { shape, .. } => write!(f, "{shape}"),
            Source::File(name) => f.write_str(name),
        }
    }
}

impl fmt::Display for Report<'_> {
    fn fmt<W: fmt::Write>(&self, f: &mut fmt::Formatter<W>) -> fmt::Result {
        let Report { bytes, tokens, .. } = self;
        let source = self.command.source;
        let lexing = Milliseconds(self.lexing);
        let first_parse = Milliseconds(self.first_parse);
        let parse = Milliseconds(self.parse);
        let letting_go = Milliseconds(self.letting_go);
        let speed = Tenths(self.speed());
        let memory = Figure(self.bytes_a_token());
        write!(
            f,
            "{source}: {bytes} bytes, {tokens} tokens, lexing {lexing} ms, parse {parse} ms, letting go {letting_go} ms, {speed} MB/s, {memory} bytes/token, first parse {first_parse} ms"
        )
    }
}
