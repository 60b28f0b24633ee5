//! The readers of what stands in so many levels, for a rule that is called from outside the parser.

use swc_ecma_parser_cursor::Cursor;
use swc_ecma_parser_error::PResult;
use swc_ecma_parser_grammar::Position;
use swc_ecma_parser_knot::knot;
use swc_ecma_parser_shared::cover::{Cover, Reading};
use swc_ecma_parser_shared::grammar::Part;
use swc_ecma_parser_shared::readers::Readers;
use swc_ecma_parser_trees::{BuildsStatements, MakerOf};

/// The parser's own readers of statements, expressions and patterns, with what stands in them in so many levels.
#[derive(Clone, Copy)]
pub struct Levels {
    /// How many levels are left.
    pub depth: usize,
}

impl<P: Cursor, T: BuildsStatements> Readers<P, T> for Levels {
    ghost ready = { λ levels. Unit {0} };

    ghost depth = { λ levels. levels.depth };

    fn levels(&self) -> usize {
        self.depth
    }

    fn stmt(&self, t: &MakerOf<T>, p: &mut P, at: Position) -> PResult<T::Stmt> {
        knot::stmt::<P, T>(t, p, self.depth, at)
    }

    fn expr(&self, t: &MakerOf<T>, p: &mut P, asked: Reading) -> PResult<Cover<T::Expr>> {
        knot::expr::<P, T>(t, p, self.depth, asked)
    }

    fn pat(&self, t: &MakerOf<T>, p: &mut P, part: Part) -> PResult<T::Pat> {
        knot::pat::<P, T>(t, p, self.depth, part)
    }
}
