//! The readers of what stands one level deeper, as a rule sees them.

ghost use Rattle.std.specs.Prelude.{◌≡◌};
ghost use Rattle.swc_ecma_parser_reader.specs.Reader as rules;
ghost use Rattle.swc_ecma_parser_reader.specs.State.{GivesAs};
ghost use Rattle.swc_ecma_parser_shared.specs.Covers.{cover_of, read};
ghost use Rattle.swc_ecma_parser_shared.specs.Nests.{Nests};
ghost use Rattle.swc_ecma_parser_shared.specs.Patterns.{read_pat};

use crate::cover::{Cover, Reading};
use crate::grammar::{Grammar, Part};
use swc_ecma_parser_cursor::Cursor;
use swc_ecma_parser_error::PResult;
use swc_ecma_parser_grammar::Position;
use swc_ecma_parser_trees::{MakerOf, Trees};

/// Reads what stands one level deeper.
pub trait Readers<P: Cursor, T: Trees> {
    ghost use Rattle.std.specs.Prelude.{ℕ};

    /// That each gives what the grammar's reader gives.
    ghost ready: { Self → Type 0 };

    /// How many levels are left there.
    ghost depth: { Self → ℕ };

    /// How many levels are left there.
    fn levels(&self) -> usize
        ensures { result ≡ depth self.now };

    /// Reads a statement at a position.
    fn stmt(&self, t: &MakerOf<T>, p: &mut P, at: Position) -> PResult<T::Stmt>
        requires { ready self.now }
        ensures { GivesAs T.stmt_of (rules.stmt (depth self.now) at (P.seen p.old)) result
            (P.seen p.new) };

    /// Reads an expression, or what may still become a pattern.
    fn expr(&self, t: &MakerOf<T>, p: &mut P, asked: Reading) -> PResult<Cover<T::Expr>>
        requires { ready self.now }
        ensures { GivesAs (cover_of T.expr_of) (read (depth self.now) asked (P.seen p.old)) result
            (P.seen p.new) };

    /// Reads a pattern.
    fn pat(&self, t: &MakerOf<T>, p: &mut P, part: Part) -> PResult<T::Pat>
        requires { ready self.now }
        ensures { GivesAs T.pat_of (read_pat (depth self.now) part (P.seen p.old)) result
            (P.seen p.new) };
}

impl<
    P: Cursor,
    T: Trees,
    S: Fn(&MakerOf<T>, &mut P, usize, Position) -> PResult<T::Stmt>,
    E: Fn(&MakerOf<T>, &mut P, usize, Reading) -> PResult<Cover<T::Expr>>,
    N: Fn(&MakerOf<T>, &mut P, usize, Part) -> PResult<T::Pat>,
> Readers<P, T> for Grammar<S, E, N> {
    ghost ready = { λ g. Nests P.seen T.expr_of T.pat_of T.stmt_of g.depth (S.pre g.stmt) (S.post g.stmt) (E.pre g.expr) (E.post g.expr) (N.pre g.pat) (N.post g.pat) };

    ghost depth = { λ g. g.depth };

    #[inline(always)]
    fn levels(&self) -> usize {
        self.depth
    }

    #[inline(always)]
    fn stmt(&self, t: &MakerOf<T>, p: &mut P, at: Position) -> PResult<T::Stmt> {
        (self.stmt)(t, p, self.depth, at)
    }

    #[inline(always)]
    fn expr(&self, t: &MakerOf<T>, p: &mut P, asked: Reading) -> PResult<Cover<T::Expr>> {
        (self.expr)(t, p, self.depth, asked)
    }

    #[inline(always)]
    fn pat(&self, t: &MakerOf<T>, p: &mut P, part: Part) -> PResult<T::Pat> {
        (self.pat)(t, p, self.depth, part)
    }
}
