//! The readers of what stands in a class, as its rules see them.

ghost use Rattle.std.specs.Prelude.{◌≡◌};
ghost use Rattle.swc_ecma_parser_classes.specs.Heads.{ReadsClass};
ghost use Rattle.swc_ecma_parser_reader.specs.Classes.{class_of};
ghost use Rattle.swc_ecma_parser_reader.specs.Reader as rules;
ghost use Rattle.swc_ecma_parser_reader.specs.State.{GivesAs};

use swc_ecma_parser_cursor::Cursor;
use swc_ecma_parser_error::PResult;
use swc_ecma_parser_grammar::Class;
use swc_ecma_parser_trees::{BuildsClass, MakerOf};

/// Reads what stands in a class: what it extends, and its members.
pub trait ClassReaders<P: Cursor, T: BuildsClass> {
    ghost use Rattle.std.specs.Prelude.{ℕ};

    /// That each gives what the grammar's reader gives.
    ghost ready: { Self → Type 0 };

    /// How many levels are left there.
    ghost depth: { Self → ℕ };

    /// Reads an expression of a class.
    fn expr(&self, t: &MakerOf<T>, p: &mut P, class: Class) -> PResult<T::Expr>
        requires { ready self.now }
        ensures { GivesAs T.expr_of (rules.expr (depth self.now) (class_of class) (P.seen p.old))
            result (P.seen p.new) };

    /// Reads a member behind those before, whose type it answers.
    fn member(&self, t: &MakerOf<T>, p: &mut P, before: &[T::Member]) -> PResult<T::Member>
        requires { ready self.now }
        ensures { GivesAs T.member_of (rules.member (depth self.now) (P.seen p.old)) result
            (P.seen p.new) };
}

/// Two function values that read these.
#[derive(Clone, Copy)]
pub struct ClassGrammar<E, M> {
    /// How many levels are left there.
    pub depth: usize,
    pub expr: E,
    pub member: M,
}

impl<
    P: Cursor,
    T: BuildsClass,
    E: Fn(&MakerOf<T>, &mut P, usize, Class) -> PResult<T::Expr>,
    M: Fn(&MakerOf<T>, &mut P, usize, &[T::Member]) -> PResult<T::Member>,
> ClassReaders<P, T> for ClassGrammar<E, M> {
    ghost ready = { λ c. ReadsClass P.seen T.expr_of T.member_of c.depth (E.pre c.expr) (E.post c.expr) (M.pre c.member) (M.post c.member) };

    ghost depth = { λ c. c.depth };

    #[inline(always)]
    fn expr(&self, t: &MakerOf<T>, p: &mut P, class: Class) -> PResult<T::Expr> {
        (self.expr)(t, p, self.depth, class)
    }

    #[inline(always)]
    fn member(&self, t: &MakerOf<T>, p: &mut P, before: &[T::Member]) -> PResult<T::Member> {
        (self.member)(t, p, self.depth, before)
    }
}
