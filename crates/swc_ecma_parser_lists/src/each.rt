//! What stands in a list, and how one of it is read.

ghost use Rattle.std.specs.Prelude.{◌≡◌};
ghost use Rattle.swc_ecma_parser_reader.specs.State.{GivesAs};

use swc_ecma_parser_cursor::Cursor;
use swc_ecma_parser_error::PResult;
use swc_ecma_parser_grammar::Position;
use swc_ecma_parser_trees::{MakerOf, Trees};

/// A kind of what stands in a list, read from a `P` for the tree `T`.
pub trait Listed<P: Cursor, T: Trees> {
    ghost use Rattle.std.specs.Prelude.{ℕ, ◌<◌, Ok, length};
    ghost use Rattle.swc_ecma_parser_grammar.specs.declared.position.Position.{Position};
    ghost use Rattle.swc_ecma_parser_model.specs.Directive as directive;
    ghost use Rattle.swc_ecma_parser_model.specs.Tree.{Tree};
    ghost use Rattle.swc_ecma_parser_reader.specs.State.{Reader, State};

    /// One of it.
    type Item: Drop;

    /// The tree that it holds.
    ghost held: { Self.Item → Tree };

    /// How one is read in its place, in so many levels.
    ghost item: { ℕ → Position → Reader Tree };

    /// Whether it is `'use strict'` or `"use strict"` as written, with no parentheses.
    fn is_use_strict(one: &Self::Item) -> bool
        ensures { result ≡ directive.is_use_strict (held one.now) };

    /// Whether a directive can stand behind it: section 11.2.1 of ECMA-262.
    fn can_precede_directive(one: &Self::Item) -> bool
        ensures { result ≡ directive.is_string_statement (held one.now) };

    /// One, which may nest so many levels deep.
    fn read(t: &MakerOf<T>, p: &mut P, limit: usize, at: Position) -> PResult<Self::Item>
        ensures { GivesAs held (item limit at (P.seen p.old)) result (P.seen p.new) };

    /// It takes a token at least.
    ghost takes: { (n : ℕ) (at : Position) (s : State) (x : Tree) (t : State) → item n at s ≡ Ok (x, t) → length t.at.left < length s.at.left };
}
