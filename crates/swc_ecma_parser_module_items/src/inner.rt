//! Expressions in exports and objects of attributes, one level further in.

ghost use Rattle.swc_ecma_parser_grammar.specs.language.Contexts.{with_in};
ghost use Rattle.swc_ecma_parser_grammar.specs.language.Goals.{assignment};
ghost use Rattle.swc_ecma_parser_reader.specs.Reader as rules;
ghost use Rattle.swc_ecma_parser_reader.specs.State.{GivesAs, within};

use swc_ecma_parser_cursor::Cursor;
use swc_ecma_parser_error::PResult;
use swc_ecma_parser_grammar::Class;
use swc_ecma_parser_knot::knot::{expression, object_alone};
use swc_ecma_parser_modules::parts::ObjectReader;
use swc_ecma_parser_shared::steps;
use swc_ecma_parser_trees::{BuildsStatements, MakerOf};

/// An expression without commas, in so many levels.
pub fn inner_expr<P: Cursor, T: BuildsStatements>(
    t: &MakerOf<T>,
    p: &mut P,
    depth: usize,
) -> PResult<T::Expr>
    ensures { GivesAs T.expr_of (within with_in (rules.expr depth assignment) (P.seen p.old)) result
        (P.seen p.new) }
{
    let outer = p.flags();
    p.set_flags(steps::with_in(outer));
    let inner = expression::<P, T>(t, p, depth, Class::Assignment)?;
    p.set_flags(outer);
    Ok(inner)
}

/// Objects of attributes, as expressions have them.
pub(crate) struct Objects;

impl<P: Cursor, T: BuildsStatements> ObjectReader<P, T> for Objects {
    fn object_alone(t: &MakerOf<T>, p: &mut P, depth: usize) -> PResult<T::Expr> {
        object_alone::<P, T>(t, p, depth)
    }
}
