//! What stands in parentheses, as the parameters of an arrow function: ECMA-262, section 15.3.

ghost use Rattle.std.specs.Prelude.{◌≡◌, ◌++◌, map, option_map, IfErr, OnOk};
ghost use Rattle.swc_ecma_parser_error.specs.Kind.{IsOutOfMemory};
ghost use Rattle.swc_ecma_parser_shared.specs.Covers.{cover_of};
ghost use Rattle.swc_ecma_parser_reader.specs.Arrows as arrows;
ghost use Rattle.swc_ecma_parser_reader.specs.State.{GivesAs};

use swc_ecma_parser_cursor::Cursor;
use swc_ecma_parser_error::{PResult, SyntaxError};
use swc_ecma_parser_shared::cover::Cover;
use swc_ecma_parser_shared::steps::{grown, pushed};
use swc_ecma_parser_trees::{BuildsPattern, MakerOf, Trees};

/// A part as a parameter.
#[tactic(auto, unfolding(swc_ecma_parser_reader::specs::Arrows::parameter))]
pub(crate) fn parameter<P: Cursor, T: BuildsPattern>(
    t: &MakerOf<T>,
    p: &mut P,
    part: Cover<T::Expr>,
) -> PResult<T::Pat>
    ensures { GivesAs T.pat_of (arrows.parameter (cover_of T.expr_of part) (P.seen p.old)) result
        (P.seen p.new) }
{
    let span = T::expr_span(&part.tree);
    if part.comma {
        return Err(p.reject(SyntaxError::InvalidPat, span));
    }
    let Some(pattern) = grown(p, T::element(t.alloc, part.tree))? else {
        return Err(p.reject(SyntaxError::InvalidPat, span));
    };
    if !T::binds(&pattern) {
        return Err(p.reject(SyntaxError::InvalidPat, span));
    }
    Ok(pattern)
}

/// Puts a rest behind the parameters, if there is one.
fn add_rest<P: Cursor, T: Trees>(
    p: &mut P,
    found: &mut Vec<T::Pat>,
    rest: Option<T::Pat>,
) -> PResult<()>
    ensures found { OnOk result
        (map T.pat_of found.new.items ≡ map T.pat_of found.old.items
        ++ arrows.rest_list (option_map T.pat_of rest)) }
    ensures state { OnOk result (P.seen p.new ≡ P.seen p.old) }
    ensures err { IfErr result IsOutOfMemory }
{
    match rest {
        Some(rest) => pushed(p, found, rest),
        None => Ok(()),
    }
}

/// Each part as a parameter, with a rest behind them.
pub fn parameters_of<P: Cursor, T: BuildsPattern>(
    t: &MakerOf<T>,
    p: &mut P,
    parts: Vec<Cover<T::Expr>>,
    rest: Option<T::Pat>,
) -> PResult<Vec<T::Pat>>
    ensures { GivesAs (λ found. map T.pat_of found.items)
        (arrows.parameters_of (map (cover_of T.expr_of) parts.items) (option_map T.pat_of rest)
        (P.seen p.old)) result (P.seen p.new) }
{
    let mut found = Vec::new(t.alloc);
    'parts: for part in parts {
        let parameter = parameter::<P, T>(t, p, part)?;
        pushed(p, &mut found, parameter)?;
    }
    add_rest::<P, T>(p, &mut found, rest)?;
    Ok(found)
}
