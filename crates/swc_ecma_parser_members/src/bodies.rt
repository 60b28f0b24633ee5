//! The parameters of methods and constructors, and what is told of them and their body: ECMA-262, sections 15.1 and 15.4.

ghost use Rattle.std.specs.Prelude.{◌≡◌, false, map, IfOk, IfErr};
ghost use Rattle.swc_ecma_parser_error.specs.Kind.{IsOutOfMemory};
ghost use Rattle.swc_ecma_parser_functions.specs.Late.{late};
ghost use Rattle.swc_ecma_parser_grammar.specs.Own as own;
ghost use Rattle.swc_ecma_parser_grammar.specs.Parameters as formal;
ghost use Rattle.swc_ecma_parser_model.specs.Forms as forms;
ghost use Rattle.swc_ecma_parser_model.specs.Tree as tree;
ghost use Rattle.swc_ecma_parser_reader.specs.Reader as rules;
ghost use Rattle.swc_ecma_parser_reader.specs.State.{Gives};

use swc_ecma_parser_cursor::Cursor;
use swc_ecma_parser_error::PResult;
use swc_ecma_parser_functions::function::{FunctionBody, are_plain, as_params, misdirected};
use swc_ecma_parser_trees::{BuildsBlock, BuildsFunction, BuildsPattern, MakerOf};

/// Parameters, and whether each of them is a plain name.
#[derive(Drop)]
pub(crate) struct Parameters<A> {
    pub(crate) params: Vec<A>,
    pub(crate) are_plain: bool,
}

/// Patterns as parameters, and whether each of them is a plain name.
pub(crate) fn made_parameters<P: Cursor, T: BuildsFunction + BuildsPattern>(
    t: &MakerOf<T>,
    p: &mut P,
    pats: Vec<T::Pat>,
) -> PResult<Parameters<T::Param>>
    ensures made { IfOk result
        (λ found. tree.listed (map T.param_of found.params.items)
        ≡ formal.parameters (map T.pat_of pats.items)) }
    ensures plain { IfOk result
        (λ found. found.are_plain
        ≡ forms.has_plain_params (formal.parameters (map T.pat_of pats.items))) }
    ensures state { IfOk result (λ found. P.seen p.new ≡ P.seen p.old) }
    ensures err { IfErr result IsOutOfMemory }
{
    let params = as_params::<P, T>(t, p, pats)?;
    let are_plain = are_plain::<T>(&params);
    Ok(Parameters { params, are_plain })
}

/// Records a directive that says a body is strict, where a parameter is no plain name.
pub(crate) fn misdirected_body<P: Cursor, T: BuildsBlock>(
    p: &mut P,
    are_plain: bool,
    body: &FunctionBody<T::Block>,
) -> PResult<()>
    requires { own.misplaced_directive false (T.block_of body.now.block)
        ≡ late body.now.strict_directive }
    ensures { Gives
        (rules.told (own.misplaced_directive are_plain (T.block_of body.now.block)) (P.seen p.old))
        result (P.seen p.new) }
{
    misdirected(p, are_plain, body.strict_directive)
}
