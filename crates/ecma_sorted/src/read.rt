//! Statements read as parts, by the readers that are written once for every type.

ghost use Rattle.std.specs.Prelude.{◌≡◌, true, refl, map};
ghost use Rattle.ecma_sorted.specs.Parts.{view_part};
ghost use Rattle.swc_ecma_parser_grammar.specs.language.Items.{top_item};
ghost use Rattle.swc_ecma_parser_reader.specs.Reader as rules;
ghost use Rattle.swc_ecma_parser_reader.specs.State.{GivesAs};
ghost use Rattle.swc_ecma_parser_state.specs.Contents.{seen};
ghost use Rattle.swc_ecma_parser_state.specs.Opened.{begun};

use crate::part::Part;
use std::alloc::Global;
use std::marker::Brand;
use swc_ecma_parser_ast_trees::Ast;
use swc_ecma_parser_error::PResult;
use swc_ecma_parser_grammar::Position;
use swc_ecma_parser_input::Tokens;
use swc_ecma_parser_output_readers::{ListEnd, StmtLikeParser, block_body, whole_stmt_as};
use swc_ecma_parser_state::{Call, Origin, State};
use swc_ecma_parser_trees::{Maker, MakerOf};

/// A statement of the list itself.
const TOP_ITEM: Position = Position {
    include_decl: true,
    top_level: true,
};

/// An import or export is refused, as in a script.
impl<O: Origin, I: Tokens> StmtLikeParser<Ast, Part> for Call<O, I> {
    ghost use Rattle.swc_ecma_parser_output_readers.specs.Languages.{statement_language};
    ghost use Rattle.swc_ecma_parser_output_readers.specs.StatementLaws.{AnyCode, any_strict, stmt_is_exact, stmt_leaves};
    ghost use Rattle.swc_ecma_parser_reader.proofs.Loops.{whole_shorter};

    ghost language = { statement_language };

    ghost in_code = { AnyCode };

    ghost item = { rules.whole_stmt };

    ghost is_exact = { stmt_is_exact };

    ghost leaves = { stmt_leaves };

    ghost in_strict = { any_strict };

    ghost is_stmt = { λ n at s h. refl };

    ghost takes = { whole_shorter };

    fn handle_import_export(
        &mut self,
        t: &MakerOf<Ast>,
        limit: usize,
        at: Position,
    ) -> PResult<Part> {
        whole_stmt_as::<Call<O, I>, Ast, Part>(t, self, limit, at)
    }
}

/// The parts up to the end, in a call that begins here.
fn parts_from<O: Origin, I: Tokens>(
    alloc: Global,
    state: State<I>,
    limit: usize,
) -> (State<I>, PResult<Vec<Part>>)
    requires { O.start ≡ state }
    ensures { GivesAs (λ found. map view_part found.items)
        (rules.items (rules.whole_stmt limit top_item) rules.at_end true (begun (seen state)))
        result.1 (seen result.0) }
{
    let mut call = state.begin::<O>();
    let maker: MakerOf<Ast> = Maker::new(alloc);
    let read = block_body::<Call<O, I>, Ast, Part>(
        &maker,
        &mut call,
        limit,
        TOP_ITEM,
        ListEnd::Tokens,
        true,
    );
    maker.finish();
    (call.end(), read)
}

/// The parts up to the end of the tokens, the first of which can be directives; they may nest so many levels deep.
pub fn parts<I: Tokens>(
    alloc: Global,
    state: State<I>,
    limit: usize,
) -> (State<I>, PResult<Vec<Part>>)
    ensures { GivesAs (λ found. map view_part found.items)
        (rules.items (rules.whole_stmt limit top_item) rules.at_end true (begun (seen state)))
        result.1 (seen result.0) }
{
    parts_from::<Brand, I>(alloc, state, limit)
}
