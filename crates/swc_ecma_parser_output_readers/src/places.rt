//! The tree's types in the place of a statement, and what stands in a block of its own.

ghost use Rattle.std.specs.Prelude.{◌≡◌, true, refl};
ghost use Rattle.swc_ecma_parser_output_readers.specs.Items.{begins_item};
ghost use Rattle.swc_ecma_parser_reader.specs.State.{GivesAs};

use crate::like::{StmtLikeParser, module_item_as, whole_stmt_as};
use swc_ecma_parser_ast::{ModuleItem, Stmt, StmtBox};
use swc_ecma_parser_cursor::Cursor;
use swc_ecma_parser_error::PResult;
use swc_ecma_parser_grammar::Position;
use swc_ecma_parser_outputs::{FromItem, FromStmt};
use swc_ecma_parser_trees::{BuildsExport, BuildsStatements, BuildsVarDecl, MakerOf, Trees};

impl<P: Cursor, T: BuildsStatements> StmtLikeParser<T, Stmt> for P
where
    Stmt: FromStmt<T>,
{
    ghost use Rattle.swc_ecma_parser_reader.specs.Reader.{whole_stmt};
    ghost use Rattle.swc_ecma_parser_reader.proofs.Loops.{whole_shorter};
    ghost use Rattle.swc_ecma_parser_output_readers.specs.Languages.{statement_language};
    ghost use Rattle.swc_ecma_parser_output_readers.specs.StatementLaws.{AnyCode, any_strict, stmt_is_exact, stmt_leaves};

    ghost language = { statement_language };

    ghost in_code = { AnyCode };

    ghost item = { whole_stmt };

    ghost is_exact = { stmt_is_exact };

    ghost leaves = { stmt_leaves };

    ghost in_strict = { any_strict };

    ghost is_stmt = { λ n at s h. refl };

    ghost takes = { whole_shorter };

    fn handle_import_export(
        &mut self,
        t: &MakerOf<T>,
        limit: usize,
        at: Position,
    ) -> PResult<Stmt> {
        whole_stmt_as::<P, T, Stmt>(t, self, limit, at)
    }
}

impl<P: Cursor, T: BuildsStatements> StmtLikeParser<T, StmtBox> for P
where
    StmtBox: FromStmt<T>,
{
    ghost use Rattle.swc_ecma_parser_reader.specs.Reader.{whole_stmt};
    ghost use Rattle.swc_ecma_parser_reader.proofs.Loops.{whole_shorter};
    ghost use Rattle.swc_ecma_parser_output_readers.specs.Languages.{statement_language};
    ghost use Rattle.swc_ecma_parser_output_readers.specs.StatementLaws.{AnyCode, any_strict, stmt_is_exact, stmt_leaves};

    ghost language = { statement_language };

    ghost in_code = { AnyCode };

    ghost item = { whole_stmt };

    ghost is_exact = { stmt_is_exact };

    ghost leaves = { stmt_leaves };

    ghost in_strict = { any_strict };

    ghost is_stmt = { λ n at s h. refl };

    ghost takes = { whole_shorter };

    fn handle_import_export(
        &mut self,
        t: &MakerOf<T>,
        limit: usize,
        at: Position,
    ) -> PResult<StmtBox> {
        whole_stmt_as::<P, T, StmtBox>(t, self, limit, at)
    }
}

impl<P: Cursor, T: BuildsStatements + BuildsExport + BuildsVarDecl> StmtLikeParser<T, ModuleItem>
    for P
where
    ModuleItem: FromItem<T>,
{
    ghost use Rattle.swc_ecma_parser_output_readers.specs.Items.{item_at};
    ghost use Rattle.swc_ecma_parser_output_readers.specs.ItemLaws.{item_at_stmt, item_at_shorter, item_is_exact, item_leaves, module_strict};
    ghost use Rattle.swc_ecma_parser_output_readers.specs.Languages.{item_language};
    ghost use Rattle.swc_ecma_parser_module_reader.proofs.ModuleCode.{IsModule};

    ghost language = { item_language };

    ghost in_code = { IsModule };

    ghost item = { item_at };

    ghost is_exact = { item_is_exact };

    ghost leaves = { item_leaves };

    ghost in_strict = { module_strict };

    ghost is_stmt = { item_at_stmt };

    ghost takes = { item_at_shorter };

    #[tactic(auto, using(crate::specs::ItemLaws::item_at_item))]
    fn handle_import_export(
        &mut self,
        t: &MakerOf<T>,
        limit: usize,
        at: Position,
    ) -> PResult<ModuleItem> {
        module_item_as::<P, T, ModuleItem>(t, self, limit)
    }
}

/// An import or export, or what has decorators before it, in a block of its own.
fn boxed<P: StmtLikeParser<T, Y>, T: Trees, Y: FromStmt<T> + Drop>(
    t: &MakerOf<T>,
    p: &mut P,
    limit: usize,
    at: Position,
) -> PResult<Box<Y>>
    requires { begins_item (P.seen p.old).code (P.seen p.old).at ≡ true }
    ensures { GivesAs (λ block. Y.held block.value) (P.item limit at (P.seen p.old)) result
        (P.seen p.new) }
{
    let item = p.handle_import_export(t, limit, at)?;
    match Box::new(t.alloc, item) {
        Ok(block) => Ok(block),
        Err(_) => Err(p.out_of_memory()),
    }
}

impl<T: Trees, Y: FromStmt<T> + Drop, P: StmtLikeParser<T, Y>> StmtLikeParser<T, Box<Y>> for P {
    ghost language = { P.language };

    ghost in_code = { P.in_code };

    ghost item = { P.item };

    ghost is_exact = { P.is_exact };

    ghost leaves = { P.leaves };

    ghost in_strict = { P.in_strict };

    ghost is_stmt = { P.is_stmt };

    ghost takes = { P.takes };

    fn handle_import_export(
        &mut self,
        t: &MakerOf<T>,
        limit: usize,
        at: Position,
    ) -> PResult<Box<Y>> {
        boxed::<P, T, Y>(t, self, limit, at)
    }
}
