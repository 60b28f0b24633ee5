//! `with`: ECMA-262, section 14.11.

ghost use Rattle.std.specs.Prelude.{◌≡◌, true};
ghost use Rattle.swc_ecma_parser_grammar.specs.language.Contexts as contexts;
ghost use Rattle.swc_ecma_parser_grammar.specs.language.Goals.{expression};
ghost use Rattle.swc_ecma_parser_grammar.specs.language.Items.{sub_statement};
ghost use Rattle.swc_ecma_parser_reader.specs.Reader as rules;
ghost use Rattle.swc_ecma_parser_reader.specs.State.{Gives, GivesAs, within};

use swc_ecma_parser_common::Span;
use swc_ecma_parser_cursor::Cursor;
use swc_ecma_parser_error::{PResult, SyntaxError};
use swc_ecma_parser_input::Context;
use swc_ecma_parser_loops::while_do::head;
use swc_ecma_parser_shared::readers::Readers;
use swc_ecma_parser_shared::steps::{grown, since};
use swc_ecma_parser_statements::simple::SUB_STATEMENT;
use swc_ecma_parser_trees::{BuildsControl, MakerOf, Trees};

/// Says that `with` stands at this word: a fault of module code.
#[tactic(auto, unfolding(swc_ecma_parser_reader::specs::Reader::note_with))]
fn note_with<P: Cursor>(p: &mut P, word: Span) -> PResult<()>
    ensures { Gives (rules.note_with word (P.seen p.old)) result (P.seen p.new) }
{
    p.module_fault(SyntaxError::WithInStrict, word)
}

/// What stands around the body of `with`, which counts as a function's.
fn in_with(flags: Context) -> Context
    ensures { result ≡ record flags { in_function = true } }
{
    Context {
        in_function: true,
        ..flags
    }
}

/// The body of a `with`.
fn scoped<P: Cursor, T: Trees, G: Readers<P, T>>(
    g: &G,
    t: &MakerOf<T>,
    p: &mut P,
) -> PResult<T::Stmt>
    requires { G.ready g.now }
    ensures { GivesAs T.stmt_of
        (within contexts.in_with (rules.stmt (G.depth g.now) sub_statement) (P.seen p.old)) result
        (P.seen p.new) }
{
    let outer = p.flags();
    p.set_flags(in_with(outer));
    let body = g.stmt(t, p, SUB_STATEMENT)?;
    p.set_flags(outer);
    Ok(body)
}

/// A `with` statement.
#[tactic(auto, unfolding(swc_ecma_parser_reader::specs::Reader::with_stmt))]
#[inline(never)]
pub(crate) fn with_stmt<P: Cursor, T: BuildsControl, G: Readers<P, T>>(
    g: &G,
    t: &MakerOf<T>,
    p: &mut P,
) -> PResult<T::Stmt>
    requires { G.ready g.now }
    ensures { GivesAs T.stmt_of
        (rules.with_stmt (rules.stmt (G.depth g.now) sub_statement)
        (rules.expr (G.depth g.now) expression) (P.seen p.old)) result (P.seen p.new) }
{
    let start = p.span();
    p.skip()?;
    note_with(p, start)?;
    let obj = head(g, t, p)?;
    let body = scoped(g, t, p)?;
    let span = since(p, start);
    grown(p, T::with(t.alloc, span, obj, body))
}
