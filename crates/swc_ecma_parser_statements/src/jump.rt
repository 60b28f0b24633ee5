//! `break` and `continue`: ECMA-262, sections 14.9 and 14.8.

ghost use Rattle.std.specs.Prelude.{◌≡◌};
ghost use Rattle.swc_ecma_parser_grammar.specs.Own as own;
ghost use Rattle.swc_ecma_parser_reader.specs.Reader as rules;
ghost use Rattle.swc_ecma_parser_reader.specs.State.{Gives, GivesAs};
ghost use Rattle.swc_ecma_parser_statements.specs.Labels.{label_of};

use std::alloc::Global;
use swc_ecma_parser_common::Span;
use swc_ecma_parser_cursor::{Cursor, Wanted};
use swc_ecma_parser_error::{PResult, SyntaxError};
use swc_ecma_parser_model::Ident;
use swc_ecma_parser_shared::ends::ends_at;
use swc_ecma_parser_shared::steps::{grown, since};
use swc_ecma_parser_trees::BuildsControl;

/// A label, where the statement does not end.
#[tactic(auto, unfolding(swc_ecma_parser_reader::specs::Reader::target))]
fn target<P: Cursor>(p: &mut P) -> PResult<Option<Ident>>
    ensures { GivesAs label_of (rules.target (P.seen p.old)) result (P.seen p.new) }
{
    if ends_at(p) {
        return Ok(None);
    }
    let label = p.name(Wanted::Name)?;
    Ok(Some(label))
}

/// Whether a label stands around; none is asked for where none is named.
fn stands_around<P: Cursor>(p: &P, label: &Option<Ident>) -> bool
    ensures { result ≡ own.stands_around (P.seen p.now).scope.labels (label_of label.now) }
{
    match label {
        Some(label) => p.has_label(label.sym.as_str()),
        None => true,
    }
}

/// Records that no such label stands around, or that there is nothing to break.
#[tactic(auto, unfolding(swc_ecma_parser_reader::specs::Reader::unbroken))]
fn unbroken<P: Cursor>(p: &mut P, label: &Option<Ident>, span: Span) -> PResult<()>
    ensures { Gives (rules.unbroken (label_of label.now) span (P.seen p.old)) result
        (P.seen p.new) }
{
    if !stands_around(p, label) {
        p.fault(SyntaxError::TS1116, span)?;
    } else if !p.flags().is_break_allowed {
        p.fault(SyntaxError::TS1105, span)?;
    }
    Ok(())
}

/// A `break` statement.
#[tactic(auto, unfolding(swc_ecma_parser_reader::specs::Reader::break_stmt))]
#[inline(never)]
pub fn break_stmt<P: Cursor, T: BuildsControl>(alloc: Global, p: &mut P) -> PResult<T::Stmt>
    ensures { GivesAs T.stmt_of (rules.break_stmt (P.seen p.old)) result (P.seen p.new) }
{
    let start = p.span();
    p.skip()?;
    let label = target(p)?;
    p.end(Wanted::Token(";"))?;
    let span = since(p, start);
    unbroken(p, &label, span)?;
    grown(p, T::break_stmt(alloc, span, label))
}

/// Records that there is nothing to continue, or that no such label stands around.
#[tactic(auto, unfolding(swc_ecma_parser_reader::specs::Reader::uncontinued))]
fn uncontinued<P: Cursor>(p: &mut P, label: &Option<Ident>, span: Span) -> PResult<()>
    ensures { Gives (rules.uncontinued (label_of label.now) span (P.seen p.old)) result
        (P.seen p.new) }
{
    if !p.flags().is_continue_allowed {
        p.fault(SyntaxError::TS1115, span)?;
    } else if !stands_around(p, label) {
        p.fault(SyntaxError::TS1107, span)?;
    }
    Ok(())
}

/// A `continue` statement.
#[tactic(auto, unfolding(swc_ecma_parser_reader::specs::Reader::continue_stmt))]
#[inline(never)]
pub fn continue_stmt<P: Cursor, T: BuildsControl>(alloc: Global, p: &mut P) -> PResult<T::Stmt>
    ensures { GivesAs T.stmt_of (rules.continue_stmt (P.seen p.old)) result (P.seen p.new) }
{
    let start = p.span();
    p.skip()?;
    let label = target(p)?;
    p.end(Wanted::Token(";"))?;
    let span = since(p, start);
    uncontinued(p, &label, span)?;
    grown(p, T::continue_stmt(alloc, span, label))
}
