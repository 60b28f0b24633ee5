//! `switch`: ECMA-262, section 14.12.

ghost use Rattle.std.specs.Prelude.{◌≡◌, true, is_some, map};
ghost use Rattle.swc_ecma_parser_grammar.specs.language.Items.{nested_item};
ghost use Rattle.swc_ecma_parser_grammar.specs.language.Goals.{expression};
ghost use Rattle.swc_ecma_parser_reader.specs.Reader as rules;
ghost use Rattle.swc_ecma_parser_reader.specs.State.{GivesAs};
ghost use Rattle.swc_ecma_parser_trees.specs.Parts.{part_of};

use swc_ecma_parser_bodies::body::{Body, begins_clause, body_items};
use swc_ecma_parser_common::Span;
use swc_ecma_parser_cursor::Cursor;
use swc_ecma_parser_error::{PResult, SyntaxError};
use swc_ecma_parser_grammar::Class;
use swc_ecma_parser_input::Context;
use swc_ecma_parser_loops::while_do::head;
use swc_ecma_parser_shared::cover::inside;
use swc_ecma_parser_shared::readers::Readers;
use swc_ecma_parser_shared::steps::{grown, pushed, since};
use swc_ecma_parser_token::TokenKind;
use swc_ecma_parser_trees::{BuildsSwitch, MakerOf};

/// A clause from its `:` on.
#[tactic(auto, unfolding(swc_ecma_parser_reader::specs::Reader::clause_from))]
fn clause_from<P: Cursor, T: BuildsSwitch, G: Readers<P, T>>(
    g: &G,
    t: &MakerOf<T>,
    p: &mut P,
    start: Span,
    test: Option<T::Expr>,
) -> PResult<T::Case>
    requires { G.ready g.now }
    ensures { GivesAs T.case_of
        (rules.clause_from (rules.stmt (G.depth g.now) nested_item) start (part_of T.expr_of test)
        (P.seen p.old)) result (P.seen p.new) }
{
    p.expect(TokenKind::Colon, ":")?;
    let cons = body_items(g, t, p, Body::Clause)?;
    let span = since(p, start);
    grown(p, T::case(t.alloc, span, test, cons))
}

/// A `case`.
#[tactic(auto, unfolding(swc_ecma_parser_reader::specs::Reader::case_clause, swc_ecma_parser_reader::specs::Expressions::inside))]
fn case_clause<P: Cursor, T: BuildsSwitch, G: Readers<P, T>>(
    g: &G,
    t: &MakerOf<T>,
    p: &mut P,
) -> PResult<T::Case>
    requires { G.ready g.now }
    ensures { GivesAs T.case_of
        (rules.case_clause (rules.stmt (G.depth g.now) nested_item)
        (rules.expr (G.depth g.now) expression) (P.seen p.old)) result (P.seen p.new) }
{
    let start = p.span();
    p.skip()?;
    let test = inside(g, t, p, Class::Expression)?;
    clause_from(g, t, p, start, Some(test))
}

/// A `default`, which is refused behind an earlier one.
#[tactic(auto, unfolding(swc_ecma_parser_reader::specs::Reader::default_clause))]
fn default_clause<P: Cursor, T: BuildsSwitch, G: Readers<P, T>>(
    g: &G,
    t: &MakerOf<T>,
    p: &mut P,
    previous: Option<Span>,
) -> PResult<T::Case>
    requires { G.ready g.now }
    ensures { GivesAs T.case_of
        (rules.default_clause (rules.stmt (G.depth g.now) nested_item) (is_some previous)
        (P.seen p.old)) result (P.seen p.new) }
{
    let start = p.span();
    p.skip()?;
    if let Some(previous) = previous {
        return Err(p.refuse_as(SyntaxError::MultipleDefault { previous }));
    }
    clause_from(g, t, p, start, None)
}

/// A clause, behind a `default` or none.
#[tactic(auto, unfolding(swc_ecma_parser_reader::specs::Reader::clause))]
fn clause<P: Cursor, T: BuildsSwitch, G: Readers<P, T>>(
    g: &G,
    t: &MakerOf<T>,
    p: &mut P,
    previous: Option<Span>,
) -> PResult<T::Case>
    requires { G.ready g.now }
    ensures { GivesAs T.case_of
        (rules.clause (rules.stmt (G.depth g.now) nested_item)
        (rules.expr (G.depth g.now) expression) (is_some previous) (P.seen p.old)) result
        (P.seen p.new) }
{
    if p.sees(TokenKind::Case) {
        return case_clause(g, t, p);
    }
    default_clause(g, t, p, previous)
}

/// Clauses one behind another.
#[tactic(auto, unfolding(swc_ecma_parser_reader::specs::Reader::clauses), using(swc_ecma_parser_reader::proofs::Loops::clauses_done, swc_ecma_parser_reader::proofs::Loops::clauses_err, swc_ecma_parser_reader::proofs::Loops::clauses_more, swc_ecma_parser_reader::proofs::Loops::clause_shorter, std::proofs::lemmas::List::map_push))]
fn clauses<P: Cursor, T: BuildsSwitch, G: Readers<P, T>>(
    g: &G,
    t: &MakerOf<T>,
    p: &mut P,
) -> PResult<Vec<T::Case>>
    requires { G.ready g.now }
    ensures { GivesAs (λ found. map T.case_of found.items)
        (rules.clauses (rules.stmt (G.depth g.now) nested_item)
        (rules.expr (G.depth g.now) expression) (P.seen p.old)) result (P.seen p.new) }
{
    let mut found = Vec::new(t.alloc);
    let mut previous = None;
    'clauses: while begins_clause(p) {
        let word = p.span();
        let is_default = p.sees(TokenKind::Default);
        let clause = clause(g, t, p, previous)?;
        pushed(p, &mut found, clause)?;
        if is_default {
            previous = Some(word);
        }
    }
    Ok(found)
}

/// What stands around the clauses of a `switch`.
pub(crate) fn in_breakable(flags: Context) -> Context
    ensures { result ≡ record flags { is_break_allowed = true } }
{
    Context {
        is_break_allowed: true,
        ..flags
    }
}

/// A `switch` statement.
#[tactic(auto, unfolding(swc_ecma_parser_reader::specs::Reader::switch_stmt, swc_ecma_parser_grammar::specs::Looks::spanned))]
#[inline(never)]
pub(crate) fn switch_stmt<P: Cursor, T: BuildsSwitch, G: Readers<P, T>>(
    g: &G,
    t: &MakerOf<T>,
    p: &mut P,
) -> PResult<T::Stmt>
    requires { G.ready g.now }
    ensures { GivesAs T.stmt_of
        (rules.switch_stmt (rules.stmt (G.depth g.now) nested_item)
        (rules.expr (G.depth g.now) expression) (P.seen p.old)) result (P.seen p.new) }
{
    let start = p.span();
    p.skip()?;
    let discriminant = head(g, t, p)?;
    p.expect(TokenKind::LBrace, "{")?;
    let outer = p.flags();
    p.set_flags(in_breakable(outer));
    let cases = clauses(g, t, p)?;
    p.set_flags(outer);
    p.expect(TokenKind::RBrace, "}")?;
    let span = since(p, start);
    grown(p, T::switch(t.alloc, span, discriminant, cases))
}
