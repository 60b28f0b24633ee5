//! `if`: ECMA-262, section 14.6. A chain of `else if`, which no nesting limit counts, is read in a loop, and put together from its
//! end in another.

ghost use Rattle.std.specs.Prelude.{◌≡◌, ◌≢◌, Err, IfOk, IfErr, map};
ghost use Rattle.swc_ecma_parser_branches.specs.Links.{around, closed_as, link_of};
ghost use Rattle.swc_ecma_parser_error.specs.Kind as kinds;
ghost use Rattle.swc_ecma_parser_error.specs.Kind.{fault_of, kind_of, IsOutOfMemory};
ghost use Rattle.swc_ecma_parser_grammar.specs.language.Goals.{expression};
ghost use Rattle.swc_ecma_parser_grammar.specs.language.Items.{sub_statement};
ghost use Rattle.swc_ecma_parser_model.specs.Tree.{Tree};
ghost use Rattle.swc_ecma_parser_reader.specs.Reader as rules;
ghost use Rattle.swc_ecma_parser_reader.specs.State as reader;
ghost use Rattle.swc_ecma_parser_reader.specs.State.{GivesAs};
ghost use Rattle.swc_ecma_parser_trees.specs.Parts.{part_of};

use std::alloc::{AllocError, Global};
use swc_ecma_parser_common::{Atom, Boxed, Span};
use swc_ecma_parser_cursor::Cursor;
use swc_ecma_parser_error::{Error, Labelled, PResult, SyntaxError};
use swc_ecma_parser_grammar::Class;
use swc_ecma_parser_recovery::recovery::stays_refused;
use swc_ecma_parser_shared::cover::inside;
use swc_ecma_parser_shared::readers::Readers;
use swc_ecma_parser_shared::steps::{grown, pushed, since};
use swc_ecma_parser_statements::simple::SUB_STATEMENT;
use swc_ecma_parser_token::TokenKind;
use swc_ecma_parser_trees::{BuildsControl, MakerOf, Trees};

/// An `if` up to its first statement.
#[derive(Drop)]
pub(crate) struct Link<X, S> {
    /// The word `if`.
    start: Span,
    test: X,
    cons: S,
}

/// The kind of fault that says that another is in a condition.
fn in_condition(alloc: Global, inner: Error, word: Span) -> Result<SyntaxError, AllocError>
    ensures { IfOk result (λ kind. kind_of kind ≡ kinds.WithLabel) }
{
    let note = Atom::new(alloc, "Tried to parse the condition for an if statement")?;
    Ok(SyntaxError::WithLabel(Boxed::new(
        alloc,
        Labelled {
            inner,
            span: word,
            note,
        },
    )?))
}

/// The refusal of a condition behind the word `if`. One for want of memory or depth stays as it is.
#[inline(never)]
fn labelled<P: Cursor>(alloc: Global, p: &mut P, error: Error, word: Span) -> Error
    ensures memory { kind_of result.kind ≢ kinds.OutOfMemory → kind_of error.kind
        ≢ kinds.OutOfMemory }
    ensures gives { kind_of result.kind ≢ kinds.OutOfMemory
        → reader.labelled_as {A = Tree} (Err (fault_of error, P.seen p.old)) ≡ Err (fault_of result, P.seen p.new) }
{
    if stays_refused(p, &error) {
        return error;
    }
    let span = error.span;
    match in_condition(alloc, error, word) {
        Ok(kind) => Error { span, kind },
        Err(_) => p.out_of_memory(),
    }
}

/// `( Expression )` behind the word `if`.
#[tactic(auto, unfolding(swc_ecma_parser_reader::specs::Reader::condition, swc_ecma_parser_reader::specs::State::labelled, swc_ecma_parser_reader::specs::Expressions::inside))]
#[inline(never)]
fn condition<P: Cursor, T: Trees, G: Readers<P, T>>(
    g: &G,
    t: &MakerOf<T>,
    p: &mut P,
    word: Span,
) -> PResult<T::Expr>
    requires { G.ready g.now }
    ensures { GivesAs T.expr_of
        (rules.condition (rules.expr (G.depth g.now) expression) (P.seen p.old)) result
        (P.seen p.new) }
{
    p.expect(TokenKind::LParen, "(")?;
    let test = match inside(g, t, p, Class::Expression) {
        Ok(test) => test,
        Err(error) => return Err(labelled(t.alloc, p, error, word)),
    };
    p.expect(TokenKind::RParen, ")")?;
    Ok(test)
}

/// An `if` up to its first statement.
#[tactic(auto, unfolding(swc_ecma_parser_reader::specs::Reader::link, swc_ecma_parser_reader::specs::Reader::link_from))]
fn next_link<P: Cursor, T: Trees, G: Readers<P, T>>(
    g: &G,
    t: &MakerOf<T>,
    p: &mut P,
) -> PResult<Link<T::Expr, T::Stmt>>
    requires { G.ready g.now }
    ensures { GivesAs (link_of T.expr_of T.stmt_of)
        (rules.link (rules.stmt (G.depth g.now) sub_statement)
        (rules.expr (G.depth g.now) expression) (P.seen p.old)) result (P.seen p.new) }
{
    let start = p.span();
    p.skip()?;
    let test = condition(g, t, p, start)?;
    let cons = g.stmt(t, p, SUB_STATEMENT)?;
    Ok(Link { start, test, cons })
}

/// What stands behind an `else`, if there is one.
#[tactic(auto, unfolding(swc_ecma_parser_reader::specs::Reader::alternative))]
#[inline(never)]
fn alternative<P: Cursor, T: Trees, G: Readers<P, T>>(
    g: &G,
    t: &MakerOf<T>,
    p: &mut P,
) -> PResult<Option<T::Stmt>>
    requires { G.ready g.now }
    ensures { GivesAs (part_of T.stmt_of)
        (rules.alternative (rules.stmt (G.depth g.now) sub_statement) (P.seen p.old)) result
        (P.seen p.new) }
{
    if !p.sees(TokenKind::Else) {
        return Ok(None);
    }
    p.skip()?;
    let alt = g.stmt(t, p, SUB_STATEMENT)?;
    Ok(Some(alt))
}

/// Whether one more `if` of a chain stands behind a link.
#[tactic(auto, unfolding(swc_ecma_parser_reader::specs::Reader::goes_on))]
fn goes_on<P: Cursor>(p: &P) -> bool
    ensures { result ≡ rules.goes_on (P.seen p.now).at }
{
    p.sees(TokenKind::Else) && p.next_sees(TokenKind::If)
}

/// An `if` up to what was read last, with what stands behind its `else`.
fn closed<P: Cursor, T: BuildsControl>(
    alloc: Global,
    p: &mut P,
    link: Link<T::Expr, T::Stmt>,
    alt: Option<T::Stmt>,
) -> PResult<T::Stmt>
    ensures made { IfOk result
        (λ x. T.stmt_of x
        ≡ closed_as (P.seen p.old).at.last (link_of T.expr_of T.stmt_of link)
        (part_of T.stmt_of alt)) }
    ensures state { IfOk result (λ x. P.seen p.new ≡ P.seen p.old) }
    ensures err { IfErr result IsOutOfMemory }
{
    let Link { start, test, cons } = link;
    let span = since(p, start);
    grown(p, T::if_stmt(alloc, span, test, cons, alt))
}

/// A chain around what stands behind its last `else`.
#[tactic(auto, using(crate::proofs::Links::around_push, std::proofs::lemmas::List::map_push))]
fn enclosed<P: Cursor, T: BuildsControl>(
    alloc: Global,
    p: &mut P,
    mut links: Vec<Link<T::Expr, T::Stmt>>,
    last: T::Stmt,
) -> PResult<T::Stmt>
    ensures made { IfOk result
        (λ x. T.stmt_of x
        ≡ around (P.seen p.old).at.last (map (link_of T.expr_of T.stmt_of) links.items)
        (T.stmt_of last)) }
    ensures state { IfOk result (λ x. P.seen p.new ≡ P.seen p.old) }
    ensures err { IfErr result IsOutOfMemory }
{
    let mut stmt = last;
    'links: while let Some(link) = links.pop() {
        stmt = closed::<P, T>(alloc, p, link, Some(stmt))?;
    }
    Ok(stmt)
}

/// An `if` statement.
#[inline(never)]
pub fn if_stmt<P: Cursor, T: BuildsControl, G: Readers<P, T>>(
    g: &G,
    t: &MakerOf<T>,
    p: &mut P,
) -> PResult<T::Stmt>
    requires { G.ready g.now }
    ensures { GivesAs T.stmt_of
        (rules.if_stmt (rules.stmt (G.depth g.now) sub_statement)
        (rules.expr (G.depth g.now) expression) (P.seen p.old)) result (P.seen p.new) }
{
    let mut links = Vec::new(t.alloc);
    'links: loop {
        let link = next_link(g, t, p)?;
        if !goes_on(p) {
            let alt = alternative(g, t, p)?;
            let last = closed::<P, T>(t.alloc, p, link, alt)?;
            return enclosed::<P, T>(t.alloc, p, links, last);
        }
        p.skip()?;
        pushed(p, &mut links, link)?;
    }
}
