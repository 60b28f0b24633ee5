//! The loops whose head is one expression: ECMA-262, sections 14.7.2 and 14.7.3.

ghost use Rattle.std.specs.Prelude.{◌≡◌, true};
ghost use Rattle.swc_ecma_parser_grammar.specs.language.Contexts as contexts;
ghost use Rattle.swc_ecma_parser_grammar.specs.language.Goals.{expression};
ghost use Rattle.swc_ecma_parser_grammar.specs.language.Items.{sub_statement};
ghost use Rattle.swc_ecma_parser_reader.specs.Reader as rules;
ghost use Rattle.swc_ecma_parser_reader.specs.State.{GivesAs, within};

use swc_ecma_parser_cursor::Cursor;
use swc_ecma_parser_error::PResult;
use swc_ecma_parser_grammar::Class;
use swc_ecma_parser_input::Context;
use swc_ecma_parser_shared::cover::inside;
use swc_ecma_parser_shared::readers::Readers;
use swc_ecma_parser_shared::steps::{grown, since};
use swc_ecma_parser_statements::simple::{SUB_STATEMENT, optional_end};
use swc_ecma_parser_token::TokenKind;
use swc_ecma_parser_trees::{BuildsLoop, MakerOf, Trees};

/// `( Expression )` behind the word of a statement.
#[tactic(auto, unfolding(swc_ecma_parser_reader::specs::Reader::head, swc_ecma_parser_reader::specs::Expressions::inside))]
pub fn head<P: Cursor, T: Trees, G: Readers<P, T>>(
    g: &G,
    t: &MakerOf<T>,
    p: &mut P,
) -> PResult<T::Expr>
    requires { G.ready g.now }
    ensures { GivesAs T.expr_of (rules.head (rules.expr (G.depth g.now) expression) (P.seen p.old))
        result (P.seen p.new) }
{
    p.expect(TokenKind::LParen, "(")?;
    let test = inside(g, t, p, Class::Expression)?;
    p.expect(TokenKind::RParen, ")")?;
    Ok(test)
}

/// What stands around the body of a loop.
fn in_loop(flags: Context) -> Context
    ensures { result ≡ record flags { is_break_allowed = true; is_continue_allowed = true } }
{
    Context {
        is_break_allowed: true,
        is_continue_allowed: true,
        ..flags
    }
}

/// The body of a loop.
pub(crate) fn looped<P: Cursor, T: Trees, G: Readers<P, T>>(
    g: &G,
    t: &MakerOf<T>,
    p: &mut P,
) -> PResult<T::Stmt>
    requires { G.ready g.now }
    ensures { GivesAs T.stmt_of
        (within contexts.in_loop (rules.stmt (G.depth g.now) sub_statement) (P.seen p.old)) result
        (P.seen p.new) }
{
    let outer = p.flags();
    p.set_flags(in_loop(outer));
    let body = g.stmt(t, p, SUB_STATEMENT)?;
    p.set_flags(outer);
    Ok(body)
}

/// A `while` statement.
#[tactic(auto, unfolding(swc_ecma_parser_reader::specs::Reader::while_stmt, swc_ecma_parser_grammar::specs::Looks::spanned))]
#[inline(never)]
pub fn while_stmt<P: Cursor, T: BuildsLoop, G: Readers<P, T>>(
    g: &G,
    t: &MakerOf<T>,
    p: &mut P,
) -> PResult<T::Stmt>
    requires { G.ready g.now }
    ensures { GivesAs T.stmt_of
        (rules.while_stmt (rules.stmt (G.depth g.now) sub_statement)
        (rules.expr (G.depth g.now) expression) (P.seen p.old)) result (P.seen p.new) }
{
    let start = p.span();
    p.skip()?;
    let test = head(g, t, p)?;
    let body = looped(g, t, p)?;
    let span = since(p, start);
    grown(p, T::while_stmt(t.alloc, span, test, body))
}

/// A `do` statement.
#[tactic(auto, unfolding(swc_ecma_parser_reader::specs::Reader::do_while, swc_ecma_parser_grammar::specs::Looks::spanned))]
#[inline(never)]
pub fn do_while<P: Cursor, T: BuildsLoop, G: Readers<P, T>>(
    g: &G,
    t: &MakerOf<T>,
    p: &mut P,
) -> PResult<T::Stmt>
    requires { G.ready g.now }
    ensures { GivesAs T.stmt_of
        (rules.do_while (rules.stmt (G.depth g.now) sub_statement)
        (rules.expr (G.depth g.now) expression) (P.seen p.old)) result (P.seen p.new) }
{
    let start = p.span();
    p.skip()?;
    let body = looped(g, t, p)?;
    p.expect(TokenKind::While, "while")?;
    let test = head(g, t, p)?;
    optional_end(p)?;
    let span = since(p, start);
    grown(p, T::do_while(t.alloc, span, test, body))
}
