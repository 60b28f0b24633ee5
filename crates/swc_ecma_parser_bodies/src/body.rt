//! Statements one behind another: blocks, and the bodies of functions and clauses (ECMA-262, sections 14.2, 14.12 and 15.2).

ghost use Rattle.std.specs.Prelude.{◌≡◌, true, false, map, IfOk, IfErr};
ghost use Rattle.swc_ecma_parser_error.specs.Kind as kinds;
ghost use Rattle.swc_ecma_parser_error.specs.Kind.{kind_of, IsOutOfMemory};
ghost use Rattle.swc_ecma_parser_bodies.specs.Bodies.{ends_of, directs_of};
ghost use Rattle.swc_ecma_parser_grammar.specs.language.Items.{directed, directs_on, nested_item};
ghost use Rattle.swc_ecma_parser_reader.specs.Reader as rules;
ghost use Rattle.swc_ecma_parser_reader.specs.State as reader;
ghost use Rattle.swc_ecma_parser_reader.specs.State.{Gives, GivesAs};

use std::alloc::Global;
use swc_ecma_parser_cursor::Cursor;
use swc_ecma_parser_error::{PResult, SyntaxError};
use swc_ecma_parser_grammar::Position;
use swc_ecma_parser_input::Context;
use swc_ecma_parser_shared::readers::Readers;
use swc_ecma_parser_shared::steps::{grown, pushed, since};
use swc_ecma_parser_token::TokenKind;
use swc_ecma_parser_trees::{BuildsBlock, BuildsStmt, MakerOf, Trees};

/// What holds statements one behind another.
#[derive(Clone, Copy)]
pub enum Body {
    /// A block, up to its `}`.
    Block,
    /// The body of a function, up to its `}`, where the first strings are directives.
    Function,
    /// A clause of a `switch`, up to the next one or to the `}` behind all.
    Clause,
}

/// A statement in a block or a body.
const NESTED_ITEM: Position = Position {
    include_decl: true,
    top_level: false,
};

/// Whether a block's statements end here.
#[tactic(auto, unfolding(swc_ecma_parser_reader::specs::Reader::closes))]
fn closes<P: Cursor>(p: &P) -> bool
    ensures { result ≡ rules.closes (P.seen p.now).at }
{
    p.sees(TokenKind::RBrace) || p.sees(TokenKind::End)
}

/// The fault of a `}` that is missing at the end of the list.
fn missing_brace<P: Cursor>(alloc: Global, p: &mut P) -> PResult<SyntaxError>
    ensures kind { IfOk result (λ kind. kind_of kind ≡ kinds.Expected) }
    ensures state { IfOk result (λ kind. P.seen p.new ≡ P.seen p.old) }
    ensures err { IfErr result IsOutOfMemory }
{
    grown(p, SyntaxError::expected(alloc, "}", "<eof>"))
}

/// The `}` of a block, or a fault where the list has ended.
#[tactic(auto, unfolding(swc_ecma_parser_reader::specs::Reader::close))]
#[inline(never)]
pub fn close<P: Cursor>(alloc: Global, p: &mut P) -> PResult<()>
    ensures { Gives (rules.close (P.seen p.old)) result (P.seen p.new) }
{
    if p.sees(TokenKind::RBrace) {
        return p.skip();
    }
    let kind = missing_brace(alloc, p)?;
    let span = p.span();
    p.fault(kind, span)
}

/// Whether a clause of a `switch` begins here.
#[tactic(auto, unfolding(swc_ecma_parser_reader::specs::Reader::begins_clause))]
pub fn begins_clause<P: Cursor>(p: &P) -> bool
    ensures { result ≡ rules.begins_clause (P.seen p.now).at }
{
    p.sees(TokenKind::Case) || p.sees(TokenKind::Default)
}

/// Whether the statements of a clause end here.
#[tactic(auto, unfolding(swc_ecma_parser_reader::specs::Reader::closes_clause))]
fn closes_clause<P: Cursor>(p: &P) -> bool
    ensures { result ≡ rules.closes_clause (P.seen p.now).at }
{
    begins_clause(p) || closes(p)
}

/// Whether the statements of a body end here.
fn ends<P: Cursor>(p: &P, body: Body) -> bool
    ensures { result ≡ ends_of body (P.seen p.now).at }
{
    match body {
        Body::Block | Body::Function => closes(p),
        Body::Clause => closes_clause(p),
    }
}

/// The context of strict mode code.
fn in_strict(flags: Context) -> Context
    ensures { result ≡ record flags { strict = true } }
{
    Context {
        strict: true,
        ..flags
    }
}

/// Turns strict what follows a directive that says so, and says whether the next statement can be a directive too.
pub fn direct<P: Cursor, T: Trees>(p: &mut P, directives: bool, x: &T::Stmt) -> bool
    ensures state { P.seen p.new
        ≡ reader.coded (directed (P.seen p.old).code directives (T.stmt_of x.now)) (P.seen p.old) }
    ensures next { result ≡ directs_on directives (T.stmt_of x.now) }
{
    if directives && T::is_use_strict(x) {
        let flags = p.flags();
        p.set_flags(in_strict(flags));
    }
    directives && T::is_string_statement(x)
}

/// Whether the strings that stand first are directives.
fn has_directives(body: Body) -> bool
    ensures { result ≡ directs_of body }
{
    match body {
        Body::Function => true,
        Body::Block | Body::Clause => false,
    }
}

/// The statements of a block, a body or a clause.
#[tactic(auto, unfolding(swc_ecma_parser_reader::specs::Reader::items), using(swc_ecma_parser_reader::proofs::Loops::items_stop, swc_ecma_parser_reader::proofs::Loops::items_err, crate::proofs::Items::body_more, crate::proofs::Items::body_next, swc_ecma_parser_reader::proofs::Loops::stmt_shorter, std::proofs::lemmas::List::map_push))]
pub fn body_items<P: Cursor, T: Trees, G: Readers<P, T>>(
    g: &G,
    t: &MakerOf<T>,
    p: &mut P,
    body: Body,
) -> PResult<Vec<T::Stmt>>
    requires { G.ready g.now }
    ensures { GivesAs (λ found. map T.stmt_of found.items)
        (rules.items (rules.stmt (G.depth g.now) nested_item) (ends_of body) (directs_of body)
        (P.seen p.old)) result (P.seen p.new) }
{
    let mut found = Vec::new(t.alloc);
    let mut directives = has_directives(body);
    'items: while !ends(p, body) {
        let stmt = g.stmt(t, p, NESTED_ITEM)?;
        directives = direct::<P, T>(p, directives, &stmt);
        pushed(p, &mut found, stmt)?;
    }
    Ok(found)
}

/// A block as a statement.
#[tactic(auto, unfolding(swc_ecma_parser_reader::specs::Reader::block, swc_ecma_parser_reader::specs::Reader::block_from, swc_ecma_parser_grammar::specs::Looks::spanned))]
#[inline(never)]
pub fn block<P: Cursor, T: BuildsStmt, G: Readers<P, T>>(
    g: &G,
    t: &MakerOf<T>,
    p: &mut P,
) -> PResult<T::Stmt>
    requires { G.ready g.now }
    ensures { GivesAs T.stmt_of
        (rules.block (rules.stmt (G.depth g.now) nested_item) (P.seen p.old)) result
        (P.seen p.new) }
{
    let start = p.span();
    p.skip()?;
    let body = body_items(g, t, p, Body::Block)?;
    close(t.alloc, p)?;
    let span = since(p, start);
    grown(p, T::block(t.alloc, span, body))
}

/// A block that must stand here, as a part of another form.
#[tactic(auto, unfolding(swc_ecma_parser_reader::specs::Reader::braced, swc_ecma_parser_reader::specs::Reader::block_from, swc_ecma_parser_grammar::specs::Looks::spanned))]
pub fn braced<P: Cursor, T: BuildsBlock, G: Readers<P, T>>(
    g: &G,
    t: &MakerOf<T>,
    p: &mut P,
) -> PResult<T::Block>
    requires { G.ready g.now }
    ensures { GivesAs T.block_of
        (rules.braced (rules.stmt (G.depth g.now) nested_item) false (P.seen p.old)) result
        (P.seen p.new) }
{
    let start = p.span();
    p.expect(TokenKind::LBrace, "{")?;
    let stmts = body_items(g, t, p, Body::Block)?;
    close(t.alloc, p)?;
    let span = since(p, start);
    grown(p, T::body(t.alloc, span, stmts))
}
