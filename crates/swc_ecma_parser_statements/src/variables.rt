//! `var`, `let` and `const`: ECMA-262, sections 14.3.2 and 14.3.1.

ghost use Rattle.std.specs.Prelude.{◌≡◌, ◌&&◌, map};
ghost use Rattle.swc_ecma_parser_grammar.specs.Variables as variables;
ghost use Rattle.swc_ecma_parser_reader.specs.Reader as rules;
ghost use Rattle.swc_ecma_parser_reader.specs.State.{GivesAs};

use swc_ecma_parser_common::Span;
use swc_ecma_parser_cursor::{Cursor, Wanted};
use swc_ecma_parser_error::{PResult, SyntaxError};
use swc_ecma_parser_grammar::{Class, Position};
use swc_ecma_parser_model::VarDeclKind;
use swc_ecma_parser_patterns::pat::inner_pat;
use swc_ecma_parser_recovery::recovery::declaration_end;
use swc_ecma_parser_shared::cover::nested;
use swc_ecma_parser_shared::grammar::Part;
use swc_ecma_parser_shared::readers::Readers;
use swc_ecma_parser_shared::steps::{grown, pushed, since, with_in};
use swc_ecma_parser_token::TokenKind;
use swc_ecma_parser_trees::{BuildsPattern, BuildsVariables, MakerOf};

/// Whether the code is strict, and a declaration one of `const`.
fn is_strict_const<P: Cursor>(p: &P, word: VarDeclKind) -> bool
    ensures { result ≡ (variables.is_const word && (P.seen p.now).code.flags.strict) }
{
    matches!(word, VarDeclKind::Const) && p.flags().strict
}

/// Whether a variable may go without initializer before what stands here.
fn needs_no_initializer<P: Cursor, T: BuildsPattern>(
    p: &P,
    in_head: bool,
    word: VarDeclKind,
    name: &T::Pat,
) -> bool
    ensures { result
        ≡ variables.needs_no_initializer (P.seen p.now).code in_head word (T.pat_of name.now)
        (P.seen p.now).at }
{
    in_head && (p.sees(TokenKind::In) || p.word_at("of"))
        || T::is_binding_name(name) && !is_strict_const(p, word)
}

/// A declarator, in the head of a loop or not.
#[tactic(auto, unfolding(swc_ecma_parser_reader::specs::Reader::declarator, swc_ecma_parser_reader::specs::Reader::initialized))]
fn declarator<P: Cursor, T: BuildsPattern + BuildsVariables, G: Readers<P, T>>(
    g: &G,
    t: &MakerOf<T>,
    p: &mut P,
    in_head: bool,
    word: VarDeclKind,
) -> PResult<T::Declarator>
    requires { G.ready g.now }
    ensures { GivesAs T.declarator_of
        (rules.declarator (rules.expr (G.depth g.now)) (rules.pattern (G.depth g.now)) in_head word
        (P.seen p.old)) result (P.seen p.new) }
{
    let start = p.span();
    let name = inner_pat(g, t, p, Part::Pattern)?;
    if p.sees(TokenKind::Assign) {
        p.skip()?;
        let init = nested(g, t, p, Class::Assignment)?;
        let span = since(p, start);
        return grown(p, T::declarator(t.alloc, span, name, Some(init)));
    }
    let span = since(p, start);
    if !needs_no_initializer::<P, T>(p, in_head, word, &name) {
        if !is_strict_const(p, word) {
            return Err(p.reject(SyntaxError::PatVarWithoutInit, span));
        }
        p.fault(SyntaxError::ConstDeclarationsRequireInitialization, span)?;
    }
    grown(p, T::declarator(t.alloc, span, name, None))
}

/// Whether no declarator begins here: before `;` and at the end of the list.
#[tactic(auto, unfolding(swc_ecma_parser_reader::specs::Reader::ends_declarators))]
fn ends_declarators<P: Cursor>(p: &P) -> bool
    ensures { result ≡ rules.ends_declarators (P.seen p.now).at }
{
    p.sees(TokenKind::Semi) || p.sees(TokenKind::End)
}

/// Where a declarator is missing: at the comma before it, or behind the word that begins the declaration.
fn missing_at<P: Cursor, T: BuildsVariables>(p: &P, found: &[T::Declarator]) -> Span
    ensures { result ≡ rules.missing_at (map T.declarator_of found.now) (P.seen p.now).at }
{
    let last = p.last_span();
    match found {
        [] => Span {
            lo: last.hi,
            hi: last.hi,
        },
        _ => last,
    }
}

/// Declarators with commas between. One that is missing is a fault, behind which the declaration goes on without it.
#[tactic(auto, unfolding(swc_ecma_parser_reader::specs::Reader::declarators), using(swc_ecma_parser_reader::proofs::Loops::declarators_done, swc_ecma_parser_reader::proofs::Loops::declarators_err, swc_ecma_parser_reader::proofs::Loops::declarators_miss, swc_ecma_parser_reader::proofs::Loops::declarators_miss_err, swc_ecma_parser_reader::proofs::Loops::declarators_more, swc_ecma_parser_reader::proofs::Loops::declarators_shorter, std::proofs::lemmas::List::map_push))]
#[inline(never)]
pub fn declarators<P: Cursor, T: BuildsPattern + BuildsVariables, G: Readers<P, T>>(
    g: &G,
    t: &MakerOf<T>,
    p: &mut P,
    in_head: bool,
    word: VarDeclKind,
) -> PResult<Vec<T::Declarator>>
    requires { G.ready g.now }
    ensures { GivesAs (λ found. map T.declarator_of found.items)
        (rules.declarators (rules.expr (G.depth g.now)) (rules.pattern (G.depth g.now)) in_head word
        (P.seen p.old)) result (P.seen p.new) }
{
    let mut found = Vec::new(t.alloc);
    'declarators: loop {
        if ends_declarators(p) {
            let span = missing_at::<P, T>(p, found.as_slice());
            p.fault(SyntaxError::TS1009, span)?;
            return Ok(found);
        }
        let declarator = declarator(g, t, p, in_head, word)?;
        pushed(p, &mut found, declarator)?;
        if !p.sees(TokenKind::Comma) {
            return Ok(found);
        }
        p.skip()?;
    }
}

/// A statement that declares variables.
#[tactic(auto, unfolding(swc_ecma_parser_reader::specs::Reader::variables, swc_ecma_parser_grammar::specs::Looks::spanned))]
#[inline(never)]
pub fn variables<P: Cursor, T: BuildsPattern + BuildsVariables, G: Readers<P, T>>(
    g: &G,
    t: &MakerOf<T>,
    p: &mut P,
    word: VarDeclKind,
) -> PResult<T::Stmt>
    requires { G.ready g.now }
    ensures { GivesAs T.stmt_of
        (rules.variables (rules.expr (G.depth g.now)) (rules.pattern (G.depth g.now)) word
        (P.seen p.old)) result (P.seen p.new) }
{
    let start = p.span();
    p.skip()?;
    let outer = p.flags();
    p.set_flags(with_in(outer));
    let found = declarators(g, t, p, false, word)?;
    p.set_flags(outer);
    declaration_end(g, t, p)?;
    let span = since(p, start);
    grown(p, T::var(t.alloc, span, word, found))
}

/// A statement that begins with `const`, where declarations are read.
#[tactic(auto, unfolding(swc_ecma_parser_reader::specs::Reader::const_stmt))]
#[inline(never)]
pub fn const_stmt<P: Cursor, T: BuildsPattern + BuildsVariables, G: Readers<P, T>>(
    g: &G,
    t: &MakerOf<T>,
    p: &mut P,
    at: Position,
) -> PResult<T::Stmt>
    requires { G.ready g.now }
    ensures { GivesAs T.stmt_of
        (rules.const_stmt (rules.stmt (G.depth g.now)) (rules.expr (G.depth g.now))
        (rules.pattern (G.depth g.now)) (rules.head_cover (G.depth g.now))
        (rules.parameters (G.depth g.now)) (rules.member (G.depth g.now))
        (rules.operators (G.depth g.now)) at (P.seen p.old)) result (P.seen p.new) }
{
    if !at.include_decl {
        return Err(p.wanted(Wanted::Expression));
    }
    variables(g, t, p, VarDeclKind::Const)
}
