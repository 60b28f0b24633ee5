//! Members behind the word `accessor`: the proposal of auto-accessors. A field stands there alone; behind the fault of anything else the
//! member goes on as if the word were not there.

ghost use Rattle.swc_ecma_parser_members.specs.Keys.{member_key_of};
ghost use Rattle.swc_ecma_parser_members.specs.Leading.{leading_of};
ghost use Rattle.swc_ecma_parser_error.specs.Kind as kinds;
ghost use Rattle.swc_ecma_parser_grammar.specs.language.Items.{nested_item};
ghost use Rattle.swc_ecma_parser_reader.specs.Members as members;
ghost use Rattle.swc_ecma_parser_reader.specs.Reader as rules;
ghost use Rattle.swc_ecma_parser_reader.specs.State.{Gives, GivesAs, fault, fault_at};

use crate::decorators::{Leading, misplaced};
use crate::fields::{FieldHead, field};
use crate::keys::{MemberKey, member_key};
use crate::member::{before_constructor, keyed_member};
use crate::methods::{Begin, plain_method, second_static, static_block};
use swc_ecma_parser_classes::words::{begins_block, begins_words};
use swc_ecma_parser_common::Span;
use swc_ecma_parser_cursor::Cursor;
use swc_ecma_parser_error::{PResult, SyntaxError};
use swc_ecma_parser_shared::readers::Readers;
use swc_ecma_parser_token::TokenKind;
use swc_ecma_parser_trees::{BuildsClass, BuildsPattern, MakerOf};

/// Records `accessor` before what is no field.
fn accessor_fault<P: Cursor>(p: &mut P, accessor: Span) -> PResult<()>
    ensures { Gives (fault (fault_at accessor kinds.TS1184) (P.seen p.old)) result (P.seen p.new) }
{
    p.fault(SyntaxError::TS1184, accessor)
}

/// `static` and a block, which is a fault of the `static` before `accessor` too, if one stands there.
#[tactic(auto, unfolding(swc_ecma_parser_reader::specs::Members::static_behind))]
fn static_behind<P: Cursor, T: BuildsClass + BuildsPattern, G: Readers<P, T>>(
    g: &G,
    t: &MakerOf<T>,
    p: &mut P,
    begin: Begin,
) -> PResult<T::Member>
    requires { G.ready g.now }
    ensures { GivesAs T.member_of
        (members.static_behind (rules.expr (G.depth g.now)) (rules.cover (G.depth g.now))
        (rules.stmt (G.depth g.now) nested_item) (rules.parameters (G.depth g.now)) begin.is_static
        begin.start begin.first (P.seen p.old)) result (P.seen p.new) }
{
    if begin.is_static {
        return second_static(g, t, p, begin);
    }
    p.skip()?;
    static_block(g, t, p, begin.start)
}

/// A static block, with a `static` of its own or without it.
#[tactic(auto, unfolding(swc_ecma_parser_reader::specs::Members::block_behind))]
fn block_behind<P: Cursor, T: BuildsClass + BuildsPattern, G: Readers<P, T>>(
    g: &G,
    t: &MakerOf<T>,
    p: &mut P,
    begin: Begin,
) -> PResult<T::Member>
    requires { G.ready g.now }
    ensures { GivesAs T.member_of
        (members.block_behind (rules.expr (G.depth g.now)) (rules.cover (G.depth g.now))
        (rules.stmt (G.depth g.now) nested_item) (rules.parameters (G.depth g.now)) begin.is_static
        begin.start begin.first (P.seen p.old)) result (P.seen p.new) }
{
    if begin.is_static && p.sees(TokenKind::LBrace) {
        return static_block(g, t, p, begin.start);
    }
    static_behind(g, t, p, begin)
}

/// What stands behind a key without words: a method is a fault of `accessor`.
#[tactic(auto, unfolding(swc_ecma_parser_reader::specs::Members::behind_accessed_key))]
fn behind_accessed_key<P: Cursor, T: BuildsClass + BuildsPattern, G: Readers<P, T>>(
    g: &G,
    t: &MakerOf<T>,
    p: &mut P,
    leading: Leading<T::Decorator>,
    begin: Begin,
    accessor: Span,
    word: Span,
    key: MemberKey<T::Expr>,
) -> PResult<T::Member>
    requires { G.ready g.now }
    ensures { GivesAs T.member_of
        (members.behind_accessed_key (rules.expr (G.depth g.now)) (rules.cover (G.depth g.now))
        (rules.stmt (G.depth g.now) nested_item) (rules.parameters (G.depth g.now))
        (leading_of T.decorator_of leading) begin.is_static begin.start begin.first accessor word
        (member_key_of T.expr_of key) (P.seen p.old)) result (P.seen p.new) }
{
    if p.sees(TokenKind::LParen) {
        before_constructor::<P, T>(t.alloc, p, &leading, &key)?;
        accessor_fault(p, accessor)?;
        return plain_method(g, t, p, leading.found, begin, word, key);
    }
    let head = FieldHead {
        is_static: begin.is_static,
        is_accessor: true,
        start: begin.start,
    };
    field(g, t, p, head, leading.found, key)
}

/// What begins with a key, and may be a field.
#[tactic(auto, unfolding(swc_ecma_parser_reader::specs::Members::accessed_key))]
fn accessed_key<P: Cursor, T: BuildsClass + BuildsPattern, G: Readers<P, T>>(
    g: &G,
    t: &MakerOf<T>,
    p: &mut P,
    leading: Leading<T::Decorator>,
    begin: Begin,
    accessor: Span,
) -> PResult<T::Member>
    requires { G.ready g.now }
    ensures { GivesAs T.member_of
        (members.accessed_key (rules.expr (G.depth g.now)) (rules.cover (G.depth g.now))
        (rules.stmt (G.depth g.now) nested_item) (rules.parameters (G.depth g.now))
        (leading_of T.decorator_of leading) begin.is_static begin.start begin.first accessor
        (P.seen p.old)) result (P.seen p.new) }
{
    let word = p.span();
    let key = member_key(g, t, p)?;
    behind_accessed_key(g, t, p, leading, begin, accessor, word, key)
}

/// What stands behind `accessor`.
#[tactic(auto, unfolding(swc_ecma_parser_reader::specs::Members::accessed))]
fn accessed<P: Cursor, T: BuildsClass + BuildsPattern, G: Readers<P, T>>(
    g: &G,
    t: &MakerOf<T>,
    p: &mut P,
    leading: Leading<T::Decorator>,
    begin: Begin,
    accessor: Span,
) -> PResult<T::Member>
    requires { G.ready g.now }
    ensures { GivesAs T.member_of
        (members.accessed (rules.expr (G.depth g.now)) (rules.cover (G.depth g.now))
        (rules.stmt (G.depth g.now) nested_item) (rules.parameters (G.depth g.now))
        (leading_of T.decorator_of leading) begin.is_static begin.start begin.first accessor
        (P.seen p.old)) result (P.seen p.new) }
{
    if begins_block(p, begin.is_static) {
        misplaced::<P, T>(t.alloc, p, &leading)?;
        accessor_fault(p, accessor)?;
        return block_behind(g, t, p, begin);
    }
    if begins_words(p) {
        accessor_fault(p, accessor)?;
        return keyed_member(g, t, p, leading, begin);
    }
    accessed_key(g, t, p, leading, begin, accessor)
}

/// A member with the word `accessor`, from that word on.
#[tactic(auto, unfolding(swc_ecma_parser_reader::specs::Members::accessor_member))]
#[inline(never)]
pub(crate) fn accessor_member<P: Cursor, T: BuildsClass + BuildsPattern, G: Readers<P, T>>(
    g: &G,
    t: &MakerOf<T>,
    p: &mut P,
    leading: Leading<T::Decorator>,
    begin: Begin,
) -> PResult<T::Member>
    requires { G.ready g.now }
    ensures { GivesAs T.member_of
        (members.accessor_member (rules.expr (G.depth g.now)) (rules.cover (G.depth g.now))
        (rules.stmt (G.depth g.now) nested_item) (rules.parameters (G.depth g.now))
        (leading_of T.decorator_of leading) begin.is_static begin.start begin.first (P.seen p.old))
        result (P.seen p.new) }
{
    let accessor = p.span();
    p.skip()?;
    accessed(g, t, p, leading, begin, accessor)
}
