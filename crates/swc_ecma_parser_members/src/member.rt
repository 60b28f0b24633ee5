//! Members: ClassElement, ECMA-262, section 15.7.

ghost use Rattle.swc_ecma_parser_members.specs.Keys.{member_key_of};
ghost use Rattle.swc_ecma_parser_members.specs.Leading.{leading_of};
ghost use Rattle.swc_ecma_parser_functions.specs.Methods.{form_of};
ghost use Rattle.swc_ecma_parser_grammar.specs.language.Items.{nested_item};
ghost use Rattle.swc_ecma_parser_reader.specs.DecoratorLevels as levels;
ghost use Rattle.swc_ecma_parser_reader.specs.Members as members;
ghost use Rattle.swc_ecma_parser_reader.specs.Reader as rules;
ghost use Rattle.swc_ecma_parser_reader.specs.State.{Gives, GivesAs};

use crate::accessors::accessor_member;
use crate::decorators::{Leading, leading_decorators, misplaced};
use crate::fields::{FieldHead, field};
use crate::keys::{MemberKey, is_constructor_key, member_key};
use crate::methods::{Begin, Head, method, plain_method, second_static, static_block};
use std::alloc::Global;
use swc_ecma_parser_classes::words::{
    begins_static_block, is_accessor_word, member_words, static_word,
};
use swc_ecma_parser_cursor::Cursor;
use swc_ecma_parser_error::PResult;
use swc_ecma_parser_shared::readers::Readers;
use swc_ecma_parser_shared::steps::{grown, since};
use swc_ecma_parser_token::TokenKind;
use swc_ecma_parser_trees::{BuildsClass, BuildsFunction, BuildsPattern, MakerOf};

/// A constructor has no decorators.
#[tactic(auto, unfolding(swc_ecma_parser_reader::specs::Members::before_constructor))]
pub(crate) fn before_constructor<P: Cursor, T: BuildsFunction>(
    alloc: Global,
    p: &mut P,
    leading: &Leading<T::Decorator>,
    key: &MemberKey<T::Expr>,
) -> PResult<()>
    ensures { Gives
        (members.before_constructor (leading_of T.decorator_of leading.now)
        (member_key_of T.expr_of key.now) (P.seen p.old)) result (P.seen p.new) }
{
    if !is_constructor_key::<T>(key) {
        return Ok(());
    }
    misplaced::<P, T>(alloc, p, leading)
}

/// What stands behind a key.
#[tactic(auto, unfolding(swc_ecma_parser_reader::specs::Members::behind_key))]
#[inline(never)]
fn behind_key<P: Cursor, T: BuildsClass + BuildsPattern, G: Readers<P, T>>(
    g: &G,
    t: &MakerOf<T>,
    p: &mut P,
    leading: Leading<T::Decorator>,
    head: Head,
    key: MemberKey<T::Expr>,
) -> PResult<T::Member>
    requires { G.ready g.now }
    ensures { GivesAs T.member_of
        (members.behind_key (rules.expr (G.depth g.now)) (rules.cover (G.depth g.now))
        (rules.stmt (G.depth g.now) nested_item) (rules.parameters (G.depth g.now))
        (leading_of T.decorator_of leading) head.is_static (form_of head.form) head.start head.first
        head.word (member_key_of T.expr_of key) (P.seen p.old)) result (P.seen p.new) }
{
    if !head.form.is_bare() {
        return method(g, t, p, head, leading.found, key);
    }
    if p.sees(TokenKind::LParen) {
        before_constructor::<P, T>(t.alloc, p, &leading, &key)?;
        let begin = Begin {
            is_static: head.is_static,
            start: head.start,
            first: head.first,
        };
        return plain_method(g, t, p, leading.found, begin, head.word, key);
    }
    let head = FieldHead {
        is_static: head.is_static,
        is_accessor: false,
        start: head.start,
    };
    field(g, t, p, head, leading.found, key)
}

/// A member that has a key, from the words before it on.
#[tactic(auto, unfolding(swc_ecma_parser_reader::specs::Members::keyed_member))]
#[inline(never)]
pub(crate) fn keyed_member<P: Cursor, T: BuildsClass + BuildsPattern, G: Readers<P, T>>(
    g: &G,
    t: &MakerOf<T>,
    p: &mut P,
    leading: Leading<T::Decorator>,
    begin: Begin,
) -> PResult<T::Member>
    requires { G.ready g.now }
    ensures { GivesAs T.member_of
        (members.keyed_member (rules.expr (G.depth g.now)) (rules.cover (G.depth g.now))
        (rules.stmt (G.depth g.now) nested_item) (rules.parameters (G.depth g.now))
        (leading_of T.decorator_of leading) begin.is_static begin.start begin.first (P.seen p.old))
        result (P.seen p.new) }
{
    let word = p.span();
    let form = member_words(p)?;
    let key = member_key(g, t, p)?;
    let head = Head {
        is_static: begin.is_static,
        form,
        start: begin.start,
        first: begin.first,
        word,
    };
    behind_key(g, t, p, leading, head, key)
}

/// A member, from behind `static` if it stands there.
#[tactic(auto, unfolding(swc_ecma_parser_reader::specs::Members::behind_static))]
fn behind_static<P: Cursor, T: BuildsClass + BuildsPattern, G: Readers<P, T>>(
    g: &G,
    t: &MakerOf<T>,
    p: &mut P,
    leading: Leading<T::Decorator>,
    begin: Begin,
) -> PResult<T::Member>
    requires { G.ready g.now }
    ensures { GivesAs T.member_of
        (members.behind_static (rules.expr (G.depth g.now)) (rules.cover (G.depth g.now))
        (rules.stmt (G.depth g.now) nested_item) (rules.parameters (G.depth g.now))
        (leading_of T.decorator_of leading) begin.is_static begin.start begin.first (P.seen p.old))
        result (P.seen p.new) }
{
    if is_accessor_word(p) {
        return accessor_member(g, t, p, leading, begin);
    }
    if begin.is_static && p.sees(TokenKind::LBrace) {
        misplaced::<P, T>(t.alloc, p, &leading)?;
        return static_block(g, t, p, begin.start);
    }
    if begin.is_static && begins_static_block(p) {
        misplaced::<P, T>(t.alloc, p, &leading)?;
        return second_static(g, t, p, begin);
    }
    keyed_member(g, t, p, leading, begin)
}

/// A member that is more than a `;`.
#[tactic(auto, unfolding(swc_ecma_parser_reader::specs::Members::full_member))]
fn full_member<P: Cursor, T: BuildsClass + BuildsPattern, G: Readers<P, T>>(
    g: &G,
    t: &MakerOf<T>,
    p: &mut P,
) -> PResult<T::Member>
    requires { G.ready g.now }
    ensures { GivesAs T.member_of
        (members.full_member (rules.expr (G.depth g.now)) (rules.cover (G.depth g.now))
        (rules.stmt (G.depth g.now) nested_item) (rules.parameters (G.depth g.now))
        (levels.decorated_in (G.depth g.now)) (P.seen p.old)) result (P.seen p.new) }
{
    let start = p.span();
    let leading = leading_decorators(g, t, p)?;
    let first = p.span();
    let is_static = static_word(p)?;
    let begin = Begin {
        is_static,
        start,
        first,
    };
    behind_static(g, t, p, leading, begin)
}

/// `;` by itself.
#[tactic(auto, unfolding(swc_ecma_parser_reader::specs::Members::empty_member))]
#[inline(never)]
fn empty_member<P: Cursor, T: BuildsClass, G: Readers<P, T>>(
    g: &G,
    t: &MakerOf<T>,
    p: &mut P,
) -> PResult<T::Member>
    requires { G.ready g.now }
    ensures { GivesAs T.member_of
        (members.empty_member (rules.expr (G.depth g.now)) (rules.cover (G.depth g.now))
        (rules.stmt (G.depth g.now) nested_item) (rules.parameters (G.depth g.now)) (P.seen p.old))
        result (P.seen p.new) }
{
    let start = p.span();
    p.skip()?;
    let span = since(p, start);
    grown(p, T::empty_member(t.alloc, span))
}

/// A member of a class.
#[tactic(auto, unfolding(swc_ecma_parser_reader::specs::Members::member_level))]
pub fn member_level<P: Cursor, T: BuildsClass + BuildsPattern, G: Readers<P, T>>(
    g: &G,
    t: &MakerOf<T>,
    p: &mut P,
) -> PResult<T::Member>
    requires { G.ready g.now }
    ensures { GivesAs T.member_of
        (members.member_level (rules.expr (G.depth g.now)) (rules.cover (G.depth g.now))
        (rules.stmt (G.depth g.now) nested_item) (rules.parameters (G.depth g.now))
        (levels.decorated_in (G.depth g.now)) (P.seen p.old)) result (P.seen p.new) }
{
    if p.sees(TokenKind::Semi) {
        return empty_member(g, t, p);
    }
    full_member(g, t, p)
}
