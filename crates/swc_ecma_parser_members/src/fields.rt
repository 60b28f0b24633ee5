//! Fields: FieldDefinition, ECMA-262, section 15.7.

ghost use Rattle.std.specs.Prelude.{◌≡◌, true, false, map, IfOk};
ghost use Rattle.swc_ecma_parser_members.specs.Keys.{member_key_of};
ghost use Rattle.swc_ecma_parser_grammar.specs.language.Classes.{field_member};
ghost use Rattle.swc_ecma_parser_model.specs.Tree.{listed};
ghost use Rattle.swc_ecma_parser_reader.specs.Members as members;
ghost use Rattle.swc_ecma_parser_reader.specs.Reader as rules;
ghost use Rattle.swc_ecma_parser_reader.specs.State.{Gives, GivesAs};
ghost use Rattle.swc_ecma_parser_trees.specs.Parts.{part_of};

use crate::keys::{MemberKey, is_constructor_key, key_span};
use std::alloc::{AllocError, Global};
use swc_ecma_parser_common::Span;
use swc_ecma_parser_cursor::{Cursor, Wanted};
use swc_ecma_parser_error::{PResult, SyntaxError};
use swc_ecma_parser_grammar::Class;
use swc_ecma_parser_shared::cover::inside;
use swc_ecma_parser_shared::ends::{can_end, ends_at};
use swc_ecma_parser_shared::keys::made_key;
use swc_ecma_parser_shared::readers::Readers;
use swc_ecma_parser_shared::steps::{grown, since};
use swc_ecma_parser_token::TokenKind;
use swc_ecma_parser_trees::{BuildsClass, MakerOf, Trees};

/// The end of a field, which is recorded where it is missing.
#[tactic(auto, unfolding(swc_ecma_parser_reader::specs::Members::field_end))]
fn field_end<P: Cursor>(p: &mut P) -> PResult<()>
    ensures { Gives (members.field_end (P.seen p.old)) result (P.seen p.new) }
{
    if p.sees(TokenKind::Semi) {
        return p.skip();
    }
    if can_end(p) {
        return Ok(());
    }
    let span = p.span();
    p.fault(SyntaxError::TS1005, span)
}

/// A field is not named `constructor`.
#[tactic(auto, unfolding(swc_ecma_parser_reader::specs::Members::field_named))]
fn field_named<P: Cursor, T: Trees>(p: &mut P, key: &MemberKey<T::Expr>) -> PResult<()>
    ensures { Gives (members.field_named (member_key_of T.expr_of key.now) (P.seen p.old)) result
        (P.seen p.new) }
{
    if is_constructor_key::<T>(key) {
        return Err(p.reject(SyntaxError::PropertyNamedConstructor, key_span::<T>(key)));
    }
    Ok(())
}

/// `=` and what stands behind it, if it stands here.
#[tactic(auto, unfolding(swc_ecma_parser_reader::specs::Members::field_value))]
fn field_value<P: Cursor, T: BuildsClass, G: Readers<P, T>>(
    g: &G,
    t: &MakerOf<T>,
    p: &mut P,
) -> PResult<Option<T::Expr>>
    requires { G.ready g.now }
    ensures { GivesAs (part_of T.expr_of)
        (members.field_value (rules.expr (G.depth g.now)) (rules.cover (G.depth g.now))
        (P.seen p.old)) result (P.seen p.new) }
{
    if !p.sees(TokenKind::Assign) {
        return Ok(None);
    }
    p.skip()?;
    let value = inside(g, t, p, Class::Assignment)?;
    Ok(Some(value))
}

/// What stands before the key of a field.
#[derive(Clone, Copy)]
pub(crate) struct FieldHead {
    pub(crate) is_static: bool,
    pub(crate) is_accessor: bool,
    /// Where the field begins.
    pub(crate) start: Span,
}

/// The tree's field with a getter and a setter.
fn made_accessor<T: BuildsClass>(
    alloc: Global,
    span: Span,
    key: MemberKey<T::Expr>,
    value: Option<T::Expr>,
    is_static: bool,
    decorators: Vec<T::Decorator>,
) -> Result<T::Member, AllocError>
    ensures { IfOk result
        (λ x. T.member_of x
        ≡ field_member span (member_key_of T.expr_of key) (part_of T.expr_of value) is_static true
        (listed (map T.decorator_of decorators.items))) }
{
    match key {
        MemberKey::Private(key) => {
            T::private_auto_accessor(alloc, span, key, value, is_static, decorators)
        }
        MemberKey::Public(key) => {
            let key = made_key::<T>(alloc, key)?;
            T::auto_accessor(alloc, span, key, value, is_static, decorators)
        }
    }
}

/// The tree's field.
fn made_plain<T: BuildsClass>(
    alloc: Global,
    span: Span,
    key: MemberKey<T::Expr>,
    value: Option<T::Expr>,
    is_static: bool,
    decorators: Vec<T::Decorator>,
) -> Result<T::Member, AllocError>
    ensures { IfOk result
        (λ x. T.member_of x
        ≡ field_member span (member_key_of T.expr_of key) (part_of T.expr_of value) is_static false
        (listed (map T.decorator_of decorators.items))) }
{
    match key {
        MemberKey::Private(key) => {
            T::private_prop(alloc, span, key, value, is_static, decorators)
        }
        MemberKey::Public(key) => {
            let key = made_key::<T>(alloc, key)?;
            T::class_prop(alloc, span, key, value, is_static, decorators)
        }
    }
}

/// The tree's field, of either kind.
fn made_field<T: BuildsClass>(
    alloc: Global,
    span: Span,
    key: MemberKey<T::Expr>,
    value: Option<T::Expr>,
    head: FieldHead,
    decorators: Vec<T::Decorator>,
) -> Result<T::Member, AllocError>
    ensures { IfOk result
        (λ x. T.member_of x
        ≡ field_member span (member_key_of T.expr_of key) (part_of T.expr_of value) head.is_static
        head.is_accessor (listed (map T.decorator_of decorators.items))) }
{
    if head.is_accessor {
        return made_accessor::<T>(alloc, span, key, value, head.is_static, decorators);
    }
    made_plain::<T>(alloc, span, key, value, head.is_static, decorators)
}

/// A field that goes on as one.
#[tactic(auto, unfolding(swc_ecma_parser_reader::specs::Members::field_from))]
fn field_from<P: Cursor, T: BuildsClass, G: Readers<P, T>>(
    g: &G,
    t: &MakerOf<T>,
    p: &mut P,
    head: FieldHead,
    decorators: Vec<T::Decorator>,
    key: MemberKey<T::Expr>,
) -> PResult<T::Member>
    requires { G.ready g.now }
    ensures { GivesAs T.member_of
        (members.field_from (rules.expr (G.depth g.now)) (rules.cover (G.depth g.now))
        (map T.decorator_of decorators.items) head.is_static head.is_accessor head.start
        (member_key_of T.expr_of key) (P.seen p.old)) result (P.seen p.new) }
{
    field_named::<P, T>(p, &key)?;
    let value = field_value(g, t, p)?;
    field_end(p)?;
    let span = since(p, head.start);
    let made = made_field::<T>(t.alloc, span, key, value, head, decorators);
    grown(p, made)
}

/// A field, from behind its key.
#[tactic(auto, unfolding(swc_ecma_parser_reader::specs::Members::field))]
#[inline(never)]
pub(crate) fn field<P: Cursor, T: BuildsClass, G: Readers<P, T>>(
    g: &G,
    t: &MakerOf<T>,
    p: &mut P,
    head: FieldHead,
    decorators: Vec<T::Decorator>,
    key: MemberKey<T::Expr>,
) -> PResult<T::Member>
    requires { G.ready g.now }
    ensures { GivesAs T.member_of
        (members.field (rules.expr (G.depth g.now)) (rules.cover (G.depth g.now))
        (map T.decorator_of decorators.items) head.is_static head.is_accessor head.start
        (member_key_of T.expr_of key) (P.seen p.old)) result (P.seen p.new) }
{
    if p.sees(TokenKind::Assign) || ends_at(p) {
        return field_from(g, t, p, head, decorators, key);
    }
    Err(p.wanted(Wanted::Member))
}
