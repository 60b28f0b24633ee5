//! Keys of members: ClassElementName, ECMA-262, section 15.7.

ghost use Rattle.std.specs.Prelude.{◌≡◌};
ghost use Rattle.swc_ecma_parser_members.specs.Keys.{member_key_of};
ghost use Rattle.swc_ecma_parser_shared.specs.Keys.{key_of, private_of};
ghost use Rattle.swc_ecma_parser_model.specs.Forms as forms;
ghost use Rattle.swc_ecma_parser_reader.specs.Jumps.{told};
ghost use Rattle.swc_ecma_parser_reader.specs.Members as members;
ghost use Rattle.swc_ecma_parser_reader.specs.Reader as rules;
ghost use Rattle.swc_ecma_parser_reader.specs.State.{Gives, GivesAs};

use swc_ecma_parser_common::Span;
use swc_ecma_parser_cursor::Cursor;
use swc_ecma_parser_error::{PResult, SyntaxError};
use swc_ecma_parser_model::PrivateName;
use swc_ecma_parser_shared::keys::{Key, private_name, property_key};
use swc_ecma_parser_shared::readers::Readers;
use swc_ecma_parser_shared::steps::told_if;
use swc_ecma_parser_token::TokenKind;
use swc_ecma_parser_trees::{MakerOf, Trees};

/// The key of a member.
#[derive(Drop)]
pub enum MemberKey<E> {
    /// `#` and a word.
    Private(PrivateName),
    /// A key as an object has it.
    Public(Key<E>),
}

/// Whether a key as an object has it is `constructor`, as a word or a string.
pub(crate) fn is_constructor_name<T: Trees>(key: &Key<T::Expr>) -> bool
    ensures { result ≡ forms.is_constructor_key (key_of T.expr_of key.now) }
{
    match key {
        Key::Word(name) => name.sym.as_str() == "constructor",
        Key::Str(text) => text.value.as_str() == "constructor",
        Key::Num(_) | Key::BigInt(_) | Key::Computed(_, _) => false,
    }
}

/// Whether a key is `constructor`, as a word or a string.
pub(crate) fn is_constructor_key<T: Trees>(key: &MemberKey<T::Expr>) -> bool
    ensures { result ≡ forms.is_constructor_key (member_key_of T.expr_of key.now) }
{
    match key {
        MemberKey::Private(_) => false,
        MemberKey::Public(key) => is_constructor_name::<T>(key),
    }
}

/// Where it stands.
pub(crate) fn key_span<T: Trees>(key: &MemberKey<T::Expr>) -> Span
    ensures { result ≡ forms.span_of (member_key_of T.expr_of key.now) }
{
    match key {
        MemberKey::Private(name) => name.span,
        MemberKey::Public(Key::Word(name)) => name.span,
        MemberKey::Public(Key::Str(text)) => text.span,
        MemberKey::Public(Key::Num(number)) => number.span,
        MemberKey::Public(Key::BigInt(number)) => number.span,
        MemberKey::Public(Key::Computed(brackets, _)) => *brackets,
    }
}

/// Records a private name `constructor`.
fn private_faults<P: Cursor>(p: &mut P, name: &PrivateName) -> PResult<()>
    ensures { Gives (told (members.private_faults (private_of name.now)) (P.seen p.old)) result
        (P.seen p.new) }
{
    let is_constructor = name.id.sym.as_str() == "constructor";
    told_if(
        p,
        is_constructor,
        SyntaxError::PrivateConstructor,
        name.span,
    )
}

/// A private name as a key.
#[tactic(auto, unfolding(swc_ecma_parser_reader::specs::Members::private_key))]
fn private_key<P: Cursor, T: Trees, G: Readers<P, T>>(
    g: &G,
    t: &MakerOf<T>,
    p: &mut P,
) -> PResult<MemberKey<T::Expr>>
    requires { G.ready g.now }
    ensures { GivesAs (member_key_of T.expr_of)
        (members.private_key (rules.expr (G.depth g.now)) (rules.cover (G.depth g.now))
        (P.seen p.old)) result (P.seen p.new) }
{
    let name = private_name(p)?;
    private_faults(p, &name)?;
    Ok(MemberKey::Private(name))
}

/// The key of a member.
#[tactic(auto, unfolding(swc_ecma_parser_reader::specs::Members::member_key))]
#[inline(never)]
pub(crate) fn member_key<P: Cursor, T: Trees, G: Readers<P, T>>(
    g: &G,
    t: &MakerOf<T>,
    p: &mut P,
) -> PResult<MemberKey<T::Expr>>
    requires { G.ready g.now }
    ensures { GivesAs (member_key_of T.expr_of)
        (members.member_key (rules.expr (G.depth g.now)) (rules.cover (G.depth g.now))
        (P.seen p.old)) result (P.seen p.new) }
{
    if p.sees(TokenKind::Hash) {
        return private_key(g, t, p);
    }
    Ok(MemberKey::Public(property_key(g, t, p)?))
}
