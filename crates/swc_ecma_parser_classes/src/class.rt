//! Classes, declared or as expressions: ECMA-262, section 15.7.

ghost use Rattle.std.specs.Prelude.{◌≡◌, ◌||◌, true, map};
ghost use Rattle.swc_ecma_parser_classes.specs.Named.{class_expr_of};
ghost use Rattle.swc_ecma_parser_grammar.specs.Own as own;
ghost use Rattle.swc_ecma_parser_grammar.specs.language.Goals.{left_side};
ghost use Rattle.swc_ecma_parser_shared.specs.Keys.{word_of};
ghost use Rattle.swc_ecma_parser_model.specs.Forms as forms;
ghost use Rattle.swc_ecma_parser_reader.specs.Dressed as dressed;
ghost use Rattle.swc_ecma_parser_reader.specs.Jumps.{told};
ghost use Rattle.swc_ecma_parser_reader.specs.Members as members;
ghost use Rattle.swc_ecma_parser_reader.specs.Reader as rules;
ghost use Rattle.swc_ecma_parser_reader.specs.State.{Gives, GivesAs};
ghost use Rattle.swc_ecma_parser_trees.specs.Parts.{part_of};

use crate::readers::ClassReaders;
use swc_ecma_parser_bodies::body::close;
use swc_ecma_parser_common::Span;
use swc_ecma_parser_cursor::{Cursor, Wanted};
use swc_ecma_parser_error::{PResult, SyntaxError};
use swc_ecma_parser_grammar::Class;
use swc_ecma_parser_input::Context;
use swc_ecma_parser_model::Ident;
use swc_ecma_parser_shared::found::{found_module_item, set_found_module_item};
use swc_ecma_parser_shared::steps::{grown, pushed, since, told_if, with_in};
use swc_ecma_parser_token::TokenKind;
use swc_ecma_parser_trees::{BuildsClass, BuildsClassDecl, MakerOf};

/// Whether the members of a class end here.
#[tactic(auto, unfolding(swc_ecma_parser_reader::specs::Reader::closes))]
fn closes<P: Cursor>(p: &P) -> bool
    ensures { result ≡ rules.closes (P.seen p.now).at }
{
    p.sees(TokenKind::RBrace) || p.sees(TokenKind::End)
}

/// Records a constructor behind another.
#[inline(never)]
fn second_constructor<P: Cursor, T: BuildsClass>(
    p: &mut P,
    has_constructor: bool,
    member: &T::Member,
) -> PResult<()>
    ensures { Gives
        (told (own.second_constructor has_constructor (T.member_of member.now)) (P.seen p.old))
        result (P.seen p.new) }
{
    let is_second = has_constructor && T::is_constructor(member);
    let span = T::member_span(member);
    told_if(p, is_second, SyntaxError::DuplicateConstructor, span)
}

/// Whether a constructor is one of the members so far, or is this one.
fn with_constructor<T: BuildsClass>(has_constructor: bool, member: &T::Member) -> bool
    ensures { result ≡ (has_constructor || forms.is_constructor (T.member_of member.now)) }
{
    has_constructor || T::is_constructor(member)
}

/// Members one behind another. Each constructor behind the first is a fault.
#[tactic(auto, unfolding(swc_ecma_parser_reader::specs::Members::members), using(swc_ecma_parser_reader::proofs::classes::Loops::members_done))]
#[inline(never)]
fn members<P: Cursor, T: BuildsClass, C: ClassReaders<P, T>>(
    c: &C,
    t: &MakerOf<T>,
    p: &mut P,
) -> PResult<Vec<T::Member>>
    requires { C.ready c.now }
    ensures { GivesAs (λ found. map T.member_of found.items)
        (members.members (rules.expr (C.depth c.now) left_side) (rules.member (C.depth c.now))
        (P.seen p.old)) result (P.seen p.new) }
{
    let mut found = Vec::new(t.alloc);
    let mut has_constructor = false;
    'members: while !closes(p) {
        let member = c.member(t, p, found.as_slice())?;
        second_constructor::<P, T>(p, has_constructor, &member)?;
        has_constructor = with_constructor::<T>(has_constructor, &member);
        pushed(p, &mut found, member)?;
    }
    Ok(found)
}

/// What a class extends, from behind `extends`.
fn heritage<P: Cursor, T: BuildsClass, C: ClassReaders<P, T>>(
    c: &C,
    t: &MakerOf<T>,
    p: &mut P,
) -> PResult<T::Expr>
    requires { C.ready c.now }
    ensures { GivesAs T.expr_of (rules.expr (C.depth c.now) left_side (P.seen p.old)) result
        (P.seen p.new) }
{
    c.expr(t, p, Class::LeftSide)
}

/// What a class extends, if anything.
#[tactic(auto, unfolding(swc_ecma_parser_reader::specs::Members::extended))]
#[inline(never)]
fn extended<P: Cursor, T: BuildsClass, C: ClassReaders<P, T>>(
    c: &C,
    t: &MakerOf<T>,
    p: &mut P,
) -> PResult<Option<T::Expr>>
    requires { C.ready c.now }
    ensures { GivesAs (part_of T.expr_of)
        (members.extended (rules.expr (C.depth c.now) left_side) (rules.member (C.depth c.now))
        (P.seen p.old)) result (P.seen p.new) }
{
    if !p.sees(TokenKind::Extends) {
        return Ok(None);
    }
    p.skip()?;
    let found = heritage(c, t, p)?;
    Ok(Some(found))
}

/// What a class extends, dropped, with what in it makes a program a module.
#[inline(never)]
fn dropped<P: Cursor, T: BuildsClass, C: ClassReaders<P, T>>(
    c: &C,
    t: &MakerOf<T>,
    p: &mut P,
) -> PResult<()>
    requires { C.ready c.now }
    ensures { Gives (members.dropped (rules.expr (C.depth c.now) left_side) (P.seen p.old)) result
        (P.seen p.new) }
{
    let found = found_module_item(t.alloc, p);
    let _dropped = heritage(c, t, p)?;
    set_found_module_item(t.alloc, p, found);
    Ok(())
}

/// A second `extends`, which is a fault of its word.
#[tactic(auto, using(crate::proofs::Surplus::surplus_none, crate::proofs::Surplus::surplus_err, crate::proofs::Surplus::surplus_told))]
#[inline(never)]
fn surplus<P: Cursor, T: BuildsClass, C: ClassReaders<P, T>>(
    c: &C,
    t: &MakerOf<T>,
    p: &mut P,
) -> PResult<()>
    requires { C.ready c.now }
    ensures { Gives
        (members.surplus (rules.expr (C.depth c.now) left_side) (rules.member (C.depth c.now))
        (P.seen p.old)) result (P.seen p.new) }
{
    if !p.sees(TokenKind::Extends) {
        return Ok(());
    }
    let word = p.span();
    p.skip()?;
    p.fault(SyntaxError::TS1172, word)?;
    dropped(c, t, p)
}

/// A class that begins at `start`, from behind its name, with the decorators before it.
#[tactic(auto, unfolding(swc_ecma_parser_reader::specs::Dressed::class_parts_with, swc_ecma_parser_reader::specs::Members::class_parts))]
#[inline(never)]
pub fn class_parts_with<P: Cursor, T: BuildsClass, C: ClassReaders<P, T>>(
    c: &C,
    t: &MakerOf<T>,
    p: &mut P,
    start: Span,
    decorators: Vec<T::Decorator>,
) -> PResult<T::Class>
    requires { C.ready c.now }
    ensures { GivesAs T.class_of
        (dressed.class_parts_with (rules.expr (C.depth c.now) left_side)
        (rules.member (C.depth c.now)) (map T.decorator_of decorators.items) start (P.seen p.old))
        result (P.seen p.new) }
{
    let super_class = extended(c, t, p)?;
    surplus(c, t, p)?;
    p.expect(TokenKind::LBrace, "{")?;
    let outer = p.flags();
    p.set_flags(with_in(outer));
    let found = members(c, t, p)?;
    p.set_flags(outer);
    close(t.alloc, p)?;
    let span = since(p, start);
    grown(p, T::class(t.alloc, span, decorators, found, super_class))
}

/// What stands around a class, from its name on.
fn in_class(flags: Context) -> Context
    ensures { result ≡ record flags { in_class = true; strict = true } }
{
    Context {
        in_class: true,
        strict: true,
        ..flags
    }
}

/// A class that is declared and begins at `start`, in what stands around it.
#[tactic(auto, unfolding(swc_ecma_parser_reader::specs::Dressed::named_class_with, swc_ecma_parser_reader::specs::Reader::named))]
fn named_class<P: Cursor, T: BuildsClassDecl, C: ClassReaders<P, T>>(
    c: &C,
    t: &MakerOf<T>,
    p: &mut P,
    start: Span,
    decorators: Vec<T::Decorator>,
) -> PResult<T::Decl>
    requires { C.ready c.now }
    ensures { GivesAs T.decl_of
        (dressed.named_class_with (rules.expr (C.depth c.now) left_side)
        (rules.member (C.depth c.now)) (map T.decorator_of decorators.items) start (P.seen p.old))
        result (P.seen p.new) }
{
    p.skip()?;
    let name = p.name(Wanted::Name)?;
    let class = class_parts_with(c, t, p, start, decorators)?;
    grown(p, T::class_decl(t.alloc, name, class))
}

/// A class that is declared and begins at `start`, with the decorators before it.
#[tactic(auto, unfolding(swc_ecma_parser_reader::specs::Dressed::class_decl_with))]
pub fn class_decl_with<P: Cursor, T: BuildsClassDecl, C: ClassReaders<P, T>>(
    c: &C,
    t: &MakerOf<T>,
    p: &mut P,
    start: Span,
    decorators: Vec<T::Decorator>,
) -> PResult<T::Decl>
    requires { C.ready c.now }
    ensures { GivesAs T.decl_of
        (dressed.class_decl_with (rules.expr (C.depth c.now) left_side)
        (rules.member (C.depth c.now)) (map T.decorator_of decorators.items) start (P.seen p.old))
        result (P.seen p.new) }
{
    let outer = p.flags();
    p.set_flags(in_class(outer));
    let decl = named_class(c, t, p, start, decorators)?;
    p.set_flags(outer);
    Ok(decl)
}

/// The name of a class that is an expression, if it has one.
#[tactic(auto, unfolding(swc_ecma_parser_reader::specs::Members::class_name, swc_ecma_parser_reader::specs::Reader::named))]
#[inline(never)]
fn class_name<P: Cursor, T: BuildsClass, C: ClassReaders<P, T>>(
    c: &C,
    t: &MakerOf<T>,
    p: &mut P,
) -> PResult<Option<Ident>>
    requires { C.ready c.now }
    ensures { GivesAs (part_of word_of)
        (members.class_name (rules.expr (C.depth c.now) left_side) (rules.member (C.depth c.now))
        (P.seen p.old)) result (P.seen p.new) }
{
    if !p.name_at() {
        return Ok(None);
    }
    let name = p.name(Wanted::Name)?;
    Ok(Some(name))
}

/// A class with its name, if it has one.
#[derive(Drop)]
pub struct NamedClass<C> {
    pub name: Option<Ident>,
    pub class: C,
}

/// A class that is an expression, in what stands around it, with the decorators before it.
#[tactic(auto, unfolding(swc_ecma_parser_reader::specs::Dressed::unnamed_class_with))]
fn unnamed_class<P: Cursor, T: BuildsClass, C: ClassReaders<P, T>>(
    c: &C,
    t: &MakerOf<T>,
    p: &mut P,
    decorators: Vec<T::Decorator>,
) -> PResult<NamedClass<T::Class>>
    requires { C.ready c.now }
    ensures { GivesAs (class_expr_of T.class_of)
        (dressed.unnamed_class_with (rules.expr (C.depth c.now) left_side)
        (rules.member (C.depth c.now)) (map T.decorator_of decorators.items) (P.seen p.old)) result
        (P.seen p.new) }
{
    let start = p.span();
    p.skip()?;
    let name = class_name(c, t, p)?;
    let class = class_parts_with(c, t, p, start, decorators)?;
    Ok(NamedClass { name, class })
}

/// A class that is an expression, as its parts, with the decorators before it.
#[tactic(auto, unfolding(swc_ecma_parser_reader::specs::Dressed::class_expr_with))]
pub fn class_expr_with<P: Cursor, T: BuildsClass, C: ClassReaders<P, T>>(
    c: &C,
    t: &MakerOf<T>,
    p: &mut P,
    decorators: Vec<T::Decorator>,
) -> PResult<NamedClass<T::Class>>
    requires { C.ready c.now }
    ensures { GivesAs (class_expr_of T.class_of)
        (dressed.class_expr_with (rules.expr (C.depth c.now) left_side)
        (rules.member (C.depth c.now)) (map T.decorator_of decorators.items) (P.seen p.old)) result
        (P.seen p.new) }
{
    let outer = p.flags();
    p.set_flags(in_class(outer));
    let class = unnamed_class(c, t, p, decorators)?;
    p.set_flags(outer);
    Ok(class)
}
