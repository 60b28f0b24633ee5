//! Methods, accessors, constructors and static blocks: ECMA-262, sections 15.4 and 15.7.

ghost use Rattle.std.specs.Prelude.{◌≡◌, false, true, not, nat_eq, length, map, IfOk, IfErr};
ghost use Rattle.swc_ecma_parser_members.specs.Keys.{member_key_of, misnamed_at};
ghost use Rattle.swc_ecma_parser_members.specs.Made as made;
ghost use Rattle.swc_ecma_parser_error.specs.Kind as kinds;
ghost use Rattle.swc_ecma_parser_error.specs.Kind.{kind_of, IsOutOfMemory};
ghost use Rattle.swc_ecma_parser_functions.specs.Late.{late};
ghost use Rattle.swc_ecma_parser_functions.specs.Methods.{form_of};
ghost use Rattle.swc_ecma_parser_grammar.specs.Own as own;
ghost use Rattle.swc_ecma_parser_grammar.specs.Own.{only};
ghost use Rattle.swc_ecma_parser_grammar.specs.language.Items.{nested_item};
ghost use Rattle.swc_ecma_parser_grammar.specs.language.Classes.{method_member};
ghost use Rattle.swc_ecma_parser_model.specs.Forms as forms;
ghost use Rattle.swc_ecma_parser_reader.specs.Jumps.{told};
ghost use Rattle.swc_ecma_parser_reader.specs.Members as members;
ghost use Rattle.swc_ecma_parser_reader.specs.Methods.{getter_form, setter_form};
ghost use Rattle.swc_ecma_parser_reader.specs.Reader as rules;
ghost use Rattle.swc_ecma_parser_reader.specs.State.{Gives, GivesAs};

use crate::bodies::{Parameters, made_parameters, misdirected_body};
use crate::keys::{MemberKey, is_constructor_key, is_constructor_name, key_span};
use std::alloc::{AllocError, Global};
use swc_ecma_parser_bodies::body::braced;
use swc_ecma_parser_common::{Atom, Boxed, Span};
use swc_ecma_parser_cursor::Cursor;
use swc_ecma_parser_error::{PResult, SyntaxError};
use swc_ecma_parser_functions::function::{FunctionBody, Manner, function_body, parameters_inside};
use swc_ecma_parser_functions::methods::MethodForm;
use swc_ecma_parser_input::Context;
use swc_ecma_parser_model::MethodKind;
use swc_ecma_parser_patterns::params::parameters;
use swc_ecma_parser_shared::keys::made_key;
use swc_ecma_parser_shared::readers::Readers;
use swc_ecma_parser_shared::steps::{grown, since, told_if};
use swc_ecma_parser_trees::{BuildsClass, BuildsPattern, MakerOf, Trees};

/// Neither async nor a generator.
pub(crate) const PLAIN: Manner = Manner {
    is_async: false,
    is_generator: false,
};

/// How a member begins.
#[derive(Clone, Copy)]
pub(crate) struct Begin {
    pub(crate) is_static: bool,
    /// Where it begins, with its decorators.
    pub(crate) start: Span,
    /// Where its words begin, behind its decorators.
    pub(crate) first: Span,
}

/// What stands before the key of a member.
#[derive(Clone, Copy)]
pub(crate) struct Head {
    pub(crate) is_static: bool,
    pub(crate) form: MethodForm,
    /// Where the member begins.
    pub(crate) start: Span,
    /// Where its words begin, behind its decorators.
    pub(crate) first: Span,
    /// Where its words behind `static` begin.
    pub(crate) word: Span,
}

/// As the tree of a member has it.
fn kind_of_form(form: MethodForm) -> MethodKind
    ensures { result ≡ members.kind_of_form (form_of form) }
{
    match form {
        MethodForm::Getter => MethodKind::Getter,
        MethodForm::Setter => MethodKind::Setter,
        MethodForm::Method(_) => MethodKind::Method,
    }
}

/// Whether a method is async, and whether it is a generator: no accessor is.
fn manner_of(form: MethodForm) -> Manner
    ensures is_async { result.is_async ≡ members.form_is_async (form_of form) }
    ensures is_generator { result.is_generator ≡ members.form_is_generator (form_of form) }
{
    match form {
        MethodForm::Getter | MethodForm::Setter => PLAIN,
        MethodForm::Method(manner) => manner,
    }
}

/// A getter has no parameter.
fn getter_faults<P: Cursor, T: BuildsPattern>(
    p: &mut P,
    word: Span,
    params: &[T::Pat],
) -> PResult<()>
    ensures { Gives
        (told (members.parameter_faults getter_form word (map T.pat_of params.now)) (P.seen p.old))
        result (P.seen p.new) }
{
    told_if(p, !params.is_empty(), SyntaxError::GetterParam, word)
}

/// The first parameter of a setter is no rest.
fn rest_faults<P: Cursor, T: BuildsPattern>(p: &mut P, params: &[T::Pat]) -> PResult<()>
    ensures { Gives (told (members.rest_faults (map T.pat_of params.now)) (P.seen p.old)) result
        (P.seen p.new) }
{
    match params.first() {
        Some(param) => {
            let span = T::pat_span(param);
            told_if(p, T::is_rest(param), SyntaxError::RestPatInSetter, span)
        }
        None => Ok(()),
    }
}

/// Whether it is not one alone.
fn is_not_one<A>(items: &[A]) -> bool
    ensures { result ≡ not (nat_eq (length items.now) 1) }
{
    items.len() != 1
}

/// A setter has one parameter, which is no rest.
fn setter_faults<P: Cursor, T: BuildsPattern>(
    p: &mut P,
    word: Span,
    params: &[T::Pat],
) -> PResult<()>
    ensures { Gives
        (told (members.parameter_faults setter_form word (map T.pat_of params.now)) (P.seen p.old))
        result (P.seen p.new) }
{
    let is_wrong = is_not_one(params);
    told_if(p, is_wrong, SyntaxError::SetterParam, word)?;
    rest_faults::<P, T>(p, params)
}

/// Records parameters of an accessor that it may not have.
#[inline(never)]
fn parameter_faults<P: Cursor, T: BuildsPattern>(
    p: &mut P,
    form: MethodForm,
    word: Span,
    params: &[T::Pat],
) -> PResult<()>
    ensures { Gives
        (told (members.parameter_faults (form_of form) word (map T.pat_of params.now))
        (P.seen p.old)) result (P.seen p.new) }
{
    match form {
        MethodForm::Getter => getter_faults::<P, T>(p, word, params),
        MethodForm::Setter => setter_faults::<P, T>(p, word, params),
        MethodForm::Method(_) => Ok(()),
    }
}

/// The function of a method, from behind its key.
#[tactic(auto, unfolding(swc_ecma_parser_reader::specs::Members::method_parts))]
#[inline(never)]
fn method_parts<P: Cursor, T: BuildsClass + BuildsPattern, G: Readers<P, T>>(
    g: &G,
    t: &MakerOf<T>,
    p: &mut P,
    head: Head,
    decorators: Vec<T::Decorator>,
) -> PResult<T::Function>
    requires { G.ready g.now }
    ensures { GivesAs T.function_of
        (members.method_parts (rules.stmt (G.depth g.now) nested_item)
        (rules.parameters (G.depth g.now)) (map T.decorator_of decorators.items) (form_of head.form)
        head.start head.word (P.seen p.old)) result (P.seen p.new) }
{
    let manner = manner_of(head.form);
    let pats = parameters_inside(g, t, p, manner)?;
    parameter_faults::<P, T>(p, head.form, head.word, &pats)?;
    let body = function_body(g, t, p, manner)?;
    made_function::<P, T>(t, p, head, decorators, pats, body)
}

/// The function of a method, from behind its body.
#[tactic(auto, unfolding(swc_ecma_parser_reader::specs::Reader::misdirected))]
#[inline(never)]
fn made_function<P: Cursor, T: BuildsClass + BuildsPattern>(
    t: &MakerOf<T>,
    p: &mut P,
    head: Head,
    decorators: Vec<T::Decorator>,
    pats: Vec<T::Pat>,
    body: FunctionBody<T::Block>,
) -> PResult<T::Function>
    requires { own.misplaced_directive false (T.block_of body.block) ≡ late body.strict_directive }
    ensures { GivesAs T.function_of
        (made.made_function (map T.decorator_of decorators.items) (form_of head.form) head.start
        (map T.pat_of pats.items) (T.block_of body.block) (P.seen p.old)) result (P.seen p.new) }
{
    let manner = manner_of(head.form);
    let span = since(p, head.start);
    let Parameters { params, are_plain } = made_parameters::<P, T>(t, p, pats)?;
    misdirected_body::<P, T>(p, are_plain, &body)?;
    let function = T::function(
        t.alloc,
        span,
        decorators,
        params,
        body.block,
        manner.is_async,
        manner.is_generator,
    );
    grown(p, function)
}

/// The key `constructor` behind words or `*`.
fn misnamed_by<P: Cursor>(p: &mut P, head: Head, key: Span) -> PResult<()>
    ensures { Gives (misnamed_at (form_of head.form) head.start head.word key (P.seen p.old)) result
        (P.seen p.new) }
{
    match head.form {
        MethodForm::Getter | MethodForm::Setter => {
            p.fault(SyntaxError::ConstructorAccessor, head.word)
        }
        MethodForm::Method(manner) => {
            if manner.is_async {
                return Err(p.reject(SyntaxError::AsyncConstructor, key));
            }
            let span = since(p, head.start);
            p.fault(SyntaxError::GeneratorConstructor, span)
        }
    }
}

/// A method behind words or `*` is not named `constructor`.
#[tactic(auto, unfolding(swc_ecma_parser_reader::specs::Members::misnamed))]
#[inline(never)]
fn misnamed<P: Cursor, T: Trees>(p: &mut P, head: Head, key: &MemberKey<T::Expr>) -> PResult<()>
    ensures { Gives
        (members.misnamed (form_of head.form) head.start head.word (member_key_of T.expr_of key.now)
        (P.seen p.old)) result (P.seen p.new) }
{
    if !is_constructor_key::<T>(key) {
        return Ok(());
    }
    misnamed_by(p, head, key_span::<T>(key))
}

/// The tree's method.
#[inline(never)]
fn made_method<T: BuildsClass>(
    alloc: Global,
    key: MemberKey<T::Expr>,
    function: T::Function,
    kind: MethodKind,
    is_static: bool,
) -> Result<T::Member, AllocError>
    ensures { IfOk result
        (λ x. T.member_of x
        ≡ method_member (forms.span_of (T.function_of function)) (member_key_of T.expr_of key)
        (T.function_of function) kind is_static) }
{
    let span = T::function_span(&function);
    match key {
        MemberKey::Private(key) => T::private_method(alloc, span, key, function, kind, is_static),
        MemberKey::Public(key) => {
            let key = made_key::<T>(alloc, key)?;
            T::method(alloc, span, key, function, kind, is_static)
        }
    }
}

/// A method that is no constructor, from behind its key.
#[tactic(auto, unfolding(swc_ecma_parser_reader::specs::Members::method))]
#[inline(never)]
pub(crate) fn method<P: Cursor, T: BuildsClass + BuildsPattern, G: Readers<P, T>>(
    g: &G,
    t: &MakerOf<T>,
    p: &mut P,
    head: Head,
    decorators: Vec<T::Decorator>,
    key: MemberKey<T::Expr>,
) -> PResult<T::Member>
    requires { G.ready g.now }
    ensures { GivesAs T.member_of
        (members.method (rules.stmt (G.depth g.now) nested_item) (rules.parameters (G.depth g.now))
        (map T.decorator_of decorators.items) head.is_static (form_of head.form) head.start
        head.word (member_key_of T.expr_of key) (P.seen p.old)) result (P.seen p.new) }
{
    misnamed::<P, T>(p, head, &key)?;
    let function = method_parts(g, t, p, head, decorators)?;
    let kind = kind_of_form(head.form);
    grown(
        p,
        made_method::<T>(t.alloc, key, function, kind, head.is_static),
    )
}

/// The fault of `static` before a constructor.
fn static_constructor<P: Cursor>(alloc: Global, p: &mut P) -> PResult<SyntaxError>
    ensures kind { IfOk result (λ kind. kind_of kind ≡ kinds.TS1089) }
    ensures state { IfOk result (λ kind. P.seen p.new ≡ P.seen p.old) }
    ensures err { IfErr result IsOutOfMemory }
{
    let word = grown(p, Atom::new(alloc, "static"))?;
    Ok(SyntaxError::TS1089(grown(p, Boxed::new(alloc, word))?))
}

/// A constructor is not static.
#[inline(never)]
fn unstatic<P: Cursor>(alloc: Global, p: &mut P, is_static: bool, first: Span) -> PResult<()>
    ensures { Gives (told (only is_static kinds.TS1089 first) (P.seen p.old)) result
        (P.seen p.new) }
{
    if !is_static {
        return Ok(());
    }
    let kind = static_constructor(alloc, p)?;
    p.fault(kind, first)
}

/// A constructor, from behind its key.
#[tactic(auto, unfolding(swc_ecma_parser_reader::specs::Members::constructor))]
#[inline(never)]
fn constructor<P: Cursor, T: BuildsClass + BuildsPattern, G: Readers<P, T>>(
    g: &G,
    t: &MakerOf<T>,
    p: &mut P,
    begin: Begin,
    key: T::Key,
) -> PResult<T::Member>
    requires { G.ready g.now }
    ensures { GivesAs T.member_of
        (members.constructor (rules.stmt (G.depth g.now) nested_item)
        (rules.parameters (G.depth g.now)) begin.is_static begin.start begin.first (T.key_of key)
        (P.seen p.old)) result (P.seen p.new) }
{
    let pats = parameters(g, t, p)?;
    let body = function_body(g, t, p, PLAIN)?;
    made_constructor::<P, T>(t, p, begin, key, pats, body)
}

/// A constructor, from behind its body.
#[tactic(auto, unfolding(swc_ecma_parser_reader::specs::Reader::misdirected))]
#[inline(never)]
fn made_constructor<P: Cursor, T: BuildsClass + BuildsPattern>(
    t: &MakerOf<T>,
    p: &mut P,
    begin: Begin,
    key: T::Key,
    pats: Vec<T::Pat>,
    body: FunctionBody<T::Block>,
) -> PResult<T::Member>
    requires { own.misplaced_directive false (T.block_of body.block) ≡ late body.strict_directive }
    ensures { GivesAs T.member_of
        (made.made_constructor begin.is_static begin.start begin.first (T.key_of key)
        (map T.pat_of pats.items) (T.block_of body.block) (P.seen p.old)) result (P.seen p.new) }
{
    let span = since(p, begin.start);
    let Parameters { params, are_plain } = made_parameters::<P, T>(t, p, pats)?;
    misdirected_body::<P, T>(p, are_plain, &body)?;
    unstatic(t.alloc, p, begin.is_static, begin.first)?;
    grown(p, T::constructor(t.alloc, span, key, params, body.block))
}

/// A method or a constructor, where no word and no `*` stand before its key.
#[tactic(auto, unfolding(swc_ecma_parser_reader::specs::Members::plain_method))]
#[inline(never)]
pub(crate) fn plain_method<P: Cursor, T: BuildsClass + BuildsPattern, G: Readers<P, T>>(
    g: &G,
    t: &MakerOf<T>,
    p: &mut P,
    decorators: Vec<T::Decorator>,
    begin: Begin,
    word: Span,
    key: MemberKey<T::Expr>,
) -> PResult<T::Member>
    requires { G.ready g.now }
    ensures { GivesAs T.member_of
        (members.plain_method (rules.stmt (G.depth g.now) nested_item)
        (rules.parameters (G.depth g.now)) (map T.decorator_of decorators.items) begin.is_static
        begin.start begin.first word (member_key_of T.expr_of key) (P.seen p.old)) result
        (P.seen p.new) }
{
    let head = Head {
        is_static: begin.is_static,
        form: MethodForm::Method(PLAIN),
        start: begin.start,
        first: begin.first,
        word,
    };
    let key = match key {
        MemberKey::Private(name) => {
            return method(g, t, p, head, decorators, MemberKey::Private(name));
        }
        MemberKey::Public(key) => key,
    };
    if !is_constructor_name::<T>(&key) {
        return method(g, t, p, head, decorators, MemberKey::Public(key));
    }
    let key = grown(p, made_key::<T>(t.alloc, key))?;
    constructor(g, t, p, begin, key)
}

/// What stands around the statements of a static block.
fn in_static_block(flags: Context) -> Context
    ensures { result ≡ record flags { in_static_block = true } }
{
    Context {
        in_static_block: true,
        ..flags
    }
}

/// The statements of a static block, which run with the class.
#[tactic(auto, unfolding(swc_ecma_parser_reader::specs::Members::static_block))]
#[inline(never)]
pub(crate) fn static_block<P: Cursor, T: BuildsClass, G: Readers<P, T>>(
    g: &G,
    t: &MakerOf<T>,
    p: &mut P,
    start: Span,
) -> PResult<T::Member>
    requires { G.ready g.now }
    ensures { GivesAs T.member_of
        (members.static_block (rules.stmt (G.depth g.now) nested_item)
        (rules.parameters (G.depth g.now)) start (P.seen p.old)) result (P.seen p.new) }
{
    let outer = p.flags();
    p.set_flags(in_static_block(outer));
    let body = braced(g, t, p)?;
    p.set_flags(outer);
    let span = since(p, start);
    grown(p, T::static_block(t.alloc, span, body))
}

/// A static block behind a second `static`, which is a fault of the first.
#[tactic(auto, unfolding(swc_ecma_parser_reader::specs::Members::second_static))]
#[inline(never)]
pub(crate) fn second_static<P: Cursor, T: BuildsClass, G: Readers<P, T>>(
    g: &G,
    t: &MakerOf<T>,
    p: &mut P,
    begin: Begin,
) -> PResult<T::Member>
    requires { G.ready g.now }
    ensures { GivesAs T.member_of
        (members.second_static (rules.stmt (G.depth g.now) nested_item)
        (rules.parameters (G.depth g.now)) begin.start begin.first (P.seen p.old)) result
        (P.seen p.new) }
{
    p.fault(SyntaxError::TS1184, begin.first)?;
    p.skip()?;
    static_block(g, t, p, begin.start)
}
