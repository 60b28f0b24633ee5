//! Methods and accessors of objects: ECMA-262, section 15.4.

ghost use Rattle.std.specs.Prelude.{◌≡◌, map};
ghost use Rattle.swc_ecma_parser_functions.specs.Methods.{form_of};
ghost use Rattle.swc_ecma_parser_grammar.specs.language.Items.{nested_item};
ghost use Rattle.swc_ecma_parser_shared.specs.Keys.{key_of};
ghost use Rattle.swc_ecma_parser_reader.specs.Methods as methods;
ghost use Rattle.swc_ecma_parser_reader.specs.Methods.{property_form};
ghost use Rattle.swc_ecma_parser_reader.specs.Reader as rules;
ghost use Rattle.swc_ecma_parser_reader.specs.State.{Gives, GivesAs};

use crate::function::{
    FunctionBody, Manner, function_body, function_parts, misdirected, parameters_inside, star,
};
use swc_ecma_parser_common::Span;
use swc_ecma_parser_cursor::Cursor;
use swc_ecma_parser_error::{PResult, SyntaxError};
use swc_ecma_parser_shared::keys::{Key, made_key};
use swc_ecma_parser_shared::readers::Readers;
use swc_ecma_parser_shared::steps::{grown, since};
use swc_ecma_parser_trees::{BuildsMethod, BuildsPattern, MakerOf, Trees};

/// What a method is, by the words before its key.
#[derive(Clone, Copy)]
pub enum MethodForm {
    /// `get`
    Getter,
    /// `set`
    Setter,
    /// A method, async or not, a generator or not.
    Method(Manner),
}

impl MethodForm {
    /// Whether nothing stands before its key.
    pub fn is_bare(self) -> bool
        ensures { result ≡ methods.is_bare (form_of self) }
    {
        match self {
            MethodForm::Method(manner) => !manner.is_async && !manner.is_generator,
            _ => false,
        }
    }
}

/// What stands around an accessor: it is neither async nor a generator.
const PLAIN: Manner = Manner {
    is_async: false,
    is_generator: false,
};

/// The words before a key, if any stand there.
#[tactic(auto, unfolding(swc_ecma_parser_reader::specs::Methods::method_words, swc_ecma_parser_reader::specs::Methods::starred))]
#[inline(never)]
pub fn method_words<P: Cursor>(p: &mut P) -> PResult<MethodForm>
    ensures { GivesAs form_of (methods.method_words (P.seen p.old)) result (P.seen p.new) }
{
    if p.modifies("get") {
        p.skip()?;
        return Ok(MethodForm::Getter);
    }
    if p.modifies("set") {
        p.skip()?;
        return Ok(MethodForm::Setter);
    }
    let is_async = p.begins_async_method();
    if is_async {
        p.skip()?;
    }
    let is_generator = star(p)?;
    Ok(MethodForm::Method(Manner {
        is_async,
        is_generator,
    }))
}

/// A getter has no parameter; else its word is refused.
#[inline(never)]
fn no_parameter<P: Cursor, T: Trees>(p: &mut P, params: &[T::Pat], word: Span) -> PResult<()>
    ensures { Gives (rules.no_parameter word (map T.pat_of params.now) (P.seen p.old)) result
        (P.seen p.new) }
{
    if params.is_empty() {
        return Ok(());
    }
    Err(p.reject(SyntaxError::GetterParam, word))
}

/// A setter has one parameter, which is no rest; else its word is refused.
#[inline(never)]
fn one_parameter<P: Cursor, T: BuildsPattern>(
    p: &mut P,
    params: Vec<T::Pat>,
    word: Span,
) -> PResult<T::Pat>
    ensures { GivesAs T.pat_of (rules.one_parameter word (map T.pat_of params.items) (P.seen p.old))
        result (P.seen p.new) }
{
    let mut params = params;
    let Some(param) = params.pop() else {
        return Err(p.reject(SyntaxError::SetterParam, word));
    };
    if !params.is_empty() {
        return Err(p.reject(SyntaxError::SetterParam, word));
    }
    if T::is_rest(&param) {
        return Err(p.reject(SyntaxError::RestPatInSetter, word));
    }
    Ok(param)
}

/// A getter, from behind its key.
#[tactic(auto, unfolding(swc_ecma_parser_reader::specs::Reader::getter))]
#[inline(never)]
fn getter<P: Cursor, T: BuildsMethod + BuildsPattern, G: Readers<P, T>>(
    g: &G,
    t: &MakerOf<T>,
    p: &mut P,
    start: Span,
    key: Key<T::Expr>,
) -> PResult<T::Prop>
    requires { G.ready g.now }
    ensures { GivesAs T.prop_of
        (rules.getter (rules.stmt (G.depth g.now) nested_item) (rules.parameters (G.depth g.now))
        start (key_of T.expr_of key) (P.seen p.old)) result (P.seen p.new) }
{
    let params = parameters_inside(g, t, p, PLAIN)?;
    no_parameter::<P, T>(p, &params, start)?;
    let FunctionBody {
        block,
        strict_directive: _,
    } = function_body(g, t, p, PLAIN)?;
    let span = since(p, start);
    let key = grown(p, made_key::<T>(t.alloc, key))?;
    grown(p, T::getter_prop(t.alloc, span, key, block))
}

/// A setter, from behind its key.
#[tactic(auto, unfolding(swc_ecma_parser_reader::specs::Reader::setter))]
#[inline(never)]
fn setter<P: Cursor, T: BuildsMethod + BuildsPattern, G: Readers<P, T>>(
    g: &G,
    t: &MakerOf<T>,
    p: &mut P,
    start: Span,
    key: Key<T::Expr>,
) -> PResult<T::Prop>
    requires { G.ready g.now }
    ensures { GivesAs T.prop_of
        (rules.setter (rules.stmt (G.depth g.now) nested_item) (rules.parameters (G.depth g.now))
        start (key_of T.expr_of key) (P.seen p.old)) result (P.seen p.new) }
{
    let params = parameters_inside(g, t, p, PLAIN)?;
    let param = one_parameter::<P, T>(p, params, start)?;
    let FunctionBody {
        block,
        strict_directive,
    } = function_body(g, t, p, PLAIN)?;
    let span = since(p, start);
    misdirected(p, T::is_binding_name(&param), strict_directive)?;
    let key = grown(p, made_key::<T>(t.alloc, key))?;
    grown(p, T::setter_prop(t.alloc, span, key, param, block))
}

/// A method that is no accessor, from behind its key.
#[tactic(auto, unfolding(swc_ecma_parser_reader::specs::Reader::plain_method))]
#[inline(never)]
fn plain_method<P: Cursor, T: BuildsMethod + BuildsPattern, G: Readers<P, T>>(
    g: &G,
    t: &MakerOf<T>,
    p: &mut P,
    manner: Manner,
    start: Span,
    key: Key<T::Expr>,
) -> PResult<T::Prop>
    requires { G.ready g.now }
    ensures { GivesAs T.prop_of
        (rules.plain_method (rules.stmt (G.depth g.now) nested_item)
        (rules.parameters (G.depth g.now)) manner.is_async manner.is_generator start
        (key_of T.expr_of key) (P.seen p.old)) result (P.seen p.new) }
{
    let function = function_parts(g, t, p, manner, start)?;
    let span = T::function_span(&function);
    let key = grown(p, made_key::<T>(t.alloc, key))?;
    grown(p, T::method_prop(t.alloc, span, key, function))
}

/// A method, from behind its key.
#[tactic(auto, unfolding(swc_ecma_parser_reader::specs::Reader::function, swc_ecma_parser_reader::specs::Reader::function_by))]
#[inline(never)]
pub fn method<P: Cursor, T: BuildsMethod + BuildsPattern, G: Readers<P, T>>(
    g: &G,
    t: &MakerOf<T>,
    p: &mut P,
    form: MethodForm,
    start: Span,
    key: Key<T::Expr>,
) -> PResult<T::Prop>
    requires { G.ready g.now }
    ensures { GivesAs T.prop_of
        (rules.function (G.depth g.now) (property_form (form_of form) start (key_of T.expr_of key))
        (P.seen p.old)) result (P.seen p.new) }
{
    match form {
        MethodForm::Getter => getter(g, t, p, start, key),
        MethodForm::Setter => setter(g, t, p, start, key),
        MethodForm::Method(manner) => plain_method(g, t, p, manner, start, key),
    }
}
