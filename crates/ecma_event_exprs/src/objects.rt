//! Objects and keys.

ghost use Rattle.std.specs.Prelude.{◌≡◌, ◌∷◌, OnOk};
ghost use Rattle.ecma_event_exprs.specs.Events.{events, function_events, is_proto, key_events, property_events, second_proto, used};
ghost use Rattle.swc_ecma_parser_model.specs.Forms.{is_proto_key};
ghost use Rattle.swc_ecma_parser_ast.specs.View.{view_function, view_getter_prop, view_prop, view_prop_name, view_prop_or_spread, view_setter_prop};
ghost use Rattle.std.specs.Prelude.{map};
ghost use Rattle.swc_ecma_parser_model.specs.Tree.{trees};
ghost use Rattle.swc_ecma_parser_model.specs.Tree as tree;
ghost use Rattle.ecma_events.specs.declared.event.CodeKind.TheVariants as code_kind;

use crate::functions::{body, enter_accessor, method};
use crate::literals::{number, string};
use crate::walk::Walk;
use crate::work::Work;
use ecma_events::{Binding, Event, Role};
use std::alloc::AllocError;
use swc_ecma_parser_ast::{GetterProp, MethodProp, Prop, PropName, PropOrSpread, SetterProp};

/// A key: what its brackets hold, or a literal.
pub fn key<'a>(walk: &mut Walk<'a>, x: &'a PropName) -> Result<(), AllocError>
    ensures { OnOk result (walk.new ≡ key_events (view_prop_name x.now) walk.old) }
{
    match x {
        PropName::Computed(x) => walk.push(Work::Expr(Role::Used, &x.expr)),
        PropName::Str(x) => string(walk, x),
        PropName::Num(x) => number(walk, x),
        PropName::Ident(_) | PropName::BigInt(_) => Ok(()),
    }
}

/// Whether a key is `__proto__`, a word or a string.
fn is_proto_name(x: &PropName) -> bool
    ensures { result ≡ is_proto_key (view_prop_name x.now) }
{
    match x {
        PropName::Ident(x) => x.sym.as_str() == "__proto__",
        PropName::Str(x) => x.value.as_str() == "__proto__",
        PropName::Num(_) | PropName::BigInt(_) | PropName::Computed(_) => false,
    }
}

/// Whether it is `__proto__: value`.
fn is_proto_prop(x: &Prop) -> bool
    ensures { result ≡ is_proto (view_prop x.now) }
{
    match x {
        Prop::KeyValue(x) => is_proto_name(&x.key),
        Prop::Shorthand(_)
        | Prop::Assign(_)
        | Prop::Getter(_)
        | Prop::Setter(_)
        | Prop::Method(_) => false,
    }
}

/// Whether a property is `__proto__: value`.
fn is_proto(x: &PropOrSpread) -> bool
    ensures { result ≡ is_proto (view_prop_or_spread x.now) }
{
    match x {
        PropOrSpread::Spread(_) => false,
        PropOrSpread::Prop(x) => is_proto_prop(x),
    }
}

/// Tells a property that is a second `__proto__: value`.
fn second_prop<'a>(walk: &mut Walk<'a>, seen: bool, x: &'a Prop) -> Result<(), AllocError>
    ensures { OnOk result (walk.new ≡ second_proto seen (view_prop x.now) walk.old) }
{
    match x {
        Prop::KeyValue(x) => {
            if is_proto_name(&x.key) && seen {
                return walk.event(Event::SecondProto(x.span));
            }
            Ok(())
        }
        Prop::Shorthand(_)
        | Prop::Assign(_)
        | Prop::Getter(_)
        | Prop::Setter(_)
        | Prop::Method(_) => Ok(()),
    }
}

/// Tells a part of an object that is a second `__proto__: value`.
fn second_proto<'a>(walk: &mut Walk<'a>, seen: bool, x: &'a PropOrSpread) -> Result<(), AllocError>
    ensures { OnOk result (walk.new ≡ second_proto seen (view_prop_or_spread x.now) walk.old) }
{
    match x {
        PropOrSpread::Spread(_) => Ok(()),
        PropOrSpread::Prop(x) => second_prop(walk, seen, x),
    }
}

/// Properties, where one `__proto__: value` was seen or not.
pub fn properties<'a>(
    walk: &mut Walk<'a>,
    seen: bool,
    parts: &'a [PropOrSpread],
) -> Result<(), AllocError>
    ensures { OnOk result
        (walk.new
        ≡ property_events seen (trees (map view_prop_or_spread parts.now)) walk.old) }
{
    match parts.split_first() {
        Some((x, rest)) => {
            let following = Work::Properties(seen || is_proto(x), rest);
            walk.two(Work::Property(x), following)?;
            second_proto(walk, seen, x)
        }
        None => Ok(()),
    }
}

/// A property.
pub fn property<'a>(walk: &mut Walk<'a>, x: &'a PropOrSpread) -> Result<(), AllocError>
    ensures { OnOk result (walk.new ≡ events used (view_prop_or_spread x.now) walk.old) }
{
    match x {
        PropOrSpread::Spread(x) => walk.push(Work::Expr(Role::Used, &x.expr)),
        PropOrSpread::Prop(x) => prop(walk, x),
    }
}

fn prop<'a>(walk: &mut Walk<'a>, x: &'a Prop) -> Result<(), AllocError>
    ensures { OnOk result (walk.new ≡ events used (view_prop x.now) walk.old) }
{
    match x {
        Prop::Shorthand(x) => walk.name(Role::Used, x),
        Prop::KeyValue(x) => walk.two(Work::Key(&x.key), Work::Expr(Role::Used, &x.value)),
        Prop::Assign(x) => walk.push(Work::Expr(Role::Used, &x.value)),
        Prop::Getter(x) => getter(walk, x),
        Prop::Setter(x) => setter(walk, x),
        Prop::Method(x) => method_prop(walk, x),
    }
}

fn method_prop<'a>(walk: &mut Walk<'a>, x: &'a MethodProp) -> Result<(), AllocError>
    ensures { OnOk result
        (walk.new
        ≡ key_events (view_prop_name x.now.key) (function_events code_kind.Method tree.absent (view_function x.now.function.value) walk.old)) }
{
    method(walk, &x.function)?;
    key(walk, &x.key)
}

fn getter<'a>(walk: &mut Walk<'a>, x: &'a GetterProp) -> Result<(), AllocError>
    ensures { OnOk result (walk.new ≡ events used (view_getter_prop x.now) walk.old) }
{
    body(walk, &x.body)?;
    enter_accessor(walk, x.span, &x.body)?;
    key(walk, &x.key)
}

fn setter<'a>(walk: &mut Walk<'a>, x: &'a SetterProp) -> Result<(), AllocError>
    ensures { OnOk result (walk.new ≡ events used (view_setter_prop x.now) walk.old) }
{
    body(walk, &x.body)?;
    walk.push(Work::Pattern(Role::Declared(Binding::Parameter, false), &x.param))?;
    enter_accessor(walk, x.span, &x.body)?;
    key(walk, &x.key)
}
