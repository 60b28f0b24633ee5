//! Members of classes.

ghost use Rattle.std.specs.Prelude.{◌≡◌, ◌∷◌, OnOk};
ghost use Rattle.ecma_events.specs.Event as steps;
ghost use Rattle.ecma_event_exprs.specs.Events.{body_events, events, function_events, is_prototype_key, key_events, member_key_events, prototype, used};
ghost use Rattle.ecma_events.specs.declared.event.CodeKind.TheVariants as code_kind;
ghost use Rattle.ecma_events.specs.declared.event.Region.TheVariants as region;
ghost use Rattle.swc_ecma_parser_ast.specs.Parts.{view_option};
ghost use Rattle.swc_ecma_parser_ast.specs.View.{view_auto_accessor, view_class_member, view_class_prop, view_constructor, view_function, view_key, view_private_prop, view_prop_name, view_static_block};
ghost use Rattle.swc_ecma_parser_model.specs.Tree as tree;

use crate::directives::is_body_directed;
use crate::exprs::optional_expr;
use crate::functions::{body, method};
use crate::objects::key;
use crate::walk::Walk;
use crate::work::Work;
use ecma_events::{Code, CodeKind, Event, Region};
use std::alloc::AllocError;
use swc_ecma_parser_ast::{
    AutoAccessor, ClassMember, ClassMethod, ClassProp, Constructor, ExprBox, Key, MethodKind,
    PrivateMethod, PrivateProp, PropName, Span, Spanned, StaticBlock,
};

/// A member.
pub fn member<'a>(walk: &mut Walk<'a>, x: &'a ClassMember) -> Result<(), AllocError>
    ensures { OnOk result (walk.new ≡ events used (view_class_member x.now) walk.old) }
{
    match x {
        ClassMember::Constructor(x) => constructor(walk, x),
        ClassMember::Method(x) => class_method(walk, x),
        ClassMember::PrivateMethod(x) => private_method(walk, x),
        ClassMember::ClassProp(x) => class_prop(walk, x),
        ClassMember::PrivateProp(x) => private_prop(walk, x),
        ClassMember::Empty(_) => Ok(()),
        ClassMember::StaticBlock(x) => static_block(walk, x),
        ClassMember::AutoAccessor(x) => auto_accessor(walk, x),
    }
}

fn constructor<'a>(walk: &mut Walk<'a>, x: &'a Constructor) -> Result<(), AllocError>
    ensures { OnOk result (walk.new ≡ events used (view_constructor x.now) walk.old) }
{
    body(walk, &x.body)?;
    walk.push(Work::ConstructorParams(x.params.as_slice()))?;
    walk.event(Event::Enter(
        Region::Function(Code {
            kind: CodeKind::Constructor,
            is_async: false,
            is_generator: false,
            is_directed: is_body_directed(&x.body),
            may_repeat: false,
        }),
        x.span,
    ))?;
    key(walk, &x.key)
}

/// Whether a key is `prototype`, a word or a string.
fn is_prototype(x: &PropName) -> bool
    ensures { result ≡ is_prototype_key (view_prop_name x.now) }
{
    match x {
        PropName::Ident(x) => x.sym.as_str() == "prototype",
        PropName::Str(x) => x.value.as_str() == "prototype",
        PropName::Num(_) | PropName::BigInt(_) | PropName::Computed(_) => false,
    }
}

/// What a static member must not be named.
fn prototype<'a>(walk: &mut Walk<'a>, is_static: bool, x: &'a PropName) -> Result<(), AllocError>
    ensures { OnOk result (walk.new ≡ prototype is_static (view_prop_name x.now) walk.old) }
{
    if is_static && is_prototype(x) {
        return walk.event(Event::Prototype(x.span()));
    }
    Ok(())
}

fn class_method<'a>(walk: &mut Walk<'a>, x: &'a ClassMethod) -> Result<(), AllocError>
    ensures { let name = view_prop_name x.now.key in OnOk result
        (walk.new
        ≡ prototype x.now.is_static name (key_events name (function_events code_kind.Method tree.absent (view_function x.now.function.value) walk.old))) }
{
    method(walk, &x.function)?;
    key(walk, &x.key)?;
    prototype(walk, x.is_static, &x.key)
}

fn private_method<'a>(walk: &mut Walk<'a>, x: &'a PrivateMethod) -> Result<(), AllocError>
    ensures { OnOk result
        (walk.new
        ≡ steps.private_member x.now.kind x.now.is_static x.now.key.span x.now.key.id.sym
        ∷ function_events code_kind.Method tree.absent (view_function x.now.function.value) walk.old) }
{
    method(walk, &x.function)?;
    walk.event(Event::PrivateMember(x.kind, x.is_static, &x.key))
}

/// The value of a field, in a region of its own.
fn value<'a>(walk: &mut Walk<'a>, span: Span, value: &'a Option<ExprBox>) -> Result<(), AllocError>
    ensures { OnOk result
        (walk.new
        ≡ steps.enter region.Field span
        ∷ events used (view_option (λ b. b.node.tree) value.now) (steps.leave ∷ walk.old)) }
{
    walk.event(Event::Leave)?;
    optional_expr(walk, value)?;
    walk.event(Event::Enter(Region::Field, span))
}

fn class_prop<'a>(walk: &mut Walk<'a>, x: &'a ClassProp) -> Result<(), AllocError>
    ensures { OnOk result (walk.new ≡ events used (view_class_prop x.now) walk.old) }
{
    value(walk, x.span, &x.value)?;
    key(walk, &x.key)?;
    prototype(walk, x.is_static, &x.key)?;
    walk.push(Work::Decorators(x.decorators.as_slice()))
}

fn private_prop<'a>(walk: &mut Walk<'a>, x: &'a PrivateProp) -> Result<(), AllocError>
    ensures { OnOk result (walk.new ≡ events used (view_private_prop x.now) walk.old) }
{
    value(walk, x.span, &x.value)?;
    walk.event(Event::PrivateMember(MethodKind::Method, x.is_static, &x.key))?;
    walk.push(Work::Decorators(x.decorators.as_slice()))
}

/// The key of a field with accessors.
fn accessor_key<'a>(walk: &mut Walk<'a>, is_static: bool, x: &'a Key) -> Result<(), AllocError>
    ensures { OnOk result (walk.new ≡ member_key_events is_static (view_key x.now) walk.old) }
{
    match x {
        Key::Private(x) => walk.event(Event::PrivateMember(MethodKind::Method, is_static, x)),
        Key::Public(x) => {
            key(walk, x)?;
            prototype(walk, is_static, x)
        }
    }
}

fn auto_accessor<'a>(walk: &mut Walk<'a>, x: &'a AutoAccessor) -> Result<(), AllocError>
    ensures { OnOk result (walk.new ≡ events used (view_auto_accessor x.now) walk.old) }
{
    value(walk, x.span, &x.value)?;
    accessor_key(walk, x.is_static, &x.key)?;
    walk.push(Work::Decorators(x.decorators.as_slice()))
}

fn static_block<'a>(walk: &mut Walk<'a>, x: &'a StaticBlock) -> Result<(), AllocError>
    ensures { OnOk result (walk.new ≡ events used (view_static_block x.now) walk.old) }
{
    walk.event(Event::Leave)?;
    walk.push(Work::StmtList(&x.body.stmts))?;
    walk.event(Event::Enter(Region::StaticBlock, x.span))
}
