//! Patterns: each name in one stands for what the pattern does.

ghost use Rattle.std.specs.Prelude.{◌≡◌, OnOk};
ghost use Rattle.ecma_event_exprs.specs.Events.{events};
ghost use Rattle.swc_ecma_parser_ast.specs.View.{view_array_pat, view_object_pat, view_object_pat_prop, view_pat};

use crate::exprs::optional_expr;
use crate::walk::Walk;
use crate::work::Work;
use ecma_events::Role;
use std::alloc::AllocError;
use swc_ecma_parser_ast::{ArrayPat, ObjectPat, ObjectPatProp, Pat};

/// A pattern.
pub fn pat<'a>(walk: &mut Walk<'a>, role: Role, x: &'a Pat) -> Result<(), AllocError>
    ensures { OnOk result (walk.new ≡ events role (view_pat x.now) walk.old) }
{
    match x {
        Pat::Ident(x) => walk.name(role, &x.id),
        Pat::Array(x) => array_pat(walk, role, x),
        Pat::Rest(x) => walk.push(Work::Pat(role, &x.arg)),
        Pat::Object(x) => object_pat(walk, role, x),
        Pat::Assign(x) => walk.two(Work::Pat(role, &x.left), Work::Expr(Role::Used, &x.right)),
        Pat::Invalid(_) => Ok(()),
        Pat::Expr(x) => walk.push(Work::Expr(role, x)),
    }
}

/// A pattern of elements.
pub(crate) fn array_pat<'a>(
    walk: &mut Walk<'a>,
    role: Role,
    x: &'a ArrayPat,
) -> Result<(), AllocError>
    ensures { OnOk result (walk.new ≡ events role (view_array_pat x.now) walk.old) }
{
    walk.push(Work::PatElements(role, x.elems.as_slice()))
}

/// A pattern of properties.
pub(crate) fn object_pat<'a>(
    walk: &mut Walk<'a>,
    role: Role,
    x: &'a ObjectPat,
) -> Result<(), AllocError>
    ensures { OnOk result (walk.new ≡ events role (view_object_pat x.now) walk.old) }
{
    walk.push(Work::PatProperties(role, x.props.as_slice()))
}

/// A property of a pattern.
pub fn pat_property<'a>(
    walk: &mut Walk<'a>,
    role: Role,
    x: &'a ObjectPatProp,
) -> Result<(), AllocError>
    ensures { OnOk result (walk.new ≡ events role (view_object_pat_prop x.now) walk.old) }
{
    match x {
        ObjectPatProp::KeyValue(x) => walk.two(Work::Key(&x.key), Work::Pat(role, &x.value)),
        ObjectPatProp::Assign(x) => {
            optional_expr(walk, &x.value)?;
            walk.name(role, &x.key.id)
        }
        ObjectPatProp::Rest(x) => walk.push(Work::Pat(role, &x.arg)),
    }
}
