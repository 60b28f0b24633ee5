//! Lists: the first part of what is left, and then the rest.

ghost use Rattle.std.specs.Prelude.{◌≡◌, map, OnOk};
ghost use Rattle.ecma_event_exprs.specs.Events.{all_events, declared, events, used};
ghost use Rattle.ecma_events.specs.declared.event.Binding.TheVariants as binding;
ghost use Rattle.swc_ecma_parser_ast.specs.Parts.{view_option};
ghost use Rattle.swc_ecma_parser_ast.specs.View.{view_class_member, view_declarator, view_decorator, view_expr_or_spread, view_import_specifier, view_module_item, view_object_pat_prop, view_param, view_param_or_ts_param_prop, view_pat, view_stmt, view_switch_case};
ghost use Rattle.swc_ecma_parser_model.specs.Tree.{trees};

use ecma_event_exprs::{Walk, Work};
use ecma_events::Role;
use std::alloc::AllocError;
use swc_ecma_parser_ast::{
    ClassMember, Decorator, ExprBox, ExprOrSpread, ImportSpecifier, ModuleItem, ObjectPatProp,
    Param, ParamOrTsParamProp, Pat, PatBox, Stmt, SwitchCase, VarDeclarator,
};

/// Expressions.
pub(crate) fn exprs<'a>(walk: &mut Walk<'a>, parts: &'a [ExprBox]) -> Result<(), AllocError>
    ensures { OnOk result (walk.new ≡ all_events used (trees (map (λ b. b.node.tree) parts.now)) walk.old) }
{
    match parts.split_first() {
        Some((x, rest)) => walk.two(Work::Expr(Role::Used, x), Work::Exprs(rest)),
        None => Ok(()),
    }
}

/// Arguments.
pub(crate) fn arguments<'a>(
    walk: &mut Walk<'a>,
    parts: &'a [ExprOrSpread],
) -> Result<(), AllocError>
    ensures { OnOk result (walk.new ≡ all_events used (trees (map view_expr_or_spread parts.now)) walk.old) }
{
    match parts.split_first() {
        Some((x, rest)) => walk.two(Work::Argument(x), Work::Arguments(rest)),
        None => Ok(()),
    }
}

/// Parameters.
pub(crate) fn params<'a>(walk: &mut Walk<'a>, parts: &'a [Param]) -> Result<(), AllocError>
    ensures { OnOk result (walk.new ≡ all_events (declared binding.Parameter) (trees (map view_param parts.now)) walk.old) }
{
    match parts.split_first() {
        Some((x, rest)) => walk.two(Work::Param(x), Work::Params(rest)),
        None => Ok(()),
    }
}

/// Decorators.
pub(crate) fn decorators<'a>(walk: &mut Walk<'a>, parts: &'a [Decorator]) -> Result<(), AllocError>
    ensures { OnOk result (walk.new ≡ all_events used (trees (map view_decorator parts.now)) walk.old) }
{
    match parts.split_first() {
        Some((x, rest)) => walk.two(Work::Decorator(x), Work::Decorators(rest)),
        None => Ok(()),
    }
}

/// Members of a class.
pub(crate) fn members<'a>(walk: &mut Walk<'a>, parts: &'a [ClassMember]) -> Result<(), AllocError>
    ensures { OnOk result (walk.new ≡ all_events used (trees (map view_class_member parts.now)) walk.old) }
{
    match parts.split_first() {
        Some((x, rest)) => walk.two(Work::ClassMember(x), Work::Members(rest)),
        None => Ok(()),
    }
}

/// Statements.
pub(crate) fn statements<'a>(walk: &mut Walk<'a>, parts: &'a [Stmt]) -> Result<(), AllocError>
    ensures { OnOk result (walk.new ≡ all_events used (trees (map view_stmt parts.now)) walk.old) }
{
    match parts.split_first() {
        Some((x, rest)) => walk.two(Work::Statement(x), Work::Statements(rest)),
        None => Ok(()),
    }
}

/// Clauses of a `switch`.
pub(crate) fn cases<'a>(walk: &mut Walk<'a>, parts: &'a [SwitchCase]) -> Result<(), AllocError>
    ensures { OnOk result (walk.new ≡ all_events used (trees (map view_switch_case parts.now)) walk.old) }
{
    match parts.split_first() {
        Some((x, rest)) => walk.two(Work::Case(x), Work::Cases(rest)),
        None => Ok(()),
    }
}

/// Items.
pub(crate) fn items<'a>(walk: &mut Walk<'a>, parts: &'a [ModuleItem]) -> Result<(), AllocError>
    ensures { OnOk result (walk.new ≡ all_events used (trees (map view_module_item parts.now)) walk.old) }
{
    match parts.split_first() {
        Some((x, rest)) => walk.two(Work::Item(x), Work::Items(rest)),
        None => Ok(()),
    }
}

/// Names that an import binds.
pub(crate) fn imports<'a>(
    walk: &mut Walk<'a>,
    parts: &'a [ImportSpecifier],
) -> Result<(), AllocError>
    ensures { OnOk result (walk.new ≡ all_events (declared binding.Import) (trees (map view_import_specifier parts.now)) walk.old) }
{
    match parts.split_first() {
        Some((x, rest)) => walk.two(Work::Import(x), Work::Imports(rest)),
        None => Ok(()),
    }
}

/// Patterns.
pub(crate) fn patterns<'a>(
    walk: &mut Walk<'a>,
    role: Role,
    parts: &'a [Pat],
) -> Result<(), AllocError>
    ensures { OnOk result (walk.new ≡ all_events role (trees (map view_pat parts.now)) walk.old) }
{
    match parts.split_first() {
        Some((x, rest)) => walk.two(Work::Pattern(role, x), Work::Patterns(role, rest)),
        None => Ok(()),
    }
}

/// Properties of a pattern.
pub(crate) fn pat_properties<'a>(
    walk: &mut Walk<'a>,
    role: Role,
    parts: &'a [ObjectPatProp],
) -> Result<(), AllocError>
    ensures { OnOk result (walk.new ≡ all_events role (trees (map view_object_pat_prop parts.now)) walk.old) }
{
    match parts.split_first() {
        Some((x, rest)) => walk.two(Work::PatProperty(role, x), Work::PatProperties(role, rest)),
        None => Ok(()),
    }
}

/// Variables.
pub(crate) fn declarators<'a>(
    walk: &mut Walk<'a>,
    role: Role,
    parts: &'a [VarDeclarator],
) -> Result<(), AllocError>
    ensures { OnOk result (walk.new ≡ all_events role (trees (map view_declarator parts.now)) walk.old) }
{
    match parts.split_first() {
        Some((x, rest)) => walk.two(Work::Declarator(role, x), Work::Declarators(role, rest)),
        None => Ok(()),
    }
}

/// An element of an array, which may be left out, and the rest.
fn element<'a>(
    walk: &mut Walk<'a>,
    x: &'a Option<ExprOrSpread>,
    rest: &'a [Option<ExprOrSpread>],
) -> Result<(), AllocError>
    ensures { OnOk result
        (walk.new
        ≡ events used (view_option view_expr_or_spread x.now) (all_events used (trees (map (view_option view_expr_or_spread) rest.now)) walk.old)) }
{
    match x {
        Some(x) => walk.two(Work::Argument(x), Work::Elements(rest)),
        None => walk.push(Work::Elements(rest)),
    }
}

/// Elements of an array, of which some may be left out.
pub(crate) fn elements<'a>(
    walk: &mut Walk<'a>,
    parts: &'a [Option<ExprOrSpread>],
) -> Result<(), AllocError>
    ensures { OnOk result
        (walk.new
        ≡ all_events used (trees (map (view_option view_expr_or_spread) parts.now)) walk.old) }
{
    match parts.split_first() {
        Some((x, rest)) => element(walk, x, rest),
        None => Ok(()),
    }
}

/// An element of a pattern, which may be left out, and the rest.
fn pat_element<'a>(
    walk: &mut Walk<'a>,
    role: Role,
    x: &'a Option<PatBox>,
    rest: &'a [Option<PatBox>],
) -> Result<(), AllocError>
    ensures { OnOk result
        (walk.new
        ≡ events role (view_option (λ b. b.node.tree) x.now) (all_events role (trees (map (view_option (λ b. b.node.tree)) rest.now)) walk.old)) }
{
    match x {
        Some(x) => walk.two(Work::Pat(role, x), Work::PatElements(role, rest)),
        None => walk.push(Work::PatElements(role, rest)),
    }
}

/// Elements of a pattern, of which some may be left out.
pub(crate) fn pat_elements<'a>(
    walk: &mut Walk<'a>,
    role: Role,
    parts: &'a [Option<PatBox>],
) -> Result<(), AllocError>
    ensures { OnOk result
        (walk.new
        ≡ all_events role (trees (map (view_option (λ b. b.node.tree)) parts.now)) walk.old) }
{
    match parts.split_first() {
        Some((x, rest)) => pat_element(walk, role, x, rest),
        None => Ok(()),
    }
}

/// The parameter itself.
fn as_param(x: &ParamOrTsParamProp) -> &Param
    ensures { view_param result.now ≡ view_param_or_ts_param_prop x.now }
{
    match x {
        ParamOrTsParamProp::Param(x) => x,
    }
}

/// A parameter of a constructor, and the rest.
fn constructor_param<'a>(
    walk: &mut Walk<'a>,
    x: &'a ParamOrTsParamProp,
    rest: &'a [ParamOrTsParamProp],
) -> Result<(), AllocError>
    ensures { OnOk result
        (walk.new
        ≡ events (declared binding.Parameter) (view_param_or_ts_param_prop x.now) (all_events (declared binding.Parameter) (trees (map view_param_or_ts_param_prop rest.now)) walk.old)) }
{
    walk.two(Work::Param(as_param(x)), Work::ConstructorParams(rest))
}

/// Parameters of a constructor.
pub(crate) fn constructor_params<'a>(
    walk: &mut Walk<'a>,
    parts: &'a [ParamOrTsParamProp],
) -> Result<(), AllocError>
    ensures { OnOk result
        (walk.new
        ≡ all_events (declared binding.Parameter) (trees (map view_param_or_ts_param_prop parts.now)) walk.old) }
{
    match parts.split_first() {
        Some((x, rest)) => constructor_param(walk, x, rest),
        None => Ok(()),
    }
}
