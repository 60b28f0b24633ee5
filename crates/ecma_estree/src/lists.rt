//! Lists: a step writes the comma before the first part of what is left, has that part written, and then the rest.

ghost use Rattle.std.specs.Prelude.{◌≡◌, ◌++◌, map, OnOk};
ghost use Rattle.ecma_estree_writer.specs.Estree.{jsons, plain, directives, members, attributes};
ghost use Rattle.ecma_estree_writer.specs.Work.{work_text};
ghost use Rattle.ecma_estree_writer.specs.Writing.{Writes};
ghost use Rattle.swc_ecma_parser_ast.specs.Parts.{view_option};
ghost use Rattle.swc_ecma_parser_ast.specs.View.{view_class_member, view_declarator, view_decorator, view_export_specifier, view_expr_or_spread, view_import_specifier, view_module_item, view_object_pat_prop, view_param, view_param_or_ts_param_prop, view_pat, view_prop_or_spread, view_stmt, view_switch_case, view_tpl_element};
ghost use Rattle.swc_ecma_parser_model.specs.Tree.{trees};
ghost use Rattle.swc_ecma_parser_model.specs.Directive.{is_string_statement};
ghost use Rattle.ecma_estree_writer.specs.Parts as parts;

use crate::exports::{write_directive_item, write_export_specifier};
use crate::imports::write_import_specifier;
use crate::stmts::write_directive;
use ecma_estree_writer::{Work, Writer};
use std::alloc::AllocError;
use swc_ecma_parser_ast::{
    ClassMember, Decorator, ExportSpecifier, ExprBox, ExprOrSpread, ImportSpecifier, ModuleItem,
    ObjectPatProp, Param, ParamOrTsParamProp, Pat, PatBox, PropOrSpread, Stmt, SwitchCase,
    TplElement, VarDeclarator,
};

/// Has the first part of what is left of a list written, behind a comma where another stands before it, and then the rest.
fn write_next<'a>(
    w: &mut Writer<'a>,
    is_first: bool,
    part: Work<'a>,
    rest: Work<'a>,
) -> Result<(), AllocError>
    ensures { OnOk result
        (Writes w.old w.new
        (parts.comma is_first
        ++ (work_text w.old.source part.entry ++ work_text w.old.source rest.entry))) }
{
    w.comma(is_first)?;
    w.push(rest)?;
    w.push(part)
}

/// Writes expressions.
pub(crate) fn write_exprs<'a>(
    w: &mut Writer<'a>,
    parts: &'a [ExprBox],
    is_first: bool,
) -> Result<(), AllocError>
    ensures { OnOk result
        (Writes w.old w.new
        (jsons w.old.source plain is_first (trees (map (λ b. b.node.tree) parts.now)))) }
{
    match parts.split_first() {
        Some((x, rest)) => write_next(w, is_first, Work::Expr(x), Work::Exprs(rest, false)),
        None => Ok(()),
    }
}

/// Writes the texts of a template.
pub(crate) fn write_quasis<'a>(
    w: &mut Writer<'a>,
    parts: &'a [TplElement],
    is_first: bool,
) -> Result<(), AllocError>
    ensures { OnOk result
        (Writes w.old w.new
        (jsons w.old.source plain is_first (trees (map view_tpl_element parts.now)))) }
{
    match parts.split_first() {
        Some((x, rest)) => write_next(w, is_first, Work::Quasi(x), Work::Quasis(rest, false)),
        None => Ok(()),
    }
}

/// Writes arguments.
pub(crate) fn write_arguments<'a>(
    w: &mut Writer<'a>,
    parts: &'a [ExprOrSpread],
    is_first: bool,
) -> Result<(), AllocError>
    ensures { OnOk result
        (Writes w.old w.new
        (jsons w.old.source plain is_first (trees (map view_expr_or_spread parts.now)))) }
{
    match parts.split_first() {
        Some((x, rest)) => write_next(w, is_first, Work::Argument(x), Work::Arguments(rest, false)),
        None => Ok(()),
    }
}

/// Writes parts of an object.
pub(crate) fn write_properties<'a>(
    w: &mut Writer<'a>,
    parts: &'a [PropOrSpread],
    is_first: bool,
) -> Result<(), AllocError>
    ensures { OnOk result
        (Writes w.old w.new
        (jsons w.old.source plain is_first (trees (map view_prop_or_spread parts.now)))) }
{
    match parts.split_first() {
        Some((x, rest)) => {
            write_next(
                w,
                is_first,
                Work::Property(x),
                Work::Properties(rest, false),
            )
        }
        None => Ok(()),
    }
}

/// Writes attributes.
pub(crate) fn write_attributes<'a>(
    w: &mut Writer<'a>,
    parts: &'a [PropOrSpread],
    is_first: bool,
) -> Result<(), AllocError>
    ensures { OnOk result
        (Writes w.old w.new
        (jsons w.old.source attributes is_first (trees (map view_prop_or_spread parts.now)))) }
{
    match parts.split_first() {
        Some((x, rest)) => {
            write_next(
                w,
                is_first,
                Work::Attribute(x),
                Work::Attributes(rest, false),
            )
        }
        None => Ok(()),
    }
}

/// Writes patterns.
pub(crate) fn write_patterns<'a>(
    w: &mut Writer<'a>,
    parts: &'a [Pat],
    is_first: bool,
) -> Result<(), AllocError>
    ensures { OnOk result
        (Writes w.old w.new (jsons w.old.source plain is_first (trees (map view_pat parts.now)))) }
{
    match parts.split_first() {
        Some((x, rest)) => write_next(w, is_first, Work::Pattern(x), Work::Patterns(rest, false)),
        None => Ok(()),
    }
}

/// Writes parts of an object pattern.
pub(crate) fn write_pat_properties<'a>(
    w: &mut Writer<'a>,
    parts: &'a [ObjectPatProp],
    is_first: bool,
) -> Result<(), AllocError>
    ensures { OnOk result
        (Writes w.old w.new
        (jsons w.old.source plain is_first (trees (map view_object_pat_prop parts.now)))) }
{
    match parts.split_first() {
        Some((x, rest)) => {
            write_next(
                w,
                is_first,
                Work::PatProperty(x),
                Work::PatProperties(rest, false),
            )
        }
        None => Ok(()),
    }
}

/// Writes parameters.
pub(crate) fn write_params<'a>(
    w: &mut Writer<'a>,
    parts: &'a [Param],
    is_first: bool,
) -> Result<(), AllocError>
    ensures { OnOk result
        (Writes w.old w.new
        (jsons w.old.source plain is_first (trees (map view_param parts.now)))) }
{
    match parts.split_first() {
        Some((x, rest)) => {
            write_next(
                w,
                is_first,
                Work::Pattern(&x.pat),
                Work::Params(rest, false),
            )
        }
        None => Ok(()),
    }
}

/// Writes decorators.
pub(crate) fn write_decorators<'a>(
    w: &mut Writer<'a>,
    parts: &'a [Decorator],
    is_first: bool,
) -> Result<(), AllocError>
    ensures { OnOk result
        (Writes w.old w.new
        (jsons w.old.source plain is_first (trees (map view_decorator parts.now)))) }
{
    match parts.split_first() {
        Some((x, rest)) => {
            write_next(
                w,
                is_first,
                Work::Decorator(x),
                Work::Decorators(rest, false),
            )
        }
        None => Ok(()),
    }
}

/// Writes statements.
pub(crate) fn write_statements<'a>(
    w: &mut Writer<'a>,
    parts: &'a [Stmt],
    is_first: bool,
) -> Result<(), AllocError>
    ensures { OnOk result
        (Writes w.old w.new (jsons w.old.source plain is_first (trees (map view_stmt parts.now)))) }
{
    match parts.split_first() {
        Some((x, rest)) => {
            write_next(
                w,
                is_first,
                Work::Statement(x),
                Work::Statements(rest, false),
            )
        }
        None => Ok(()),
    }
}

/// Writes cases.
pub(crate) fn write_cases<'a>(
    w: &mut Writer<'a>,
    parts: &'a [SwitchCase],
    is_first: bool,
) -> Result<(), AllocError>
    ensures { OnOk result
        (Writes w.old w.new
        (jsons w.old.source plain is_first (trees (map view_switch_case parts.now)))) }
{
    match parts.split_first() {
        Some((x, rest)) => write_next(w, is_first, Work::Case(x), Work::Cases(rest, false)),
        None => Ok(()),
    }
}

/// Writes variables.
pub(crate) fn write_declarators<'a>(
    w: &mut Writer<'a>,
    parts: &'a [VarDeclarator],
    is_first: bool,
) -> Result<(), AllocError>
    ensures { OnOk result
        (Writes w.old w.new
        (jsons w.old.source plain is_first (trees (map view_declarator parts.now)))) }
{
    match parts.split_first() {
        Some((x, rest)) => {
            write_next(
                w,
                is_first,
                Work::Declarator(x),
                Work::Declarators(rest, false),
            )
        }
        None => Ok(()),
    }
}

/// Writes items.
pub(crate) fn write_items<'a>(
    w: &mut Writer<'a>,
    parts: &'a [ModuleItem],
    is_first: bool,
) -> Result<(), AllocError>
    ensures { OnOk result
        (Writes w.old w.new
        (jsons w.old.source plain is_first (trees (map view_module_item parts.now)))) }
{
    match parts.split_first() {
        Some((x, rest)) => write_next(w, is_first, Work::Item(x), Work::Items(rest, false)),
        None => Ok(()),
    }
}

/// Writes elements, a hole as `null`.
pub(crate) fn write_elements<'a>(
    w: &mut Writer<'a>,
    parts: &'a [Option<ExprOrSpread>],
    is_first: bool,
) -> Result<(), AllocError>
    ensures { OnOk result
        (Writes w.old w.new
        (jsons w.old.source plain is_first
        (trees (map (view_option view_expr_or_spread) parts.now)))) }
{
    let Some((x, rest)) = parts.split_first() else {
        return Ok(());
    };
    let part = match x {
        Some(x) => Work::Argument(x),
        None => Work::Nothing,
    };
    write_next(w, is_first, part, Work::Elements(rest, false))
}

/// Writes elements of a pattern, a hole as `null`.
pub(crate) fn write_pat_elements<'a>(
    w: &mut Writer<'a>,
    parts: &'a [Option<PatBox>],
    is_first: bool,
) -> Result<(), AllocError>
    ensures { OnOk result
        (Writes w.old w.new
        (jsons w.old.source plain is_first
        (trees (map (view_option (λ b. b.node.tree)) parts.now)))) }
{
    let Some((x, rest)) = parts.split_first() else {
        return Ok(());
    };
    let part = match x {
        Some(x) => Work::Pat(x),
        None => Work::Nothing,
    };
    write_next(w, is_first, part, Work::PatElements(rest, false))
}

/// Writes the parameters of a constructor.
pub(crate) fn write_constructor_params<'a>(
    w: &mut Writer<'a>,
    parts: &'a [ParamOrTsParamProp],
    is_first: bool,
) -> Result<(), AllocError>
    ensures { OnOk result
        (Writes w.old w.new
        (jsons w.old.source plain is_first (trees (map view_param_or_ts_param_prop parts.now)))) }
{
    let Some((x, rest)) = parts.split_first() else {
        return Ok(());
    };
    let ParamOrTsParamProp::Param(x) = x;
    write_next(
        w,
        is_first,
        Work::Pattern(&x.pat),
        Work::ConstructorParams(rest, false),
    )
}

/// Whether a member of a class is a `;` alone.
fn is_empty_member(member: &ClassMember) -> bool
    ensures { result ≡ parts.is_empty_member (view_class_member member.now) }
{
    match member {
        ClassMember::Empty(_) => true,
        _ => false,
    }
}

/// Writes the members of a class, but for those that are a `;` alone.
#[tactic(auto, using(crate::proofs::Listed::member_left_out, crate::proofs::Listed::member_listed))]
pub(crate) fn write_members<'a>(
    w: &mut Writer<'a>,
    parts: &'a [ClassMember],
    is_first: bool,
) -> Result<(), AllocError>
    ensures { OnOk result
        (Writes w.old w.new
        (jsons w.old.source members is_first (trees (map view_class_member parts.now)))) }
{
    let Some((x, rest)) = parts.split_first() else {
        return Ok(());
    };
    if is_empty_member(x) {
        return w.push(Work::Members(rest, is_first));
    }
    write_next(w, is_first, Work::Member(x), Work::Members(rest, false))
}

/// Writes statements, the first ones as directives as long as they are strings.
#[tactic(auto, using(crate::proofs::Listed::directive_listed, crate::proofs::Listed::statement_listed))]
pub(crate) fn write_directives<'a>(
    w: &mut Writer<'a>,
    parts: &'a [Stmt],
    is_first: bool,
) -> Result<(), AllocError>
    ensures { OnOk result
        (Writes w.old w.new
        (jsons w.old.source directives is_first (trees (map view_stmt parts.now)))) }
{
    let Some((x, rest)) = parts.split_first() else {
        return Ok(());
    };
    if x.can_precede_directive() {
        w.comma(is_first)?;
        w.push(Work::Directives(rest, false))?;
        write_directive(w, x)
    } else {
        write_next(
            w,
            is_first,
            Work::Statement(x),
            Work::Statements(rest, false),
        )
    }
}

/// Writes items, the first ones as directives as long as they are strings.
#[tactic(auto, using(crate::proofs::Listed::directive_listed, crate::proofs::Listed::statement_listed))]
pub(crate) fn write_directive_items<'a>(
    w: &mut Writer<'a>,
    parts: &'a [ModuleItem],
    is_first: bool,
) -> Result<(), AllocError>
    ensures { OnOk result
        (Writes w.old w.new
        (jsons w.old.source directives is_first (trees (map view_module_item parts.now)))) }
{
    let Some((x, rest)) = parts.split_first() else {
        return Ok(());
    };
    if can_precede_directive(x) {
        w.comma(is_first)?;
        w.push(Work::DirectiveItems(rest, false))?;
        write_directive_item(w, x)
    } else {
        write_next(w, is_first, Work::Item(x), Work::Items(rest, false))
    }
}

/// Whether an item may stand before a directive.
#[tactic(auto, using(crate::proofs::Directives::no_string))]
fn can_precede_directive(item: &ModuleItem) -> bool
    ensures { result ≡ is_string_statement (view_module_item item.now) }
{
    match item {
        ModuleItem::Stmt(x) => x.can_precede_directive(),
        ModuleItem::ModuleDecl(_) => false,
    }
}

/// Writes names that are imported.
pub(crate) fn write_imports<'a>(
    w: &mut Writer<'a>,
    parts: &'a [ImportSpecifier],
    is_first: bool,
) -> Result<(), AllocError>
    ensures { OnOk result
        (Writes w.old w.new
        (jsons w.old.source plain is_first (trees (map view_import_specifier parts.now)))) }
{
    let Some((x, rest)) = parts.split_first() else {
        return Ok(());
    };
    w.comma(is_first)?;
    w.push(Work::Imports(rest, false))?;
    write_import_specifier(w, x)
}

/// Writes names that are exported.
pub(crate) fn write_exports<'a>(
    w: &mut Writer<'a>,
    parts: &'a [ExportSpecifier],
    is_first: bool,
) -> Result<(), AllocError>
    ensures { OnOk result
        (Writes w.old w.new
        (jsons w.old.source plain is_first (trees (map view_export_specifier parts.now)))) }
{
    let Some((x, rest)) = parts.split_first() else {
        return Ok(());
    };
    w.comma(is_first)?;
    w.push(Work::Exports(rest, false))?;
    write_export_specifier(w, x)
}
