//! Members and calls.

ghost use Rattle.std.specs.Prelude.{◌≡◌, ◌++◌, codes, false, map, OnOk};
ghost use Rattle.ecma_estree_writer.specs.Parts.{key, bool_field, end, open_list, end_list};
ghost use Rattle.ecma_estree_writer.specs.Estree.{json, plain, argument, arguments_text};
ghost use Rattle.ecma_estree_writer.specs.Writing.{Pushes, Writes};
ghost use Rattle.swc_ecma_parser_ast.specs.Parts.{view_option};
ghost use Rattle.swc_ecma_parser_ast.specs.View.{view_call_expr, view_expr_or_spread, view_member_expr, view_member_prop, view_new_expr, view_super_prop_expr};
ghost use Rattle.swc_ecma_parser_model.specs.Tree.{listed, call, import_callee};
ghost use Rattle.swc_ecma_parser_model.specs.Kinds as kinds;

use ecma_estree_writer::{Work, Writer, write_name, write_private_name};
use std::alloc::AllocError;
use swc_ecma_parser_ast::{
    CallExpr, Callee, ExprOrSpread, MemberExpr, MemberProp, NewExpr, Spanned, SuperProp,
    SuperPropExpr,
};

/// Has the name of a member written.
pub(crate) fn push_member_prop<'a>(
    w: &mut Writer<'a>,
    prop: &'a MemberProp,
) -> Result<(), AllocError>
    ensures { OnOk result
        (Pushes w.old w.new (json w.old.source plain (view_member_prop prop.now))) }
{
    match prop {
        MemberProp::Ident(x) => w.push(Work::Name(x)),
        MemberProp::PrivateName(x) => w.push(Work::PrivateName(x)),
        MemberProp::Computed(x) => w.push(Work::Expr(&x.expr)),
    }
}

/// Whether a member is named in brackets.
pub(crate) fn is_computed(prop: &MemberProp) -> bool
    ensures { result ≡ kinds.is_computed (view_member_prop prop.now) }
{
    match prop {
        MemberProp::Computed(_) => true,
        _ => false,
    }
}

/// Writes a member of an object.
pub fn write_member<'a>(w: &mut Writer<'a>, x: &'a MemberExpr) -> Result<(), AllocError>
    ensures { OnOk result (Writes w.old w.new (json w.old.source plain (view_member_expr x.now))) }
{
    w.open("MemberExpression", x.span)?;
    w.key("object")?;
    w.push(Work::End)?;
    w.push(Work::Bool("optional", false))?;
    w.push(Work::Bool("computed", is_computed(&x.prop)))?;
    push_member_prop(w, &x.prop)?;
    w.push(Work::Key("property"))?;
    w.push(Work::Expr(&x.obj))
}

/// Writes a member of `super`.
pub fn write_super_member<'a>(w: &mut Writer<'a>, x: &'a SuperPropExpr) -> Result<(), AllocError>
    ensures { OnOk result
        (Writes w.old w.new (json w.old.source plain (view_super_prop_expr x.now))) }
{
    w.open("MemberExpression", x.span)?;
    w.key("object")?;
    w.leaf("Super", x.obj.span)?;
    w.key("property")?;
    w.push(Work::End)?;
    w.push(Work::Bool("optional", false))?;
    match &x.prop {
        SuperProp::Ident(name) => {
            w.push(Work::Bool("computed", false))?;
            w.push(Work::Name(name))
        }
        SuperProp::Computed(name) => {
            w.push(Work::Bool("computed", true))?;
            w.push(Work::Expr(&name.expr))
        }
    }
}

/// Has the arguments of a call written, with what stands around them behind what is called.
fn push_arguments<'a>(w: &mut Writer<'a>, args: &'a [ExprOrSpread]) -> Result<(), AllocError>
    ensures { OnOk result
        (Pushes w.old w.new
        (key (codes "arguments")
        ++ (open_list
        ++ (json w.old.source plain (listed (map view_expr_or_spread args.now))
        ++ (end_list ++ (bool_field (codes "optional") false ++ end)))))) }
{
    w.push(Work::End)?;
    w.push(Work::Bool("optional", false))?;
    w.push(Work::EndList)?;
    w.push(Work::Arguments(args, true))?;
    w.push(Work::OpenList)?;
    w.push(Work::Key("arguments"))
}

/// Writes a call.
#[tactic(auto, using(crate::proofs::AsExpr::call_of_expr, ecma_estree_writer::proofs::Written::appended_on_ok))]
pub fn write_call<'a>(w: &mut Writer<'a>, x: &'a CallExpr) -> Result<(), AllocError>
    ensures { OnOk result (Writes w.old w.new (json w.old.source plain (view_call_expr x.now))) }
{
    if let Callee::Import(_) = &x.callee {
        return write_import_call(w, x);
    }
    w.open("CallExpression", x.span)?;
    w.key("callee")?;
    push_arguments(w, x.args.as_slice())?;
    match &x.callee {
        Callee::Super(callee) => w.leaf("Super", callee.span),
        Callee::Import(callee) => w.leaf("Import", callee.span),
        Callee::Expr(callee) => w.push(Work::Expr(callee)),
    }
}

/// Has the first argument of `import` written, or `null`.
fn push_source<'a>(w: &mut Writer<'a>, args: &'a [ExprOrSpread]) -> Result<(), AllocError>
    ensures { OnOk result
        (Pushes w.old w.new
        (json w.old.source (argument 0) (listed (map view_expr_or_spread args.now)))) }
{
    match args {
        [source, ..] => w.push(Work::Argument(source)),
        _ => w.push(Work::Nothing),
    }
}

/// Has the second argument of `import` written, or `null`.
fn push_options<'a>(w: &mut Writer<'a>, args: &'a [ExprOrSpread]) -> Result<(), AllocError>
    ensures { OnOk result
        (Pushes w.old w.new
        (json w.old.source (argument 1) (listed (map view_expr_or_spread args.now)))) }
{
    match args {
        [_, options, ..] => w.push(Work::Argument(options)),
        _ => w.push(Work::Nothing),
    }
}

/// Writes `import` that is called.
fn write_import_call<'a>(w: &mut Writer<'a>, x: &'a CallExpr) -> Result<(), AllocError>
    ensures { OnOk result
        (Writes w.old w.new
        (json w.old.source plain
        (call x.now.span (import_callee x.now.span)
        (listed (map view_expr_or_spread x.now.args.items))))) }
{
    w.open("ImportExpression", x.span)?;
    w.key("source")?;
    w.push(Work::End)?;
    push_options(w, x.args.as_slice())?;
    w.push(Work::Key("options"))?;
    push_source(w, x.args.as_slice())
}

/// Has arguments written, or nothing.
fn push_optional_arguments<'a>(
    w: &mut Writer<'a>,
    args: &'a Option<Vec<ExprOrSpread>>,
) -> Result<(), AllocError>
    ensures { OnOk result
        (Pushes w.old w.new
        (arguments_text w.old.source
        (view_option (λ v. listed (map view_expr_or_spread v.items)) args.now))) }
{
    match args {
        Some(args) => w.push(Work::Arguments(args.as_slice(), true)),
        None => Ok(()),
    }
}

/// Writes `new`.
pub fn write_new<'a>(w: &mut Writer<'a>, x: &'a NewExpr) -> Result<(), AllocError>
    ensures { OnOk result (Writes w.old w.new (json w.old.source plain (view_new_expr x.now))) }
{
    w.open("NewExpression", x.span)?;
    w.key("callee")?;
    w.push(Work::End)?;
    w.push(Work::EndList)?;
    push_optional_arguments(w, &x.args)?;
    w.push(Work::OpenList)?;
    w.push(Work::Key("arguments"))?;
    w.push(Work::Expr(&x.callee))
}

/// Writes an element or an argument.
#[tactic(auto, using(ecma_estree_writer::proofs::Written::appended_on_ok, ecma_estree_writer::proofs::Written::pushed_on_ok))]
pub fn write_argument<'a>(w: &mut Writer<'a>, x: &'a ExprOrSpread) -> Result<(), AllocError>
    ensures { OnOk result
        (Writes w.old w.new (json w.old.source plain (view_expr_or_spread x.now))) }
{
    let Some(dots) = x.spread else {
        return w.push(Work::Expr(&x.expr));
    };
    w.open_at(
        "SpreadElement",
        dots.lo.0 as usize,
        x.expr.span().hi.0 as usize,
    )?;
    w.key("argument")?;
    w.push(Work::End)?;
    w.push(Work::Expr(&x.expr))
}
