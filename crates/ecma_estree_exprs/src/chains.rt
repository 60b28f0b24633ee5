//! Optional chains: the node of a chain stands around its outermost link, and each link is a member or a call that says whether `?.` stands
//! before it.

ghost use Rattle.std.specs.Prelude.{◌≡◌, false, MatchOption, OnOk};
ghost use Rattle.ecma_estree_writer.specs.Estree.{json, link, link_role, linked, plain};
ghost use Rattle.ecma_estree_writer.specs.Writing.{Writes};
ghost use Rattle.swc_ecma_parser_ast.specs.View.{view_expr, view_member_expr, view_opt_call, view_opt_chain_expr};
ghost use Rattle.swc_ecma_parser_model.specs.Forms.{is_chain};

use crate::calls::{is_computed, push_member_prop};
use crate::exprs::write_expr;
use ecma_estree_writer::{Work, Writer};
use std::alloc::AllocError;
use swc_ecma_parser_ast::{Expr, ExprBox, MemberExpr, OptCall, OptChainBase, OptChainExpr};

/// Writes an optional chain.
pub fn write_chain<'a>(w: &mut Writer<'a>, x: &'a OptChainExpr) -> Result<(), AllocError>
    ensures { OnOk result
        (Writes w.old w.new (json w.old.source plain (view_opt_chain_expr x.now))) }
{
    w.open("ChainExpression", x.span)?;
    w.key("expression")?;
    w.push(Work::End)?;
    write_link(w, x)
}

/// Writes a link of an optional chain.
fn write_link<'a>(w: &mut Writer<'a>, x: &'a OptChainExpr) -> Result<(), AllocError>
    ensures { OnOk result (Writes w.old w.new (json w.old.source link (view_opt_chain_expr x.now))) }
{
    match &*x.base {
        OptChainBase::Member(member) => write_linked_member(w, x.optional, member),
        OptChainBase::Call(call) => write_linked_call(w, x.optional, call),
    }
}

/// Writes a member that is a link of an optional chain.
fn write_linked_member<'a>(
    w: &mut Writer<'a>,
    optional: bool,
    x: &'a MemberExpr,
) -> Result<(), AllocError>
    ensures { OnOk result
        (Writes w.old w.new (json w.old.source (linked optional) (view_member_expr x.now))) }
{
    w.open("MemberExpression", x.span)?;
    w.key("object")?;
    w.push(Work::End)?;
    w.push(Work::Bool("optional", optional))?;
    w.push(Work::Bool("computed", is_computed(&x.prop)))?;
    push_member_prop(w, &x.prop)?;
    w.push(Work::Key("property"))?;
    w.push(Work::Link(&x.obj))
}

/// Writes a call that is a link of an optional chain.
fn write_linked_call<'a>(
    w: &mut Writer<'a>,
    optional: bool,
    x: &'a OptCall,
) -> Result<(), AllocError>
    ensures { OnOk result
        (Writes w.old w.new (json w.old.source (linked optional) (view_opt_call x.now))) }
{
    w.open("CallExpression", x.span)?;
    w.key("callee")?;
    w.push(Work::End)?;
    w.push(Work::Bool("optional", optional))?;
    w.push(Work::EndList)?;
    w.push(Work::Arguments(x.args.as_slice(), true))?;
    w.push(Work::OpenList)?;
    w.push(Work::Key("arguments"))?;
    w.push(Work::Link(&x.callee))
}

/// The link of an optional chain that an expression is, if it is one.
fn link_of(expr: &Expr) -> Option<&OptChainExpr>
    ensures { MatchOption result (is_chain (view_expr expr.now) ≡ false)
        (λ x. view_opt_chain_expr x.now ≡ view_expr expr.now) }
{
    match expr {
        Expr::OptChain(x) => Some(x),
        _ => None,
    }
}

/// Writes an expression that a link of an optional chain is a link of.
fn write_linked_expr<'a>(w: &mut Writer<'a>, expr: &'a Expr) -> Result<(), AllocError>
    ensures { OnOk result
        (Writes w.old w.new
        (json w.old.source (link_role (view_expr expr.now)) (view_expr expr.now))) }
{
    match link_of(expr) {
        Some(x) => write_link(w, x),
        None => write_expr(w, expr),
    }
}

/// Writes what a link of an optional chain is a link of.
pub fn write_linked<'a>(w: &mut Writer<'a>, x: &'a ExprBox) -> Result<(), AllocError>
    ensures { OnOk result
        (Writes w.old w.new (json w.old.source (link_role x.now.node.tree) x.now.node.tree)) }
{
    match x.get() {
        Some(expr) => write_linked_expr(w, expr),
        None => Err(AllocError),
    }
}
