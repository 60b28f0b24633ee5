//! Expressions.

ghost use Rattle.std.specs.Prelude.{OnOk};
ghost use Rattle.ecma_estree_writer.specs.Estree.{json, plain};
ghost use Rattle.ecma_estree_writer.specs.Writing.{Writes};
ghost use Rattle.swc_ecma_parser_ast.specs.View.{view_expr};

use crate::calls::{write_call, write_member, write_new, write_super_member};
use crate::chains::write_chain;
use crate::classes::write_class;
use crate::functions::{write_arrow, write_function_expr};
use crate::objects::{write_array, write_object};
use crate::operators::{
    write_assign, write_await, write_binary, write_conditional, write_sequence, write_unary,
    write_update, write_yield,
};
use crate::templates::{write_tagged_template, write_template};
use ecma_estree_writer::{Work, Writer, write_literal, write_meta, write_name, write_private_name};
use std::alloc::AllocError;
use swc_ecma_parser_ast::Expr;

/// Writes an expression.
#[tactic(auto, using(ecma_estree_writer::proofs::Written::appended_on_ok, ecma_estree_writer::proofs::Written::pushed_on_ok))]
pub fn write_expr<'a>(w: &mut Writer<'a>, expr: &'a Expr) -> Result<(), AllocError>
    ensures { OnOk result (Writes w.old w.new (json w.old.source plain (view_expr expr.now))) }
{
    match expr {
        Expr::This(x) => w.leaf("ThisExpression", x.span),
        Expr::Array(x) => write_array(w, x),
        Expr::Object(x) => write_object(w, x),
        Expr::Fn(x) => write_function_expr(w, "FunctionExpression", x),
        Expr::Unary(x) => write_unary(w, x),
        Expr::Update(x) => write_update(w, x),
        Expr::Bin(x) => write_binary(w, x),
        Expr::Assign(x) => write_assign(w, x),
        Expr::Member(x) => write_member(w, x),
        Expr::SuperProp(x) => write_super_member(w, x),
        Expr::Cond(x) => write_conditional(w, x),
        Expr::Call(x) => write_call(w, x),
        Expr::New(x) => write_new(w, x),
        Expr::Seq(x) => write_sequence(w, x),
        Expr::Ident(x) => write_name(w, x),
        Expr::Lit(x) => write_literal(w, x),
        Expr::Arrow(x) => write_arrow(w, x),
        Expr::Class(x) => write_class(w, "ClassExpression", &x.ident, &x.class),
        Expr::Yield(x) => write_yield(w, x),
        Expr::MetaProp(x) => write_meta(w, x),
        Expr::Await(x) => write_await(w, x),
        Expr::Paren(x) => w.push(Work::Expr(&x.expr)),
        Expr::Tpl(x) => write_template(w, x),
        Expr::TaggedTpl(x) => write_tagged_template(w, x),
        Expr::OptChain(x) => write_chain(w, x),
        Expr::PrivateName(x) => write_private_name(w, x),
        Expr::Invalid(x) => w.leaf("Invalid", x.span),
    }
}
