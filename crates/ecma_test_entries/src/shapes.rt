//! What an expression is: its kind and place, and those of what it begins with, down to what begins with no further one.

use std::alloc::AllocError;
use swc_ecma_parser::ast::{
    Callee, Expr, ExprBox, Lit, MetaPropKind, OptChainBase, OptChainExpr, Span, Tpl, TplElement,
};
use swc_ecma_parser::common::Spanned;

/// Writes a place.
pub(crate) fn write_place(out: &mut String, span: Span) -> Result<(), AllocError> {
    let low = span.lo.0;
    let high = span.hi.0;
    write!(out, " {low}..{high}")
}

/// Writes a text of a template: `|` behind the last, `!` behind one that has an escape that is none.
fn write_quasi(out: &mut String, text: &TplElement) -> Result<(), AllocError> {
    out.push_str(" '")?;
    out.push_str(text.raw.as_str())?;
    out.push_str("'")?;
    if text.cooked.is_none() {
        out.push_str("!")?;
    }
    if text.tail {
        out.push_str("|")?;
    }
    write_place(out, text.span)
}

/// Writes the texts of a template, and where its expressions stand.
fn write_template(out: &mut String, tpl: &Tpl) -> Result<(), AllocError> {
    out.push_str("template")?;
    write_place(out, tpl.span)?;
    for text in tpl.quasis.as_slice() {
        write_quasi(out, text)?;
    }
    for expr in tpl.exprs.as_slice() {
        write_place(out, expr.span())?;
    }
    Ok(())
}

/// What a link of an optional chain is called.
fn link_name(link: &OptChainExpr) -> &'static str {
    match (&*link.base, link.optional) {
        (OptChainBase::Member(_), true) => "?.member",
        (OptChainBase::Member(_), false) => ".member",
        (OptChainBase::Call(_), true) => "?.call",
        (OptChainBase::Call(_), false) => ".call",
    }
}

/// What an expression is called.
fn name(expr: &Expr) -> &'static str {
    match expr {
        Expr::Ident(_) => "name",
        Expr::PrivateName(_) => "private",
        Expr::Lit(Lit::Regex(_)) => "regex",
        Expr::Bin(_) => "bin",
        Expr::Member(_) => "member",
        Expr::Call(_) => "call",
        Expr::New(_) => "new",
        Expr::Paren(_) => "paren",
        Expr::OptChain(link) => link_name(link),
        Expr::TaggedTpl(_) => "tagged",
        Expr::MetaProp(x) => match x.kind {
            MetaPropKind::NewTarget => "new.target",
            MetaPropKind::ImportMeta => "import.meta",
        },
        _ => "other",
    }
}

/// Writes an expression alone.
fn write_one(out: &mut String, expr: &Expr) -> Result<(), AllocError> {
    match expr {
        Expr::Tpl(tpl) => write_template(out, tpl),
        Expr::TaggedTpl(x) => {
            out.push_str("tagged")?;
            write_place(out, x.span)?;
            out.push_str(" ")?;
            write_template(out, &x.tpl)
        }
        Expr::Lit(Lit::Regex(x)) => {
            out.push_str("regex ")?;
            out.push_str(x.exp.as_str())?;
            out.push_str(" ")?;
            out.push_str(x.flags.as_str())?;
            write_place(out, x.span)
        }
        Expr::Ident(x) => {
            out.push_str("name ")?;
            out.push_str(x.sym.as_str())?;
            write_place(out, x.span)
        }
        _ => {
            out.push_str(name(expr))?;
            write_place(out, expr.span())
        }
    }
}

/// What an expression begins with.
fn first(expr: &Expr) -> Option<&ExprBox> {
    match expr {
        Expr::Bin(x) => Some(&x.left),
        Expr::Member(x) => Some(&x.obj),
        Expr::Call(x) => match &x.callee {
            Callee::Expr(callee) => Some(callee),
            _ => None,
        },
        Expr::New(x) => Some(&x.callee),
        Expr::Paren(x) => Some(&x.expr),
        Expr::TaggedTpl(x) => Some(&x.tag),
        Expr::OptChain(x) => match &*x.base {
            OptChainBase::Member(y) => Some(&y.obj),
            OptChainBase::Call(y) => Some(&y.callee),
        },
        _ => None,
    }
}

/// Writes an expression, and what it begins with, eight levels deep at most.
pub(crate) fn write_shape(out: &mut String, expr: &ExprBox) -> Result<(), AllocError> {
    let mut next = Some(expr);
    for _ in 0..8 {
        let Some(boxed) = next else {
            return Ok(());
        };
        let Some(expr) = boxed.get() else {
            return Ok(());
        };
        out.push_str("; ")?;
        write_one(out, expr)?;
        next = first(expr);
    }
    Ok(())
}
