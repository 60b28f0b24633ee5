//! Whether code has the directive that turns it strict.

ghost use Rattle.std.specs.Prelude.{◌≡◌, map};
ghost use Rattle.ecma_event_exprs.specs.Events.{directed, is_directed};
ghost use Rattle.swc_ecma_parser_ast.specs.Parts.{view_option};
ghost use Rattle.swc_ecma_parser_ast.specs.View.{view_block_stmt, view_param, view_stmt};
ghost use Rattle.swc_ecma_parser_model.specs.Forms.{are_plain_params, is_plain_param};
ghost use Rattle.swc_ecma_parser_model.specs.Tree.{trees};

use swc_ecma_parser_ast::{BlockStmt, Param, Pat, Stmt};

/// Whether statements begin with strings among which is a `'use strict'`.
pub fn are_directed(stmts: &[Stmt]) -> bool
    ensures { result ≡ directed (trees (map view_stmt stmts.now)) }
{
    for stmt in stmts {
        if stmt.is_use_strict() {
            return true;
        }
        if !stmt.can_precede_directive() {
            return false;
        }
    }
    false
}

/// The same of a block.
pub(crate) fn is_block_directed(x: &BlockStmt) -> bool
    ensures { result ≡ is_directed (view_block_stmt x.now) }
{
    match x.stmts.get() {
        Some(stmts) => are_directed(stmts.as_slice()),
        None => false,
    }
}

/// The same of a body that may be left out.
pub(crate) fn is_body_directed(body: &Option<BlockStmt>) -> bool
    ensures { result ≡ is_directed (view_option view_block_stmt body.now) }
{
    match body {
        Some(x) => is_block_directed(x),
        None => false,
    }
}

/// Whether a parameter is a plain name.
fn is_plain(x: &Param) -> bool
    ensures { result ≡ is_plain_param (view_param x.now) }
{
    match x.pat {
        Pat::Ident(_) => true,
        Pat::Array(_)
        | Pat::Rest(_)
        | Pat::Object(_)
        | Pat::Assign(_)
        | Pat::Invalid(_)
        | Pat::Expr(_) => false,
    }
}

/// Whether each parameter is a plain name.
pub(crate) fn are_plain(params: &[Param]) -> bool
    ensures { result ≡ are_plain_params (trees (map view_param params.now)) }
{
    for param in params {
        if !is_plain(param) {
            return false;
        }
    }
    true
}
