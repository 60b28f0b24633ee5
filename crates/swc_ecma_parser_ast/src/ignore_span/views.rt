//! What contracts see of the types that hold nodes.

ghost use Rattle.std.specs.Prelude.{◌≡◌, refl};
ghost use Rattle.swc_ecma_parser_model.specs.Same.{same};
ghost use Rattle.swc_ecma_parser_model.specs.Tree.{Tree};
ghost use Rattle.swc_ecma_parser_ast.specs.Unspanned.{no_span, unspanned};
ghost use Rattle.swc_ecma_parser_ast.specs.View.{view_class, view_class_member, view_decl, view_expr, view_function, view_module, view_module_decl, view_module_item, view_pat, view_program, view_prop, view_script, view_stmt};
ghost use Rattle.swc_ecma_parser_ast.specs.Respanned.{alike_class, alike_class_member, alike_decl, alike_expr, alike_function, alike_pat, alike_prop, alike_stmt};
ghost use Rattle.swc_ecma_parser_ast.specs.RespannedItem.{alike_module, alike_module_decl, alike_module_item, alike_program, alike_script};

use crate::class::{Class, ClassMember};
use crate::decl::Decl;
use crate::expr::Expr;
use crate::function::Function;
use crate::ignore_span::Viewed;
use crate::node::{ExprBox, PatBox, StmtBox, StmtList};
use crate::object::Prop;
use crate::pat::Pat;
use crate::program::{Module, ModuleDecl, ModuleItem, Program};
use crate::script::Script;
use crate::stmt::Stmt;

impl Viewed for ExprBox {
    ghost view = { λ b. b.node.tree };

    ghost likes = { λ x y. refl };
}

impl Viewed for PatBox {
    ghost view = { λ b. b.node.tree };

    ghost likes = { λ x y. refl };
}

impl Viewed for StmtBox {
    ghost view = { λ b. b.node.tree };

    ghost likes = { λ x y. refl };
}

impl Viewed for StmtList {
    ghost view = { λ b. b.node.tree };

    ghost likes = { λ x y. refl };
}

impl Viewed for Class {
    ghost view = { view_class };

    ghost likes = { alike_class (λ _. no_span) };
}

impl Viewed for ClassMember {
    ghost view = { view_class_member };

    ghost likes = { alike_class_member (λ _. no_span) };
}

impl Viewed for Decl {
    ghost view = { view_decl };

    ghost likes = { alike_decl (λ _. no_span) };
}

impl Viewed for Expr {
    ghost view = { view_expr };

    ghost likes = { alike_expr (λ _. no_span) };
}

impl Viewed for Function {
    ghost view = { view_function };

    ghost likes = { alike_function (λ _. no_span) };
}

impl Viewed for Module {
    ghost view = { view_module };

    ghost likes = { alike_module (λ _. no_span) };
}

impl Viewed for ModuleDecl {
    ghost view = { view_module_decl };

    ghost likes = { alike_module_decl (λ _. no_span) };
}

impl Viewed for ModuleItem {
    ghost view = { view_module_item };

    ghost likes = { alike_module_item (λ _. no_span) };
}

impl Viewed for Pat {
    ghost view = { view_pat };

    ghost likes = { alike_pat (λ _. no_span) };
}

impl Viewed for Program {
    ghost view = { view_program };

    ghost likes = { alike_program (λ _. no_span) };
}

impl Viewed for Prop {
    ghost view = { view_prop };

    ghost likes = { alike_prop (λ _. no_span) };
}

impl Viewed for Script {
    ghost view = { view_script };

    ghost likes = { alike_script (λ _. no_span) };
}

impl Viewed for Stmt {
    ghost view = { view_stmt };

    ghost likes = { alike_stmt (λ _. no_span) };
}
