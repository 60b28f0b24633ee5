ghost use Rattle.std.specs.Prelude.{◌≡◌, IfOk, map};
ghost use Rattle.swc_ecma_parser_ast.specs.View.{view_declarator, view_pat, view_stmt};
ghost use Rattle.swc_ecma_parser_ast_parts.specs.View.{view_made};

use crate::Ast;
use std::alloc::{AllocError, Global};
use swc_ecma_parser_ast::{
    Decl, Expr, Pat, Span, Spanned, Stmt, VarDecl, VarDeclKind, VarDeclarator,
};
use swc_ecma_parser_ast_parts::made::Made;
use swc_ecma_parser_trees::BuildsVariables;

impl BuildsVariables for Ast {
    ghost use Rattle.swc_ecma_parser_model.specs.Tree as tree;
    ghost use Rattle.swc_ecma_parser_trees.specs.Parts as parts;

    type Declarator = VarDeclarator;

    ghost declarator_of = { view_declarator };

    fn declarator(
        alloc: Global,
        span: Span,
        name: Pat,
        init: Option<Made>,
    ) -> Result<VarDeclarator, AllocError>
        ensures { IfOk result
            (λ x. view_declarator x
            ≡ tree.declarator span (view_pat name) (parts.part_of view_made init)) }
    {
        let init = Made::optional(init);
        Ok(VarDeclarator { span, name, init })
    }

    fn var(
        alloc: Global,
        span: Span,
        kind: VarDeclKind,
        decls: Vec<VarDeclarator>,
    ) -> Result<Stmt, AllocError>
        ensures { IfOk result
            (λ x. view_stmt x
            ≡ tree.var span kind (tree.listed (map view_declarator decls.items))) }
    {
        Ok(Stmt::Decl(Decl::Var(VarDecl { span, kind, decls })))
    }

    fn declarator_span(declarator: &VarDeclarator) -> Span {
        declarator.span
    }

    fn declared_span(declarator: &VarDeclarator) -> Span {
        declarator.name.span()
    }

    fn declares_name(declarator: &VarDeclarator) -> bool {
        match &declarator.name {
            Pat::Ident(_) => true,
            _ => false,
        }
    }

    fn is_initialized(declarator: &VarDeclarator) -> bool {
        declarator.init.is_some()
    }

    #[tactic(auto, using(swc_ecma_parser_ast_parts::proofs::Kind::as_expr_view, crate::proofs::Kind::as_expr_not_name))]
    fn awaits_name(expr: &Made, name: &str) -> bool {
        match expr.get() {
            Expr::Await(x) => match x.arg.get() {
                Some(Expr::Ident(ident)) => ident.sym.as_str() == name,
                _ => false,
            },
            _ => false,
        }
    }
}
