ghost use Rattle.std.specs.Prelude.{◌≡◌, IfOk, map};
ghost use Rattle.swc_ecma_parser_ast.specs.View.{view_decl, view_declarator};

use crate::Ast;
use std::alloc::{AllocError, Global};
use swc_ecma_parser_ast::{
    Class, ClassDecl, Decl, FnDecl, Function, Ident, Span, Spanned, Stmt, UsingDecl, VarDecl,
    VarDeclKind, VarDeclarator,
};
use swc_ecma_parser_trees::{BuildsClassDecl, BuildsDecl, BuildsVarDecl};

impl BuildsDecl for Ast {
    type Decl = Decl;

    ghost decl_of = { view_decl };

    fn fn_decl(alloc: Global, name: Ident, function: Box<Function>) -> Result<Decl, AllocError> {
        Ok(Decl::Fn(FnDecl {
            ident: name,
            function,
        }))
    }

    fn decl_stmt(alloc: Global, decl: Decl) -> Result<Stmt, AllocError> {
        Ok(Stmt::Decl(decl))
    }

    fn decl_span(decl: &Decl) -> Span {
        decl.span()
    }
}

impl BuildsClassDecl for Ast {
    fn class_decl(alloc: Global, name: Ident, class: Box<Class>) -> Result<Decl, AllocError> {
        Ok(Decl::Class(ClassDecl { ident: name, class }))
    }
}

impl BuildsVarDecl for Ast {
    ghost use Rattle.swc_ecma_parser_model.specs.Tree as tree;

    fn var_decl(
        alloc: Global,
        span: Span,
        kind: VarDeclKind,
        decls: Vec<VarDeclarator>,
    ) -> Result<Decl, AllocError>
        ensures { IfOk result
            (λ x. view_decl x
            ≡ tree.var span kind (tree.listed (map view_declarator decls.items))) }
    {
        Ok(Decl::Var(VarDecl { span, kind, decls }))
    }

    fn using_decl(
        alloc: Global,
        span: Span,
        is_await: bool,
        decls: Vec<VarDeclarator>,
    ) -> Result<Decl, AllocError>
        ensures { IfOk result
            (λ x. view_decl x
            ≡ tree.using span is_await (tree.listed (map view_declarator decls.items))) }
    {
        Ok(Decl::Using(UsingDecl {
            span,
            is_await,
            decls,
        }))
    }
}
