//! Loops and declarations compared but for their spans.

ghost use Rattle.std.specs.Prelude.{◌≡◌, Bool};
ghost use Rattle.swc_ecma_parser_ast.specs.Like.{any_span, like_decl, like_declarator, like_do_while_stmt, like_for_head, like_for_in_stmt, like_for_of_stmt, like_for_stmt, like_using_decl, like_var_decl, like_var_decl_or_expr, like_while_stmt};

use crate::decl::{Decl, UsingDecl, VarDecl, VarDeclarator};
use crate::ignore_span::EqIgnoreSpan;
use crate::loops::{DoWhileStmt, ForHead, ForInStmt, ForOfStmt, ForStmt, VarDeclOrExpr, WhileStmt};

impl<N: EqIgnoreSpan> EqIgnoreSpan for Decl<N> {
    ghost like = { like_decl any_span N.like };

    fn eq_ignore_span(&self, other: &Decl<N>) -> bool {
        are_like_forms!(self, other, Decl: Class Fn Var Using)
    }
}

impl<N: EqIgnoreSpan> EqIgnoreSpan for VarDecl<N> {
    ghost like = { like_var_decl any_span N.like };

    fn eq_ignore_span(&self, other: &VarDecl<N>) -> bool {
        self.kind.eq_ignore_span(&other.kind) && self.decls.eq_ignore_span(&other.decls)
    }
}

impl<N: EqIgnoreSpan> EqIgnoreSpan for VarDeclarator<N> {
    ghost like = { like_declarator any_span N.like };

    fn eq_ignore_span(&self, other: &VarDeclarator<N>) -> bool {
        self.name.eq_ignore_span(&other.name) && self.init.eq_ignore_span(&other.init)
    }
}

impl<N: EqIgnoreSpan> EqIgnoreSpan for UsingDecl<N> {
    ghost like = { like_using_decl any_span N.like };

    fn eq_ignore_span(&self, other: &UsingDecl<N>) -> bool {
        self.is_await.eq_ignore_span(&other.is_await) && self.decls.eq_ignore_span(&other.decls)
    }
}

impl<N: EqIgnoreSpan> EqIgnoreSpan for WhileStmt<N> {
    ghost like = { like_while_stmt any_span N.like };

    fn eq_ignore_span(&self, other: &WhileStmt<N>) -> bool {
        self.test.eq_ignore_span(&other.test) && self.body.eq_ignore_span(&other.body)
    }
}

impl<N: EqIgnoreSpan> EqIgnoreSpan for DoWhileStmt<N> {
    ghost like = { like_do_while_stmt any_span N.like };

    fn eq_ignore_span(&self, other: &DoWhileStmt<N>) -> bool {
        self.test.eq_ignore_span(&other.test) && self.body.eq_ignore_span(&other.body)
    }
}

impl<N: EqIgnoreSpan> EqIgnoreSpan for ForStmt<N> {
    ghost like = { like_for_stmt any_span N.like };

    fn eq_ignore_span(&self, other: &ForStmt<N>) -> bool {
        self.init.eq_ignore_span(&other.init)
            && self.test.eq_ignore_span(&other.test)
            && self.update.eq_ignore_span(&other.update)
            && self.body.eq_ignore_span(&other.body)
    }
}

impl<N: EqIgnoreSpan> EqIgnoreSpan for VarDeclOrExpr<N> {
    ghost like = { like_var_decl_or_expr any_span N.like };

    fn eq_ignore_span(&self, other: &VarDeclOrExpr<N>) -> bool {
        are_like_forms!(self, other, VarDeclOrExpr: VarDecl Expr)
    }
}

impl<N: EqIgnoreSpan> EqIgnoreSpan for ForInStmt<N> {
    ghost like = { like_for_in_stmt any_span N.like };

    fn eq_ignore_span(&self, other: &ForInStmt<N>) -> bool {
        self.left.eq_ignore_span(&other.left)
            && self.right.eq_ignore_span(&other.right)
            && self.body.eq_ignore_span(&other.body)
    }
}

impl<N: EqIgnoreSpan> EqIgnoreSpan for ForOfStmt<N> {
    ghost like = { like_for_of_stmt any_span N.like };

    fn eq_ignore_span(&self, other: &ForOfStmt<N>) -> bool {
        self.is_await.eq_ignore_span(&other.is_await)
            && self.left.eq_ignore_span(&other.left)
            && self.right.eq_ignore_span(&other.right)
            && self.body.eq_ignore_span(&other.body)
    }
}

impl<N: EqIgnoreSpan> EqIgnoreSpan for ForHead<N> {
    ghost like = { like_for_head any_span N.like };

    fn eq_ignore_span(&self, other: &ForHead<N>) -> bool {
        are_like_forms!(self, other, ForHead: VarDecl UsingDecl Pat)
    }
}
