//! Statements compared but for their spans.

ghost use Rattle.std.specs.Prelude.{◌≡◌, Bool};
ghost use Rattle.swc_ecma_parser_ast.specs.Like.{any_span, like_block_stmt, like_break_stmt, like_catch_clause, like_continue_stmt, like_debugger_stmt, like_empty_stmt, like_expr_stmt, like_if_stmt, like_labeled_stmt, like_return_stmt, like_stmt, like_switch_case, like_switch_stmt, like_throw_stmt, like_try_stmt, like_with_stmt};

use crate::branch::{CatchClause, IfStmt, SwitchCase, SwitchStmt, ThrowStmt, TryStmt};
use crate::ignore_span::EqIgnoreSpan;
use crate::stmt::{
    BlockStmt, BreakStmt, ContinueStmt, DebuggerStmt, EmptyStmt, ExprStmt, LabeledStmt, ReturnStmt,
    Stmt, WithStmt,
};

impl<N: EqIgnoreSpan> EqIgnoreSpan for IfStmt<N> {
    ghost like = { like_if_stmt any_span N.like };

    fn eq_ignore_span(&self, other: &IfStmt<N>) -> bool {
        self.test.eq_ignore_span(&other.test)
            && self.cons.eq_ignore_span(&other.cons)
            && self.alt.eq_ignore_span(&other.alt)
    }
}

impl<N: EqIgnoreSpan> EqIgnoreSpan for SwitchStmt<N> {
    ghost like = { like_switch_stmt any_span N.like };

    fn eq_ignore_span(&self, other: &SwitchStmt<N>) -> bool {
        self.discriminant.eq_ignore_span(&other.discriminant)
            && self.cases.eq_ignore_span(&other.cases)
    }
}

impl<N: EqIgnoreSpan> EqIgnoreSpan for SwitchCase<N> {
    ghost like = { like_switch_case any_span N.like };

    fn eq_ignore_span(&self, other: &SwitchCase<N>) -> bool {
        self.test.eq_ignore_span(&other.test) && self.cons.eq_ignore_span(&other.cons)
    }
}

impl<N: EqIgnoreSpan> EqIgnoreSpan for ThrowStmt<N> {
    ghost like = { like_throw_stmt any_span N.like };

    fn eq_ignore_span(&self, other: &ThrowStmt<N>) -> bool {
        self.arg.eq_ignore_span(&other.arg)
    }
}

impl<N: EqIgnoreSpan> EqIgnoreSpan for TryStmt<N> {
    ghost like = { like_try_stmt any_span N.like };

    fn eq_ignore_span(&self, other: &TryStmt<N>) -> bool {
        self.block.eq_ignore_span(&other.block)
            && self.handler.eq_ignore_span(&other.handler)
            && self.finalizer.eq_ignore_span(&other.finalizer)
    }
}

impl<N: EqIgnoreSpan> EqIgnoreSpan for CatchClause<N> {
    ghost like = { like_catch_clause any_span N.like };

    fn eq_ignore_span(&self, other: &CatchClause<N>) -> bool {
        self.param.eq_ignore_span(&other.param) && self.body.eq_ignore_span(&other.body)
    }
}

impl<N: EqIgnoreSpan> EqIgnoreSpan for Stmt<N> {
    ghost like = { like_stmt any_span N.like };

    fn eq_ignore_span(&self, other: &Stmt<N>) -> bool {
        are_like_forms!(self, other, Stmt: Block Empty Debugger With Return Labeled Break Continue
            If Switch Throw Try While DoWhile For ForIn ForOf Decl Expr)
    }
}

impl<N: EqIgnoreSpan> EqIgnoreSpan for BlockStmt<N> {
    ghost like = { like_block_stmt any_span N.like };

    fn eq_ignore_span(&self, other: &BlockStmt<N>) -> bool {
        self.stmts.eq_ignore_span(&other.stmts)
    }
}

impl EqIgnoreSpan for EmptyStmt {
    ghost like = { like_empty_stmt any_span };

    fn eq_ignore_span(&self, _other: &EmptyStmt) -> bool {
        true
    }
}

impl EqIgnoreSpan for DebuggerStmt {
    ghost like = { like_debugger_stmt any_span };

    fn eq_ignore_span(&self, _other: &DebuggerStmt) -> bool {
        true
    }
}

impl<N: EqIgnoreSpan> EqIgnoreSpan for ExprStmt<N> {
    ghost like = { like_expr_stmt any_span N.like };

    fn eq_ignore_span(&self, other: &ExprStmt<N>) -> bool {
        self.expr.eq_ignore_span(&other.expr)
    }
}

impl<N: EqIgnoreSpan> EqIgnoreSpan for WithStmt<N> {
    ghost like = { like_with_stmt any_span N.like };

    fn eq_ignore_span(&self, other: &WithStmt<N>) -> bool {
        self.obj.eq_ignore_span(&other.obj) && self.body.eq_ignore_span(&other.body)
    }
}

impl<N: EqIgnoreSpan> EqIgnoreSpan for ReturnStmt<N> {
    ghost like = { like_return_stmt any_span N.like };

    fn eq_ignore_span(&self, other: &ReturnStmt<N>) -> bool {
        self.arg.eq_ignore_span(&other.arg)
    }
}

impl<N: EqIgnoreSpan> EqIgnoreSpan for LabeledStmt<N> {
    ghost like = { like_labeled_stmt any_span N.like };

    fn eq_ignore_span(&self, other: &LabeledStmt<N>) -> bool {
        self.label.eq_ignore_span(&other.label) && self.body.eq_ignore_span(&other.body)
    }
}

impl EqIgnoreSpan for BreakStmt {
    ghost like = { like_break_stmt any_span };

    fn eq_ignore_span(&self, other: &BreakStmt) -> bool {
        self.label.eq_ignore_span(&other.label)
    }
}

impl EqIgnoreSpan for ContinueStmt {
    ghost like = { like_continue_stmt any_span };

    fn eq_ignore_span(&self, other: &ContinueStmt) -> bool {
        self.label.eq_ignore_span(&other.label)
    }
}
