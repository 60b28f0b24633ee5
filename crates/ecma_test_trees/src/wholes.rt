//! Whole trees.

use std::alloc::{AllocError, Global};
use std::test::Fail;
use swc_ecma_parser_ast::{
    Atom, BytePos, EmptyStmt, Expr, ExprBox, ExprStmt, Invalid, Lit, ParenExpr, Pat, PatBox, Span,
    Spanned, Stmt, StmtBox, StmtList, Str, ThisExpr, eq_ignore_span,
};

fn span(low: u32, high: u32) -> Span {
    Span::new(BytePos(low), BytePos(high))
}

/// A string literal that is written so, at a place.
fn literal(alloc: Global, raw: &str, span: Span) -> Result<Expr, AllocError> {
    let raw = Atom::new(alloc, raw)?;
    Ok(Expr::Lit(Lit::Str(Str {
        span,
        value: Atom::new(alloc, "")?,
        raw,
    })))
}

/// An expression in so many parentheses.
fn in_parens(alloc: Global, expr: Expr, count: u32) -> Result<Expr, AllocError> {
    let mut expr = expr;
    for _ in 0..count {
        let inner = ExprBox::new(alloc, expr)?;
        expr = Expr::Paren(ParenExpr {
            span: span(0, 12),
            expr: inner,
        });
    }
    Ok(expr)
}

fn statement(alloc: Global, expr: Expr) -> Result<Stmt, AllocError> {
    let expr = ExprBox::new(alloc, expr)?;
    Ok(Stmt::Expr(ExprStmt {
        span: span(0, 12),
        expr,
    }))
}

/// Whether a literal in so many parentheses, as a statement, is the directive for strict code, and whether one may stand
/// behind it.
fn directive(alloc: Global, raw: &str, parens: u32) -> Result<(bool, bool), AllocError> {
    let expr = in_parens(alloc, literal(alloc, raw, span(0, 12))?, parens)?;
    let stmt = statement(alloc, expr)?;
    let found = (stmt.is_use_strict(), stmt.can_precede_directive());
    stmt.discard();
    Ok(found)
}

#[test]
fn directives_are_string_literals(rt: HostRuntime) -> Result<(), Fail> {
    for (raw, parens, wanted) in [
        ("'use strict'", 0, (true, true)),
        ("\"use strict\"", 0, (true, true)),
        ("'use  strict'", 0, (false, true)),
        ("'use strict'", 1, (false, false)),
    ] {
        let found = directive(rt.alloc(), raw, parens)?;
        assert_eq!(rt; found, wanted, "{raw} in {parens}");
    }
    Ok(())
}

/// The span of what comes out of a box.
fn unboxed_expr(boxed: ExprBox) -> Option<Span> {
    let expr = boxed.into_inner()?;
    let span = expr.span();
    expr.discard();
    Some(span)
}

fn unboxed_pat(boxed: PatBox) -> Option<Span> {
    let pat = boxed.into_inner()?;
    let span = pat.span();
    pat.discard();
    Some(span)
}

fn unboxed_stmt(boxed: StmtBox) -> Option<Span> {
    let stmt = boxed.into_inner()?;
    let span = stmt.span();
    stmt.discard();
    Some(span)
}

#[test]
fn nodes_come_out_of_their_boxes(rt: HostRuntime) -> Result<(), Fail> {
    let alloc = rt.alloc();
    let span = span(1, 2);
    let wanted = Some(span);
    let expr = ExprBox::new(alloc, Expr::Invalid(Invalid { span }))?;
    assert!(rt; unboxed_expr(expr) == wanted);
    let pat = PatBox::new(alloc, Pat::Invalid(Invalid { span }))?;
    assert!(rt; unboxed_pat(pat) == wanted);
    let stmt = StmtBox::new(alloc, Stmt::Empty(EmptyStmt { span }))?;
    assert!(rt; unboxed_stmt(stmt) == wanted);
    Ok(())
}

/// How many statements are seen in a list of one, and how many come out of it.
fn unlisted(alloc: Global) -> Result<(usize, usize), Fail> {
    let mut stmts = Vec::new(alloc);
    stmts.push(Stmt::Empty(EmptyStmt { span: span(1, 2) }))?;
    let list: StmtList = StmtList::new(alloc, stmts)?;
    let seen = list.get().ok_or("none seen")?.len();
    Ok((seen, list.into_inner().ok_or("none")?.len()))
}

#[test]
fn statements_come_out_of_their_list(rt: HostRuntime) -> Result<(), Fail> {
    let found = unlisted(rt.alloc())?;
    assert_eq!(rt; found, (1, 1));
    Ok(())
}

const PRINTED: &str = "Paren(
    ParenExpr {
        span: Span {
            lo: BytePos(
                0,
            ),
            hi: BytePos(
                12,
            ),
        },
        expr: ExprBox {
            node: Node {
                inner: Expr(
                    This(
                        ThisExpr {
                            span: Span {
                                lo: BytePos(
                                    1,
                                ),
                                hi: BytePos(
                                    2,
                                ),
                            },
                        },
                    ),
                ),
            },
        },
    },
)";

/// An expression as it is printed.
fn printed(alloc: Global, expr: Expr) -> Result<String, AllocError> {
    let out = format!(in alloc; "{expr:#?}");
    expr.discard();
    out
}

#[test]
fn trees_are_printed(rt: HostRuntime) -> Result<(), Fail> {
    let this = Expr::This(ThisExpr { span: span(1, 2) });
    let expr = in_parens(rt.alloc(), this, 1)?;
    let printed = printed(rt.alloc(), expr)?;
    assert_eq!(rt; printed.as_str(), PRINTED);
    Ok(())
}

/// Whether two expressions are equal. Both are let go.
fn are_equal(left: Expr, right: Expr) -> bool {
    let are_equal = left == right;
    left.discard();
    right.discard();
    are_equal
}

/// Whether two expressions are alike but for their spans. Both are let go.
fn are_alike(left: Expr, right: Expr) -> bool {
    let are_alike = eq_ignore_span(&left, &right);
    left.discard();
    right.discard();
    are_alike
}

/// Whether two literals, the second from an offset on, are equal, and whether they are alike but for their spans.
fn compared(alloc: Global, left: &str, right: &str, low: u32) -> Result<(bool, bool), AllocError> {
    let end = low.saturating_add(3);
    let first = literal(alloc, left, span(0, 3))?;
    match literal(alloc, right, span(low, end)) {
        Ok(second) => {
            let are_equal = first == second;
            Ok((are_equal, are_alike(first, second)))
        }
        Err(error) => {
            first.discard();
            Err(error)
        }
    }
}

#[test]
fn spans_are_passed_over(rt: HostRuntime) -> Result<(), Fail> {
    for (left, right, low, wanted) in [
        ("'a'", "'a'", 0, (true, true)),
        ("'a'", "'a'", 3, (false, true)),
        ("'1'", "'2'", 0, (false, false)),
    ] {
        let found = compared(rt.alloc(), left, right, low)?;
        assert_eq!(rt; found, wanted, "{left} and {right} at {low}");
    }
    Ok(())
}

/// Whether two trees of so many levels are equal.
fn are_equally_deep(alloc: Global, left: u32, right: u32) -> Result<bool, AllocError> {
    let left = in_parens(alloc, literal(alloc, "''", span(0, 2))?, left)?;
    let right = literal(alloc, "''", span(0, 2)).and_then(|inner| in_parens(alloc, inner, right));
    match right {
        Ok(right) => Ok(are_equal(left, right)),
        Err(error) => {
            left.discard();
            Err(error)
        }
    }
}

#[test]
fn deep_trees_are_compared_and_let_go(rt: HostRuntime) -> Result<(), Fail> {
    assert!(rt; are_equally_deep(rt.alloc(), 1000, 1000)?);
    assert!(rt; !are_equally_deep(rt.alloc(), 1000, 999)?);
    Ok(())
}
