//! Expressions as what `=` assigns to: ECMA-262, section 13.15.5. `None` stands for what is no target.

ghost use Rattle.std.specs.Prelude.{◌≡◌, false, true, IfOk, map, option_map};
ghost use Rattle.swc_ecma_parser_ast.specs.Parts.{view_option};
ghost use Rattle.swc_ecma_parser_ast.specs.View.{view_assign_expr, view_assign_target, view_expr, view_expr_or_spread, view_object_pat_prop, view_pat, view_prop, view_prop_or_spread, view_spread_element};
ghost use Rattle.swc_ecma_parser_ast_parts.specs.Targets.{as_element_at, as_property_at};
ghost use Rattle.swc_ecma_parser_model.specs.Forms as forms;
ghost use Rattle.swc_ecma_parser_model.specs.Targets as targets;
ghost use Rattle.swc_ecma_parser_model.specs.Tree as tree;
ghost use Rattle.swc_ecma_parser_model.specs.Tree.{trees};

use crate::boxes::{beside, beside_found};
use std::alloc::{AllocError, Global};
use swc_ecma_parser_ast::{
    ArrayPat, AssignExpr, AssignOp, AssignPat, AssignPatProp, AssignTarget, AssignTargetPat,
    BindingIdent, Expr, ExprBox, ExprOrSpread, Ident, KeyValuePatProp, ObjectPat, ObjectPatProp,
    Pat, PatBox, Prop, PropOrSpread, RestPat, SimpleAssignTarget, Span, Spanned, SpreadElement,
};

/// An expression as a pattern, with a default where one may stand.
#[cycle(patterns)]
pub fn as_pattern(alloc: Global, expr: Expr, defaults: bool) -> Result<Option<Pat>, AllocError>
    ensures { IfOk result
        (λ x. targets.as_pattern defaults (view_expr expr) ≡ option_map view_pat x) }
{
    match expr {
        Expr::Array(x) => match elements(alloc, x.elems)? {
            Some(elems) => Ok(Some(Pat::Array(ArrayPat {
                span: x.span,
                elems,
            }))),
            None => Ok(None),
        },
        Expr::Object(x) => match properties(alloc, x.props)? {
            Some(props) => Ok(Some(Pat::Object(ObjectPat {
                span: x.span,
                props,
            }))),
            None => Ok(None),
        },
        Expr::Assign(x) => assignment(alloc, x, defaults),
        other => simple(alloc, other),
    }
}

/// The elements of an array as those of a pattern.
#[cycle(patterns)]
fn elements(
    alloc: Global,
    elems: Vec<Option<ExprOrSpread>>,
) -> Result<Option<Vec<Option<PatBox>>>, AllocError>
    ensures { IfOk result
        (λ x. targets.as_elements (trees (map (view_option view_expr_or_spread) elems.items))
        ≡ option_map (λ ps. trees (map (view_option (λ b. b.node.tree)) ps.items)) x) }
{
    let mut found = Vec::new(alloc);
    let mut left = elems.len();
    for elem in elems {
        left -= 1;
        match element(alloc, elem, left == 0)? {
            Some(x) => found.push(x)?,
            None => return Ok(None),
        }
    }
    Ok(Some(found))
}

/// An element as one of a pattern.
#[cycle(patterns)]
fn element(
    alloc: Global,
    elem: Option<ExprOrSpread>,
    last: bool,
) -> Result<Option<Option<PatBox>>, AllocError>
    ensures { IfOk result (λ x. as_element_at last (view_option view_expr_or_spread elem)
        ≡ option_map (view_option (λ b. b.node.tree)) x) }
{
    let Some(elem) = elem else {
        return Ok(Some(None));
    };
    let found = match elem.spread {
        None => part(alloc, elem.expr, true)?,
        Some(dots) if last => rest(alloc, dots, elem.expr)?,
        Some(_) => None,
    };
    match found {
        Some(x) => Ok(Some(Some(x))),
        None => Ok(None),
    }
}

/// An expression in its handle as a pattern in its own.
#[cycle(patterns)]
fn part(alloc: Global, expr: ExprBox, defaults: bool) -> Result<Option<PatBox>, AllocError>
    ensures { IfOk result
        (λ x. targets.as_pattern defaults expr.node.tree ≡ option_map (λ b. b.node.tree) x) }
{
    match expr.into_inner() {
        Some(expr) => match as_pattern(alloc, expr, defaults)? {
            Some(x) => Ok(Some(PatBox::new(alloc, x)?)),
            None => Ok(None),
        },
        None => Ok(None),
    }
}

/// What takes the rest of an array; the span goes from the dots on.
#[cycle(patterns)]
fn rest(alloc: Global, dots: Span, expr: ExprBox) -> Result<Option<PatBox>, AllocError>
    ensures { IfOk result
        (λ x. targets.rest_of dots expr.node.tree (targets.as_pattern false expr.node.tree)
        ≡ option_map (λ b. b.node.tree) x) }
{
    match expr.into_inner() {
        Some(expr) => {
            let span = to_end(dots, &expr);
            match as_pattern(alloc, expr, false)? {
                Some(x) => {
                    let arg = PatBox::new(alloc, x)?;
                    Ok(Some(PatBox::new(alloc, Pat::Rest(RestPat { span, arg }))?))
                }
                None => Ok(None),
            }
        }
        None => Ok(None),
    }
}

/// The parts of an object as those of a pattern.
#[cycle(patterns)]
fn properties(
    alloc: Global,
    props: Vec<PropOrSpread>,
) -> Result<Option<Vec<ObjectPatProp>>, AllocError>
    ensures { IfOk result (λ x. targets.as_properties (trees (map view_prop_or_spread props.items))
        ≡ option_map (λ ps. trees (map view_object_pat_prop ps.items)) x) }
{
    let mut found = Vec::new(alloc);
    let mut left = props.len();
    for prop in props {
        left -= 1;
        match property(alloc, prop, left == 0)? {
            Some(x) => found.push(x)?,
            None => return Ok(None),
        }
    }
    Ok(Some(found))
}

/// A part of an object as one of a pattern.
#[cycle(patterns)]
fn property(
    alloc: Global,
    prop: PropOrSpread,
    last: bool,
) -> Result<Option<ObjectPatProp>, AllocError>
    ensures { IfOk result
        (λ x. as_property_at last (view_prop_or_spread prop) ≡ option_map view_object_pat_prop x) }
{
    match prop {
        PropOrSpread::Prop(x) => plain_property(alloc, Box::into_inner(x)),
        PropOrSpread::Spread(x) => {
            if last {
                rest_property(alloc, x)
            } else {
                Ok(None)
            }
        }
    }
}

/// A part of an object that is no spread, as one of a pattern.
#[cycle(patterns)]
fn plain_property(alloc: Global, prop: Prop) -> Result<Option<ObjectPatProp>, AllocError>
    ensures { IfOk result
        (λ x. targets.as_property (view_prop prop) ≡ option_map view_object_pat_prop x) }
{
    match prop {
        Prop::KeyValue(x) => match beside_found(part(alloc, x.value, true), x.key)? {
            Some((value, key)) => Ok(Some(ObjectPatProp::KeyValue(KeyValuePatProp {
                span: x.span,
                key,
                value,
            }))),
            None => Ok(None),
        },
        Prop::Shorthand(x) => Ok(Some(named(x.span, x, None))),
        Prop::Assign(x) => Ok(Some(named(x.span, x.key, Some(x.value)))),
        other => {
            other.discard();
            Ok(None)
        }
    }
}

/// A name that is its own key, with its default where it has one.
fn named(span: Span, id: Ident, value: Option<ExprBox>) -> ObjectPatProp
    ensures { view_object_pat_prop result
        ≡ tree.assign_pat_prop span (tree.ident_pat id.span id.sym) (view_option (λ b. b.node.tree) value) }
{
    let key = BindingIdent { id };
    ObjectPatProp::Assign(AssignPatProp { span, key, value })
}

/// What takes the rest of an object, a name or a member; the span goes from the dots on.
fn rest_property(alloc: Global, spread: SpreadElement) -> Result<Option<ObjectPatProp>, AllocError>
    ensures { IfOk result
        (λ x. as_property_at true (view_spread_element spread)
        ≡ option_map view_object_pat_prop x) }
{
    match spread.expr.into_inner() {
        Some(expr) => {
            let span = to_end(spread.dot3_token, &expr);
            match simple(alloc, expr)? {
                Some(x) => {
                    let arg = PatBox::new(alloc, x)?;
                    Ok(Some(ObjectPatProp::Rest(RestPat { span, arg })))
                }
                None => Ok(None),
            }
        }
        None => Ok(None),
    }
}

/// From the dots to the end of what they stand before.
fn to_end(dots: Span, expr: &Expr) -> Span
    ensures { result ≡ targets.rest_span dots (view_expr expr.now) }
{
    Span {
        lo: dots.lo,
        hi: expr.span().hi,
    }
}

/// A name or a member, in any number of parentheses, as a pattern.
fn simple(alloc: Global, expr: Expr) -> Result<Option<Pat>, AllocError>
    ensures { IfOk result (λ x. targets.simple_target (view_expr expr) ≡ option_map view_pat x) }
{
    if is_simple(&expr) {
        Ok(Some(leaf(alloc, expr)?))
    } else {
        expr.discard();
        Ok(None)
    }
}

/// As `simple`, where it is known to be one.
#[tactic(auto, using(crate::proofs::Kind::as_expr_view))]
fn leaf(alloc: Global, expr: Expr) -> Result<Pat, AllocError>
    ensures { IfOk result (λ x. targets.leaf (view_expr expr) ≡ view_pat x) }
{
    match expr {
        Expr::Ident(id) => Ok(Pat::Ident(BindingIdent { id })),
        other => Ok(Pat::Expr(ExprBox::new(alloc, other)?)),
    }
}

/// An assignment as a pattern with its default, where one may stand.
fn assignment(alloc: Global, assign: AssignExpr, defaults: bool) -> Result<Option<Pat>, AllocError>
    ensures { IfOk result
        (λ x. targets.as_pattern defaults (view_assign_expr assign) ≡ option_map view_pat x) }
{
    match (assign.op, defaults) {
        (AssignOp::Assign, true) => Ok(Some(with_default(alloc, assign)?)),
        _ => {
            Expr::Assign(assign).discard();
            Ok(None)
        }
    }
}

/// An assignment with `=` as a pattern with its default.
fn with_default(alloc: Global, assign: AssignExpr) -> Result<Pat, AllocError>
    ensures { IfOk result
        (λ x. tree.assign_pat assign.span
        (targets.left_pattern (view_assign_target assign.left.value)) assign.right.node.tree
        ≡ view_pat x) }
{
    let (left, right) = beside(
        left_pattern(alloc, Box::into_inner(assign.left)),
        assign.right,
    )?;
    let (left, right) = beside(PatBox::new(alloc, left), right)?;
    Ok(Pat::Assign(AssignPat {
        span: assign.span,
        left,
        right,
    }))
}

/// What stands left of `=`, as a pattern.
fn left_pattern(alloc: Global, left: AssignTarget) -> Result<Pat, AllocError>
    ensures { IfOk result (λ x. targets.left_pattern (view_assign_target left) ≡ view_pat x) }
{
    match left {
        AssignTarget::Pat(AssignTargetPat::Array(x)) => Ok(Pat::Array(x)),
        AssignTarget::Pat(AssignTargetPat::Object(x)) => Ok(Pat::Object(x)),
        AssignTarget::Simple(SimpleAssignTarget::Ident(x)) => Ok(Pat::Ident(x)),
        AssignTarget::Simple(SimpleAssignTarget::Member(x)) => leaf(alloc, Expr::Member(x)),
        AssignTarget::Simple(SimpleAssignTarget::SuperProp(x)) => leaf(alloc, Expr::SuperProp(x)),
        AssignTarget::Simple(SimpleAssignTarget::Paren(x)) => leaf(alloc, Expr::Paren(x)),
    }
}

/// Whether it is a name or a member, in any number of parentheses.
pub fn is_simple(expr: &Expr) -> bool
    ensures { result ≡ forms.is_simple_target (view_expr expr.now) }
{
    match expr {
        Expr::Ident(_) => true,
        Expr::Member(_) => true,
        Expr::SuperProp(_) => true,
        Expr::Paren(x) => match x.expr.get() {
            Some(inner) => is_simple(inner),
            None => false,
        },
        _ => false,
    }
}
