ghost use Rattle.std.specs.Prelude.{◌≡◌, IfOk, map};
ghost use Rattle.swc_ecma_parser_ast.specs.View.{view_object_pat_prop, view_pat};
ghost use Rattle.swc_ecma_parser_ast_parts.specs.View.{view_made};

use crate::Ast;
use std::alloc::{AllocError, Global};
use swc_ecma_parser_ast::{
    ArrayPat, AssignPat, AssignPatProp, BindingIdent, Ident, Invalid, ObjectPat, ObjectPatProp,
    Pat, PatBox, PropName, RestPat, Span, Spanned,
};
use swc_ecma_parser_ast_parts::binds::binds;
use swc_ecma_parser_ast_parts::boxes::{beside, key_value_pattern, pattern_elements};
use swc_ecma_parser_ast_parts::made::Made;
use swc_ecma_parser_ast_parts::target::as_pattern;
use swc_ecma_parser_trees::{BuildsObjectPat, BuildsPattern};

impl BuildsPattern for Ast {
    ghost use Rattle.swc_ecma_parser_model.specs.Tree as tree;
    ghost use Rattle.swc_ecma_parser_trees.specs.Parts as parts;

    fn array_pat(alloc: Global, span: Span, elems: Vec<Option<Pat>>) -> Result<Pat, AllocError>
        ensures { IfOk result
            (λ x. view_pat x
            ≡ tree.array_pat span (tree.listed (map (parts.part_of view_pat) elems.items))) }
    {
        let elems = pattern_elements(alloc, elems)?;
        Ok(Pat::Array(ArrayPat { span, elems }))
    }

    fn rest_pat(alloc: Global, span: Span, arg: Pat) -> Result<Pat, AllocError> {
        let arg = PatBox::new(alloc, arg)?;
        Ok(Pat::Rest(RestPat { span, arg }))
    }

    fn assign_pat(alloc: Global, span: Span, left: Pat, right: Made) -> Result<Pat, AllocError> {
        let (left, right) = beside(PatBox::new(alloc, left), right.into_handle())?;
        Ok(Pat::Assign(AssignPat { span, left, right }))
    }

    fn expr_pat(alloc: Global, expr: Made) -> Result<Pat, AllocError> {
        Ok(Pat::Expr(expr.into_handle()))
    }

    fn target(alloc: Global, expr: Made) -> Result<Option<Pat>, AllocError> {
        as_pattern(alloc, expr.into_inner(), false)
    }

    fn element(alloc: Global, expr: Made) -> Result<Option<Pat>, AllocError> {
        as_pattern(alloc, expr.into_inner(), true)
    }

    fn binds(pat: &Pat) -> bool {
        binds(pat)
    }

    fn invalid_pat(alloc: Global, span: Span) -> Result<Pat, AllocError> {
        Ok(Pat::Invalid(Invalid { span }))
    }

    fn pat_span(pat: &Pat) -> Span {
        pat.span()
    }

    fn is_binding_name(pat: &Pat) -> bool {
        match pat {
            Pat::Ident(_) => true,
            _ => false,
        }
    }

    fn is_plain(pat: &Pat) -> bool {
        match pat {
            Pat::Ident(_) => true,
            _ => false,
        }
    }

    fn is_rest(pat: &Pat) -> bool {
        match pat {
            Pat::Rest(_) => true,
            _ => false,
        }
    }

    fn is_pattern_target(pat: &Pat) -> bool {
        match pat {
            Pat::Array(_) => true,
            Pat::Object(_) => true,
            _ => false,
        }
    }
}

impl BuildsObjectPat for Ast {
    ghost use Rattle.swc_ecma_parser_model.specs.Tree as tree;
    ghost use Rattle.swc_ecma_parser_trees.specs.Parts as parts;

    type PatProp = ObjectPatProp;

    ghost pat_prop_of = { view_object_pat_prop };

    fn object_pat(alloc: Global, span: Span, props: Vec<ObjectPatProp>) -> Result<Pat, AllocError>
        ensures { IfOk result
            (λ x. view_pat x
            ≡ tree.object_pat span (tree.listed (map view_object_pat_prop props.items))) }
    {
        Ok(Pat::Object(ObjectPat { span, props }))
    }

    fn key_value_pat_prop(
        alloc: Global,
        span: Span,
        key: PropName,
        value: Pat,
    ) -> Result<ObjectPatProp, AllocError> {
        let prop = key_value_pattern(alloc, span, key, value)?;
        Ok(ObjectPatProp::KeyValue(prop))
    }

    fn assign_pat_prop(
        alloc: Global,
        span: Span,
        key: Ident,
        value: Option<Made>,
    ) -> Result<ObjectPatProp, AllocError>
        ensures { IfOk result (λ x. view_object_pat_prop x
            ≡ tree.assign_pat_prop span (tree.ident_pat key.span key.sym) (parts.part_of view_made value)) }
    {
        let value = Made::optional(value);
        let key = BindingIdent { id: key };
        Ok(ObjectPatProp::Assign(AssignPatProp { span, key, value }))
    }

    fn rest_pat_prop(alloc: Global, span: Span, arg: Pat) -> Result<ObjectPatProp, AllocError> {
        let arg = PatBox::new(alloc, arg)?;
        Ok(ObjectPatProp::Rest(RestPat { span, arg }))
    }
}
