ghost use Rattle.std.specs.Prelude.{◌≡◌, IfOk, map};
ghost use Rattle.swc_ecma_parser_ast.specs.View.{view_expr_or_spread, view_opt_chain_base, view_tpl};
ghost use Rattle.swc_ecma_parser_ast_parts.specs.View.{view_made};
ghost use Rattle.swc_ecma_parser_model.specs.Tree as tree;
ghost use Rattle.swc_ecma_parser_trees.specs.Parts as parts;

use crate::Ast;
use std::alloc::{AllocError, Global};
use swc_ecma_parser_ast::{
    ArrayLit, CallExpr, Callee, ComputedPropName, Expr, ExprBox, ExprOrSpread, Ident, Import,
    MemberExpr, MemberProp, NewExpr, OptCall, OptChainBase, OptChainExpr, PrivateName, Span, Super,
    SuperProp, SuperPropExpr, TaggedTpl, Tpl, TplElement,
};
use swc_ecma_parser_ast_parts::boxes::{all, beside};
use swc_ecma_parser_ast_parts::made::Made;
use swc_ecma_parser_trees::BuildsCall;

impl BuildsCall for Ast {
    type Arg = ExprOrSpread;

    ghost arg_of = { view_expr_or_spread };

    fn element(
        alloc: Global,
        spread: Option<Span>,
        expr: Made,
    ) -> Result<ExprOrSpread, AllocError> {
        let expr = expr.into_handle();
        Ok(ExprOrSpread { spread, expr })
    }

    fn array(
        alloc: Global,
        span: Span,
        elems: Vec<Option<ExprOrSpread>>,
    ) -> Result<Made, AllocError>
        ensures { IfOk result
            (λ x. view_made x
            ≡ tree.array span (tree.listed (map (parts.part_of view_expr_or_spread) elems.items))) }
    {
        Made::new(alloc, Expr::Array(ArrayLit { span, elems }))
    }

    fn member(alloc: Global, span: Span, obj: Made, prop: Ident) -> Result<Made, AllocError> {
        let obj = obj.into_handle();
        let prop = MemberProp::Ident(prop);
        Made::new(alloc, Expr::Member(MemberExpr { span, obj, prop }))
    }

    fn private_member(
        alloc: Global,
        span: Span,
        obj: Made,
        prop: PrivateName,
    ) -> Result<Made, AllocError> {
        let obj = obj.into_handle();
        let prop = MemberProp::PrivateName(prop);
        Made::new(alloc, Expr::Member(MemberExpr { span, obj, prop }))
    }

    fn computed_member(
        alloc: Global,
        span: Span,
        obj: Made,
        brackets: Span,
        prop: Made,
    ) -> Result<Made, AllocError> {
        let obj = obj.into_handle();
        let prop = MemberProp::Computed(ComputedPropName {
            span: brackets,
            expr: prop.into_handle(),
        });
        Made::new(alloc, Expr::Member(MemberExpr { span, obj, prop }))
    }

    fn super_prop(alloc: Global, span: Span, word: Span, prop: Ident) -> Result<Made, AllocError> {
        let obj = Super { span: word };
        let prop = SuperProp::Ident(prop);
        Made::new(alloc, Expr::SuperProp(SuperPropExpr { span, obj, prop }))
    }

    fn computed_super_prop(
        alloc: Global,
        span: Span,
        word: Span,
        brackets: Span,
        prop: Made,
    ) -> Result<Made, AllocError> {
        let obj = Super { span: word };
        let prop = SuperProp::Computed(ComputedPropName {
            span: brackets,
            expr: prop.into_handle(),
        });
        Made::new(alloc, Expr::SuperProp(SuperPropExpr { span, obj, prop }))
    }

    fn call(
        alloc: Global,
        span: Span,
        callee: Made,
        args: Vec<ExprOrSpread>,
    ) -> Result<Made, AllocError>
        ensures { IfOk result
            (λ x. view_made x
            ≡ tree.call span (view_made callee)
            (tree.listed (map view_expr_or_spread args.items))) }
    {
        let callee = Callee::Expr(callee.into_handle());
        Made::new(alloc, Expr::Call(CallExpr { span, callee, args }))
    }

    fn super_call(
        alloc: Global,
        span: Span,
        word: Span,
        args: Vec<ExprOrSpread>,
    ) -> Result<Made, AllocError>
        ensures { IfOk result
            (λ x. view_made x
            ≡ tree.call span (tree.super_callee word)
            (tree.listed (map view_expr_or_spread args.items))) }
    {
        let callee = Callee::Super(Super { span: word });
        Made::new(alloc, Expr::Call(CallExpr { span, callee, args }))
    }

    fn import_call(
        alloc: Global,
        span: Span,
        word: Span,
        args: Vec<ExprOrSpread>,
    ) -> Result<Made, AllocError>
        ensures { IfOk result
            (λ x. view_made x
            ≡ tree.call span (tree.import_callee word)
            (tree.listed (map view_expr_or_spread args.items))) }
    {
        let callee = Callee::Import(Import { span: word });
        Made::new(alloc, Expr::Call(CallExpr { span, callee, args }))
    }

    fn new_expr(
        alloc: Global,
        span: Span,
        callee: Made,
        args: Option<Vec<ExprOrSpread>>,
    ) -> Result<Made, AllocError>
        ensures { IfOk result
            (λ x. view_made x
            ≡ tree.new span (view_made callee)
            (parts.part_of (λ xs. tree.listed (map view_expr_or_spread xs.items)) args)) }
    {
        let callee = callee.into_handle();
        Made::new(alloc, Expr::New(NewExpr { span, callee, args }))
    }

    fn chain_member(
        alloc: Global,
        span: Span,
        optional: bool,
        obj: Made,
        prop: Ident,
    ) -> Result<Made, AllocError> {
        let obj = obj.into_handle();
        let prop = MemberProp::Ident(prop);
        let member = MemberExpr { span, obj, prop };
        link(alloc, span, optional, OptChainBase::Member(member))
    }

    fn chain_private_member(
        alloc: Global,
        span: Span,
        optional: bool,
        obj: Made,
        prop: PrivateName,
    ) -> Result<Made, AllocError> {
        let obj = obj.into_handle();
        let prop = MemberProp::PrivateName(prop);
        let member = MemberExpr { span, obj, prop };
        link(alloc, span, optional, OptChainBase::Member(member))
    }

    fn chain_computed_member(
        alloc: Global,
        span: Span,
        optional: bool,
        obj: Made,
        brackets: Span,
        prop: Made,
    ) -> Result<Made, AllocError> {
        let obj = obj.into_handle();
        let prop = MemberProp::Computed(ComputedPropName {
            span: brackets,
            expr: prop.into_handle(),
        });
        let member = MemberExpr { span, obj, prop };
        link(alloc, span, optional, OptChainBase::Member(member))
    }

    fn chain_call(
        alloc: Global,
        span: Span,
        optional: bool,
        callee: Made,
        args: Vec<ExprOrSpread>,
    ) -> Result<Made, AllocError>
        ensures { IfOk result
            (λ x. view_made x
            ≡ tree.opt_chain span optional
            (tree.call span (view_made callee)
            (tree.listed (map view_expr_or_spread args.items)))) }
    {
        let callee = callee.into_handle();
        let call = OptCall { span, callee, args };
        link(alloc, span, optional, OptChainBase::Call(call))
    }

    fn template(
        alloc: Global,
        span: Span,
        exprs: Vec<Made>,
        quasis: Vec<TplElement>,
    ) -> Result<Made, AllocError>
        ensures { IfOk result
            (λ x. view_made x
            ≡ tree.tpl span (tree.listed (map view_made exprs.items))
            (tree.listed (map parts.quasi_of quasis.items))) }
    {
        let tpl = template_of(alloc, span, exprs, quasis)?;
        Made::new(alloc, Expr::Tpl(tpl))
    }

    fn tagged_template(
        alloc: Global,
        span: Span,
        tag: Made,
        template: Span,
        exprs: Vec<Made>,
        quasis: Vec<TplElement>,
    ) -> Result<Made, AllocError>
        ensures { IfOk result
            (λ x. view_made x
            ≡ tree.tagged_tpl span (view_made tag)
            (tree.tpl template (tree.listed (map view_made exprs.items))
            (tree.listed (map parts.quasi_of quasis.items)))) }
    {
        let (tpl, tag) = beside(template_of(alloc, template, exprs, quasis), tag)?;
        let (tpl, tag) = beside(tpl.boxed(alloc), tag)?;
        let tag = tag.into_handle();
        Made::new(alloc, Expr::TaggedTpl(TaggedTpl { span, tag, tpl }))
    }

    fn is_chain(expr: &Made) -> bool {
        match expr.get() {
            Expr::OptChain(_) => true,
            _ => false,
        }
    }

    fn is_member(expr: &Made) -> bool {
        match expr.get() {
            Expr::Member(_) => true,
            Expr::SuperProp(_) => true,
            _ => false,
        }
    }

    #[tactic(auto, using(swc_ecma_parser_ast_parts::proofs::Kind::as_expr_view, crate::proofs::Kind::as_expr_not_name))]
    fn is_async_call(expr: &Made) -> bool {
        match expr.get() {
            Expr::Call(x) => match &x.callee {
                Callee::Expr(callee) => match callee.get() {
                    Some(Expr::Ident(name)) => name.sym.as_str() == "async",
                    _ => false,
                },
                _ => false,
            },
            _ => false,
        }
    }
}

/// A link of an optional chain.
fn link(alloc: Global, span: Span, optional: bool, base: OptChainBase) -> Result<Made, AllocError>
    ensures { IfOk result
        (λ x. view_made x ≡ tree.opt_chain span optional (view_opt_chain_base base)) }
{
    let base = base.boxed(alloc)?;
    let link = OptChainExpr {
        span,
        optional,
        base,
    };
    Made::new(alloc, Expr::OptChain(link))
}

/// A template of its parts.
fn template_of(
    alloc: Global,
    span: Span,
    exprs: Vec<Made>,
    quasis: Vec<TplElement>,
) -> Result<Tpl, AllocError>
    ensures { IfOk result
        (λ x. view_tpl x
        ≡ tree.tpl span (tree.listed (map view_made exprs.items))
        (tree.listed (map parts.quasi_of quasis.items))) }
{
    let (exprs, quasis) = beside(all::<ExprBox>(alloc, exprs), quasis)?;
    Ok(Tpl {
        span,
        exprs,
        quasis,
    })
}
