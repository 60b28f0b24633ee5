//! Expressions as rules hand them on.

ghost use Rattle.std.specs.Prelude.{◌≡◌, true, IfOk};
ghost use Rattle.swc_ecma_parser_ast.specs.Parts.{view_option};
ghost use Rattle.swc_ecma_parser_ast.specs.View.{view_expr};
ghost use Rattle.swc_ecma_parser_model.specs.Kinds.{is_expr};
ghost use Rattle.swc_ecma_parser_trees.specs.Parts.{part_of};

use std::alloc::{AllocError, Global};
use swc_ecma_parser_ast::{Expr, ExprBox};

/// A handle that holds an expression and nothing else.
#[derive(Drop)]
pub struct Made {
    handle: ExprBox,
    ghost kind: { is_expr handle.node.tree ≡ true },
}

impl Made {
    /// A handle of an expression; it fails only where memory runs out.
    #[tactic(auto, using(swc_ecma_parser_ast::specs::Apart::kind_expr))]
    pub fn new(alloc: Global, expr: Expr) -> Result<Made, AllocError>
        ensures { IfOk result (λ x. x.handle.node.tree ≡ view_expr expr) }
    {
        let handle = ExprBox::new(alloc, expr)?;
        Ok(Made { handle })
    }

    /// The expression.
    pub fn get(&self) -> &Expr
        ensures { view_expr result.now ≡ self.now.handle.node.tree }
    {
        match self.handle.get() {
            Some(expr) => expr,
            None => unreachable!(),
        }
    }

    /// The expression itself, in place of the handle.
    pub fn into_inner(self) -> Expr
        ensures { view_expr result ≡ self.handle.node.tree }
    {
        let Made { handle } = self;
        match handle.into_inner() {
            Some(expr) => expr,
            None => unreachable!(),
        }
    }

    /// The handle as forms hold it.
    pub fn into_handle(self) -> ExprBox
        ensures view { result.node.tree ≡ self.handle.node.tree }
        ensures kind { is_expr result.node.tree ≡ true }
    {
        let Made { handle } = self;
        handle
    }

    /// The handle of an expression that may be left out.
    pub fn optional(expr: Option<Made>) -> Option<ExprBox>
        ensures { view_option (λ b. b.node.tree) result ≡ part_of (λ x. x.handle.node.tree) expr }
    {
        match expr {
            Some(expr) => Some(expr.into_handle()),
            None => None,
        }
    }
}
