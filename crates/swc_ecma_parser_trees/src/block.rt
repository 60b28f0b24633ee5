//! Blocks that are parts of other forms.

ghost use Rattle.std.specs.Prelude.{◌≡◌, IfOk, map};

use crate::Trees;
use std::alloc::{AllocError, Global};
use swc_ecma_parser_common::Span;

/// Makes the blocks that functions, classes and `try` hold: ECMA-262, section 14.2. A function that answers a `Result`
/// fails only where memory runs out, and spans are in byte offsets.
pub trait BuildsBlock: Trees {
    ghost use Rattle.swc_ecma_parser_model.specs.Forms as forms;
    ghost use Rattle.swc_ecma_parser_model.specs.Tree as tree;
    ghost use Rattle.swc_ecma_parser_model.specs.Tree.{Tree};

    /// Statements in braces.
    type Block: Drop;

    ghost block_of: { Self.Block → Tree };

    /// Statements in braces; the span covers them.
    fn body(alloc: Global, span: Span, stmts: Vec<Self::Stmt>) -> Result<Self::Block, AllocError>
        ensures { IfOk result
            (λ x. block_of x ≡ tree.block span (tree.listed (map Self.stmt_of stmts.items))) };

    /// Where a statement stands.
    fn stmt_span(stmt: &Self::Stmt) -> Span
        ensures { result ≡ forms.span_of (Self.stmt_of stmt.now) };
}
