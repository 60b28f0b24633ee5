//! Scripts.

ghost use Rattle.std.specs.Prelude.{◌≡◌, map};

use crate::Trees;
use swc_ecma_parser_common::{Atom, Span};

/// Makes scripts: ECMA-262, section 16.1. Spans are in byte offsets.
pub trait BuildsScript: Trees {
    ghost use Rattle.swc_ecma_parser_model.specs.Tree as tree;
    ghost use Rattle.swc_ecma_parser_model.specs.Tree.{Tree};

    /// A whole script.
    type Script: Drop;

    ghost script_of: { Self.Script → Tree };

    /// A whole script, with the text of a first line `#!` behind these two.
    fn script(span: Span, body: Vec<Self::Stmt>, shebang: Option<Atom>) -> Self::Script
        ensures { script_of result
            ≡ tree.script span (tree.listed (map Self.stmt_of body.items)) shebang };
}
