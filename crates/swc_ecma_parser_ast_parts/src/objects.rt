//! Objects by themselves, as the attributes of an import are: ECMA-262, section 16.2.2.

ghost use Rattle.std.specs.Prelude.{◌≡◌, IfSome, is_some};
ghost use Rattle.swc_ecma_parser_ast.specs.View.{view_expr, view_object_lit};
ghost use Rattle.swc_ecma_parser_model.specs.Kinds.{is_object};

use swc_ecma_parser_ast::{Expr, ObjectLit};

/// The object that an expression is. `None` stands for what is none.
pub fn as_object(expr: Expr) -> Option<ObjectLit>
    ensures made { IfSome result (λ x. view_object_lit x ≡ view_expr expr) }
    ensures found { is_some result ≡ is_object (view_expr expr) }
{
    match expr {
        Expr::Object(x) => Some(x),
        other => {
            other.discard();
            None
        }
    }
}
