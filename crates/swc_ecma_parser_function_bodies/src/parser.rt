//! What reads the body of a function.

ghost use Rattle.std.specs.Prelude.{◌≡◌};
ghost use Rattle.swc_ecma_parser_function_bodies.specs.Bodies.{directed_body};
ghost use Rattle.swc_ecma_parser_reader.specs.State.{GivesAs};

use swc_ecma_parser_cursor::Cursor;
use swc_ecma_parser_error::PResult;
use swc_ecma_parser_functions::function::Manner;
use swc_ecma_parser_shared::readers::Readers;
use swc_ecma_parser_trees::{BuildsFunction, MakerOf, Trees};

/// A source from which the body of a function of the tree `T` can be read as a `B`.
pub trait FnBodyParser<T: Trees, B>: Cursor {
    ghost use Rattle.std.specs.Prelude.{ℕ, Bool};
    ghost use Rattle.swc_ecma_parser_model.specs.Tree.{Tree};
    ghost use Rattle.swc_ecma_parser_reader.specs.State.{Reader};

    /// The tree that a body stands for.
    ghost body_of: { B → Tree };

    /// How a body of its kind is read, with what stands in it in so many levels.
    ghost body: { (depth : ℕ) → (is_async is_generator : Bool) → Reader Tree };

    /// A body. A directive that says it is strict is a fault where the parameters are not all plain names: section 15.2.1 of ECMA-262.
    fn parse_fn_body_inner<G: Readers<Self, T>>(
        &mut self,
        g: &G,
        t: &MakerOf<T>,
        manner: Manner,
        is_simple_parameter_list: bool,
    ) -> PResult<B>
        requires { G.ready g.now }
        ensures { GivesAs body_of
            (directed_body is_simple_parameter_list
            (body (G.depth g.now) manner.is_async manner.is_generator) (Self.seen self.old)) result
            (Self.seen self.new) };
}

/// What the body of an arrow function of the tree `T` can become.
pub trait FromArrowBody<T: BuildsFunction> {
    ghost use Rattle.swc_ecma_parser_model.specs.Tree.{Tree};

    /// The tree that it stands for.
    ghost arrow_body: { Self → Tree };

    /// Statements in braces.
    fn from_block(block: T::Block) -> Self
        ensures { arrow_body result ≡ T.block_of block };

    /// An expression.
    fn from_expr(expr: T::Expr) -> Self
        ensures { arrow_body result ≡ T.expr_of expr };
}
