//! What a function or class becomes in its place.

ghost use Rattle.std.specs.Prelude.{◌≡◌, false, IfOk, IfErr};
ghost use Rattle.swc_ecma_parser_error.specs.Kind.{kind_of};
ghost use Rattle.swc_ecma_parser_outputs.specs.Outputs as outputs;

use std::alloc::Global;
use swc_ecma_parser_common::Span;
use swc_ecma_parser_error::SyntaxError;
use swc_ecma_parser_model::Ident;
use swc_ecma_parser_trees::BuildsClass;

/// What a function or class of the tree `T` becomes: an expression, a declaration or the default of a module. Spans are in byte
/// offsets.
pub trait OutputType<T: BuildsClass> {
    ghost use Rattle.std.specs.Prelude.{Bool};
    ghost use Rattle.swc_ecma_parser_model.specs.Tree.{Tree};
    ghost use Rattle.swc_ecma_parser_outputs.specs.Outputs.{Place};

    /// Whether it must have a name.
    const IS_IDENT_REQUIRED: bool;

    ghost IS_IDENT_REQUIRED: { Bool };

    /// Where it stands.
    ghost place: { Place };

    ghost output_of: { Self → Tree };

    /// Whether it is an expression, so that the name of a function is read in the function's own code.
    fn is_fn_expr() -> bool
        ensures { result ≡ outputs.is_expression place };

    /// A function, with its name if it has one. It is refused with `ExpectedIdent` exactly where a name is required and missing, and
    /// else only where memory runs out.
    fn finish_fn(
        alloc: Global,
        span: Span,
        ident: Option<Ident>,
        function: T::Function,
    ) -> Result<Self, SyntaxError>
        ensures holds { IfOk result
            (λ x. output_of x
            ≡ outputs.function_in place span (outputs.named ident) (T.function_of function)) }
        ensures has_name { IfOk result (λ x. outputs.lacks_name IS_IDENT_REQUIRED ident ≡ false) }
        ensures refused { IfErr result (λ e. kind_of e ≡ outputs.refusal IS_IDENT_REQUIRED ident) };

    /// A class, as `finish_fn` does with a function.
    fn finish_class(
        alloc: Global,
        span: Span,
        ident: Option<Ident>,
        class: T::Class,
    ) -> Result<Self, SyntaxError>
        ensures holds { IfOk result
            (λ x. output_of x
            ≡ outputs.class_in place span (outputs.named ident) (T.class_of class)) }
        ensures has_name { IfOk result (λ x. outputs.lacks_name IS_IDENT_REQUIRED ident ≡ false) }
        ensures refused { IfErr result (λ e. kind_of e ≡ outputs.refusal IS_IDENT_REQUIRED ident) };
}
