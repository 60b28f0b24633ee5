//! Parameters, and lists of them.

ghost use Rattle.std.specs.Prelude.{◌≡◌, map};
ghost use Rattle.swc_ecma_parser_model.specs.Forms as forms;
ghost use Rattle.swc_ecma_parser_model.specs.Tree as tree;

/// What stands in a list of parameters. Contracts see it as the tree that it stands for.
pub trait Parameter {
    ghost use Rattle.swc_ecma_parser_model.specs.Tree.{Tree};

    ghost parameter: { Self → Tree };

    /// Whether it is a plain name: no pattern, no default, no rest.
    fn is_plain(&self) -> bool
        ensures { result ≡ forms.is_plain_param (parameter self.now) };
}

/// A list of parameters. Contracts see it as the tree of the list.
pub trait IsSimpleParameterList {
    ghost use Rattle.swc_ecma_parser_model.specs.Tree.{Tree};

    ghost parameters: { Self → Tree };

    /// Whether each parameter is a plain name: section 15.1.3 of ECMA-262.
    fn is_simple_parameter_list(&self) -> bool
        ensures { result ≡ forms.has_plain_params (parameters self.now) };
}

impl<P: Parameter> IsSimpleParameterList for Vec<P> {
    ghost parameters = { λ list. tree.listed (map P.parameter list.items) };

    fn is_simple_parameter_list(&self) -> bool {
        are_plain(self.as_slice())
    }
}

/// Whether each of these is a plain name.
fn are_plain<P: Parameter>(parameters: &[P]) -> bool
    ensures { result ≡ forms.are_plain_params (tree.trees (map P.parameter parameters.now)) }
{
    parameters.iter().all(|parameter| parameter.is_plain())
}
