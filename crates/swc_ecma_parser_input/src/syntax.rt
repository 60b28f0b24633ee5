/// The proposals that are read, and what is let pass. All flags are off by default.
#[derive(Clone, Copy, Debug, PartialEq, Eq, Default)]
pub struct EsSyntax {
    /// Decorators.
    pub decorators: bool,
    /// Decorators before `export`.
    pub decorators_before_export: bool,
    /// `export name from 'module'`.
    pub export_default_from: bool,
    /// `import .. with { .. }`.
    pub import_attributes: bool,
    /// `return` outside functions.
    pub allow_return_outside_function: bool,
    /// The modifier `accessor` of a class member.
    pub auto_accessors: bool,
    /// `using` and `await using`.
    pub explicit_resource_management: bool,
}

/// The language that is read.
#[derive(Clone, Copy, Debug, PartialEq, Eq)]
pub enum Syntax {
    Es(EsSyntax),
}

impl Syntax {
    ghost use Rattle.std.specs.Prelude.{◌≡◌};
    ghost use Rattle.swc_ecma_parser_input.specs.Setting.{setting_of};

    /// The settings of ECMAScript.
    pub fn es(self) -> EsSyntax
        ensures { result ≡ setting_of self }
    {
        let Syntax::Es(es) = self;
        es
    }
}

impl Default for Syntax {
    ghost use Rattle.std.specs.Prelude.{◌≡◌};
    ghost use Rattle.swc_ecma_parser_input.specs.Setting.{plain};

    ghost is_default = { λ s. s ≡ plain };

    fn default() -> Syntax {
        Syntax::Es(EsSyntax::default())
    }
}
