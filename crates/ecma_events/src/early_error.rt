use swc_ecma_parser_common::Span;

/// What is wrong: one kind for each rule.
#[derive(Clone, Copy, Debug, PartialEq, Eq)]
pub enum EarlyErrorKind {
    /// A name is declared twice where it may be declared once.
    DeclaredTwice,
    /// Two parameters have one name.
    EqualParameters,
    /// `let` as the name of what `let`, `const` or `using` declares.
    LetDeclared,
    /// A `const` without initializer.
    MissingInitializer,
    /// `eval` or `arguments` is bound in strict code.
    BoundInStrict,
    /// `eval` or `arguments` is assigned to in strict code.
    AssignedInStrict,
    /// A word that strict code reserves.
    ReservedInStrict,
    /// `delete` of a name in strict code.
    NameDeleted,
    /// `delete` of a private member.
    PrivateDeleted,
    /// `with` in strict code.
    WithInStrict,
    /// `super(..)` outside of the constructor of a class that extends another.
    MisplacedSuperCall,
    /// `super.a` outside of methods and fields.
    MisplacedSuper,
    /// `arguments` in the value of a field or in a static block.
    ArgumentsInField,
    /// `await` in parameters, in the value of a field or in a static block.
    MisplacedAwait,
    /// `yield` in the same places.
    MisplacedYield,
    /// `new.target` outside of functions, fields and static blocks.
    MisplacedNewTarget,
    /// A number in an old form in strict code, as `010` and `08`.
    OldNumberInStrict,
    /// An escape in an old form in strict code, as `\01` and `\8`.
    OldEscapeInStrict,
    /// Flags of a regular expression that are none, that stand twice, or that exclude each other.
    WrongFlags,
    /// A static member that is named `prototype`.
    StaticPrototype,
    /// A second `__proto__: value` of an object.
    SecondProto,
    /// A private name is declared twice in a class.
    PrivateTwice,
    /// A private name that no class around declares.
    PrivateUndeclared,
    /// A name is exported twice.
    ExportedTwice,
    /// A name is exported that the module does not declare.
    ExportUndeclared,
}

/// An early error of a tree. Spans are in byte offsets.
#[derive(Clone, Copy, Debug, PartialEq, Eq)]
pub struct EarlyError {
    pub kind: EarlyErrorKind,
    pub span: Span,
    /// Where what it stands against was declared, if there is such a place.
    pub previous: Option<Span>,
}
