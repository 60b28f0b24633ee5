use swc_ecma_parser_common::{Atom, Span, Spanned};

/// A name: ECMA-262, "Identifiers" (section 13.1). As in each leaf, `span` is the bytes that spell it, as byte offsets.
#[derive(Debug, PartialEq, Eq, Drop)]
pub struct Ident {
    pub span: Span,
    pub sym: Atom,
}

/// A string literal: ECMA-262, "String Literals" (section 12.9.4). `value` is what it says, and `raw` how it is written,
/// with its quotes.
#[derive(Debug, PartialEq, Eq, Drop)]
pub struct Str {
    pub span: Span,
    pub value: Atom,
    pub raw: Atom,
}

/// `true` or `false`: ECMA-262, "Boolean Literals" (section 12.9.2).
#[derive(Clone, Copy, Debug, PartialEq, Eq)]
pub struct Bool {
    pub span: Span,
    pub value: bool,
}

/// `null`: ECMA-262, "Null Literals" (section 12.9.1).
#[derive(Clone, Copy, Debug, PartialEq, Eq)]
pub struct Null {
    pub span: Span,
}

/// A number literal, as it is written: ECMA-262, "Numeric Literals" (section 12.9.3).
#[derive(Debug, PartialEq, Eq, Drop)]
pub struct Number {
    pub span: Span,
    pub raw: Atom,
}

/// A big integer literal, as it is written, with its `n`: ECMA-262, "Numeric Literals" (section 12.9.3).
#[derive(Debug, PartialEq, Eq, Drop)]
pub struct BigInt {
    pub span: Span,
    pub raw: Atom,
}

/// A regular expression, what stands between its slashes, and its flags: ECMA-262, "Regular Expression Literals" (section
/// 12.9.5).
#[derive(Debug, PartialEq, Eq, Drop)]
pub struct Regex {
    pub span: Span,
    pub exp: Atom,
    pub flags: Atom,
}

/// A text of a template, between its marks, `${` and `}`: ECMA-262, "Template Literal Lexical Components" (section 12.9.6).
/// `span` takes these in. `tail` says that it is the last, `raw` is how it is written, with `\n` for each line break, and
/// `cooked` what that says: `None` where an escape in it is none.
#[derive(Debug, PartialEq, Eq, Drop)]
pub struct TplElement {
    pub span: Span,
    pub tail: bool,
    pub cooked: Option<Atom>,
    pub raw: Atom,
}

/// `#` and a word: ECMA-262, "PrivateIdentifier" (section 12.7). `span` takes in the `#`, that of `id` the word alone.
#[derive(Debug, PartialEq, Eq, Drop)]
pub struct PrivateName {
    pub span: Span,
    pub id: Ident,
}

/// The word that begins a declaration of variables: ECMA-262, "Declarations and the Variable Statement" (section 14.3).
#[derive(Clone, Copy, Debug, PartialEq, Eq)]
pub enum VarDeclKind {
    Var,
    Let,
    Const,
}

/// What a method of a class is: ECMA-262, "Method Definitions" (section 15.4).
#[derive(Clone, Copy, Debug, PartialEq, Eq)]
pub enum MethodKind {
    Method,
    /// `get`
    Getter,
    /// `set`
    Setter,
}

/// When an imported module is run.
#[derive(Clone, Copy, Debug, PartialEq, Eq)]
pub enum ImportPhase {
    /// At once, where no word says otherwise: ECMA-262, "Imports" (section 16.2.2).
    Evaluation,
    /// `import source`: it is not run, and its source is what is imported.
    Source,
    /// `import defer`: with the first use of it.
    Defer,
}

/// A property of a word of the language: ECMA-262, "Meta Properties" (section 13.3.12).
#[derive(Clone, Copy, Debug, PartialEq, Eq)]
pub enum MetaPropKind {
    /// `new.target`
    NewTarget,
    /// `import.meta`
    ImportMeta,
}

impl Spanned for Ident {
    ghost span_of = { λ x. x.span };

    fn span(&self) -> Span {
        self.span
    }
}

impl Spanned for Str {
    ghost span_of = { λ x. x.span };

    fn span(&self) -> Span {
        self.span
    }
}

impl Spanned for Bool {
    ghost span_of = { λ x. x.span };

    fn span(&self) -> Span {
        self.span
    }
}

impl Spanned for Null {
    ghost span_of = { λ x. x.span };

    fn span(&self) -> Span {
        self.span
    }
}

impl Spanned for Number {
    ghost span_of = { λ x. x.span };

    fn span(&self) -> Span {
        self.span
    }
}

impl Spanned for BigInt {
    ghost span_of = { λ x. x.span };

    fn span(&self) -> Span {
        self.span
    }
}

impl Spanned for Regex {
    ghost span_of = { λ x. x.span };

    fn span(&self) -> Span {
        self.span
    }
}

impl Spanned for TplElement {
    ghost span_of = { λ x. x.span };

    fn span(&self) -> Span {
        self.span
    }
}

impl Spanned for PrivateName {
    ghost span_of = { λ x. x.span };

    fn span(&self) -> Span {
        self.span
    }
}
