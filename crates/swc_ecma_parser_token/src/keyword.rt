use crate::kind::TokenKind;

/// The words that are keywords in every context or in some: ECMA-262, "Keywords and Reserved Words" (section 12.7.2).
#[derive(Clone, Copy, Debug, PartialEq, Eq)]
pub enum Keyword {
    /// `await`
    Await,
    /// `break`
    Break,
    /// `case`
    Case,
    /// `catch`
    Catch,
    /// `continue`
    Continue,
    /// `debugger`
    Debugger,
    /// `default`
    Default,
    /// `do`
    Do,
    /// `else`
    Else,
    /// `finally`
    Finally,
    /// `for`
    For,
    /// `function`
    Function,
    /// `if`
    If,
    /// `return`
    Return,
    /// `switch`
    Switch,
    /// `throw`
    Throw,
    /// `try`
    Try,
    /// `var`
    Var,
    /// `let`
    Let,
    /// `const`
    Const,
    /// `while`
    While,
    /// `with`
    With,
    /// `new`
    New,
    /// `this`
    This,
    /// `super`
    Super,
    /// `class`
    Class,
    /// `extends`
    Extends,
    /// `export`
    Export,
    /// `import`
    Import,
    /// `yield`
    Yield,
    /// `in`
    In,
    /// `instanceof`
    InstanceOf,
    /// `typeof`
    TypeOf,
    /// `void`
    Void,
    /// `delete`
    Delete,
}

impl Keyword {
    ghost use Rattle.std.specs.Prelude.{◌≡◌};
    ghost use Rattle.swc_ecma_parser_token.specs.Kind.{keyword_kind};
    ghost use Rattle.swc_ecma_parser_token.specs.Text.{keyword_text};

    /// The kind of token that it is.
    pub fn kind(self) -> TokenKind
        ensures { result ≡ keyword_kind self }
    {
        match self {
            Keyword::Await => TokenKind::Await,
            Keyword::Break => TokenKind::Break,
            Keyword::Case => TokenKind::Case,
            Keyword::Catch => TokenKind::Catch,
            Keyword::Continue => TokenKind::Continue,
            Keyword::Debugger => TokenKind::Debugger,
            Keyword::Default => TokenKind::Default,
            Keyword::Do => TokenKind::Do,
            Keyword::Else => TokenKind::Else,
            Keyword::Finally => TokenKind::Finally,
            Keyword::For => TokenKind::For,
            Keyword::Function => TokenKind::Function,
            Keyword::If => TokenKind::If,
            Keyword::Return => TokenKind::Return,
            Keyword::Switch => TokenKind::Switch,
            Keyword::Throw => TokenKind::Throw,
            Keyword::Try => TokenKind::Try,
            Keyword::Var => TokenKind::Var,
            Keyword::Let => TokenKind::Let,
            Keyword::Const => TokenKind::Const,
            Keyword::While => TokenKind::While,
            Keyword::With => TokenKind::With,
            Keyword::New => TokenKind::New,
            Keyword::This => TokenKind::This,
            Keyword::Super => TokenKind::Super,
            Keyword::Class => TokenKind::Class,
            Keyword::Extends => TokenKind::Extends,
            Keyword::Export => TokenKind::Export,
            Keyword::Import => TokenKind::Import,
            Keyword::Yield => TokenKind::Yield,
            Keyword::In => TokenKind::In,
            Keyword::InstanceOf => TokenKind::InstanceOf,
            Keyword::TypeOf => TokenKind::TypeOf,
            Keyword::Void => TokenKind::Void,
            Keyword::Delete => TokenKind::Delete,
        }
    }

    /// How it is written.
    pub fn as_str(self) -> &'static str
        ensures { result.now ≡ keyword_text self }
    {
        match self {
            Keyword::Await => "await",
            Keyword::Break => "break",
            Keyword::Case => "case",
            Keyword::Catch => "catch",
            Keyword::Continue => "continue",
            Keyword::Debugger => "debugger",
            Keyword::Default => "default",
            Keyword::Do => "do",
            Keyword::Else => "else",
            Keyword::Finally => "finally",
            Keyword::For => "for",
            Keyword::Function => "function",
            Keyword::If => "if",
            Keyword::Return => "return",
            Keyword::Switch => "switch",
            Keyword::Throw => "throw",
            Keyword::Try => "try",
            Keyword::Var => "var",
            Keyword::Let => "let",
            Keyword::Const => "const",
            Keyword::While => "while",
            Keyword::With => "with",
            Keyword::New => "new",
            Keyword::This => "this",
            Keyword::Super => "super",
            Keyword::Class => "class",
            Keyword::Extends => "extends",
            Keyword::Export => "export",
            Keyword::Import => "import",
            Keyword::Yield => "yield",
            Keyword::In => "in",
            Keyword::InstanceOf => "instanceof",
            Keyword::TypeOf => "typeof",
            Keyword::Void => "void",
            Keyword::Delete => "delete",
        }
    }
}
