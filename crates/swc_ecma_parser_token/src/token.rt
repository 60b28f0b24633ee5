use crate::keyword::Keyword;
use crate::kind::TokenKind;
use crate::operator::{AssignOp, BinOpToken};
use swc_ecma_parser_common::{Atom, Span, Spanned};
use swc_ecma_parser_error::{Error, PResult};

/// A word: ECMA-262, "Names and Keywords" (section 12.7), with the three literals that are words.
#[derive(Debug, PartialEq, Eq, Drop)]
pub enum Word {
    /// A keyword.
    Keyword(Keyword),
    /// `null`: "Null Literals" (section 12.9.1).
    Null,
    /// `true`: "Boolean Literals" (section 12.9.2).
    True,
    /// `false`: "Boolean Literals" (section 12.9.2).
    False,
    /// Any other word, which it holds.
    Ident(Atom),
    /// A word that is written with an escape, and what it says. It may say what a keyword says, and is none: so it is a name where
    /// that word could be one, and a key.
    Escaped(Atom),
}

/// A token: ECMA-262, "Lexical Grammar" (section 12). What is only a mark is of "Punctuators" (section 12.8); `#` begins a
/// private name (section 12.7), and `@` a decorator.
#[derive(Debug, PartialEq, Eq, Drop)]
pub enum Token {
    /// A keyword, a literal that is a word, or a name.
    Word(Word),
    /// `=>`
    Arrow,
    /// `#`
    Hash,
    /// `@`
    At,
    /// `.`
    Dot,
    /// `...`
    DotDotDot,
    /// `!`
    Bang,
    /// `(`
    LParen,
    /// `)`
    RParen,
    /// `[`
    LBracket,
    /// `]`
    RBracket,
    /// `{`
    LBrace,
    /// `}`
    RBrace,
    /// `;`
    Semi,
    /// `,`
    Comma,
    /// `:`
    Colon,
    /// `?`
    QuestionMark,
    /// `?.`, before no digit.
    QuestionDot,
    /// The `.` directly behind the keyword `new`.
    NewDot,
    /// `#` where an operand begins, outside the names of members.
    HashIn,
    /// `++`
    PlusPlus,
    /// `--`
    MinusMinus,
    /// `~`
    Tilde,
    /// An operator between two operands.
    BinOp(BinOpToken),
    /// An operator of an assignment.
    AssignOp(AssignOp),
    /// A string literal, what it says and how it is written with its quotes: "String Literals" (section 12.9.4).
    Str { value: Atom, raw: Atom },
    /// A number, as it is written: "Numeric Literals" (section 12.9.3).
    Num { raw: Atom },
    /// A big integer, as it is written, with its `n`: "Numeric Literals" (section 12.9.3).
    BigInt { raw: Atom },
    /// The first line of a text that begins with `#!`, without these two: "Hashbang Comments" (section 12.5).
    Shebang(Atom),
    /// What stands between the slashes of a regular expression, and its flags: "Regular Expression Literals" (section 12.9.5).
    Regex { exp: Atom, flags: Atom },
    /// A template with no substitution: "Template Literal Lexical Components" (section 12.9.6). `raw` is what stands between its
    /// marks, with `\n` for each line break, and `cooked` what that says; it is `None` where an escape in it is none.
    Template { raw: Atom, cooked: Option<Atom> },
    /// The same from the first mark to `${`.
    TemplateHead { raw: Atom, cooked: Option<Atom> },
    /// The same from `}` to `${`.
    TemplateMiddle { raw: Atom, cooked: Option<Atom> },
    /// The same from `}` to the last mark.
    TemplateTail { raw: Atom, cooked: Option<Atom> },
    /// Where no token could be read, and why.
    Error(Error),
}

ghost use Rattle.std.specs.Prelude.{◌≡◌, IfOk, IfErr};
ghost use Rattle.swc_ecma_parser_error.specs.Kind.{fault_of, no_memory};

/// An equal text, where there is one, or a fault of kind `OutOfMemory` at 0.
fn copied(text: &Option<Atom>) -> PResult<Option<Atom>>
    ensures ok { IfOk result (λ t. t ≡ text.now) }
    ensures err { IfErr result (λ e. fault_of e ≡ no_memory) }
{
    match text {
        Some(text) => Ok(Some(text.try_clone()?)),
        None => Ok(None),
    }
}

/// A token with its place. Its span is the bytes that spell it, as byte offsets.
#[derive(Debug, PartialEq, Eq, Drop)]
pub struct TokenAndSpan {
    pub token: Token,
    /// Whether a line break stands between it and the token before it.
    pub had_line_break: bool,
    pub span: Span,
}

impl Word {
    ghost use Rattle.std.specs.Prelude.{◌≡◌, IfOk, IfErr};
    ghost use Rattle.swc_ecma_parser_error.specs.Kind.{fault_of, no_memory};
    ghost use Rattle.swc_ecma_parser_token.specs.Kind.{word_kind};
    ghost use Rattle.swc_ecma_parser_token.specs.Text.{word_text};

    /// The kind of token that it is.
    pub fn kind(&self) -> TokenKind
        ensures { result ≡ word_kind self.now }
    {
        match self {
            Word::Keyword(keyword) => keyword.kind(),
            Word::Null => TokenKind::Null,
            Word::True => TokenKind::True,
            Word::False => TokenKind::False,
            Word::Ident(_) => TokenKind::Ident,
            Word::Escaped(_) => TokenKind::Escaped,
        }
    }

    /// How it is written.
    pub fn as_str(&self) -> &str
        ensures { result.now ≡ word_text self.now }
    {
        match self {
            Word::Keyword(keyword) => keyword.as_str(),
            Word::Null => "null",
            Word::True => "true",
            Word::False => "false",
            Word::Ident(text) | Word::Escaped(text) => text.as_str(),
        }
    }

    /// An equal word, or a fault of kind `OutOfMemory` at 0.
    pub fn try_clone(&self) -> PResult<Word>
        ensures ok { IfOk result (λ w. w ≡ self.now) }
        ensures err { IfErr result (λ e. fault_of e ≡ no_memory) }
    {
        let copy = match self {
            Word::Keyword(keyword) => Word::Keyword(*keyword),
            Word::Null => Word::Null,
            Word::True => Word::True,
            Word::False => Word::False,
            Word::Ident(text) => Word::Ident(text.try_clone()?),
            Word::Escaped(text) => Word::Escaped(text.try_clone()?),
        };
        Ok(copy)
    }
}

impl Token {
    ghost use Rattle.std.specs.Prelude.{◌≡◌, IfOk, IfErr};
    ghost use Rattle.swc_ecma_parser_error.specs.Kind.{fault_of, no_memory};
    ghost use Rattle.swc_ecma_parser_token.specs.Kind.{token_kind};

    /// The kind of token that it is.
    pub fn kind(&self) -> TokenKind
        ensures { result ≡ token_kind self.now }
    {
        match self {
            Token::Word(word) => word.kind(),
            Token::BinOp(op) => op.kind(),
            Token::AssignOp(op) => op.kind(),
            Token::Arrow => TokenKind::Arrow,
            Token::Hash => TokenKind::Hash,
            Token::At => TokenKind::At,
            Token::Dot => TokenKind::Dot,
            Token::DotDotDot => TokenKind::DotDotDot,
            Token::Bang => TokenKind::Bang,
            Token::LParen => TokenKind::LParen,
            Token::RParen => TokenKind::RParen,
            Token::LBracket => TokenKind::LBracket,
            Token::RBracket => TokenKind::RBracket,
            Token::LBrace => TokenKind::LBrace,
            Token::RBrace => TokenKind::RBrace,
            Token::Semi => TokenKind::Semi,
            Token::Comma => TokenKind::Comma,
            Token::Colon => TokenKind::Colon,
            Token::QuestionMark => TokenKind::QuestionMark,
            Token::QuestionDot => TokenKind::QuestionDot,
            Token::NewDot => TokenKind::NewDot,
            Token::HashIn => TokenKind::HashIn,
            Token::PlusPlus => TokenKind::PlusPlus,
            Token::MinusMinus => TokenKind::MinusMinus,
            Token::Tilde => TokenKind::Tilde,
            Token::Str { .. } => TokenKind::Str,
            Token::Num { .. } => TokenKind::Num,
            Token::BigInt { .. } => TokenKind::BigInt,
            Token::Shebang(_) => TokenKind::Shebang,
            Token::Regex { .. } => TokenKind::Regex,
            Token::Template { .. } => TokenKind::Template,
            Token::TemplateHead { .. } => TokenKind::TemplateHead,
            Token::TemplateMiddle { .. } => TokenKind::TemplateMiddle,
            Token::TemplateTail { .. } => TokenKind::TemplateTail,
            Token::Error(_) => TokenKind::Error,
        }
    }

    /// An equal token, or a fault of kind `OutOfMemory` at 0.
    pub fn try_clone(&self) -> PResult<Token>
        ensures ok { IfOk result (λ t. t ≡ self.now) }
        ensures err { IfErr result (λ e. fault_of e ≡ no_memory) }
    {
        Ok(match self {
            Token::Word(word) => Token::Word(word.try_clone()?),
            Token::BinOp(op) => Token::BinOp(*op),
            Token::AssignOp(op) => Token::AssignOp(*op),
            Token::Arrow => Token::Arrow,
            Token::Hash => Token::Hash,
            Token::At => Token::At,
            Token::Dot => Token::Dot,
            Token::DotDotDot => Token::DotDotDot,
            Token::Bang => Token::Bang,
            Token::LParen => Token::LParen,
            Token::RParen => Token::RParen,
            Token::LBracket => Token::LBracket,
            Token::RBracket => Token::RBracket,
            Token::LBrace => Token::LBrace,
            Token::RBrace => Token::RBrace,
            Token::Semi => Token::Semi,
            Token::Comma => Token::Comma,
            Token::Colon => Token::Colon,
            Token::QuestionMark => Token::QuestionMark,
            Token::QuestionDot => Token::QuestionDot,
            Token::NewDot => Token::NewDot,
            Token::HashIn => Token::HashIn,
            Token::PlusPlus => Token::PlusPlus,
            Token::MinusMinus => Token::MinusMinus,
            Token::Tilde => Token::Tilde,
            Token::Str { value, raw } => Token::Str {
                value: value.try_clone()?,
                raw: raw.try_clone()?,
            },
            Token::Num { raw } => Token::Num {
                raw: raw.try_clone()?,
            },
            Token::BigInt { raw } => Token::BigInt {
                raw: raw.try_clone()?,
            },
            Token::Shebang(text) => Token::Shebang(text.try_clone()?),
            Token::Regex { exp, flags } => Token::Regex {
                exp: exp.try_clone()?,
                flags: flags.try_clone()?,
            },
            Token::Template { raw, cooked } => Token::Template {
                raw: raw.try_clone()?,
                cooked: copied(cooked)?,
            },
            Token::TemplateHead { raw, cooked } => Token::TemplateHead {
                raw: raw.try_clone()?,
                cooked: copied(cooked)?,
            },
            Token::TemplateMiddle { raw, cooked } => Token::TemplateMiddle {
                raw: raw.try_clone()?,
                cooked: copied(cooked)?,
            },
            Token::TemplateTail { raw, cooked } => Token::TemplateTail {
                raw: raw.try_clone()?,
                cooked: copied(cooked)?,
            },
            Token::Error(error) => Token::Error(error.try_clone()?),
        })
    }
}

impl TokenAndSpan {
    ghost use Rattle.std.specs.Prelude.{◌≡◌, IfOk, IfErr};
    ghost use Rattle.swc_ecma_parser_error.specs.Kind.{fault_of, no_memory};

    /// An equal token, or a fault of kind `OutOfMemory` at 0.
    pub fn try_clone(&self) -> PResult<TokenAndSpan>
        ensures ok { IfOk result (λ t. t ≡ self.now) }
        ensures err { IfErr result (λ e. fault_of e ≡ no_memory) }
    {
        let token = self.token.try_clone()?;
        Ok(TokenAndSpan {
            token,
            had_line_break: self.had_line_break,
            span: self.span,
        })
    }
}

impl Spanned for TokenAndSpan {
    ghost span_of = { λ t. t.span };

    fn span(&self) -> Span {
        self.span
    }
}
