use swc_ecma_parser_token::{AssignOp, BinOpToken};

/// What the characters since the start of a piece of the text are so far.
#[derive(Clone, Copy, Debug, PartialEq, Eq)]
pub enum State {
    /// White space: ECMA-262, section 12.2.
    Space,
    /// A line terminator: section 12.3.
    LineBreak,
    /// A comment that its line ends: section 12.4.
    LineComment,
    /// A block comment; it holds whether a line break stands in it.
    BlockComment(bool),
    /// The same, behind a `*`.
    BlockCommentStar(bool),
    /// The same, behind its end.
    BlockCommentEnd(bool),
    /// The first line of a text that begins with `#!`: section 12.5.
    Shebang,
    /// A name or a reserved word: section 12.7.
    Name,
    /// A numeric literal: section 12.9.3.
    Number(Number),
    /// A string literal: section 12.9.4. It holds the quote.
    Str(char),
    /// The same, behind a backslash.
    StrEscape(char),
    /// The same, behind a backslash and a carriage return.
    StrReturn(char),
    /// The same, behind its end.
    StrEnd(char),
    /// A punctuator that is no operator of two operands: section 12.8.
    Mark(Mark),
    BinOp(BinOpToken),
    AssignOp(AssignOp),
    /// A character that begins no token.
    Unexpected,
}

/// The base of an integer with a prefix.
#[derive(Clone, Copy, Debug, PartialEq, Eq)]
pub enum Base {
    Binary,
    Octal,
    Hexadecimal,
}

/// What the characters since the start of a number are so far.
#[derive(Clone, Copy, Debug, PartialEq, Eq)]
pub enum Number {
    /// `0`
    Zero,
    /// Digits without a leading zero.
    Integer,
    /// The same and `_`.
    IntegerSeparator,
    /// An integer and `.`.
    Point,
    /// Digits behind `.`.
    Fraction,
    /// The same and `_`.
    FractionSeparator,
    /// `e`, behind all that may stand before it.
    Exponent,
    /// The same and a sign.
    ExponentSign,
    /// Digits of an exponent.
    ExponentDigits,
    /// The same and `_`.
    ExponentSeparator,
    /// `0x`, `0o` or `0b`.
    Prefix(Base),
    /// Digits behind a prefix.
    Digits(Base),
    /// The same and `_`.
    DigitsSeparator(Base),
    /// An integer and `n`.
    BigInt,
    /// No number.
    Wrong,
}

/// The punctuators that are no operators of two operands, and what is the start of one.
#[derive(Clone, Copy, Debug, PartialEq, Eq)]
pub enum Mark {
    /// `=>`
    Arrow,
    /// `#`
    Hash,
    /// `#` at the start of the text.
    FirstHash,
    /// `@`
    At,
    /// `.`
    Dot,
    /// `..`, which is no token.
    DotDot,
    /// `...`
    DotDotDot,
    /// `!`
    Bang,
    /// `(`
    LParen,
    /// `)`
    RParen,
    /// `[`
    LBracket,
    /// `]`
    RBracket,
    /// `{`
    LBrace,
    /// `}`
    RBrace,
    /// `;`
    Semi,
    /// `,`
    Comma,
    /// `:`
    Colon,
    /// `?`
    QuestionMark,
    /// `++`
    PlusPlus,
    /// `--`
    MinusMinus,
    /// `~`
    Tilde,
}
