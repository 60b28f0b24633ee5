use crate::kind::TokenKind;

/// The operators between two operands that are no words: of ECMA-262, "Punctuators" (section 12.8).
#[derive(Clone, Copy, Debug, PartialEq, Eq)]
pub enum BinOpToken {
    /// `==`
    EqEq,
    /// `!=`
    NotEq,
    /// `===`
    EqEqEq,
    /// `!==`
    NotEqEq,
    /// `<`
    Lt,
    /// `<=`
    LtEq,
    /// `>`
    Gt,
    /// `>=`
    GtEq,
    /// `<<`
    LShift,
    /// `>>`
    RShift,
    /// `>>>`
    ZeroFillRShift,
    /// `+`
    Add,
    /// `-`
    Sub,
    /// `*`
    Mul,
    /// `/`
    Div,
    /// `%`
    Mod,
    /// `|`
    BitOr,
    /// `^`
    BitXor,
    /// `&`
    BitAnd,
    /// `||`
    LogicalOr,
    /// `&&`
    LogicalAnd,
    /// `??`
    NullishCoalescing,
    /// `**`
    Exp,
}

impl BinOpToken {
    ghost use Rattle.std.specs.Prelude.{◌≡◌};
    ghost use Rattle.swc_ecma_parser_token.specs.Kind.{bin_op_kind};
    ghost use Rattle.swc_ecma_parser_token.specs.Text.{bin_op_text};

    /// The kind of token that it is.
    pub fn kind(self) -> TokenKind
        ensures { result ≡ bin_op_kind self }
    {
        match self {
            BinOpToken::EqEq => TokenKind::EqEq,
            BinOpToken::NotEq => TokenKind::NotEq,
            BinOpToken::EqEqEq => TokenKind::EqEqEq,
            BinOpToken::NotEqEq => TokenKind::NotEqEq,
            BinOpToken::Lt => TokenKind::Lt,
            BinOpToken::LtEq => TokenKind::LtEq,
            BinOpToken::Gt => TokenKind::Gt,
            BinOpToken::GtEq => TokenKind::GtEq,
            BinOpToken::LShift => TokenKind::LShift,
            BinOpToken::RShift => TokenKind::RShift,
            BinOpToken::ZeroFillRShift => TokenKind::ZeroFillRShift,
            BinOpToken::Add => TokenKind::Add,
            BinOpToken::Sub => TokenKind::Sub,
            BinOpToken::Mul => TokenKind::Mul,
            BinOpToken::Div => TokenKind::Div,
            BinOpToken::Mod => TokenKind::Mod,
            BinOpToken::BitOr => TokenKind::BitOr,
            BinOpToken::BitXor => TokenKind::BitXor,
            BinOpToken::BitAnd => TokenKind::BitAnd,
            BinOpToken::LogicalOr => TokenKind::LogicalOr,
            BinOpToken::LogicalAnd => TokenKind::LogicalAnd,
            BinOpToken::NullishCoalescing => TokenKind::NullishCoalescing,
            BinOpToken::Exp => TokenKind::Exp,
        }
    }

    /// How it is written.
    pub fn as_str(self) -> &'static str
        ensures { result.now ≡ bin_op_text self }
    {
        match self {
            BinOpToken::EqEq => "==",
            BinOpToken::NotEq => "!=",
            BinOpToken::EqEqEq => "===",
            BinOpToken::NotEqEq => "!==",
            BinOpToken::Lt => "<",
            BinOpToken::LtEq => "<=",
            BinOpToken::Gt => ">",
            BinOpToken::GtEq => ">=",
            BinOpToken::LShift => "<<",
            BinOpToken::RShift => ">>",
            BinOpToken::ZeroFillRShift => ">>>",
            BinOpToken::Add => "+",
            BinOpToken::Sub => "-",
            BinOpToken::Mul => "*",
            BinOpToken::Div => "/",
            BinOpToken::Mod => "%",
            BinOpToken::BitOr => "|",
            BinOpToken::BitXor => "^",
            BinOpToken::BitAnd => "&",
            BinOpToken::LogicalOr => "||",
            BinOpToken::LogicalAnd => "&&",
            BinOpToken::NullishCoalescing => "??",
            BinOpToken::Exp => "**",
        }
    }
}

/// The operators of an assignment: of ECMA-262, "Punctuators" (section 12.8).
#[derive(Clone, Copy, Debug, PartialEq, Eq)]
pub enum AssignOp {
    /// `=`
    Assign,
    /// `+=`
    AddAssign,
    /// `-=`
    SubAssign,
    /// `*=`
    MulAssign,
    /// `/=`
    DivAssign,
    /// `%=`
    ModAssign,
    /// `**=`
    ExpAssign,
    /// `<<=`
    LShiftAssign,
    /// `>>=`
    RShiftAssign,
    /// `>>>=`
    ZeroFillRShiftAssign,
    /// `&=`
    BitAndAssign,
    /// `|=`
    BitOrAssign,
    /// `^=`
    BitXorAssign,
    /// `&&=`
    AndAssign,
    /// `||=`
    OrAssign,
    /// `??=`
    NullishAssign,
}

impl AssignOp {
    ghost use Rattle.std.specs.Prelude.{◌≡◌};
    ghost use Rattle.swc_ecma_parser_token.specs.Kind.{assign_op_kind};
    ghost use Rattle.swc_ecma_parser_token.specs.Text.{assign_op_text};

    /// The kind of token that it is.
    pub fn kind(self) -> TokenKind
        ensures { result ≡ assign_op_kind self }
    {
        match self {
            AssignOp::Assign => TokenKind::Assign,
            AssignOp::AddAssign => TokenKind::AddAssign,
            AssignOp::SubAssign => TokenKind::SubAssign,
            AssignOp::MulAssign => TokenKind::MulAssign,
            AssignOp::DivAssign => TokenKind::DivAssign,
            AssignOp::ModAssign => TokenKind::ModAssign,
            AssignOp::ExpAssign => TokenKind::ExpAssign,
            AssignOp::LShiftAssign => TokenKind::LShiftAssign,
            AssignOp::RShiftAssign => TokenKind::RShiftAssign,
            AssignOp::ZeroFillRShiftAssign => TokenKind::ZeroFillRShiftAssign,
            AssignOp::BitAndAssign => TokenKind::BitAndAssign,
            AssignOp::BitOrAssign => TokenKind::BitOrAssign,
            AssignOp::BitXorAssign => TokenKind::BitXorAssign,
            AssignOp::AndAssign => TokenKind::AndAssign,
            AssignOp::OrAssign => TokenKind::OrAssign,
            AssignOp::NullishAssign => TokenKind::NullishAssign,
        }
    }

    /// How it is written.
    pub fn as_str(self) -> &'static str
        ensures { result.now ≡ assign_op_text self }
    {
        match self {
            AssignOp::Assign => "=",
            AssignOp::AddAssign => "+=",
            AssignOp::SubAssign => "-=",
            AssignOp::MulAssign => "*=",
            AssignOp::DivAssign => "/=",
            AssignOp::ModAssign => "%=",
            AssignOp::ExpAssign => "**=",
            AssignOp::LShiftAssign => "<<=",
            AssignOp::RShiftAssign => ">>=",
            AssignOp::ZeroFillRShiftAssign => ">>>=",
            AssignOp::BitAndAssign => "&=",
            AssignOp::BitOrAssign => "|=",
            AssignOp::BitXorAssign => "^=",
            AssignOp::AndAssign => "&&=",
            AssignOp::OrAssign => "||=",
            AssignOp::NullishAssign => "??=",
        }
    }
}
