//! The operators: which token writes which, and how tightly those between two operands bind.

ghost use Rattle.std.specs.Prelude.{◌≡◌, ◌&&◌, ◌||◌};
ghost use Rattle.swc_ecma_parser_grammar.specs.language.Begins as begins;
ghost use Rattle.swc_ecma_parser_grammar.specs.language.Operators as operators;

use swc_ecma_parser_model::{AssignOp, BinaryOp, UnaryOp, UpdateOp};
use swc_ecma_parser_token::TokenKind;

/// The operator before an operand that this token writes: ECMA-262, section 13.5.
pub fn unary_operator(kind: TokenKind) -> Option<UnaryOp>
    ensures { result ≡ operators.unary_operator kind }
{
    match kind {
        TokenKind::Delete => Some(UnaryOp::Delete),
        TokenKind::Void => Some(UnaryOp::Void),
        TokenKind::TypeOf => Some(UnaryOp::TypeOf),
        TokenKind::Add => Some(UnaryOp::Plus),
        TokenKind::Sub => Some(UnaryOp::Minus),
        TokenKind::Tilde => Some(UnaryOp::Tilde),
        TokenKind::Bang => Some(UnaryOp::Bang),
        _ => None,
    }
}

/// Whether a unary expression can begin with this token, where it is no name: section 13.5.
pub fn begins_operand(kind: TokenKind) -> bool
    ensures { result ≡ begins.begins_operand kind }
{
    matches!(
        kind,
        TokenKind::Str
            | TokenKind::Num
            | TokenKind::BigInt
            | TokenKind::Regex
            | TokenKind::Template
            | TokenKind::TemplateHead
            | TokenKind::Null
            | TokenKind::True
            | TokenKind::False
            | TokenKind::LParen
            | TokenKind::LBracket
            | TokenKind::LBrace
            | TokenKind::Function
            | TokenKind::Class
            | TokenKind::New
            | TokenKind::This
            | TokenKind::Super
            | TokenKind::Import
            | TokenKind::TypeOf
            | TokenKind::Void
            | TokenKind::Delete
            | TokenKind::Add
            | TokenKind::Sub
            | TokenKind::Bang
            | TokenKind::Tilde
            | TokenKind::PlusPlus
            | TokenKind::MinusMinus
    )
}

/// The operator that counts up or down: section 13.4.
pub fn update_operator(kind: TokenKind) -> Option<UpdateOp>
    ensures { result ≡ operators.update_operator kind }
{
    match kind {
        TokenKind::PlusPlus => Some(UpdateOp::PlusPlus),
        TokenKind::MinusMinus => Some(UpdateOp::MinusMinus),
        _ => None,
    }
}

/// The operator between two operands: sections 13.6 to 13.13.
pub fn binary_operator(kind: TokenKind) -> Option<BinaryOp>
    ensures { result ≡ operators.binary_operator kind }
{
    match kind {
        TokenKind::EqEq => Some(BinaryOp::EqEq),
        TokenKind::NotEq => Some(BinaryOp::NotEq),
        TokenKind::EqEqEq => Some(BinaryOp::EqEqEq),
        TokenKind::NotEqEq => Some(BinaryOp::NotEqEq),
        TokenKind::Lt => Some(BinaryOp::Lt),
        TokenKind::LtEq => Some(BinaryOp::LtEq),
        TokenKind::Gt => Some(BinaryOp::Gt),
        TokenKind::GtEq => Some(BinaryOp::GtEq),
        TokenKind::LShift => Some(BinaryOp::LShift),
        TokenKind::RShift => Some(BinaryOp::RShift),
        TokenKind::ZeroFillRShift => Some(BinaryOp::ZeroFillRShift),
        TokenKind::Add => Some(BinaryOp::Add),
        TokenKind::Sub => Some(BinaryOp::Sub),
        TokenKind::Mul => Some(BinaryOp::Mul),
        TokenKind::Div => Some(BinaryOp::Div),
        TokenKind::Mod => Some(BinaryOp::Mod),
        TokenKind::BitOr => Some(BinaryOp::BitOr),
        TokenKind::BitXor => Some(BinaryOp::BitXor),
        TokenKind::BitAnd => Some(BinaryOp::BitAnd),
        TokenKind::LogicalOr => Some(BinaryOp::LogicalOr),
        TokenKind::LogicalAnd => Some(BinaryOp::LogicalAnd),
        TokenKind::In => Some(BinaryOp::In),
        TokenKind::InstanceOf => Some(BinaryOp::InstanceOf),
        TokenKind::Exp => Some(BinaryOp::Exp),
        TokenKind::NullishCoalescing => Some(BinaryOp::NullishCoalescing),
        _ => None,
    }
}

/// The operator of an assignment: section 13.15.
pub fn assign_operator(kind: TokenKind) -> Option<AssignOp>
    ensures { result ≡ operators.assign_operator kind }
{
    match kind {
        TokenKind::Assign => Some(AssignOp::Assign),
        TokenKind::AddAssign => Some(AssignOp::AddAssign),
        TokenKind::SubAssign => Some(AssignOp::SubAssign),
        TokenKind::MulAssign => Some(AssignOp::MulAssign),
        TokenKind::DivAssign => Some(AssignOp::DivAssign),
        TokenKind::ModAssign => Some(AssignOp::ModAssign),
        TokenKind::ExpAssign => Some(AssignOp::ExpAssign),
        TokenKind::LShiftAssign => Some(AssignOp::LShiftAssign),
        TokenKind::RShiftAssign => Some(AssignOp::RShiftAssign),
        TokenKind::ZeroFillRShiftAssign => Some(AssignOp::ZeroFillRShiftAssign),
        TokenKind::BitAndAssign => Some(AssignOp::BitAndAssign),
        TokenKind::BitOrAssign => Some(AssignOp::BitOrAssign),
        TokenKind::BitXorAssign => Some(AssignOp::BitXorAssign),
        TokenKind::AndAssign => Some(AssignOp::AndAssign),
        TokenKind::OrAssign => Some(AssignOp::OrAssign),
        TokenKind::NullishAssign => Some(AssignOp::NullishAssign),
        _ => None,
    }
}

/// How tightly an operator binds its operands, from 1, the loosest, to 11.
pub fn precedence(op: BinaryOp) -> usize
    ensures { result ≡ operators.precedence op }
{
    match op {
        BinaryOp::NullishCoalescing | BinaryOp::LogicalOr => 1,
        BinaryOp::LogicalAnd => 2,
        BinaryOp::BitOr => 3,
        BinaryOp::BitXor => 4,
        BinaryOp::BitAnd => 5,
        BinaryOp::EqEq | BinaryOp::NotEq | BinaryOp::EqEqEq | BinaryOp::NotEqEq => 6,
        BinaryOp::Lt
        | BinaryOp::LtEq
        | BinaryOp::Gt
        | BinaryOp::GtEq
        | BinaryOp::In
        | BinaryOp::InstanceOf => 7,
        BinaryOp::LShift | BinaryOp::RShift | BinaryOp::ZeroFillRShift => 8,
        BinaryOp::Add | BinaryOp::Sub => 9,
        BinaryOp::Mul | BinaryOp::Div | BinaryOp::Mod => 10,
        BinaryOp::Exp => 11,
    }
}

/// Whether it groups to the left.
pub fn groups_left(op: BinaryOp) -> bool
    ensures { result ≡ operators.groups_left op }
{
    !matches!(op, BinaryOp::Exp)
}

/// `||` or `&&`.
fn is_logical(op: BinaryOp) -> bool
    ensures { result ≡ operators.is_logical op }
{
    matches!(op, BinaryOp::LogicalOr | BinaryOp::LogicalAnd)
}

/// `??`
fn is_nullish(op: BinaryOp) -> bool
    ensures { result ≡ operators.is_nullish op }
{
    matches!(op, BinaryOp::NullishCoalescing)
}

/// Whether one of two operators is `??` and the other `||` or `&&`, which do not stand beside each other: section 13.13.
pub fn mixes(outer: BinaryOp, inner: BinaryOp) -> bool
    ensures { result ≡ (operators.is_nullish outer && operators.is_logical inner)
        || (operators.is_logical outer && operators.is_nullish inner) }
{
    is_nullish(outer) && is_logical(inner) || is_logical(outer) && is_nullish(inner)
}
