//! The words of ESTree.

ghost use Rattle.std.specs.Prelude.{◌≡◌};
ghost use Rattle.ecma_estree_writer.specs.Words as words;

use swc_ecma_parser_ast::{AssignOp, BinaryOp, MethodKind, UnaryOp, UpdateOp, VarDeclKind};

/// `true` or `false`.
#[tactic(auto, unfolding(crate::specs::Words::bool_word))]
pub fn bool_word(value: bool) -> &'static str
    ensures { result.now ≡ words.bool_word value }
{
    if value { "true" } else { "false" }
}

/// The word of a declaration of variables.
#[tactic(auto, unfolding(crate::specs::Words::kind_word))]
pub fn kind_word(kind: VarDeclKind) -> &'static str
    ensures { result.now ≡ words.kind_word kind }
{
    match kind {
        VarDeclKind::Var => "var",
        VarDeclKind::Let => "let",
        VarDeclKind::Const => "const",
    }
}

/// The words of a declaration of resources.
#[tactic(auto, unfolding(crate::specs::Words::using_word))]
pub fn using_word(is_await: bool) -> &'static str
    ensures { result.now ≡ words.using_word is_await }
{
    if is_await { "await using" } else { "using" }
}

/// What a method is.
#[tactic(auto, unfolding(crate::specs::Words::method_word))]
pub fn method_word(kind: MethodKind) -> &'static str
    ensures { result.now ≡ words.method_word kind }
{
    match kind {
        MethodKind::Method => "method",
        MethodKind::Getter => "get",
        MethodKind::Setter => "set",
    }
}

/// An operator before its operand.
#[tactic(auto, unfolding(crate::specs::Words::unary_word))]
pub fn unary_word(op: UnaryOp) -> &'static str
    ensures { result.now ≡ words.unary_word op }
{
    match op {
        UnaryOp::Minus => "-",
        UnaryOp::Plus => "+",
        UnaryOp::Bang => "!",
        UnaryOp::Tilde => "~",
        UnaryOp::TypeOf => "typeof",
        UnaryOp::Void => "void",
        UnaryOp::Delete => "delete",
    }
}

/// `++` or `--`.
#[tactic(auto, unfolding(crate::specs::Words::update_word))]
pub fn update_word(op: UpdateOp) -> &'static str
    ensures { result.now ≡ words.update_word op }
{
    match op {
        UpdateOp::PlusPlus => "++",
        UpdateOp::MinusMinus => "--",
    }
}

/// An operator between two operands.
#[tactic(auto, unfolding(crate::specs::Words::binary_word))]
pub fn binary_word(op: BinaryOp) -> &'static str
    ensures { result.now ≡ words.binary_word op }
{
    match op {
        BinaryOp::EqEq => "==",
        BinaryOp::NotEq => "!=",
        BinaryOp::EqEqEq => "===",
        BinaryOp::NotEqEq => "!==",
        BinaryOp::Lt => "<",
        BinaryOp::LtEq => "<=",
        BinaryOp::Gt => ">",
        BinaryOp::GtEq => ">=",
        BinaryOp::LShift => "<<",
        BinaryOp::RShift => ">>",
        BinaryOp::ZeroFillRShift => ">>>",
        BinaryOp::Add => "+",
        BinaryOp::Sub => "-",
        BinaryOp::Mul => "*",
        BinaryOp::Div => "/",
        BinaryOp::Mod => "%",
        BinaryOp::BitOr => "|",
        BinaryOp::BitXor => "^",
        BinaryOp::BitAnd => "&",
        BinaryOp::LogicalOr => "||",
        BinaryOp::LogicalAnd => "&&",
        BinaryOp::In => "in",
        BinaryOp::InstanceOf => "instanceof",
        BinaryOp::Exp => "**",
        BinaryOp::NullishCoalescing => "??",
    }
}

/// The node of an operator between two operands.
#[tactic(auto, unfolding(crate::specs::Words::binary_kind))]
pub fn binary_kind(op: BinaryOp) -> &'static str
    ensures { result.now ≡ words.binary_kind op }
{
    match op {
        BinaryOp::LogicalOr | BinaryOp::LogicalAnd | BinaryOp::NullishCoalescing => {
            "LogicalExpression"
        }
        _ => "BinaryExpression",
    }
}

/// The operator of an assignment.
#[tactic(auto, unfolding(crate::specs::Words::assign_word))]
pub fn assign_word(op: AssignOp) -> &'static str
    ensures { result.now ≡ words.assign_word op }
{
    match op {
        AssignOp::Assign => "=",
        AssignOp::AddAssign => "+=",
        AssignOp::SubAssign => "-=",
        AssignOp::MulAssign => "*=",
        AssignOp::DivAssign => "/=",
        AssignOp::ModAssign => "%=",
        AssignOp::LShiftAssign => "<<=",
        AssignOp::RShiftAssign => ">>=",
        AssignOp::ZeroFillRShiftAssign => ">>>=",
        AssignOp::BitOrAssign => "|=",
        AssignOp::BitXorAssign => "^=",
        AssignOp::BitAndAssign => "&=",
        AssignOp::ExpAssign => "**=",
        AssignOp::AndAssign => "&&=",
        AssignOp::OrAssign => "||=",
        AssignOp::NullishAssign => "??=",
    }
}
