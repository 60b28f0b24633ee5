//! How a piece of the text goes on with one more character. Each spelling is read as far as it goes.

ghost use Rattle.std.specs.Prelude.{◌≡◌};
ghost use Rattle.swc_ecma_parser_scan.specs.Step as read;

use crate::chars::{is_digit, is_line_break, is_name_part, is_name_start, is_space};
use crate::number::step_number;
use crate::state::{Mark, Number, State};
use swc_ecma_parser_token::{AssignOp, BinOpToken};

/// What the first character of a piece begins; `is_first`: the text begins with it.
#[tactic(auto, unfolding(crate::specs::Step::begin))]
pub fn begin(is_first: bool, c: char) -> State
    ensures { result ≡ read.begin is_first c }
{
    if is_name_start(c) {
        State::Name
    } else if is_space(c) {
        State::Space
    } else if is_line_break(c) {
        State::LineBreak
    } else if is_digit(c) {
        State::Number(first_digit(c))
    } else if (c == '\'') | (c == '"') {
        State::Str(c)
    } else if c == '#' {
        State::Mark(first_hash(is_first))
    } else if let Some(mark) = begin_mark(c) {
        State::Mark(mark)
    } else {
        begin_operator(c)
    }
}

#[tactic(auto, unfolding(crate::specs::Step::first_digit))]
fn first_digit(c: char) -> Number
    ensures { result ≡ read.first_digit c }
{
    if c == '0' {
        Number::Zero
    } else {
        Number::Integer
    }
}

#[tactic(auto, unfolding(crate::specs::Step::first_hash))]
fn first_hash(is_first: bool) -> Mark
    ensures { result ≡ read.first_hash is_first }
{
    if is_first {
        Mark::FirstHash
    } else {
        Mark::Hash
    }
}

#[tactic(auto, unfolding(crate::specs::Step::begin_mark))]
fn begin_mark(c: char) -> Option<Mark>
    ensures { result ≡ read.begin_mark c }
{
    match c {
        '@' => Some(Mark::At),
        '.' => Some(Mark::Dot),
        '!' => Some(Mark::Bang),
        '(' => Some(Mark::LParen),
        ')' => Some(Mark::RParen),
        '[' => Some(Mark::LBracket),
        ']' => Some(Mark::RBracket),
        '{' => Some(Mark::LBrace),
        '}' => Some(Mark::RBrace),
        ';' => Some(Mark::Semi),
        ',' => Some(Mark::Comma),
        ':' => Some(Mark::Colon),
        '?' => Some(Mark::QuestionMark),
        '~' => Some(Mark::Tilde),
        _ => None,
    }
}

#[tactic(auto, unfolding(crate::specs::Step::begin_operator))]
fn begin_operator(c: char) -> State
    ensures { result ≡ read.begin_operator c }
{
    match c {
        '=' => State::AssignOp(AssignOp::Assign),
        '<' => State::BinOp(BinOpToken::Lt),
        '>' => State::BinOp(BinOpToken::Gt),
        '+' => State::BinOp(BinOpToken::Add),
        '-' => State::BinOp(BinOpToken::Sub),
        '*' => State::BinOp(BinOpToken::Mul),
        '/' => State::BinOp(BinOpToken::Div),
        '%' => State::BinOp(BinOpToken::Mod),
        '|' => State::BinOp(BinOpToken::BitOr),
        '^' => State::BinOp(BinOpToken::BitXor),
        '&' => State::BinOp(BinOpToken::BitAnd),
        _ => State::Unexpected,
    }
}

/// What a piece is with one more character, or nothing where the character does not belong to it.
#[tactic(auto, unfolding(crate::specs::Step::step))]
pub fn step(state: State, c: char) -> Option<State>
    ensures { result ≡ read.step state c }
{
    match state {
        State::Space => None,
        State::LineBreak => None,
        State::LineComment => step_line(state, c),
        State::BlockComment(breaks) => Some(step_block(breaks, c)),
        State::BlockCommentStar(breaks) => Some(step_block_star(breaks, c)),
        State::BlockCommentEnd(_) => None,
        State::Shebang => step_line(state, c),
        State::Name => step_name(c),
        State::Number(number) => step_number(number, c),
        State::Str(quote) => step_str(quote, c),
        State::StrEscape(quote) => Some(step_str_escape(quote, c)),
        State::StrReturn(quote) => step_str_return(quote, c),
        State::StrEnd(_) => None,
        State::Mark(mark) => step_mark(mark, c),
        State::BinOp(op) => step_bin_op(op, c),
        State::AssignOp(op) => step_assign_op(op, c),
        State::Unexpected => None,
    }
}

#[tactic(auto, unfolding(crate::specs::Step::step_line))]
fn step_line(state: State, c: char) -> Option<State>
    ensures { result ≡ read.step_line state c }
{
    if is_line_break(c) { None } else { Some(state) }
}

#[tactic(auto, unfolding(crate::specs::Step::step_name))]
fn step_name(c: char) -> Option<State>
    ensures { result ≡ read.step_name c }
{
    if is_name_part(c) {
        Some(State::Name)
    } else {
        None
    }
}

#[tactic(auto, unfolding(crate::specs::Step::step_block))]
fn step_block(breaks: bool, c: char) -> State
    ensures { result ≡ read.step_block breaks c }
{
    if c == '*' {
        State::BlockCommentStar(breaks)
    } else {
        State::BlockComment(breaks | is_line_break(c))
    }
}

#[tactic(auto, unfolding(crate::specs::Step::step_block_star))]
fn step_block_star(breaks: bool, c: char) -> State
    ensures { result ≡ read.step_block_star breaks c }
{
    if c == '/' {
        State::BlockCommentEnd(breaks)
    } else {
        step_block(breaks, c)
    }
}

#[tactic(auto, unfolding(crate::specs::Step::step_str))]
fn step_str(quote: char, c: char) -> Option<State>
    ensures { result ≡ read.step_str quote c }
{
    if c == quote {
        Some(State::StrEnd(quote))
    } else if c == '\\' {
        Some(State::StrEscape(quote))
    } else if (c == '\n') | (c == '\r') {
        None
    } else {
        Some(State::Str(quote))
    }
}

#[tactic(auto, unfolding(crate::specs::Step::step_str_escape))]
fn step_str_escape(quote: char, c: char) -> State
    ensures { result ≡ read.step_str_escape quote c }
{
    if c == '\r' {
        State::StrReturn(quote)
    } else {
        State::Str(quote)
    }
}

#[tactic(auto, unfolding(crate::specs::Step::step_str_return))]
fn step_str_return(quote: char, c: char) -> Option<State>
    ensures { result ≡ read.step_str_return quote c }
{
    if c == '\n' {
        Some(State::Str(quote))
    } else {
        step_str(quote, c)
    }
}

#[tactic(auto, unfolding(crate::specs::Step::step_mark))]
fn step_mark(mark: Mark, c: char) -> Option<State>
    ensures { result ≡ read.step_mark mark c }
{
    match mark {
        Mark::FirstHash => only(c == '!', State::Shebang),
        Mark::Dot => step_dot(c),
        Mark::DotDot => only(c == '.', State::Mark(Mark::DotDotDot)),
        Mark::Bang => only(c == '=', State::BinOp(BinOpToken::NotEq)),
        Mark::QuestionMark => only(c == '?', State::BinOp(BinOpToken::NullishCoalescing)),
        _ => None,
    }
}

#[tactic(auto, unfolding(crate::specs::Step::only))]
fn only(goes_on: bool, state: State) -> Option<State>
    ensures { result ≡ read.only goes_on state }
{
    if goes_on { Some(state) } else { None }
}

#[tactic(auto, unfolding(crate::specs::Step::step_dot))]
fn step_dot(c: char) -> Option<State>
    ensures { result ≡ read.step_dot c }
{
    if is_digit(c) {
        Some(State::Number(Number::Fraction))
    } else {
        only(c == '.', State::Mark(Mark::DotDot))
    }
}

#[tactic(auto, unfolding(crate::specs::Step::step_assign_op))]
fn step_assign_op(op: AssignOp, c: char) -> Option<State>
    ensures { result ≡ read.step_assign_op op c }
{
    match op {
        AssignOp::Assign => if c == '>' {
            Some(State::Mark(Mark::Arrow))
        } else {
            only(c == '=', State::BinOp(BinOpToken::EqEq))
        },
        _ => None,
    }
}

#[tactic(auto, unfolding(crate::specs::Step::step_bin_op))]
fn step_bin_op(op: BinOpToken, c: char) -> Option<State>
    ensures { result ≡ read.step_bin_op op c }
{
    if c == '=' {
        with_equals(op)
    } else {
        doubled(op, c)
    }
}

/// An operator and `=`.
#[tactic(auto, unfolding(crate::specs::Step::with_equals))]
fn with_equals(op: BinOpToken) -> Option<State>
    ensures { result ≡ read.with_equals op }
{
    match op {
        BinOpToken::EqEq => Some(State::BinOp(BinOpToken::EqEqEq)),
        BinOpToken::NotEq => Some(State::BinOp(BinOpToken::NotEqEq)),
        BinOpToken::Lt => Some(State::BinOp(BinOpToken::LtEq)),
        BinOpToken::Gt => Some(State::BinOp(BinOpToken::GtEq)),
        BinOpToken::LShift => Some(State::AssignOp(AssignOp::LShiftAssign)),
        BinOpToken::RShift => Some(State::AssignOp(AssignOp::RShiftAssign)),
        BinOpToken::ZeroFillRShift => Some(State::AssignOp(AssignOp::ZeroFillRShiftAssign)),
        BinOpToken::Add => Some(State::AssignOp(AssignOp::AddAssign)),
        BinOpToken::Sub => Some(State::AssignOp(AssignOp::SubAssign)),
        BinOpToken::Mul => Some(State::AssignOp(AssignOp::MulAssign)),
        BinOpToken::Div => Some(State::AssignOp(AssignOp::DivAssign)),
        BinOpToken::Mod => Some(State::AssignOp(AssignOp::ModAssign)),
        BinOpToken::Exp => Some(State::AssignOp(AssignOp::ExpAssign)),
        BinOpToken::BitOr => Some(State::AssignOp(AssignOp::BitOrAssign)),
        BinOpToken::BitXor => Some(State::AssignOp(AssignOp::BitXorAssign)),
        BinOpToken::BitAnd => Some(State::AssignOp(AssignOp::BitAndAssign)),
        BinOpToken::LogicalOr => Some(State::AssignOp(AssignOp::OrAssign)),
        BinOpToken::LogicalAnd => Some(State::AssignOp(AssignOp::AndAssign)),
        BinOpToken::NullishCoalescing => Some(State::AssignOp(AssignOp::NullishAssign)),
        _ => None,
    }
}

/// An operator and the character that it ends with once more, or what a `/` begins.
#[tactic(auto, unfolding(crate::specs::Step::doubled))]
fn doubled(op: BinOpToken, c: char) -> Option<State>
    ensures { result ≡ read.doubled op c }
{
    match op {
        BinOpToken::Lt => only(c == '<', State::BinOp(BinOpToken::LShift)),
        BinOpToken::Gt => only(c == '>', State::BinOp(BinOpToken::RShift)),
        BinOpToken::RShift => only(c == '>', State::BinOp(BinOpToken::ZeroFillRShift)),
        BinOpToken::Add => only(c == '+', State::Mark(Mark::PlusPlus)),
        BinOpToken::Sub => only(c == '-', State::Mark(Mark::MinusMinus)),
        BinOpToken::Mul => only(c == '*', State::BinOp(BinOpToken::Exp)),
        BinOpToken::BitOr => only(c == '|', State::BinOp(BinOpToken::LogicalOr)),
        BinOpToken::BitAnd => only(c == '&', State::BinOp(BinOpToken::LogicalAnd)),
        BinOpToken::Div => if c == '/' {
            Some(State::LineComment)
        } else {
            only(c == '*', State::BlockComment(false))
        },
        _ => None,
    }
}
