//! Lists that are broken at one place: an error token or a stray bracket stands there, or the list is cut. Each entry is asked three
//! times over each such list.

use ecma_row_format::asked::{Asked, ENTRIES};
use ecma_row_format::row::{asked, is_of_tokens, read, text};
use ecma_row_format::tally::Tally;
use ecma_texts::answers::{Answer, call, discard, lacks_memory, refusal};
use ecma_texts::sources::{error_at, let_go, listed, tokens};
use serde_json::Value;
use std::alloc::{AllocError, Global};
use swc_ecma_parser::Parser;
use swc_ecma_parser::ast::{Module, ModuleItem, Program, Script, Stmt};
use swc_ecma_parser::common::{BytePos, Span, Spanned};
use swc_ecma_parser::error::SyntaxError;
use swc_ecma_parser::input::{Context, TokensInput};
use swc_ecma_parser::token::{Token, TokenAndSpan};

/// The longest list that is broken.
const LONGEST: usize = 100;

/// The levels within which lists are read.
const LIMIT: u32 = 1000;

/// How a list is broken.
#[derive(Clone, Copy, Debug)]
enum Break {
    Error,
    Paren,
    Bracket,
    Brace,
    Cut,
}

/// Each way.
const BREAKS: [Break; 5] = [
    Break::Error,
    Break::Paren,
    Break::Bracket,
    Break::Brace,
    Break::Cut,
];

/// Where a node ends that runs forward from a place on.
fn end_of(span: Span, from: BytePos) -> Option<BytePos> {
    if span.lo < from || span.hi < span.lo {
        return None;
    }
    Some(span.hi)
}

/// Where the last of some statements ends, if they run forward.
fn end_of_statements(statements: &[Stmt], from: BytePos) -> Option<BytePos> {
    let mut end = from;
    for statement in statements {
        end = end_of(statement.span(), end)?;
    }
    Some(end)
}

/// Where the last of some items ends, if they run forward.
fn end_of_items(items: &[ModuleItem], from: BytePos) -> Option<BytePos> {
    let mut end = from;
    for item in items {
        end = end_of(item.span(), end)?;
    }
    Some(end)
}

/// Where a whole ends that runs forward from a place on and whose last item ends in it, if its items run forward.
fn end_of_whole(span: Span, items: Option<BytePos>, from: BytePos) -> Option<BytePos> {
    let end = end_of(span, from)?;
    if items? > end {
        return None;
    }
    Some(end)
}

/// Where a script ends, if it runs forward.
fn end_of_script(script: &Script, from: BytePos) -> Option<BytePos> {
    let items = end_of_statements(script.body.as_slice(), script.span.lo);
    end_of_whole(script.span, items, from)
}

/// Where a module ends, if it runs forward.
fn end_of_module(module: &Module, from: BytePos) -> Option<BytePos> {
    let items = end_of_items(module.body.as_slice(), module.span.lo);
    end_of_whole(module.span, items, from)
}

/// Where a program ends, if it runs forward.
fn end_of_program(program: &Program, from: BytePos) -> Option<BytePos> {
    match program {
        Program::Module(module) => end_of_module(module, from),
        Program::Script(script) => end_of_script(script, from),
    }
}

/// Where an answer ends, if it runs forward; where it begins, if it is a refusal.
fn end_of_answer(answer: &Answer, from: BytePos) -> Option<BytePos> {
    match answer {
        Answer::Script(Ok(script)) => end_of_script(script, from),
        Answer::Module(Ok(module)) => end_of_module(module, from),
        Answer::Program(Ok(program)) => end_of_program(program, from),
        Answer::Item(Ok(item)) => end_of(item.span(), from),
        Answer::Statement(Ok(statement)) => end_of(statement.span(), from),
        _ => Some(from),
    }
}

/// What a parser is in before a call.
#[derive(Clone, Copy)]
struct Before {
    context: Context,
    found_module_item: bool,
    end: BytePos,
}

/// What a parser is in before a call, where what it read ended here.
fn seen_before(parser: &Parser<TokensInput>, end: BytePos) -> Before {
    let state = parser.state();
    Before {
        context: state.flags(),
        found_module_item: state.found_module_item(),
        end,
    }
}

/// What a refusal has not set back.
fn left_changed(parser: &Parser<TokensInput>, before: Before) -> Option<&'static str> {
    let state = parser.state();
    if !state.labels().is_empty() {
        return Some("a label is left");
    }
    if state.flags() != before.context || state.found_module_item() != before.found_module_item {
        return Some("another context");
    }
    None
}

/// What is wrong with an answer, and where it ends.
fn judged(
    parser: &Parser<TokensInput>,
    before: Before,
    answer: &Answer,
) -> (Option<&'static str>, BytePos) {
    if lacks_memory(answer) {
        return (Some("no memory"), before.end);
    }
    if refusal(answer).is_some() {
        return (left_changed(parser, before), before.end);
    }
    match end_of_answer(answer, before.end) {
        Some(end) => (None, end),
        None => (Some("not forward"), before.end),
    }
}

/// Takes the faults of a parser, and tells whether some are left.
fn leaves_faults(parser: &mut Parser<TokensInput>) -> bool {
    let_go(parser.take_errors());
    let left = parser.take_errors();
    let is_left = !left.is_empty();
    let_go(left);
    is_left
}

/// Asks a parser once; what is wrong with the answer, and where it ends.
fn ask(
    parser: &mut Parser<TokensInput>,
    asked: Asked,
    end: BytePos,
) -> (Option<&'static str>, BytePos) {
    let before = seen_before(parser, end);
    let answer = call(parser, asked);
    let (flaw, end) = judged(parser, before, &answer);
    discard(answer);
    if leaves_faults(parser) {
        return (Some("a fault is left"), end);
    }
    (flaw, end)
}

/// Asks a parser three times; what is wrong with an answer.
fn ask_thrice(parser: &mut Parser<TokensInput>, asked: Asked) -> Option<&'static str> {
    let (first, end) = ask(parser, asked, BytePos(0));
    let (second, end) = ask(parser, asked, end);
    let (third, _) = ask(parser, asked, end);
    first.or(second).or(third)
}

/// Asks an entry three times over a list; what is wrong with an answer.
fn flaw(alloc: Global, tokens: Vec<TokenAndSpan>, asked: Asked) -> Option<&'static str> {
    let list = listed(alloc, tokens, asked);
    let mut parser = Parser::new_from_limited(alloc, list, LIMIT);
    let flaw = ask_thrice(&mut parser, asked);
    let_go(parser);
    flaw
}

/// A bracket of no width.
fn bracket_at(at: BytePos, token: Token) -> TokenAndSpan {
    TokenAndSpan {
        token,
        had_line_break: false,
        span: Span { lo: at, hi: at },
    }
}

/// What stands at the place where a list is broken, if anything does.
fn inserted(how: Break, at: BytePos) -> Option<TokenAndSpan> {
    match how {
        Break::Error => Some(error_at(at.0, at.0, SyntaxError::UnexpectedChar)),
        Break::Paren => Some(bracket_at(at, Token::RParen)),
        Break::Bracket => Some(bracket_at(at, Token::RBracket)),
        Break::Brace => Some(bracket_at(at, Token::RBrace)),
        Break::Cut => None,
    }
}

/// Copies tokens behind others, and tells where they end.
fn copy_all(
    list: &mut Vec<TokenAndSpan>,
    tokens: &[TokenAndSpan],
    end: BytePos,
) -> Result<BytePos, AllocError> {
    let mut end = end;
    for token in tokens {
        end = token.span.hi;
        match token.try_clone() {
            Ok(copy) => list.push(copy)?,
            Err(_) => return Err(AllocError),
        }
    }
    Ok(end)
}

/// Writes the tokens of a list that is broken between two parts.
fn write_broken(
    list: &mut Vec<TokenAndSpan>,
    front: &[TokenAndSpan],
    rest: &[TokenAndSpan],
    how: Break,
) -> Result<(), AllocError> {
    let start = match rest.first() {
        Some(first) => first.span.lo,
        None => BytePos(0),
    };
    let at = copy_all(list, front, start)?;
    match inserted(how, at) {
        Some(token) => {
            list.push(token)?;
            copy_all(list, rest, at)?;
            Ok(())
        }
        None => Ok(()),
    }
}

/// Writes what is wrong where an entry reads a list that is broken between two parts, if something is; and tells whether nothing is.
fn try_entry(
    alloc: Global,
    out: &mut String,
    front: &[TokenAndSpan],
    rest: &[TokenAndSpan],
    how: Break,
    asked: Asked,
) -> Result<bool, AllocError> {
    let mut list = Vec::new(alloc);
    let written = write_broken(&mut list, front, rest, how);
    let flaw = flaw(alloc, list, asked);
    written?;
    if let Some(flaw) = flaw {
        let place = front.len();
        let entry = asked.entry;
        writeln!(out, "  {how:?} at {place}, {entry:?}: {flaw}")?;
    }
    Ok(flaw.is_none())
}

/// The same of each entry.
fn try_entries(
    alloc: Global,
    out: &mut String,
    front: &[TokenAndSpan],
    rest: &[TokenAndSpan],
    how: Break,
    asked: Asked,
) -> Result<bool, AllocError> {
    let mut holds = true;
    for entry in ENTRIES {
        let asked = Asked { entry, ..asked };
        holds = try_entry(alloc, out, front, rest, how, asked)? && holds;
    }
    Ok(holds)
}

/// Breaks a list between two parts in each way.
fn break_between(
    alloc: Global,
    out: &mut String,
    tally: &mut Tally,
    front: &[TokenAndSpan],
    rest: &[TokenAndSpan],
    asked: Asked,
) -> Result<(), AllocError> {
    for how in BREAKS {
        tally.count(try_entries(alloc, out, front, rest, how, asked)?);
    }
    Ok(())
}

/// Breaks a list at each place.
fn break_list(
    alloc: Global,
    out: &mut String,
    tally: &mut Tally,
    tokens: &[TokenAndSpan],
    asked: Asked,
) -> Result<(), AllocError> {
    for place in 0..=tokens.len() {
        if let Some((front, rest)) = tokens.split_at_checked(place) {
            break_between(alloc, out, tally, front, rest, asked)?;
        }
    }
    Ok(())
}

/// Breaks the list of a row, if it is not too long.
fn break_row(
    alloc: Global,
    out: &mut String,
    tally: &mut Tally,
    row: &Value,
    asked: Asked,
) -> Result<(), AllocError> {
    let text = text(alloc, row)?;
    let tokens = tokens(alloc, row, text.as_str(), asked)?;
    if tokens.len() > LONGEST {
        let_go(tokens);
        return Ok(());
    }
    let broken = break_list(alloc, out, tally, tokens.as_slice(), asked);
    let_go(tokens);
    broken
}

/// Breaks the list of the row in a line; what is wrong stands behind the line.
fn break_line(
    alloc: Global,
    out: &mut String,
    tally: &mut Tally,
    line: &str,
) -> Result<(), AllocError> {
    let Some(row) = read(alloc, line)? else {
        return Ok(());
    };
    if is_of_tokens(&row) {
        return Ok(());
    }
    let Some(asked) = asked(&row) else {
        return Ok(());
    };
    let mut wrong = String::new(alloc);
    break_row(alloc, &mut wrong, tally, &row, asked)?;
    if !wrong.is_empty() {
        write!(out, "not {line}\n{wrong}")?;
    }
    Ok(())
}

/// Breaks the lists of one row of each so many.
pub fn break_rows(
    alloc: Global,
    out: &mut String,
    rows: &str,
    every: u64,
) -> Result<Tally, AllocError> {
    let mut tally = Tally::default();
    let mut left = 0u64;
    for line in rows.lines() {
        if left == 0 {
            break_line(alloc, out, &mut tally, line)?;
            left = every;
        }
        left = left.saturating_sub(1);
    }
    Ok(tally)
}
