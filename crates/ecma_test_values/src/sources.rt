//! Lists of tokens as sources, buffers over them, and what a source keeps. What a call finds is written into a text.

use crate::check::{count, expect, found, let_go, made, note, shows};
use crate::places::span;
use std::alloc::{AllocError, Global};
use swc_ecma_parser_common::BytePos;
use swc_ecma_parser_error::{Error, SyntaxError};
use swc_ecma_parser_input::{
    Buffer, Capturing, Context, EsSyntax, FaultLists, Syntax, Tokens, TokensInput,
    is_out_of_memory, out_of_memory, spans_ordered,
};
use swc_ecma_parser_token::{Token, TokenAndSpan};

fn place(token: Token, low: u32, high: u32) -> TokenAndSpan {
    TokenAndSpan {
        token,
        had_line_break: false,
        span: span(low, high),
    }
}

/// The tokens of `;{}`, from 5 on.
fn put(tokens: &mut Vec<TokenAndSpan>) -> Result<(), AllocError> {
    made(tokens.push(place(Token::Semi, 5, 6)))?;
    made(tokens.push(place(Token::LBrace, 6, 7)))?;
    made(tokens.push(place(Token::RBrace, 7, 8)))
}

/// An error token that says that memory ran out.
fn put_want(tokens: &mut Vec<TokenAndSpan>) -> Result<(), AllocError> {
    let error = out_of_memory(span(5, 6));
    made(tokens.push(place(Token::Error(error), 5, 6)))
}

/// A source of tokens, if they were put.
fn source_of(
    alloc: Global,
    tokens: Vec<TokenAndSpan>,
    are_put: bool,
) -> Result<TokensInput, AllocError> {
    if are_put && spans_ordered(tokens.as_slice()) {
        let plain = Context::default();
        return Ok(TokensInput::new(alloc, tokens, plain, Syntax::default()));
    }
    let_go(tokens);
    Err(AllocError)
}

/// A source of the tokens of `;{}`.
fn list(alloc: Global) -> Result<TokensInput, AllocError> {
    let mut tokens = Vec::new(alloc);
    let are_put = put(&mut tokens).is_ok();
    source_of(alloc, tokens, are_put)
}

/// A source of that error token.
fn want(alloc: Global) -> Result<TokensInput, AllocError> {
    let mut tokens = Vec::new(alloc);
    let is_put = put_want(&mut tokens).is_ok();
    source_of(alloc, tokens, is_put)
}

fn write_token(out: &mut String, found: TokenAndSpan) -> Result<(), AllocError> {
    let shown = (found.token.kind(), found.span.lo.0, found.span.hi.0);
    let_go(found);
    note(out, shown)
}

/// Writes the kinds and places of the tokens of a source.
fn write_drawn<I: Tokens>(out: &mut String, source: &mut I) -> Result<(), AllocError> {
    for _ in 0..10 {
        match source.next() {
            Some(token) => write_token(out, token)?,
            None => break,
        }
    }
    out.push_str("|\n")
}

fn fault(kind: SyntaxError) -> Error {
    Error {
        span: span(6, 6),
        kind,
    }
}

fn write_each(out: &mut String, faults: &[Error]) -> Result<(), AllocError> {
    for fault in faults {
        note(out, fault.kind.name())?;
    }
    out.push_str("|\n")
}

fn write_names(out: &mut String, faults: Vec<Error>) -> Result<(), AllocError> {
    let written = write_each(out, faults.as_slice());
    let_go(faults);
    written
}

/// Writes the faults that a source hands out while the code is a script's, and those more once it is a module's.
fn write_recorded<I: Tokens>(out: &mut String, source: &mut I) -> Result<(), AllocError> {
    made(source.add_error(fault(SyntaxError::Eof)))?;
    made(source.add_module_mode_error(fault(SyntaxError::TS1005)))?;
    write_names(out, source.take_errors())?;
    let mut context = source.ctx();
    context.module = true;
    source.set_ctx(context);
    made(source.add_module_mode_error(fault(SyntaxError::TS1009)))?;
    write_names(out, source.take_errors())
}

/// Writes where a source starts and whether its settings are plain, what its copy hands out, and then what it does.
fn write_source<I: Tokens>(out: &mut String, source: &mut I) -> Result<(), AllocError> {
    let has_no_context = source.ctx() == Context::default();
    let is_plain = source.syntax() == Syntax::default();
    note(out, (source.start_pos().0, has_no_context, is_plain))?;
    let mut copy = made(source.try_clone())?;
    write_drawn(out, &mut copy)?;
    write_drawn(out, source)?;
    write_recorded(out, source)
}

const SOURCE: &str = r#"(5, true, true)
(Semi, 5, 6)
(LBrace, 6, 7)
(RBrace, 7, 8)
|
(Semi, 5, 6)
(LBrace, 6, 7)
(RBrace, 7, 8)
|
"Eof"
|
"TS1005"
"TS1009"
|
"#;

fn write_list(out: &mut String, alloc: Global) -> Result<(), AllocError> {
    write_source(out, &mut list(alloc)?)
}

#[test]
fn a_list_is_drawn_and_copied(rt: HostRuntime) {
    let mut out = String::new(rt.alloc());
    let written = write_list(&mut out, rt.alloc());
    expect(&rt, out, written, SOURCE);
}

/// Whether tokens are in order, and whether they are the other way round.
fn orders(alloc: Global) -> Result<(bool, bool), AllocError> {
    let mut tokens = Vec::new(alloc);
    let are_put = put(&mut tokens);
    let before = spans_ordered(tokens.as_slice());
    tokens.reverse();
    let behind = spans_ordered(tokens.as_slice());
    let_go(tokens);
    are_put?;
    Ok((before, behind))
}

#[test]
fn another_order_is_noticed(rt: HostRuntime) {
    shows(&rt, rt.alloc(), orders(rt.alloc()), "Ok((true, false))\n");
}

/// How many tokens a source has kept, how many it has then, and how many its copy.
fn kept<I: Tokens>(source: &mut Capturing<I>) -> Result<(usize, usize, usize), AllocError> {
    let mut copy = made(source.try_clone())?;
    let kept = count(source.take());
    let left = count(source.take());
    let copied = count(copy.take());
    let_go(copy);
    Ok((kept, left, copied))
}

#[test]
fn copies_are_kept_of_what_is_drawn(rt: HostRuntime) {
    let mut out = String::new(rt.alloc());
    let mut source = Capturing::new(rt.alloc(), found(&rt, list(rt.alloc())));
    let written = write_source(&mut out, &mut source);
    expect(&rt, out, written, SOURCE);
    shows(&rt, rt.alloc(), kept(&mut source), "Ok((3, 0, 3))\n");
    let_go(source);
}

#[test]
fn a_drawn_want_of_memory_is_kept(rt: HostRuntime) {
    let mut out = String::new(rt.alloc());
    let mut source = Capturing::new(rt.alloc(), found(&rt, want(rt.alloc())));
    let written = write_drawn(&mut out, &mut source);
    expect(&rt, out, written, "(Error, 5, 6)\n|\n");
    shows(&rt, rt.alloc(), kept(&mut source), "Ok((1, 0, 1))\n");
    let_go(source);
}

fn write_kind(out: &mut String, token: Option<&TokenAndSpan>) -> Result<(), AllocError> {
    match token {
        Some(token) => note(out, token.token.kind()),
        None => out.push_str("None\n"),
    }
}

/// Writes the kinds of the two tokens ahead, and the place of the one behind.
fn write_ahead<I: Tokens>(out: &mut String, buffer: &Buffer<I>) -> Result<(), AllocError> {
    write_kind(out, buffer.cur())?;
    write_kind(out, buffer.peek())?;
    let last = buffer.last_span();
    note(out, (last.lo.0, last.hi.0))
}

/// Writes what is ahead of a buffer, then one token on, and in a copy.
fn write_steps<I: Tokens>(out: &mut String, buffer: &mut Buffer<I>) -> Result<(), AllocError> {
    note(
        out,
        (buffer.is_out_of_memory(), buffer.cur_is_out_of_memory()),
    )?;
    write_ahead(out, buffer)?;
    let_go(buffer.bump());
    write_ahead(out, buffer)?;
    let copy = made(buffer.try_clone())?;
    let written = write_ahead(out, &copy);
    let_go(copy);
    written
}

#[test]
fn a_buffer_is_two_tokens_ahead(rt: HostRuntime) {
    let mut out = String::new(rt.alloc());
    let mut buffer = Buffer::new(found(&rt, list(rt.alloc())));
    let written = write_steps(&mut out, &mut buffer);
    let_go(buffer);
    let wanted =
        "(false, false)\nSemi\nLBrace\n(5, 5)\nLBrace\nRBrace\n(5, 6)\nLBrace\nRBrace\n(5, 6)\n";
    expect(&rt, out, written, wanted);
}

/// How many faults a buffer hands out, and then.
fn recorded<I: Tokens>(buffer: &mut Buffer<I>) -> Result<(usize, usize), AllocError> {
    made(buffer.add_error(fault(SyntaxError::Eof)))?;
    made(buffer.add_module_mode_error(fault(SyntaxError::TS1005)))?;
    let found = count(buffer.take_errors());
    Ok((found, count(buffer.take_errors())))
}

/// Sets the context of a buffer: whether it has it then, whether its syntax is plain, and where it starts.
fn set<I: Tokens>(buffer: &mut Buffer<I>, context: Context) -> (bool, bool, u32) {
    buffer.set_ctx(context);
    let is_plain = buffer.syntax() == Syntax::default();
    (buffer.ctx() == context, is_plain, buffer.start_pos().0)
}

#[test]
fn a_buffer_records_faults_and_gives_its_source_back(rt: HostRuntime) {
    let mut out = String::new(rt.alloc());
    let mut buffer = Buffer::new(found(&rt, list(rt.alloc())));
    let strict = Context {
        strict: true,
        ..buffer.ctx()
    };
    let shown = (recorded(&mut buffer), set(&mut buffer, strict));
    let mut source = buffer.into_input();
    let is_kept = source.ctx() == strict;
    let written = write_drawn(&mut out, &mut source);
    let_go(source);
    expect(&rt, out, written, "(RBrace, 7, 8)\n|\n");
    shows(
        &rt,
        rt.alloc(),
        (shown, is_kept),
        "((Ok((1, 0)), (true, true, 5)), true)\n",
    );
}

#[test]
fn a_want_of_memory_is_known(rt: HostRuntime) {
    let error = out_of_memory(span(5, 6));
    let is_placed = error.span() == span(5, 6);
    let token = Token::Error(error);
    let is_known = is_out_of_memory(&token);
    let_go(token);
    let semicolon = Token::Semi;
    let is_other_known = is_out_of_memory(&semicolon);
    let_go(semicolon);
    let found = (is_placed, is_known, is_other_known);
    shows(&rt, rt.alloc(), found, "(true, true, false)\n");
}

/// How many faults a list hands out, and how many its copy does once the code is a module's.
fn counts(lists: &mut FaultLists) -> Result<(usize, usize), AllocError> {
    lists.add(fault(SyntaxError::Eof))?;
    lists.hold_back(fault(SyntaxError::TS1005))?;
    let mut copy = lists.try_clone()?;
    copy.release();
    let copied = count(copy.take());
    let_go(copy);
    Ok((count(lists.take()), copied))
}

#[test]
fn lists_of_faults_are_copied(rt: HostRuntime) {
    let mut lists = FaultLists::new(rt.alloc());
    shows(&rt, rt.alloc(), counts(&mut lists), "Ok((1, 2))\n");
    let_go(lists);
}

#[test]
fn settings_compare(rt: HostRuntime) {
    let plain = EsSyntax::default();
    let decorated = EsSyntax {
        decorators: true,
        ..plain
    };
    let strict = Context {
        strict: true,
        ..Context::default()
    };
    let found = [
        Syntax::default().es() == plain,
        Syntax::Es(decorated) != Syntax::default(),
        strict != Context::default(),
    ];
    shows(&rt, rt.alloc(), found, "[true, true, true]\n");
}
