//! Statements as values of the example's own type, through its bounds.

ghost use Rattle.std.specs.Prelude.{◌≡◌};

use crate::{Part, is_strict, keep, parts};
use std::alloc::{AllocError, Global};
use std::marker::Brand;
use std::test::Fail;
use swc_ecma_parser_ast::{
    Atom, BlockStmt, BlockStmtOrExpr, BytePos, Decl, EmptyStmt, Expr, ExprBox, ExprStmt, Lit, Span,
    Spanned, Stmt, StmtBox, Str, VarDecl, VarDeclKind,
};
use swc_ecma_parser_ast_trees::Ast;
use swc_ecma_parser_error::PResult;
use swc_ecma_parser_function_bodies::FnBodyParser;
use swc_ecma_parser_functions::function::Manner;
use swc_ecma_parser_grammar::Position;
use swc_ecma_parser_input::{Syntax, Tokens};
use swc_ecma_parser_lexer::{Lexer, StringInput};
use swc_ecma_parser_output_readers::{Levels, ListEnd, block_body};
use swc_ecma_parser_state::{Call, Origin, State};
use swc_ecma_parser_trees::{Maker, MakerOf};

fn span(low: u32, high: u32) -> Span {
    Span::new(BytePos(low), BytePos(high))
}

/// A string that is written so, as a statement.
fn string(alloc: Global, raw: &str) -> Result<Stmt, AllocError> {
    let raw = Atom::new(alloc, raw)?;
    let value = Atom::new(alloc, "")?;
    let span = span(0, 12);
    let expr = ExprBox::new(alloc, Expr::Lit(Lit::Str(Str { span, value, raw })))?;
    Ok(Stmt::Expr(ExprStmt { span, expr }))
}

/// `var` with nothing behind it, as a statement.
fn variables(alloc: Global) -> Stmt {
    Stmt::Decl(Decl::Var(VarDecl {
        span: span(12, 15),
        kind: VarDeclKind::Var,
        decls: Vec::new(alloc),
    }))
}

fn empty() -> Stmt {
    let span = span(15, 16);
    Stmt::Empty(EmptyStmt { span })
}

#[test]
fn a_directive_among_the_first_strings_says_that_code_is_strict(
    rt: HostRuntime,
) -> Result<(), Fail> {
    let alloc = rt.alloc();
    let mut parts: Vec<Part> = Vec::new(alloc);
    keep::<Ast, Part>(alloc, &mut parts, string(alloc, "'a'")?)?;
    assert!(rt; !is_strict(parts.as_slice()));
    keep::<Ast, Part>(alloc, &mut parts, string(alloc, "'use strict'")?)?;
    assert!(rt; is_strict(parts.as_slice()));
    Ok(())
}

#[test]
fn behind_a_declaration_a_string_is_no_directive(rt: HostRuntime) -> Result<(), Fail> {
    let alloc = rt.alloc();
    let mut parts: Vec<Part> = Vec::new(alloc);
    keep::<Ast, Part>(alloc, &mut parts, variables(alloc))?;
    keep::<Ast, Part>(alloc, &mut parts, string(alloc, "'use strict'")?)?;
    assert!(rt; !is_strict(parts.as_slice()));
    assert_eq!(rt; parts.len(), 2);
    match &parts[0] {
        Part::Declaration(_) => {}
        Part::Other(_) => assert!(rt; false),
    }
    Ok(())
}

#[test]
fn an_empty_statement_ends_the_directives(rt: HostRuntime) -> Result<(), Fail> {
    let alloc = rt.alloc();
    let mut parts: Vec<Part> = Vec::new(alloc);
    keep::<Ast, Part>(alloc, &mut parts, empty())?;
    keep::<Ast, Part>(alloc, &mut parts, string(alloc, "\"use strict\"")?)?;
    assert!(rt; !is_strict(parts.as_slice()));
    Ok(())
}

/// A parser of a text.
fn opened(alloc: Global, text: &str) -> Result<State<Lexer<'_>>, Fail> {
    if text.len() > 1_000 {
        return Err("too long")?;
    }
    let end = BytePos(text.len() as u32);
    let input = StringInput::new(text, BytePos(0), end);
    let lexer = Lexer::new(alloc, Syntax::default(), input, false);
    Ok(State::new(alloc, lexer))
}

#[test]
fn a_text_is_read_as_parts(rt: HostRuntime) -> Result<(), Fail> {
    let alloc = rt.alloc();
    let state = opened(alloc, "'use strict'; var a; b()")?;
    let (_state, read) = parts(alloc, state, 100);
    let parts = read?;
    assert_eq!(rt; parts.len(), 3);
    assert!(rt; is_strict(parts.as_slice()));
    match &parts[1] {
        Part::Declaration(_) => {}
        Part::Other(_) => assert!(rt; false),
    }
    match &parts[2] {
        Part::Declaration(_) => assert!(rt; false),
        Part::Other(_) => {}
    }
    Ok(())
}

#[test]
fn an_export_is_no_part(rt: HostRuntime) -> Result<(), Fail> {
    let alloc = rt.alloc();
    let state = opened(alloc, "a; export {}")?;
    let (_state, read) = parts(alloc, state, 100);
    assert!(rt; read.is_err());
    Ok(())
}

/// What stands in a block, up to its `}`, as handles of statements, in a call that begins here.
fn handles_from<O: Origin, I: Tokens>(
    alloc: Global,
    state: State<I>,
) -> (State<I>, PResult<Vec<StmtBox>>)
    requires { O.start ≡ state }
{
    let mut call = state.begin::<O>();
    let maker: MakerOf<Ast> = Maker::new(alloc);
    let at = Position {
        include_decl: true,
        top_level: false,
    };
    let end = ListEnd::Brace;
    let read = block_body::<Call<O, I>, Ast, StmtBox>(&maker, &mut call, 100, at, end, false);
    maker.finish();
    (call.end(), read)
}

fn handles<I: Tokens>(alloc: Global, state: State<I>) -> (State<I>, PResult<Vec<StmtBox>>) {
    handles_from::<Brand, I>(alloc, state)
}

#[test]
fn the_body_of_a_block_is_read_as_handles(rt: HostRuntime) -> Result<(), Fail> {
    let alloc = rt.alloc();
    let state = opened(alloc, "a; let b; } c")?;
    let (_state, read) = handles(alloc, state);
    let found = read?;
    assert_eq!(rt; found.len(), 2);
    Ok(())
}

/// What reads in a hundred levels.
const LEVELS: Levels = Levels { depth: 100 };

/// A function that is neither async nor a generator.
const PLAIN: Manner = Manner {
    is_async: false,
    is_generator: false,
};

/// How many statements stand in a block.
fn count(body: &BlockStmt) -> usize {
    match body.stmts.get() {
        Some(stmts) => stmts.len(),
        None => 0,
    }
}

/// The body of a function, from its `{` on, in a call that begins here.
fn block_from<O: Origin, I: Tokens>(
    alloc: Global,
    state: State<I>,
    is_simple: bool,
) -> (State<I>, PResult<Option<BlockStmt>>)
    requires { O.start ≡ state }
{
    let mut call = state.begin::<O>();
    let maker: MakerOf<Ast> = Maker::new(alloc);
    let read = FnBodyParser::<Ast, Option<BlockStmt>>::parse_fn_body_inner(
        &mut call, &LEVELS, &maker, PLAIN, is_simple,
    );
    maker.finish();
    (call.end(), read)
}

fn block<I: Tokens>(
    alloc: Global,
    state: State<I>,
    is_simple: bool,
) -> (State<I>, PResult<Option<BlockStmt>>) {
    block_from::<Brand, I>(alloc, state, is_simple)
}

#[test]
fn the_body_of_a_function_is_read_as_a_block(rt: HostRuntime) -> Result<(), Fail> {
    let alloc = rt.alloc();
    let state = opened(alloc, "{ a; return b } c")?;
    let (mut state, read) = block(alloc, state, true);
    match read? {
        Some(body) => assert_eq!(rt; count(&body), 2),
        None => assert!(rt; false),
    }
    assert_eq!(rt; state.take_errors().len(), 0);
    Ok(())
}

#[test]
fn a_strict_body_of_parameters_that_are_no_plain_names_is_a_fault(
    rt: HostRuntime,
) -> Result<(), Fail> {
    let alloc = rt.alloc();
    let state = opened(alloc, "{ 'use strict' }")?;
    let (mut state, read) = block(alloc, state, false);
    assert!(rt; read.is_ok());
    let faults = state.take_errors();
    assert_eq!(rt; faults.len(), 1);
    Ok(())
}

/// The body of an arrow function, in a call that begins here.
fn arrow_from<O: Origin, I: Tokens>(
    alloc: Global,
    state: State<I>,
) -> (State<I>, PResult<Box<BlockStmtOrExpr>>)
    requires { O.start ≡ state }
{
    let mut call = state.begin::<O>();
    let maker: MakerOf<Ast> = Maker::new(alloc);
    let read = FnBodyParser::<Ast, Box<BlockStmtOrExpr>>::parse_fn_body_inner(
        &mut call, &LEVELS, &maker, PLAIN, true,
    );
    maker.finish();
    (call.end(), read)
}

fn arrow<I: Tokens>(alloc: Global, state: State<I>) -> (State<I>, PResult<Box<BlockStmtOrExpr>>) {
    arrow_from::<Brand, I>(alloc, state)
}

#[test]
fn the_body_of_an_arrow_function_is_a_block_or_an_expression(rt: HostRuntime) -> Result<(), Fail> {
    let alloc = rt.alloc();
    let (_state, read) = arrow(alloc, opened(alloc, "{ a }")?);
    match &*read? {
        BlockStmtOrExpr::BlockStmt(body) => assert_eq!(rt; count(body), 1),
        BlockStmtOrExpr::Expr(_) => assert!(rt; false),
    }
    let (_state, read) = arrow(alloc, opened(alloc, "a + b, c")?);
    match &*read? {
        BlockStmtOrExpr::BlockStmt(_) => assert!(rt; false),
        BlockStmtOrExpr::Expr(body) => assert_eq!(rt; body.span(), span(0, 5)),
    }
    Ok(())
}
