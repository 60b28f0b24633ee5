//! What a parser answers, and the lines that say so.

use ecma_report::{Whole, lines_of_statement};
use ecma_row_format::asked::{Asked, Entry};
use ecma_row_format::faults::{write_fault, write_faults};
use ecma_row_format::lines::END;
use std::alloc::{AllocError, Global};
use std::fmt::Debug;
use swc_ecma_parser::Parser;
use swc_ecma_parser::ast::{Module, ModuleItem, Program, Script, Stmt};
use swc_ecma_parser::error::{Error, PResult, SyntaxError};
use swc_ecma_parser::input::Tokens;

/// The answer of one of the entries.
pub enum Answer {
    Script(PResult<Script>),
    Module(PResult<Module>),
    Program(PResult<Program>),
    Item(PResult<ModuleItem>),
    Statement(PResult<Stmt>),
}

/// Asks a parser once.
pub fn call<I: Tokens>(parser: &mut Parser<I>, asked: Asked) -> Answer {
    match asked.entry {
        Entry::Script => Answer::Script(parser.parse_script()),
        Entry::Module => Answer::Module(parser.parse_module()),
        Entry::Program => Answer::Program(parser.parse_program()),
        Entry::Item => Answer::Item(parser.parse_module_item()),
        Entry::Statement => Answer::Statement(parser.parse_stmt(asked.top_level)),
        Entry::ListItem => Answer::Statement(parser.parse_stmt_list_item(asked.top_level)),
    }
}

/// Drops the answer of an entry that reads a whole list or an item.
fn drop_whole<T: Whole>(answer: PResult<T>) {
    match answer {
        Ok(tree) => tree.let_go(),
        Err(error) => drop(error),
    }
}

/// Drops the answer of an entry that reads a statement.
fn drop_statement(answer: PResult<Stmt>) {
    match answer {
        Ok(tree) => tree.discard(),
        Err(error) => drop(error),
    }
}

/// Drops an answer.
pub fn discard(answer: Answer) {
    match answer {
        Answer::Script(answer) => drop_whole(answer),
        Answer::Module(answer) => drop_whole(answer),
        Answer::Program(answer) => drop_whole(answer),
        Answer::Item(answer) => drop_whole(answer),
        Answer::Statement(answer) => drop_statement(answer),
    }
}

/// The refusal of an answer, if it is one.
fn refusal_of<T>(answer: &PResult<T>) -> Option<&Error> {
    match answer {
        Ok(_) => None,
        Err(error) => Some(error),
    }
}

/// The refusal, if an answer is one.
pub fn refusal(answer: &Answer) -> Option<&Error> {
    match answer {
        Answer::Script(answer) => refusal_of(answer),
        Answer::Module(answer) => refusal_of(answer),
        Answer::Program(answer) => refusal_of(answer),
        Answer::Item(answer) => refusal_of(answer),
        Answer::Statement(answer) => refusal_of(answer),
    }
}

/// Whether memory ran out on the way to an answer.
pub fn lacks_memory(answer: &Answer) -> bool {
    match refusal(answer) {
        Some(error) => matches!(error.kind, SyntaxError::OutOfMemory),
        None => false,
    }
}

/// What was found, in texts.
#[derive(Debug, Drop)]
pub struct Found {
    /// The lines of each answer and of the faults beside it, each behind the other, with an end behind each.
    pub lines: String,
    /// The trees as `{:?}` prints them, one a line.
    pub trees: String,
    /// The lines of the faults that are held back behind all that.
    pub second: String,
}

/// Nothing yet.
pub fn nothing(alloc: Global) -> Found {
    Found {
        lines: String::new(alloc),
        trees: String::new(alloc),
        second: String::new(alloc),
    }
}

/// Prints a tree.
fn print_tree<T: Debug>(out: &mut String, answer: &PResult<T>) -> Result<(), AllocError> {
    match answer {
        Ok(tree) => writeln!(out, "{tree:?}"),
        Err(_) => Ok(()),
    }
}

/// Writes the lines of a tree, and the tree itself if that is wanted.
fn write_whole<T: Whole + Debug>(
    found: &mut Found,
    answer: &PResult<T>,
    prints: bool,
) -> Result<(), AllocError> {
    if let Ok(tree) = answer {
        tree.write(&mut found.lines)?;
    }
    if prints {
        print_tree(&mut found.trees, answer)?;
    }
    Ok(())
}

/// The same of a statement.
fn write_statement(
    alloc: Global,
    found: &mut Found,
    answer: &PResult<Stmt>,
    prints: bool,
) -> Result<(), AllocError> {
    if answer.is_ok() {
        let lines = lines_of_statement(alloc, answer, &[])?;
        found.lines.push_str(lines.as_str())?;
    }
    if prints {
        print_tree(&mut found.trees, answer)?;
    }
    Ok(())
}

/// Writes an answer's tree.
fn write_tree(
    alloc: Global,
    found: &mut Found,
    answer: &Answer,
    prints: bool,
) -> Result<(), AllocError> {
    match answer {
        Answer::Script(answer) => write_whole(found, answer, prints),
        Answer::Module(answer) => write_whole(found, answer, prints),
        Answer::Program(answer) => write_whole(found, answer, prints),
        Answer::Item(answer) => write_whole(found, answer, prints),
        Answer::Statement(answer) => write_statement(alloc, found, answer, prints),
    }
}

/// Writes an answer and the faults beside it.
pub fn write_answer(
    alloc: Global,
    found: &mut Found,
    answer: &Answer,
    faults: &[Error],
    prints: bool,
) -> Result<(), AllocError> {
    write_tree(alloc, found, answer, prints)?;
    write_faults(&mut found.lines, "fault ", faults)?;
    if let Some(error) = refusal(answer) {
        write_fault(&mut found.lines, "refused ", error)?;
    }
    found.lines.push_str(END)
}

/// Asks a parser once, and writes what it answers.
fn ask<I: Tokens>(
    alloc: Global,
    found: &mut Found,
    parser: &mut Parser<I>,
    asked: Asked,
) -> Result<(), AllocError> {
    let answer = call(parser, asked);
    let faults = parser.take_errors();
    let written = write_answer(alloc, found, &answer, faults.as_slice(), asked.prints);
    discard(answer);
    written
}

/// Asks a parser as often as is wanted.
pub fn ask_all<I: Tokens>(
    alloc: Global,
    found: &mut Found,
    parser: &mut Parser<I>,
    asked: Asked,
) -> Result<(), AllocError> {
    for _ in 0..asked.times {
        ask(alloc, found, parser, asked)?;
    }
    Ok(())
}
