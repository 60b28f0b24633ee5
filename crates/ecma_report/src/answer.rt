//! How a parse ends.

ghost use Rattle.std.specs.Prelude.{◌≡◌, ◌<◌, ◌^◌, false, IfOk, IfErr, [], Ok, length, string_bytes};
ghost use Rattle.swc_ecma_parser_error.specs.Kind.{faults_of, IsOutOfMemory};
ghost use Rattle.swc_ecma_parser_input.specs.Place as place;
ghost use Rattle.swc_ecma_parser_model.specs.Tree.{Tree};
ghost use Rattle.ecma_report.specs.Lines.{seen, answer_lines};
ghost use Rattle.ecma_report.specs.Spelled.{start_of, Spells, SpellsModule, SpellsProgram, SpellsAs};
ghost use Rattle.ecma_report.specs.Verdicts.{verdict_of};

use crate::lines::{Whole, lines};
use std::alloc::{AllocError, Global};
use swc_ecma_parser::Parser;
use swc_ecma_parser::common::BytePos;
use swc_ecma_parser::error::{Error, PResult, SyntaxError};
use swc_ecma_parser::input::{Syntax, Tokens};
use swc_ecma_parser::lexer::{Lexer, StringInput};

/// What a text is read as: a goal symbol of ECMA-262, section 5.1.4, or whichever of the two it turns out to be.
#[derive(Clone, Copy, Debug, PartialEq, Eq)]
pub enum Goal {
    Script,
    Module,
    Program,
}

/// How a parse ends.
#[derive(Clone, Copy, Debug, PartialEq, Eq)]
pub enum Verdict {
    /// A tree.
    Clean,
    /// A tree, and faults beside it.
    Faulty,
    /// No tree.
    Refused,
}

/// How a parse ends, and the lines that say what it found.
#[derive(Debug, Drop)]
pub struct Report {
    pub verdict: Verdict,
    pub lines: String,
}

/// How a parse with this answer and these faults beside it ends.
fn judge<T: Whole>(answer: &PResult<T>, faults: &[Error]) -> Verdict
    ensures { result ≡ verdict_of (seen T.view_of answer.now) (faults_of faults.now) }
{
    match answer {
        Ok(_) => {
            if faults.is_empty() {
                Verdict::Clean
            } else {
                Verdict::Faulty
            }
        }
        Err(_) => Verdict::Refused,
    }
}

/// Whether memory ran out on the way to an answer.
fn lacks_memory<T>(answer: &PResult<T>) -> bool
    ensures ok { IfOk answer.now (λ _. result ≡ false) }
    ensures err { IfErr answer.now (λ error. result ≡ false → ¬ IsOutOfMemory error) }
{
    match answer {
        Ok(_) => false,
        Err(error) => matches!(error.kind(), SyntaxError::OutOfMemory),
    }
}

/// Reports an answer and the faults beside it.
fn reported<T: Whole>(
    alloc: Global,
    answer: &PResult<T>,
    faults: &[Error],
) -> Result<Report, AllocError>
    ensures verdict { IfOk result
        (λ report. report.verdict ≡ verdict_of (seen T.view_of answer.now) (faults_of faults.now)) }
    ensures lines { IfOk result
        (λ report. string_bytes report.lines
        ≡ answer_lines (seen T.view_of answer.now) (faults_of faults.now)) }
    ensures found { IfOk result (λ _. IfErr answer.now (λ error. ¬ IsOutOfMemory error)) }
{
    if lacks_memory(answer) {
        return Err(AllocError);
    }
    Ok(Report {
        verdict: judge(answer, faults),
        lines: lines(alloc, answer, faults)?,
    })
}

/// Drops an answer.
pub(crate) fn discard<T: Whole>(answer: PResult<T>) {
    match answer {
        Ok(tree) => tree.let_go(),
        Err(error) => drop(error),
    }
}

/// Reports what a parser answered, and the faults that it recorded, which it takes.
fn finished<I: Tokens, T: Whole>(
    alloc: Global,
    parser: &mut Parser<I>,
    answer: PResult<T>,
) -> Result<Report, AllocError>
    ensures verdict { IfOk result
        (λ report. report.verdict ≡ verdict_of (seen T.view_of answer) parser.old.state.faults) }
    ensures lines { IfOk result
        (λ report. string_bytes report.lines
        ≡ answer_lines (seen T.view_of answer) parser.old.state.faults) }
    ensures found { IfOk result (λ _. IfErr answer (λ error. ¬ IsOutOfMemory error)) }
{
    let faults = parser.take_errors();
    let report = reported(alloc, &answer, faults.as_slice());
    discard(answer);
    report
}

/// A parser of a text, in the default settings.
fn parser_of(alloc: Global, text: &str) -> Parser<Lexer<'_>>
    requires { length text.now < 2 ^ 32 }
    ensures limit { result.limit ≡ 1000 }
    ensures state { place.lacks_memory (place.first result.state.at.left) ≡ false
        → place.lacks_memory (place.second result.state.at.left) ≡ false → result.state ≡ start_of text.now }
{
    let end = BytePos(text.len() as u32);
    let input = StringInput::new(text, BytePos(0), end);
    Parser::new(alloc, Syntax::default(), input, false)
}

/// Parses a text as a script.
fn parse_script(alloc: Global, text: &str) -> Result<Report, AllocError>
    requires { length text.now < 2 ^ 32 }
    ensures clean { IfOk result (λ report. report.verdict ≡ Verdict.Clean
        → (x : Tree) × Spells text.now x × (string_bytes report.lines ≡ answer_lines (Ok x) [])) }
    ensures spelled { (x : Tree) → Spells text.now x
        → IfOk result (λ report. (report.verdict ≡ Verdict.Clean) × (string_bytes report.lines ≡ answer_lines (Ok x) [])) }
{
    let mut parser = parser_of(alloc, text);
    if parser.lacks_memory() {
        return Err(AllocError);
    }
    let answer = parser.parse_script();
    finished(alloc, &mut parser, answer)
}

/// Parses a text as a module.
fn parse_module(alloc: Global, text: &str) -> Result<Report, AllocError>
    requires { length text.now < 2 ^ 32 }
    ensures clean { IfOk result (λ report. report.verdict ≡ Verdict.Clean
        → (x : Tree) × SpellsModule text.now x × (string_bytes report.lines ≡ answer_lines (Ok x) [])) }
    ensures spelled { (x : Tree) → SpellsModule text.now x
        → IfOk result (λ report. (report.verdict ≡ Verdict.Clean) × (string_bytes report.lines ≡ answer_lines (Ok x) [])) }
{
    let mut parser = parser_of(alloc, text);
    if parser.lacks_memory() {
        return Err(AllocError);
    }
    let answer = parser.parse_module();
    finished(alloc, &mut parser, answer)
}

/// Parses a text as a script or a module, whichever it turns out to be.
fn parse_program(alloc: Global, text: &str) -> Result<Report, AllocError>
    requires { length text.now < 2 ^ 32 }
    ensures clean { IfOk result (λ report. report.verdict ≡ Verdict.Clean
        → (x : Tree) × SpellsProgram text.now x × (string_bytes report.lines ≡ answer_lines (Ok x) [])) }
    ensures spelled { (x : Tree) → SpellsProgram text.now x
        → IfOk result (λ report. (report.verdict ≡ Verdict.Clean) × (string_bytes report.lines ≡ answer_lines (Ok x) [])) }
{
    let mut parser = parser_of(alloc, text);
    if parser.lacks_memory() {
        return Err(AllocError);
    }
    let answer = parser.parse_program();
    finished(alloc, &mut parser, answer)
}

/// Parses a text as a script, a module, or whichever of the two it turns out to be. The report is clean exactly where the text
/// spells such a tree, and then its lines are that tree's, unless memory runs out.
pub fn parse(alloc: Global, text: &str, goal: Goal) -> Result<Report, AllocError>
    requires { length text.now < 2 ^ 32 }
    ensures clean { IfOk result (λ report. report.verdict ≡ Verdict.Clean
        → (x : Tree) × SpellsAs goal text.now x × (string_bytes report.lines ≡ answer_lines (Ok x) [])) }
    ensures spelled { (x : Tree) → SpellsAs goal text.now x
        → IfOk result (λ report. (report.verdict ≡ Verdict.Clean) × (string_bytes report.lines ≡ answer_lines (Ok x) [])) }
{
    match goal {
        Goal::Script => parse_script(alloc, text),
        Goal::Module => parse_module(alloc, text),
        Goal::Program => parse_program(alloc, text),
    }
}
