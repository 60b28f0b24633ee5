//! Texts before a lexer and before a parser.

ghost use Rattle.std.specs.Prelude.{◌≡◌, ◌≤◌, ◌^◌, ℕ, [], length, IsOk, IfOk, IfErr, IsErrOf, IsErrAnd, IfSome, MatchResult, slice_get};
ghost use Rattle.swc_ecma_parser_ast.specs.View.{view_program};
ghost use Rattle.swc_ecma_parser_exactness.specs.Decides.{DecidesScript};
ghost use Rattle.swc_ecma_parser_exactness.specs.ModuleDecides.{DecidesModule};
ghost use Rattle.swc_ecma_parser_exactness.specs.Supports.{Ordered};
ghost use Rattle.swc_ecma_parser_model.specs.Tree.{Tree};
ghost use Rattle.swc_ecma_parser_module_reader.specs.Entry.{IsEntered};
ghost use Rattle.swc_ecma_parser_reader.specs.Entry.{unmarked};
ghost use Rattle.swc_ecma_parser_reader.specs.State.{State};
ghost use Rattle.ecma_bench.specs.Faults.{TellsRefusal, TellsRecord, TellsWant};
ghost use Rattle.ecma_bench.specs.Figures as figures;

use crate::command::Goal;
use crate::count::count;
use crate::fault::Fault;
use std::alloc::Global;
use swc_ecma_parser::Parser;
use swc_ecma_parser::ast::Program;
use swc_ecma_parser::common::BytePos;
use swc_ecma_parser::error::{Error, PResult, SyntaxError};
use swc_ecma_parser::input::{Syntax, Tokens};
use swc_ecma_parser::lexer::{Lexer, StringInput};

/// A text at position 0.
fn input_of(text: &str) -> Result<StringInput<'_>, Fault>
    ensures text { IfOk result (λ input. input.src.now ≡ text.now) }
    ensures start { IfOk result (λ input. input.start ≡ record { 0 = 0 }) }
    ensures end { IfOk result (λ input. input.end ≡ record { 0 = length text.now }) }
    ensures long { IfErr result (λ fault. (fault ≡ Fault.TooLong) × (2 ^ 32 ≤ length text.now)) }
{
    let Ok(end) = u32::try_from(text.len()) else {
        return Err(Fault::TooLong);
    };
    Ok(StringInput::new(text, BytePos(0), BytePos(end)))
}

/// How many tokens a text has.
pub fn token_count(alloc: Global, text: &str) -> Result<u64, Fault>
    ensures ok { IfOk result (λ n. n ≡ figures.token_count text.now) }
    ensures err { IfErr result (λ fault. fault ≡ Fault.TooLong) }
{
    let input = input_of(text)?;
    let lexer = Lexer::new(alloc, Syntax::default(), input, false);
    count(lexer).ok_or(Fault::TooLong)
}

fn refused(error: &Error) -> Fault
    ensures { TellsRefusal error.now result }
{
    if matches!(error.kind(), SyntaxError::OutOfMemory) {
        return Fault::OutOfMemory;
    }
    Fault::Refused {
        low: error.span.lo.0,
        high: error.span.hi.0,
        kind: error.kind.name(),
    }
}

fn recorded(error: &Error) -> Fault
    ensures { TellsRecord error.now result }
{
    Fault::Recorded {
        low: error.span.lo.0,
        high: error.span.hi.0,
        kind: error.kind.name(),
    }
}

/// The tree of an answer with no faults beside it.
fn clean(answer: PResult<Program>, faults: &[Error]) -> Result<Program, Fault>
    ensures clean { IfOk result (λ program. (answer ≡ Ok program) × (faults.now ≡ [])) }
    ensures tree { IfOk answer (λ program. faults.now ≡ [] → result ≡ Ok program) }
    ensures recorded { IfOk answer
        (λ _. IfSome (slice_get faults.now 0) (λ first. IsErrAnd result (TellsRecord first))) }
    ensures refused { IfErr answer (λ error. IsErrAnd result (TellsRefusal error)) }
{
    match answer {
        Ok(program) => match faults.first() {
            None => Ok(program),
            Some(fault) => {
                program.discard();
                Err(recorded(fault))
            }
        },
        Err(error) => Err(refused(&error)),
    }
}

/// Has a parser read a whole text. An answer with no fault beside it is exactly what the tokens spell, unless memory ran out.
fn read<I: Tokens>(parser: &mut Parser<I>, goal: Goal) -> PResult<Program>
    ensures script { goal ≡ Goal.Script
        → DecidesScript view_program parser.old.limit (unmarked parser.old.state) result
        parser.new.state }
    ensures module { goal ≡ Goal.Module → (from : ℕ) → Ordered from parser.old.state.at
        → (u : State) × IsEntered (unmarked parser.old.state) u
        × DecidesModule view_program parser.old.limit u result parser.new.state }
{
    match goal {
        Goal::Script => match parser.parse_script() {
            Ok(script) => Ok(Program::Script(script)),
            Err(error) => Err(error),
        },
        Goal::Module => match parser.parse_module() {
            Ok(module) => Ok(Program::Module(module)),
            Err(error) => Err(error),
        },
    }
}

/// Parses a text as a script or a module, with no fault beside it. An answer is what the text spells; a text that spells a tree has
/// it as the answer, unless the text is too long or memory runs out.
pub fn parse(alloc: Global, text: &str, goal: Goal) -> Result<Program, Fault>
    ensures clean { IfOk result (λ program. figures.SpellsAs goal text.now (view_program program)) }
    ensures spelled { (x : Tree) → figures.SpellsAs goal text.now x
        → MatchResult result (λ program. x ≡ view_program program) TellsWant }
{
    let input = input_of(text)?;
    let mut parser = Parser::new(alloc, Syntax::default(), input, false);
    if parser.lacks_memory() {
        return Err(Fault::OutOfMemory);
    }
    let answer = read(&mut parser, goal);
    let faults = parser.take_errors();
    clean(answer, faults.as_slice())
}

/// Drops the tree of an answer. Where there is none, the fault is left.
pub fn discard(answer: Result<Program, Fault>) -> Result<(), Fault>
    ensures { MatchResult answer (λ _. IsOk result) (λ fault. IsErrOf result fault) }
{
    match answer {
        Ok(program) => {
            program.discard();
            Ok(())
        }
        Err(fault) => Err(fault),
    }
}
