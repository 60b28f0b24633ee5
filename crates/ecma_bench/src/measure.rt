//! A text's lexing and its parse, with their figures.

ghost use Rattle.std.specs.Prelude.{◌≡◌, ◌≤◌, ℕ, List, IsOk, IfOk, IfErr, OnOk};
ghost use Rattle.swc_ecma_parser_model.specs.Tree.{Tree};
ghost use Rattle.ecma_bench.specs.Figures as figures;
ghost use Rattle.ecma_bench.specs.Words.{least_of};

use crate::command::{Command, Goal};
use crate::fault::Fault;
use crate::memory::{growth, peak};
use crate::parse::{discard, parse, token_count};
use crate::read::text_of;
use crate::report::Report;
use std::rt::Files;
use std::time::{CpuClock, Duration};
use swc_ecma_parser::ast::Program;

/// What lexing a text finds and takes.
#[derive(Clone, Copy)]
struct Lexing {
    tokens: u64,
    elapsed: Duration,
}

/// What a parse takes, with its lexer, and letting its tree go.
#[derive(Clone, Copy)]
struct Parse {
    elapsed: Duration,
    letting_go: Duration,
    growth: Option<u64>,
}

/// How often a text is lexed and parsed. What stands in no cache yet, and memory that the system has yet to hand out, make
/// the first time the longest.
const ROUNDS: u32 = 5;

/// The times of a round.
#[derive(Clone, Copy)]
struct Times {
    lexing: Duration,
    parse: Duration,
    letting_go: Duration,
}

/// The processor time that the thread has used.
fn now<R: CpuClock>(rt: &R) -> Result<Duration, Fault>
    ensures { IfErr result (λ fault. fault ≡ Fault.CannotReadClock) }
{
    match rt.thread_cpu_time() {
        Ok(time) => Ok(time),
        Err(_) => Err(Fault::CannotReadClock),
    }
}

/// How much of it was used since then.
fn since<R: CpuClock>(rt: &R, start: Duration) -> Result<Duration, Fault>
    ensures { IfErr result (λ fault. fault ≡ Fault.CannotReadClock) }
{
    Ok(now(rt)?.saturating_sub(start))
}

/// Counts the tokens of a text.
fn lexing_of<R: CpuClock + AllocGlobal>(rt: &R, text: &str) -> Result<Lexing, Fault>
    ensures { IfOk result (λ lexing. lexing.tokens ≡ figures.token_count text.now) }
{
    let start = now(rt)?;
    let tokens = token_count(rt.alloc(), text)?;
    let elapsed = since(rt, start)?;
    Ok(Lexing { tokens, elapsed })
}

/// How long it takes to drop the answer of a parse.
fn letting_go_of<R: CpuClock>(rt: &R, answer: Result<Program, Fault>) -> Result<Duration, Fault>
    ensures { OnOk result (IsOk answer) }
{
    let start = now(rt);
    discard(answer)?;
    since(rt, start?)
}

/// Parses a text. The clock stops before the tree is dropped, and starts anew then.
fn parse_of<R: Files + CpuClock + AllocGlobal>(
    rt: &R,
    text: &str,
    goal: Goal,
) -> Result<Parse, Fault>
    ensures { OnOk result ((x : Tree) × figures.SpellsAs goal text.now x) }
{
    let before = peak(rt);
    let start = now(rt)?;
    let answer = parse(rt.alloc(), text, goal);
    let elapsed = since(rt, start);
    let growth = growth(before, peak(rt));
    let letting_go = letting_go_of(rt, answer)?;
    Ok(Parse {
        elapsed: elapsed?,
        letting_go,
        growth,
    })
}

/// The shorter of two times.
fn shorter(a: Duration, b: Duration) -> Duration {
    if b < a { b } else { a }
}

/// The shortest times of all rounds, the first of which took these.
fn shortest<R: Files + CpuClock + AllocGlobal>(
    rt: &R,
    text: &str,
    goal: Goal,
    first: Times,
) -> Result<Times, Fault> {
    let mut times = first;
    for _ in 1..ROUNDS {
        let lexing = lexing_of(rt, text)?;
        let parse = parse_of(rt, text, goal)?;
        times = Times {
            lexing: shorter(times.lexing, lexing.elapsed),
            parse: shorter(times.parse, parse.elapsed),
            letting_go: shorter(times.letting_go, parse.letting_go),
        };
    }
    Ok(times)
}

/// The figures of a text. In each round the clock is read six times: before and after lexing, the parse, and letting its tree
/// go. Memory is that of the first.
fn report_on<'a, R: Files + CpuClock + AllocGlobal>(
    rt: &R,
    command: Command<'a>,
    text: &str,
) -> Result<Report<'a>, Fault>
    ensures command { IfOk result (λ report. report.command ≡ command.entry) }
    ensures figures { IfOk result (figures.Tells text.now) }
{
    let lexing = lexing_of(rt, text)?;
    let parse = parse_of(rt, text, command.goal)?;
    let first = Times {
        lexing: lexing.elapsed,
        parse: parse.elapsed,
        letting_go: parse.letting_go,
    };
    let times = shortest(rt, text, command.goal, first)?;
    Ok(Report {
        command,
        bytes: text.len(),
        tokens: lexing.tokens,
        lexing: times.lexing,
        first_parse: first.parse,
        parse: times.parse,
        letting_go: times.letting_go,
        growth: parse.growth,
    })
}

/// Measures a text. It is made or read before the clock starts.
pub fn measure<'a, R: Files + CpuClock + AllocGlobal>(
    rt: &R,
    command: Command<'a>,
) -> Result<Report<'a>, Fault>
    ensures command { IfOk result (λ report. report.command ≡ command.entry) }
    ensures bytes { IfOk result (λ report. least_of command.entry.source ≤ report.bytes) }
    ensures figures { IfOk result (λ report. (text : List ℕ) × figures.Tells text report) }
{
    let text = text_of(rt, command.source)?;
    report_on(rt, command, text.as_str())
}
