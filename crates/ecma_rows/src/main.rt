//! The program `ecma_rows`: it reads rows of texts with what they parse to, and says which of them do not come out so. docs/ROWS.md says
//! how a row is written.
#![tactic(auto)]

use ecma_broken_lists::break_rows;
use ecma_refused_memory::refuse_rows;
use ecma_row_checks::compare;
use ecma_row_format::tally::Tally;
use std::process::ExitCode;
use std::rt::{Env, Files};
use std::{env, fs, io};

/// What is done with the rows of a file.
#[derive(Clone, Copy)]
enum Task {
    /// Each is read, and compared with what it says.
    Compare,
    /// The lists of each so many are broken at each place.
    Break(u64),
    /// Parsers, sources and values of each are copied.
    Copy,
    /// The same, and each is read, with lines around all that is tried while memory is refused.
    Refuse,
}

/// The task that a word names, if it names one: what a number behind `broken` says is how many rows stand for one that is tried.
fn task_named(word: &str) -> Option<Task> {
    match word {
        "rows" => Some(Task::Compare),
        "copies" => Some(Task::Copy),
        "memory" => Some(Task::Refuse),
        _ => match word.strip_prefix("broken=") {
            Some(number) => Some(Task::Break(number.parse::<u64>().unwrap_or(1))),
            None => None,
        },
    }
}

/// What stands behind the name of a file that a task is done with.
fn label(task: Task) -> &'static str {
    match task {
        Task::Compare => "",
        Task::Break(_) => ", broken",
        Task::Copy => ", copied",
        Task::Refuse => ", refused",
    }
}

/// What writes lines for the library, if a task wants them.
fn library<R>(rt: &R, task: Task) -> Option<&R> {
    match task {
        Task::Refuse => Some(rt),
        _ => None,
    }
}

/// Does a task with the rows of a file.
fn work<R: Files + Print + AllocGlobal>(rt: &R, task: Task, name: &str) -> io::Result<Tally> {
    let text = fs::read_to_string(rt, name)?;
    let mut out = String::new(rt.alloc());
    let tally = match task {
        Task::Compare => compare(rt.alloc(), &mut out, text.as_str())?,
        Task::Break(every) => break_rows(rt.alloc(), &mut out, text.as_str(), every)?,
        Task::Copy | Task::Refuse => {
            refuse_rows(rt.alloc(), library(rt, task), &mut out, text.as_str())?
        }
    };
    print!(rt; "{out}")?;
    Ok(tally)
}

/// Does what the words say, one after the other: those that name a task, and names of files that it is done with.
fn work_all<R: Files + Print + AllocGlobal>(rt: &R, words: &[String]) -> io::Result<()> {
    let mut task = Task::Compare;
    for word in words {
        let word = word.as_str();
        match task_named(word) {
            Some(named) => task = named,
            None => {
                let tally = work(rt, task, word)?;
                let label = label(task);
                println!(rt; "{word}{label}: {tally}")?;
            }
        }
    }
    Ok(())
}

/// The arguments without the program's name.
fn words(rt: &(impl Env + AllocGlobal)) -> io::Result<Vec<String>> {
    Ok(env::args(rt)?.skip(1).collect(rt.alloc())?)
}

fn main(rt: HostRuntime) -> io::Result<ExitCode> {
    let words = words(&rt)?;
    work_all(&rt, words.as_slice())?;
    Ok(ExitCode::SUCCESS)
}
