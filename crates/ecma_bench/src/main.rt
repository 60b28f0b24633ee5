//! The program `ecma-bench`: it makes a text of a shape or reads a file, parses it five times, and prints what the best took.
#![tactic(auto)]

mod command;
mod count;
mod fault;
mod measure;
mod memory;
mod parse;
mod read;
mod report;
mod run;
mod shape;

use std::process::ExitCode;
use std::rt::Env;
use std::{env, io};

/// The arguments without the program's name.
fn words(rt: &(impl Env + AllocGlobal)) -> io::Result<Vec<String>> {
    Ok(env::args(rt)?.skip(1).collect(rt.alloc())?)
}

fn main(rt: HostRuntime) -> ExitCode {
    let status = run::run(&rt, &words(&rt), &mut rt.stdout(), &mut rt.stderr());
    ExitCode::from(status)
}
