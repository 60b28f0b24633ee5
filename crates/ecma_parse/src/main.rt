//! The program `ecma-parse`: it reads a text, parses it, and prints its items and its faults.
#![tactic(auto)]

mod command;
mod fault;
mod read;
mod run;

use std::process::ExitCode;
use std::rt::Env;
use std::{env, io};

/// The arguments without the program's name.
fn words(rt: &(impl Env + AllocGlobal)) -> io::Result<Vec<String>> {
    Ok(env::args(rt)?.skip(1).collect(rt.alloc())?)
}

fn main(rt: HostRuntime) -> ExitCode {
    let status = run::run(
        rt.alloc(),
        words(&rt),
        u32::MAX,
        &mut rt.stdin(),
        &mut rt.stdout(),
        &mut rt.stderr(),
    );
    ExitCode::from(status)
}
