//! The program `keytab`: the words after its name say what to do. The script is standard input, the
//! replies go to standard output, and one fault line at most to standard error.
//!
//! Contracts see an `Input` and an `Output` as the source and the station that they are: by the bytes that
//! their reader has left and their writer has taken, where std knows these, and by their counts of faults.
#![tactic(auto)]

mod arguments;
mod fault;
mod input;
mod output;
mod program;
#[cfg(test)]
mod tests;

use arguments::words;
use input::Input;
use output::Output;
use program::run_program;
use std::process::ExitCode;
use std::{env, io};

fn main(rt: HostRuntime) -> ExitCode {
    let mut script = Input::new(rt.reader());
    let mut replies = Output::new(io::writer(&rt));
    let mut errors = rt.stderr();
    run_program(
        rt.alloc(),
        words(rt.alloc(), env::args(&rt)),
        &mut script,
        &mut replies,
        &mut errors,
    )
}
