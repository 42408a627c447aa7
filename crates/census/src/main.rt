//! The program: a census of random soups of Conway's Game of Life and other Life-like rules.
//!
//! `main` calls [`run_program`](program::run_program) with the arguments and streams of the process. `run_program`
//! turns the arguments into a request with [`request_of`](arguments::calls::request_of), and passes the values of the
//! request to the function of its command.
#![tactic(auto)]

mod program;
mod request;

use commands::machine::Machine;
use commands::progress_line::ProgressLine;
use plane_core::output::Out;
use program::run_program;
use std::io::{self, IsTerminal};
use std::process::ExitCode;

fn main(rt: HostRuntime) -> ExitCode {
    let arguments = process_arguments(&rt);
    let errors = rt.stderr();
    let observer = ProgressLine::new(rt.alloc(), rt.stderr(), &rt, errors.is_terminal());
    let mut machine = Machine {
        alloc: rt.alloc(),
        threads: &rt,
        errors: Out::new(errors),
        observer,
    };
    let ended = run_program(&mut machine, arguments, &mut rt.stdin(), rt.stdout());
    ExitCode::from(ended.code)
}

/// Returns the arguments that the process was started with. The first is the program's name.
fn process_arguments(rt: &HostRuntime) -> io::Result<Vec<String>> {
    let arguments = std::env::args(rt)?.collect(rt.alloc())?;
    Ok(arguments)
}
