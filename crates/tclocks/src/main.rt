//! The program `tclocks`: `run_program` of `tc_main` on standard input and standard
//! output.
#![tactic(auto)]

use std::process::ExitCode;
use tc_io::{StdSink, StdSource};
use tc_main::program::run_program;

/// Does what the command-line arguments ask for.
fn main(rt: HostRuntime) -> ExitCode {
    run_program(
        &rt,
        &mut StdSource::new(rt.stdin()),
        &mut StdSink::new(rt.stdout()),
    )
}
