//! The program `tclocks` once more, for its stored run with a refused file: the guest's file ends
//! after its header, so the program headers that this announces are missing. It writes the refusal
//! and ends with status 3.
#![tactic(auto)]

use std::process::ExitCode;
use tc_io::{StdSink, StdSource};
use tc_main::program::run_program;

/// Does what the command-line arguments ask for.
fn main(rt: HostRuntime) -> ExitCode {
    run_program(
        &rt,
        &mut StdSource::new(rt.stdin()),
        &mut StdSink::new(rt.stdout()),
    )
}
