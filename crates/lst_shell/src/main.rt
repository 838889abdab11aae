//! The program `lstore`: `main` hands the standard streams to `lst_command`, and ends with the number of its status.
#![tactic(auto)]

use lst_command::program;
use lst_io::{StdSink, StdSource};
use std::process::ExitCode;

/// Runs the words of the command line over the standard streams, and ends with the number of the status.
fn main(rt: HostRuntime) -> ExitCode {
    program(
        &rt,
        &mut StdSource::new(rt.stdin()),
        &mut StdSink::new(rt.stdout()),
        &mut StdSink::new(rt.stderr()),
    )
}
