//! The program `club`: commands of the officer over a club file, and the HTTP server for its members.
#![tactic(auto)]

use club_program::run;
use std::process::ExitCode;

fn main(rt: HostRuntime) -> ExitCode {
    ExitCode::from(run(&rt))
}
