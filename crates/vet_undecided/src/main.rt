//! The program on an app whose report is longer than 65,536 bytes.
#![tactic(auto)]

use std::process::ExitCode;
use vet_program::run;

fn main(rt: HostRuntime) -> ExitCode {
    run(rt)
}
