//! `vet`: the command line of the vetting desk.
#![tactic(auto)]

mod cases;

use cases::{KeptHere, nowhere};
use desk_program::run;
use std::process::ExitCode;

fn main(rt: HostRuntime) -> ExitCode {
    run(rt, &KeptHere(rt), nowhere(rt))
}
