//! What of several workers can be seen from inside alone: of a file of runs of `vet` and `serve`, over files, a keeper
//! and a door in memory and with a watch on the workers, how many end as is due; and that generated apps have one
//! certificate for each number of workers; where a desk keeps its cases; and what the adapters of the system count.
#![tactic(auto)]

mod adapters;
mod alike;
mod run;
mod watch;

use crate::adapters::{failures, places};
use crate::alike::are_alike;
use crate::run::{end_of, run_of};
use serving_lines::bytes_of;
use std::{fs, io};

/// So many generated apps are certified.
const APPS: u32 = 200;

/// Whether a run ends as is due by its line that begins with `< `; one that does not is printed with its end.
fn is_due(rt: &HostRuntime, lines: &str, end: &str) -> io::Result<bool> {
    let (_, due) = lines.split_once("\n< ").unwrap_or((lines, ""));
    if bytes_of(rt.alloc(), due.trim_end())?.as_slice() == end.as_bytes() {
        return Ok(true);
    }
    println!(rt; "{lines}ends so:\n{end}")?;
    Ok(false)
}

fn main(rt: HostRuntime) -> io::Result<()> {
    let text = fs::read_to_string(&rt, "runs.txt")?;
    let mut due = 0u64;
    for lines in text.as_str().split("## ").skip(1) {
        let run = run_of(&rt, lines)?;
        let end = end_of(rt.alloc(), &rt, run)?;
        due = due.saturating_add(u64::from(is_due(&rt, lines, end.as_str())?));
    }
    println!(rt; "runs.txt: {due} runs that end as is due")?;
    let mut same = 0u64;
    for seed in 0..APPS {
        same = same.saturating_add(u64::from(are_alike(rt.alloc(), &rt, seed)?));
    }
    println!(rt;
        "{same} of {APPS} generated apps have one certificate for 1, 2, 3 and 16 workers"
    )?;
    places(&rt)?;
    failures(rt)
}
