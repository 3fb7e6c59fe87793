//! `made_list` alone prints what sample forms say, reads the forms of generated apps
//! and lists one of the apps, for comparison with what another disassembler lists.
//! `made_list SEED SIZE FILE` writes the DEX file of the app that is drawn from a seed.
#![tactic(auto)]

ghost use Rattle.std.specs.Prelude.{◌<◌, ◌≤◌, IfSome};

mod forms;
mod listing;
mod names;
mod sample;

use crate::listing::write_listing;
use made_apps::{made_dex, made_listing};
use std::alloc::Global;
use std::env::Env;
use std::fs::File;
use std::io::{BufWriter, Write};
use std::rt::Files;
use std::{env, io};

const SEEDS: u32 = 2147483648;

const MOST_METHODS: u32 = 2000;

/// A seed and a size.
fn sizes(seed: &str, size: &str) -> Option<(u32, u32)>
    ensures { IfSome result (λ r. (r.0 < 2147483648) × (1 ≤ r.1) × (r.1 ≤ 2000)) }
{
    let seed = seed.parse::<u32>().ok()?;
    let size = size.parse::<u32>().ok()?;
    if seed < SEEDS && 1 <= size && size <= MOST_METHODS {
        Some((seed, size))
    } else {
        None
    }
}

/// Writes the DEX file of an app.
fn write_app<R: Files>(rt: &R, alloc: Global, seed: u32, size: u32, name: &str) -> io::Result<()>
    requires seed { seed < 2147483648 }
    requires some { 1 ≤ size }
    requires most { size ≤ 2000 }
{
    let Ok(bytes) = made_dex(alloc, seed, size) else {
        return Err(io::Error::from(io::ErrorKind::OutOfMemory));
    };
    File::create(rt, name)?.write_all(&bytes)
}

/// Lists the app of the seed 3 with 5 drawn methods.
fn list_app<W: Write>(out: &mut W, alloc: Global) -> io::Result<()> {
    match made_listing(alloc, 3, 5) {
        Ok(listing) => write_listing(out, &listing),
        Err(_) => writeln!(out, "out of memory"),
    }
}

fn main(rt: HostRuntime) -> io::Result<()> {
    let alloc = rt.alloc();
    let mut words = env::args(&rt)?.skip(1);
    if let (Some(seed), Some(size), Some(name)) = (words.next(), words.next(), words.next()) {
        return match sizes(seed.as_str(), size.as_str()) {
            Some((seed, size)) => write_app(&rt, alloc, seed, size, name.as_str()),
            None => println!(rt; "a seed below {SEEDS} and a size of 1 to {MOST_METHODS}"),
        };
    }
    sample::print_layouts(&rt, "layouts.toml")?;
    sample::print_office(&rt, "office.toml")?;
    sample::print_lists(&rt, "lists.toml")?;
    let mut out = BufWriter::new(alloc, io::writer(&rt))?;
    forms::read_all(&rt, &mut out)?;
    list_app(&mut out, alloc)?;
    out.flush()
}
