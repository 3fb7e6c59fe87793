//! `dex_list count FILE..` reads each DEX file and prints the sizes of its tables; `dex_list list FILE..` prints all
//! that stands in it. For a file that is refused it prints the fault. `dex_list code FILE..` decodes each method with
//! code, and prints its instructions. Each of these words holds for the files up to the next one.
#![tactic(auto)]

mod instructions;
mod listing;

use dex_reader::{DexFault, read_dex};
use dex_tables::Dex;
use std::alloc::Global;
use std::env::Env;
use std::fs::File;
use std::io::{BufWriter, Read, Write};
use std::rt::Files;
use std::{env, io};

/// The greatest file that is read.
const FILE: u64 = 16_777_216;

fn read_all<R: Files>(rt: &R, alloc: Global, name: &str) -> io::Result<Vec<u8>> {
    let mut bytes = Vec::new(alloc);
    File::open(rt, name)?.take(FILE).read_to_end(&mut bytes)?;
    Ok(bytes)
}

fn counts<W: Write>(out: &mut W, dex: &Dex) -> io::Result<()> {
    writeln!(
        out,
        "strings {} types {} protos {} fields {} methods {} classes {}",
        dex.strings.len(),
        dex.types.len(),
        dex.protos.len(),
        dex.fields.len(),
        dex.methods.len(),
        dex.classes.len()
    )
}

fn fault_of<W: Write>(out: &mut W, fault: &DexFault) -> io::Result<()> {
    match fault {
        DexFault::Magic => writeln!(out, "magic"),
        DexFault::Header(field) => {
            write!(out, "header ")?;
            listing::text(out, field.as_bytes())?;
            writeln!(out)
        }
        DexFault::Outside(at) => writeln!(out, "outside at {at}"),
        DexFault::Index(table, row) => {
            write!(out, "index in ")?;
            listing::text(out, table.as_bytes())?;
            writeln!(out, " row {row}")
        }
        DexFault::Text(at) => writeln!(out, "text at {at}"),
        DexFault::Leb(at) => writeln!(out, "leb at {at}"),
        DexFault::TooMany(what) => {
            write!(out, "too many ")?;
            listing::text(out, what.as_bytes())?;
            writeln!(out)
        }
        DexFault::Memory => writeln!(out, "out of memory"),
    }
}

/// What is printed of a file.
#[derive(Clone, Copy)]
enum What {
    /// The sizes of its tables.
    Sizes,
    /// These, and all that stands in it.
    Whole,
    /// The instructions of its methods.
    Code,
}

/// What a word asks for; none where it is the name of a file.
fn asked(word: &str) -> Option<What> {
    match word {
        "count" => Some(What::Sizes),
        "list" => Some(What::Whole),
        "code" => Some(What::Code),
        _ => None,
    }
}

/// Prints the sizes of the tables, and all that stands in the file where it is asked for, or its fault.
fn tables_of<W: Write>(out: &mut W, alloc: Global, bytes: &[u8], is_whole: bool) -> io::Result<()> {
    match read_dex(alloc, bytes) {
        Ok(dex) => {
            counts(out, &dex)?;
            if is_whole {
                listing::list(out, &dex)?;
            }
            Ok(())
        }
        Err(fault) => fault_of(out, &fault),
    }
}

/// Prints the instructions.
fn code_of<W: Write>(out: &mut W, alloc: Global, bytes: &[u8]) -> io::Result<()> {
    match read_dex(alloc, bytes) {
        Ok(dex) => instructions::list(out, alloc, &dex),
        Err(_) => writeln!(out, "no DEX file"),
    }
}

/// Prints what is asked for of a file.
fn told<W: Write>(
    out: &mut W,
    alloc: Global,
    what: What,
    name: &str,
    bytes: &[u8],
) -> io::Result<()> {
    match what {
        What::Sizes | What::Whole => {
            write!(out, "{name}: ")?;
            tables_of(out, alloc, bytes, matches!(what, What::Whole))
        }
        What::Code => {
            writeln!(out, "file {name}")?;
            code_of(out, alloc, bytes)
        }
    }
}

fn main(rt: HostRuntime) -> io::Result<()> {
    let alloc = rt.alloc();
    let mut out = BufWriter::new(alloc, io::writer(&rt))?;
    let mut what = What::Sizes;
    for word in env::args(&rt)?.skip(1) {
        match asked(word.as_str()) {
            Some(other) => what = other,
            None => {
                let bytes = read_all(&rt, alloc, word.as_str())?;
                told(&mut out, alloc, what, word.as_str(), &bytes)?;
            }
        }
    }
    out.flush()
}
