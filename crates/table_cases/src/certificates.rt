//! Certificates that were cut, changed or spelled out, and how many are answered as is due.

use crate::answer::answer_to;
use crate::change::changed;
use std::rt::Files;
use std::{fs, io};

/// Whether the case, a line `CHANGE: ANSWER`, is answered as is due; another answer is printed.
fn is_answered(
    rt: &(impl Print + AllocGlobal),
    name: &str,
    whole: &[u8],
    case: &str,
) -> io::Result<bool> {
    let (change, want) = case.split_once(": ").unwrap_or((case, ""));
    let found = match changed(rt.alloc(), whole, change)? {
        Some(bytes) => answer_to(rt.alloc(), &bytes)?,
        None => format!(in rt.alloc(); "no case")?,
    };
    let is_due = found.as_str() == want;
    if !is_due {
        println!(rt; "{name}: {case}, and not {found}")?;
    }
    Ok(is_due)
}

/// Reads each case of a file, for the bytes of a certificate.
fn cases<R: Files + Print + AllocGlobal>(rt: &R, certificate: &str, name: &str) -> io::Result<()> {
    let whole = fs::read(rt, certificate)?;
    let text = fs::read_to_string(rt, name)?;
    let mut due = 0u64;
    for case in text.as_str().lines() {
        if is_answered(rt, name, &whole, case)? {
            due = due.saturating_add(1);
        }
    }
    println!(rt; "{name}: {due} answers that are due")
}

/// Reads the cases of all files.
pub fn all<R: Files + Print + AllocGlobal>(rt: &R) -> io::Result<()> {
    cases(rt, "unlisted_call.cert", "unlisted_call.txt")?;
    cases(rt, "each_kind.cert", "each_kind.txt")?;
    cases(rt, "each_cell_kind.cert", "each_cell_kind.txt")?;
    cases(rt, "each_kind.cert", "spelled.txt")?;
    cases(rt, "each_cell_kind.cert", "cells.txt")
}
