//! How many registers and parameters calls may list. Past that bound the link is out of memory, before it lists them.

use dex_code::{Insn, Naming};
use dex_tables::Dex;
use link_code::Coded;
use link_listing::{parameter_count, spend};
use vet_base::Memory;

/// How many registers and parameters all calls may list.
const CALLS: u64 = 134_217_728;

fn call_cost(dex: &Dex, insn: &Insn) -> u64 {
    match insn.naming() {
        Naming::Method(i) => {
            (insn.argument_count() as u64).saturating_add(parameter_count(dex, i) as u64)
        }
        _ => 0,
    }
}

/// Answers want of memory where calls list more registers and parameters together than `CALLS`.
pub(crate) fn check_calls_listed(dexes: &[Dex], coded: &[Coded]) -> Result<(), Memory> {
    let mut left = CALLS;
    for method in coded {
        if let Some(dex) = dexes.get(method.dex) {
            for (_, insn) in method.decoded.lines.as_slice() {
                spend(&mut left, call_cost(dex, insn))?;
            }
        }
    }
    Ok(())
}
