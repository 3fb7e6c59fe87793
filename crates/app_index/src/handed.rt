//! The method rows whose result is an object that the library has.
ghost use Rattle.std.specs.Prelude.{◌≡◌, ◌≤◌, ◌++◌, IfOk, OnOk, length};
ghost use Rattle.app_index.specs.Handed.{gives_handed, handed_from, handed_row};

use app_machine::{Gives, Summary};
use std::alloc::Global;
use vet_base::Memory;

fn gives_handed(gives: &Gives) -> bool
    ensures { result ≡ gives_handed gives.now }
{
    match gives {
        Gives::Handed => true,
        _ => false,
    }
}

/// The number of the row goes to the others, where it is such a one.
fn note(numbers: &mut Vec<u32>, number: u32, row: &Summary) -> Result<(), Memory>
    ensures { OnOk result (numbers.new.items ≡ numbers.old.items ++ handed_row number row.now) }
{
    if gives_handed(&row.gives) {
        numbers.push(number)?;
    }
    Ok(())
}

/// The numbers of these rows, ascending.
#[tactic(auto, using(crate::proofs::HandedRows::rows_begin, crate::proofs::HandedRows::rows_go_on, crate::proofs::HandedRows::rows_done))]
pub fn handed_rows(alloc: Global, rows: &[Summary]) -> Result<Vec<u32>, Memory>
    requires { length rows.now ≤ 65536 }
    ensures { IfOk result (λ numbers. numbers.items ≡ handed_from 0 rows.now) }
{
    let mut numbers = Vec::new(alloc);
    for (number, row) in rows.iter().enumerate() {
        note(&mut numbers, number as u32, row)?;
    }
    Ok(numbers)
}
