//! Fills the table of facts and looks its rows up.

use crate::rows::{Order, mixed, number_at, row_of};
use fact_rows::Table;
use std::io;
use std::time::Instant;
use vet_base::Memory;

/// Adds the rows, and says how many were new.
fn fill(table: &mut Table, order: Order, count: u64) -> Result<u64, Memory> {
    let mut new: u64 = 0;
    for i in 0..count {
        if table.add(row_of(number_at(order, i, count)))? {
            new = new.wrapping_add(1);
        }
    }
    Ok(new)
}

/// Looks up rows that are there, one after the other at random places.
fn found(table: &Table, order: Order, count: u64) -> u64 {
    let mut found: u64 = 0;
    for i in 0..count {
        if table.has(&row_of(number_at(order, mixed(i) % count, count))) {
            found = found.wrapping_add(1);
        }
    }
    found
}

/// Looks up other rows, of which hardly one is there.
fn absent(table: &Table, count: u64) -> u64 {
    let mut absent: u64 = 0;
    for i in 0..count {
        if !table.has(&row_of(number_at(Order::Random, mixed(i), count))) {
            absent = absent.wrapping_add(1);
        }
    }
    absent
}

/// Fills a table and looks into it; prints the counts, and the times where they are wanted.
pub fn run(rt: &HostRuntime, order: Order, count: u64, timed: bool) -> io::Result<()> {
    let mut table = Table::new(rt.alloc());
    let begin = Instant::now(rt)?;
    let new = fill(&mut table, order, count).unwrap_or(0);
    let adds = begin.elapsed(rt)?.as_micros();
    let begin = Instant::now(rt)?;
    let again = fill(&mut table, order, count).unwrap_or(0);
    let repeats = begin.elapsed(rt)?.as_micros();
    let begin = Instant::now(rt)?;
    let found = found(&table, order, count);
    let absent = absent(&table, count);
    let looks = begin.elapsed(rt)?.as_micros();
    println!(rt; "{order} {count}: {new} new, {again} new again, {found} found, {absent} absent")?;
    if timed {
        println!(rt; "adds {adds} us, repeats {repeats} us, looks {looks} us")?;
    }
    Ok(())
}

/// The order of that name.
pub fn order_named(word: &str) -> Order {
    match word {
        "ascending" => Order::Ascending,
        "descending" => Order::Descending,
        _ => Order::Random,
    }
}

/// A few rows in each order.
pub fn all(rt: &HostRuntime) -> io::Result<()> {
    run(rt, Order::Ascending, 5_000, false)?;
    run(rt, Order::Descending, 5_000, false)?;
    run(rt, Order::Random, 5_000, false)
}
