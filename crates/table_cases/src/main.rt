//! Tests of tables of facts and of their certificates.
//!
//! `table_cases` alone reads certificates that were cut, changed or spelled out, and prints how many are answered as is
//! due; then it fills a table with a few rows in each order and prints what it counted. `table_cases ORDER ROWS` fills
//! one with that number of rows in that order, and prints the times too.
#![tactic(auto)]

mod answer;
mod certificates;
mod change;
mod filling;
mod rows;

use std::{env, io};

fn main(rt: HostRuntime) -> io::Result<()> {
    let mut words = env::args(&rt)?.skip(1);
    match (words.next(), words.next()) {
        (Some(order), Some(count)) => {
            let count = count.as_str().parse().unwrap_or(1_000);
            filling::run(&rt, filling::order_named(order.as_str()), count, true)
        }
        _ => {
            certificates::all(&rt)?;
            filling::all(&rt)
        }
    }
}
