use climb_rules::RULES;
use fact_rows::Row;
use hashed_rows::HashedRows;
use rule_sets::Listed;
use std::alloc::Global;
use std::marker::Sync;
use std::sync::Wait;
use std::test::Fail;
use std::thread::Threads;
use taint_solver::{Solved, Unsolved, solve};
use worker_pool::{Crew, NoLookout, solve_with};

/// The limit that was passed, if it was, how many rows there are, and the first five of them.
type Found = (Option<u32>, usize, [Option<Row>; 5]);

fn look(solved: Solved, rows: &HashedRows) -> Found {
    let passed = match solved {
        Solved::Whole => None,
        Solved::TooLarge(limit) => Some(limit),
    };
    let first = [
        rows.row(0),
        rows.row(1),
        rows.row(2),
        rows.row(3),
        rows.row(4),
    ];
    (passed, rows.count(), first)
}

/// What one solver finds up to the limit.
fn by_one(alloc: Global, limit: u32) -> Result<Found, Unsolved> {
    let mut rows = HashedRows::new(alloc, 7);
    let solved = solve(alloc, &RULES, &mut rows, limit)?;
    Ok(look(solved, &rows))
}

/// What so many workers find up to the limit.
fn by_crew<R>(rt: &R, workers: u8, limit: u32) -> Result<Found, Unsolved>
where
    R: AllocGlobal + Threads + Wait + Sync,
{
    let crew = Crew {
        rt,
        lookout: &NoLookout,
        workers,
        seed: 7,
    };
    let mut rows = HashedRows::new(rt.alloc(), 7);
    let solved = solve_with(rt.alloc(), &RULES, &mut rows, limit, &crew)?;
    Ok(look(solved, &rows))
}

#[test]
fn workers_find_what_one_solver_finds(rt: HostRuntime) -> Result<(), Fail> {
    for limit in [4, 3] {
        let alone = by_one(rt.alloc(), limit)?;
        for workers in [0u8, 1, 3, 16] {
            assert_eq!(rt; by_crew(&rt, workers, limit)?, alone, "{workers} workers");
        }
    }
    Ok(())
}
