ghost use Rattle.std.specs.Prelude.{◌≡◌, ◌≤◌, ◌<◌, length, IfOk};
ghost use Rattle.climb_rules.specs.Climbing.{ClimbRule, ground_row};
ghost use Rattle.taint_solver.specs.Growing.{AreDerived};
ghost use Rattle.worker_board.specs.Closing.{AreWorkedOff};
ghost use Rattle.worker_board.specs.Jobs.{SameRules};
ghost use Rattle.worker_board.specs.Marks.{IsWithin};
ghost use Rattle.worker_board.specs.Schedules.{ArePostable};

use climb_rules::{Climb, RULES};
use fact_rows::Row;
use hashed_rows::{HashedRows, LooseRows};
use std::alloc::Global;
use std::marker::Brand;
use std::test::Fail;
use taint_solver::solve;
use vet_base::Memory;
use worker_board::{Board, Frontier, Job, Ticket};
use worker_pool::work;

/// What follows with the rows of a ticket.
fn follows<J: Job>(
    alloc: Global,
    rules: &Climb,
    table: &HashedRows,
    limit: u32,
    ticket: &Ticket<J>,
) -> Result<LooseRows, Memory>
    requires same { SameRules (ClimbRule rules.now.last) (λ row. row ≡ ground_row) J.rule J.is_start }
    requires limit { limit ≡ J.limit }
    requires table { table.now ≡ J.table }
    requires derived { AreDerived J.rule J.is_start J.table }
    ensures worked_off { IfOk result (λ out. AreWorkedOff J.rule J.table out J.limit (IsWithin ticket.now)) }
    ensures postable { IfOk result (λ out. ArePostable J.rule J.is_start J.table out) }
{
    let mut out = LooseRows::new(alloc, 7);
    work(alloc, rules, table, limit, ticket, &mut out)?;
    Ok(out)
}

/// How many of the rows are new on the board, where memory lasts.
fn gained<J: Job>(board: &mut Board<J>, ticket: Ticket<J>, rows: &LooseRows) -> Option<u64>
    requires postable { ArePostable J.rule J.is_start J.table rows.now }
    requires worked_off { AreWorkedOff J.rule J.table rows.now J.limit (IsWithin ticket) }
{
    board.post(ticket, rows).ok()
}

/// Of the rows that work gave: how many there were, and how many the post said were new.
type Counts = (usize, Option<u64>);

/// What follows with the rows of a ticket goes to the board.
fn given<J: Job>(
    alloc: Global,
    rules: &Climb,
    table: &HashedRows,
    limit: u32,
    board: &mut Board<J>,
    ticket: Ticket<J>,
) -> Result<Counts, Memory>
    requires same { SameRules (ClimbRule rules.now.last) (λ row. row ≡ ground_row) J.rule J.is_start }
    requires limit { limit ≡ J.limit }
    requires table { table.now ≡ J.table }
    requires derived { AreDerived J.rule J.is_start J.table }
{
    let rows = follows(alloc, rules, table, limit, &ticket)?;
    Ok((rows.len(), gained(board, ticket, &rows)))
}

/// One worker takes one ticket.
fn taken<J: Job>(
    alloc: Global,
    rules: &Climb,
    table: &HashedRows,
    limit: u32,
    board: &mut Board<J>,
) -> Result<Option<Counts>, Memory>
    requires same { SameRules (ClimbRule rules.now.last) (λ row. row ≡ ground_row) J.rule J.is_start }
    requires limit { limit ≡ J.limit }
    requires table { table.now ≡ J.table }
    requires derived { AreDerived J.rule J.is_start J.table }
{
    match board.take() {
        Ok(Some(ticket)) => given(alloc, rules, table, limit, board, ticket).map(Some),
        Ok(None) => Ok(None),
        Err(memory) => Err(memory),
    }
}

/// How many rows the board has, the first of them, and whether all is over.
type Ended = (usize, Option<Row>, bool);

fn ended<J: Job>(board: Board<J>) -> Ended {
    let (found, is_over) = board.into_found();
    (found.len(), found.at(0), is_over)
}

/// What the worker counted, and what the board has then.
type Round = (Option<Counts>, Ended);

/// A round in which one worker takes the first ticket.
fn one_round<J: Job>(
    alloc: Global,
    rules: &Climb,
    table: &HashedRows,
    limit: u32,
    frontier: Frontier,
) -> Result<Round, Memory>
    requires same { SameRules (ClimbRule rules.now.last) (λ row. row ≡ ground_row) J.rule J.is_start }
    requires limit { limit ≡ J.limit }
    requires table { table.now ≡ J.table }
    requires derived { AreDerived J.rule J.is_start J.table }
    requires from { frontier.from ≡ J.done }
    requires to { frontier.to ≡ length J.table }
    requires order { frontier.from ≤ frontier.to }
    requires size { 0 < frontier.size }
{
    let mut board = Board::<J>::new(alloc, frontier, 7)?;
    let counts = taken(alloc, rules, table, limit, &mut board)?;
    Ok((counts, ended(board)))
}

/// A round over a table, with tickets of so many rows.
#[tactic(auto, using(worker_pool::proofs::Jobs::same_itself))]
fn round_over(
    alloc: Global,
    rules: &Climb,
    table: &HashedRows,
    size: usize,
) -> Result<Round, Memory>
    requires derived { AreDerived (ClimbRule rules.now.last) (λ row. row ≡ ground_row) table.now }
    requires size { 0 < size }
{
    let frontier = Frontier {
        from: 0,
        to: table.len(),
        size,
    };
    one_round::<Brand>(alloc, rules, table, 4, frontier)
}

/// A table of two rows, the first and what follows from it.
fn two_rows(alloc: Global, rules: &Climb) -> Result<HashedRows, Memory>
    ensures { IfOk result (λ table. AreDerived (ClimbRule rules.now.last) (λ row. row ≡ ground_row) table) }
{
    let mut table = HashedRows::new(alloc, 7);
    solve(alloc, rules, &mut table, 1)?;
    Ok(table)
}

fn round_of_two(alloc: Global, size: usize) -> Result<Round, Memory>
    requires { 0 < size }
{
    let table = two_rows(alloc, &RULES)?;
    round_over(alloc, &RULES, &table, size)
}

/// What follows from the first row is there; what follows from the second one is new.
#[test]
fn the_board_counts_the_rows_that_work_gave(rt: HostRuntime) -> Result<(), Fail> {
    let counts = Some((1, Some(1)));
    let ended = (1, Some(Row::Live(0, 2)), true);
    assert_eq!(rt; round_of_two(rt.alloc(), 2)?, (counts, ended));
    Ok(())
}

/// A ticket for the first row alone gives nothing that is new, and the other one stays.
#[test]
fn what_nobody_took_is_not_over(rt: HostRuntime) -> Result<(), Fail> {
    let counts = Some((0, Some(0)));
    let ended = (0, None, false);
    assert_eq!(rt; round_of_two(rt.alloc(), 1)?, (counts, ended));
    Ok(())
}
