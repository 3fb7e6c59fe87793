ghost use Rattle.case_rules.specs.Docket.{IsDocket};

use case_keeper::MemKeeper;
use case_lines::reply_to;
use std::alloc::{AllocError, Global};
use std::io;
use std::time::Instant;

/// The line with the number of a hundred in the place of `@`.
fn in_hundred(alloc: Global, line: &str, hundred: u32) -> Result<String, AllocError> {
    let number = hundred.to_string(alloc)?;
    line.replace(alloc, "@", number.as_str())
}

/// The line with the number of a turn in the place of `%`, and that of its hundred in the place of `@`.
fn in_turn(alloc: Global, line: &str, turn: u32) -> Result<String, AllocError> {
    let number = turn.to_string(alloc)?;
    let line = line.replace(alloc, "%", number.as_str())?;
    in_hundred(alloc, line.as_str(), turn / 100)
}

/// Whether there is a reply to a line.
fn is_replied(alloc: Global, keeper: &mut MemKeeper, line: &str) -> bool
    requires { IsDocket keeper.old.cases }
    ensures { IsDocket keeper.new.cases }
{
    reply_to(alloc, keeper, line).is_ok()
}

/// Puts a line as often as said, and says how often there was a reply; `%` in the line is the number of the turn and
/// `@` that of its hundred.
fn replied(rt: &HostRuntime, keeper: &mut MemKeeper, turns: u32, line: &str) -> io::Result<u32>
    requires { IsDocket keeper.old.cases }
    ensures { IsDocket keeper.new.cases }
{
    let mut replied = 0u32;
    for turn in 0..turns {
        let line = in_turn(rt.alloc(), line, turn)?;
        if is_replied(rt.alloc(), keeper, line.as_str()) {
            replied = replied.saturating_add(1);
        }
    }
    Ok(replied)
}

/// Prints what each of a number of commands takes, in nanoseconds.
fn timed(rt: &HostRuntime, keeper: &mut MemKeeper, turns: u32, line: &str) -> io::Result<()>
    requires { IsDocket keeper.old.cases }
    ensures { IsDocket keeper.new.cases }
{
    let begin = Instant::now(rt)?;
    let count = replied(rt, keeper, turns, line)?;
    let nanos = begin.elapsed(rt)?.as_nanos() / u128::from(turns.max(1));
    println!(rt; "{line}: {count} replies, {nanos} ns each")
}

/// Prints what each of these commands takes, one command after the other.
fn each_timed(
    rt: &HostRuntime,
    keeper: &mut MemKeeper,
    turns: u32,
    lines: &[&str],
) -> io::Result<()>
    requires { IsDocket keeper.old.cases }
    ensures { IsDocket keeper.new.cases }
{
    for line in lines {
        timed(rt, keeper, turns, line)?;
    }
    Ok(())
}

/// Commands over many cases, a hundred of each developer; the lists a hundred times.
fn over_cases(rt: &HostRuntime, keeper: &mut MemKeeper, cases: u32) -> io::Result<()>
    requires { IsDocket keeper.old.cases }
    ensures { IsDocket keeper.new.cases }
{
    let each = [
        "1 1 d@ submit r% x",
        "1 1 d@ show r%",
        "1 1 rex decide flagged",
        "1 2 rex review d@ r% flagged",
        "1 2 d@ appeal r% why",
        "1 2 sue rule d@ r% uphold",
    ];
    each_timed(rt, keeper, cases, &each)?;
    each_timed(rt, keeper, 100, &["1 2 d@ list", "1 2 rex list"])
}

fn with_cases(rt: &HostRuntime, cases: u32) -> io::Result<()> {
    println!(rt; "{cases} cases")?;
    let mut keeper = MemKeeper::new(rt.alloc());
    over_cases(rt, &mut keeper, cases)
}

/// Five hundred cases of one developer, submitted and decided.
fn five_hundred(rt: &HostRuntime, keeper: &mut MemKeeper, turn: u32) -> io::Result<()>
    requires { IsDocket keeper.old.cases }
    ensures { IsDocket keeper.new.cases }
{
    let number = turn.to_string(rt.alloc())?;
    let line = "1 1 ann submit s@-% x".replace(rt.alloc(), "@", number.as_str())?;
    replied(rt, keeper, 500, line.as_str())?;
    replied(rt, keeper, 500, "1 1 rex decide flagged")?;
    Ok(())
}

/// Submissions of one developer who has so many decided cases.
fn over_own_cases(rt: &HostRuntime, keeper: &mut MemKeeper, cases: u32) -> io::Result<()>
    requires { IsDocket keeper.old.cases }
    ensures { IsDocket keeper.new.cases }
{
    for turn in 0..cases / 500 {
        five_hundred(rt, keeper, turn)?;
    }
    timed(rt, keeper, 500, "1 1 ann submit r% x")
}

fn with_own_cases(rt: &HostRuntime, cases: u32) -> io::Result<()> {
    println!(rt; "{cases} cases of one developer")?;
    let mut keeper = MemKeeper::new(rt.alloc());
    over_own_cases(rt, &mut keeper, cases)
}

/// What commands take with 1,000, 10,000 and 100,000 cases.
pub fn times(rt: &HostRuntime) -> io::Result<()> {
    with_cases(rt, 1_000)?;
    with_cases(rt, 10_000)?;
    with_cases(rt, 100_000)?;
    with_own_cases(rt, 1_000)?;
    with_own_cases(rt, 10_000)?;
    with_own_cases(rt, 100_000)
}
