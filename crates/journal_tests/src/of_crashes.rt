//! The worked case over a disk in memory that is crashed at each of its calls, and torn at each length of its writes.
ghost use Rattle.std.specs.Prelude.{◌≡◌, None};

use crate::day::{CHANGES, add_behind, changes_shown, disk_behind, keeper_of, shown_by};
use case_keeper::{KeepFault, Keeper};
use disks::DiskCall;
use std::alloc::Global;
use std::test::Fail;

/// The old bytes with others over them from an offset on.
fn written_over(alloc: Global, old: &[u8], at: u64, bytes: &[u8]) -> Result<Vec<u8>, KeepFault> {
    let at = (at as usize).min(old.len());
    let mut new = old[..at].to_vec(alloc)?;
    new.extend_from_slice(bytes)?;
    let end = at.saturating_add(bytes.len());
    if end < old.len() {
        new.extend_from_slice(&old[end..])?;
    }
    Ok(new)
}

/// What a disk holds behind these calls.
fn bytes_behind(alloc: Global, calls: &[DiskCall]) -> Result<Vec<u8>, KeepFault> {
    let mut bytes = Vec::new(alloc);
    for call in calls {
        match call {
            DiskCall::Write(at, written) => {
                bytes = written_over(alloc, &bytes, *at, written.as_slice())?;
            }
            DiskCall::Cut(len) => bytes.truncate(*len as usize),
            DiskCall::Len | DiskCall::Read(_, _) | DiskCall::Sync => {}
        }
    }
    Ok(bytes)
}

/// How many calls the disk has taken when so many changes were acknowledged.
fn calls_behind(alloc: Global, count: u8) -> Result<usize, KeepFault> {
    let disk = disk_behind(alloc, count)?;
    Ok(disk.calls().len())
}

/// How many changes were acknowledged when the disk had taken so many calls.
fn acknowledged(alloc: Global, calls: usize) -> Result<u8, KeepFault> {
    let mut most = 0;
    for count in 0..=CHANGES {
        if calls_behind(alloc, count)? <= calls {
            most = count;
        }
    }
    Ok(most)
}

/// Where the journal shows so many changes, or one more, it takes the next, if there is one; how many it has then.
fn with_next<K: Keeper>(alloc: Global, keeper: &mut K, count: u8) -> Result<Option<u8>, KeepFault>
    requires { K.told keeper.old ≡ None }
    ensures { K.told keeper.new ≡ None }
{
    let shown = changes_shown(alloc, keeper)?;
    if shown != count && shown != count.saturating_add(1) {
        return Ok(None);
    }
    if shown >= CHANGES {
        return Ok(Some(shown));
    }
    add_behind(alloc, keeper, shown)?;
    Ok(Some(shown.saturating_add(1)))
}

/// Whether a later run over these bytes shows as many changes as are due.
fn is_shown_later(
    alloc: Global,
    due: Result<Option<u8>, KeepFault>,
    bytes: &[u8],
) -> Result<bool, KeepFault> {
    match due? {
        Some(due) => Ok(shown_by(alloc, bytes)? == due),
        None => Ok(false),
    }
}

/// Whether a journal of these bytes shows so many changes, or one more, takes the next, and shows it to a later run.
fn goes_on(alloc: Global, bytes: &[u8], count: u8) -> Result<bool, KeepFault> {
    let mut keeper = keeper_of(alloc, bytes, &[])?;
    let due = with_next(alloc, &mut keeper, count);
    let disk = keeper.give_back();
    is_shown_later(alloc, due, disk.bytes())
}

/// Whether the journal goes on where these bytes came over the old ones from an offset on.
fn goes_on_over(
    alloc: Global,
    old: &[u8],
    at: u64,
    bytes: &[u8],
    count: u8,
) -> Result<bool, KeepFault> {
    let torn = written_over(alloc, old, at, bytes)?;
    goes_on(alloc, &torn, count)
}

/// Whether the journal goes on where a write left that many bytes of one value, in place of its own.
fn goes_on_filled(
    alloc: Global,
    old: &[u8],
    at: u64,
    fill: (u8, usize),
    count: u8,
) -> Result<bool, KeepFault> {
    let (byte, len) = fill;
    let whatever = vec![in alloc; byte; len]?;
    goes_on_over(alloc, old, at, &whatever, count)
}

/// Whether the journal goes on however this write was torn: the first bytes of it, so many, or whatever in their place.
fn survives_write(
    alloc: Global,
    old: &[u8],
    at: u64,
    bytes: &[u8],
    count: u8,
) -> Result<bool, KeepFault> {
    for part in 0..=bytes.len() {
        if !goes_on_over(alloc, old, at, &bytes[..part], count)? {
            return Ok(false);
        }
        for fill in [0u8, 1, 255] {
            if !goes_on_filled(alloc, old, at, (fill, part), count)? {
                return Ok(false);
            }
        }
    }
    Ok(true)
}

/// Whether the journal goes on after a crash behind the first calls, so many, and within the next.
fn survives(alloc: Global, calls: &[DiskCall], done: usize) -> Result<bool, KeepFault> {
    let (before, next) = calls.split_at(done.min(calls.len()));
    let count = acknowledged(alloc, done)?;
    let bytes = bytes_behind(alloc, before)?;
    match next.first() {
        Some(DiskCall::Write(at, written)) => {
            survives_write(alloc, &bytes, *at, written.as_slice(), count)
        }
        _ => goes_on(alloc, &bytes, count),
    }
}

/// The first number of calls behind which a crash loses a change or adds one too many, where there is one.
fn first_loss(alloc: Global) -> Result<Option<usize>, KeepFault> {
    let disk = disk_behind(alloc, CHANGES)?;
    for done in 0..=disk.calls().len() {
        if !survives(alloc, disk.calls(), done)? {
            return Ok(Some(done));
        }
    }
    Ok(None)
}

#[test]
fn a_crash_leaves_the_acknowledged_changes_or_one_more(rt: HostRuntime) -> Result<(), Fail> {
    assert_eq!(rt; first_loss(rt.alloc()), Ok(None));
    Ok(())
}

/// Asks for a change until it is acknowledged, twice at most; whether it was not shown until then.
fn adds_at_last<K: Keeper>(alloc: Global, keeper: &mut K, done: u8) -> Result<bool, KeepFault>
    requires { K.told keeper.old ≡ None }
    ensures { K.told keeper.new ≡ None }
{
    if add_behind(alloc, keeper, done).is_ok() {
        return Ok(true);
    }
    if changes_shown(alloc, keeper)? != done {
        return Ok(false);
    }
    add_behind(alloc, keeper, done)?;
    Ok(true)
}

/// Whether each change was acknowledged at last, and shown no earlier.
fn adds_all<K: Keeper>(alloc: Global, keeper: &mut K) -> Result<bool, KeepFault>
    requires { K.told keeper.old ≡ None }
    ensures { K.told keeper.new ≡ None }
{
    for done in 0..CHANGES {
        if !adds_at_last(alloc, keeper, done)? {
            return Ok(false);
        }
    }
    Ok(true)
}

/// Whether all changes were added, and a journal of these bytes has them.
fn has_all(alloc: Global, added: Result<bool, KeepFault>, bytes: &[u8]) -> Result<bool, KeepFault> {
    Ok(added? && goes_on(alloc, bytes, CHANGES)?)
}

/// Whether all changes come to stay over a disk that fails at the call of this number.
fn gets_over(alloc: Global, failing: u64) -> Result<bool, KeepFault> {
    let mut keeper = keeper_of(alloc, &[], &[failing])?;
    let added = adds_all(alloc, &mut keeper);
    let disk = keeper.give_back();
    has_all(alloc, added, disk.bytes())
}

/// The number of the first call whose failure is not got over; none where there is no such call.
fn first_fault(alloc: Global) -> Result<Option<u64>, KeepFault> {
    let calls = calls_behind(alloc, CHANGES)? as u64;
    for failing in 1..=calls {
        if !gets_over(alloc, failing)? {
            return Ok(Some(failing));
        }
    }
    Ok(None)
}

#[test]
fn a_fault_of_the_disk_is_got_over(rt: HostRuntime) -> Result<(), Fail> {
    assert_eq!(rt; first_fault(rt.alloc()), Ok(None));
    Ok(())
}
