//! Journals that are empty, cut, foreign or bad.
use crate::day::{change_behind, changes_shown, disk_behind, keeper_of, shown_by};
use case_keeper::{KeepFault, Keeper};
use case_records::put_change;
use journal_reading::OpenFault;
use std::alloc::Global;
use std::test::Fail;
use vet_base::Memory;

/// VETJRNL1 and a closed gate.
const EMPTY: [u8; 9] = [0x56, 0x45, 0x54, 0x4A, 0x52, 0x4E, 0x4C, 0x31, 0];

/// An open gate and a length of 2^64 - 1 behind the bytes by which a journal is known, and five bytes more.
const HUGE: [u8; 22] = [
    0x56, 0x45, 0x54, 0x4A, 0x52, 0x4E, 0x4C, 0x31, 1, 255, 255, 255, 255, 255, 255, 255, 255, 1,
    2, 3, 4, 5,
];

/// Whether a journal of these bytes has no case, and is the empty journal once it was asked.
fn is_emptied(alloc: Global, bytes: &[u8]) -> Result<bool, KeepFault> {
    let mut keeper = keeper_of(alloc, bytes, &[])?;
    let shown = changes_shown(alloc, &mut keeper);
    let disk = keeper.give_back();
    Ok(shown? == 0 && disk.bytes() == EMPTY.as_slice())
}

#[test]
fn at_most_nine_bytes_become_the_empty_journal(rt: HostRuntime) -> Result<(), Fail> {
    let alloc = rt.alloc();
    for count in 0..=9 {
        assert_eq!(rt; is_emptied(alloc, &EMPTY[..count]), Ok(true));
        assert_eq!(rt; is_emptied(alloc, &[0x58; 9][..count]), Ok(true));
    }
    Ok(())
}

#[test]
fn a_length_beyond_the_end_is_cut_off(rt: HostRuntime) -> Result<(), Fail> {
    let alloc = rt.alloc();
    for count in 9..=22 {
        assert_eq!(rt; is_emptied(alloc, &HUGE[..count]), Ok(true));
    }
    Ok(())
}

/// How opening a journal of these bytes ends.
fn opening_of(
    alloc: Global,
    bytes: &[u8],
    failing: &[u64],
) -> Result<Option<OpenFault>, KeepFault> {
    let mut keeper = keeper_of(alloc, bytes, failing)?;
    Ok(keeper.open(alloc).err())
}

/// What a look-up of a journal of these bytes ends in, and how often it failed.
fn look_up(alloc: Global, bytes: &[u8]) -> Result<(Option<KeepFault>, u64), KeepFault> {
    let mut keeper = keeper_of(alloc, bytes, &[])?;
    let fault = changes_shown(alloc, &mut keeper).err();
    Ok((fault, keeper.faults()))
}

#[test]
fn ten_other_bytes_are_foreign(rt: HostRuntime) -> Result<(), Fail> {
    let alloc = rt.alloc();
    assert_eq!(rt;
        opening_of(alloc, &[0x58; 10], &[]),
        Ok(Some(OpenFault::Magic))
    );
    assert_eq!(rt;
        look_up(alloc, &[0x58; 10]),
        Ok((Some(KeepFault::Failed), 1))
    );
    Ok(())
}

#[test]
fn a_disk_that_fails_first_is_not_opened(rt: HostRuntime) -> Result<(), Fail> {
    assert_eq!(rt;
        opening_of(rt.alloc(), &[], &[1]),
        Ok(Some(OpenFault::Failed))
    );
    Ok(())
}

/// The bytes of a change of the worked case.
fn payload_of(alloc: Global, number: u8) -> Result<Vec<u8>, KeepFault> {
    let change = change_behind(alloc, number)?;
    let mut payload = Vec::new(alloc);
    put_change(&mut payload, &change)?;
    Ok(payload)
}

/// An open gate, the length of the payload, and the payload.
fn put_record(bytes: &mut Vec<u8>, payload: &[u8]) -> Result<(), Memory> {
    bytes.push(1)?;
    bytes.extend_from_slice(&(payload.len() as u64).to_le_bytes())?;
    bytes.extend_from_slice(payload)?;
    Ok(())
}

/// A journal with the records of these changes of the worked case, whether they fit or not.
fn journal_with(alloc: Global, numbers: &[u8]) -> Result<Vec<u8>, KeepFault> {
    let mut bytes = EMPTY[..8].to_vec(alloc)?;
    for number in numbers {
        let payload = payload_of(alloc, *number)?;
        put_record(&mut bytes, &payload)?;
    }
    bytes.push(0)?;
    Ok(bytes)
}

/// Where a journal with the records of these changes is bad.
fn bad_place(alloc: Global, numbers: &[u8]) -> Result<Option<OpenFault>, KeepFault> {
    let bytes = journal_with(alloc, numbers)?;
    opening_of(alloc, &bytes, &[])
}

#[test]
fn a_record_that_does_not_fit_is_told_by_its_gate(rt: HostRuntime) -> Result<(), Fail> {
    let alloc = rt.alloc();
    assert_eq!(rt; bad_place(alloc, &[0, 1, 2, 3]), Ok(None));
    assert_eq!(rt; bad_place(alloc, &[1]), Ok(Some(OpenFault::Bad(8))));
    let second = journal_with(alloc, &[0])?.len() as u64;
    assert_eq!(rt;
        bad_place(alloc, &[0, 0]),
        Ok(Some(OpenFault::Bad(second.saturating_sub(1))))
    );
    Ok(())
}

/// Whether a journal with the worked case that is cut to so many bytes shows what its whole records make.
fn shows_whole_records(alloc: Global, bytes: &[u8], ends: &[usize]) -> Result<bool, KeepFault> {
    let whole = ends.iter().filter(|end| **end <= bytes.len()).count();
    Ok(shown_by(alloc, bytes)? as usize == whole)
}

/// The first length to which a journal with the worked case is cut in vain.
fn first_wrong_cut(alloc: Global) -> Result<Option<usize>, KeepFault> {
    let mut ends = Vec::new(alloc);
    for count in 1..=4 {
        let records = [0, 1, 2, 3];
        let bytes = journal_with(alloc, &records[..count])?;
        ends.push(bytes.len().saturating_sub(1))?;
    }
    let bytes = journal_with(alloc, &[0, 1, 2, 3])?;
    for len in 0..=bytes.len() {
        if !shows_whole_records(alloc, &bytes[..len], &ends)? {
            return Ok(Some(len));
        }
    }
    Ok(None)
}

#[test]
fn a_journal_that_is_cut_has_its_whole_records(rt: HostRuntime) -> Result<(), Fail> {
    assert_eq!(rt; first_wrong_cut(rt.alloc()), Ok(None));
    Ok(())
}

/// Whether the journal that the keeper writes is that of its format.
fn is_written_so(alloc: Global) -> Result<bool, KeepFault> {
    let disk = disk_behind(alloc, 4)?;
    let due = journal_with(alloc, &[0, 1, 2, 3])?;
    Ok(disk.bytes() == due.as_slice())
}

#[test]
fn a_journal_has_the_bytes_of_its_format(rt: HostRuntime) -> Result<(), Fail> {
    assert_eq!(rt; is_written_so(rt.alloc()), Ok(true));
    Ok(())
}
