use disks::{DiskFault, MemDisk};
use gated_log::{begun_log, record_at, settled_length};
use std::alloc::Global;
use std::test::Fail;

/// VETJRNL1, an open gate, the length 2 in eight bytes, the payload `hi` and a closed gate.
const ONE_RECORD: [u8; 20] = [
    0x56, 0x45, 0x54, 0x4A, 0x52, 0x4E, 0x4C, 0x31, 1, 2, 0, 0, 0, 0, 0, 0, 0, 0x68, 0x69, 0,
];

/// A new disk in which a log was begun and one record added, and whether the bytes are those of the format.
fn one_record(alloc: Global) -> Result<(bool, bool), DiskFault> {
    let mut disk = MemDisk::new(alloc, Vec::new(alloc), Vec::new(alloc));
    let len = settled_length(&mut disk)?;
    if len > 9 {
        return Ok((false, false));
    }
    let mut log = begun_log(alloc, &mut disk)?;
    let empty = disk.bytes() == b"VETJRNL1\0".as_slice();
    log.append(alloc, &mut disk, b"hi".as_slice())?;
    Ok((empty, disk.bytes() == ONE_RECORD.as_slice()))
}

#[test]
fn a_log_has_the_bytes_of_its_format(rt: HostRuntime) -> Result<(), Fail> {
    assert_eq!(rt; one_record(rt.alloc()), Ok((true, true)));
    Ok(())
}

/// The payload of the record at the offset 8 of these bytes, as a length.
fn payload_length(alloc: Global, bytes: &[u8]) -> Result<Option<usize>, DiskFault> {
    let copied = bytes.to_vec(alloc)?;
    let mut disk = MemDisk::new(alloc, copied, Vec::new(alloc));
    let len = settled_length(&mut disk)?;
    if len < 8 {
        return Ok(None);
    }
    match record_at(alloc, &mut disk, 8, len)? {
        Some(payload) => Ok(Some(payload.len())),
        None => Ok(None),
    }
}

#[test]
fn a_record_is_found_where_it_ends(rt: HostRuntime) -> Result<(), Fail> {
    let alloc = rt.alloc();
    assert_eq!(rt; payload_length(alloc, &ONE_RECORD), Ok(Some(2)));
    assert_eq!(rt; payload_length(alloc, &ONE_RECORD[..19]), Ok(Some(2)));
    assert_eq!(rt; payload_length(alloc, &ONE_RECORD[..18]), Ok(None));
    Ok(())
}
