use disks::{Disk, DiskFault, MemDisk};
use std::alloc::Global;
use std::test::Fail;

/// A disk of the bytes `abc` that fails at these calls.
fn abc(alloc: Global, failing: &[u64]) -> Result<MemDisk, DiskFault> {
    let bytes = b"abc".as_slice().to_vec(alloc)?;
    let failing = failing.to_vec(alloc)?;
    Ok(MemDisk::new(alloc, bytes, failing))
}

/// The length after `de` was written behind `abc`, and after a cut to four bytes.
fn lengths(alloc: Global) -> Result<(u64, u64), DiskFault> {
    let mut disk = abc(alloc, &[])?;
    if disk.len()? < 3 {
        return Ok((0, 0));
    }
    disk.write_at(3, b"de".as_slice())?;
    let first = disk.len()?;
    if first < 4 {
        return Ok((first, 0));
    }
    disk.cut(4)?;
    disk.sync()?;
    Ok((first, disk.len()?))
}

#[test]
fn a_disk_grows_and_is_cut(rt: HostRuntime) -> Result<(), Fail> {
    assert_eq!(rt; lengths(rt.alloc()), Ok((5, 4)));
    Ok(())
}

/// What a read of a second call that fails comes to, how often the disk failed, and how many calls there were.
fn failed_read(alloc: Global) -> Result<(Option<DiskFault>, u64, usize), DiskFault> {
    let mut disk = abc(alloc, &[2])?;
    let mut room = [0u8; 2];
    let count = disk.read(1, &mut room)?;
    let fault = disk.read(0, &mut room).err();
    Ok((fault, disk.faults(), disk.calls().len() + count))
}

#[test]
fn a_disk_fails_at_its_numbers(rt: HostRuntime) -> Result<(), Fail> {
    assert_eq!(rt;
        failed_read(rt.alloc()),
        Ok((Some(DiskFault::Failed), 1, 4))
    );
    Ok(())
}
