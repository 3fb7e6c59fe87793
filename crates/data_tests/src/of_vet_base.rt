use std::alloc::Global;
use std::collections::HashSet;
use std::test::Fail;
use vet_base::{
    FileFault, Files, MemFiles, MemSink, Memory, Name, PutFault, Shared, Sink, read_sleb, read_u2,
    read_u4, read_uleb,
};

// The examples of the LEB128 article that the format's documentation follows.
#[test]
fn reads_numbers(rt: HostRuntime) {
    assert_eq!(rt; read_u2(&[0x34, 0x12], 0), Some((0x1234, 2)));
    let fours = [
        read_u4(&[9, 0x78, 0x56, 0x34, 0x12], 1),
        read_u4(&[0, 0, 0], 0),
    ];
    assert_eq!(rt; fours, [Some((0x1234_5678, 5)), None]);
    let unsigned = [read_uleb(&[0xE5, 0x8E, 0x26], 0), read_uleb(&[0x80; 5], 0)];
    assert_eq!(rt; unsigned, [Some((624_485, 3)), None]);
    let signed = [read_sleb(&[0xC0, 0xBB, 0x78], 0), read_sleb(&[0x80; 5], 0)];
    assert_eq!(rt; signed, [Some((-123_456, 3)), None]);
}

/// A file `a`, and calls that fail by their numbers.
fn files(alloc: Global) -> Result<MemFiles, Memory> {
    let name = Name::from_bytes(alloc, b"a")?;
    let bytes = [1, 2, 3].to_vec(alloc)?;
    let held = vec![in alloc; (name, bytes)]?;
    Ok(MemFiles::new(held, vec![in alloc; 2, 5]?))
}

/// Why a file is not read, or else whether it has these bytes.
fn read<F: Files>(
    alloc: Global,
    files: &mut F,
    name: &str,
    limit: u64,
    bytes: &[u8],
) -> (Option<FileFault>, bool) {
    match files.read(alloc, name, limit) {
        Ok(read) => (None, read.as_slice() == bytes),
        Err(fault) => (Some(fault), false),
    }
}

/// What five calls that read come to, whether the one that writes goes well, and how often calls failed before that
/// and behind the fifth call.
type Calls = ([(Option<FileFault>, bool); 5], bool, [u64; 2]);

fn call<F: Files>(alloc: Global, files: &mut F) -> Calls {
    let first = read(alloc, files, "a", 3, &[1, 2, 3]);
    let second = read(alloc, files, "a", 3, &[1, 2, 3]);
    let before = files.faults();
    let third = read(alloc, files, "a", 2, &[]);
    let is_written = files.write(alloc, "b", &[7]).is_ok();
    let fifth = read(alloc, files, "c", 2, &[]);
    let behind = files.faults();
    let last = read(alloc, files, "b", 2, &[7]);
    (
        [first, second, third, fifth, last],
        is_written,
        [before, behind],
    )
}

/// The same, and how many files there are then.
fn calls(alloc: Global) -> Result<(Calls, usize), Memory> {
    let mut files = files(alloc)?;
    let calls = call(alloc, &mut files);
    Ok((calls, files.files().len()))
}

#[test]
fn files_in_memory_fail_at_their_numbers(rt: HostRuntime) -> Result<(), Fail> {
    let reads = [
        (None, true),
        (Some(FileFault::Failed), false),
        (Some(FileFault::TooLong), false),
        (Some(FileFault::Absent), false),
        (None, true),
    ];
    assert_eq!(rt; calls(rt.alloc())?, ((reads, true, [1, 1]), 2));
    Ok(())
}

/// How each of three puts fails, whether `abe` was taken, and how often the sink failed.
fn puts(alloc: Global) -> Result<([Option<PutFault>; 3], bool, u64), Memory> {
    let mut sink = MemSink::new(alloc, vec![in alloc; 2]?);
    let first = sink.put(alloc, b"ab").err();
    let second = sink.put(alloc, b"cd").err();
    let third = sink.put(alloc, b"e").err();
    let is_taken = sink.taken() == b"abe".as_slice();
    Ok(([first, second, third], is_taken, sink.faults()))
}

#[test]
fn a_sink_in_memory_fails_at_its_numbers(rt: HostRuntime) -> Result<(), Fail> {
    let faults = [None, Some(PutFault::Failed), None];
    assert_eq!(rt; puts(rt.alloc())?, (faults, true, 1));
    Ok(())
}

/// A name of 31 bytes.
const LONG: &[u8; 31] = b"Lcom/example/ads/DeviceReport;;";

/// Whether a name has these bytes, whether its copy has them, and whether the copy is the same as another name.
fn stands(name: &Name, bytes: &[u8], other: &Name) -> Result<[bool; 3], Memory> {
    let copy = name.copy()?;
    Ok([
        name.as_bytes() == bytes,
        copy.as_bytes() == bytes,
        copy == *other,
    ])
}

/// How names of the same bytes stand, made of bytes that are copied and of bytes that are taken.
fn names_of(alloc: Global, bytes: &[u8]) -> Result<[[bool; 3]; 2], Memory> {
    let copied = Name::from_bytes(alloc, bytes)?;
    let taken = Name::new(alloc, bytes.to_vec(alloc)?)?;
    let by_copying = stands(&copied, bytes, &taken)?;
    let by_taking = stands(&taken, bytes, &copied)?;
    Ok([by_copying, by_taking])
}

/// Whether a name is below another.
fn is_below(alloc: Global, first: &[u8], second: &[u8]) -> Result<bool, Memory> {
    let first = Name::from_bytes(alloc, first)?;
    let second = Name::from_bytes(alloc, second)?;
    Ok(first < second)
}

// Up to 30 bytes a name stands in one block, and from 31 on in two.
#[test]
fn names_at_30_and_31_bytes(rt: HostRuntime) -> Result<(), Fail> {
    let alloc = rt.alloc();
    assert_eq!(rt; names_of(alloc, &LONG[..30])?, [[true; 3]; 2]);
    assert_eq!(rt; names_of(alloc, LONG)?, [[true; 3]; 2]);
    assert!(rt; is_below(alloc, &LONG[..30], LONG)?);
    assert!(rt; is_below(alloc, LONG, b"Ld")?);
    Ok(())
}

/// Whether `onClick` and `onClic` are found in a set of `onClick`.
fn found(alloc: Global) -> Result<[bool; 2], Memory> {
    let equal = Name::new(alloc, b"onClick".to_vec(alloc)?)?;
    let other = Name::from_bytes(alloc, b"onClic")?;
    let name = Name::from_bytes(alloc, b"onClick")?;
    let mut names = HashSet::new(alloc);
    names.insert(name)?;
    Ok([names.contains(&equal), names.contains(&other)])
}

#[test]
fn equal_names_hash_alike(rt: HostRuntime) -> Result<(), Fail> {
    assert_eq!(rt; found(rt.alloc())?, [true, false]);
    Ok(())
}

/// Whether a copy of a list has its elements, how many it has, those at 1, 2 and 3, and whether it is empty.
type Looks = (bool, usize, [Option<u32>; 3], bool);

fn looks(list: &Shared<u32>) -> Looks {
    let last = if list.len() == 3 {
        Some(*list.at(2))
    } else {
        None
    };
    (
        list.as_slice() == [3, 1, 4].as_slice(),
        list.len(),
        [list.get(1).copied(), last, list.get(3).copied()],
        list.is_empty(),
    )
}

fn looks_of_copy(alloc: Global) -> Result<Looks, Memory> {
    let list = Shared::from_vec(alloc, vec![in alloc; 3, 1, 4]?)?;
    let copy = list.copy()?;
    Ok(looks(&copy))
}

/// Whether the copy of an empty list, and a list of an empty vector, are empty.
fn empty_lists(alloc: Global) -> Result<[bool; 2], Memory> {
    let copied = Shared::<u8>::new().copy()?.is_empty();
    let made = Shared::from_vec(alloc, Vec::<u8>::new(alloc))?.is_empty();
    Ok([copied, made])
}

#[test]
fn shared_lists(rt: HostRuntime) -> Result<(), Fail> {
    let elements = [Some(1), Some(4), None];
    assert_eq!(rt; looks_of_copy(rt.alloc())?, (true, 3, elements, false));
    assert_eq!(rt; empty_lists(rt.alloc())?, [true; 2]);
    Ok(())
}
