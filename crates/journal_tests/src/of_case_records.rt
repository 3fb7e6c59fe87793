use case_records::{NoPayload, change_of, put_change};
use case_rules::{Appeal, Change};
use std::alloc::Global;
use std::test::Fail;
use vet_base::{Memory, Name, Shared, Stop};

/// An appeal of the developer `ann` against the decision on `r1`, on day 258, with the text `no`: the kind, each text
/// behind its length, and the day.
const APPEAL: [u8; 42] = [
    2, 3, 0, 0, 0, 0, 0, 0, 0, 0x61, 0x6E, 0x6E, 2, 0, 0, 0, 0, 0, 0, 0, 0x72, 0x31, 2, 1, 0, 0, 2,
    0, 0, 0, 0, 0, 0, 0, 0x6E, 0x6F, 9, 9, 9, 9, 9, 9,
];

fn appeal(alloc: Global) -> Result<Change, Memory> {
    let party = Name::from_bytes(alloc, b"ann".as_slice())?;
    let reference = Name::from_bytes(alloc, b"r1".as_slice())?;
    let text = b"no".as_slice().to_vec(alloc)?;
    let text = Shared::from_vec(alloc, text)?;
    Ok(Change::Appeal(party, reference, Appeal { day: 258, text }))
}

/// Whether the bytes of the appeal are those of the format.
fn is_spelled(alloc: Global) -> Result<bool, Memory> {
    let mut bytes = Vec::new(alloc);
    put_change(&mut bytes, &appeal(alloc)?)?;
    Ok(bytes.as_slice() == &APPEAL[..36])
}

#[test]
fn an_appeal_has_the_bytes_of_its_format(rt: HostRuntime) -> Result<(), Fail> {
    assert_eq!(rt; is_spelled(rt.alloc())?, true);
    Ok(())
}

/// Why the first bytes of the appeal, so many, are no change; none where they are one.
fn fault_of(alloc: Global, bytes: &[u8]) -> Option<NoPayload> {
    match change_of(alloc, bytes) {
        Ok(_) => None,
        Err(Stop::Fault(fault)) => Some(fault),
        Err(Stop::Memory) => None,
    }
}

#[test]
fn bytes_are_one_change_or_none(rt: HostRuntime) -> Result<(), Fail> {
    let alloc = rt.alloc();
    assert_eq!(rt; fault_of(alloc, &APPEAL[..36]), None);
    assert_eq!(rt; fault_of(alloc, &APPEAL[..35]), Some(NoPayload::Cut));
    assert_eq!(rt; fault_of(alloc, &APPEAL[..37]), Some(NoPayload::Rest));
    assert_eq!(rt; fault_of(alloc, &[]), Some(NoPayload::Cut));
    Ok(())
}
