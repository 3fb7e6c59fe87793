ghost use Rattle.std.specs.Prelude.{◌≡◌, ◌++◌, ◌<◌, pos, ◌-ℤ◌, slice_index, OnOk};
ghost use Rattle.std.specs.List.{flat_map};
ghost use Rattle.dex_maker.specs.Spelling.{two_units};
ghost use Rattle.dex_maker.specs.Payloads.{distance_bits, key_units, target_units, packed_units, pair_key};
ghost use Rattle.dex_maker.specs.Payloads.{pair_target, sparse_units, byte_units, element_count, filled_units};

use crate::spelling::unit_of;
use crate::widths::start_of;
use vet_base::Memory;

/// From a unit to where a line begins.
pub fn distance(starts: &[u32], at: u32, line: u32) -> i64
    ensures { result ≡ pos (slice_index starts.now line) -ℤ pos at }
{
    i64::from(start_of(starts, line)) - i64::from(at)
}

#[tactic(auto, unfolding(crate::specs::Payloads::distance_bits))]
pub fn distance_bits(starts: &[u32], at: u32, line: u32) -> u64
    ensures { result ≡ distance_bits starts.now at line }
{
    distance(starts, at, line).cast_unsigned()
}

fn put_two(units: &mut Vec<u16>, number: u64) -> Result<(), Memory>
    ensures { OnOk result (units.new.items ≡ units.old.items ++ two_units number) }
{
    units.extend_from_slice(&[unit_of(number, 1), unit_of(number, 65536)])?;
    Ok(())
}

fn put_key(units: &mut Vec<u16>, key: i32) -> Result<(), Memory>
    ensures { OnOk result (units.new.items ≡ units.old.items ++ key_units key) }
{
    put_two(units, i64::from(key).cast_unsigned())
}

fn put_targets(units: &mut Vec<u16>, starts: &[u32], at: u32, targets: &[u32]) -> Result<(), Memory>
    ensures { OnOk result (units.new.items ≡ units.old.items ++ flat_map (target_units starts.now at) targets.now) }
{
    for line in targets {
        put_two(units, distance_bits(starts, at, *line))?;
    }
    Ok(())
}

/// The payload of a packed switch at that unit.
#[tactic(auto, unfolding(crate::specs::Payloads::packed_units))]
pub fn put_packed(
    units: &mut Vec<u16>,
    starts: &[u32],
    at: u32,
    first_key: i32,
    targets: &[u32],
) -> Result<(), Memory>
    ensures { OnOk result (units.new.items ≡ units.old.items ++ packed_units starts.now at first_key targets.now) }
{
    units.extend_from_slice(&[0x0100, unit_of(targets.len() as u64, 1)])?;
    put_key(units, first_key)?;
    put_targets(units, starts, at, targets)
}

fn put_pair_keys(units: &mut Vec<u16>, pairs: &[(i32, u32)]) -> Result<(), Memory>
    ensures { OnOk result (units.new.items ≡ units.old.items ++ flat_map pair_key pairs.now) }
{
    for (key, _) in pairs {
        put_key(units, *key)?;
    }
    Ok(())
}

fn put_pair_targets(
    units: &mut Vec<u16>,
    starts: &[u32],
    at: u32,
    pairs: &[(i32, u32)],
) -> Result<(), Memory>
    ensures { OnOk result (units.new.items ≡ units.old.items ++ flat_map (pair_target starts.now at) pairs.now) }
{
    for (_, line) in pairs {
        put_two(units, distance_bits(starts, at, *line))?;
    }
    Ok(())
}

/// The payload of a sparse switch at that unit.
#[tactic(auto, unfolding(crate::specs::Payloads::sparse_units))]
pub fn put_sparse(
    units: &mut Vec<u16>,
    starts: &[u32],
    at: u32,
    pairs: &[(i32, u32)],
) -> Result<(), Memory>
    ensures { OnOk result (units.new.items ≡ units.old.items ++ sparse_units starts.now at pairs.now) }
{
    units.extend_from_slice(&[0x0200, unit_of(pairs.len() as u64, 1)])?;
    put_pair_keys(units, pairs)?;
    put_pair_targets(units, starts, at, pairs)
}

fn put_bytes(units: &mut Vec<u16>, bytes: &[u8]) -> Result<(), Memory>
    ensures { OnOk result (units.new.items ≡ units.old.items ++ byte_units bytes.now) }
{
    let mut rest = bytes;
    while let [low, high, more @ ..] = rest {
        units.push(u16::from(*low) + 256 * u16::from(*high))?;
        rest = more;
    }
    if let [low] = rest {
        units.push(u16::from(*low))?;
    }
    Ok(())
}

fn element_count(width: u16, bytes: &[u8]) -> usize
    ensures { result ≡ element_count width bytes.now }
{
    if width == 0 {
        0
    } else {
        bytes.len() / width as usize
    }
}

/// The payload of an array's elements.
#[tactic(auto, unfolding(crate::specs::Payloads::filled_units))]
pub fn put_filled(units: &mut Vec<u16>, width: u16, bytes: &[u8]) -> Result<(), Memory>
    ensures { OnOk result (units.new.items ≡ units.old.items ++ filled_units width bytes.now) }
{
    units.extend_from_slice(&[0x0300, width])?;
    put_two(units, element_count(width, bytes) as u64)?;
    put_bytes(units, bytes)
}
