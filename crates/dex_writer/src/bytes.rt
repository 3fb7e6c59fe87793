ghost use Rattle.std.specs.Prelude.{◌≡◌, ◌++◌, length, OnOk};
ghost use Rattle.std.specs.List.{flat_map};
ghost use Rattle.dex_writer.specs.Bytes.{u2_bytes, u4_bytes, groups_of, uleb_bytes};
ghost use Rattle.dex_writer.specs.Bytes.{padding_of, text_len, string_item, type_list};

use vet_base::{Memory, Name};

/// Two bytes, the low one first: of the number its low 16 bits.
pub fn put_u2(out: &mut Vec<u8>, number: usize) -> Result<(), Memory>
    ensures { OnOk result (out.new.items ≡ out.old.items ++ u2_bytes number) }
{
    let bytes = [(number % 256) as u8, (number / 256 % 256) as u8];
    out.extend_from_slice(&bytes)?;
    Ok(())
}

/// Four bytes, the low one first: of the number its low 32 bits.
pub fn put_u4(out: &mut Vec<u8>, number: usize) -> Result<(), Memory>
    ensures { OnOk result (out.new.items ≡ out.old.items ++ u4_bytes number) }
{
    let bytes = [
        (number % 256) as u8,
        (number / 256 % 256) as u8,
        (number / 65536 % 256) as u8,
        (number / 16_777_216 % 256) as u8,
    ];
    out.extend_from_slice(&bytes)?;
    Ok(())
}

#[tactic(auto, unfolding(crate::specs::Bytes::groups_of), using(crate::proofs::ByteLemmas::groups_step))]
fn put_groups(out: &mut Vec<u8>, more: u8, number: usize) -> Result<(), Memory>
    ensures { OnOk result (out.new.items ≡ out.old.items ++ groups_of more number) }
{
    if more == 0 {
        out.push((number % 128) as u8)?;
        return Ok(());
    }
    if number < 128 {
        out.push(number as u8)?;
        return Ok(());
    }
    out.push((number % 128) as u8 + 128)?;
    put_groups(out, more - 1, number / 128)?;
    Ok(())
}

/// Unsigned LEB128 of at most five bytes.
pub fn put_uleb(out: &mut Vec<u8>, number: usize) -> Result<(), Memory>
    ensures { OnOk result (out.new.items ≡ out.old.items ++ uleb_bytes number) }
{
    put_groups(out, 4, number)
}

/// Zeros from this length up to a multiple of four.
#[tactic(auto, unfolding(crate::specs::Bytes::padding_of))]
pub fn put_padding(out: &mut Vec<u8>, len: usize) -> Result<(), Memory>
    ensures { OnOk result (out.new.items ≡ out.old.items ++ padding_of len) }
{
    let zeros = [0, 0, 0];
    out.extend_from_slice(&zeros[..(4 - len % 4) % 4])?;
    Ok(())
}

#[tactic(auto, unfolding(crate::specs::Bytes::text_len))]
fn text_len_of(bytes: &[u8]) -> usize
    ensures { result ≡ text_len bytes.now }
{
    bytes.iter().filter(|b| **b < 128 || 192 <= **b).count()
}

/// A text with its length before and a 0 behind it.
pub fn put_string(out: &mut Vec<u8>, name: &Name) -> Result<(), Memory>
    ensures { OnOk result (out.new.items ≡ out.old.items ++ string_item name.now) }
{
    put_uleb(out, text_len_of(name.as_bytes()))?;
    out.extend_from_slice(name.as_bytes())?;
    out.push(0)?;
    Ok(())
}

/// Two bytes for each number.
pub fn put_u2s(out: &mut Vec<u8>, numbers: &[u32]) -> Result<(), Memory>
    ensures { OnOk result (out.new.items ≡ out.old.items ++ flat_map u2_bytes numbers.now) }
{
    for number in numbers {
        put_u2(out, *number as usize)?;
    }
    Ok(())
}

/// Two bytes for each unit.
pub fn put_units(out: &mut Vec<u8>, units: &[u16]) -> Result<(), Memory>
    ensures { OnOk result (out.new.items ≡ out.old.items ++ flat_map u2_bytes units.now) }
{
    for unit in units {
        put_u2(out, *unit as usize)?;
    }
    Ok(())
}

/// Four bytes for each number.
pub fn put_u4s(out: &mut Vec<u8>, numbers: &[u32]) -> Result<(), Memory>
    ensures { OnOk result (out.new.items ≡ out.old.items ++ flat_map u4_bytes numbers.now) }
{
    for number in numbers {
        put_u4(out, *number as usize)?;
    }
    Ok(())
}

/// A list of types, and nothing for an empty one.
#[tactic(auto, unfolding(crate::specs::Bytes::type_list))]
pub fn put_type_list(out: &mut Vec<u8>, types: &[u32]) -> Result<(), Memory>
    ensures { OnOk result (out.new.items ≡ out.old.items ++ type_list types.now) }
{
    if types.is_empty() {
        return Ok(());
    }
    put_u4(out, types.len())?;
    put_u2s(out, types)?;
    put_padding(out, 2 * (types.len() % 2))
}
