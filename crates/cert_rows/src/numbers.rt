//! Numbers of one and of four bytes, the low byte first.
ghost use Rattle.std.specs.Prelude.{◌≡◌, ◌<◌, ◌++◌, ◌∷◌, OnOk};
ghost use Rattle.cert_rows.specs.Reading.{Reads, byte_from, u4_from, zero_byte_from, zero_from};
ghost use Rattle.cert_rows.specs.Spelling.{u4_bytes};

use crate::RowFault;
use vet_base::Memory;

/// The first byte, and those behind it.
pub fn byte_from(bytes: &[u8]) -> Result<(u8, &[u8]), RowFault>
    ensures { Reads (λ x. (x.0, x.1.now)) result (byte_from bytes.now) }
{
    match bytes {
        [byte, rest @ ..] => Ok((*byte, rest)),
        [] => Err(RowFault::Cut),
    }
}

/// The number of the first four bytes, and the bytes behind them.
pub fn u4_from(bytes: &[u8]) -> Result<(u32, &[u8]), RowFault>
    ensures { Reads (λ x. (x.0, x.1.now)) result (u4_from bytes.now) }
{
    match bytes {
        [a, b, c, d, rest @ ..] => Ok((u32::from_le_bytes([*a, *b, *c, *d]), rest)),
        _ => Err(RowFault::Cut),
    }
}

#[tactic(auto, unfolding(crate::specs::Reading::zero_byte_from), using(vet_base::proofs::Scripts::run_bind))]
fn zero_byte_from(bytes: &[u8]) -> Result<&[u8], RowFault>
    ensures { Reads (λ x. x.now) result (zero_byte_from bytes.now) }
{
    let (byte, rest) = byte_from(bytes)?;
    if byte != 0 {
        return Err(RowFault::Bad);
    }
    Ok(rest)
}

/// Behind a number of four bytes that is 0.
#[tactic(auto, unfolding(crate::specs::Reading::zero_from), using(vet_base::proofs::Scripts::run_bind))]
pub fn zero_from(bytes: &[u8]) -> Result<&[u8], RowFault>
    ensures { Reads (λ x. x.now) result (zero_from bytes.now) }
{
    let rest = zero_byte_from(bytes)?;
    let rest = zero_byte_from(rest)?;
    let rest = zero_byte_from(rest)?;
    zero_byte_from(rest)
}

pub fn put_u4(out: &mut Vec<u8>, number: u32) -> Result<(), Memory>
    ensures bytes { OnOk result (out.new.items ≡ out.old.items ++ u4_bytes number) }
    ensures fits { number < 4294967296 }
{
    out.extend_from_slice(&number.to_le_bytes())?;
    Ok(())
}
