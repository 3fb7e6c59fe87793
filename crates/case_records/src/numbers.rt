//! Numbers, the low byte first, and texts behind their length.
ghost use Rattle.std.specs.Prelude.{◌≡◌, ◌<◌, ◌++◌, length, IfOk, OnOk};
ghost use Rattle.vet_base.specs.Script.{Gives};
ghost use Rattle.gated_log.specs.Format.{u8_bytes};
ghost use Rattle.case_records.specs.Fitting.{TextFits, IsSmall};
ghost use Rattle.case_records.specs.Reading.{byte_from, u4_from, u8_from, bytes_from, text_from, end_from};
ghost use Rattle.case_records.specs.Spelling.{u4_bytes, text_bytes};

use crate::NoPayload;
use vet_base::{Memory, Stop};

pub(crate) type ReadError = Stop<NoPayload>;

pub(crate) fn byte_from(bytes: &[u8]) -> Result<(u8, &[u8]), ReadError>
    ensures { Gives (λ x. (x.0, x.1.now)) result (byte_from bytes.now) }
{
    match bytes {
        [byte, rest @ ..] => Ok((*byte, rest)),
        [] => Err(Stop::Fault(NoPayload::Cut)),
    }
}

pub(crate) fn u4_from(bytes: &[u8]) -> Result<(u32, &[u8]), ReadError>
    ensures { Gives (λ x. (x.0, x.1.now)) result (u4_from bytes.now) }
{
    match bytes {
        [a, b, c, d, rest @ ..] => Ok((u32::from_le_bytes([*a, *b, *c, *d]), rest)),
        _ => Err(Stop::Fault(NoPayload::Cut)),
    }
}

pub(crate) fn u8_from(bytes: &[u8]) -> Result<(u64, &[u8]), ReadError>
    ensures { Gives (λ x. (x.0, x.1.now)) result (u8_from bytes.now) }
{
    match bytes {
        [a, b, c, d, e, f, g, h, rest @ ..] => Ok((
            u64::from_le_bytes([*a, *b, *c, *d, *e, *f, *g, *h]),
            rest,
        )),
        _ => Err(Stop::Fault(NoPayload::Cut)),
    }
}

/// So many bytes, and those behind them. A count may be any number up to 2^64 - 1.
#[tactic(auto, unfolding(crate::specs::Reading::bytes_from), using(vet_base::proofs::Scripts::run_bind))]
pub(crate) fn bytes_from(count: u64, bytes: &[u8]) -> Result<(&[u8], &[u8]), ReadError>
    ensures gives { Gives (λ x. (x.0.now, x.1.now)) result (bytes_from count bytes.now) }
    ensures long { IfOk result (λ x. length x.0.now ≡ count) }
{
    if count > bytes.len() as u64 {
        return Err(Stop::Fault(NoPayload::Cut));
    }
    let count = count as usize;
    Ok((&bytes[..count], &bytes[count..]))
}

#[tactic(auto, unfolding(crate::specs::Reading::text_from), using(vet_base::proofs::Scripts::run_bind))]
pub(crate) fn text_from(bytes: &[u8]) -> Result<(&[u8], &[u8]), ReadError>
    ensures { Gives (λ x. (x.0.now, x.1.now)) result (text_from bytes.now) }
{
    let (count, rest) = u8_from(bytes)?;
    bytes_from(count, rest)
}

/// Nothing more is there.
#[tactic(auto, unfolding(crate::specs::Reading::end_from))]
pub(crate) fn end_from(bytes: &[u8]) -> Result<(), ReadError>
    ensures { Gives (λ x. x) result (end_from bytes.now) }
{
    if !bytes.is_empty() {
        return Err(Stop::Fault(NoPayload::Rest));
    }
    Ok(())
}

pub(crate) fn put_u4(out: &mut Vec<u8>, number: u32) -> Result<(), Memory>
    ensures bytes { OnOk result (out.new.items ≡ out.old.items ++ u4_bytes number) }
    ensures fits { IsSmall number }
{
    out.extend_from_slice(&number.to_le_bytes())?;
    Ok(())
}

pub(crate) fn put_u8(out: &mut Vec<u8>, number: u64) -> Result<(), Memory>
    ensures bytes { OnOk result (out.new.items ≡ out.old.items ++ u8_bytes number) }
    ensures fits { number < 18446744073709551616 }
{
    out.extend_from_slice(&number.to_le_bytes())?;
    Ok(())
}

#[tactic(auto, unfolding(crate::specs::Spelling::text_bytes))]
pub(crate) fn put_text(out: &mut Vec<u8>, text: &[u8]) -> Result<(), Memory>
    ensures bytes { OnOk result (out.new.items ≡ out.old.items ++ text_bytes text.now) }
    ensures fits { OnOk result (TextFits text.now) }
{
    put_u8(out, text.len() as u64)?;
    out.extend_from_slice(text)?;
    Ok(())
}
