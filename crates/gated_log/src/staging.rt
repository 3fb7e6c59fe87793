ghost use Rattle.std.specs.Prelude.{◌≡◌, ◌<◌, ◌^◌, length, IfOk, OnErr};
ghost use Rattle.gated_log.specs.Format.{behind_gate};

use disks::DiskFault;
use std::alloc::Global;

/// What is written behind the gate of a record: the length of the payload, the payload, and a closed gate.
pub(crate) fn staged(alloc: Global, payload: &[u8]) -> Result<Vec<u8>, DiskFault>
    ensures ok { IfOk result (λ bytes. bytes.items ≡ behind_gate payload.now) }
    ensures memory { OnErr result (result ≡ Err DiskFault.Memory) }
    ensures small { length payload.now < 2 ^ 64 }
{
    let mut bytes = Vec::new(alloc);
    bytes.extend_from_slice(&(payload.len() as u64).to_le_bytes())?;
    bytes.extend_from_slice(payload)?;
    bytes.push(0)?;
    Ok(bytes)
}
