ghost use Rattle.std.specs.Prelude.{◌≡◌, ◌⊎◌, ◌≤◌, ◌<◌, ◌+◌, ◌++◌, ℕ, List, [], true, false};
ghost use Rattle.std.specs.Prelude.{Ok, Err, IfOk, IfErr, OnErr, length, take, vec_len};
ghost use Rattle.vet_base.specs.Outside.{HasRisen};
ghost use Rattle.desk_http.specs.Came.{Takes, IsAtEnd};

use crate::HttpFault;
use desk_links::Link;

/// The most bytes that are read at once.
const PIECE: usize = 4096;

/// Reads bytes into the front of the room and gives how many.
#[tactic(auto, using(crate::proofs::Coming::takes_read))]
fn read_some<L: Link>(link: &mut L, room: &mut [u8]) -> Result<usize, HttpFault>
    ensures within { IfOk result (λ n. n ≤ length room.old) }
    ensures takes { IfOk result (λ n. Takes (L.told link.old) [] (L.told link.new) (take n room.new)) }
    ensures end { result ≡ Ok 0 → 0 < length room.old → IsAtEnd (L.told link.new) }
    ensures failed { OnErr result ((result ≡ Err HttpFault.ReadFault) × (L.told link.new ≡ L.told link.old)) }
    ensures cause { OnErr result (HasRisen (L.fault_count link.old) (L.fault_count link.new)) }
    ensures never_falls { L.fault_count link.old ≤ L.fault_count link.new }
{
    match link.read(room) {
        Ok(count) => Ok(count),
        Err(_) => Err(HttpFault::ReadFault),
    }
}

/// Reads one piece of at most `most` bytes to the end of the buffer. False at the end of the input.
#[tactic(auto, using(crate::proofs::Coming::takes_nothing))]
pub fn read_piece<L: Link>(
    link: &mut L,
    bytes: &mut Vec<u8>,
    most: usize,
) -> Result<bool, HttpFault>
    requires { 0 < most }
    ensures takes { Takes (L.told link.old) bytes.old.items (L.told link.new) bytes.new.items }
    ensures appended { (piece : List ℕ) × (bytes.new.items ≡ bytes.old.items ++ piece) }
    ensures within { vec_len bytes.new ≤ vec_len bytes.old + most }
    ensures more { result ≡ Ok true → vec_len bytes.old < vec_len bytes.new }
    ensures end { result ≡ Ok false → (bytes.new.items ≡ bytes.old.items) × IsAtEnd (L.told link.new) }
    ensures fault { IfErr result (λ fault. (fault ≡ HttpFault.ReadFault) ⊎ (fault ≡ HttpFault.Memory)) }
    ensures cause { result ≡ Err HttpFault.ReadFault → HasRisen (L.fault_count link.old) (L.fault_count link.new) }
    ensures never_falls { L.fault_count link.old ≤ L.fault_count link.new }
{
    let mut room = [0u8; PIECE];
    let most = most.min(PIECE);
    bytes.try_reserve(most)?;
    let count = read_some(link, &mut room[..most])?;
    bytes.extend_from_slice(&room[..count]).unwrap();
    Ok(count > 0)
}
