ghost use Rattle.std.specs.Prelude.{◌≡◌, ◌≤◌, ℕ, Option, length, IfOk, OnErr};
ghost use Rattle.vet_base.specs.Outside.{HasRisen};
ghost use Rattle.desk_links.specs.Links.{Told, Reads, Writes, IsFront};

/// Why a call of a link gave nothing.
#[derive(Clone, Copy, Debug, PartialEq, Eq)]
pub enum LinkFault {
    /// The outside failed; the count of faults rose.
    Failed,
}

/// A connection: bytes that come, and bytes that are written.
pub trait Link {
    /// The bytes to come and the bytes written, where the link tells them.
    ghost told: { Self → Option Told };

    /// How often a call failed. At 2^64 - 1 it stays.
    ghost fault_count: { Self → ℕ };

    /// Reads into the front of the room and gives how many bytes: one at least where there is room, or 0 at the end of
    /// the input. After `Failed` nothing is said of the room.
    fn read(&mut self, room: &mut [u8]) -> Result<usize, LinkFault>
        ensures within { IfOk result (λ n. n ≤ length room.old) }
        ensures told { Reads (told self.old) (told self.new) room.old room.new result }
        ensures cause { OnErr result (HasRisen (fault_count self.old) (fault_count self.new)) }
        ensures never_falls { fault_count self.old ≤ fault_count self.new };

    /// Writes a front of the bytes and gives its length: one at least where there are some.
    fn write(&mut self, bytes: &[u8]) -> Result<usize, LinkFault>
        ensures front { IfOk result (λ n. IsFront n bytes.now) }
        ensures told { Writes (told self.old) (told self.new) bytes.now result }
        ensures cause { OnErr result (HasRisen (fault_count self.old) (fault_count self.new)) }
        ensures never_falls { fault_count self.old ≤ fault_count self.new };

    fn faults(&self) -> u64
        ensures { result ≡ fault_count self.now };
}
