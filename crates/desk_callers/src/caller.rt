ghost use Rattle.std.specs.Prelude.{◌≤◌, OnErr};
ghost use Rattle.vet_base.specs.Outside.{HasRisen};
ghost use Rattle.desk_callers.specs.Dials.{Dialled};

use desk_links::Link;

/// Why a dial made no connection.
#[derive(Clone, Copy, Debug, PartialEq, Eq)]
pub enum DialFault {
    /// The outside failed; the count of faults rose.
    Failed,
}

/// One who dials. Reads and writes act on the present connection; where there is none, nothing comes.
pub trait Caller: Link {
    /// Ends the present connection and dials a port of this machine. After `Failed` there is no connection.
    fn dial(&mut self, port: u16) -> Result<(), DialFault>
        ensures told { Dialled (Self.told self.old) (Self.told self.new) result }
        ensures cause { OnErr result (HasRisen (Self.fault_count self.old) (Self.fault_count self.new)) }
        ensures never_falls { Self.fault_count self.old ≤ Self.fault_count self.new };
}
