ghost use Rattle.std.specs.Prelude.{◌≡◌, ◌≤◌};
ghost use Rattle.desk_links.specs.Memory.{fails_next, counted};

use std::marker::Model;

/// The numbers of the calls that fail, how many calls came and how many failed.
#[derive(Drop)]
pub(crate) struct Calls {
    failing: Vec<u64>,
    calls: u64,
    faults: u64,
}

impl Model for Calls {
    ghost use Rattle.desk_links.specs.Memory.{Numbered};

    ghost Value = { Numbered };

    ghost view = { λ c. record { failing = c.failing.items; calls = c.calls; faults = c.faults } };
}

impl Calls {
    /// No call came yet; they are numbered from 1.
    pub(crate) fn new(failing: Vec<u64>) -> Self
        ensures { result ≡ record { failing = failing.items; calls = 0; faults = 0 } }
    {
        Calls {
            failing,
            calls: 0,
            faults: 0,
        }
    }

    /// Whether the next call fails by its number.
    pub(crate) fn fails_next(&self) -> bool
        ensures { result ≡ fails_next self.now }
    {
        self.failing.contains(&self.calls.saturating_add(1))
    }

    /// Counts a call, which failed or did not.
    pub(crate) fn count(&mut self, failed: bool)
        ensures counted { self.new ≡ counted failed self.old }
        ensures never_falls { self.old.faults ≤ self.new.faults }
    {
        self.calls = self.calls.saturating_add(1);
        if failed {
            self.faults = self.faults.saturating_add(1);
        }
    }

    pub(crate) fn faults(&self) -> u64
        ensures { result ≡ self.now.faults }
    {
        self.faults
    }
}
