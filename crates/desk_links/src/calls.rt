ghost use Rattle.std.specs.Prelude.{◌≡◌, ◌≤◌, ◌||◌};
ghost use Rattle.desk_links.specs.Memory.{fails_next, counted};

use std::alloc::Global;
use std::marker::Model;

/// The numbers of the calls that fail, how many calls came and how many failed.
#[derive(Drop)]
pub(crate) struct Calls {
    failing: Vec<u64>,
    calls: u64,
    faults: u64,
}

impl Model for Calls {
    ghost use Rattle.desk_links.specs.Memory.{Numbered};

    ghost Value = { Numbered };

    ghost view = { λ c. record { failing = c.failing.items; calls = c.calls; faults = c.faults } };
}

impl Calls {
    /// No call came yet; they are numbered from 1.
    pub(crate) fn new(failing: Vec<u64>) -> Self
        ensures { result ≡ record { failing = failing.items; calls = 0; faults = 0 } }
    {
        Calls {
            failing,
            calls: 0,
            faults: 0,
        }
    }

    /// Counts a call, which fails where its number is listed or `refused` says so, and gives whether it does.
    pub(crate) fn fails(&mut self, refused: bool) -> bool
        ensures listed { result ≡ fails_next self.old || refused }
        ensures counted { self.new ≡ counted result self.old }
        ensures never_falls { self.old.faults ≤ self.new.faults }
    {
        self.calls = self.calls.saturating_add(1);
        let failed = refused || self.failing.contains(&self.calls);
        if failed {
            self.faults = self.faults.saturating_add(1);
        }
        failed
    }

    pub(crate) fn faults(&self) -> u64
        ensures { result ≡ self.now.faults }
    {
        self.faults
    }
}
