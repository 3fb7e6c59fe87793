ghost use Rattle.std.specs.Prelude.{None};

use desk_links::Clock;
use std::time::Clock as SystemClock;

/// How many seconds a day has.
const DAY: u64 = 86_400;

/// The clock of the system: the day in UTC. It is day 0 where the clock cannot be read or shows a day before 1970, and
/// the greatest day where it shows a later one.
#[derive(Drop)]
pub struct HostClock<R: SystemClock + Drop> {
    rt: R,
}

impl<R: SystemClock + Drop> HostClock<R> {
    /// The clock of this runtime.
    pub fn new(rt: R) -> Self {
        HostClock { rt }
    }
}

impl<R: SystemClock + Drop> Clock for HostClock<R> {
    ghost told = { λ _. None };

    fn today(&mut self) -> u32 {
        match self.rt.since_1970() {
            Ok(time) => u32::try_from(time.as_secs() / DAY).unwrap_or(u32::MAX),
            Err(_) => 0,
        }
    }
}
