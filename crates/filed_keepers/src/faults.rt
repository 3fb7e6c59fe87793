//! When files fail.

use failing_disk::Stumble;

/// When a file fails.
#[derive(Clone, Copy)]
pub struct Fault {
    /// How many calls it does before it stops, until the machine comes back.
    pub stops: u64,
    /// At which call it fails, and goes on.
    pub stumble: Stumble,
}

/// The call at which a file fails that does not.
const NO_STUMBLE: Stumble = Stumble {
    calls: u64::MAX,
    is_done: false,
};

/// When a file fails that does not.
pub const NEVER: Fault = Fault {
    stops: u64::MAX,
    stumble: NO_STUMBLE,
};

/// When the log and the database file fail.
#[derive(Clone, Copy)]
pub struct Faults {
    pub log: Fault,
    pub db: Fault,
}

/// Files that do not fail.
pub const LASTING: Faults = Faults {
    log: NEVER,
    db: NEVER,
};

/// Files of which the log, or the database file, fails so.
fn faults_in(of_log: bool, fault: Fault) -> Faults {
    Faults {
        log: if of_log { fault } else { NEVER },
        db: if of_log { NEVER } else { fault },
    }
}

/// Files of which the log, or the database file, does so many calls and then stops.
pub fn stopping(of_log: bool, calls: u64) -> Faults {
    faults_in(
        of_log,
        Fault {
            stops: calls,
            stumble: NO_STUMBLE,
        },
    )
}

/// Files of which the log, or the database file, fails at one call and goes on.
pub fn stumbling(of_log: bool, stumble: Stumble) -> Faults {
    faults_in(
        of_log,
        Fault {
            stops: u64::MAX,
            stumble,
        },
    )
}
