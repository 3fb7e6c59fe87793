use std::alloc::{AllocError, Global};
use std::hint::spin_loop;
use std::sync::atomic::{AtomicU64, Ordering};
use worker_pool::Lookout;

/// For so many turns a worker waits for others.
const TURNS: u64 = 1_000_000_000;

/// For so many turns nothing may be handed in before the first worker goes on.
const STILL: u64 = 200_000;

/// What is done with a worker that has a ticket.
#[derive(Clone, Copy)]
pub enum Duty {
    Nothing,
    /// Each of two is held until the other has a ticket too.
    Meet,
    /// The first is held until the others have handed nothing in for some time.
    Hold,
    /// How many new rows are posted is told.
    Count,
}

/// A lookout over workers.
#[derive(Drop)]
pub struct Watch {
    duty: Duty,
    /// Whether the first worker and another had a ticket, and how many they handed in.
    first: AtomicU64,
    other: AtomicU64,
    by_first: AtomicU64,
    by_others: AtomicU64,
    /// Whether one waited for the other in vain.
    late: AtomicU64,
    posted: AtomicU64,
}

impl Watch {
    pub fn new(duty: Duty) -> Watch {
        Watch {
            duty,
            first: AtomicU64::new(0),
            other: AtomicU64::new(0),
            by_first: AtomicU64::new(0),
            by_others: AtomicU64::new(0),
            late: AtomicU64::new(0),
            posted: AtomicU64::new(0),
        }
    }

    /// Waits until a worker has a ticket.
    fn meet(&self, other: &AtomicU64) {
        for _ in 0..TURNS {
            if other.load(Ordering::SeqCst) != 0 {
                return;
            }
            spin_loop();
        }
        self.late.store(1, Ordering::SeqCst);
    }

    /// Waits until the others have handed nothing in for some time.
    fn hold(&self) {
        let mut seen = 0u64;
        let mut still = 0u64;
        for _ in 0..TURNS {
            let handed_in = self.by_others.load(Ordering::SeqCst);
            still = if handed_in == seen {
                still.saturating_add(1)
            } else {
                0
            };
            if still >= STILL {
                return;
            }
            seen = handed_in;
            spin_loop();
        }
    }

    /// Whether both workers had a ticket at once, both handed one in, and they handed in three or more.
    fn met(&self) -> bool {
        let by_first = self.by_first.load(Ordering::SeqCst);
        let by_others = self.by_others.load(Ordering::SeqCst);
        self.late.load(Ordering::SeqCst) == 0
            && by_first > 0
            && by_others > 0
            && by_first.saturating_add(by_others) >= 3
    }

    /// What is told of a meeting that was one, and of rows that were counted.
    pub fn told(&self, alloc: Global) -> Result<String, AllocError> {
        let posted = self.posted.load(Ordering::SeqCst);
        match self.duty {
            Duty::Count => format!(in alloc; "posted {posted}\n"),
            Duty::Meet if self.met() => String::from_str(alloc, "both were at work\n"),
            _ => Ok(String::new(alloc)),
        }
    }
}

impl Lookout for Watch {
    fn begin(&self, worker: u8) {
        let (own, other) = if worker == 1 {
            (&self.first, &self.other)
        } else {
            (&self.other, &self.first)
        };
        own.store(1, Ordering::SeqCst);
        match self.duty {
            Duty::Meet => self.meet(other),
            Duty::Hold if worker == 1 => self.hold(),
            _ => {}
        }
    }

    fn end(&self, worker: u8, posted: u64) {
        let by = if worker == 1 {
            &self.by_first
        } else {
            &self.by_others
        };
        by.fetch_add(1, Ordering::SeqCst);
        self.posted.fetch_add(posted, Ordering::SeqCst);
    }
}
