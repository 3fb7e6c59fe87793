ghost use Rattle.std.specs.Prelude.{◌≡◌, ℕ, Option, Some, IfSome};

/// What day it is.
pub trait Clock {
    /// The day that each call gives, where the clock tells it.
    ghost told: { Self → Option ℕ };

    /// Days since 1970-01-01.
    fn today(&mut self) -> u32
        ensures answer { IfSome (told self.old) (λ day. result ≡ day) }
        ensures told { told self.new ≡ told self.old };
}

/// A clock that stands still.
#[derive(Clone, Copy)]
pub struct FixedClock {
    day: u32,
}

impl FixedClock {
    /// A clock that always gives this day.
    pub fn new(day: u32) -> Self
        ensures { result.day ≡ day }
    {
        FixedClock { day }
    }
}

impl Clock for FixedClock {
    ghost told = { λ c. Some c.day };

    fn today(&mut self) -> u32 {
        self.day
    }
}
