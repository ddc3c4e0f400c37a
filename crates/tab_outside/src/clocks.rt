//! What tells the time, in ticks of 100 ns since 1601-01-01T00:00:00Z, and its form in memory.
ghost use Rattle.std.specs.Prelude.{◌≡◌, ℕ};

/// What tells the time.
pub trait Clock {
    /// The last moment that it gave.
    ghost moment: { Self → ℕ };

    /// The moment now, in ticks of 100 ns since 1601-01-01T00:00:00Z.
    fn now(&mut self) -> u64
        ensures { result ≡ moment self.new };
}

/// A clock that always gives one moment.
#[derive(Clone, Copy, Debug, PartialEq, Eq)]
pub struct SetClock {
    now: u64,
}

impl SetClock {
    /// Always gives the moment `now`.
    pub fn new(now: u64) -> SetClock
        ensures moment { ⟦<SetClock as Clock>⟧.moment result ≡ now }
    {
        SetClock { now }
    }
}

impl Clock for SetClock {
    ghost moment = { λ clock. clock.now };

    fn now(&mut self) -> u64
        ensures moment { result ≡ self.new.now }
        ensures same { self.new ≡ self.old }
    {
        self.now
    }
}
