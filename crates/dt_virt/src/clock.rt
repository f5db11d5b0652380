// Logical time.
ghost use Rattle.std.specs.Prelude.{◌≡◌, ◌≤◌};
ghost use Rattle.dt_virt.specs.Clock.{ticks_after, ticks_reaching};

use std::marker::Model;

/// The greatest value of a clock: 2^62 - 1 nanoseconds.
pub const TICK_LIMIT: u64 = 4_611_686_018_427_387_903;

/// Nanoseconds that a reading or a stamp takes.
pub const READING_TICKS: u64 = 1_000;

/// A count of nanoseconds, which only the guest's own doing moves. It stops at [`TICK_LIMIT`].
#[derive(Drop)]
pub struct Clock {
    ticks: u64,
}

impl Model for Clock {
    ghost use Rattle.std.specs.Prelude.{ℕ, ◌≤◌};
    ghost use Rattle.dt_virt.specs.declared.clock.TheConstants.{TICK_LIMIT};

    ghost Value = { ℕ };

    ghost view = { λ c. c.ticks };

    ghost invariant = { λ c. c.ticks ≤ TICK_LIMIT };
}

impl Clock {
    /// A clock at 0.
    pub fn new() -> Clock
        ensures { result ≡ 0 }
    {
        Clock { ticks: 0 }
    }

    /// The nanoseconds so far. To look takes no time.
    pub fn ticks(&self) -> u64
        ensures value { result ≡ self.now }
        ensures bound { result ≤ TICK_LIMIT }
    {
        self.ticks
    }

    /// Reads the clock: the reading takes [`READING_TICKS`] first, and gives the new value.
    pub fn read(&mut self) -> u64
        ensures value { result ≡ ticks_after self.old READING_TICKS }
        ensures rest { self.new ≡ ticks_after self.old READING_TICKS }
        ensures forward { self.old ≤ self.new }
    {
        self.sleep(READING_TICKS);
        self.ticks
    }

    /// Lets `ns` nanoseconds pass.
    pub fn sleep(&mut self, ns: u64)
        ensures rest { self.new ≡ ticks_after self.old ns }
        ensures forward { self.old ≤ self.new }
    {
        self.ticks = self.ticks.saturating_add(ns).min(TICK_LIMIT);
    }

    /// Lets the time come to a point, or to [`TICK_LIMIT`] where that is past it, if it is not past these.
    pub fn reach(&mut self, due: u64)
        ensures rest { self.new ≡ ticks_reaching self.old due }
        ensures forward { self.old ≤ self.new }
    {
        self.ticks = self.ticks.max(due.min(TICK_LIMIT));
    }

    /// The stamp of all that one call changes: [`READING_TICKS`] pass once, and the new value is the stamp.
    pub fn stamp(&mut self) -> u64
        ensures value { result ≡ ticks_after self.old READING_TICKS }
        ensures rest { self.new ≡ ticks_after self.old READING_TICKS }
        ensures forward { self.old ≤ self.new }
    {
        self.read()
    }
}
