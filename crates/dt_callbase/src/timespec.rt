// A time that a call is handed.
ghost use Rattle.std.specs.Prelude.{◌≡◌};
ghost use Rattle.dt_callbase.specs.Timespec.{time_at, ticks_in};

use crate::wall_time::{NANOSECONDS, SECOND_TICKS};
use dt_base::Errno;
use dt_space::Space;

// The lowest number of 64 bits that stands for a negative one.
const LOWEST_NEGATIVE: u64 = 0x8000_0000_0000_0000;

/// A time as the calls are handed it and tell it: seconds, and nanoseconds of the next one (timespec(3type)).
#[derive(Clone, Copy, Debug)]
pub struct Timespec {
    pub seconds: u64,
    pub nanoseconds: u64,
}

impl Timespec {
    /// The time at an address: EFAULT where it may not be read, EINVAL where a number is negative, or the nanoseconds
    /// are a second and more.
    pub fn read(space: &Space, at: u64) -> Result<Self, Errno>
        ensures { result ≡ time_at space.now at }
    {
        let Ok(seconds) = space.load8(at) else {
            return Err(Errno::Fault);
        };
        let Ok(nanoseconds) = space.load8(at.wrapping_add(NANOSECONDS as u64)) else {
            return Err(Errno::Fault);
        };
        if seconds >= LOWEST_NEGATIVE || nanoseconds >= SECOND_TICKS {
            return Err(Errno::Inval);
        }
        Ok(Timespec {
            seconds,
            nanoseconds,
        })
    }

    /// Its nanoseconds.
    pub fn ticks(self) -> u128
        ensures { result ≡ ticks_in self }
    {
        u128::from(self.seconds) * u128::from(SECOND_TICKS) + u128::from(self.nanoseconds)
    }
}
