// What the calls work on.
ghost use Rattle.std.specs.Prelude.{◌≡◌};
ghost use Rattle.dt_virt.specs.declared.clock.TheConstants.{READING_TICKS as TICKS};
ghost use Rattle.dt_virt.specs.Clock.{ticks_after};

use dt_base::Blob;
use dt_fds::Files;
use dt_tree::Tree;
use dt_virt::{Clock, READING_TICKS, Rand, TICK_LIMIT};

/// What the calls on files, time and random bytes work on: the file tree, the open files, the logical time, the seed's
/// words, and the bytes of standard input.
#[derive(Drop)]
pub struct Fs {
    pub tree: Tree,
    pub files: Files,
    pub clock: Clock,
    pub rand: Rand,
    pub input: Blob,
}

impl Fs {
    /// The time after a reading, or the stamp of a call that changes names or a file: the time after the time that it
    /// takes.
    pub fn next_stamp(&self) -> u64
        ensures { result ≡ ticks_after self.now.clock TICKS }
    {
        (self.clock.ticks() + READING_TICKS).min(TICK_LIMIT)
    }
}
