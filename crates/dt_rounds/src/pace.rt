// Who runs the segments of a run: this thread alone, or workers side by side. To start a thread, and to wake the
// processor that it runs on, can take longer than a segment. So both ways are timed, and the faster one is gone on with.
use std::time::{Clock, Duration, Instant};

// A stretch is over once so many segments ran to their limit of steps.
const STRETCH: u32 = 64;

// After so many stretches of the faster way the slower one has a stretch again.
const PATIENCE: u32 = 32;

/// A way to run segments.
#[derive(Clone, Copy, Debug, PartialEq, Eq)]
pub(crate) enum Way {
    Alone,
    Workers,
}

/// How long the last stretch of each way took, and the stretch that is being timed.
#[derive(Debug, Drop)]
pub(crate) struct Pace {
    way: Way,
    begun: Option<Instant>,
    segments: u32,
    alone: Option<Duration>,
    workers: Option<Duration>,
    // How many stretches in a row had the same way.
    stretches: u32,
}

impl Pace {
    /// A pace of which nothing is known yet.
    pub(crate) fn new() -> Self {
        Pace {
            way: Way::Workers,
            begun: None,
            segments: 0,
            alone: None,
            workers: None,
            stretches: 0,
        }
    }

    /// The way to go now. A stretch of it begins, unless one is being timed.
    pub(crate) fn way(&mut self, clock: &impl Clock) -> Way {
        if self.begun.is_none() {
            self.begun = Instant::now(clock).ok();
            self.segments = 0;
        }
        self.way
    }

    /// Gives the stretch up, since there is but one way to go.
    pub(crate) fn give_up(&mut self) {
        self.begun = None;
    }

    /// Notes that so many segments more ran to their limit of steps. The last one of a stretch ends it.
    pub(crate) fn note_segments(&mut self, clock: &impl Clock, segments: u32) {
        let Some(begun) = self.begun else { return };
        self.segments = self.segments.saturating_add(segments);
        if self.segments < STRETCH {
            return;
        }
        self.begun = None;
        if let Ok(took) = begun.elapsed(clock) {
            self.end_stretch(took);
        }
    }

    // Notes how long a stretch took, and chooses the way of the next one.
    fn end_stretch(&mut self, took: Duration) {
        match self.way {
            Way::Alone => self.alone = Some(took),
            Way::Workers => self.workers = Some(took),
        }
        self.stretches = self.stretches.saturating_add(1);
        let next = self.next_way();
        if next != self.way {
            self.stretches = 0;
        }
        self.way = next;
    }

    // The faster way, or the other one where that was not timed for long.
    fn next_way(&self) -> Way {
        match (self.alone, self.workers) {
            (None, _) => Way::Alone,
            (_, None) => Way::Workers,
            (Some(alone), Some(workers)) => {
                let is_due = PATIENCE <= self.stretches;
                if (workers < alone) != is_due {
                    Way::Workers
                } else {
                    Way::Alone
                }
            }
        }
    }
}
