// Who runs the segments of a run.
ghost use Rattle.std.specs.Prelude.{◌≡◌, ◌<◌, true};

use crate::crew::Worker;
use crate::pace::{Pace, Way};
use dt_board::Board;
use dt_host::Gate;
use dt_rv64::Stop;
use std::alloc::Global;
use std::thread::Threads;
use std::time::Clock;

// How many short segments in a row tell that threads are not worth their start.
const SHORT_SEGMENTS: u32 = 8;

/// How the last segments ended.
#[derive(Clone, Copy, Debug)]
pub(crate) struct Tally {
    // How many of them in a row ended before their limit of steps.
    short: u32,
    // How many ran to their limit since this was asked last.
    whole: u32,
}

impl Tally {
    /// No segment has ended yet.
    pub fn new() -> Self {
        Tally { short: 0, whole: 0 }
    }

    /// Notes how a segment stopped.
    pub fn note(&mut self, stop: Stop) {
        match stop {
            Stop::Slice => {
                self.short = 0;
                self.whole = self.whole.saturating_add(1);
            }
            Stop::Call | Stop::Counter(_) | Stop::Fault(_) => {
                self.short = self.short.saturating_add(1);
            }
        }
    }

    // Gives the count of those that ran to their limit, which starts anew.
    fn take_whole(&mut self) -> u32 {
        let whole = self.whole;
        self.whole = 0;
        whole
    }
}

/// Who runs the segments of a run: this thread one after another, or workers side by side where several processes
/// live. No answer depends on what it is.
#[derive(Drop)]
pub(crate) struct Runner<'a, R: AllocGlobal + Clock + Threads + Sync, G: Gate + Sync> {
    pub rt: &'a R,
    pub gate: &'a G,
    pub board: &'a Board,
    pub crew: Vec<Worker>,
    pace: Pace,
}

impl<'a, R: AllocGlobal + Clock + Threads + Sync, G: Gate + Sync> Runner<'a, R, G> {
    /// A runner that knows nothing yet.
    pub fn new(rt: &'a R, gate: &'a G, board: &'a Board, crew: Vec<Worker>) -> Self
        ensures board { result.board.now ≡ board.now }
        ensures crew { result.crew.items ≡ crew.items }
    {
        Runner {
            rt,
            gate,
            board,
            crew,
            pace: Pace::new(),
        }
    }

    /// The memory of the run.
    pub fn alloc(&self) -> Global {
        self.rt.alloc()
    }

    /// Whether threads are worth their start: a process owes a segment, another one owes one too or can take its turn
    /// meanwhile, the last segments were not all short, and workers were not slower than this thread alone.
    pub fn prefers_workers(&mut self, tally: &mut Tally, owing: usize, live: usize) -> bool
        ensures owing { result ≡ true → 0 < owing }
        ensures board { self.new.board.now ≡ self.old.board.now }
        ensures crew { self.new.crew ≡ self.old.crew }
    {
        self.pace.note_segments(self.rt, tally.take_whole());
        if self.crew.len() <= 1 || live <= 1 || SHORT_SEGMENTS <= tally.short {
            self.pace.give_up();
            return false;
        }
        0 < owing && self.pace.way(self.rt) == Way::Workers
    }
}
