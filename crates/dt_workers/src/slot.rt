// A slot: a machine on loan, and its segment.
ghost use Rattle.dt_workers.specs.Slots.{IsSlotAfter};

use dt_base::NoMemory;
use dt_rv64::{Hints, Machine, Seg, segment};

/// A process's machine that is lent for one segment, and what came of it.
#[derive(Debug, Drop)]
pub struct Slot {
    pub vpid: u32,
    pub machine: Machine,
    pub result: Option<Result<Seg, NoMemory>>,
}

impl Slot {
    // Runs the segment of its machine, with what was kept from others.
    pub(crate) fn run(&mut self, hints: &mut Hints)
        ensures { IsSlotAfter self.old self.new }
    {
        self.result = Some(segment(&mut self.machine, hints));
    }
}
