// A job: a machine whose segment is to be run, beside the machine that it started as.
ghost use Rattle.std.specs.Prelude.{◌≡◌, ◌↔◌, true, false, None, Some, IfOk, IsTrue};
ghost use Rattle.dt_rv64.specs.Valid.{IsMachine};
ghost use Rattle.dt_workers.specs.Slots.{IsOutcome};
ghost use Rattle.dt_board.specs.Job.{finished};

use dt_base::NoMemory;
use dt_rv64::{Hints, Machine, Seg, segment};
use std::marker::Model;

/// A machine and its segment. A job is open until it is run, and finished then.
#[derive(Drop)]
pub struct Job {
    start: Machine,
    machine: Machine,
    outcome: Option<Result<Seg, NoMemory>>,
}

impl Model for Job {
    ghost use Rattle.dt_board.specs.Job.{JobView, IsJob};

    ghost Value = { JobView };

    ghost view = { λ j. record { start = j.start; machine = j.machine; outcome = j.outcome } };

    ghost invariant = { λ j. IsJob j.start j.machine j.outcome };
}

impl Job {
    /// An open job of this machine. Its start shares the machine's pages until the segment writes to them.
    pub fn new(machine: Machine) -> Result<Job, NoMemory>
        ensures { IfOk result (λ job. job ≡ record { start = machine; machine = machine; outcome = None }) }
    {
        let mut machine = machine;
        let start = machine.fork()?;
        Ok(Job {
            start,
            machine,
            outcome: None,
        })
    }

    /// Whether the job started as this machine.
    pub fn is_of(&self, machine: &Machine) -> bool
        ensures { IsTrue result ↔ (self.now.start ≡ machine.now) }
    {
        self.start.regs == machine.regs
            && self.start.pc == machine.pc
            && self.start.reserved == machine.reserved
            && self.start.atomics == machine.atomics
            && self.start.space.same(&machine.space)
    }

    /// Runs the segment, with what was kept from others, on which no answer depends.
    pub fn run(&mut self, hints: &mut Hints)
        requires open { finished self.old ≡ false }
        ensures start { self.new.start ≡ self.old.start }
        ensures finished { finished self.new ≡ true }
        ensures outcome { IsOutcome self.new.start self.new.machine self.new.outcome }
    {
        let outcome = segment(&mut self.machine, hints);
        self.outcome = Some(outcome);
    }

    /// The machine after the segment, or where want of memory cut it short, and what `segment` answered.
    pub fn parts(self) -> (Machine, Result<Seg, NoMemory>)
        requires finished { finished self ≡ true }
        ensures kept { (result.0 ≡ self.machine) × (Some result.1 ≡ self.outcome) }
        ensures outcome { IsOutcome self.start result.0 (Some result.1) }
        ensures sound { IsMachine self.start → IsMachine result.0 }
    {
        let Job {
            start: _,
            machine,
            outcome,
        } = self;
        (machine, outcome.unwrap())
    }
}
