// What a worker does: sweeps over the places.
ghost use Rattle.std.specs.Prelude.{◌<◌};
ghost use Rattle.dt_board.specs.Passes.{IsIdleAt};
ghost use Rattle.dt_board.specs.Sweep.{IsVisit, IsSweep};

use crate::board::{Board, Claim};
use crate::passes::WorkerPass;
use crate::view::PLACES;
use dt_host::Gate;
use dt_rv64::Hints;

impl Board {
    // A job that waits at a place is claimed, passes the gate, is run, and is given back. Whether there was one.
    fn visit<G: Gate>(
        &self,
        pass: &mut WorkerPass,
        place: usize,
        hints: &mut Hints,
        gate: &G,
    ) -> bool
        requires place { place < PLACES }
        requires none { IsIdleAt self.now pass.old }
        ensures { IsVisit place pass.old pass.new result }
    {
        match self.claim(pass, place) {
            Claim::Nothing(_) => false,
            Claim::Got(mut job) => {
                gate.pass(place);
                job.run(hints);
                self.finish(pass, job);
                true
            }
        }
    }

    /// One sweep over all places, in order: each job that waits is claimed, passes the gate with its place's index, is
    /// run, and is given back. How many there were. No clause sees the gate.
    pub fn work<G: Gate>(&self, pass: &mut WorkerPass, hints: &mut Hints, gate: &G) -> usize
        requires none { IsIdleAt self.now pass.old }
        ensures { IsSweep PLACES pass.old pass.new result }
    {
        let mut done = 0;
        for place in 0..PLACES {
            if self.visit(pass, place, hints, gate) {
                done += 1;
            }
        }
        done
    }
}
