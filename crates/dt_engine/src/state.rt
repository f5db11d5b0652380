// A run between two turns, and the arrivals of segments that were run.
ghost use Rattle.std.specs.Prelude.{◌≡◌, ◌<◌, true, Some, IsSome, IfOk, OnOk};
ghost use Rattle.std.specs.List.{Contains};
ghost use Rattle.std.specs.FinMap.{empty, get, insert};
ghost use Rattle.dt_host.specs.World.{World};
ghost use Rattle.dt_base.specs.declared.limits.TheConstants.{FIRST_PID as FIRST};
ghost use Rattle.dt_rv64.specs.declared.segments.Stop.TheVariants.{Slice};
ghost use Rattle.dt_sched.specs.Core.{first_core, is_segment_count, owing_vpids, IsCore};
ghost use Rattle.dt_calls.specs.Sound.{IsSoundContainer};
ghost use Rattle.dt_engine.specs.Ahead.{with_segment_of};
ghost use Rattle.dt_engine.specs.InPlay.{IsAwake};
ghost use Rattle.dt_engine.specs.inner.InCode.{state_of};
ghost use Rattle.dt_engine.specs.inner.Good.{IsGood, steps_left};
ghost use Rattle.dt_engine.specs.inner.Arriving.{with_arrival};

use dt_base::{FIRST_PID, NoMemory};
use dt_calls::Container;
use dt_rv64::{Hints, Machine, Seg, Stop};
use dt_sched::Core;
use dt_tables::Numbered;
use std::alloc::Global;

/// A run between two turns: the container, the queue, which knows where each process stands, and the stop of the last
/// segment that each has run.
#[derive(Drop)]
pub struct State {
    pub container: Container,
    pub core: Core,
    pub stops: Numbered<Stop>,
}

impl State {
    /// A run that begins, with a budget in steps.
    pub fn new(alloc: Global, container: Container, budget: u64) -> Result<Self, NoMemory>
        ensures { IfOk result (λ s. s
            ≡ record { container = container; core = first_core budget; stops = insert empty FIRST Slice }) }
    {
        let mut stops = Numbered::new(alloc);
        stops.put(u64::from(FIRST_PID), Stop::Slice)?;
        Ok(State {
            container,
            core: Core::new(alloc, budget)?,
            stops,
        })
    }

    /// The stop of the last segment that a process has run.
    pub fn stop(&self, vpid: u32) -> Stop
        requires { IsSome (get self.now.stops vpid) }
        ensures { get self.now.stops vpid ≡ Some result }
    {
        match self.stops.get(u64::from(vpid)) {
            Some(stop) => *stop,
            None => unreachable!(),
        }
    }

    /// Runs the segment that a process owes, and lets it arrive. The answer is how it stopped.
    pub fn arrive(&mut self, vpid: u32, hints: &mut Hints) -> Result<Stop, NoMemory>
        requires good { IsGood self.old }
        requires core { IsCore self.old.core }
        requires owing { Contains (owing_vpids self.old.core.queue) vpid }
        ensures ran { (w : World) → OnOk result (state_of self.new w ≡ with_segment_of vpid (state_of self.old w)) }
        ensures good { OnOk result (IsGood self.new) }
        ensures sound { (w : World) → IsSoundContainer self.old.container w
            → OnOk result (IsSoundContainer self.new.container w) }
        ensures verdict { OnOk result (self.new.core.verdict ≡ self.old.core.verdict) }
        ensures awake { IsAwake self.old.core → OnOk result (IsAwake self.new.core) }
        ensures smaller { OnOk result (steps_left self.new.core < steps_left self.old.core) }
    {
        let seg = self.container.run_segment(vpid, hints)?;
        self.stops.set(u64::from(vpid), seg.stop);
        self.core.arrived(vpid, seg.count);
        Ok(seg.stop)
    }

    /// Brings the machine of a process home from its segment, which arrives.
    pub fn bring_home(&mut self, vpid: u32, machine: Machine, seg: Seg)
        requires place { IsSome (get self.old.container.places vpid) }
        requires noted { IsSome (get self.old.stops vpid) }
        requires owing { Contains (owing_vpids self.old.core.queue) vpid }
        requires count { is_segment_count seg.count ≡ true }
        ensures { self.new ≡ with_arrival self.old vpid machine seg }
    {
        let Seg { count, stop } = seg;
        self.container.give_machine(vpid, machine);
        self.stops.set(u64::from(vpid), stop);
        self.core.arrived(vpid, count);
    }
}
