// What live processes wait for in time, and the timers that fire.
ghost use Rattle.std.specs.Prelude.{◌≡◌, None, IsSome};
ghost use Rattle.dt_host.specs.World.{World};
ghost use Rattle.dt_procs.specs.Members.{vpids_of};
ghost use Rattle.dt_procs.specs.Table.{members_of};
ghost use Rattle.dt_calls.specs.InCode.{shared_of};
ghost use Rattle.dt_calls.specs.Sound.{ChangesTasks, KeepsSound, IsSound};
ghost use Rattle.dt_calls.specs.Timers.{sooner, task_due, earliest_after, tasks_after_timer, tasks_after_timers};
ghost use Rattle.dt_calls.specs.Timers.{shared_after_timers, shared_after_jump, earliest_in};

use crate::shared::Shared;
use crate::task::Task;
use dt_procs::Pids;
use dt_tables::Numbered;

impl Shared {
    /// The timers fire that are due.
    #[tactic(auto, unfolding(crate::specs::Timers::shared_after_timers))]
    pub fn fire(&mut self)
        ensures fired { (w : World) → shared_of self.new w ≡ shared_after_timers (shared_of self.old w) }
        ensures kept { ChangesTasks self.old self.new }
    {
        fire_each(&mut self.tasks, &self.pids, self.fs.clock.ticks());
    }

    /// The earliest point of time that a live process waits for; none exactly where no one does.
    pub fn earliest(&self) -> Option<u64>
        ensures { result ≡ earliest_in self.now }
    {
        earliest_of(&self.tasks, &self.pids)
    }

    /// The time comes to a point, and the timers fire that are due then.
    #[tactic(auto, unfolding(crate::specs::Timers::shared_after_jump))]
    pub fn jump(&mut self, due: u64)
        ensures jumped { (w : World) → shared_of self.new w ≡ shared_after_jump due (shared_of self.old w) }
        ensures kept { (w : World) → IsSound self.old w → KeepsSound self.old self.new w }
        ensures pids { self.new.pids ≡ self.old.pids }
    {
        self.fs.clock.reach(due);
        self.fire();
    }
}

impl Task {
    // The point of time that the process waits for: its timer is due then, or its ppoll(2) is over.
    fn due(&self) -> Option<u64>
        ensures { result ≡ task_due self.now }
    {
        sooner(self.signals.due(), self.polling.due())
    }
}

// The sooner of two points of time, where there are such.
fn sooner(first: Option<u64>, second: Option<u64>) -> Option<u64>
    ensures { result ≡ sooner first second }
{
    match (first, second) {
        (Some(first), Some(second)) => Some(first.min(second)),
        (first, None) => first,
        (None, second) => second,
    }
}

// The earliest point of time that a live process waits for.
fn earliest_of(tasks: &Numbered<Task>, pids: &Pids) -> Option<u64>
    ensures { result ≡ earliest_after None (vpids_of (members_of pids.now)) tasks.now }
{
    let mut earliest = None;
    for index in 0..pids.count() {
        if let Some(task) = tasks.get(u64::from(pids.vpid_at(index))) {
            earliest = sooner(earliest, task.due());
        }
    }
    earliest
}

// The timers of live processes fire that are due at these ticks.
fn fire_each(tasks: &mut Numbered<Task>, pids: &Pids, ticks: u64)
    ensures { tasks.new ≡ tasks_after_timers ticks (vpids_of (members_of pids.now)) tasks.old }
{
    for index in 0..pids.count() {
        fire_at(tasks, pids.vpid_at(index), ticks);
    }
}

// The timer of a process fires where it is due, if the process lives.
fn fire_at(tasks: &mut Numbered<Task>, vpid: u32, ticks: u64)
    ensures { tasks.new ≡ tasks_after_timer ticks vpid tasks.old }
{
    match tasks.get_mut(u64::from(vpid)) {
        Some(task) => task.signals.fire(ticks),
        None => {}
    }
}
