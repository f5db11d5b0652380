// The queue with the budget, the blocked turns in a row and the verdict.
ghost use Rattle.std.specs.Prelude.{◌≡◌, ◌<◌, ◌≤◌, IfOk, IsTrue, true, length};
ghost use Rattle.std.specs.List.{Contains};
ghost use Rattle.dt_sched.specs.declared.queue.TheConstants.{QUEUE_LIMIT};
ghost use Rattle.dt_sched.specs.Core.{first_core, over_core, owing_vpids, is_vpid_waiting, core_after_arrival, cost_of, head};
ghost use Rattle.dt_sched.specs.Core.{IsReady, core_after_turn, core_after_wake, core_after_deadlock, has_room};
ghost use Rattle.dt_sched.specs.Core.{is_segment_count, IsCore};
ghost use Rattle.dt_sched.specs.Order.{blocked_after, verdict_after};
ghost use Rattle.dt_sched.specs.Laws.{ArrivalsCommute, ArrivalBesideTurn, HeadStays};

use crate::process::{Phase, Process};
use crate::queue::Queue;
use crate::settled::{Head, Settled};
use dt_base::{FIRST_PID, NoMemory, Verdict};
use std::alloc::Global;
use std::marker::Model;

/// The queue of live processes, whose head takes its turn next. What a turn costs is charged when it is settled.
#[derive(Drop)]
pub struct Core {
    queue: Queue,
    blocked: usize,
    left: u64,
    verdict: Option<Verdict>,
}

impl Model for Core {
    ghost use Rattle.dt_sched.specs.Core.{CoreView, core_of, IsCore};

    ghost Value = { CoreView };

    ghost view = { λ c. core_of c.queue c.blocked c.left c.verdict };

    ghost invariant = { λ c. IsCore (core_of c.queue c.blocked c.left c.verdict) };
}

impl Phase<u32> {
    // What a turn costs, in instructions.
    fn cost(self) -> u64
        ensures { result ≡ cost_of self }
    {
        match self {
            Phase::Owes => 0,
            Phase::Ran(count) => u64::from(count),
            Phase::Waits => 1,
        }
    }
}

// The blocked turns in a row after a turn.
fn blocked_after(blocked: usize, turn: Settled) -> usize
    requires { blocked ≤ QUEUE_LIMIT }
    ensures { result ≡ blocked_after blocked turn }
{
    match turn {
        Settled::Waits => blocked + 1,
        Settled::Stopped(_) => blocked,
        Settled::Again
        | Settled::Child(_)
        | Settled::LastChild(_)
        | Settled::Moved
        | Settled::Gone => 0,
    }
}

// The verdict of a turn of this process.
fn verdict_after(vpid: u32, turn: Settled) -> Option<Verdict>
    ensures { result ≡ verdict_after vpid turn }
{
    match turn {
        Settled::LastChild(_) | Settled::Gone if vpid == FIRST_PID => Some(Verdict::Ended),
        Settled::Stopped(number) => Some(Verdict::Unsupported(vpid, number)),
        Settled::Again
        | Settled::Child(_)
        | Settled::LastChild(_)
        | Settled::Waits
        | Settled::Moved
        | Settled::Gone => None,
    }
}

impl Core {
    /// The first process alone, which owes a segment, and a budget in instructions. There is room for 64 processes, so that
    /// no other call takes memory; NoMemory where there is none for them.
    pub fn new(alloc: Global, budget: u64) -> Result<Self, NoMemory>
        ensures { IfOk result (λ core. core ≡ first_core budget) }
    {
        Ok(Core {
            queue: Queue::new(alloc)?,
            blocked: 0,
            left: budget,
            verdict: None,
        })
    }

    /// No process, and the verdict of a run that is over before its first turn; NoMemory as for `new`.
    pub fn over(alloc: Global, budget: u64, verdict: Verdict) -> Result<Self, NoMemory>
        ensures { IfOk result (λ core. core ≡ over_core budget verdict) }
    {
        Ok(Core {
            queue: Queue::empty(alloc)?,
            blocked: 0,
            left: budget,
            verdict: Some(verdict),
        })
    }

    /// The verdict with which a turn ended the run, if one did.
    pub fn verdict(&self) -> Option<Verdict>
        ensures { result ≡ self.now.verdict }
    {
        self.verdict
    }

    /// The virtual pids of the processes whose segment has not arrived, in queue order.
    pub fn owing(&self) -> &[u32]
        ensures order { result.now ≡ owing_vpids self.now.queue }
        ensures sound { IsCore self.now }
    {
        self.queue.owing()
    }

    /// How many processes live.
    pub fn live(&self) -> usize
        ensures { result ≡ length self.now.queue }
    {
        self.queue.len()
    }

    /// The segment of a process arrives, which owes one, with its cost of 1 to 65,536 instructions; nothing is charged.
    pub fn arrived(&mut self, vpid: u32, cost: u32)
        requires owing { Contains (owing_vpids self.old.queue) vpid }
        requires count { IsTrue (is_segment_count cost) }
        ensures { self.new ≡ core_after_arrival vpid cost self.old }
    {
        self.queue.arrived(vpid, cost);
    }

    /// What can be done next: over where there is a verdict; all wait where as many turns in a row were blocked as there
    /// are live processes; and over where the head's turn costs more than is left of the budget.
    pub fn head(&self) -> Head
        ensures head { result ≡ head self.now }
        ensures sound { IsCore self.now }
    {
        match (self.verdict, self.queue.first()) {
            (Some(verdict), _) => Head::Over(verdict),
            (None, _) if self.blocked == self.queue.len() => Head::AllWait,
            (None, None) => Head::Over(Verdict::Ended),
            (None, Some(Process { vpid, phase })) if phase.is_owing() => Head::NotArrived(vpid),
            (None, Some(Process { vpid, phase })) if phase.cost() <= self.left => Head::Ready(vpid),
            (None, Some(_)) => Head::Over(Verdict::Budget),
        }
    }

    /// Charges the turn of the head and settles what it came to. The head must be ready. A child must be new to the
    /// queue, and fewer than 64 processes may stand there where its parent lives.
    pub fn settle(&mut self, turn: Settled)
        requires ready { IsReady (head self.old) }
        requires room { IsTrue (has_room self.old.queue turn) }
        ensures core { self.new ≡ core_after_turn self.old turn }
        ensures falls { self.new.left < self.old.left }
    {
        if let Some(Process { vpid, phase }) = self.queue.first() {
            self.queue.settle(turn);
            let _count = self.queue.len();
            self.blocked = blocked_after(self.blocked, turn);
            self.left -= phase.cost();
            self.verdict = verdict_after(vpid, turn);
        }
    }

    /// Something has happened for which processes may have waited, where all do: no turn in a row was blocked since then.
    pub fn resume(&mut self)
        requires { head self.old ≡ Head.AllWait }
        ensures { self.new ≡ core_after_wake self.old }
    {
        self.blocked = 0;
    }

    /// Nothing can happen for which the processes wait, where all do: the run is over.
    pub fn dead(&mut self)
        requires { head self.old ≡ Head.AllWait }
        ensures { self.new ≡ core_after_deadlock self.old }
    {
        self.verdict = Some(Verdict::Deadlock);
    }

    /// Whether the process of this virtual pid waits, so that its call is tried again at its turn.
    pub fn waits(&self, vpid: u32) -> bool
        ensures { result ≡ is_vpid_waiting vpid self.now.queue }
    {
        self.queue.waits(vpid)
    }
}

/// Arrivals of two processes in either order give the same core, so that their order cannot matter.
pub fn arrivals_commute()
    ensures { ArrivalsCommute }
{}

/// The head does not change by an arrival of another process.
pub fn head_stays_at_another_arrival()
    ensures { HeadStays }
{}

/// An arrival of another process before the head's turn, or after it, gives the same core.
pub fn arrival_goes_beside_a_turn()
    ensures { ArrivalBesideTurn }
{}
