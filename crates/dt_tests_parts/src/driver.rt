// A queue whose children get virtual pids in order.
ghost use Rattle.std.specs.Prelude.{◌≡◌, IsTrue};
ghost use Rattle.dt_sched.specs.Core.{IsReady, head};
ghost use Rattle.dt_tests_parts.specs.Below.{Below, gives, next_after};

use dt_base::{NoMemory, SEGMENT_LIMIT};
use dt_sched::{Core, Head, Settled};
use std::alloc::Global;
use std::marker::Model;

// What a turn came to; a child gets the next virtual pid.
#[derive(Clone, Copy)]
pub enum Came {
    Again,
    Child,
    LastChild,
    Waits,
    Moved,
    Gone,
    Stopped(u64),
}

#[derive(Drop)]
pub struct Driver {
    core: Core,
    next: u32,
}

impl Model for Driver {
    ghost use Rattle.std.specs.Prelude.{ℕ};
    ghost use Rattle.dt_tests_parts.specs.Below.{Below};

    ghost Value = { ℕ };

    ghost view = { λ d. d.next };

    ghost invariant = { λ d. Below d.next d.core.queue };
}

impl Came {
    // What it is with this virtual pid for a child. Where 64 were given, no child is made.
    fn settled(self, next: u32) -> Settled
        ensures { IsTrue (gives next result) }
    {
        match self {
            Came::Child if next <= 64 => Settled::Child(next),
            Came::LastChild if next <= 64 => Settled::LastChild(next),
            Came::Again | Came::Child => Settled::Again,
            Came::Waits => Settled::Waits,
            Came::Moved => Settled::Moved,
            Came::Gone | Came::LastChild => Settled::Gone,
            Came::Stopped(number) => Settled::Stopped(number),
        }
    }
}

// The virtual pid that a child gets after a turn.
fn next_after(next: u32, turn: Settled) -> u32
    requires { IsTrue (gives next turn) }
    ensures { result ≡ next_after next turn }
{
    match turn {
        Settled::Child(child) | Settled::LastChild(child) => child + 1,
        Settled::Again | Settled::Waits | Settled::Moved | Settled::Gone | Settled::Stopped(_) =>
            next,
    }
}

// Settles a turn of the head, and gives the next virtual pid.
fn settle(core: &mut Core, next: u32, came: Came) -> u32
    requires ready { IsReady (head core.old) }
    requires below { Below next core.old.queue }
    ensures { Below result core.new.queue }
{
    let turn = came.settled(next);
    core.settle(turn);
    next_after(next, turn)
}

impl Driver {
    /// A core with process 1, and 2 as the first child's virtual pid.
    pub fn new(alloc: Global, budget: u64) -> Result<Self, NoMemory> {
        Ok(Driver {
            core: Core::new(alloc, budget)?,
            next: 2,
        })
    }

    /// The core, to look at.
    pub fn core(&self) -> &Core {
        &self.core
    }

    /// Lets the segment of one of those that owe arrive: that many after the first, or the last of them. Its
    /// virtual pid, where one owes.
    pub fn arrive(&mut self, index: usize, costs: &[u32]) -> Option<u32> {
        let owing = self.core.owing();
        if owing.is_empty() {
            return None;
        }
        let index = index.min(owing.len() - 1);
        let vpid = owing[index];
        let cost = match costs.get(vpid as usize) {
            Some(cost) => (*cost).clamp(1, SEGMENT_LIMIT),
            None => 1,
        };
        self.core.arrived(vpid, cost);
        Some(vpid)
    }

    /// Lets the head take its turn, where it is ready.
    pub fn turn(&mut self, came: Came) -> Head {
        let head = self.core.head();
        if let Head::Ready(_) = head {
            self.next = settle(&mut self.core, self.next, came);
        }
        head
    }
}
