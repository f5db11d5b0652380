// The live processes in the order of their turns, in a table that is made once.
ghost use Rattle.dt_base.specs.declared.limits.TheConstants.{FIRST_PID};
ghost use Rattle.std.specs.Prelude.{◌≡◌, ◌<◌, ◌≤◌, ◌++◌, ◌∷◌, [], IfOk, IsTrue, false, length, vec_len, vec_capacity};
ghost use Rattle.std.specs.Prelude.{map, if◌then◌else◌, ◌==◌};
ghost use Rattle.std.specs.List.{Contains, slice_index_or};
ghost use Rattle.dt_sched.specs.Core.{owing_process, is_queued, is_distinct, owing_vpids, is_vpid_waiting};
ghost use Rattle.dt_sched.specs.Core.{process_after_arrival, is_owing, is_waiting, has_room};
ghost use Rattle.dt_sched.specs.declared.queue.TheConstants.{QUEUE_LIMIT};
ghost use Rattle.dt_sched.specs.inner.Queue.{first_process, has_ready_head, after_turn_of_head, indices_without_head};
ghost use Rattle.dt_sched.specs.inner.Queue.{owing_indices};

use crate::process::{Phase, Process};
use crate::settled::Settled;
use dt_base::{FIRST_PID, NoMemory};
use std::alloc::Global;
use std::collections::VecDeque;
use std::marker::Model;

/// How many processes a queue has room for.
pub const QUEUE_LIMIT: usize = 64;

impl Phase<u32> {
    /// Whether its process owes a segment that has not arrived.
    pub fn is_owing(self) -> bool
        ensures { result ≡ is_owing self }
    {
        matches!(self, Phase::Owes)
    }

    /// Whether its process waits, and owes nothing.
    pub fn is_waiting(self) -> bool
        ensures { result ≡ is_waiting self }
    {
        matches!(self, Phase::Waits)
    }
}

/// The live processes in the order of their turns, and which of them owe a segment: the virtual pid of each, and its
/// index in the queue. So no process is looked for.
#[derive(Drop)]
pub struct Queue {
    processes: VecDeque<Process>,
    owed: Vec<u32>,
    indices: Vec<usize>,
}

impl Model for Queue {
    ghost use Rattle.std.specs.Prelude.{List, vec_capacity};
    ghost use Rattle.std.specs.VecDeque.{deque_capacity};
    ghost use Rattle.dt_sched.specs.declared.process.Process.{Process};
    ghost use Rattle.dt_sched.specs.inner.Queue.{IsQueue, HasCapacity};

    ghost Value = { List Process };

    ghost view = { λ q. q.processes.items };

    ghost invariant = { λ q. record {
      table : IsQueue q.processes.items q.owed.items q.indices.items;
      room : HasCapacity (deque_capacity q.processes) (vec_capacity q.owed) (vec_capacity q.indices);
    } };
}

// Whether the process of this virtual pid is one of these and waits.
fn waits(processes: &[Process], vpid: u32) -> bool
    ensures { result ≡ is_vpid_waiting vpid processes.now }
{
    for process in processes {
        if process.vpid == vpid && process.phase.is_waiting() {
            return true;
        }
    }
    false
}

// Where a virtual pid stands first among these, one of which it is.
fn index_of(vpids: &[u32], vpid: u32) -> usize
    requires { Contains vpids.now vpid }
    ensures within { result < length vpids.now }
    ensures there { slice_index_or vpids.now result 0 ≡ vpid }
{
    match vpids.iter().position(|other| *other == vpid) {
        Some(index) => index,
        None => unreachable!(),
    }
}

// Takes one off each index, as the head goes.
fn move_up(indices: &mut [usize])
    ensures { indices.new ≡ indices_without_head indices.old }
{
    for index in indices.iter_mut() {
        *index = index.saturating_sub(1);
    }
}

// Puts an item at the end, where there is room for it.
fn push_within<T: Drop>(items: &mut Vec<T>, item: T)
    requires { vec_len items.old < vec_capacity items.old }
    ensures items { items.new.items ≡ items.old.items ++ item ∷ [] }
    ensures room { vec_capacity items.old ≤ vec_capacity items.new }
{
    match items.push(item) {
        Ok(()) => {}
        Err(_) => unreachable!(),
    }
}

// Notes a process at an index, where it owes a segment and there is room for it.
fn owe(owed: &mut Vec<u32>, indices: &mut Vec<usize>, process: Process, index: usize)
    requires owed { vec_len owed.old < vec_capacity owed.old }
    requires indices { vec_len indices.old < vec_capacity indices.old }
    ensures owed { owed.new.items ≡ owed.old.items ++ owing_vpids (process ∷ []) }
    ensures indices { indices.new.items ≡ indices.old.items ++ owing_indices index (process ∷ []) }
    ensures owed_room { vec_capacity owed.old ≤ vec_capacity owed.new }
    ensures indices_room { vec_capacity indices.old ≤ vec_capacity indices.new }
{
    if process.phase.is_owing() {
        push_within(owed, process.vpid);
        push_within(indices, index);
    }
}

impl Queue {
    /// No process.
    pub fn empty(alloc: Global) -> Result<Self, NoMemory>
        ensures { IfOk result (λ queue. queue ≡ []) }
    {
        Ok(Queue {
            processes: VecDeque::with_capacity(alloc, QUEUE_LIMIT)?,
            owed: Vec::with_capacity(alloc, QUEUE_LIMIT)?,
            indices: Vec::with_capacity(alloc, QUEUE_LIMIT)?,
        })
    }

    /// The first process alone, which owes a segment.
    pub fn new(alloc: Global) -> Result<Self, NoMemory>
        ensures { IfOk result (λ queue. queue ≡ owing_process FIRST_PID ∷ []) }
    {
        let mut queue = Queue::empty(alloc)?;
        queue.add(FIRST_PID, Phase::Owes);
        Ok(queue)
    }

    /// The virtual pids of those that owe a segment which has not arrived, in the order of their turns.
    pub fn owing(&self) -> &[u32]
        ensures { result.now ≡ owing_vpids self.now }
    {
        &self.owed
    }

    /// How many processes there are.
    pub fn len(&self) -> usize
        ensures count { result ≡ length self.now }
        ensures each_once { IsTrue (is_distinct self.now) }
        ensures few { length self.now ≤ QUEUE_LIMIT }
    {
        self.processes.len()
    }

    /// The head: the process whose turn it is.
    pub fn first(&self) -> Option<Process>
        ensures { result ≡ first_process self.now }
    {
        self.processes.front().copied()
    }

    /// Whether the process of this virtual pid waits.
    #[tactic(auto, using(crate::proofs::Tables::waits_append))]
    pub fn waits(&self, vpid: u32) -> bool
        ensures { result ≡ is_vpid_waiting vpid self.now }
    {
        // The queue is a ring, so what it holds lies in two rows.
        let (first, second) = self.processes.as_slices();
        waits(first, vpid) || waits(second, vpid)
    }

    /// Lets the segment of a process arrive, which owes one, with its cost in instructions.
    pub fn arrived(&mut self, vpid: u32, cost: u32)
        requires { Contains (owing_vpids self.old) vpid }
        ensures { self.new ≡ map (process_after_arrival vpid cost) self.old }
    {
        let index = index_of(self.owing(), vpid);
        self.arrived_at(index, cost);
    }

    // Lets the segment of the process at an index of `owing` arrive.
    fn arrived_at(&mut self, index: usize, cost: u32)
        requires { index < length (owing_vpids self.old) }
        ensures { self.new ≡ map (process_after_arrival (slice_index_or (owing_vpids self.old) index 0) cost) self.old }
    {
        let at = self.indices.remove(index);
        self.owed.remove(index);
        self.processes[at].phase = Phase::Ran(cost);
    }

    // Takes the head away, whose segment has arrived.
    fn take_head(&mut self) -> Process
        requires { IsTrue (has_ready_head self.old) }
        ensures first { self.old ≡ result ∷ self.new }
        ensures apart { is_queued result.vpid self.new ≡ false }
        ensures room { length self.new < QUEUE_LIMIT }
    {
        let Some(first) = self.processes.pop_front() else {
            unreachable!()
        };
        move_up(&mut self.indices);
        first
    }

    // Puts a process at the tail.
    #[tactic(auto, using(crate::proofs::Tables::at_the_tail))]
    fn add(&mut self, vpid: u32, phase: Phase<u32>)
        requires apart { is_queued vpid self.old ≡ false }
        requires room { length self.old < QUEUE_LIMIT }
        ensures { self.new ≡ self.old ++ record { vpid = vpid; phase = phase } ∷ [] }
    {
        let process = Process { vpid, phase };
        let index = self.processes.len();
        owe(&mut self.owed, &mut self.indices, process, index);
        match self.processes.push_back(process) {
            Ok(()) => {}
            Err(_) => unreachable!(),
        }
    }

    // Takes all away.
    fn clear(&mut self)
        ensures { self.new ≡ [] }
    {
        self.processes.clear();
        self.owed.clear();
        self.indices.clear();
    }

    // The head has ended, and with the first process all others.
    fn end(&mut self, vpid: u32)
        ensures { self.new ≡ (if vpid == FIRST_PID then [] else self.old) }
    {
        if vpid == FIRST_PID {
            self.clear();
        }
    }

    /// Moves the head to the tail, and a child behind it, or takes it away.
    #[tactic(auto, using(crate::proofs::Tables::at_the_tail))]
    pub fn settle(&mut self, turn: Settled)
        requires ready { IsTrue (has_ready_head self.old) }
        requires room { IsTrue (has_room self.old turn) }
        ensures { self.new ≡ after_turn_of_head self.old turn }
    {
        if matches!(turn, Settled::Stopped(_)) {
            return;
        }
        let Process { vpid, .. } = self.take_head();
        match turn {
            Settled::Again => self.add(vpid, Phase::Owes),
            Settled::Child(child) => {
                self.add(vpid, Phase::Owes);
                self.add(child, Phase::Owes);
            }
            Settled::LastChild(child) => {
                self.add(child, Phase::Owes);
                self.end(vpid);
            }
            Settled::Waits | Settled::Moved => self.add(vpid, Phase::Waits),
            Settled::Gone => self.end(vpid),
            Settled::Stopped(_) => {}
        }
    }
}
