// The segments of a list of slots, a chunk of it on each thread.
ghost use Rattle.std.specs.Prelude.{◌≡◌, ◌+◌, ◌^◌, ◌<◌, All, length};
ghost use Rattle.std.specs.List.{AllZip};
ghost use Rattle.std.specs.Thread.{IsSync};
ghost use Rattle.dt_workers.specs.Slots.{IsSlotAfter, HasMachine};

use crate::slot::Slot;
use dt_host::Gate;
use dt_rv64::Hints;
use std::thread::{Threads, join_mut};

// A worker runs the slots of a chunk, one after another. The first of them has the index `start` among all slots.
#[tactic(auto, using(crate::proofs::Chunks::chunks))]
fn run_chunk<G: Gate>(gate: &G, start: usize, chunk: &mut [Slot])
    requires { start + length chunk.old < 2 ^ 64 }
    ensures { AllZip IsSlotAfter chunk.old chunk.new }
{
    let mut hints = Hints::new();
    for index in 0..chunk.len() {
        gate.pass(start + index);
        chunk[index].run(&mut hints);
    }
}

// Runs slots in chunks of this size, the last by this thread and each other by one of its own. The first slot has the
// index `start` among all. This thread starts all others before it runs a chunk itself: a thread that is started by one
// that computes may wait for its processor until that one is done.
#[cycle(chunks)]
fn run_chunks<R: Threads + Sync, G: Gate + Sync>(
    rt: &R,
    gate: &G,
    size: usize,
    start: usize,
    slots: &mut [Slot],
)
    requires some { 0 < size }
    requires inside { start + length slots.old < 2 ^ 64 }
    ensures { AllZip IsSlotAfter slots.old slots.new }
{
    if slots.len() <= size {
        run_chunk(gate, start, slots);
        return;
    }
    let (chunk, others) = slots.split_at_mut(size);
    run_beside(rt, gate, start, chunk, size, others);
}

// Runs a chunk on a thread of its own, and beside it the slots that follow it.
#[cycle(chunks)]
fn run_beside<R: Threads + Sync, G: Gate + Sync>(
    rt: &R,
    gate: &G,
    start: usize,
    chunk: &mut [Slot],
    size: usize,
    others: &mut [Slot],
)
    requires some { 0 < size }
    requires front { start + length chunk.old < 2 ^ 64 }
    requires back { start + size + length others.old < 2 ^ 64 }
    ensures chunk { AllZip IsSlotAfter chunk.old chunk.new }
    ensures others { AllZip IsSlotAfter others.old others.new }
{
    let mut first = ||
        requires { IsSync G.row × (start + length chunk.now < 2 ^ 64) }
        ensures { AllZip IsSlotAfter chunk.entry.now chunk.exit.now }
    { run_chunk(gate, start, chunk) };
    let mut rest = ||
        requires { IsSync R.row × IsSync G.row × (0 < size) × (start + size + length others.now < 2 ^ 64) }
        ensures { AllZip IsSlotAfter others.entry.now others.exit.now }
    { run_chunks(rt, gate, size, start + size, others) };
    join_mut(rt, &mut first, &mut rest);
}

/// Runs each slot once, by so many workers, or fewer where there are fewer slots. Before each segment the worker passes
/// the gate with the slot's index. A slot whose segment wants memory tells so. Want of memory aside, no answer depends
/// on the number of workers. Beside what segments take, no memory is taken.
pub fn run_segments<R: Threads + Sync, G: Gate + Sync>(
    rt: &R,
    slots: &mut [Slot],
    workers: usize,
    gate: &G,
)
    requires { 0 < workers }
    ensures ran { AllZip IsSlotAfter slots.old slots.new }
    ensures sound { All HasMachine slots.old → All HasMachine slots.new }
{
    if slots.is_empty() {
        return;
    }
    run_chunks(rt, gate, slots.len().div_ceil(workers), 0, slots);
}
