// Slots that are run by workers, on threads where there are several.
ghost use Rattle.std.specs.Prelude.{◌<◌};

use crate::expect::{same, same_at};
use dt_host::{Gate, NoGate};
use dt_rv64::{Machine, Seg, Stop};
use dt_space::Space;
use dt_workers::{Slot, run_segments};
use std::alloc::Global;
use std::process::Abort;
use std::sync::atomic::Ordering::SeqCst;
use std::sync::atomic::{AtomicBool, AtomicU64};
use std::test::Fail;
use std::thread::Threads;

const BASE: u64 = 0x1_0000;

// ADDI t0, t0, 1.
const COUNT_UP: u32 = 0x0012_8293;

// A process, the words that its machine begins at, and what its segment comes to: its count and stop, how far from the
// first word the machine stands then, and t0.
#[derive(Clone, Copy)]
struct Case {
    vpid: u32,
    words: [u32; 4],
    count: u32,
    stop: Stop,
    offset: u64,
    t0: u64,
}

const CASES: [Case; 5] = [
    // ECALL.
    Case {
        vpid: 7,
        words: [COUNT_UP, COUNT_UP, 0x0000_0073, 0],
        count: 3,
        stop: Stop::Call,
        offset: 8,
        t0: 2,
    },
    // RDCYCLE into t1.
    Case {
        vpid: 1,
        words: [COUNT_UP, 0xc000_2373, 0, 0],
        count: 2,
        stop: Stop::Counter(6),
        offset: 4,
        t0: 1,
    },
    // A jump back by 4, without end.
    Case {
        vpid: 64,
        words: [COUNT_UP, 0xffdf_f06f, 0, 0],
        count: 65_536,
        stop: Stop::Slice,
        offset: 0,
        t0: 32_768,
    },
    // A word that is no instruction.
    Case {
        vpid: 2,
        words: [0; 4],
        count: 1,
        stop: Stop::Fault(4),
        offset: 0,
        t0: 0,
    },
    // A load from address 0.
    Case {
        vpid: 3,
        words: [COUNT_UP, COUNT_UP, COUNT_UP, 0x0000_3303],
        count: 4,
        stop: Stop::Fault(11),
        offset: 12,
        t0: 3,
    },
];

// A slot whose machine begins at these words.
fn slot_at(alloc: Global, vpid: u32, words: [u32; 4]) -> Result<Slot, Fail> {
    let mut code = Vec::new(alloc);
    for word in words {
        code.extend_from_slice(&word.to_le_bytes())?;
    }
    let machine = Machine {
        regs: [0; 32],
        pc: BASE,
        space: Space::new(alloc).with_pages(alloc, 16, 1, 5, &code)?,
        reserved: None,
        atomics: false,
    };
    Ok(Slot {
        vpid,
        machine,
        result: None,
    })
}

// A slot for each case.
fn slots(alloc: Global) -> Result<Vec<Slot>, Fail> {
    let mut slots = Vec::new(alloc);
    for case in CASES {
        slots.push(slot_at(alloc, case.vpid, case.words)?)?;
    }
    Ok(slots)
}

// How often each index has passed.
#[derive(Drop)]
struct Passes {
    counts: [AtomicU64; 5],
}

impl Passes {
    fn none() -> Self {
        Passes {
            counts: [
                AtomicU64::new(0),
                AtomicU64::new(0),
                AtomicU64::new(0),
                AtomicU64::new(0),
                AtomicU64::new(0),
            ],
        }
    }
}

impl Gate for Passes {
    fn pass(&self, index: usize) {
        if let Some(count) = self.counts.get(index) {
            count.fetch_add(1, SeqCst);
        }
    }
}

// Ends the test unless a slot came to what its case says.
fn expect_slot(rt: &impl Abort, workers: usize, slot: &Slot, case: Case) {
    let at = (workers, case.vpid);
    let seg = Seg {
        count: case.count,
        stop: case.stop,
    };
    same_at(rt, at, slot.vpid, case.vpid);
    same_at(rt, at, slot.result, Some(Ok(seg)));
    same_at(rt, at, slot.machine.pc.wrapping_sub(BASE), case.offset);
    same_at(rt, at, slot.machine.reg(5), case.t0);
}

fn expect_slots(rt: &impl Abort, workers: usize, slots: &[Slot]) {
    same_at(rt, workers, slots.len(), CASES.len());
    for index in 0..slots.len().min(CASES.len()) {
        expect_slot(rt, workers, &slots[index], CASES[index]);
    }
}

// Ends the test unless each index has passed once.
fn expect_passes(rt: &impl Abort, workers: usize, passes: &Passes) {
    for count in &passes.counts {
        same_at(rt, workers, count.load(SeqCst), 1);
    }
}

// Ends the test unless so many workers run all slots.
fn expect_run<R: Abort + AllocGlobal + Threads + Sync>(rt: &R, workers: usize) -> Result<(), Fail>
    requires { 0 < workers }
{
    let mut slots = slots(rt.alloc())?;
    let passes = Passes::none();
    run_segments(rt, &mut slots, workers, &passes);
    expect_slots(rt, workers, &slots);
    expect_passes(rt, workers, &passes);
    Ok(())
}

#[test]
fn slots_are_the_same_for_any_number_of_workers(rt: HostRuntime) -> Result<(), Fail> {
    expect_run(&rt, 1)?;
    expect_run(&rt, 2)?;
    expect_run(&rt, 3)?;
    expect_run(&rt, 64)
}

#[test]
fn nothing_is_run_for_no_slot(rt: HostRuntime) {
    let mut slots: [Slot; 0] = [];
    for workers in [1, 64] {
        run_segments(&rt, &mut slots, workers, &NoGate);
        same_at(&rt, workers, slots.len(), 0);
    }
}

/// A worker at the gate: whether it has come, and whether it has seen the other there.
#[derive(Drop)]
pub struct Visitor {
    has_come: AtomicBool,
    pub has_met: AtomicBool,
}

impl Visitor {
    pub fn new() -> Self {
        Visitor {
            has_come: AtomicBool::new(false),
            has_met: AtomicBool::new(false),
        }
    }

    // Comes, and looks out for the other, but not for ever.
    fn meet(&self, other: &Visitor) {
        self.has_come.store(true, SeqCst);
        for _ in 0..1_000_000_000 {
            if other.has_come.load(SeqCst) {
                self.has_met.store(true, SeqCst);
                return;
            }
        }
    }
}

/// A gate at which those who pass it with 0 and with another index wait for each other.
#[derive(Drop)]
pub struct Meeting {
    pub first: Visitor,
    pub second: Visitor,
}

impl Gate for Meeting {
    fn pass(&self, index: usize) {
        match index {
            0 => self.first.meet(&self.second),
            _ => self.second.meet(&self.first),
        }
    }
}

#[test]
fn two_workers_stand_at_the_gate_at_once(rt: HostRuntime) -> Result<(), Fail> {
    let mut slots = slots(rt.alloc())?;
    slots.truncate(2);
    let gate = Meeting {
        first: Visitor::new(),
        second: Visitor::new(),
    };
    run_segments(&rt, &mut slots, 2, &gate);
    same(&rt, gate.first.has_met.load(SeqCst), true);
    same(&rt, gate.second.has_met.load(SeqCst), true);
    Ok(())
}
