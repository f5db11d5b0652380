// A turn is taken, and what it shows is written, while another process's segment runs.
ghost use Rattle.std.specs.Prelude.{None, IfOk};
ghost use Rattle.dt_host.specs.World.{IsEmptyStart};

use crate::anywhere::status_beside;
use crate::expect::same;
use crate::program::HELLO_INDEX;
use crate::twice::{outside_with, sink};
use dt_asm::{AsmErr, Guest};
use dt_base::NoMemory;
use dt_base::abi::{A0, A1, A2};
use dt_host::{Gate, Sink, SinkErr};
use dt_memhost::{MemHost, MemSink, MemStore};
use dt_run::Outside;
use dt_rv64::Instr;
use std::alloc::Global;
use std::sync::atomic::AtomicU64;
use std::sync::atomic::Ordering::SeqCst;
use std::test::Fail;

// A register that calls keep.
const S0: u8 = 8;

// Calls (asm-generic/unistd.h).
const WRITE: u32 = 64;

const EXIT: u32 = 93;

const CLONE: u32 = 220;

const SIGCHLD: i64 = 17;

// The funct3 of a branch where two registers differ.
const BNE: u8 = 1;

// The label of the loop.
const AGAIN: u32 = 1;

// The pass of the gate that a turn is to be taken beside, and how many bytes that turn's text brings the sink to: those
// of the first line and of two turns that each show a write of one byte.
const PASS: u64 = 4;

const BYTES: u64 = 31;

// No wait takes longer than so many looks.
const LOOKS: u64 = 1_000_000_000;

// Makes a child; then both write `x` to standard output a hundred times, and end with code 0.
fn twins(alloc: Global) -> Result<Vec<u8>, AsmErr> {
    let mut guest = Guest::new(alloc);
    call(&mut guest, CLONE, &[SIGCHLD, 0, 0, 0, 0])?;
    write_often(&mut guest)?;
    call(&mut guest, EXIT, &[0])?;
    guest.bytes(b"x")?;
    guest.elf()
}

// Makes a call with arguments in the registers from a0 on.
fn call(guest: &mut Guest, number: u32, arguments: &[i64]) -> Result<(), NoMemory> {
    let mut register = A0;
    for argument in arguments {
        guest.li(register, *argument)?;
        register = register.wrapping_add(1);
    }
    guest.call(number)
}

fn write_often(guest: &mut Guest) -> Result<(), NoMemory> {
    guest.li(S0, 100)?;
    guest.label(AGAIN)?;
    write(guest)?;
    guest.ins(addi(S0, S0, -1))?;
    guest.branch(BNE, S0, 0, AGAIN)
}

fn write(guest: &mut Guest) -> Result<(), NoMemory> {
    guest.li(A0, 1)?;
    guest.ins(Instr::Lui {
        rd: A1,
        imm: 0x10000,
    })?;
    guest.ins(addi(A1, A1, 0xc4))?;
    guest.li(A2, 1)?;
    guest.call(WRITE)
}

fn addi(rd: u8, rs1: u8, imm: i64) -> Instr {
    Instr::Addi { rd, rs1, imm }
}

// What the gate and the sink see of each other, and whether one of them has waited in vain.
#[derive(Drop)]
struct Meeting {
    passes: AtomicU64,
    bytes: AtomicU64,
    missed: AtomicU64,
}

// Looks until a number is reached, but not for ever.
fn look(number: &AtomicU64, least: u64, missed: &AtomicU64) {
    for _ in 0..LOOKS {
        if least <= number.load(SeqCst) {
            return;
        }
    }
    missed.fetch_add(1, SeqCst);
}

// A gate whose fourth pass waits for the sink.
impl Gate for Meeting {
    fn pass(&self, _index: usize) {
        let before = self.passes.fetch_add(1, SeqCst);
        if before.saturating_add(1) == PASS {
            look(&self.bytes, BYTES, &self.missed);
        }
    }
}

// A sink that takes each piece whole. In the write that brings it to so many bytes it waits for the fourth pass.
#[derive(Drop)]
struct Waiting<'a> {
    meeting: &'a Meeting,
    bytes: u64,
}

impl Sink for Waiting<'_> {
    ghost told = { λ _. None };

    ghost count = { λ _. 0 };

    fn faults(&self) -> u64 {
        0
    }

    fn write(&mut self, piece: &[u8]) -> Result<usize, SinkErr> {
        let before = self.bytes;
        self.bytes = before.saturating_add(piece.len() as u64);
        if before < BYTES && BYTES <= self.bytes {
            look(&self.meeting.passes, PASS, &self.meeting.missed);
        }
        self.meeting.bytes.store(self.bytes, SeqCst);
        Ok(piece.len())
    }
}

// What a run of the twins meets, whose report goes to a sink that waits.
fn with_twins<'a>(
    alloc: Global,
    meeting: &'a Meeting,
) -> Result<Outside<MemStore, MemHost, Waiting<'a>, MemSink>, Fail>
    ensures { IfOk result (λ met. IsEmptyStart met.host.view) }
{
    let program = twins(alloc)?;
    let out = Waiting { meeting, bytes: 0 };
    let err = sink(alloc, 1)?;
    Ok(outside_with(alloc, 1, HELLO_INDEX, &program, out, err)?)
}

#[test]
fn a_turn_is_taken_beside_a_segment(rt: HostRuntime) -> Result<(), Fail> {
    let meeting = Meeting {
        passes: AtomicU64::new(0),
        bytes: AtomicU64::new(0),
        missed: AtomicU64::new(0),
    };
    let mut met = with_twins(rt.alloc(), &meeting)?;
    let words = "run\nimg\n--workers\n2\n--\n/hello";
    same(&rt, status_beside(&rt, words, &mut met, &meeting)?, 0);
    same(&rt, meeting.missed.load(SeqCst), 0);
    same(&rt, BYTES < met.out.bytes, true);
    Ok(())
}
