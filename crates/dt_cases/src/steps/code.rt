// The instructions of a guest's steps.
use crate::steps::layout::{ACTION, GOT, SENT, STACK_END};
use dt_asm::Guest;
use dt_base::NoMemory;
use dt_rv64::Instr;

// Calls of which steps are made (asm-generic/unistd.h).
const READ: i64 = 63;

const WRITE: u32 = 64;

const CLONE: i64 = 220;

// Registers: the stack pointer, and those of a call's arguments.
const SP: u8 = 2;

const A0: u8 = 10;

const A1: u8 = 11;

const A2: u8 = 12;

const A7: u8 = 17;

/// Where the next answer is kept.
pub const S0: u8 = 8;

// Temporary registers, and the count of a loop.
const T0: u8 = 5;

const T1: u8 = 6;

const T2: u8 = 7;

const S1: u8 = 9;

// Branches: if equal, if not, and if not less.
const BEQ: u8 = 0;

const BNE: u8 = 1;

const BGE: u8 = 5;

// Where the frame of a handler has the program counter.
const FRAME_PC: i64 = 128;

/// Makes a call with arguments in the registers from a0 on. All 64 bits of its number count.
pub fn call(guest: &mut Guest, number: i64, arguments: &[i64]) -> Result<(), NoMemory> {
    let mut register = A0;
    for argument in arguments {
        guest.li(register, *argument)?;
        register = register.wrapping_add(1);
    }
    guest.li(A7, number)?;
    guest.ins(Instr::Ecall)
}

/// Makes a child, which goes to its label.
pub fn clone(guest: &mut Guest, arguments: &[i64], label: u32) -> Result<(), NoMemory> {
    call(guest, CLONE, arguments)?;
    guest.branch(BEQ, A0, 0, label)
}

/// Writes as many bytes as a2 says from an address on to a descriptor.
pub fn write(guest: &mut Guest, fd: i64, at: i64) -> Result<(), NoMemory> {
    guest.li(A0, fd)?;
    guest.li(A1, at)?;
    guest.call(WRITE)
}

/// Writes on what is read, until nothing comes.
pub fn relay(
    guest: &mut Guest,
    labels: [u32; 2],
    from: i64,
    to: i64,
    count: i64,
) -> Result<(), NoMemory> {
    let [start, end] = labels;
    guest.label(start)?;
    call(guest, READ, &[from, GOT, count])?;
    guest.branch(BGE, 0, A0, end)?;
    add(guest, A2, A0, 0)?;
    write(guest, to, GOT)?;
    guest.jump(start)?;
    guest.label(end)
}

/// Writes the answers that were kept to stream 2; they begin at an address.
pub fn tell(guest: &mut Guest, answers: i64) -> Result<(), NoMemory> {
    guest.li(A0, 2)?;
    guest.li(A1, answers)?;
    guest.ins(Instr::Sub {
        rd: A2,
        rs1: S0,
        rs2: A1,
    })?;
    guest.call(WRITE)?;
    guest.li(S0, answers)
}

/// Writes what a program finds on its stack at the start: the number of arguments, and what begins with the first one.
pub fn start(guest: &mut Guest) -> Result<(), NoMemory> {
    guest.li(A0, 1)?;
    add(guest, A1, SP, 0)?;
    guest.li(A2, 8)?;
    guest.call(WRITE)?;
    guest.li(A0, 1)?;
    load(guest, A1, SP, 8)?;
    guest.li(A2, STACK_END)?;
    guest.ins(Instr::Sub {
        rd: A2,
        rs1: A2,
        rs2: A1,
    })?;
    guest.call(WRITE)
}

/// Begins anew at a label, where the answers that are kept begin at an address.
pub fn enter(guest: &mut Guest, label: u32, answers: i64) -> Result<(), NoMemory> {
    guest.label(label)?;
    guest.li(S0, answers)
}

/// Keeps a register as the next answer.
pub fn keep(guest: &mut Guest, register: u8) -> Result<(), NoMemory> {
    store(guest, S0, register, 0)?;
    add(guest, S0, S0, 8)
}

/// Keeps what stands from an address on.
pub fn look(guest: &mut Guest, at: i64, count: u32) -> Result<(), NoMemory> {
    let mut at = at;
    for _ in 0..count {
        guest.li(T0, at)?;
        load(guest, A0, T0, 0)?;
        keep(guest, A0)?;
        at = at.wrapping_add(8);
    }
    Ok(())
}

/// Keeps what stands from an offset above the stack pointer on.
pub fn look_above(guest: &mut Guest, offset: i64, count: u32) -> Result<(), NoMemory> {
    let mut offset = offset;
    for _ in 0..count {
        load(guest, A0, SP, offset)?;
        keep(guest, A0)?;
        offset = offset.wrapping_add(8);
    }
    Ok(())
}

/// Stores a number at an address.
pub fn put(guest: &mut Guest, at: i64, number: i64) -> Result<(), NoMemory> {
    guest.li(T0, at)?;
    guest.li(T1, number)?;
    store(guest, T0, T1, 0)
}

/// Stores a number so many times, one behind the other.
pub fn fill(
    guest: &mut Guest,
    label: u32,
    at: i64,
    number: i64,
    count: i64,
) -> Result<(), NoMemory> {
    guest.li(T0, at)?;
    guest.li(T1, number)?;
    guest.li(T2, count)?;
    guest.label(label)?;
    store(guest, T0, T1, 0)?;
    add(guest, T0, T0, 8)?;
    again(guest, T2, label)
}

/// Stores numbers from one on, one behind the other.
pub fn count_up(guest: &mut Guest, label: u32, first: i64, count: i64) -> Result<(), NoMemory> {
    guest.li(T0, SENT)?;
    guest.li(T1, first)?;
    guest.li(T2, count)?;
    guest.label(label)?;
    store(guest, T0, T1, 0)?;
    add(guest, T0, T0, 8)?;
    add(guest, T1, T1, 1)?;
    again(guest, T2, label)
}

/// Runs a loop of two instructions so many times.
pub fn spin(guest: &mut Guest, label: u32, count: i64) -> Result<(), NoMemory> {
    guest.li(T2, count)?;
    guest.label(label)?;
    again(guest, T2, label)
}

/// Begins what is done so many times.
pub fn times(guest: &mut Guest, label: u32, count: i64) -> Result<(), NoMemory> {
    guest.li(S1, count)?;
    guest.label(label)
}

/// Goes back to where it began.
pub fn repeat(guest: &mut Guest, label: u32) -> Result<(), NoMemory> {
    again(guest, S1, label)
}

/// Stores an action whose handler is at a label. A jump to the label stands here, and what runs goes round it.
pub fn put_handler(guest: &mut Guest, label: u32, flags: i64, mask: i64) -> Result<(), NoMemory> {
    guest.ins(Instr::Jal { rd: T1, imm: 8 })?;
    guest.jump(label)?;
    guest.li(T0, ACTION)?;
    store(guest, T0, T1, 0)?;
    put(guest, ACTION + 8, flags)?;
    put(guest, ACTION + 16, mask)
}

/// Stores an action.
pub fn put_action(guest: &mut Guest, handler: i64, flags: i64, mask: i64) -> Result<(), NoMemory> {
    put(guest, ACTION, handler)?;
    put(guest, ACTION + 8, flags)?;
    put(guest, ACTION + 16, mask)
}

/// Moves the program counter of the frame above the stack pointer by one instruction.
pub fn skip(guest: &mut Guest) -> Result<(), NoMemory> {
    load(guest, T0, SP, FRAME_PC)?;
    add(guest, T0, T0, 4)?;
    store(guest, SP, T0, FRAME_PC)
}

/// Adds to a register.
pub fn add(guest: &mut Guest, rd: u8, rs1: u8, imm: i64) -> Result<(), NoMemory> {
    guest.ins(Instr::Addi { rd, rs1, imm })
}

/// Goes to where a register points.
pub fn go(guest: &mut Guest, rs1: u8) -> Result<(), NoMemory> {
    guest.ins(Instr::Jalr { rd: 0, rs1, imm: 0 })
}

// Counts a register down, and goes to a label until it is 0.
fn again(guest: &mut Guest, register: u8, label: u32) -> Result<(), NoMemory> {
    add(guest, register, register, -1)?;
    guest.branch(BNE, register, 0, label)
}

fn load(guest: &mut Guest, rd: u8, rs1: u8, imm: i64) -> Result<(), NoMemory> {
    guest.ins(Instr::Ld { rd, rs1, imm })
}

fn store(guest: &mut Guest, rs1: u8, rs2: u8, imm: i64) -> Result<(), NoMemory> {
    guest.ins(Instr::Sd { rs1, rs2, imm })
}
