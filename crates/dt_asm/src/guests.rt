// Guests by name.
ghost use Rattle.std.specs.Prelude.{◌≡◌, ◌∷◌, [], IfOk, OnOk};
ghost use Rattle.dt_rv64.specs.declared.instruction.Instr.TheVariants.{Lui, Addi};
ghost use Rattle.dt_asm.specs.Item.{with_items};
ghost use Rattle.dt_asm.specs.Guests.{instructions, hello_guest, fork_items, trio_guest};
ghost use Rattle.dt_asm.specs.Guests.{cat1_guest, late_guest, first_guest};

use crate::guest::Guest;
use dt_base::NoMemory;
use dt_base::abi::{A0, A1, A2};
use dt_rv64::Instr;
use std::alloc::Global;

// The register of a call's fourth argument.
const A3: u8 = 13;

// Calls (asm-generic/unistd.h).
const OPENAT: u32 = 56;

const READ: u32 = 63;

const WRITE: u32 = 64;

const EXIT: u32 = 93;

const KILL: u32 = 129;

const CLONE: u32 = 220;

const WAIT4: u32 = 260;

const AT_FDCWD: i64 = -100;

const SIGKILL: i64 = 9;

const SIGCHLD: i64 = 17;

// The label of a child's code.
const CHILD: u32 = 1;

/// Writes `hello` and a line's end to standard output, and ends with code 0.
pub fn hello(alloc: Global) -> Result<Guest, NoMemory>
    ensures { IfOk result (λ guest. guest ≡ hello_guest) }
{
    let mut guest = Guest::new(alloc);
    guest.li(A0, 1)?;
    guest.ins(lui(A1, 0x10000))?;
    guest.ins(addi(A1, A1, 0x9c))?;
    guest.li(A2, 6)?;
    guest.call(WRITE)?;
    guest.li(A0, 0)?;
    guest.call(EXIT)?;
    guest.bytes(b"hello\n")?;
    Ok(guest)
}

/// Makes two children, which end with code 7, waits for both, and ends with code 0.
pub fn trio(alloc: Global) -> Result<Guest, NoMemory>
    ensures { IfOk result (λ guest. guest ≡ trio_guest) }
{
    let mut guest = Guest::new(alloc);
    fork(&mut guest)?;
    fork(&mut guest)?;
    guest.li(A0, -1)?;
    guest.li(A1, 0)?;
    guest.li(A2, 0)?;
    guest.li(A3, 0)?;
    guest.call(WAIT4)?;
    guest.li(A0, -1)?;
    guest.ins(Instr::Ecall)?;
    guest.li(A0, 0)?;
    guest.call(EXIT)?;
    guest.label(CHILD)?;
    guest.li(A0, 7)?;
    guest.call(EXIT)?;
    Ok(guest)
}

/// Writes up to 10,000 bytes of the file `/f`, read in one call, to standard output, and ends with code 0.
pub fn cat1(alloc: Global) -> Result<Guest, NoMemory>
    ensures { IfOk result (λ guest. guest ≡ cat1_guest) }
{
    let mut guest = Guest::new(alloc);
    guest.memsz(0x4000)?;
    guest.li(A0, AT_FDCWD)?;
    guest.ins(lui(A1, 0x10000))?;
    guest.ins(addi(A1, A1, 0xc4))?;
    guest.li(A2, 0)?;
    guest.li(A3, 0)?;
    guest.call(OPENAT)?;
    guest.ins(lui(A1, 0x11000))?;
    guest.ins(lui(A2, 0x2000))?;
    guest.ins(addi(A2, A2, 0x710))?;
    guest.call(READ)?;
    guest.ins(addi(A2, A0, 0))?;
    guest.li(A0, 1)?;
    guest.call(WRITE)?;
    guest.li(A0, 0)?;
    guest.call(EXIT)?;
    guest.bytes(b"/f\0")?;
    Ok(guest)
}

/// Makes a child, kills it by SIGKILL before its first turn, waits for it, and ends with code 0. The child writes `x`
/// to standard output, and would end with code 0.
pub fn late(alloc: Global) -> Result<Guest, NoMemory>
    ensures { IfOk result (λ guest. guest ≡ late_guest) }
{
    let mut guest = Guest::new(alloc);
    fork(&mut guest)?;
    guest.li(A0, 2)?;
    guest.li(A1, SIGKILL)?;
    guest.call(KILL)?;
    guest.li(A0, 2)?;
    guest.li(A1, 0)?;
    guest.li(A2, 0)?;
    guest.li(A3, 0)?;
    guest.call(WAIT4)?;
    guest.li(A0, 0)?;
    guest.call(EXIT)?;
    guest.label(CHILD)?;
    guest.li(A0, 1)?;
    guest.ins(lui(A1, 0x10000))?;
    guest.ins(addi(A1, A1, 0xe4))?;
    guest.li(A2, 1)?;
    guest.call(WRITE)?;
    guest.li(A0, 0)?;
    guest.call(EXIT)?;
    guest.bytes(b"x")?;
    Ok(guest)
}

/// Makes a child, and ends with code 3 while the child counts without end.
pub fn first(alloc: Global) -> Result<Guest, NoMemory>
    ensures { IfOk result (λ guest. guest ≡ first_guest) }
{
    let mut guest = Guest::new(alloc);
    fork(&mut guest)?;
    guest.li(A0, 3)?;
    guest.call(EXIT)?;
    guest.label(CHILD)?;
    guest.ins(addi(A0, A0, 1))?;
    guest.jump(CHILD)?;
    Ok(guest)
}

// Clones, and sends the child to its label.
fn fork(guest: &mut Guest) -> Result<(), NoMemory>
    ensures { OnOk result (guest.new ≡ with_items guest.old fork_items) }
{
    guest.li(A0, SIGCHLD)?;
    guest.li(A1, 0)?;
    guest.call(CLONE)?;
    guest.branch(0, A0, 0, CHILD)
}

fn lui(rd: u8, imm: i64) -> Instr
    ensures { result ≡ Lui rd imm }
{
    Instr::Lui { rd, imm }
}

fn addi(rd: u8, rs1: u8, imm: i64) -> Instr
    ensures { result ≡ Addi rd rs1 imm }
{
    Instr::Addi { rd, rs1, imm }
}
