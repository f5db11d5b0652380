// The numbers that code and definitions share, each tried beside its neighbours: the limits of executables, and the
// steps of a segment.
use crate::assembler::put_numbers;
use crate::expect::same_at;
use dt_elf::{ElfErr, read_elf};
use dt_rv64::{Hints, Machine, Seg, Stop, segment};
use dt_space::Space;
use std::alloc::{AllocError, Global};
use std::process::Abort;
use std::test::Fail;

const ENTRY: u64 = 0x1_0078;

const BASE: u64 = 0x1_0000;

// An executable without code: its entry, how many program headers it has, and the segment of the first one. The others
// are of type 0, PT_NULL.
fn executable(
    alloc: Global,
    entry: u64,
    headers: u8,
    vaddr: u64,
    memsz: u64,
) -> Result<Vec<u8>, AllocError> {
    let mut file = Vec::new(alloc);
    file.extend_from_slice(&[0x7f, 0x45, 0x4c, 0x46, 2, 1, 1, 0, 0, 0, 0, 0, 0, 0, 0, 0])?;
    file.extend_from_slice(&[2, 0, 0xf3, 0, 1, 0, 0, 0])?;
    put_numbers(&mut file, &[entry, 64, 0])?;
    file.extend_from_slice(&[0, 0, 0, 0, 64, 0, 56, 0, headers, 0, 0, 0, 0, 0, 0, 0])?;
    file.extend_from_slice(&[1, 0, 0, 0, 5, 0, 0, 0])?;
    put_numbers(&mut file, &[0, vaddr, vaddr, 0, memsz, 4096])?;
    for _ in 1..headers {
        file.extend_from_slice(&[0; 56])?;
    }
    Ok(file)
}

// Entries, how many program headers there are, the address and size of the first segment, and why it is refused.
const LIMITS: [(u64, u8, u64, u64, Option<ElfErr>); 8] = [
    (ENTRY, 64, BASE, 1, None),
    (ENTRY, 65, BASE, 1, Some(ElfErr::Header)),
    (0x3f_ffff_fffc, 1, BASE, 1, None),
    (0x40_0000_0000, 1, BASE, 1, Some(ElfErr::Header)),
    (ENTRY, 1, 4096, 1, None),
    (ENTRY, 1, 4095, 1, Some(ElfErr::Segment)),
    (ENTRY, 1, 0x1f_ffff_f000, 4096, None),
    (ENTRY, 1, 0x1f_ffff_f000, 4097, Some(ElfErr::Segment)),
];

fn expect_limits(rt: &impl Abort, alloc: Global) -> Result<(), AllocError> {
    for (entry, headers, vaddr, memsz, refusal) in &LIMITS {
        let file = executable(alloc, *entry, *headers, *vaddr, *memsz)?;
        let at = (*entry, *headers, *vaddr, *memsz);
        same_at(rt, at, read_elf(alloc, &file).err(), *refusal);
    }
    Ok(())
}

#[test]
fn limits_of_an_executable(rt: HostRuntime) -> Result<(), Fail> {
    expect_limits(&rt, rt.alloc())?;
    Ok(())
}

// Two NOPs, a loop that counts t0 down by ADDI and BNE, and ECALL.
const LOOP: [u32; 5] = [
    0x0000_0013,
    0x0000_0013,
    0xfff2_8293,
    0xfe02_9ee3,
    0x0000_0073,
];

// A machine at one of these words, with a count in t0.
fn counting_machine(alloc: Global, pc: u64, count: u64) -> Result<Machine, Fail> {
    let mut code = Vec::new(alloc);
    for word in LOOP {
        code.extend_from_slice(&word.to_le_bytes())?;
    }
    let mut regs = [0; 32];
    regs[5] = count;
    Ok(Machine {
        regs,
        pc,
        space: Space::new(alloc).with_pages(alloc, 16, 1, 5, &code)?,
        reserved: None,
        atomics: false,
    })
}

#[test]
fn a_segment_has_65536_steps_at_most(rt: HostRuntime) -> Result<(), Fail> {
    expect_segment(&rt, rt.alloc(), BASE + 8, 65_535, Stop::Call)?;
    expect_segment(&rt, rt.alloc(), BASE + 4, 65_536, Stop::Call)?;
    expect_segment(&rt, rt.alloc(), BASE, 65_536, Stop::Slice)
}

// Ends the test unless the segment of a machine at this word has so many steps, and ends so.
fn expect_segment(
    rt: &impl Abort,
    alloc: Global,
    pc: u64,
    count: u32,
    stop: Stop,
) -> Result<(), Fail> {
    let mut machine = counting_machine(alloc, pc, 32_767)?;
    let found = segment(&mut machine, &mut Hints::new())?;
    same_at(rt, pc, found, Seg { count, stop });
    Ok(())
}
