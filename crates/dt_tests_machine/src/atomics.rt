// Atomics: what they change, against what qemu-riscv64 makes of it, what they reserve, and their faults.
use crate::atomic_vectors::ATOMICS;
use crate::expect::{same, same_at};
use dt_base::PAGE_SIZE;
use dt_rv64::{Instr, Machine, Step, decode};
use dt_space::{READ, Space, WRITE};
use std::alloc::Global;
use std::num::ParseIntError;
use std::process::Abort;
use std::test::Fail;

// Where the words stand, and where the data.
const CODE: u64 = 0x1_0000;

const DATA: u64 = 0x1_2000;

// What lies at the data before the words, and what x11 holds.
const HELD: u64 = 0x1122_3344_5566_7788;

const STORED: u64 = 0xaabb_ccdd_eeff_0011;

// Words on x10, the data's address, and x11, which tell x12.
const LR_W: u32 = 0x1005_262f;

const LR_D: u32 = 0x1005_362f;

const SC_W: u32 = 0x18b5_262f;

const SC_D: u32 = 0x18b5_362f;

const AMOADD_W: u32 = 0x00b5_262f;

const AMOADD_D: u32 = 0x00b5_362f;

// What does nothing; SD x11, 0(x10); ADDI of 8 and of -8 to x10.
const NOP: u32 = 0x0000_0013;

const SD: u32 = 0x00b5_3023;

const ON: u32 = 0x0085_0513;

const BACK: u32 = 0xff85_0513;

#[test]
fn each_change_of_memory_is_met(rt: HostRuntime) -> Result<(), Fail> {
    for line in ATOMICS.lines() {
        let (word, numbers) = row(line)?;
        expect_change(&rt, rt.alloc(), word, numbers)?;
    }
    Ok(())
}

// Ends the test unless a word changes the register and the memory so.
fn expect_change(rt: &impl Abort, alloc: Global, word: u32, numbers: [u64; 5]) -> Result<(), Fail> {
    let [offset, held, b, register, memory] = numbers;
    let mut machine = machine_with(alloc, &[word], 3, held)?;
    machine.regs[10] = DATA.wrapping_add(offset);
    machine.regs[11] = b;
    same(rt, machine.step()?, Step::Ran);
    let found = (machine.reg(12), machine.space.load8(DATA)?);
    same_at(rt, word, found, (register, memory));
    Ok(())
}

// A word, and its five numbers.
fn row(line: &str) -> Result<(u32, [u64; 5]), ParseIntError> {
    let mut fields = line.split(' ');
    let word = u32::from_str_radix(fields.next().unwrap_or(""), 16)?;
    let mut numbers = [0; 5];
    for index in 0..5 {
        numbers[index] = u64::from_str_radix(fields.next().unwrap_or(""), 16)?;
    }
    Ok((word, numbers))
}

// A machine with atomics that is about to carry out words, with a page of data of these rights.
fn machine_with(alloc: Global, words: &[u32], rights: u8, held: u64) -> Result<Machine, Fail> {
    let mut code = Vec::new(alloc);
    for word in words {
        code.extend_from_slice(&word.to_le_bytes())?;
    }
    let mut space = Space::new(alloc).with_pages(alloc, 16, 1, 5, &code)?;
    space.map(DATA / PAGE_SIZE, 1, READ | WRITE)?;
    space.store8(DATA, held)?;
    space.protect(DATA / PAGE_SIZE, 1, rights)?;
    let mut regs = [0; 32];
    regs[10] = DATA;
    regs[11] = STORED;
    Ok(Machine {
        regs,
        pc: CODE,
        space,
        reserved: None,
        atomics: true,
    })
}

#[test]
fn words_of_atomics(rt: HostRuntime) -> Result<(), Fail> {
    assert!(rt;
        matches!(
            decode(0x00b6_252f),
            Instr::AmoaddW {
                rd: 10,
                rs1: 12,
                rs2: 11
            }
        )
    );
    assert!(rt; matches!(decode(0x1006_252f), Instr::LrW { rd: 10, rs1: 12 }));
    assert!(rt; matches!(decode(0x1606_352f), Instr::LrD { rd: 10, rs1: 12 }));
    assert!(rt; matches!(decode(0x1016_252f), Instr::Unknown));
    Ok(())
}

#[test]
fn a_sum_of_32_bits(rt: HostRuntime) -> Result<(), Fail> {
    let mut machine = machine_with(rt.alloc(), &[0x00b6_252f], 3, 0x7fff_ffff)?;
    machine.regs[12] = DATA;
    machine.regs[11] = 1;
    same(&rt, machine.step()?, Step::Ran);
    same(&rt, machine.reg(10), 0x7fff_ffff);
    same(&rt, machine.space.load8(DATA)?, 0x8000_0000);
    Ok(())
}

// Five words in order, and what x12 and the data hold after them.
const SEQUENCES: &[([u32; 5], u64, u64)] = &[
    ([NOP, NOP, NOP, NOP, SC_W], 1, HELD),
    ([NOP, NOP, NOP, LR_W, SC_W], 0, 0x1122_3344_eeff_0011),
    ([NOP, NOP, NOP, LR_D, SC_D], 0, STORED),
    ([NOP, NOP, NOP, LR_D, SC_W], 1, HELD),
    ([NOP, NOP, NOP, LR_W, SC_D], 1, HELD),
    ([NOP, NOP, LR_D, LR_W, SC_W], 0, 0x1122_3344_eeff_0011),
    ([NOP, NOP, LR_W, SC_W, SC_W], 1, 0x1122_3344_eeff_0011),
    ([NOP, LR_D, SD, AMOADD_D, SC_D], 0, STORED),
    ([LR_D, ON, SC_D, BACK, SC_D], 1, HELD),
    ([LR_D, ON, LR_D, BACK, SC_D], 1, HELD),
];

#[test]
fn a_store_succeeds_where_its_address_is_reserved(rt: HostRuntime) -> Result<(), Fail> {
    for (words, register, memory) in SEQUENCES {
        let found = after(rt.alloc(), words)?;
        same_at(&rt, *words, found, (*register, *memory));
    }
    Ok(())
}

// What x12 and the data hold after words, each of which is carried out.
fn after(alloc: Global, words: &[u32; 5]) -> Result<(u64, u64), Fail> {
    let mut machine = machine_with(alloc, words, 3, HELD)?;
    for _ in 0..5 {
        if machine.step()? != Step::Ran {
            return Ok((u64::MAX, u64::MAX));
        }
    }
    Ok((machine.reg(12), machine.space.load8(DATA)?))
}

// A word, an offset of x10 from the data, the data's rights, and what the word comes to.
const FAULTS: &[(u32, u64, u8, Step)] = &[
    (LR_W, 2, 3, Step::Fault(7)),
    (LR_D, 4, 3, Step::Fault(7)),
    (SC_W, 1, 3, Step::Fault(7)),
    (AMOADD_D, 4, 3, Step::Fault(7)),
    (AMOADD_W, 0x1002, 3, Step::Fault(7)),
    (LR_W, 4, 1, Step::Ran),
    (LR_W, 4, 4, Step::Fault(11)),
    (LR_D, 0x1000, 3, Step::Fault(11)),
    (SC_W, 4, 1, Step::Fault(11)),
    (SC_D, 0, 5, Step::Fault(11)),
    (AMOADD_W, 0, 1, Step::Fault(11)),
    (AMOADD_D, 0, 4, Step::Fault(11)),
    (SC_D, 8, 3, Step::Ran),
];

#[test]
fn a_misplaced_address_is_a_fault_before_a_right_that_is_missing(
    rt: HostRuntime,
) -> Result<(), Fail> {
    for (word, offset, rights, step) in FAULTS {
        let at = (*word, *offset);
        let mut machine = machine_with(rt.alloc(), &[*word], *rights, HELD)?;
        machine.regs[10] = DATA.wrapping_add(*offset);
        same_at(&rt, at, machine.step()?, *step);
        let pc = machine.pc;
        machine.atomics = false;
        machine.pc = CODE;
        same_at(&rt, at, machine.step()?, Step::Fault(4));
        same_at(&rt, at, pc == CODE, *step != Step::Ran);
    }
    Ok(())
}

#[test]
fn what_is_reserved_stays_at_a_fault(rt: HostRuntime) -> Result<(), Fail> {
    let mut machine = machine_with(rt.alloc(), &[LR_W, SC_W], 1, HELD)?;
    same(&rt, machine.step()?, Step::Ran);
    same(&rt, machine.step()?, Step::Fault(11));
    same(&rt, machine.reserved, Some((DATA, 4)));
    machine.unreserve();
    same(&rt, machine.reserved, None);
    Ok(())
}
