// Each instruction on edge values, against what qemu-riscv64 makes of it.
use crate::expect::{same, same_at};
use crate::vectors::TABLE;
use dt_rv64::{Instr, Machine, Step, decode};
use dt_space::Space;
use std::alloc::Global;
use std::num::ParseIntError;
use std::process::Abort;
use std::test::Fail;

// Where the word stands, and where the data.
const CODE: u64 = 0x1_0000;

const DATA: u64 = 0x1_2000;

// What lies at the data before a store.
const BACKGROUND: u64 = 0x1122_3344_5566_7788;

#[test]
fn each_vector_is_met(rt: HostRuntime) -> Result<(), Fail> {
    for line in TABLE.lines() {
        let (word, a, b, expected) = row(line)?;
        expect_result(&rt, rt.alloc(), (word, a, b), expected)?;
    }
    Ok(())
}

// Ends the test unless a word comes to this.
fn expect_result(
    rt: &impl Abort,
    alloc: Global,
    row: (u32, u64, u64),
    expected: u64,
) -> Result<(), Fail> {
    let (word, a, b) = row;
    let mut machine = machine_before(alloc, word, a, b)?;
    same(rt, machine.step()?, Step::Ran);
    same_at(rt, row, result_of(&machine, word)?, expected);
    Ok(())
}

#[test]
fn counters_are_read_by_x0_alone(rt: HostRuntime) -> Result<(), Fail> {
    assert!(rt;
        matches!(
            decode(0xc000_2573),
            Instr::ReadCounter {
                rd: 10,
                counter: 0xc00
            }
        )
    );
    assert!(rt;
        matches!(
            decode(0xc020_2073),
            Instr::ReadCounter {
                rd: 0,
                counter: 0xc02
            }
        )
    );
    assert!(rt; matches!(decode(0xc000_a573), Instr::Unknown));
    assert!(rt; matches!(decode(0xc030_2573), Instr::Unknown));
    assert!(rt; matches!(decode(0xc000_1573), Instr::Unknown));
    Ok(())
}

const WITHOUT_A_ROW: [u32; 20] = [
    0,
    0xffff_ffff,
    0x0000_100f,
    0x0020_0073,
    0x0000_00f3,
    0x0000_1067,
    0x0000_2063,
    0x0000_7003,
    0x0000_4023,
    0x4000_1013,
    0x0400_101b,
    0x4200_501b,
    0x4000_1033,
    0x0600_0033,
    0x0200_103b,
    0x4000_403b,
    0x0000_102f,
    0x0000_402f,
    0x1010_202f,
    0x2800_302f,
];

#[test]
fn words_without_a_row_are_unknown(rt: HostRuntime) -> Result<(), Fail> {
    for word in &WITHOUT_A_ROW {
        assert!(rt; matches!(decode(*word), Instr::Unknown));
    }
    assert!(rt; matches!(decode(0x0ff0_000f), Instr::Fence));
    assert!(rt; matches!(decode(0xffff_8f8f), Instr::Fence));
    Ok(())
}

// A word, its two numbers, and what is expected of it.
fn row(line: &str) -> Result<(u32, u64, u64, u64), ParseIntError> {
    let mut fields = line.split(' ');
    let word = u32::from_str_radix(fields.next().unwrap_or(""), 16)?;
    let a = number(fields.next())?;
    let b = number(fields.next())?;
    let expected = number(fields.next())?;
    Ok((word, a, b, expected))
}

// A field of a row.
fn number(field: Option<&str>) -> Result<u64, ParseIntError> {
    u64::from_str_radix(field.unwrap_or(""), 16)
}

// A machine that is about to carry out a word.
fn machine_before(alloc: Global, word: u32, a: u64, b: u64) -> Result<Machine, Fail> {
    let mut regs = [0; 32];
    regs[10] = first_register(word, a);
    regs[11] = b;
    let held = if word & 0x7f == 0x03 { b } else { BACKGROUND };
    Ok(Machine {
        regs,
        pc: CODE,
        space: space_before(alloc, word, held)?,
        reserved: None,
        atomics: false,
    })
}

// What the first register of a word holds: an address where it loads, stores or jumps.
fn first_register(word: u32, a: u64) -> u64 {
    match word & 0x7f {
        0x03 | 0x23 => a.wrapping_add(DATA),
        0x67 => a.wrapping_add(CODE),
        _ => a,
    }
}

// A space with a word at its code, and a number at its data.
fn space_before(alloc: Global, word: u32, held: u64) -> Result<Space, Fail> {
    let mut space = Space::new(alloc).with_pages(alloc, 16, 4, 7, &word.to_le_bytes())?;
    space.store8(DATA, held)?;
    Ok(space)
}

// What the word did, by its opcode.
fn result_of(machine: &Machine, word: u32) -> Result<u64, Fail> {
    match word & 0x7f {
        0x63 | 0x67 | 0x6f => Ok(machine.pc.wrapping_sub(CODE)),
        0x23 => Ok(machine.space.load8(DATA)?),
        0x17 => Ok(machine.reg(12).wrapping_sub(CODE)),
        _ => Ok(machine.reg(12)),
    }
}
