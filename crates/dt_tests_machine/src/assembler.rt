// The assembler: words of instructions against the GNU assembler's, files of guests, and what a loaded number is.
use crate::encodings::WORDS;
use crate::expect::{same, same_at};
use dt_asm::{AsmErr, Guest, cat1, encode, first, hello, late, trio};
use dt_base::NoMemory;
use dt_rv64::{Instr, Machine, Step, decode};
use dt_space::Space;
use std::alloc::{AllocError, Global};
use std::process::Abort;
use std::test::Fail;

// Where the code of a guest begins, in memory and in its file.
const CODE: u64 = 0x1_0000;

const HEADERS: usize = 120;

const HELLO: [u32; 9] = [
    0x0010_0513,
    0x0001_05b7,
    0x09c5_8593,
    0x0060_0613,
    0x0400_0893,
    0x0000_0073,
    0x0000_0513,
    0x05d0_0893,
    0x0000_0073,
];

const TRIO: [u32; 24] = [
    0x0110_0513,
    0x0000_0593,
    0x0dc0_0893,
    0x0000_0073,
    0x0405_0263,
    0x0110_0513,
    0x0000_0593,
    0x0dc0_0893,
    0x0000_0073,
    0x0205_0863,
    0xfff0_0513,
    0x0000_0593,
    0x0000_0613,
    0x0000_0693,
    0x1040_0893,
    0x0000_0073,
    0xfff0_0513,
    0x0000_0073,
    0x0000_0513,
    0x05d0_0893,
    0x0000_0073,
    0x0070_0513,
    0x05d0_0893,
    0x0000_0073,
];

const CAT1: [u32; 19] = [
    0xf9c0_0513,
    0x0001_05b7,
    0x0c45_8593,
    0x0000_0613,
    0x0000_0693,
    0x0380_0893,
    0x0000_0073,
    0x0001_15b7,
    0x0000_2637,
    0x7106_0613,
    0x03f0_0893,
    0x0000_0073,
    0x0005_0613,
    0x0010_0513,
    0x0400_0893,
    0x0000_0073,
    0x0000_0513,
    0x05d0_0893,
    0x0000_0073,
];

// As the GNU assembler makes it.
const LATE: [u32; 27] = [
    0x0110_0513,
    0x0000_0593,
    0x0dc0_0893,
    0x0000_0073,
    0x0205_0c63,
    0x0020_0513,
    0x0090_0593,
    0x0810_0893,
    0x0000_0073,
    0x0020_0513,
    0x0000_0593,
    0x0000_0613,
    0x0000_0693,
    0x1040_0893,
    0x0000_0073,
    0x0000_0513,
    0x05d0_0893,
    0x0000_0073,
    0x0010_0513,
    0x0001_05b7,
    0x0e45_8593,
    0x0010_0613,
    0x0400_0893,
    0x0000_0073,
    0x0000_0513,
    0x05d0_0893,
    0x0000_0073,
];

// As the GNU assembler makes it.
const FIRST: [u32; 10] = [
    0x0110_0513,
    0x0000_0593,
    0x0dc0_0893,
    0x0000_0073,
    0x0005_0863,
    0x0030_0513,
    0x05d0_0893,
    0x0000_0073,
    0x0015_0513,
    0xffdf_f06f,
];

// The file of this code and data, with its headers written out.
fn guest_file(alloc: Global, code: &[u32], data: &[u8]) -> Result<Vec<u8>, AllocError> {
    let mut file = Vec::new(alloc);
    file.extend_from_slice(&[0x7f, 0x45, 0x4c, 0x46, 2, 1, 1, 0, 0, 0, 0, 0, 0, 0, 0, 0])?;
    file.extend_from_slice(&[2, 0, 0xf3, 0, 1, 0, 0, 0])?;
    put_numbers(&mut file, &[0x10078, 64, 0])?;
    file.extend_from_slice(&[0, 0, 0, 0, 64, 0, 56, 0, 1, 0, 0, 0, 0, 0, 0, 0])?;
    file.extend_from_slice(&[1, 0, 0, 0, 5, 0, 0, 0])?;
    let size = (code.len() as u64)
        .saturating_mul(4)
        .saturating_add(data.len() as u64)
        .saturating_add(120);
    put_numbers(&mut file, &[0, 0x10000, 0x10000, size, size, 4096])?;
    for word in code {
        file.extend_from_slice(&word.to_le_bytes())?;
    }
    file.extend_from_slice(data)?;
    Ok(file)
}

// Appends numbers of 8 bytes, the lowest byte first.
pub(crate) fn put_numbers(file: &mut Vec<u8>, numbers: &[u64]) -> Result<(), AllocError> {
    for number in numbers {
        file.extend_from_slice(&number.to_le_bytes())?;
    }
    Ok(())
}

#[test]
fn each_instruction_at_its_limits_has_its_word(rt: HostRuntime) -> Result<(), Fail> {
    let mut last = 0;
    for line in WORDS.lines() {
        let word = u32::from_str_radix(line.split(' ').next().unwrap_or(""), 16)?;
        same(&rt, encode(&decode(word)), Some(word));
        last = word;
    }
    same(&rt, last, 0xc020_20f3);
    same(&rt, encode(&Instr::Fence), Some(0x0000_000f));
    Ok(())
}

#[test]
fn number_of_a_call_in_a_word(rt: HostRuntime) -> Result<(), Fail> {
    let i = Instr::Addi {
        rd: 17,
        rs1: 0,
        imm: 139,
    };
    same(&rt, encode(&i), Some(0x08b0_0893));
    assert!(rt;
        matches!(
            decode(0x08b0_0893),
            Instr::Addi {
                rd: 17,
                rs1: 0,
                imm: 139
            }
        )
    );
    Ok(())
}

// Ends the test unless none of these instructions has a word.
fn expect_no_words(rt: &impl Abort, instructions: &[Instr]) {
    for instruction in instructions {
        same(rt, encode(instruction), None);
    }
}

#[test]
fn a_register_past_31_has_no_word(rt: HostRuntime) -> Result<(), Fail> {
    expect_no_words(
        &rt,
        &[
            mulhsu(32, 0, 0),
            mulhsu(0, 32, 0),
            mulhsu(0, 0, 32),
            addi(32, 0, 0),
            addi(0, 32, 0),
            sd(32, 0, 0),
            sd(0, 32, 0),
            bgeu(32, 0, 0),
            bgeu(0, 32, 0),
            lui(32, 0),
            jal(32, 0),
            srai(32, 0, 0),
            srai(0, 32, 0),
            slliw(32, 0, 0),
            slliw(0, 32, 0),
            read_counter(32, 0xc00),
        ],
    );
    Ok(())
}

#[test]
fn an_immediate_past_its_limits_has_no_word(rt: HostRuntime) -> Result<(), Fail> {
    expect_no_words(
        &rt,
        &[
            addi(0, 0, 2048),
            addi(0, 0, -2049),
            sd(0, 0, 2048),
            sd(0, 0, -2049),
            lui(0, 0x8000_0000),
            lui(0, -0x8000_1000),
            bgeu(0, 0, 4096),
            bgeu(0, 0, -4098),
            jal(0, 0x10_0000),
            jal(0, -0x10_0002),
            // Offsets are even, and the low twelve bits of an upper immediate are 0.
            bgeu(0, 0, 1),
            jal(0, 1),
            lui(0, 1),
        ],
    );
    Ok(())
}

#[test]
fn a_shift_or_a_counter_past_its_limit_and_what_is_unknown_have_no_word(
    rt: HostRuntime,
) -> Result<(), Fail> {
    expect_no_words(
        &rt,
        &[
            srai(0, 0, 64),
            slliw(0, 0, 32),
            read_counter(0, 0xbff),
            read_counter(0, 0xc03),
        ],
    );
    same(&rt, encode(&Instr::Unknown), None);
    Ok(())
}

// Ends the test unless the file of a guest is the one of this code and data.
fn expect_file(
    rt: &impl Abort,
    alloc: Global,
    guest: &Guest,
    code: &[u32],
    data: &[u8],
) -> Result<(), Fail> {
    let file = guest.elf()?;
    let want = guest_file(alloc, code, data)?;
    same(rt, file.as_slice(), want.as_slice());
    Ok(())
}

#[test]
fn files_of_the_guests_by_name(rt: HostRuntime) -> Result<(), Fail> {
    let alloc = rt.alloc();
    expect_file(&rt, alloc, &hello(alloc)?, &HELLO, b"hello\n")?;
    expect_file(&rt, alloc, &trio(alloc)?, &TRIO, b"")?;
    expect_file(&rt, alloc, &late(alloc)?, &LATE, b"x")?;
    expect_file(&rt, alloc, &first(alloc)?, &FIRST, b"")?;
    Ok(())
}

// Its file says that it needs more memory than it has bytes.
#[test]
fn the_file_of_a_guest_that_reads_a_file(rt: HostRuntime) -> Result<(), Fail> {
    let alloc = rt.alloc();
    let mut expected = guest_file(alloc, &CAT1, b"/f\0")?;
    for (at, byte) in [(68, 7), (104, 0), (105, 0x40)] {
        if let Some(old) = expected.get_mut(at) {
            *old = byte;
        }
    }
    same(&rt, cat1(alloc)?.elf()?.as_slice(), expected.as_slice());
    same(&rt, expected.len(), 199);
    Ok(())
}

// What comes to a guest's end.
#[derive(Clone, Copy)]
enum Put {
    // So many bytes of 0.
    Zeros(usize),
    // An instruction that has no word.
    Unknown,
    // A branch to a label.
    Branch(u32),
    // A jump to a label.
    Jump(u32),
    // A label.
    Label(u32),
}

use Put::{Branch, Jump, Label, Unknown, Zeros};

impl Put {
    fn put(self, alloc: Global, guest: &mut Guest) -> Result<(), NoMemory> {
        match self {
            Zeros(count) => guest.bytes(&vec![in alloc; 0; count]?),
            Unknown => guest.ins(Instr::Unknown),
            Branch(label) => guest.branch(5, 1, 2, label),
            Jump(label) => guest.jump(label),
            Label(label) => guest.label(label),
        }
    }
}

// What comes to a guest's end, one after the other, each with the number of the refusal after it.
const REFUSALS: [(Put, Option<u8>); 10] = [
    (Zeros(4090), None),
    (Unknown, Some(4)),
    (Branch(7), Some(1)),
    (Label(7), Some(4)),
    (Zeros(4094), Some(4)),
    (Jump(8), Some(1)),
    (Label(8), Some(4)),
    (Branch(7), Some(3)),
    (Label(7), Some(2)),
    (Branch(9), Some(1)),
];

const FAR_BACK: [(Put, Option<u8>); 5] = [
    (Label(3), None),
    (Zeros(4096), None),
    (Branch(3), None),
    (Jump(3), None),
    (Branch(3), Some(3)),
];

// Ends the test unless each that comes to a new guest's end makes this refusal.
fn expect_refusals(
    rt: &impl Abort,
    alloc: Global,
    puts: &[(Put, Option<u8>)],
) -> Result<(), NoMemory> {
    let mut guest = Guest::new(alloc);
    for (number, (put, want)) in puts.iter().enumerate() {
        put.put(alloc, &mut guest)?;
        same_at(rt, number, refusal_number(&guest), *want);
    }
    Ok(())
}

#[test]
fn refusals_in_their_order(rt: HostRuntime) -> Result<(), Fail> {
    expect_refusals(&rt, rt.alloc(), &REFUSALS)?;
    Ok(())
}

#[test]
fn a_branch_reaches_4096_bytes_back(rt: HostRuntime) -> Result<(), Fail> {
    expect_refusals(&rt, rt.alloc(), &FAR_BACK)?;
    Ok(())
}

// Ends the test unless a branch over so many bytes makes this refusal.
fn expect_branch_over(
    rt: &impl Abort,
    alloc: Global,
    between: usize,
    want: Option<u8>,
) -> Result<(), NoMemory> {
    let puts = [
        (Branch(3), Some(1)),
        (Zeros(between), Some(1)),
        (Label(3), want),
    ];
    expect_refusals(rt, alloc, &puts)
}

#[test]
fn a_branch_reaches_4094_bytes(rt: HostRuntime) -> Result<(), Fail> {
    expect_branch_over(&rt, rt.alloc(), 4090, None)?;
    expect_branch_over(&rt, rt.alloc(), 4091, Some(3))?;
    expect_branch_over(&rt, rt.alloc(), 4092, Some(3))?;
    Ok(())
}

// The number of the refusal of a guest with this branch to its first byte.
fn branch_refusal(alloc: Global, funct3: u8, rs1: u8, rs2: u8) -> Result<Option<u8>, NoMemory> {
    let mut guest = Guest::new(alloc);
    guest.label(0)?;
    guest.branch(funct3, rs1, rs2, 0)?;
    Ok(refusal_number(&guest))
}

#[test]
fn fields_of_a_branch_are_looked_at(rt: HostRuntime) -> Result<(), Fail> {
    for (funct3, rs1, rs2) in [(2, 0, 0), (3, 0, 0), (8, 0, 0), (0, 32, 0), (0, 0, 32)] {
        same(&rt, branch_refusal(rt.alloc(), funct3, rs1, rs2)?, Some(4));
    }
    Ok(())
}

#[test]
fn a_file_over_its_limit_is_refused(rt: HostRuntime) -> Result<(), Fail> {
    let alloc = rt.alloc();
    let mut guest = Guest::new(alloc);
    guest.bytes(&vec![in alloc; 0; 16_777_216]?)?;
    same(&rt, refusal_number(&guest), Some(6));
    let mut guest = Guest::new(alloc);
    guest.bytes(&vec![in alloc; 0; 16_777_096]?)?;
    same(&rt, guest.elf()?.len(), 16_777_216);
    Ok(())
}

// Numbers, each with the steps that it takes to load it.
const LOADED: [(i64, u32); 14] = [
    (0, 1),
    (2047, 1),
    (2048, 2),
    (-2048, 1),
    (-2049, 2),
    (0x7fff_ffff, 2),
    (-0x8000_0000, 2),
    (0x7fff_f800, 2),
    (0x7fff_f7ff, 2),
    (-0x8000_0001, 4),
    (0x8000_0000, 4),
    (0x1234_5678_9abc_def0, 8),
    (i64::MIN, 8),
    (i64::MAX, 8),
];

#[test]
fn a_loaded_number_is_in_its_register(rt: HostRuntime) -> Result<(), Fail> {
    for (number, steps) in &LOADED {
        let want = (number.cast_unsigned(), *steps);
        same_at(&rt, *number, loaded(rt.alloc(), *number)?, want);
    }
    Ok(())
}

// What a register holds after a number was loaded into it, and how many steps that took.
fn loaded(alloc: Global, number: i64) -> Result<(u64, u32), Fail> {
    let mut guest = Guest::new(alloc);
    guest.li(31, number)?;
    guest.ins(Instr::Ecall)?;
    let file = guest.elf()?;
    let mut machine = start_machine(alloc, file.get(HEADERS..).unwrap_or(&[]))?;
    let ran = steps(&mut machine)?;
    Ok((machine.reg(31), ran))
}

// How many steps of the first nine a machine takes until it comes to a call.
fn steps(machine: &mut Machine) -> Result<u32, NoMemory> {
    for ran in 0..9 {
        if machine.step()? != Step::Ran {
            return Ok(ran);
        }
    }
    Ok(9)
}

// The number of a guest's refusal.
fn refusal_number(guest: &Guest) -> Option<u8> {
    guest.elf().err().map(AsmErr::number)
}

// A machine at the first instruction of this code.
fn start_machine(alloc: Global, code: &[u8]) -> Result<Machine, Fail> {
    Ok(Machine {
        regs: [0; 32],
        pc: CODE,
        space: Space::new(alloc).with_pages(alloc, 16, 4, 5, code)?,
        reserved: None,
        atomics: false,
    })
}

// One instruction for each kind of field.

fn mulhsu(rd: u8, rs1: u8, rs2: u8) -> Instr {
    Instr::Mulhsu { rd, rs1, rs2 }
}

fn addi(rd: u8, rs1: u8, imm: i64) -> Instr {
    Instr::Addi { rd, rs1, imm }
}

fn sd(rs1: u8, rs2: u8, imm: i64) -> Instr {
    Instr::Sd { rs1, rs2, imm }
}

fn bgeu(rs1: u8, rs2: u8, imm: i64) -> Instr {
    Instr::Bgeu { rs1, rs2, imm }
}

fn lui(rd: u8, imm: i64) -> Instr {
    Instr::Lui { rd, imm }
}

fn jal(rd: u8, imm: i64) -> Instr {
    Instr::Jal { rd, imm }
}

fn srai(rd: u8, rs1: u8, shift: u8) -> Instr {
    Instr::Srai { rd, rs1, shift }
}

fn slliw(rd: u8, rs1: u8, shift: u8) -> Instr {
    Instr::Slliw { rd, rs1, shift }
}

fn read_counter(rd: u8, counter: u16) -> Instr {
    Instr::ReadCounter { rd, counter }
}
