// The first stack, word by word.
use crate::expect::{same, same_at};
use crate::files::{command, file, load, start_file, start_hello};
use dt_base::abi::SP;
use dt_rv64::Machine;
use std::alloc::Global;
use std::process::Abort;
use std::test::Fail;

// The words of a command with three arguments and two words of environment. The strings take 46 bytes: 16 random ones,
// `/bin/x`, `/bin/x`, nothing, `abc`, `A=1` and `PATH=/`, each but the random ones with a 0. So they start at
// 0x3fffffdfd0, and the 36 words at 0x3fffffdeb0.
const WORDS: [u64; 36] = [
    3,
    0x3f_ffff_dfe7,
    0x3f_ffff_dfee,
    0x3f_ffff_dfef,
    0,
    0x3f_ffff_dff3,
    0x3f_ffff_dff7,
    0,
    3,
    0x1_0040,
    4,
    56,
    5,
    2,
    6,
    4096,
    9,
    0x1_0078,
    11,
    0,
    12,
    0,
    13,
    0,
    14,
    0,
    17,
    100,
    23,
    0,
    25,
    0x3f_ffff_dfd0,
    31,
    0x3f_ffff_dfe0,
    0,
    0,
];

const STRINGS: &[u8; 32] = b"/bin/x\0/bin/x\0\0abc\0A=1\0PATH=/\0\0\0";

// The machine of that command.
fn started_with_words(alloc: Global) -> Result<Machine, Fail> {
    let headers = [
        load(5, 0, 0x1_0000, 500, 500),
        load(6, 0, 0x2_0000, 500, 500),
    ];
    let file = file(alloc, &headers)?;
    let command = command(alloc, &[b"/bin/x", b"", b"abc"], &[b"A=1", b"PATH=/"])?;
    start_file(alloc, &file, &command, b"/bin/x")
}

// Ends the test unless these words stand at these addresses.
fn expect_words(rt: &impl Abort, machine: &Machine, words: &[(u64, u64)]) {
    for (at, word) in words {
        same_at(rt, *at, machine.space.load8(*at), Ok(*word));
    }
}

#[test]
fn words_of_a_stack(rt: HostRuntime) -> Result<(), Fail> {
    let machine = started_with_words(rt.alloc())?;
    same(&rt, machine.reg(SP), 0x3f_ffff_deb0);
    for (index, word) in WORDS.iter().enumerate() {
        let at = (index as u64)
            .saturating_mul(8)
            .saturating_add(0x3f_ffff_deb0);
        same_at(&rt, at, machine.space.load8(at), Ok(*word));
    }
    expect_words(&rt, &machine, &[(0x3f_ffff_dea8, 0), (0x3f_ffef_e000, 0)]);
    Ok(())
}

// Each string is followed by a 0, and behind the last there are two more.
#[test]
fn bytes_and_strings_of_a_stack(rt: HostRuntime) -> Result<(), Fail> {
    let machine = started_with_words(rt.alloc())?;
    let mut random = [0; 16];
    machine.space.read_bytes(0x3f_ffff_dfd0, &mut random)?;
    same(
        &rt,
        random,
        [9, 8, 7, 6, 5, 4, 3, 2, 1, 10, 11, 12, 13, 14, 15, 16],
    );
    let mut strings = [0; 32];
    machine.space.read_bytes(0x3f_ffff_dfe0, &mut strings)?;
    same(&rt, strings, *STRINGS);
    Ok(())
}

// Words of the first stack of `hello`, by their addresses.
const HELLO_WORDS: [(u64, u64); 12] = [
    (0x3f_ffff_dee0, 1),
    (0x3f_ffff_dee8, 0x3f_ffff_dff7),
    (0x3f_ffff_def0, 0),
    (0x3f_ffff_def8, 0),
    (0x3f_ffff_df00, 3),
    (0x3f_ffff_df08, 0x1_0040),
    (0x3f_ffff_dfb0, 25),
    (0x3f_ffff_dfb8, 0x3f_ffff_dfe0),
    (0x3f_ffff_dfc0, 31),
    (0x3f_ffff_dfc8, 0x3f_ffff_dff0),
    (0x3f_ffff_dfd0, 0),
    (0x3f_ffff_dfd8, 0),
];

#[test]
fn hello_starts_with_its_path_as_its_argument(rt: HostRuntime) -> Result<(), Fail> {
    let machine = start_hello(rt.alloc())?;
    same(&rt, machine.reg(SP), 0x3f_ffff_dee0);
    expect_words(&rt, &machine, &HELLO_WORDS);
    let path = machine.space.read_text(0x3f_ffff_dff0, 100)?;
    same(&rt, path.as_slice(), b"/hello".as_slice());
    let first = machine.space.read_text(0x3f_ffff_dff7, 100)?;
    same(&rt, first.as_slice(), b"/hello".as_slice());
    Ok(())
}

// Second arguments, each with the stack pointer, and where the random bytes start.
const POINTERS: [(&str, u64, u64); 4] = [
    ("1", 0x3f_ffff_ded0, 0x3f_ffff_dfe0),
    ("12", 0x3f_ffff_dec0, 0x3f_ffff_dfd0),
    ("12345678901234567", 0x3f_ffff_dec0, 0x3f_ffff_dfd0),
    ("123456789012345678", 0x3f_ffff_deb0, 0x3f_ffff_dfc0),
];

// Ends the test unless a file starts so with this second argument.
fn expect_pointer(
    rt: &impl Abort,
    alloc: Global,
    file: &[u8],
    second: &str,
    pointer: u64,
    start: u64,
) -> Result<(), Fail> {
    let command = command(alloc, &[b"/hello", second.as_bytes()], &[])?;
    let machine = start_file(alloc, file, &command, b"/hello")?;
    same_at(rt, second, machine.reg(SP), pointer);
    let behind_the_vector = pointer.saturating_add(0xd8);
    let words = [
        (pointer, 2),
        (behind_the_vector, 25),
        (behind_the_vector.saturating_add(8), start),
    ];
    expect_words(rt, &machine, &words);
    Ok(())
}

// The strings take 31 bytes and those of the second argument; the 33 words are followed by 8 bytes more.
#[test]
fn stack_pointer_is_a_multiple_of_16(rt: HostRuntime) -> Result<(), Fail> {
    let alloc = rt.alloc();
    let file = dt_asm::hello(alloc)?.elf()?;
    for (second, pointer, start) in &POINTERS {
        expect_pointer(&rt, alloc, &file, second, *pointer, *start)?;
    }
    Ok(())
}

#[test]
fn registers_but_the_stack_pointer_are_0(rt: HostRuntime) -> Result<(), Fail> {
    let machine = start_hello(rt.alloc())?;
    same(&rt, machine.pc, 0x1_0078);
    for index in 0..32 {
        same_at(&rt, index, machine.reg(index) == 0, index != 2);
    }
    Ok(())
}

// Addresses, and whether what stands there can be read, written and fetched.
const RIGHTS: [(u64, bool, bool, bool); 7] = [
    (0x3f_ffef_dffc, false, false, false),
    (0x3f_ffef_e000, true, true, false),
    (0x3f_ffff_dffc, true, true, false),
    (0x3f_ffff_e000, false, false, false),
    (0x3f_ffff_effc, false, false, false),
    (0x3f_ffff_f000, true, false, true),
    (0x3f_ffff_fffc, true, false, true),
];

#[test]
fn stack_and_trampoline_stand_where_they_are_to(rt: HostRuntime) -> Result<(), Fail> {
    let mut machine = start_hello(rt.alloc())?;
    for (at, read, write, execute) in &RIGHTS {
        let found = rights(&mut machine, *at);
        same_at(&rt, *at, found, (*read, *write, *execute));
    }
    Ok(())
}

// Whether a word of four bytes can be read, written and fetched.
fn rights(machine: &mut Machine, at: u64) -> (bool, bool, bool) {
    let read = machine.space.load4(at).is_ok();
    let execute = machine.space.fetch(at).is_ok();
    let write = machine.space.store4(at, 0).is_ok();
    (read, write, execute)
}

// A call of rt_sigreturn, and nothing behind it.
const TRAMPOLINE: [(u64, u32); 4] = [
    (0x3f_ffff_f000, 0x08b0_0893),
    (0x3f_ffff_f004, 0x0000_0073),
    (0x3f_ffff_f008, 0),
    (0x3f_ffff_fffc, 0),
];

#[test]
fn trampoline_calls_and_nothing_else(rt: HostRuntime) -> Result<(), Fail> {
    let machine = start_hello(rt.alloc())?;
    for (at, word) in &TRAMPOLINE {
        same_at(&rt, *at, machine.space.fetch(*at), Ok(*word));
    }
    Ok(())
}
