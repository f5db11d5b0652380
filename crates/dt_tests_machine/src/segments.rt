// The pages of segments, the address of the program headers, and the break's start.
use crate::expect::{same, same_at};
use crate::files::{Header, body, command, file, load, start_file};
use dt_elf::{ElfErr, read_elf};
use dt_rv64::Machine;
use std::alloc::Global;
use std::process::Abort;
use std::test::Fail;

// The machine that starts a file with these segments.
fn started(alloc: Global, headers: &[Header]) -> Result<Machine, Fail> {
    let bytes = file(alloc, headers)?;
    start_bytes(alloc, &bytes)
}

fn start_bytes(alloc: Global, bytes: &[u8]) -> Result<Machine, Fail> {
    let command = command(alloc, &[b"a"], &[])?;
    start_file(alloc, bytes, &command, b"/p")
}

// Ends the test unless these bytes stand at these addresses.
fn expect_bytes(rt: &impl Abort, machine: &Machine, bytes: &[(u64, u64)]) {
    for (at, byte) in bytes {
        same_at(rt, *at, machine.space.load1(*at), Ok(*byte));
    }
}

// Ends the test unless the first byte of each page can be read, written and fetched, or can't.
fn expect_rights(rt: &impl Abort, machine: &mut Machine, pages: &[(u64, bool, bool, bool)]) {
    for (page, read, write, execute) in pages {
        let found = rights(machine, *page);
        same_at(rt, *page, found, (*read, *write, *execute));
    }
}

fn rights(machine: &mut Machine, page: u64) -> (bool, bool, bool) {
    let read = machine.space.load1(page).is_ok();
    let execute = machine.space.fetch(page).is_ok();
    let write = machine.space.store1(page, 0).is_ok();
    (read, write, execute)
}

const BYTES: &[(u64, u64)] = &[
    (0x1_0000, 0),
    (0x1_0fef, 0),
    (0x1_0ff0, 1),
    (0x1_0fff, 16),
    (0x1_1000, 17),
    (0x1_100f, 32),
    (0x1_1010, 0),
    (0x1_17ff, 0),
    (0x1_1800, 51),
    (0x1_1803, 54),
    (0x1_1804, 0),
    (0x1_2fff, 0),
];

const RIGHTS: &[(u64, bool, bool, bool)] = &[
    (0x9000, false, false, false),
    (0x1_0000, true, false, true),
    (0x1_1000, true, true, true),
    (0x1_2000, true, true, false),
    (0x1_3000, false, false, false),
];

#[test]
fn a_page_has_the_rights_and_the_bytes_of_all_segments_that_touch_it(
    rt: HostRuntime,
) -> Result<(), Fail> {
    let start = body(3);
    let headers = [
        load(5, start, 0x1_0ff0, 32, 40),
        load(2, start.saturating_add(50), 0x1_1800, 4, 0x1000),
        load(0, 0, 0x9000, 0, 1),
    ];
    let mut machine = started(rt.alloc(), &headers)?;
    same(&rt, machine.space.pages(), 4 + 257);
    expect_bytes(&rt, &machine, BYTES);
    expect_rights(&rt, &mut machine, RIGHTS);
    Ok(())
}

const LAST_PAGES: &[(u64, u64)] = &[
    (0x1_00ff, 0),
    (0x1_0100, 1),
    (0x1_0fff, 0xeff % 251 + 1),
    (0x1_1000, 0xf00 % 251 + 1),
    (0x1_10ff, 0xfff % 251 + 1),
    (0x1_1100, 0),
    (0x1_30ff, 0),
    (0x1_3fff, 0),
];

#[test]
fn a_file_part_ends_in_the_last_page_and_zeros_follow(rt: HostRuntime) -> Result<(), Fail> {
    let headers = [load(6, body(1), 0x1_0100, 0x1000, 0x3000)];
    let machine = started(rt.alloc(), &headers)?;
    same(&rt, machine.space.pages(), 4 + 257);
    expect_bytes(&rt, &machine, LAST_PAGES);
    Ok(())
}

// The address of the program headers, and the break's start, of a file with these segments.
fn places(alloc: Global, headers: &[Header]) -> Result<(u64, u64), Fail> {
    let bytes = file(alloc, headers)?;
    Ok(places_of(alloc, &bytes)?)
}

fn places_of(alloc: Global, bytes: &[u8]) -> Result<(u64, u64), ElfErr> {
    let elf = read_elf(alloc, bytes)?;
    Ok((elf.phdr, elf.program_break()))
}

fn expect_phdr(rt: &impl Abort, alloc: Global, headers: &[Header], phdr: u64) -> Result<(), Fail> {
    same(rt, places(alloc, headers)?.0, phdr);
    Ok(())
}

#[test]
fn program_headers_stand_in_the_first_segment_that_holds_them_all(
    rt: HostRuntime,
) -> Result<(), Fail> {
    let alloc = rt.alloc();
    let whole = load(4, 0, 0x1_0000, 400, 400);
    let first_lacks_a_byte = load(4, 65, 0x2_0000, 400, 400);
    let last_lacks_a_byte = load(4, 0, 0x3_0000, 231, 400);
    let exact = load(4, 64, 0x4_0000, 168, 168);
    let empty = load(4, 0, 0x5_0000, 400, 0);
    expect_phdr(&rt, alloc, &[whole, first_lacks_a_byte, exact], 0x1_0040)?;
    expect_phdr(&rt, alloc, &[exact, whole, empty], 0x4_0000)?;
    expect_phdr(&rt, alloc, &[empty, exact, last_lacks_a_byte], 0x4_0000)?;
    let lacking = [first_lacks_a_byte, last_lacks_a_byte, whole];
    expect_phdr(&rt, alloc, &lacking, 0x1_0040)?;
    let lacking = [first_lacks_a_byte, last_lacks_a_byte, empty];
    expect_phdr(&rt, alloc, &lacking, 0)
}

// Two segments of no bytes of the file, each by its address and its size in memory, and the break's start.
type Break = (u64, u64, u64, u64, u64);

const BREAKS: &[Break] = &[
    (0x1_0000, 1, 0x2_0000, 0, 0x1_1000),
    (0x1_0000, 0x1000, 0x5000, 1, 0x1_1000),
    (0x1_0000, 0x1001, 0x5000, 1, 0x1_2000),
    (0x1_0000, 1, 0x1_fff0, 16, 0x2_0000),
    (0x1_0000, 1, 0x1f_ffff_ffff, 1, 0x20_0000_0000),
];

fn expect_break(rt: &impl Abort, alloc: Global, row: &Break) -> Result<(), Fail> {
    let (first, size, second, other_size, start) = *row;
    let headers = [
        load(4, 0, first, 0, size),
        load(4, 0, second, 0, other_size),
    ];
    same(rt, places(alloc, &headers)?.1, start);
    Ok(())
}

fn expect_breaks(rt: &impl Abort, alloc: Global) -> Result<(), Fail> {
    for row in BREAKS {
        expect_break(rt, alloc, row)?;
    }
    Ok(())
}

#[test]
fn the_break_starts_at_the_page_that_follows_the_highest_segment(
    rt: HostRuntime,
) -> Result<(), Fail> {
    expect_breaks(&rt, rt.alloc())
}

const ENDS: &[(u64, u64)] = &[(0x1f_ffff_f000, 1), (0x1f_ffff_ffff, 0xfff % 251 + 1)];

#[test]
fn a_segment_may_end_where_mappings_begin(rt: HostRuntime) -> Result<(), Fail> {
    let headers = [load(4, body(1), 0x1f_ffff_f000, 0x1000, 0x1000)];
    let machine = started(rt.alloc(), &headers)?;
    same(&rt, machine.space.pages(), 1 + 257);
    expect_bytes(&rt, &machine, ENDS);
    Ok(())
}
