// Mappings that come, and those that are refused.
use crate::expect::{same, same_at};
use dt_base::{ADDRESS_LIMIT, Answer, Errno, MMAP_START, NoMemory, PAGE_LIMIT, PAGE_SIZE};
use dt_mcalls::{mmap, munmap};
use dt_space::{Miss, READ, Space};
use std::alloc::Global;
use std::process::Abort;
use std::test::Fail;

// MAP_PRIVATE and MAP_ANONYMOUS, without and with MAP_FIXED.
const ANYWHERE: u64 = 0x22;

const FIXED: u64 = 0x32;

// What a call comes to: a value, why it is refused, or none where it is not supported.
type Want = Result<u64, Option<Errno>>;

const UNSUPPORTED: Want = Err(None);

const INVALID: Want = Err(Some(Errno::Inval));

const NO_ROOM: Want = Err(Some(Errno::NoMem));

fn answer(want: Want) -> Answer {
    match want {
        Ok(value) => Answer::Value(value),
        Err(Some(errno)) => Answer::Refused(errno),
        Err(None) => Answer::Unsupported,
    }
}

// Ends the test unless a mapping comes to this.
fn expect_mapped(
    rt: &impl Abort,
    space: &mut Space,
    asked: (u64, u64, u64, u64),
    want: Want,
) -> Result<(), NoMemory> {
    let (address, len, prot, flags) = asked;
    let found = mmap(space, address, len, prot, flags)?;
    same_at(rt, asked, found, answer(want));
    Ok(())
}

// Mappings that are refused: their addresses, lengths, rights and flags.
const REFUSED: &[(u64, u64, u64, u64, Want)] = &[
    (0, 1, 3, 0, UNSUPPORTED),
    (1, 0, 8, 0x20, UNSUPPORTED),
    (0, 1, 3, 0x21, UNSUPPORTED),
    (0, 1, 3, 0x23, UNSUPPORTED),
    (0, 1, 3, 0x10_0022, UNSUPPORTED),
    (0, 1, 3, 0x1_0000_0022, UNSUPPORTED),
    (0, 0, 3, ANYWHERE, INVALID),
    (0, 1, 8, ANYWHERE, INVALID),
    (0, 1, 0xffff_ffff, ANYWHERE, INVALID),
    (0, u64::MAX, 3, ANYWHERE, NO_ROOM),
    (0, u64::MAX - 4095, 3, ANYWHERE, NO_ROOM),
    (0, u64::MAX - 4094, 3, ANYWHERE, NO_ROOM),
    (1, 0, 3, FIXED, INVALID),
    (1, u64::MAX, 3, FIXED, INVALID),
    (0x1_0800, 1, 3, FIXED, INVALID),
    (0x1_0000, u64::MAX, 3, FIXED, NO_ROOM),
    (ADDRESS_LIMIT, 1, 3, FIXED, NO_ROOM),
    (ADDRESS_LIMIT - 4096, 4097, 3, FIXED, NO_ROOM),
    (u64::MAX - 4095, 1, 3, FIXED, NO_ROOM),
    (u64::MAX - 4095, 4097, 3, FIXED, NO_ROOM),
];

fn expect_refused(rt: &impl Abort, space: &mut Space) -> Result<(), NoMemory> {
    for (address, len, prot, flags, want) in REFUSED {
        expect_mapped(rt, space, (*address, *len, *prot, *flags), *want)?;
        same(rt, space.pages(), 1);
    }
    Ok(())
}

#[test]
fn mappings_are_refused_in_order(rt: HostRuntime) -> Result<(), Fail> {
    let mut space = Space::new(rt.alloc());
    space.map(0x10, 1, READ)?;
    expect_refused(&rt, &mut space)?;
    Ok(())
}

fn expect_lowest(rt: &impl Abort, space: &mut Space) -> Result<(), NoMemory> {
    expect_mapped(rt, space, (0, 1, 3, ANYWHERE), Ok(MMAP_START))?;
    expect_mapped(
        rt,
        space,
        (0x5000, 4096, 3, ANYWHERE),
        Ok(MMAP_START + PAGE_SIZE),
    )?;
    expect_mapped(
        rt,
        space,
        (1, 4097, 3, ANYWHERE),
        Ok(MMAP_START + 2 * PAGE_SIZE),
    )?;
    expect_mapped(
        rt,
        space,
        (u64::MAX, 1, 3, 0x2_4022),
        Ok(MMAP_START + 4 * PAGE_SIZE),
    )?;
    same(
        rt,
        munmap(space, MMAP_START + PAGE_SIZE, 1),
        Answer::Value(0),
    );
    expect_mapped(
        rt,
        space,
        (0, 4097, 3, ANYWHERE),
        Ok(MMAP_START + 5 * PAGE_SIZE),
    )?;
    expect_mapped(rt, space, (0, 1, 3, ANYWHERE), Ok(MMAP_START + PAGE_SIZE))?;
    same(rt, space.pages(), 7);
    Ok(())
}

#[test]
fn lowest_free_range_is_taken(rt: HostRuntime) -> Result<(), Fail> {
    let mut space = Space::new(rt.alloc());
    expect_lowest(&rt, &mut space)?;
    Ok(())
}

// Rights by their number: whether a byte can be read, written, and fetched.
const RIGHTS: &[(u64, bool, bool, bool)] = &[
    (0, false, false, false),
    (1, true, false, false),
    (2, true, true, false),
    (4, false, false, true),
    (6, true, true, true),
    (0xffff_ffff_0000_0001, true, false, false),
];

fn expect_rights(
    rt: &impl Abort,
    space: &mut Space,
    prot: u64,
    want: (bool, bool, bool),
) -> Result<(), NoMemory> {
    expect_mapped(rt, space, (0, 1, prot, ANYWHERE), Ok(MMAP_START))?;
    let read = space.readable(MMAP_START, 4096).is_ok();
    let write = space.writable(MMAP_START, 4096).is_ok();
    let execute = space.fetch(MMAP_START).is_ok();
    same_at(rt, prot, (read, write, execute), want);
    Ok(())
}

fn expect_all_rights(rt: &impl Abort, alloc: Global) -> Result<(), NoMemory> {
    for (prot, read, write, execute) in RIGHTS {
        let mut space = Space::new(alloc);
        expect_rights(rt, &mut space, *prot, (*read, *write, *execute))?;
    }
    Ok(())
}

#[test]
fn rights_are_the_low_word_and_writing_adds_reading(rt: HostRuntime) -> Result<(), Fail> {
    expect_all_rights(&rt, rt.alloc())?;
    Ok(())
}

// Three pages of ones of which the last two are replaced, and one behind them.
fn expect_replaced(rt: &impl Abort, space: &mut Space) -> Result<(), NoMemory> {
    expect_mapped(rt, space, (0x1_1000, 0x3000, 1, FIXED), Ok(0x1_1000))?;
    same(rt, space.pages(), 4);
    same(rt, space.load1(0x1_0fff), Ok(1));
    same(rt, space.load1(0x1_1000), Ok(0));
    same(rt, space.load1(0x1_3fff), Ok(0));
    let missed = Err(Miss { at: 0x1_1000 });
    same(rt, space.writable(0x1_0000, 0x1001), missed);
    let last = ADDRESS_LIMIT - 4096;
    expect_mapped(rt, space, (last, 4096, 1, FIXED), Ok(last))
}

#[test]
fn fixed_mapping_replaces_what_is_there(rt: HostRuntime) -> Result<(), Fail> {
    let mut space = Space::new(rt.alloc());
    space.map(0x10, 3, 3)?;
    space.write_bytes(0x1_0000, &[1; 0x3000])?;
    expect_replaced(&rt, &mut space)?;
    Ok(())
}

// The bytes of as many pages as there may be beside one.
const MOST: u64 = (PAGE_LIMIT - 1) * PAGE_SIZE;

// Mappings beside a page at 0x1_0000: their addresses, lengths and flags.
const BESIDE: &[(u64, u64, u64, Want)] = &[
    (0, MOST + 1, ANYWHERE, NO_ROOM),
    (0, MOST, ANYWHERE, Ok(MMAP_START)),
    (0, 1, ANYWHERE, NO_ROOM),
    (0x1_1000, 1, FIXED, NO_ROOM),
    (0x1_0000, 1, FIXED, Ok(0x1_0000)),
    (0x1_0000, 4097, FIXED, NO_ROOM),
];

fn expect_beside(rt: &impl Abort, space: &mut Space) -> Result<(), NoMemory> {
    for (address, len, flags, want) in BESIDE {
        expect_mapped(rt, space, (*address, *len, 1, *flags), *want)?;
    }
    Ok(())
}

#[test]
fn replaced_pages_do_not_count_for_the_limit(rt: HostRuntime) -> Result<(), Fail> {
    let mut space = Space::new(rt.alloc());
    space.map(0x10, 1, READ)?;
    expect_beside(&rt, &mut space)?;
    same(&rt, munmap(&mut space, 0x1_0000, 1), Answer::Value(0));
    let below = MMAP_START - PAGE_SIZE;
    let all = (below, MOST + PAGE_SIZE, 1, FIXED);
    expect_mapped(&rt, &mut space, all, Ok(below))?;
    same(&rt, space.pages(), 16_384);
    Ok(())
}
