// Maps, accesses, reads of buffers and texts, forks and page hints of one space.
use crate::expect::{same, same_at};
use dt_space::{
    EXECUTE, MapErr, Miss, PageHint, READ, ReadErr, Space, TextErr, Unmapped, WRITE, WriteErr,
};
use std::alloc::Global;
use std::process::Abort;
use std::test::Fail;

// The first address past all pages.
const TOP: u64 = 1 << 38;

// Pages 1 and 2 to write, 3 to read, 4 to execute and the last of all to write; 5 is not there.
fn space(rt: HostRuntime) -> Result<Space, MapErr> {
    let mut space = Space::new(rt.alloc());
    add_pages(&mut space)?;
    Ok(space)
}

fn add_pages(space: &mut Space) -> Result<(), MapErr> {
    space.map(1, 2, WRITE)?;
    space.map(3, 1, READ)?;
    space.map(4, 1, EXECUTE)?;
    space.map((1 << 26) - 1, 1, READ | WRITE | 8)
}

// What is done to a space or seen of it, with what it comes to.
#[derive(Clone, Copy)]
enum Step {
    // Pages from a number on come, with rights.
    Map(u64, u64, u8),
    // They go.
    Unmap(u64, u64),
    // They get other rights.
    Protect(u64, u64, u8, Result<(), Unmapped>),
    // So many pages are there.
    Pages(usize),
    // So many bytes from an address on can be read.
    Readable(u64, u64, Result<(), Miss>),
    // The lowest 1, 2, 4 or 8 bytes of a number are stored at an address.
    Store(u64, u64, u64, Result<(), WriteErr>),
    // So many bytes at an address are a number.
    Load(u64, u64, Result<u64, Miss>),
    // The instruction at an address.
    Fetch(u64, Result<u32, Miss>),
}

use Step::{Fetch, Load, Map, Pages, Protect, Readable, Store, Unmap};

impl Step {
    fn holds(self, space: &mut Space) -> bool {
        match self {
            Map(first, count, rights) => space.map(first, count, rights) == Ok(()),
            Unmap(first, count) => {
                space.unmap(first, count);
                true
            }
            Protect(first, count, rights, want) => space.protect(first, count, rights) == want,
            Pages(count) => space.pages() == count,
            Readable(at, len, want) => space.readable(at, len) == want,
            Store(width, at, value, want) => store(space, width, at, value) == want,
            Load(width, at, want) => load(space, width, at) == want,
            Fetch(at, want) => space.fetch(at) == want,
        }
    }
}

fn store(space: &mut Space, width: u64, at: u64, value: u64) -> Result<(), WriteErr> {
    match width {
        1 => space.store1(at, value),
        2 => space.store2(at, value),
        4 => space.store4(at, value),
        _ => space.store8(at, value),
    }
}

fn load(space: &Space, width: u64, at: u64) -> Result<u64, Miss> {
    match width {
        1 => space.load1(at),
        2 => space.load2(at),
        4 => space.load4(at),
        _ => space.load8(at),
    }
}

// Takes the steps one after the other. The number of one that comes to something else is told.
fn take(rt: &impl Abort, space: &mut Space, steps: &[Step]) {
    for (number, step) in steps.iter().enumerate() {
        same_at(rt, number, step.holds(space), true);
    }
}

const NUMBERS: [Step; 10] = [
    Store(8, 0x1ffd, 0x8877_6655_4433_2211, Ok(())),
    Load(8, 0x1ffd, Ok(0x8877_6655_4433_2211)),
    Load(4, 0x1ffe, Ok(0x5544_3322)),
    Load(2, 0x1fff, Ok(0x4433)),
    Load(1, 0x2004, Ok(0x88)),
    Store(4, 0x1000, 0xffff_ffff_0403_0201, Ok(())),
    Store(2, 0x1004, 0xfff0_0605, Ok(())),
    Store(1, 0x1006, 0xff07, Ok(())),
    Load(8, 0x1000, Ok(0x0007_0605_0403_0201)),
    Fetch(0x4ffc, Ok(0)),
];

#[test]
fn numbers_cross_pages_lowest_byte_first(rt: HostRuntime) -> Result<(), Fail> {
    take(&rt, &mut space(rt)?, &NUMBERS);
    Ok(())
}

// Ranges, and where they end that are to be read, and to be written.
const RANGES: [(u64, u64, Option<u64>, Option<u64>); 9] = [
    (0x1000, 0x3000, None, Some(0x3000)),
    (0x1000, 0x3001, Some(0x4000), Some(0x3000)),
    (0xfff, 2, Some(0xfff), Some(0xfff)),
    (0x2fff, 1, None, None),
    (0x2fff, 2, None, Some(0x3000)),
    (TOP - 8, 8, None, None),
    (TOP - 8, 9, Some(TOP), Some(TOP)),
    (u64::MAX, 2, Some(u64::MAX), Some(u64::MAX)),
    (u64::MAX, 0, None, None),
];

fn expect_ranges(rt: &impl Abort, space: &Space) {
    for (at, len, read, write) in &RANGES {
        same_at(rt, (*at, *len), missed(space.readable(*at, *len)), *read);
        same_at(rt, (*at, *len), missed(space.writable(*at, *len)), *write);
    }
}

#[test]
fn ranges_end_at_their_first_byte_without_the_right(rt: HostRuntime) -> Result<(), Fail> {
    let space = space(rt)?;
    expect_ranges(&rt, &space);
    Ok(())
}

// The address at which a range ends.
fn missed(range: Result<(), Miss>) -> Option<u64> {
    match range {
        Ok(()) => None,
        Err(miss) => Some(miss.at),
    }
}

const ACCESSES: [Step; 4] = [
    Load(8, TOP - 7, Err(Miss { at: TOP })),
    Fetch(0x4ffd, Err(Miss { at: 0x5000 })),
    Fetch(0x3ffc, Err(Miss { at: 0x3ffc })),
    Store(
        8,
        0x2ff9,
        u64::MAX,
        Err(WriteErr::Miss(Miss { at: 0x3000 })),
    ),
];

const NOTHING_WRITTEN: [Step; 2] = [Load(8, 0x2ff8, Ok(0)), Load(2, 0x1fff, Ok(0))];

#[test]
fn an_access_is_whole_or_misses_at_its_first_byte_without_the_right(
    rt: HostRuntime,
) -> Result<(), Fail> {
    let mut space = space(rt)?;
    take(&rt, &mut space, &ACCESSES);
    let missed = Err(WriteErr::Miss(Miss { at: 0x3000 }));
    same(&rt, space.write_bytes(0x1fff, &[9; 0x1002]), missed);
    take(&rt, &mut space, &NOTHING_WRITTEN);
    Ok(())
}

const MAPPED: [Step; 9] = [
    Map(0, 1, READ),
    Map(5, 2, READ),
    Readable(0, 0x4000, Ok(())),
    Protect(4, 4, READ, Err(Unmapped { page: 7 })),
    Readable(0x4000, 1, Err(Miss { at: 0x4000 })),
    Protect(4, 3, READ, Ok(())),
    Readable(0, 0x7000, Ok(())),
    Unmap(2, u64::MAX),
    Pages(2),
];

// Ranges, and why they are not mapped.
const REFUSED: [(u64, u64, MapErr); 6] = [
    (1, 0, MapErr::BadRange),
    (1, 1 << 26, MapErr::BadRange),
    (u64::MAX, 2, MapErr::BadRange),
    (4, 20_000, MapErr::Busy),
    (3, 2, MapErr::Busy),
    (5, 16_380, MapErr::Full),
];

fn expect_refused(rt: &impl Abort, space: &mut Space) {
    for (first, count, want) in &REFUSED {
        let found = space.map(*first, *count, READ);
        same_at(rt, (*first, *count), found, Err(*want));
        same(rt, space.pages(), 5);
    }
}

#[test]
fn mapping_is_refused_in_order(rt: HostRuntime) -> Result<(), Fail> {
    let mut space = space(rt)?;
    expect_refused(&rt, &mut space);
    same(&rt, MapErr::BadRange.number(), 3);
    take(&rt, &mut space, &MAPPED);
    Ok(())
}

// Addresses, and how many bytes are read of so many there, or the address of the first that can't be read.
const BUFFERS: [(u64, u64, Result<usize, u64>); 7] = [
    (0x1000, 0x3000, Ok(0x3000)),
    (0x5000, 0, Ok(0)),
    (0x5000, 1, Err(0x5000)),
    (0x4000, 2, Err(0x4000)),
    (0x2fff, 0x1002, Err(0x4000)),
    (TOP - 2, 1 << 31, Err(TOP)),
    (u64::MAX, 2, Err(u64::MAX)),
];

// How many bytes are read, or the address of the first that can't be read.
fn came(alloc: Global, space: &Space, at: u64, count: u64) -> Result<Result<usize, u64>, ReadErr> {
    match space.read_vec(alloc, at, count) {
        Ok(bytes) => Ok(Ok(bytes.len())),
        Err(ReadErr::Miss(miss)) => Ok(Err(miss.at)),
        Err(error) => Err(error),
    }
}

fn expect_buffers(rt: &impl Abort, alloc: Global, space: &Space) -> Result<(), ReadErr> {
    for (at, count, want) in &BUFFERS {
        same_at(rt, *at, came(alloc, space, *at, *count)?, *want);
    }
    Ok(())
}

#[test]
fn buffers_are_read_whole_or_not_at_all(rt: HostRuntime) -> Result<(), Fail> {
    let mut space = space(rt)?;
    space.write_bytes(0x1ffe, b"abcd")?;
    let alloc = rt.alloc();
    let written = space.read_vec(alloc, 0x1ffe, 4)?;
    same(&rt, written.as_slice(), b"abcd".as_slice());
    expect_buffers(&rt, alloc, &space)?;
    Ok(())
}

// Ends the test unless each of these texts is read, or refused, by its address and the most bytes of it.
fn expect_texts(rt: &impl Abort, space: &Space, texts: &[(u64, usize, Result<&[u8], TextErr>)]) {
    for (at, most, want) in texts {
        match space.read_text(*at, *most) {
            Ok(text) => same_at(rt, *at, Ok(text.as_slice()), *want),
            Err(error) => same_at(rt, *at, Err(error), *want),
        }
    }
}

// Right before the end of all pages.
const LAST: u64 = TOP - 3;

const HELLO: &[u8] = b"hello";

const AB: &[u8] = b"ab";

const TEXTS: [(u64, usize, Result<&[u8], TextErr>); 4] = [
    (0x1ffd, 6, Ok(HELLO)),
    (LAST, 100, Ok(AB)),
    (0x1ffd, 5, Err(TextErr::Long)),
    (0x5000, 0, Err(TextErr::Long)),
];

const ENDLESS: [(u64, usize, Result<&[u8], TextErr>); 2] = [
    (LAST, 3, Err(TextErr::Long)),
    (LAST, 4, Err(TextErr::Miss(Miss { at: TOP }))),
];

#[test]
fn texts_end_at_a_nul_or_a_limit(rt: HostRuntime) -> Result<(), Fail> {
    let mut space = space(rt)?;
    space.write_bytes(0x1ffd, b"hello")?;
    space.write_bytes(LAST, b"ab\0")?;
    expect_texts(&rt, &space, &TEXTS);
    space.store1(LAST + 2, 7)?;
    expect_texts(&rt, &space, &ENDLESS);
    Ok(())
}

// Three words of a space.
fn words(space: &Space) -> Result<[u64; 3], Miss> {
    Ok([
        space.load8(0x1000)?,
        space.load8(0x1008)?,
        space.load8(0x1010)?,
    ])
}

#[test]
fn forks_are_apart(rt: HostRuntime) -> Result<(), Fail> {
    let mut old = space(rt)?;
    old.store8(0x1000, 1)?;
    let mut new = old.fork()?;
    old.store8(0x1008, 2)?;
    new.store8(0x1010, 3)?;
    same(&rt, words(&old), Ok([1, 2, 0]));
    same(&rt, words(&new), Ok([1, 0, 3]));
    Ok(())
}

#[test]
fn page_hints_change_no_answer(rt: HostRuntime) -> Result<(), Fail> {
    let mut space = space(rt)?;
    let mut page_hint = PageHint::new();
    space.store8_hinted(&mut page_hint, 0x2000, 5)?;
    space.map(0, 1, READ)?;
    same(&rt, space.load8_hinted(&mut page_hint, 0x2000)?, 5);
    space.unmap(1, 1);
    same(&rt, space.load8_hinted(&mut page_hint, 0x2000)?, 5);
    same(
        &rt,
        space.load8_hinted(&mut page_hint, 0x1000),
        Err(Miss { at: 0x1000 }),
    );
    space.unmap(2, 1);
    same(
        &rt,
        space.load8_hinted(&mut page_hint, 0x2000),
        Err(Miss { at: 0x2000 }),
    );
    same(&rt, space.fetch_hinted(&mut page_hint, 0x4000)?, 0);
    Ok(())
}
