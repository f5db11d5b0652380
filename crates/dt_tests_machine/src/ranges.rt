// Ranges of pages: gaps, counts, and what unmapping and protecting leave.
use crate::expect::{same, same_at};
use dt_space::{EXECUTE, MapErr, Miss, READ, Space, Unmapped, WRITE};
use std::alloc::Global;
use std::process::Abort;
use std::test::Fail;

const PAGE_NUMBERS: u64 = 1 << 26;

// Pages 2 to 4, 7, 8 and 12, and the last but one of all.
fn islands(alloc: Global) -> Result<Space, MapErr> {
    let mut space = Space::new(alloc);
    add_islands(&mut space)?;
    Ok(space)
}

fn add_islands(space: &mut Space) -> Result<(), MapErr> {
    space.map(2, 3, WRITE)?;
    space.map(7, 2, READ)?;
    space.map(12, 1, EXECUTE)?;
    space.map(PAGE_NUMBERS - 2, 1, READ)
}

// For each rights: whether a byte can be read, written, and fetched as an instruction.
const RIGHTS: &[(u8, bool, bool, bool)] = &[
    (0, false, false, false),
    (1, true, false, false),
    (2, true, true, false),
    (4, false, false, true),
    (7, true, true, true),
    (8, false, false, false),
];

// Whether a byte of a page with these rights can be read, written, and fetched.
fn allowed(alloc: Global, rights: u8) -> Result<(bool, bool, bool), MapErr> {
    let mut space = Space::new(alloc);
    space.map(1, 1, rights)?;
    let read = space.load1(0x1000).is_ok();
    let written = space.store1(0x1000, 5).is_ok();
    let executed = space.fetch(0x1000).is_ok();
    Ok((read, written, executed))
}

fn expect_rights(rt: &impl Abort, alloc: Global) -> Result<(), MapErr> {
    for (rights, read, written, executed) in RIGHTS {
        let want = (*read, *written, *executed);
        same_at(rt, *rights, allowed(alloc, *rights)?, want);
    }
    Ok(())
}

#[test]
fn rights_are_bits_1_2_and_4(rt: HostRuntime) -> Result<(), Fail> {
    expect_rights(&rt, rt.alloc())?;
    Ok(())
}

// Where the first gap of so many pages is, from a page on.
const GAPS: &[(u64, u64, Option<u64>)] = &[
    (0, 1, Some(0)),
    (0, 2, Some(0)),
    (0, 3, Some(9)),
    (0, 4, Some(13)),
    (1, 1, Some(1)),
    (1, 2, Some(5)),
    (2, 1, Some(5)),
    (3, 2, Some(5)),
    (5, 2, Some(5)),
    (5, 3, Some(9)),
    (6, 1, Some(6)),
    (6, 2, Some(9)),
    (13, 1, Some(13)),
    (13, PAGE_NUMBERS - 15, Some(13)),
    (13, PAGE_NUMBERS - 14, None),
    (14, PAGE_NUMBERS - 15, None),
    (PAGE_NUMBERS - 3, 1, Some(PAGE_NUMBERS - 3)),
    (PAGE_NUMBERS - 2, 1, Some(PAGE_NUMBERS - 1)),
    (PAGE_NUMBERS - 2, 2, None),
    (PAGE_NUMBERS - 1, 1, Some(PAGE_NUMBERS - 1)),
    (PAGE_NUMBERS, 1, None),
    (PAGE_NUMBERS, 0, Some(PAGE_NUMBERS)),
    (PAGE_NUMBERS + 1, 0, None),
    (0, u64::MAX, None),
    (u64::MAX, 1, None),
    (u64::MAX, u64::MAX, None),
];

fn expect_gaps(rt: &impl Abort, space: &Space) {
    for (from, count, want) in GAPS {
        same_at(rt, (*from, *count), space.lowest_gap(*from, *count), *want);
    }
}

#[test]
fn gap_is_the_lowest_that_is_wide_enough(rt: HostRuntime) -> Result<(), Fail> {
    let space = islands(rt.alloc())?;
    expect_gaps(&rt, &space);
    let empty = Space::new(rt.alloc());
    same(&rt, empty.lowest_gap(0, PAGE_NUMBERS), Some(0));
    same(&rt, empty.lowest_gap(1, PAGE_NUMBERS), None);
    Ok(())
}

// How many pages there are of so many from a page on.
const COUNTS: &[(u64, u64, usize)] = &[
    (0, 0, 0),
    (0, 2, 0),
    (0, 3, 1),
    (2, 3, 3),
    (2, 0, 0),
    (3, 4, 2),
    (3, 5, 3),
    (4, 5, 3),
    (8, 4, 1),
    (8, 5, 2),
    (0, PAGE_NUMBERS, 7),
    (12, u64::MAX, 2),
    (13, u64::MAX, 1),
    (PAGE_NUMBERS, u64::MAX, 0),
];

fn expect_counts(rt: &impl Abort, space: &Space) {
    for (first, count, want) in COUNTS {
        same_at(rt, (*first, *count), space.pages_in(*first, *count), *want);
    }
}

#[test]
fn pages_of_a_range_are_counted(rt: HostRuntime) -> Result<(), Fail> {
    let space = islands(rt.alloc())?;
    expect_counts(&rt, &space);
    Ok(())
}

// Ranges that go, and whether the pages 2, 7 and 12 are there then.
const UNMAPPED: &[(u64, u64, bool, bool, bool)] = &[
    (2, 0, true, true, true),
    (5, 2, true, true, true),
    (4, 4, true, false, true),
    (8, 5, true, true, false),
    (0, u64::MAX, false, false, false),
    (7, u64::MAX, true, false, false),
];

// Whether they are there when a range is gone.
fn left(alloc: Global, first: u64, count: u64) -> Result<(bool, bool, bool), MapErr> {
    let mut space = islands(alloc)?;
    space.unmap(first, count);
    let low = space.readable(0x2000, 1).is_ok();
    let middle = space.readable(0x7000, 1).is_ok();
    let high = space.fetch(0xc000).is_ok();
    Ok((low, middle, high))
}

fn expect_left(rt: &impl Abort, alloc: Global) -> Result<(), MapErr> {
    for (first, count, low, middle, high) in UNMAPPED {
        let want = (*low, *middle, *high);
        same_at(rt, (*first, *count), left(alloc, *first, *count)?, want);
    }
    Ok(())
}

#[test]
fn unmapping_takes_the_pages_of_the_range_alone(rt: HostRuntime) -> Result<(), Fail> {
    expect_left(&rt, rt.alloc())?;
    Ok(())
}

// Ranges with the first page that is missing.
const MISSING: &[(u64, u64, u64)] = &[
    (2, 4, 5),
    (1, 3, 1),
    (3, u64::MAX, 5),
    (7, 3, 9),
    (u64::MAX, 1, u64::MAX),
    (u64::MAX, 2, u64::MAX),
];

// Ends the test unless a range is refused for this page, and nothing changes.
fn expect_refused(rt: &impl Abort, space: &mut Space, first: u64, count: u64, page: u64) {
    let found = space.protect(first, count, EXECUTE);
    same_at(rt, (first, count), found, Err(Unmapped { page }));
    same(rt, space.writable(0x2000, 0x3000), Ok(()));
    same(rt, space.readable(0x7000, 0x2000), Ok(()));
    same(rt, space.fetch(0x2000), Err(Miss { at: 0x2000 }));
}

fn expect_missing(rt: &impl Abort, alloc: Global) -> Result<(), MapErr> {
    for (first, count, missing) in MISSING {
        let mut space = islands(alloc)?;
        expect_refused(rt, &mut space, *first, *count, *missing);
    }
    Ok(())
}

#[test]
fn refused_protecting_changes_no_page(rt: HostRuntime) -> Result<(), Fail> {
    expect_missing(&rt, rt.alloc())?;
    let mut space = islands(rt.alloc())?;
    same(&rt, space.protect(u64::MAX, 0, READ), Ok(()));
    same(&rt, space.protect(3, 2, READ), Ok(()));
    let missed = Err(Miss { at: 0x3000 });
    same(&rt, space.writable(0x2000, 0x3000), missed);
    same(&rt, space.readable(0x2000, 0x3000), Ok(()));
    Ok(())
}
