// Pages that a space and its fork share, and stores to each of the two.
use crate::expect::{same, same_at};
use dt_base::NoMemory;
use dt_space::{READ, Space, WRITE, WriteErr};
use std::alloc::Global;
use std::process::Abort;
use std::test::Fail;

// Bytes of a page.
const PAGE: usize = 4096;

// The address of the first page.
const FIRST: u64 = 0x1000;

// A space of so many pages, from the first address on, each byte of them 7.
fn sevens(alloc: Global, count: u64) -> Result<Space, Fail> {
    let mut space = Space::new(alloc);
    space.map(1, count, READ | WRITE)?;
    for page in 0..count {
        space.write_bytes(FIRST.wrapping_add(page.wrapping_mul(4096)), &[7; PAGE])?;
    }
    Ok(space)
}

// How many bytes of a page are 7, by how many pages stand before it.
fn left(space: &Space, page: u64) -> Result<usize, Fail> {
    let mut bytes = [0; PAGE];
    space.read_bytes(FIRST.wrapping_add(page.wrapping_mul(4096)), &mut bytes)?;
    Ok(bytes.iter().filter(|byte| **byte == 7).count())
}

// How many pages the copy and the other space share.
fn shared(copy: &Space, other: &Space) -> (usize, usize) {
    (copy.shared(), other.shared())
}

#[test]
fn a_store_after_a_fork_is_seen_in_one_space_alone(rt: HostRuntime) -> Result<(), Fail> {
    let mut other = sevens(rt.alloc(), 1)?;
    let mut copy = other.fork()?;
    same(&rt, shared(&copy, &other), (1, 1));
    copy.store1(FIRST + 5, 9)?;
    same(
        &rt,
        (left(&copy, 0)?, copy.load1(FIRST + 5)?),
        (PAGE - 1, 9),
    );
    same(&rt, left(&other, 0)?, PAGE);
    same(&rt, shared(&copy, &other), (0, 1));
    other.store1(FIRST + 5, 8)?;
    same(
        &rt,
        (copy.load1(FIRST + 5)?, other.load1(FIRST + 5)?),
        (9, 8),
    );
    same(&rt, left(&copy, 0)?, PAGE - 1);
    same(&rt, shared(&copy, &other), (0, 0));
    Ok(())
}

// What a write from the middle of the first page of four to the middle of the last leaves of each.
const HALVES: [usize; 4] = [PAGE / 2, 0, 0, PAGE / 2];

// Ends the test unless the pages of a space have so many bytes left.
fn expect_left(rt: &impl Abort, space: &Space, want: [usize; 4]) -> Result<(), Fail> {
    for (page, bytes) in want.into_iter().enumerate() {
        same_at(rt, page, left(space, page as u64)?, bytes);
    }
    Ok(())
}

#[test]
fn a_write_over_shared_pages_is_whole_or_none(rt: HostRuntime) -> Result<(), Fail> {
    let mut other = sevens(rt.alloc(), 4)?;
    let mut copy = other.fork()?;
    match copy.write_bytes(FIRST + 0x800, &[5; 3 * PAGE]) {
        Ok(()) => {}
        Err(error) => {
            // It wanted memory, for whichever of the pages: nothing was written.
            same(&rt, error, WriteErr::NoMemory);
            expect_left(&rt, &copy, [PAGE; 4])?;
            return Err(Fail::from(NoMemory));
        }
    }
    expect_left(&rt, &copy, HALVES)?;
    expect_left(&rt, &other, [PAGE; 4])?;
    same(&rt, shared(&copy, &other), (0, 4));
    copy.store8(FIRST + 0x2ffc, u64::MAX)?;
    same(&rt, other.load8(FIRST + 0x2ffc)?, 0x0707_0707_0707_0707);
    Ok(())
}

#[test]
fn pages_go_apart_one_by_one(rt: HostRuntime) -> Result<(), Fail> {
    let mut other = sevens(rt.alloc(), 4)?;
    let mut copy = other.fork()?;
    other.store8(FIRST + 0x1ffc, 0)?;
    same(&rt, shared(&copy, &other), (4, 2));
    expect_left(&rt, &other, [PAGE, PAGE - 4, PAGE - 4, PAGE])?;
    expect_left(&rt, &copy, [PAGE; 4])?;
    let third = copy.fork()?;
    copy.unmap(1, 3);
    same(&rt, (copy.shared(), third.shared()), (1, 4));
    expect_left(&rt, &third, [PAGE; 4])
}
