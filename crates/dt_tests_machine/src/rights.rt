// Ranges that are unmapped, or given other rights.
use crate::expect::{same, same_at};
use dt_base::{ADDRESS_LIMIT, Answer, Errno};
use dt_mcalls::{mprotect, munmap};
use dt_space::{EXECUTE, MapErr, READ, Space, WRITE};
use std::alloc::Global;
use std::process::Abort;
use std::test::Fail;

const INVALID: Option<Errno> = Some(Errno::Inval);

const NO_ROOM: Option<Errno> = Some(Errno::NoMem);

const DONE: Option<Errno> = None;

// The answer of a call that is done, or refused for this.
fn answer(refused: Option<Errno>) -> Answer {
    match refused {
        Some(errno) => Answer::Refused(errno),
        None => Answer::Value(0),
    }
}

// Pages 0x10 and 0x11, 0x13, and the last of all.
fn space(alloc: Global) -> Result<Space, MapErr> {
    let mut space = Space::new(alloc);
    add_pages(&mut space)?;
    Ok(space)
}

fn add_pages(space: &mut Space) -> Result<(), MapErr> {
    space.map(0x10, 2, WRITE)?;
    space.map(0x13, 1, READ)?;
    space.map((1 << 26) - 1, 1, READ)
}

// Ranges, what comes of unmapping each, and how many pages are left.
const UNMAPPED: &[(u64, u64, Option<Errno>, usize)] = &[
    (1, 1, INVALID, 4),
    (0x1_0800, 4096, INVALID, 4),
    (0x1_0000, 0, INVALID, 4),
    (0, u64::MAX, INVALID, 4),
    (0, u64::MAX - 4095, INVALID, 4),
    (0, 1 << 39, INVALID, 4),
    (0, ADDRESS_LIMIT + 1, INVALID, 4),
    (ADDRESS_LIMIT, 1, INVALID, 4),
    (ADDRESS_LIMIT - 4096, 4097, INVALID, 4),
    (u64::MAX - 4095, 1, INVALID, 4),
    (0, 1, DONE, 4),
    (0x1_2000, 4096, DONE, 4),
    (0x1_0000, 1, DONE, 3),
    (0x1_0000, 4097, DONE, 2),
    (0x1_1000, 0x2001, DONE, 2),
    (ADDRESS_LIMIT - 4096, 4096, DONE, 3),
    (0, ADDRESS_LIMIT, DONE, 0),
];

fn unmap(alloc: Global, address: u64, len: u64) -> Result<(Answer, usize), MapErr> {
    let mut space = space(alloc)?;
    let answer = munmap(&mut space, address, len);
    Ok((answer, space.pages()))
}

fn expect_unmapped(rt: &impl Abort, alloc: Global) -> Result<(), MapErr> {
    for (address, len, want, pages) in UNMAPPED {
        let (found, left) = unmap(alloc, *address, *len)?;
        same_at(rt, (*address, *len), found, answer(*want));
        same_at(rt, (*address, *len), left, *pages);
    }
    Ok(())
}

#[test]
fn unmapping_passes_over_holes(rt: HostRuntime) -> Result<(), Fail> {
    expect_unmapped(&rt, rt.alloc())?;
    Ok(())
}

// Ranges and rights, and what comes of protecting each.
const PROTECTED: &[(u64, u64, u64, Option<Errno>)] = &[
    (1, 0, 1, INVALID),
    (0x1_0000, 0, 8, INVALID),
    (0x1_0000, 1, 0x1_0000_0008, INVALID),
    (0x1_0001, 1, 4, INVALID),
    (0x1_0000, 0, 4, DONE),
    (ADDRESS_LIMIT, 0, 4, DONE),
    (u64::MAX - 4095, 0, 4, DONE),
    (0x1_0000, 0x2001, 4, NO_ROOM),
    (0x1_2000, 1, 4, NO_ROOM),
    (0x1_0000, u64::MAX, 4, NO_ROOM),
    (0x1_0000, u64::MAX - 4095, 4, NO_ROOM),
    (ADDRESS_LIMIT - 4096, 4097, 4, NO_ROOM),
    (ADDRESS_LIMIT, 1, 4, NO_ROOM),
    (u64::MAX - 4095, 1, 4, NO_ROOM),
];

// Ends the test unless each comes to this, and changes nothing.
fn expect_protected(rt: &impl Abort, space: &mut Space) {
    for (address, len, prot, want) in PROTECTED {
        let found = mprotect(space, *address, *len, *prot);
        same_at(rt, (*address, *len, *prot), found, answer(*want));
        same(rt, space.writable(0x1_0000, 0x2000), Ok(()));
        same(rt, space.readable(ADDRESS_LIMIT - 4096, 4096), Ok(()));
    }
}

#[test]
fn refused_protecting_changes_nothing(rt: HostRuntime) -> Result<(), Fail> {
    let mut space = space(rt.alloc())?;
    expect_protected(&rt, &mut space);
    Ok(())
}

#[test]
fn rights_change_in_whole_pages(rt: HostRuntime) -> Result<(), Fail> {
    let mut space = space(rt.alloc())?;
    same(
        &rt,
        mprotect(&mut space, 0x1_0000, 4097, u64::from(EXECUTE)),
        answer(DONE),
    );
    same(&rt, space.fetch(0x1_1ffc), Ok(0));
    same(&rt, space.readable(0x1_1fff, 1).is_ok(), false);
    same(
        &rt,
        mprotect(&mut space, 0x1_1000, 1, 0xffff_ffff_0000_0002),
        answer(DONE),
    );
    same(&rt, space.writable(0x1_1000, 4096), Ok(()));
    same(&rt, space.readable(0x1_1000, 4096), Ok(()));
    same(&rt, mprotect(&mut space, 0x1_0000, 1, 0), answer(DONE));
    same(&rt, space.fetch(0x1_0000).is_ok(), false);
    same(
        &rt,
        mprotect(&mut space, ADDRESS_LIMIT - 4096, 4096, 7),
        answer(DONE),
    );
    same(&rt, space.fetch(ADDRESS_LIMIT - 4), Ok(0));
    Ok(())
}
