// Breaks that move up and down, and stay.
use crate::expect::{same, same_at};
use dt_base::{ADDRESS_LIMIT, Answer, NoMemory, PAGE_LIMIT, PAGE_SIZE};
use dt_mcalls::{Break, brk, mmap, munmap};
use dt_space::{EXECUTE, Miss, READ, Space, WriteErr};
use std::alloc::{AllocError, Global};
use std::process::Abort;
use std::test::Fail;

// One page of code, right before the break's start.
const START: u64 = 0x1_1000;

fn space(rt: HostRuntime) -> Result<Space, Fail> {
    let mut space = Space::new(rt.alloc());
    space.map(0x10, 1, READ | EXECUTE)?;
    Ok(space)
}

// Ends the test unless calls of these addresses answer so, each with so many pages then.
fn expect_breaks(
    rt: &impl Abort,
    space: &mut Space,
    rows: &[(u64, u64, usize)],
) -> Result<(), NoMemory> {
    let mut end = Break {
        start: START,
        end: START,
    };
    for (address, answer, pages) in rows {
        same_at(rt, *address, brk(&mut end, space, *address)?, *answer);
        same_at(rt, *address, space.pages(), *pages);
    }
    Ok(())
}

const WHOLE_PAGES: &[(u64, u64, usize)] = &[
    (0, 0x1_1000, 1),
    (0x1_0fff, 0x1_1000, 1),
    (0x1_1000, 0x1_1000, 1),
    (0x1_1001, 0x1_1001, 2),
    (0x1_0fff, 0x1_1001, 2),
    (0x1_2000, 0x1_2000, 2),
    (0x1_2001, 0x1_2001, 3),
    (0x1_5000, 0x1_5000, 5),
    (u64::MAX, 0x1_5000, 5),
    (0x1_2fff, 0x1_2fff, 3),
    (0x1_1000, 0x1_1000, 1),
];

#[test]
fn break_takes_whole_pages(rt: HostRuntime) -> Result<(), Fail> {
    let mut space = space(rt)?;
    expect_breaks(&rt, &mut space, WHOLE_PAGES)?;
    same(&rt, space.fetch(0x1_0000), Ok(0));
    Ok(())
}

#[test]
fn pages_of_the_break_can_be_read_and_written(rt: HostRuntime) -> Result<(), Fail> {
    let mut space = space(rt)?;
    let mut end = Break {
        start: START,
        end: START,
    };
    same(&rt, brk(&mut end, &mut space, START + 1)?, START + 1);
    space.store8(START, 7)?;
    same(&rt, space.fetch(START), Err(Miss { at: START }));
    same(&rt, brk(&mut end, &mut space, START)?, START);
    same(
        &rt,
        space.store8(START, 7),
        Err(WriteErr::Miss(Miss { at: START })),
    );
    same(&rt, brk(&mut end, &mut space, START + 1)?, START + 1);
    same(&rt, space.load8(START), Ok(0));
    Ok(())
}

const BELOW_A_PAGE: &[(u64, u64, usize)] = &[
    (0x1_4000, 0x1_4000, 5),
    (0x1_4001, 0x1_4000, 5),
    (0x1_5001, 0x1_4000, 5),
    (0x1_3000, 0x1_3000, 4),
];

#[test]
fn break_stays_where_its_pages_cannot_come(rt: HostRuntime) -> Result<(), Fail> {
    let mut space = space(rt)?;
    space.map(0x14, 1, READ)?;
    expect_breaks(&rt, &mut space, BELOW_A_PAGE)?;
    Ok(())
}

#[test]
fn break_reaches_the_page_limit_and_no_further(rt: HostRuntime) -> Result<(), Fail> {
    let mut space = space(rt)?;
    let mut end = Break {
        start: START,
        end: START,
    };
    let top = START + (PAGE_LIMIT - 1) * PAGE_SIZE;
    same(&rt, brk(&mut end, &mut space, top + 1)?, START);
    same(&rt, brk(&mut end, &mut space, top)?, top);
    same(&rt, space.pages(), 16_384);
    same(&rt, brk(&mut end, &mut space, top + 1)?, top);
    Ok(())
}

#[test]
fn break_reaches_the_last_address_and_no_further(rt: HostRuntime) -> Result<(), Fail> {
    let mut space = space(rt)?;
    let start = ADDRESS_LIMIT - PAGE_SIZE;
    let mut end = Break { start, end: start };
    same(
        &rt,
        brk(&mut end, &mut space, ADDRESS_LIMIT)?,
        ADDRESS_LIMIT,
    );
    same(
        &rt,
        brk(&mut end, &mut space, ADDRESS_LIMIT + 1)?,
        ADDRESS_LIMIT,
    );
    same(&rt, space.load8(ADDRESS_LIMIT - 8), Ok(0));
    Ok(())
}

// What is done to the pages behind the break's start.
#[derive(Clone, Copy, Debug)]
enum Act {
    // The break goes to this address.
    Moved(u64),
    // It was to go to this address, and stays.
    Stays(u64),
    // The page at this address goes.
    Unmapped(u64),
    // A page at this address, which is read alone, comes with `MAP_FIXED`, in the place of one that is there.
    Mapped(u64),
}

use Act::{Mapped, Moved, Stays, Unmapped};

impl Act {
    // Whether it comes to what it says.
    fn act(self, end: &mut Break, space: &mut Space) -> Result<bool, NoMemory> {
        match self {
            Moved(address) => goes(end, space, address, address),
            Stays(address) => {
                let old = end.end;
                goes(end, space, address, old)
            }
            Unmapped(address) => Ok(munmap(space, address, PAGE_SIZE) == Answer::Value(0)),
            Mapped(address) => {
                let mapped = mmap(space, address, PAGE_SIZE, 1, 0x32)?;
                Ok(mapped == Answer::Value(address))
            }
        }
    }
}

// Whether a call of this address answers another one, and the break is there then.
fn goes(end: &mut Break, space: &mut Space, address: u64, there: u64) -> Result<bool, NoMemory> {
    Ok(brk(end, space, address)? == there && end.end == there)
}

// Of seven pages from the break's start on: which can be written, which only read, and which are not there.
fn shown(alloc: Global, space: &Space) -> Result<String, AllocError> {
    let mut pages = String::new(alloc);
    for page in 0..7 {
        pages.push(letter(space, START + page * PAGE_SIZE))?;
    }
    Ok(pages)
}

// What is said of a page.
fn letter(space: &Space, address: u64) -> char {
    if space.writable(address, PAGE_SIZE).is_ok() {
        'w'
    } else if space.readable(address, PAGE_SIZE).is_ok() {
        'r'
    } else {
        '.'
    }
}

// Acts one after the other, each with the pages that are there after it.
const OTHERS_PAGES: &[(&str, &[(Act, &str)])] = &[
    (
        "falls over a hole",
        &[
            (Moved(0x1_5000), "wwww..."),
            (Unmapped(0x1_2000), "w.ww..."),
            (Moved(0x1_3001), "w.w...."),
            (Moved(0x1_1001), "w......"),
            (Moved(0x1_4000), "www...."),
        ],
    ),
    (
        "falls into a hole, and over one at its end",
        &[
            (Moved(0x1_5000), "wwww..."),
            (Unmapped(0x1_2000), "w.ww..."),
            (Unmapped(0x1_4000), "w.w...."),
            (Moved(0x1_2001), "w......"),
            (Moved(0x1_3000), "w......"),
            (Moved(0x1_3001), "w.w...."),
        ],
    ),
    (
        "falls over pages that others put there",
        &[
            (Moved(0x1_5000), "wwww..."),
            (Mapped(0x1_2000), "wrww..."),
            (Unmapped(0x1_4000), "wrw...."),
            (Mapped(0x1_4000), "wrwr..."),
            (Moved(0x1_3000), "wr....."),
            (Moved(0x1_1000), "......."),
            (Moved(0x1_3000), "ww....."),
        ],
    ),
    (
        "falls where a page stands behind it, and rises up to that",
        &[
            (Moved(0x1_3000), "ww....."),
            (Mapped(0x1_3000), "wwr...."),
            (Mapped(0x1_5000), "wwr.r.."),
            (Moved(0x1_2000), "w.r.r.."),
            (Stays(0x1_3001), "w.r.r.."),
            (Stays(0x1_7000), "w.r.r.."),
            (Moved(0x1_3000), "wwr.r.."),
        ],
    ),
    (
        "rises with a hole and another's page below it",
        &[
            (Moved(0x1_4000), "www...."),
            (Unmapped(0x1_1000), ".ww...."),
            (Mapped(0x1_2000), ".rw...."),
            (Moved(0x1_5000), ".rww..."),
            (Unmapped(0x1_4000), ".rw...."),
            (Moved(0x1_7000), ".rw.ww."),
        ],
    ),
    (
        "rises within a page that is gone",
        &[
            (Moved(0x1_1001), "w......"),
            (Unmapped(0x1_1000), "......."),
            (Moved(0x1_1fff), "......."),
            (Moved(0x1_2000), "......."),
            (Moved(0x1_2001), ".w....."),
        ],
    ),
];

#[test]
fn break_moves_over_holes_and_pages_of_others(rt: HostRuntime) -> Result<(), Fail> {
    let alloc = rt.alloc();
    for (what, acts) in OTHERS_PAGES {
        let mut space = Space::new(alloc);
        let mut end = Break {
            start: START,
            end: START,
        };
        for (act, pages) in *acts {
            assert!(rt; act.act(&mut end, &mut space)?, "{what}, {act:?}");
            let there = shown(alloc, &space)?;
            same_at(&rt, (what, act), there.as_str(), *pages);
        }
    }
    Ok(())
}
