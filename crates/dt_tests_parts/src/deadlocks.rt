// Processes that all wait.
use crate::driver::{Came, Driver};
use crate::expect::same;
use dt_base::NoMemory;
use dt_sched::Head;
use std::alloc::Global;
use std::process::Abort;
use std::test::Fail;

// Whose turn comes after these turns.
fn head(alloc: Global, turns: &[Came]) -> Result<Head, NoMemory> {
    let mut driver = Driver::new(alloc, 100)?;
    for came in turns {
        driver.arrive(0, &[]);
        driver.turn(*came);
    }
    driver.arrive(0, &[]);
    Ok(driver.core().head())
}

// Turns, and whose comes after them.
type Row = (&'static [Came], Head);

fn expect_heads(rt: &impl Abort, alloc: Global, rows: &[Row]) -> Result<(), NoMemory> {
    for (turns, then) in rows {
        same(rt, head(alloc, *turns)?, *then);
    }
    Ok(())
}

const ONE: &[Row] = &[
    (&[Came::Waits], Head::AllWait),
    (&[Came::Moved], Head::Ready(1)),
    (&[Came::Again, Came::Waits], Head::AllWait),
];

const TWO: &[Row] = &[
    (&[Came::Child, Came::Waits, Came::Waits], Head::AllWait),
    (&[Came::Child, Came::Waits], Head::Ready(2)),
    (
        &[Came::Child, Came::Waits, Came::Again, Came::Waits],
        Head::Ready(2),
    ),
    (
        &[Came::Child, Came::Waits, Came::Moved, Came::Waits],
        Head::Ready(2),
    ),
    (
        &[
            Came::Child,
            Came::Waits,
            Came::Moved,
            Came::Waits,
            Came::Waits,
        ],
        Head::AllWait,
    ),
    (&[Came::Child, Came::Waits, Came::Gone], Head::Ready(1)),
    (
        &[Came::Child, Came::Waits, Came::Gone, Came::Waits],
        Head::AllWait,
    ),
];

#[test]
fn one_process_that_waits_is_all(rt: HostRuntime) -> Result<(), Fail> {
    expect_heads(&rt, rt.alloc(), ONE)?;
    Ok(())
}

#[test]
fn two_processes_that_wait_are_all(rt: HostRuntime) -> Result<(), Fail> {
    expect_heads(&rt, rt.alloc(), TWO)?;
    Ok(())
}
