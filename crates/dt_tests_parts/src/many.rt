// As many processes as have room.
use crate::driver::{Came, Driver};
use crate::expect::{same, same_at};
use dt_base::NoMemory;
use dt_sched::{Head, QUEUE_LIMIT};
use std::alloc::Global;
use std::process::Abort;
use std::test::Fail;

// Process 1 with 63 children that go on.
fn full(alloc: Global) -> Result<Driver, NoMemory> {
    let mut driver = Driver::new(alloc, 1_000_000)?;
    for _ in 0..3000 {
        if driver.core().owing().len() < 64 {
            go_on(&mut driver);
        }
    }
    Ok(driver)
}

// The head takes its turn; process 1 makes a child.
fn go_on(driver: &mut Driver) {
    driver.arrive(0, &[]);
    let came = if driver.core().head() == Head::Ready(1) {
        Came::Child
    } else {
        Came::Again
    };
    driver.turn(came);
}

#[test]
fn the_limit_is_64(rt: HostRuntime) -> Result<(), Fail> {
    same(&rt, QUEUE_LIMIT, 64);
    Ok(())
}

// Ends the test unless so many owe a segment once the last of them has handed in its own.
fn expect_one_less(rt: &impl Abort, driver: &mut Driver, count: usize) {
    same_at(rt, count, driver.arrive(63, &[]).is_some(), true);
    same_at(rt, count, driver.core().owing().len(), count);
}

#[test]
fn there_is_room_for_64(rt: HostRuntime) -> Result<(), Fail> {
    let mut driver = full(rt.alloc())?;
    same(&rt, driver.core().owing().len(), 64);
    same(&rt, driver.core().owing().last(), Some(&64));
    for count in (0..64).rev() {
        expect_one_less(&rt, &mut driver, count);
    }
    Ok(())
}

// Ends the test unless the head is ready, and takes its turn, which waits.
fn expect_wait(rt: &impl Abort, driver: &mut Driver) {
    driver.arrive(0, &[]);
    let head = driver.turn(Came::Waits);
    same_at(rt, head, matches!(head, Head::Ready(_)), true);
}

#[test]
fn all_64_wait(rt: HostRuntime) -> Result<(), Fail> {
    let mut driver = full(rt.alloc())?;
    for _ in 0..64 {
        expect_wait(&rt, &mut driver);
    }
    same(&rt, driver.core().head(), Head::AllWait);
    Ok(())
}
