// Each call by itself.
use crate::driver::{Came, Driver};
use crate::expect::same_at;
use dt_base::{NoMemory, Verdict};
use dt_sched::Head;
use std::alloc::Global;
use std::process::Abort;
use std::test::Fail;

// A call of the queue, and what it comes to.
#[derive(Clone, Copy)]
enum Step {
    // Process 1 owes a segment, which arrives at these costs.
    Arrives(&'static [u32]),
    // The head takes its turn, and was this.
    Turns(Came, Head),
    // The segment of the first that owes one arrives, and the head takes its turn.
    Goes(Came),
    Owing(&'static [u32]),
    Next(Head),
    Waits(u32, bool),
}

impl Step {
    fn expect(self, rt: &impl Abort, at: usize, driver: &mut Driver) {
        match self {
            Step::Arrives(costs) => same_at(rt, at, driver.arrive(0, costs), Some(1)),
            Step::Turns(came, head) => same_at(rt, at, driver.turn(came), head),
            Step::Goes(came) => {
                driver.arrive(0, &[]);
                driver.turn(came);
            }
            Step::Owing(owing) => same_at(rt, at, driver.core().owing(), owing),
            Step::Next(head) => same_at(rt, at, driver.core().head(), head),
            Step::Waits(vpid, waits) => same_at(rt, at, driver.core().waits(vpid), waits),
        }
    }
}

fn expect_all(rt: &impl Abort, alloc: Global, budget: u64, steps: &[Step]) -> Result<(), NoMemory> {
    let mut driver = Driver::new(alloc, budget)?;
    for (at, step) in steps.iter().enumerate() {
        step.expect(rt, at, &mut driver);
    }
    Ok(())
}

const AT_FIRST: &[Step] = &[
    Step::Owing(&[1]),
    Step::Next(Head::NotArrived(1)),
    Step::Waits(1, false),
];

#[test]
fn at_first_process_1_owes_a_segment(rt: HostRuntime) -> Result<(), Fail> {
    Ok(expect_all(&rt, rt.alloc(), 100, AT_FIRST)?)
}

const CHARGED: &[Step] = &[
    Step::Arrives(&[0, 6]),
    Step::Owing(&[]),
    Step::Next(Head::Ready(1)),
    Step::Turns(Came::Again, Head::Ready(1)),
    Step::Owing(&[1]),
    Step::Next(Head::NotArrived(1)),
    Step::Arrives(&[0, 5]),
    Step::Next(Head::Over(Verdict::Budget)),
];

#[test]
fn segment_is_charged_at_its_turn(rt: HostRuntime) -> Result<(), Fail> {
    Ok(expect_all(&rt, rt.alloc(), 10, CHARGED)?)
}

const TRIED_AGAIN: &[Step] = &[
    Step::Arrives(&[0, 5]),
    Step::Turns(Came::Moved, Head::Ready(1)),
    Step::Waits(1, true),
    Step::Waits(2, false),
    Step::Owing(&[]),
    Step::Turns(Came::Moved, Head::Ready(1)),
    Step::Next(Head::Over(Verdict::Budget)),
];

#[test]
fn call_that_waits_is_tried_again_for_1(rt: HostRuntime) -> Result<(), Fail> {
    Ok(expect_all(&rt, rt.alloc(), 6, TRIED_AGAIN)?)
}

const LAST_CHILD: &[Step] = &[
    Step::Goes(Came::Child),
    Step::Owing(&[1, 2]),
    Step::Goes(Came::Again),
    Step::Owing(&[2, 1]),
    Step::Goes(Came::LastChild),
    Step::Owing(&[1, 3]),
    Step::Goes(Came::Again),
    Step::Owing(&[3, 1]),
    Step::Goes(Came::Gone),
    Step::Owing(&[1]),
];

#[test]
fn last_child_lives_on(rt: HostRuntime) -> Result<(), Fail> {
    Ok(expect_all(&rt, rt.alloc(), 100, LAST_CHILD)?)
}

const GONE: &[Step] = &[
    Step::Goes(Came::Child),
    Step::Goes(Came::Gone),
    Step::Next(Head::Over(Verdict::Ended)),
    Step::Owing(&[]),
];

const GONE_WITH_A_CHILD: &[Step] = &[
    Step::Goes(Came::Child),
    Step::Goes(Came::LastChild),
    Step::Next(Head::Over(Verdict::Ended)),
    Step::Owing(&[]),
];

#[test]
fn process_1_ends_the_run(rt: HostRuntime) -> Result<(), Fail> {
    expect_all(&rt, rt.alloc(), 100, GONE)?;
    expect_all(&rt, rt.alloc(), 100, GONE_WITH_A_CHILD)?;
    Ok(())
}

const STOPPED: &[Step] = &[
    Step::Goes(Came::Stopped(1000)),
    Step::Next(Head::Over(Verdict::Unsupported(1, 1000))),
];

#[test]
fn unsupported_call_ends_the_run(rt: HostRuntime) -> Result<(), Fail> {
    Ok(expect_all(&rt, rt.alloc(), 100, STOPPED)?)
}
