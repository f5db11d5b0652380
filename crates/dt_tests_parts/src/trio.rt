// A process with two children, whose schedule is the same in every order of arrival.
use crate::driver::{Came, Driver};
use crate::expect::{same, same_at};
use dt_base::{NoMemory, Verdict};
use dt_sched::Head;
use std::alloc::{AllocError, Global};
use std::process::Abort;
use std::test::Fail;

// A turn: whose, what it costs, and what it comes to.
type Turn = (u32, u32, Came);

// The turns, in their order.
const TURNS: &[Turn] = &[
    (1, 4, Came::Child),
    (1, 5, Came::Child),
    (2, 4, Came::Gone),
    (1, 7, Came::Again),
    (3, 4, Came::Gone),
    (1, 2, Came::Again),
    (1, 3, Came::Gone),
];

// The costs of the next segments of the processes 1 to 3, where these turns are left.
fn costs(left: &[Turn]) -> [u32; 4] {
    let mut costs = [0, 3, 4, 4];
    for (vpid, cost, _) in left.iter().rev() {
        if *vpid == 1 {
            costs[1] = *cost;
        }
    }
    costs
}

// The four last digits of a number to base 3, from the last one on.
fn digits(number: usize) -> [usize; 4] {
    [number % 3, number / 3 % 3, number / 9 % 3, number / 27 % 3]
}

// How segments arrive. Before a turn all that are owed do, or only as many as the head waits for. Which of them comes
// next is picked by the digits of a number, again and again.
#[derive(Clone, Copy)]
struct Way {
    budget: u64,
    all: bool,
    number: usize,
}

// How a run came: whose segments arrived, in their order, how many turns there were, and what came after them.
#[derive(Drop)]
struct Played {
    arrived: Vec<u32>,
    turns: usize,
    head: Head,
}

fn run(alloc: Global, turns: &[Turn], way: Way) -> Result<Played, NoMemory> {
    let mut driver = Driver::new(alloc, way.budget)?;
    let mut arrived = Vec::new(alloc);
    let (turns, head) = take_turns(&mut driver, &mut arrived, turns, way)?;
    Ok(Played {
        arrived,
        turns,
        head,
    })
}

// Takes the turns as far as they come; how many they are, and what came after them.
fn take_turns(
    driver: &mut Driver,
    arrived: &mut Vec<u32>,
    turns: &[Turn],
    way: Way,
) -> Result<(usize, Head), AllocError> {
    for (index, (vpid, _, came)) in turns.iter().enumerate() {
        let costs = costs(turns.get(index..).unwrap_or(&[]));
        let_arrive(driver, arrived, &costs, way)?;
        let head = driver.turn(*came);
        if head != Head::Ready(*vpid) {
            return Ok((index, head));
        }
    }
    Ok((turns.len(), driver.core().head()))
}

// Lets segments arrive before a turn.
fn let_arrive(
    driver: &mut Driver,
    arrived: &mut Vec<u32>,
    costs: &[u32],
    way: Way,
) -> Result<(), AllocError> {
    let digits = digits(way.number);
    for _ in 0..3 {
        if way.all || matches!(driver.core().head(), Head::NotArrived(_)) {
            let index = digits[arrived.len() % 4];
            if let Some(vpid) = driver.arrive(index, costs) {
                arrived.push(vpid)?;
            }
        }
    }
    Ok(())
}

// Budgets, how many turns there are with them, and the verdict.
const ENDS: &[(u64, usize, Verdict)] = &[
    (1000, 7, Verdict::Ended),
    (29, 7, Verdict::Ended),
    (28, 6, Verdict::Budget),
    (13, 3, Verdict::Budget),
    (12, 2, Verdict::Budget),
];

fn expect_way(
    rt: &impl Abort,
    alloc: Global,
    way: Way,
    turns: usize,
    verdict: Verdict,
) -> Result<(), NoMemory> {
    let played = run(alloc, TURNS, way)?;
    let at = (way.budget, way.all, way.number);
    same_at(rt, at, played.turns, turns);
    same_at(rt, at, played.head, Head::Over(verdict));
    Ok(())
}

fn expect_ends(
    rt: &impl Abort,
    alloc: Global,
    number: usize,
    ends: &[(u64, usize, Verdict)],
) -> Result<(), NoMemory> {
    for (budget, turns, verdict) in ends {
        let way = Way {
            budget: *budget,
            all: false,
            number,
        };
        expect_way(rt, alloc, way, *turns, *verdict)?;
        expect_way(rt, alloc, Way { all: true, ..way }, *turns, *verdict)?;
    }
    Ok(())
}

#[test]
fn schedule_is_the_same_in_every_order_of_arrival(rt: HostRuntime) -> Result<(), Fail> {
    for number in 0..81 {
        expect_ends(&rt, rt.alloc(), number, ENDS)?;
    }
    Ok(())
}

// The orders of arrival where segments arrive only while the head waits for its own.
fn orders(alloc: Global) -> Result<Vec<Vec<u32>>, NoMemory> {
    let mut orders = Vec::new(alloc);
    for number in 0..81 {
        let way = Way {
            budget: 1000,
            all: false,
            number,
        };
        add_order(&mut orders, run(alloc, TURNS, way)?.arrived)?;
    }
    Ok(orders)
}

// Adds an order that was not there before.
fn add_order(orders: &mut Vec<Vec<u32>>, order: Vec<u32>) -> Result<(), AllocError> {
    if !orders.contains(&order) {
        orders.push(order)?;
    }
    Ok(())
}

#[test]
fn numbers_give_each_order_of_arrival(rt: HostRuntime) -> Result<(), Fail> {
    let orders = orders(rt.alloc())?;
    same(&rt, orders.len(), 11);
    Ok(())
}
