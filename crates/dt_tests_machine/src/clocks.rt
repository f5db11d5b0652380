// The clock of a run, as far as its limit and past it.
use crate::expect::same;
use dt_virt::{Clock, TICK_LIMIT};

#[test]
fn clock_stops_at_its_limit(rt: HostRuntime) {
    let mut clock = Clock::new();
    same(&rt, clock.ticks(), 0);
    same(&rt, clock.read(), 1_000);
    same(&rt, clock.stamp(), 2_000);
    clock.sleep(500);
    same(&rt, clock.ticks(), 2_500);
    clock.sleep(5_000_000_000_000_000_000);
    same(&rt, clock.ticks(), 4_611_686_018_427_387_903);
    clock.sleep(u64::MAX);
    same(&rt, clock.read(), TICK_LIMIT);
    same(&rt, clock.stamp(), TICK_LIMIT);
}
