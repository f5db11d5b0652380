// What a number for the host does to its choices.
ghost use Rattle.std.specs.Prelude.{◌≡◌};
ghost use Rattle.dt_host.specs.World.{IsEmptyStart};

use crate::anywhere::status_of;
use crate::expect::same_at;
use crate::program::{HELLO_INDEX, HELLO_REPORT, RUN_HELLO, hello};
use crate::twice::{InMemory, outside};
use dt_host::{Host, HostErr};
use std::process::Abort;
use std::test::Fail;
use std::thread::Threads;
use std::time::Clock;

// What comes of a run of `/hello`: its status and its report, and the word by which the host chooses next. That word
// tells the stream by which the host went, and how far it went in it.
#[derive(Drop)]
struct Ran {
    status: u8,
    report: Vec<u8>,
    next: u64,
}

// Runs `/hello` by these words, at a host that was disturbed by hand where a number is given.
fn run<R: AllocGlobal + Clock + Threads + Sync>(
    rt: &R,
    words: &str,
    by_hand: Option<u64>,
) -> Result<Ran, Fail> {
    let program = hello(rt.alloc())?;
    let mut met = outside(rt.alloc(), 5, HELLO_INDEX, &program)?;
    run_at(rt, words, by_hand, &mut met)
}

// The same at what it meets.
fn run_at<R: AllocGlobal + Clock + Threads + Sync>(
    rt: &R,
    words: &str,
    by_hand: Option<u64>,
    met: &mut InMemory,
) -> Result<Ran, Fail>
    requires { IsEmptyStart met.old.host.view }
{
    disturb(&mut met.host, by_hand)?;
    let status = status_of(rt, words, met)?;
    let next = met.host.clock()?;
    let report = Vec::from_slice(rt.alloc(), met.out.bytes())?;
    Ok(Ran {
        status,
        report,
        next,
    })
}

// Disturbs the host by hand, where a number is given.
fn disturb<H: Host>(host: &mut H, by_hand: Option<u64>) -> Result<(), HostErr>
    ensures { H.view host.new ≡ H.view host.old }
{
    match by_hand {
        Some(number) => host.disturb(number),
        None => Ok(()),
    }
}

// Ends the test unless a run came to the end and the report of `/hello`.
fn expect_hello(rt: &impl Abort, number: u64, ran: &Ran) {
    same_at(rt, number, ran.status, 0);
    same_at(rt, number, ran.report.as_slice(), HELLO_REPORT);
}

// Ends the test unless a number among the words disturbs the host as it does by hand, and as none of the numbers before
// it did. The word by which the host chooses next.
fn expect_disturbed<R: Abort + AllocGlobal + Clock + Threads + Sync>(
    rt: &R,
    number: u64,
    seen: &[u64],
) -> Result<u64, Fail> {
    let words = format!(in rt.alloc(); "run\nimg\n--host\n{number}\n--\n/hello")?;
    let by_words = run(rt, words.as_str(), None)?;
    expect_hello(rt, number, &by_words);
    let by_hand = run(rt, RUN_HELLO, Some(number))?;
    expect_hello(rt, number, &by_hand);
    same_at(rt, number, by_words.next, by_hand.next);
    same_at(rt, number, seen.contains(&by_words.next), false);
    Ok(by_words.next)
}

// Ends the test unless it is so for each of these numbers.
fn expect_all_disturbed<R: Abort + AllocGlobal + Clock + Threads + Sync>(
    rt: &R,
    numbers: &[u64],
) -> Result<(), Fail> {
    let mut seen = Vec::new(rt.alloc());
    seen.push(run(rt, RUN_HELLO, None)?.next)?;
    for number in numbers {
        seen.push(expect_disturbed(rt, *number, &seen)?)?;
    }
    Ok(())
}

const NUMBERS: &[u64] = &[0, 1, 7, 1 << 32, (1 << 32) + 7, 1 << 63, u64::MAX];

#[test]
fn a_number_among_the_words_disturbs_the_host_as_it_does_by_hand(
    rt: HostRuntime,
) -> Result<(), Fail> {
    expect_all_disturbed(&rt, NUMBERS)
}
