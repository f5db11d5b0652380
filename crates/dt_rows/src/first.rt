// The first fault ends a run: nothing is asked for after it.
ghost use Rattle.std.specs.Prelude.{IfOk};
ghost use Rattle.dt_host.specs.World.{IsEmptyStart};

use crate::anywhere::status_of;
use crate::expect::same_at;
use crate::program::{HELLO_INDEX, RUN_HELLO, hello};
use crate::twice::InMemory;
use dt_base::NoMemory;
use dt_host::{Host, Sink, Store};
use dt_memhost::{MemHost, MemSink, MemStore, Picker};
use dt_run::Outside;
use std::alloc::{AllocError, Global};
use std::process::Abort;
use std::test::Fail;
use std::thread::Threads;
use std::time::Clock;

// A number for each that a run meets: the call at which it fails, or how many of its calls failed.
#[derive(Clone, Copy, Debug, PartialEq)]
struct Each {
    store: u64,
    host: u64,
    out: u64,
    err: u64,
}

// No run makes so many calls.
const MANY: u64 = 1 << 32;

// Each fails at no call.
const NEVER: Each = Each {
    store: MANY,
    host: MANY,
    out: MANY,
    err: MANY,
};

// No call of any failed.
const NONE: Each = Each {
    store: 0,
    host: 0,
    out: 0,
    err: 0,
};

// What a run of `/hello` meets. Each fails at the call of a number, and at the one after it: so a call that a run makes
// after a fault is a second fault.
fn meet(alloc: Global, fails: Each) -> Result<InMemory, Fail>
    ensures { IfOk result (λ met. IsEmptyStart met.host.view) }
{
    let store = failing_store(alloc, fails.store)?;
    let host = failing_host(alloc, fails.host)?;
    let out = failing_sink(alloc, fails.out)?;
    let err = failing_sink(alloc, fails.err)?;
    Ok(Outside {
        store,
        host,
        out,
        err,
    })
}

fn failing_store(alloc: Global, fails: u64) -> Result<MemStore, Fail> {
    let program = hello(alloc)?;
    Ok(store_of(alloc, fails, &program)?)
}

fn store_of(alloc: Global, fails: u64, program: &[u8]) -> Result<MemStore, NoMemory> {
    let mut store = MemStore::new(alloc, picker(alloc)?, two(alloc, fails)?)?;
    store.insert("img/image.json", HELLO_INDEX)?;
    store.insert("img/hello", program)?;
    Ok(store)
}

fn failing_host(alloc: Global, fails: u64) -> Result<MemHost, NoMemory>
    ensures { IfOk result (λ host. IsEmptyStart host.view) }
{
    MemHost::new(alloc, picker(alloc)?, two(alloc, fails)?)
}

fn failing_sink(alloc: Global, fails: u64) -> Result<MemSink, NoMemory> {
    MemSink::new(alloc, picker(alloc)?, two(alloc, fails)?, None)
}

// Words by which each transfer moves one byte, so that there are many calls.
fn picker(alloc: Global) -> Result<Picker, AllocError> {
    Ok(Picker::new(zeros(alloc, 8_000)?, 0))
}

fn zeros(alloc: Global, count: usize) -> Result<Vec<u32>, AllocError> {
    vec![in alloc; 0; count]
}

// A number and the next one.
fn two(alloc: Global, number: u64) -> Result<Vec<u64>, AllocError> {
    Ok(vec![in alloc; number, number.saturating_add(1)]?)
}

// Makes one more call of each.
fn ask_each(met: &mut InMemory) {
    let _ = met.store.size("x");
    let _ = met.host.root();
    let _ = met.out.write(b"x");
    let _ = met.err.write(b"x");
}

// How many calls of each failed.
fn faults<S: Store, H: Host, O: Sink, E: Sink>(met: &Outside<S, H, O, E>) -> Each {
    Each {
        store: met.store.faults(),
        host: met.host.faults(),
        out: met.out.faults(),
        err: met.err.faults(),
    }
}

// What is to end a run.
#[derive(Clone, Copy)]
enum Failing {
    Store,
    Host,
}

impl Failing {
    // It fails at the call of a number, and the others as they do here.
    fn at(self, number: u64, others: Each) -> Each {
        match self {
            Failing::Store => Each {
                store: number,
                ..others
            },
            Failing::Host => Each {
                host: number,
                ..others
            },
        }
    }

    // The status of a run that it ends.
    fn status(self) -> u8 {
        match self {
            Failing::Store => 4,
            Failing::Host => 5,
        }
    }
}

// The status of a run of `/hello`.
fn status<R: AllocGlobal + Clock + Threads + Sync>(rt: &R, fails: Each) -> Result<u8, Fail> {
    let mut met = meet(rt.alloc(), fails)?;
    status_of(rt, RUN_HELLO, &mut met)
}

// The number of the first of its calls that a run does not make before the others end it. At each number below that its
// fault ends the run.
fn first_not_made<R: AllocGlobal + Clock + Threads + Sync>(
    rt: &R,
    failing: Failing,
    others: Each,
) -> Result<u64, Fail> {
    let mut made = 0u64;
    for more in [2048, 1024, 512, 256, 128, 64, 32, 16, 8, 4, 2, 1] {
        let number = made.saturating_add(more);
        if status(rt, failing.at(number, others))? == failing.status() {
            made = number;
        }
    }
    Ok(made.saturating_add(1))
}

// The words of a run, the calls at which each fails, the status by which it ends, and the one fault.
#[derive(Clone, Copy)]
struct Row<'a> {
    words: &'a str,
    fails: Each,
    status: u8,
    fault: Each,
}

// A run that ends by one fault alone. Then the next call of each that fails at any is a fault: so it was not made.
fn expect_one_fault<R: Abort + AllocGlobal + Clock + Threads + Sync>(
    rt: &R,
    row: Row<'_>,
) -> Result<(), Fail> {
    let mut met = meet(rt.alloc(), row.fails)?;
    expect_row(rt, row, &mut met)
}

fn expect_row<R: Abort + AllocGlobal + Clock + Threads + Sync>(
    rt: &R,
    row: Row<'_>,
    met: &mut InMemory,
) -> Result<(), Fail>
    requires { IsEmptyStart met.old.host.view }
{
    let status = status_of(rt, row.words, met)?;
    same_at(rt, row.fails, status, row.status);
    same_at(rt, row.fails, faults(met), row.fault);
    ask_each(met);
    same_at(rt, row.fails, faults(met), one_more(row.fails, row.fault));
    Ok(())
}

// So many faults, and one more of each that fails at any call.
fn one_more(fails: Each, faults: Each) -> Each {
    Each {
        store: more(fails.store, faults.store),
        host: more(fails.host, faults.host),
        out: more(fails.out, faults.out),
        err: more(fails.err, faults.err),
    }
}

fn more(fails: u64, faults: u64) -> u64 {
    faults.saturating_add(u64::from(fails != MANY))
}

// A run in which the store fails first, at the call of a number.
fn by_store(number: u64) -> Row<'static> {
    Row {
        words: RUN_HELLO,
        fails: Each {
            store: number,
            host: 1,
            out: 1,
            err: MANY,
        },
        status: 4,
        fault: Each { store: 1, ..NONE },
    }
}

// The same of the host; the store is whole up to this call.
fn by_host(store: u64, number: u64) -> Row<'static> {
    Row {
        words: RUN_HELLO,
        fails: Each {
            store,
            host: number,
            out: 1,
            err: MANY,
        },
        status: 5,
        fault: Each { host: 1, ..NONE },
    }
}

// The same of the report. What it shows is written between calls of the host, so the host is whole up to the call that
// no run makes before this one.
fn by_report<R: AllocGlobal + Clock + Threads + Sync>(
    rt: &R,
    store: u64,
    number: u64,
) -> Result<Row<'static>, Fail> {
    let fails = Each {
        store,
        out: number,
        ..NEVER
    };
    let host = first_not_made(rt, Failing::Host, fails)?;
    Ok(Row {
        words: RUN_HELLO,
        fails: Each { host, ..fails },
        status: 6,
        fault: Each { out: 1, ..NONE },
    })
}

// A refusal whose line fails, at the call of a number.
fn by_line(number: u64) -> Row<'static> {
    Row {
        words: "run",
        fails: Each {
            store: 1,
            host: 1,
            out: 1,
            err: number.min(100),
        },
        status: 2,
        fault: Each { err: 1, ..NONE },
    }
}

// Ends the test unless each of them ends by its fault, at the call of each of these numbers. Below the store's and the
// host's first call that a whole run does not make, the call is made.
fn expect_faults<R: Abort + AllocGlobal + Clock + Threads + Sync>(
    rt: &R,
    numbers: &[u64],
) -> Result<(), Fail> {
    let store = first_not_made(rt, Failing::Store, NEVER)?;
    let host = first_not_made(rt, Failing::Host, NEVER)?;
    same_at(rt, host, 150 < host, true);
    for number in numbers {
        expect_one_fault(rt, by_store(*number))?;
        expect_one_fault(rt, by_host(store, *number))?;
        expect_one_fault(rt, by_report(rt, store, *number)?)?;
        expect_one_fault(rt, by_line(*number))?;
    }
    Ok(())
}

// Each is below the number of the bytes that move, so that the call is made. Of the report's bytes, the first three are
// of its first line, the 20th shows a turn, and the others are of its end.
const NUMBERS: &[u64] = &[1, 2, 3, 20, 50, 100, 150];

#[test]
fn nothing_is_asked_for_after_a_fault(rt: HostRuntime) -> Result<(), Fail> {
    expect_faults(&rt, NUMBERS)
}
