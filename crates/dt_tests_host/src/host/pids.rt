// The pids of a host in memory: which one a word chooses, and what a failing call leaves.
ghost use Rattle.std.specs.Prelude.{◌≡◌, ◌<◌, ◌^◌, ℕ};
ghost use Rattle.dt_host.specs.World.{ArePids, IsLive, IsPipe};

use super::ask::number;
use super::pids::PidCall::{Faults, Greatest, New, NewAndDrop};
use super::scene::Script;
use super::step::Outcome::{self, Failed, Number};
use crate::expect::same_at;
use dt_host::{Host, HostErr};
use dt_memhost::MemHost;
use std::alloc::Global;
use std::process::Abort;

// What is done with pids, or looked up.
#[derive(Clone, Copy)]
enum PidCall {
    // A pid is made.
    New,
    // A pid is made and let go.
    NewAndDrop,
    // So many pids are made: the greatest of them.
    Greatest(u32),
    // How many calls failed so far.
    Faults,
}

// A call, and what it is to come to.
type PidRow = (PidCall, Outcome);

// What calls show, what the host goes by, and the calls.
type Table = (&'static str, Script<'static>, &'static [PidRow]);

// Ends the test unless the calls of each table come to what they are to come to at a new host; says what they show.
fn expect_all(rt: &impl Abort, alloc: Global, tables: &[Table]) -> Result<(), HostErr> {
    for (what, script, rows) in tables {
        same_at(rt, *what, first_mismatch(alloc, script, rows)?, None);
    }
    Ok(())
}

// Makes these calls of a new host, up to the first that comes to something else than it is to come to: its index, and
// what it came to.
fn first_mismatch(
    alloc: Global,
    script: &Script<'_>,
    rows: &[PidRow],
) -> Result<Option<(usize, Outcome)>, HostErr> {
    let mut host = script.host(alloc)?;
    mismatch_at(&mut host, rows)
}

fn mismatch_at(host: &mut MemHost, rows: &[PidRow]) -> Result<Option<(usize, Outcome)>, HostErr> {
    for (index, (call, want)) in rows.iter().enumerate() {
        let found = make(host, *call)?;
        if found != *want {
            return Ok(Some((index, found)));
        }
    }
    Ok(None)
}

fn make(host: &mut MemHost, call: PidCall) -> Result<Outcome, HostErr> {
    match call {
        New => number(host.new_pid()),
        NewAndDrop => number(drop_new(host)),
        Greatest(count) => number(greatest(host, count)),
        Faults => Ok(Number(faults_of(host))),
    }
}

// How many calls of a host failed, whichever host it is: its root has a number of 64 bits, and so have the nodes, the
// pipes and the pids that are live there.
fn faults_of<H: Host>(host: &H) -> u64
    ensures value { result ≡ H.count host.now }
    ensures root { (H.view host.now).forest.root < 2 ^ 64 }
    ensures nodes { (n : ℕ) → IsLive (H.view host.now).forest n → n < 2 ^ 64 }
    ensures pipes { (n : ℕ) → IsPipe (H.view host.now) n → n < 2 ^ 64 }
    ensures pids { ArePids (H.view host.now).pids }
{
    host.faults()
}

// Makes a pid and lets it go.
fn drop_new(host: &mut MemHost) -> Result<u64, HostErr> {
    let pid = host.new_pid()?;
    host.drop_pid(pid)?;
    Ok(pid)
}

// The greatest of so many new pids.
fn greatest(host: &mut MemHost, count: u32) -> Result<u64, HostErr> {
    let mut greatest = 0;
    for _ in 0..count {
        greatest = host.new_pid()?.max(greatest);
    }
    Ok(greatest)
}

// The second 5 gives the next one upwards, and the second 127 goes round.
const CHOSEN: &[PidRow] = &[
    (New, Number(6)),
    (New, Number(7)),
    (New, Number(128)),
    (New, Number(1)),
    (New, Number(2)),
    (New, Number(8)),
];

// None of the first 128 is above 128.
const ALL_LIVE: &[PidRow] = &[
    (Greatest(128), Number(128)),
    (NewAndDrop, Number(129)),
    (New, Number(129)),
    (New, Number(130)),
];

const DROPPED: &[PidRow] = &[(NewAndDrop, Number(5)), (New, Number(5)), (New, Number(6))];

const LISTED: &[PidRow] = &[
    (New, Failed),
    (Faults, Number(1)),
    // The second call makes the pid 6, which the third doesn't take away.
    (NewAndDrop, Failed),
    (Faults, Number(2)),
    (New, Number(7)),
];

const TABLES: &[Table] = &[
    (
        "a word chooses among 128 pids",
        Script {
            words: &[5, 5, 127, 127, 128, 133],
            stream: 0,
            fails: &[],
        },
        CHOSEN,
    ),
    (
        "pid is the least above 128 that are live",
        Script {
            words: &[],
            stream: 3,
            fails: &[],
        },
        ALL_LIVE,
    ),
    (
        "dropped pid comes again",
        Script {
            words: &[4, 4, 4],
            stream: 0,
            fails: &[],
        },
        DROPPED,
    ),
    (
        "listed calls leave words and pids",
        Script {
            words: &[5, 5],
            stream: 0,
            fails: &[1, 3],
        },
        LISTED,
    ),
];

#[test]
fn words_choose_pids(rt: HostRuntime) -> Result<(), HostErr> {
    expect_all(&rt, rt.alloc(), TABLES)
}
