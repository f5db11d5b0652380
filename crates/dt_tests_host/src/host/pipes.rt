// The pipes of a host in memory: how much a word moves and in which order, and whose numbers are taken.
ghost use Rattle.std.specs.Prelude.{◌<◌, ◌≤◌};

use super::play::{Table, expect, expect_all};
use super::scene::{At, Script};
use super::step::Ask::Clock;
use super::step::Outcome::{Count, Done, Failed, Number};
use super::step::PipeCall::{Put, PutAll, Take, TakeAll, TakeInto};
use super::step::Query::Faults;
use super::step::Row::{self, Ask, Check, InPipe};
use crate::expect::same;
use dt_host::{Host, HostErr, NodeKind};
use dt_memhost::MemHost;
use std::alloc::Global;
use std::process::Abort;

// Ends the test unless a word has so many of ten bytes put, which come then.
fn expect_put(rt: &impl Abort, alloc: Global, count: u32) -> Result<(), HostErr>
    requires some { 0 < count }
    requires at_most { count ≤ 10 }
{
    let (first, _) = b"some bytes".split_at(count as usize);
    // The first word chooses the number, the second how much is put, and the third that all of it comes.
    let script = Script {
        words: &[4, count - 1, count - 1],
        stream: 1,
        fails: &[],
    };
    let rows = [
        InPipe(Put(b"some bytes"), Count(count as usize)),
        InPipe(Take(16, first), Done),
    ];
    expect(rt, alloc, count, At::Pipe, &script, &rows)
}

#[test]
fn a_word_chooses_how_much_is_put(rt: HostRuntime) -> Result<(), HostErr> {
    for count in 1..11 {
        expect_put(&rt, rt.alloc(), count)?;
    }
    Ok(())
}

// Ends the test unless a word has so many of ten bytes taken, and the others come then.
fn expect_taken(rt: &impl Abort, alloc: Global, count: u32) -> Result<(), HostErr>
    requires some { 0 < count }
    requires at_most { count ≤ 10 }
{
    let (first, last) = b"some bytes".split_at(count as usize);
    let script = Script {
        words: &[4, 9, count - 1],
        stream: 1,
        fails: &[],
    };
    let rows = [
        InPipe(Put(b"some bytes"), Count(10)),
        InPipe(Take(16, first), Done),
        InPipe(TakeAll(16, last), Done),
    ];
    expect(rt, alloc, count, At::Pipe, &script, &rows)
}

#[test]
fn a_word_chooses_how_much_is_taken(rt: HostRuntime) -> Result<(), HostErr> {
    for count in 1..11 {
        expect_taken(&rt, rt.alloc(), count)?;
    }
    Ok(())
}

const IN_TURN: &[Row] = &[
    InPipe(PutAll(b"0123456789"), Done),
    InPipe(TakeAll(6, b"012345"), Done),
    // What is put now stands behind what is left of the first piece.
    InPipe(PutAll(b"abcdefgh"), Done),
    InPipe(TakeAll(9, b"6789abcde"), Done),
    InPipe(PutAll(b"ABCDEFGHIJKLMNOPQRSTUVWXYZ"), Done),
    InPipe(TakeAll(99, b"fghABCDEFGHIJKLMNOPQRSTUVWXYZ"), Done),
];

const BYTE_BY_BYTE: &[Row] = &[
    InPipe(PutAll(b"some bytes"), Done),
    InPipe(TakeAll(16, b"some bytes"), Done),
    Ask(Clock, Number(77)),
];

const NOTHING: &[Row] = &[
    InPipe(Take(8, b""), Done),
    InPipe(Put(b"x"), Count(1)),
    InPipe(Take(0, b""), Done),
    Ask(Clock, Number(21)),
];

const CUT_SHORT: &[Row] = &[
    InPipe(PutAll(b"some bytes"), Failed),
    InPipe(TakeAll(16, b""), Failed),
    InPipe(TakeAll(16, b"om"), Done),
    Check(Faults, Number(2)),
];

// The numbers of a file, a pipe, a directory and two pipes that are made.
fn made(host: &mut MemHost) -> Result<[u64; 5], HostErr> {
    Ok([
        host.make(NodeKind::File)?,
        host.make(NodeKind::Pipe)?,
        host.make(NodeKind::Dir)?,
        host.make(NodeKind::Pipe)?,
        host.make(NodeKind::Pipe)?,
    ])
}

#[test]
fn a_number_is_one_of_a_node_or_of_a_pipe(rt: HostRuntime) -> Result<(), HostErr> {
    let script = Script {
        words: &[4, 4, 4, 4, 16_384],
        stream: 1,
        fails: &[],
    };
    let mut host = script.host(rt.alloc())?;
    let numbers = made(&mut host)?;
    // The root has 1.
    same(&rt, numbers.as_slice(), [5, 6, 7, 8, 2].as_slice());
    Ok(())
}

// Makes a pipe and lets it go.
fn forget_new(host: &mut MemHost) -> Result<(), HostErr> {
    let pipe = host.make(NodeKind::Pipe)?;
    host.forget(pipe)
}

// Why a new pipe doesn't go, if it doesn't, and the numbers of a file and a pipe that are made then.
fn made_after(alloc: Global, fails: &[u64]) -> Result<(Option<HostErr>, u64, u64), HostErr> {
    let script = Script {
        words: &[4, 4, 4],
        stream: 1,
        fails,
    };
    let mut host = script.host(alloc)?;
    made_then(&mut host)
}

// The same at a host that has made nothing.
fn made_then(host: &mut MemHost) -> Result<(Option<HostErr>, u64, u64), HostErr> {
    let error = forget_new(host).err();
    Ok((
        error,
        host.make(NodeKind::File)?,
        host.make(NodeKind::Pipe)?,
    ))
}

#[test]
fn number_is_free_once_its_pipe_is_gone(rt: HostRuntime) -> Result<(), HostErr> {
    same(&rt, made_after(rt.alloc(), &[])?, (None, 5, 6));
    same(
        &rt,
        made_after(rt.alloc(), &[2])?,
        (Some(HostErr::Failed), 6, 7),
    );
    Ok(())
}

const LISTED: &[Row] = &[
    InPipe(Put(b"other"), Failed),
    InPipe(Put(b"some bytes"), Count(10)),
    InPipe(TakeInto(b"------------", b"------------"), Failed),
    InPipe(TakeInto(b"------------", b"some bytes--"), Count(10)),
    Check(Faults, Number(2)),
];

const TABLES: &[Table] = &[
    (
        "oldest bytes come first",
        At::Pipe,
        Script {
            words: &[],
            stream: 1,
            fails: &[],
        },
        IN_TURN,
    ),
    (
        "whole transfers that fail keep what moved",
        At::Pipe,
        // Three bytes go in before a put fails, one comes out before a take fails.
        Script {
            words: &[4, 2, 0, 1],
            stream: 1,
            fails: &[3, 5],
        },
        CUT_SHORT,
    ),
    (
        "nothing moves without a word",
        At::Pipe,
        Script {
            words: &[4, 0, 21],
            stream: 1,
            fails: &[],
        },
        NOTHING,
    ),
    (
        "listed calls leave pipe and buffer",
        At::Pipe,
        Script {
            words: &[4, 9, 9],
            stream: 1,
            fails: &[2, 4],
        },
        LISTED,
    ),
    (
        "whole transfers go on byte by byte",
        At::Pipe,
        // Each 0 moves one byte: ten go in and ten come out.
        Script {
            words: &[
                4, 0, 0, 0, 0, 0, 0, 0, 0, 0, 0, 0, 0, 0, 0, 0, 0, 0, 0, 0, 0, 77,
            ],
            stream: 1,
            fails: &[],
        },
        BYTE_BY_BYTE,
    ),
];

#[test]
fn pipes_move_what_words_choose(rt: HostRuntime) -> Result<(), HostErr> {
    expect_all(&rt, rt.alloc(), TABLES)
}
