// A host in memory: what it keeps, what its words choose, and which calls fail.
ghost use Rattle.std.specs.Prelude.{IfOk};
ghost use Rattle.dt_host.specs.World.{IsFile, IsEmptyStart};

use super::file;
use super::play::{Table, expect_all};
use super::scene::{At, Script};
use super::step::Ask::{Clock, Cycles, NextStop, Random};
use super::step::DirCall::{self, BindItself, Names, SortedNames, Unbind};
use super::step::FileCall::{self, Cut, Read, Write};
use super::step::Outcome::{Count, Done, Failed, Number, Raw};
use super::step::Query::{self, Faults};
use super::step::Row::{self, Ask, Check, InDir, InFile};
use crate::expect::same;
use dt_base::Blob;
use dt_host::{Host, HostErr, NodeKind, RawStat};
use dt_memhost::MemHost;
use std::alloc::Global;
use std::process::Abort;

// Two words of a list, and then the first ones of the ChaCha8 key stream of a key of zeros and a nonce of zeros, from
// the test vectors of draft-strombergson-chacha-test-vectors-01 (TC1, 8 rounds).
const LISTED_AND_STREAM: [u64; 10] = [
    7,
    9,
    0x2fef_003e,
    0xd640_5f89,
    0xe8b8_5b7f,
    0xa1a5_091f,
    0xc30e_842c,
    0x3b7f_9ace,
    0x88e1_1b18,
    0x1e1a_71ef,
];

// What the clock of a host says that has two words: the first ten times.
fn times(alloc: Global) -> Result<Vec<u64>, HostErr> {
    let script = Script {
        words: &[7, 9],
        stream: 0,
        fails: &[],
    };
    let mut host = script.host(alloc)?;
    let mut times = Vec::new(alloc);
    add_times(&mut host, &mut times)?;
    Ok(times)
}

fn add_times(host: &mut MemHost, times: &mut Vec<u64>) -> Result<(), HostErr> {
    for _ in 0..10 {
        times.push(host.clock()?)?;
    }
    Ok(())
}

#[test]
fn picks_listed_words_and_then_the_stream(rt: HostRuntime) -> Result<(), HostErr> {
    let times = times(rt.alloc())?;
    same(&rt, times.as_slice(), LISTED_AND_STREAM.as_slice());
    Ok(())
}

// Makes a file beside nothing but a root, and names it there: its number, and what is found under the name.
fn make_named(host: &mut MemHost, name: &[u8]) -> Result<(u64, Option<u64>), HostErr>
    requires { IsEmptyStart host.old.view }
    ensures { IfOk result (λ made. IsFile host.new.view.forest made.0) }
{
    let root = host.root()?;
    let file = host.make(NodeKind::File)?;
    host.bind(root, name, file)?;
    let found = host.find(root, name)?;
    Ok((file, found))
}

// Writes some bytes to a file, and reads what comes from the sixth on.
fn write_and_read(host: &mut MemHost, alloc: Global, file: u64) -> Result<Vec<u8>, HostErr>
    requires { IsFile host.old.view.forest file }
{
    let _ = file::write(host, file, b"some bytes")?;
    file::read(host, alloc, file, 5, 16)
}

// The number of a file that is made and named, what is found under its name, and what is read of what was written to
// it.
fn kept(alloc: Global) -> Result<(u64, Option<u64>, Vec<u8>), HostErr> {
    let script = Script {
        words: &[0, 2, 1, 0],
        stream: 5,
        fails: &[],
    };
    let mut host = script.host(alloc)?;
    kept_by(&mut host, alloc)
}

// The same at a host that has nothing but a root.
fn kept_by(host: &mut MemHost, alloc: Global) -> Result<(u64, Option<u64>, Vec<u8>), HostErr>
    requires { IsEmptyStart host.old.view }
{
    let (file, found) = make_named(host, b"hello")?;
    let bytes = write_and_read(host, alloc, file)?;
    Ok((file, found, bytes))
}

#[test]
fn host_keeps_what_was_written(rt: HostRuntime) -> Result<(), HostErr> {
    let (file, found, bytes) = kept(rt.alloc())?;
    same(&rt, (file, found), (2, Some(2)));
    same(&rt, bytes.as_slice(), b"bytes".as_slice());
    Ok(())
}

// Ends the test unless files that the host makes get these numbers.
fn expect_numbers(rt: &impl Abort, host: &mut MemHost, numbers: &[u64]) -> Result<(), HostErr> {
    for number in numbers {
        same(rt, host.make(NodeKind::File)?, *number);
    }
    Ok(())
}

#[test]
fn a_word_chooses_among_16384_numbers(rt: HostRuntime) -> Result<(), HostErr> {
    // The root has 1, so the word that comes round to it gives the next.
    let script = Script {
        words: &[16_383, 16_384, 16_383],
        stream: 0,
        fails: &[],
    };
    let mut host = script.host(rt.alloc())?;
    expect_numbers(&rt, &mut host, &[16_384, 2, 3])
}

const TWO_ORDERS: &[Row] = &[
    InDir(BindItself("one"), Done),
    InDir(BindItself("two"), Done),
    InDir(BindItself("three"), Done),
    InDir(Names(&["two", "three", "one"]), Done),
    InDir(Names(&["one", "two", "three"]), Done),
    Check(Query::Number, Number(1)),
];

const SORTED: &[Row] = &[
    Check(Query::Number, Number(7)),
    InDir(BindItself("b"), Done),
    InDir(BindItself("ab"), Done),
    InDir(BindItself("a"), Done),
    InDir(SortedNames(&["a", "ab", "b"]), Done),
];

// The target of a new link, and why it is not found again.
fn target(alloc: Global) -> Result<(Blob, Option<HostErr>), HostErr> {
    let script = Script {
        words: &[],
        stream: 1,
        fails: &[3],
    };
    let mut host = script.host(alloc)?;
    let target = Blob::new(Vec::from_slice(alloc, b"../etc")?);
    let link = host.make(NodeKind::Link(target))?;
    let found = host.target(link)?;
    let error = host.target(link).err();
    Ok((found, error))
}

#[test]
fn link_keeps_its_target(rt: HostRuntime) -> Result<(), HostErr> {
    let (found, error) = target(rt.alloc())?;
    same(&rt, found.as_slice(), b"../etc".as_slice());
    same(&rt, error, Some(HostErr::Failed));
    Ok(())
}

const CHOSEN: &[Row] = &[
    InFile(Write(b"some bytes"), Done),
    InFile(
        FileCall::Raw,
        Raw(RawStat {
            size: 10,
            device: 7,
            mtime: 8,
            blocks: 9,
        }),
    ),
    Ask(NextStop(&[4, 1, 3]), Count(2)),
    Ask(Clock, Number(11)),
    Ask(Cycles, Number(12)),
    Ask(Random(&[0, 0], &[0xff, 2]), Done),
];

const LISTED: &[Row] = &[
    InDir(Names(&[]), Failed),
    InDir(DirCall::Raw, Failed),
    Ask(NextStop(&[4]), Failed),
    Ask(Clock, Failed),
    Ask(Cycles, Failed),
    Ask(Random(&[3], &[3]), Failed),
    Check(Faults, Number(6)),
    Ask(Clock, Number(21)),
];

const NAMES_LEFT: &[Row] = &[
    InDir(BindItself("one"), Done),
    InDir(BindItself("two"), Done),
    InDir(BindItself("three"), Done),
    InDir(Unbind("one"), Done),
    InDir(Names(&["two", "three"]), Done),
    InDir(Unbind("two"), Failed),
    InDir(Names(&["two", "three"]), Done),
    Check(Query::Number, Number(1)),
];

// Makes a file beside nothing but a root, and lets it go.
fn forget_new(host: &mut MemHost) -> Result<(), HostErr>
    requires { IsEmptyStart host.old.view }
{
    let file = host.make(NodeKind::File)?;
    host.forget(file)
}

// Why a new file doesn't go, if it doesn't, and the number of a file that is made then.
fn made_after(alloc: Global, fails: &[u64]) -> Result<(Option<HostErr>, u64), HostErr> {
    let script = Script {
        words: &[4, 4],
        stream: 1,
        fails,
    };
    let mut host = script.host(alloc)?;
    made_then(&mut host)
}

// The same at a host that has nothing but a root.
fn made_then(host: &mut MemHost) -> Result<(Option<HostErr>, u64), HostErr>
    requires { IsEmptyStart host.old.view }
{
    let error = forget_new(host).err();
    Ok((error, host.make(NodeKind::File)?))
}

#[test]
fn number_is_free_once_its_node_is_gone(rt: HostRuntime) -> Result<(), HostErr> {
    same(&rt, made_after(rt.alloc(), &[])?, (None, 5));
    same(
        &rt,
        made_after(rt.alloc(), &[2])?,
        (Some(HostErr::Failed), 6),
    );
    Ok(())
}

const SIZES: &[Row] = &[
    InFile(Write(b"some bytes"), Done),
    InFile(Cut(4), Done),
    InFile(Cut(6), Done),
    InFile(Cut(2), Failed),
    InFile(Read(8, b"some\0\0"), Done),
];

const TABLES: &[Table] = &[
    (
        "names come in the order of words",
        At::Root,
        Script {
            words: &[4, 7, 9, 3, 2, 5],
            stream: 1,
            fails: &[],
        },
        TWO_ORDERS,
    ),
    (
        "sorted names are in byte order",
        At::Dir,
        Script {
            words: &[6, 1, 1, 0],
            stream: 1,
            fails: &[],
        },
        SORTED,
    ),
    (
        "words choose what the host says",
        At::File,
        Script {
            words: &[5, 9, 7, 8, 9, 5, 11, 12, 0x1ff, 0x302],
            stream: 1,
            fails: &[],
        },
        CHOSEN,
    ),
    (
        "listed calls fail and take no word",
        At::Root,
        Script {
            words: &[21],
            stream: 1,
            fails: &[2, 3, 4, 5, 6, 7],
        },
        LISTED,
    ),
    (
        "names left keep their order",
        At::Root,
        Script {
            words: &[0, 0, 0, 0],
            stream: 1,
            fails: &[12],
        },
        NAMES_LEFT,
    ),
    (
        "file is cut and gets zeros",
        At::File,
        Script {
            words: &[5, 9],
            stream: 1,
            fails: &[5],
        },
        SIZES,
    ),
];

#[test]
fn words_choose_and_listed_calls_fail(rt: HostRuntime) -> Result<(), HostErr> {
    expect_all(&rt, rt.alloc(), TABLES)
}
