// Two runs of the same words, at hosts that choose otherwise.
ghost use Rattle.std.specs.Prelude.{◌≡◌, IfOk, IsSome, codes};
ghost use Rattle.std.specs.FinMap.{empty, insert};
ghost use Rattle.dt_host.specs.World.{IsEmptyStart};

use crate::expect::same;
use crate::program::{HELLO_INDEX, HELLO_REPORT, RUN_HELLO, hello, strings};
use dt_base::NoMemory;
use dt_host::{Host, NoGate, Sink, Store};
use dt_memhost::{MemHost, MemSink, MemStore, Picker};
use dt_run::{Outside, run_twice};
use std::alloc::Global;
use std::test::Fail;
use std::thread::Threads;
use std::time::Clock;

/// All that a run meets outside, in memory.
pub type InMemory = Outside<MemStore, MemHost, MemSink, MemSink>;

/// A host that holds nothing, sinks, and a store that holds an image of one program, each with the choices of this
/// stream.
pub fn outside(
    alloc: Global,
    stream: u64,
    index: &[u8],
    program: &[u8],
) -> Result<InMemory, NoMemory>
    ensures start { IfOk result (λ met. IsEmptyStart met.host.view) }
    ensures files { IfOk result (λ met. met.store.files
        ≡ insert (insert empty (codes "img/image.json") index.now) (codes "img/hello") program.now) }
{
    let (out, err) = (sink(alloc, stream)?, sink(alloc, stream)?);
    outside_with(alloc, stream, index, program, out, err)
}

/// The same with these sinks.
pub fn outside_with<O: Drop, E: Drop>(
    alloc: Global,
    stream: u64,
    index: &[u8],
    program: &[u8],
    out: O,
    err: E,
) -> Result<Outside<MemStore, MemHost, O, E>, NoMemory>
    ensures start { IfOk result (λ met. IsEmptyStart met.host.view) }
    ensures files { IfOk result (λ met. met.store.files
        ≡ insert (insert empty (codes "img/image.json") index.now) (codes "img/hello") program.now) }
{
    Ok(Outside {
        store: store(alloc, stream, index, program)?,
        host: host(alloc, stream)?,
        out,
        err,
    })
}

/// A store that holds an image of one program, with the choices of this stream.
pub fn store(alloc: Global, stream: u64, index: &[u8], program: &[u8]) -> Result<MemStore, NoMemory>
    ensures { IfOk result (λ store. store.files
        ≡ insert (insert empty (codes "img/image.json") index.now) (codes "img/hello") program.now) }
{
    let mut store = MemStore::new(alloc, Picker::new(Vec::new(alloc), stream), Vec::new(alloc))?;
    store.insert("img/image.json", index)?;
    store.insert("img/hello", program)?;
    Ok(store)
}

/// A host that holds nothing, with the choices of this stream.
pub fn host(alloc: Global, stream: u64) -> Result<MemHost, NoMemory>
    ensures { IfOk result (λ host. IsEmptyStart host.view) }
{
    MemHost::new(alloc, Picker::new(Vec::new(alloc), stream), Vec::new(alloc))
}

/// A sink with the choices of this stream.
pub fn sink(alloc: Global, stream: u64) -> Result<MemSink, NoMemory> {
    let picker = Picker::new(Vec::new(alloc), stream);
    MemSink::new(alloc, picker, Vec::new(alloc), None)
}

// The statuses of two runs of the same words, at hosts that hold nothing and on stores that tell the same files.
fn statuses<
    R: AllocGlobal + Clock + Threads + Sync,
    S: Store,
    H: Host + Send,
    O: Sink + Send,
    E: Sink,
>(
    rt: &R,
    words: &[String],
    first: &mut Outside<S, H, O, E>,
    second: &mut Outside<S, H, O, E>,
) -> (u8, u8)
    requires first { IsEmptyStart (H.view first.old.host) }
    requires second { IsEmptyStart (H.view second.old.host) }
    requires known { IsSome (S.told first.old.store) }
    requires same { S.told second.old.store ≡ S.told first.old.store }
{
    run_twice(rt, words, words, first, second, &NoGate)
}

#[test]
fn two_runs_of_the_same_words_agree(rt: HostRuntime) -> Result<(), Fail> {
    let alloc = rt.alloc();
    let program = hello(alloc)?;
    let words = strings(alloc, RUN_HELLO)?;
    let program = program.as_slice();
    let mut first = outside(alloc, 1, HELLO_INDEX, program)?;
    let mut second = outside(alloc, u64::MAX, HELLO_INDEX, program)?;
    let found = statuses(&rt, &words, &mut first, &mut second);
    same(&rt, found, (0, 0));
    same(&rt, first.out.bytes(), HELLO_REPORT);
    same(&rt, second.out.bytes(), HELLO_REPORT);
    Ok(())
}
