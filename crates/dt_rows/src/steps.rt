// Steps with a cache: each of a room of its own.
ghost use Rattle.std.specs.Prelude.{◌≤◌, IfOk};
ghost use Rattle.dt_host.specs.World.{IsEmptyStart};

use crate::expect::{same, same_at};
use crate::program::{HELLO_INDEX, HELLO_REPORT, hello};
use crate::twice::{host, sink, store};
use dt_base::{Command, Image};
use dt_export::read_steps;
use dt_host::{Host, NoGate};
use dt_image::read_image;
use dt_memhost::{MemHost, Picker};
use dt_steps::{CACHE_LIMIT, Cache, run_steps};
use std::alloc::{AllocError, Global};
use std::process::Abort;
use std::test::Fail;
use std::thread::Threads;
use std::time::Clock;

// A file of two steps that are the same: `/hello` leaves the tree as it is.
const TWO_STEPS: &[u8] = b"[{\"args\":[\"/hello\"]},{\"args\":[\"/hello\"]}]";

// An image, and the commands that run on it.
#[derive(Drop)]
struct Listed {
    image: Image,
    commands: Vec<Command>,
}

fn two_steps(alloc: Global) -> Result<Listed, Fail> {
    let program = hello(alloc)?;
    let mut store = store(alloc, 1, HELLO_INDEX, &program)?;
    store.insert("img/steps", TWO_STEPS)?;
    let (image, _input) = read_image(alloc, &mut store, "img", None)?;
    let commands = read_steps(alloc, &mut store, "img", "steps")?;
    Ok(Listed { image, commands })
}

// What is written of both: the number of each, and the report of its run.
fn both(alloc: Global) -> Result<Vec<u8>, AllocError> {
    let mut text = Vec::from_slice(alloc, b"step 1\n")?;
    text.extend_from_slice(HELLO_REPORT)?;
    text.extend_from_slice(b"step 2\n")?;
    text.extend_from_slice(HELLO_REPORT)?;
    Ok(text)
}

// Ends the test unless both steps at this host come to 0, and to what is written of them.
fn expect_both<R: Abort + AllocGlobal + Clock + Threads + Sync>(
    rt: &R,
    listed: &Listed,
    cache: &mut Cache,
    host: &mut MemHost,
) -> Result<(), Fail>
    requires { IsEmptyStart host.old.view }
{
    let mut out = sink(rt.alloc(), 2)?;
    let (image, commands) = (&listed.image, listed.commands.as_slice());
    let status = run_steps(
        rt, cache, image, commands, 0, 1_000, 4, host, &mut out, &NoGate,
    )?;
    same(rt, status, 0);
    same(rt, out.bytes().len(), 316);
    same(rt, out.bytes(), both(rt.alloc())?.as_slice());
    Ok(())
}

// The cache after both steps, which has the one that they are, where it has room for any.
fn cache_of<R: Abort + AllocGlobal + Clock + Threads + Sync>(
    rt: &R,
    listed: &Listed,
    room: usize,
) -> Result<Cache, Fail>
    requires { room ≤ CACHE_LIMIT }
{
    let mut cache = Cache::new(rt.alloc(), room)?;
    let mut host = host(rt.alloc(), 7)?;
    expect_both(rt, listed, &mut cache, &mut host)?;
    same_at(rt, room, cache.steps().len(), room.min(1));
    Ok(cache)
}

// A host whose first two calls fail.
fn failing_host(alloc: Global) -> Result<MemHost, Fail>
    ensures { IfOk result (λ host. IsEmptyStart host.view) }
{
    let fails = vec![in alloc; 1, 2]?;
    Ok(MemHost::new(alloc, Picker::new(Vec::new(alloc), 7), fails)?)
}

#[test]
fn steps_are_the_same_with_each_room(rt: HostRuntime) -> Result<(), Fail> {
    let listed = two_steps(rt.alloc())?;
    cache_of(&rt, &listed, 0)?;
    cache_of(&rt, &listed, 1)?;
    cache_of(&rt, &listed, 64)?;
    Ok(())
}

#[test]
fn a_host_is_not_asked_for_steps_that_are_cached(rt: HostRuntime) -> Result<(), Fail> {
    let listed = two_steps(rt.alloc())?;
    let mut cache = cache_of(&rt, &listed, 1)?;
    let mut host = failing_host(rt.alloc())?;
    expect_both(&rt, &listed, &mut cache, &mut host)?;
    same(&rt, host.faults(), 0);
    same(&rt, host.root().is_err(), true);
    Ok(())
}
