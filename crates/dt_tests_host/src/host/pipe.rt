// What is done with a pipe of a host.
ghost use Rattle.std.specs.Prelude.{◌≡◌, ◌+◌, ◌<◌, ◌≤◌, length, IfOk, IsTrue};
ghost use Rattle.dt_host.specs.World.{IsPipe, pipe_bytes};
ghost use Rattle.dt_tests_host.specs.Subject.{HoldsAtMost};

use super::ask::{brought, count, done, where_equal};
use super::step::{Outcome, PipeCall};
use dt_base::PIPE_LIMIT;
use dt_host::{Host, HostErr, NodeKind, put_whole, take_whole};
use dt_memhost::MemHost;
use std::alloc::Global;

/// A new pipe at the host, by its number.
pub fn make_pipe(host: &mut MemHost) -> Result<u64, HostErr>
    ensures pipe { IfOk result (λ n. IsPipe host.new.view n) }
    ensures empty { IfOk result (λ n. length (pipe_bytes host.new.view n) ≡ 0) }
{
    host.make(NodeKind::Pipe)
}

/// Makes a call with the pipe, which holds at most so many bytes before it and after it.
pub fn make(
    host: &mut MemHost,
    alloc: Global,
    pipe: u64,
    bound: &mut u64,
    call: PipeCall,
) -> Result<Outcome, HostErr>
    requires { HoldsAtMost host.old.view pipe bound.old }
    ensures { HoldsAtMost host.new.view pipe bound.new }
{
    match call {
        PipeCall::Put(bytes) => put_in_room(host, pipe, bound, bytes),
        PipeCall::PutAll(bytes) => put_all_in_room(host, pipe, bound, bytes),
        PipeCall::Take(most, bytes) => brought(take(host, alloc, pipe, most), bytes),
        PipeCall::TakeAll(most, bytes) => brought(take_all(host, alloc, pipe, most), bytes),
        PipeCall::TakeInto(before, after) => take_into(host, alloc, pipe, before, after),
    }
}

// Whether bytes have room beside so many.
fn has_room(bound: u64, bytes: &[u8]) -> bool
    ensures { IsTrue result → bound + length bytes.now ≤ PIPE_LIMIT }
{
    bound <= PIPE_LIMIT && bytes.len() as u64 <= PIPE_LIMIT - bound
}

// Puts bytes into a pipe by one call.
fn put_in_room(
    host: &mut MemHost,
    pipe: u64,
    bound: &mut u64,
    bytes: &[u8],
) -> Result<Outcome, HostErr>
    requires { HoldsAtMost host.old.view pipe bound.old }
    ensures { HoldsAtMost host.new.view pipe bound.new }
{
    if bytes.is_empty() {
        return Ok(Outcome::Misused);
    }
    if !has_room(*bound, bytes) {
        return Ok(Outcome::Misused);
    }
    *bound += bytes.len() as u64;
    count(put(host, pipe, bytes))
}

// Puts all of these bytes into a pipe.
fn put_all_in_room(
    host: &mut MemHost,
    pipe: u64,
    bound: &mut u64,
    bytes: &[u8],
) -> Result<Outcome, HostErr>
    requires { HoldsAtMost host.old.view pipe bound.old }
    ensures { HoldsAtMost host.new.view pipe bound.new }
{
    if !has_room(*bound, bytes) {
        return Ok(Outcome::Misused);
    }
    *bound += bytes.len() as u64;
    done(put_all(host, pipe, bytes))
}

// Puts bytes into a pipe by one call.
fn put(host: &mut MemHost, pipe: u64, bytes: &[u8]) -> Result<usize, HostErr>
    requires pipe { IsPipe host.old.view pipe }
    requires some { 0 < length bytes.now }
    requires fits { length (pipe_bytes host.old.view pipe) + length bytes.now ≤ PIPE_LIMIT }
    ensures pipe { IsPipe host.new.view pipe }
    ensures most { length (pipe_bytes host.new.view pipe) ≤ length (pipe_bytes host.old.view pipe) + length bytes.now }
{
    host.pipe_put(pipe, bytes)
}

// Puts all of these bytes into a pipe.
fn put_all(host: &mut MemHost, pipe: u64, bytes: &[u8]) -> Result<(), HostErr>
    requires pipe { IsPipe host.old.view pipe }
    requires fits { length (pipe_bytes host.old.view pipe) + length bytes.now ≤ PIPE_LIMIT }
    ensures pipe { IsPipe host.new.view pipe }
    ensures most { length (pipe_bytes host.new.view pipe) ≤ length (pipe_bytes host.old.view pipe) + length bytes.now }
{
    put_whole(host, pipe, bytes)
}

// What comes of at most so many bytes by one call.
fn take(host: &mut MemHost, alloc: Global, pipe: u64, most: usize) -> Result<Vec<u8>, HostErr>
    requires { IsPipe host.old.view pipe }
    ensures pipe { IsPipe host.new.view pipe }
    ensures most { length (pipe_bytes host.new.view pipe) ≤ length (pipe_bytes host.old.view pipe) }
{
    let mut buf = Vec::new(alloc);
    buf.resize(most, 0)?;
    let count = host.pipe_take(pipe, &mut buf)?;
    buf.truncate(count);
    Ok(buf)
}

// What comes of at most so many bytes, until there are so many or no more.
fn take_all(host: &mut MemHost, alloc: Global, pipe: u64, most: usize) -> Result<Vec<u8>, HostErr>
    requires { IsPipe host.old.view pipe }
    ensures pipe { IsPipe host.new.view pipe }
    ensures most { length (pipe_bytes host.new.view pipe) ≤ length (pipe_bytes host.old.view pipe) }
{
    let mut buf = Vec::new(alloc);
    buf.resize(most, 0)?;
    let count = take_whole(host, pipe, &mut buf)?;
    buf.truncate(count);
    Ok(buf)
}

// Takes bytes by one call into a buffer that holds the first of these bytes, and is to hold the others then.
fn take_into(
    host: &mut MemHost,
    alloc: Global,
    pipe: u64,
    before: &[u8],
    after: &[u8],
) -> Result<Outcome, HostErr>
    requires { IsPipe host.old.view pipe }
    ensures pipe { IsPipe host.new.view pipe }
    ensures most { length (pipe_bytes host.new.view pipe) ≤ length (pipe_bytes host.old.view pipe) }
{
    let mut buf = Vec::from_slice(alloc, before)?;
    let outcome = count(host.pipe_take(pipe, &mut buf))?;
    Ok(where_equal(outcome, &buf, after))
}
