// What a host chooses, whatever it keeps, and what calls come to.
ghost use Rattle.std.specs.Prelude.{◌≡◌};

use super::step::{Ask, Outcome};
use dt_host::{Host, HostErr};
use dt_memhost::MemHost;
use std::alloc::Global;

/// Asks the host.
pub fn answer(host: &mut MemHost, alloc: Global, call: Ask) -> Result<Outcome, HostErr>
    ensures { host.new.view ≡ host.old.view }
{
    match call {
        Ask::Clock => number(host.clock()),
        Ask::Cycles => number(host.cycles()),
        Ask::NextStop(waiting) => next_stop(host, waiting),
        Ask::Random(before, after) => random(host, alloc, before, after),
    }
}

// Asks the host which of those that wait stops next.
fn next_stop(host: &mut MemHost, waiting: &[u32]) -> Result<Outcome, HostErr>
    ensures { host.new.view ≡ host.old.view }
{
    if waiting.is_empty() {
        return Ok(Outcome::Misused);
    }
    count(host.next_stop(waiting))
}

// Fills a buffer that holds the first of these bytes, and is to hold the others then.
fn random(
    host: &mut MemHost,
    alloc: Global,
    before: &[u8],
    after: &[u8],
) -> Result<Outcome, HostErr>
    ensures { host.new.view ≡ host.old.view }
{
    let mut buf = Vec::from_slice(alloc, before)?;
    let outcome = done(host.random(&mut buf))?;
    Ok(where_equal(outcome, &buf, after))
}

/// What a call came to that answers nothing.
pub fn done(answer: Result<(), HostErr>) -> Result<Outcome, HostErr> {
    match answer {
        Ok(()) => Ok(Outcome::Done),
        Err(error) => failed(error),
    }
}

/// The same of one that answers a number.
pub fn number(answer: Result<u64, HostErr>) -> Result<Outcome, HostErr> {
    match answer {
        Ok(number) => Ok(Outcome::Number(number)),
        Err(error) => failed(error),
    }
}

/// The same of one that answers how many.
pub fn count(answer: Result<usize, HostErr>) -> Result<Outcome, HostErr> {
    match answer {
        Ok(count) => Ok(Outcome::Count(count)),
        Err(error) => failed(error),
    }
}

/// The same of one that brings bytes, which are to be these.
pub fn brought(answer: Result<Vec<u8>, HostErr>, bytes: &[u8]) -> Result<Outcome, HostErr> {
    match answer {
        Ok(found) => Ok(where_equal(Outcome::Done, &found, bytes)),
        Err(error) => failed(error),
    }
}

/// What a call came to that failed. Only memory that ran out ends the test.
pub fn failed(error: HostErr) -> Result<Outcome, HostErr> {
    match error {
        HostErr::Failed => Ok(Outcome::Failed),
        HostErr::NoMemory => Err(HostErr::NoMemory),
    }
}

/// This outcome, where the bytes are those that are wanted.
pub fn where_equal(outcome: Outcome, found: &[u8], want: &[u8]) -> Outcome {
    if found == want {
        outcome
    } else {
        Outcome::WrongBytes {
            index: first_difference(found, want),
        }
    }
}

// The first index at which the bytes differ, or at which one of them ends.
fn first_difference(found: &[u8], want: &[u8]) -> usize {
    let length = found.len().min(want.len());
    for index in 0..length {
        if found[index] != want[index] {
            return index;
        }
    }
    length
}
