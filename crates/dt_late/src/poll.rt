// The call that waits for events at descriptors (ppoll(2)).
ghost use Rattle.std.specs.Prelude.{◌≡◌, ◌+◌, ◌*◌, ◌≤◌, ◌==◌, Ok, Err, IfOk, OnErr, MatchResult, IsOk, length};
ghost use Rattle.std.specs.Prelude.{if◌then◌else◌};
ghost use Rattle.dt_fds.specs.Backs.{HasEnds, IsPiped};
ghost use Rattle.dt_host.specs.World.{PipeContents};
ghost use Rattle.dt_space.specs.declared.access.TheConstants.{WRITE};
ghost use Rattle.dt_space.specs.Space.{IsSpace, load};
ghost use Rattle.dt_late.specs.declared.numbers.TheConstants.{POLLFD_SIZE};
ghost use Rattle.dt_late.specs.Poll.{poll_result, polling_due, polling_until, fd_at, events_at, events_found};
ghost use Rattle.dt_late.specs.Poll.{polled_entries, ready_count, is_reached, poll_of_found, poll_until};
ghost use Rattle.dt_late.specs.Poll.{entries_at, timeout_at, due_of_try, ppoll_of};

use crate::due::due_after;
use crate::numbers::{POLLFD_EVENTS, POLLFD_LIMIT, POLLFD_REVENTS, POLLFD_SIZE};
use dt_base::{Answer, Errno, NoMemory, get16, get32, put16};
use dt_callbase::Timespec;
use dt_fds::Files;
use dt_space::{Space, WriteErr};
use dt_virt::Clock;
use std::alloc::Global;

/// What is known of a call of ppoll(2) that waits.
#[derive(Clone, Copy, Debug, PartialEq, Eq)]
pub enum Polling {
    /// None does: the next one begins.
    Idle,
    /// It waits until so many ticks at most.
    Until(u64),
    /// It waits for an event alone.
    Forever,
}

impl Polling {
    /// The ticks at which the call is over also without an event; none exactly where no such call waits.
    pub fn due(self) -> Option<u64>
        ensures { result ≡ polling_due self }
    {
        match self {
            Polling::Until(ticks) => Some(ticks),
            Polling::Idle | Polling::Forever => None,
        }
    }

    // A call waits until so many ticks, or for an event alone.
    fn until(due: Option<u64>) -> Self
        ensures { result ≡ polling_until due }
    {
        match due {
            Some(due) => Polling::Until(due),
            None => Polling::Forever,
        }
    }

    // The due of a try at these ticks.
    fn due_of_try(self, ticks: u64, timeout: Option<u128>) -> Option<u64>
        ensures { result ≡ due_of_try self ticks timeout }
    {
        match self {
            Polling::Idle => match timeout {
                Some(timeout) => Some(due_after(ticks, timeout)),
                None => None,
            },
            Polling::Until(due) => Some(due),
            Polling::Forever => None,
        }
    }
}

// One try of a call: the ticks at which it is made, where its entries stand and how many they are, and when it is over.
#[derive(Clone, Copy, Debug)]
struct Attempt {
    ticks: u64,
    address: u64,
    count: usize,
    due: Option<u64>,
}

// How long a call waits at most: EFAULT where the time can't be read, EINVAL where it is none.
fn timeout_at(space: &Space, address: u64) -> Result<Option<u128>, Errno>
    ensures { result ≡ timeout_at space.now address }
{
    if address == 0 {
        return Ok(None);
    }
    match Timespec::read(space, address) {
        Ok(time) => Ok(Some(time.ticks())),
        Err(errno) => Err(errno),
    }
}

// Whether the ticks are at a due.
fn is_reached(ticks: u64, due: Option<u64>) -> bool
    ensures { result ≡ is_reached ticks due }
{
    match due {
        Some(due) => due <= ticks,
        None => false,
    }
}

// The descriptor of an entry.
fn fd_at(entries: &[u8], index: usize) -> u32
    requires { POLLFD_SIZE * index + POLLFD_SIZE ≤ length entries.now }
    ensures { result ≡ fd_at entries.now index }
{
    get32(entries, POLLFD_SIZE * index).unwrap_or(0)
}

// The events that an entry asks for.
fn events_at(entries: &[u8], index: usize) -> u16
    requires { POLLFD_SIZE * index + POLLFD_SIZE ≤ length entries.now }
    ensures { result ≡ events_at entries.now index }
{
    get16(entries, POLLFD_SIZE * index + POLLFD_EVENTS).unwrap_or(0)
}

// 1 where there are events, to count by.
fn one_if_any(revents: u16) -> u64
    ensures value { result ≡ (if revents == 0 then 0 else 1) }
    ensures most { result ≤ 1 }
{
    if revents == 0 { 0 } else { 1 }
}

// Puts the events that are found into the entries, and answers at how many of these there are some.
fn look_at_all(files: &Files, vpid: u32, entries: &[u8], count: usize, polled: &mut [u8]) -> u64
    requires ends { HasEnds files.now }
    requires whole { length entries.now ≡ POLLFD_SIZE * count }
    requires same { polled.old ≡ entries.now }
    ensures found { (pipes : PipeContents) → IsPiped files.now pipes
        → polled.new ≡ polled_entries (events_found vpid files.now pipes) entries.now count }
    ensures count { (pipes : PipeContents) → IsPiped files.now pipes
        → result ≡ ready_count (events_found vpid files.now pipes) entries.now count }
    ensures whole { length polled.new ≡ length entries.now }
{
    let mut ready = 0;
    for index in 0..count {
        let revents = files.ready(vpid, fd_at(entries, index), events_at(entries, index));
        put16(polled, POLLFD_SIZE * index + POLLFD_REVENTS, revents);
        ready += one_if_any(revents);
    }
    ready
}

// So many entries at an address: EFAULT where they can't be read or may not be written.
fn entries_at(
    alloc: Global,
    space: &Space,
    address: u64,
    count: usize,
) -> Result<Result<Vec<u8>, Errno>, NoMemory>
    requires { count ≤ POLLFD_LIMIT }
    ensures read { IfOk result (λ read. MatchResult read
        (λ entries. entries_at space.now address count ≡ Ok entries.items)
        (λ errno. entries_at space.now address count ≡ Err errno)) }
    ensures whole { IfOk result (λ read. IfOk read (λ entries. length entries.items ≡ POLLFD_SIZE * count)) }
    ensures room { IfOk result (λ read. IfOk read (λ entries. IsOk (load space.now WRITE address (POLLFD_SIZE * count)))) }
{
    let size = POLLFD_SIZE * count;
    let mut entries = vec![in alloc; 0; size]?;
    if space.read_bytes(address, &mut entries).is_err() {
        return Ok(Err(Errno::Fault));
    }
    if space.writable(address, size as u64).is_err() {
        return Ok(Err(Errno::Fault));
    }
    Ok(Ok(entries))
}

// The call is over, and these entries are told, or it waits.
fn answer_poll(
    polling: &mut Polling,
    space: &mut Space,
    attempt: Attempt,
    polled: &[u8],
    ready: u64,
) -> Result<Answer, NoMemory>
    requires { IsOk (load space.old WRITE attempt.address (length polled.now)) }
    ensures called { IfOk result (λ answer.
        poll_of_found attempt.ticks space.old attempt.address attempt.due ready polled.now
        ≡ poll_result space.new polling.new answer) }
    ensures polling_kept { OnErr result (polling.new ≡ polling.old) }
    ensures pages_kept { OnErr result (space.new ≡ space.old) }
    ensures sound { IsSpace space.new }
{
    let _sound = space.pages();
    if ready == 0 && !is_reached(attempt.ticks, attempt.due) {
        *polling = Polling::until(attempt.due);
        return Ok(Answer::Waits);
    }
    match space.write_bytes(attempt.address, polled) {
        Ok(()) => {}
        Err(WriteErr::Miss(_)) => unreachable!(),
        Err(WriteErr::NoMemory) => return Err(NoMemory),
    }
    let _still_sound = space.pages();
    *polling = Polling::Idle;
    Ok(Answer::Value(ready))
}

// Tries the call once.
fn try_poll(
    alloc: Global,
    files: &Files,
    vpid: u32,
    polling: &mut Polling,
    space: &mut Space,
    attempt: Attempt,
) -> Result<Answer, NoMemory>
    requires ends { HasEnds files.now }
    requires few { attempt.count ≤ POLLFD_LIMIT }
    ensures called { (pipes : PipeContents) → IsPiped files.now pipes → IfOk result (λ answer.
        poll_until (events_found vpid files.now pipes) attempt.ticks space.old attempt.address attempt.count attempt.due
        ≡ poll_result space.new polling.new answer) }
    ensures polling_kept { OnErr result (polling.new ≡ polling.old) }
    ensures pages_kept { OnErr result (space.new ≡ space.old) }
    ensures sound { IsSpace space.new }
{
    let _sound = space.pages();
    let entries = match entries_at(alloc, space, attempt.address, attempt.count)? {
        Ok(entries) => entries,
        Err(errno) => {
            *polling = Polling::Idle;
            return Ok(Answer::Refused(errno));
        }
    };
    let mut polled = entries.clone()?;
    let ready = look_at_all(files, vpid, &entries, attempt.count, &mut polled);
    answer_poll(polling, space, attempt, &polled, ready)
}

/// ppoll(2): looks for events at descriptors of a process. Where some are there or its time is over, they are put into
/// the entries, and it answers at how many of these there are some. Else it waits, and is tried again, with the point
/// of time at which its first try let it be over. Its errors are EINVAL (too many entries), EFAULT (the time), EINVAL
/// (no such time), EFAULT (the entries can't be read or written). With a signal mask it is not supported. At want of
/// memory nothing changes.
#[tactic(auto, unfolding(crate::specs::Poll::ppoll_of))]
pub fn ppoll(
    alloc: Global,
    files: &Files,
    clock: &Clock,
    vpid: u32,
    polling: &mut Polling,
    space: &mut Space,
    args: [u64; 6],
) -> Result<Answer, NoMemory>
    requires { HasEnds files.now }
    ensures called { (pipes : PipeContents) → IsPiped files.now pipes → IfOk result (λ answer.
        ppoll_of (events_found vpid files.now pipes) clock.now polling.old space.old args
        ≡ poll_result space.new polling.new answer) }
    ensures polling_kept { OnErr result (polling.new ≡ polling.old) }
    ensures pages_kept { OnErr result (space.new ≡ space.old) }
    ensures sound { IsSpace space.new }
{
    let _sound = space.pages();
    let [entries, count, timeout, mask, ..] = args;
    if mask != 0 {
        return Ok(Answer::Unsupported);
    }
    if count > POLLFD_LIMIT as u64 {
        *polling = Polling::Idle;
        return Ok(Answer::Refused(Errno::Inval));
    }
    let ticks = clock.ticks();
    let timeout = match timeout_at(space, timeout) {
        Ok(timeout) => timeout,
        Err(errno) => {
            *polling = Polling::Idle;
            return Ok(Answer::Refused(errno));
        }
    };
    let attempt = Attempt {
        ticks,
        address: entries,
        count: count as usize,
        due: polling.due_of_try(ticks, timeout),
    };
    try_poll(alloc, files, vpid, polling, space, attempt)
}
