//! What poll(2) finds at a descriptor.
ghost use Rattle.std.specs.Prelude.{◌≡◌, IfSome, IsSome};
ghost use Rattle.std.specs.FinMap.{get};
ghost use Rattle.dt_base.specs.Abi.{has_flag};
ghost use Rattle.dt_host.specs.World.{PipeContents};
ghost use Rattle.dt_fds.specs.Backs.{HasEnds, IsPiped};
ghost use Rattle.dt_fds.specs.Descriptions.{pipe_of};
ghost use Rattle.dt_fds.specs.Ends.{one_if};
ghost use Rattle.dt_fds.specs.OpenFiles.{pipes_at};
ghost use Rattle.dt_fds.specs.Ready.{read_end_events, write_end_events, unfailing_events, events_of_kind, is_negative};
ghost use Rattle.dt_fds.specs.Ready.{ready_events};

use crate::desc::DescKind;
use crate::files::Files;
use dt_base::{PIPE_BUF, PIPE_LIMIT};

/// There is something to read (poll(2)).
pub const POLLIN: u16 = 1;

/// A write does not wait (poll(2)).
pub const POLLOUT: u16 = 4;

/// Nobody reads what is written; it is told unasked (poll(2)).
pub const POLLERR: u16 = 8;

/// Nobody writes any more; it is told unasked (poll(2)).
pub const POLLHUP: u16 = 0x10;

/// The descriptor is not open; it is told unasked (poll(2)).
pub const POLLNVAL: u16 = 0x20;

// The lowest number of 32 bits that stands for a negative one.
const LOWEST_NEGATIVE: u32 = 0x8000_0000;

impl Files {
    /// Which events poll(2) finds at a descriptor of a process: of those that are asked for, and those that it tells
    /// unasked. Nothing at a descriptor below 0.
    #[tactic(auto, unfolding(crate::specs::Ready::ready_events))]
    pub fn ready(&self, pid: u32, fd: u32, events: u16) -> u16
        requires { HasEnds self.now }
        ensures { (pipes : PipeContents) → IsPiped self.now pipes
            → result ≡ ready_events pid fd events self.now.descriptors (pipes_at self.now pipes) }
    {
        if is_negative(fd) {
            return 0;
        }
        match self.look(pid, fd) {
            Some(desc) => self.ready_kind(desc.kind, events),
            None => POLLNVAL,
        }
    }

    // Which events there are at a description of this kind.
    fn ready_kind(&self, kind: DescKind, events: u16) -> u16
        requires { IfSome (pipe_of kind) (λ q. IsSome (get self.now.pipes.pipes q)) }
        ensures { (pipes : PipeContents) → IsPiped self.now pipes
            → result ≡ events_of_kind events self.now.descriptors (pipes_at self.now pipes) kind }
    {
        match kind {
            DescKind::PipeRead(q) => self.ready_to_read(q, events),
            DescKind::PipeWrite(q) => self.ready_to_write(q, events),
            DescKind::File(_)
            | DescKind::Dir(_)
            | DescKind::Device(_)
            | DescKind::Input
            | DescKind::Stream(_) => unfailing_events(events),
        }
    }

    // Which events there are at the end of a pipe that is read from.
    fn ready_to_read(&self, q: u32, events: u16) -> u16
        requires { IsSome (get self.now.pipes.pipes q) }
        ensures { (pipes : PipeContents) → IsPiped self.now pipes
            → result ≡ events_of_kind events self.now.descriptors (pipes_at self.now pipes) (DescKind.PipeRead q) }
    {
        read_end_events(events, self.pipes.held(q), self.is_written(q))
    }

    // Which events there are at the end of a pipe that is written to.
    fn ready_to_write(&self, q: u32, events: u16) -> u16
        requires { IsSome (get self.now.pipes.pipes q) }
        ensures { (pipes : PipeContents) → IsPiped self.now pipes
            → result ≡ events_of_kind events self.now.descriptors (pipes_at self.now pipes) (DescKind.PipeWrite q) }
    {
        write_end_events(events, self.pipes.held(q), self.is_read(q))
    }
}

// Whether a descriptor is below 0.
fn is_negative(fd: u32) -> bool
    ensures { result ≡ is_negative fd }
{
    LOWEST_NEGATIVE <= fd
}

// Whether an event is asked for.
fn asks(events: u16, event: u16) -> bool
    ensures { result ≡ has_flag events event }
{
    events & event == event
}

// The events at the end of a pipe that is read from, which holds so many bytes.
fn read_end_events(events: u16, held: usize, written: bool) -> u16
    ensures { result ≡ read_end_events events held (one_if written) }
{
    let readable = if asks(events, POLLIN) && held != 0 {
        POLLIN
    } else {
        0
    };
    let closed = if written { 0 } else { POLLHUP };
    readable | closed
}

// The events at the end of a pipe that is written to, which holds so many bytes.
fn write_end_events(events: u16, held: usize, read: bool) -> u16
    ensures { result ≡ write_end_events events held (one_if read) }
{
    let room = PIPE_LIMIT.saturating_sub(held as u64);
    let writable = if asks(events, POLLOUT) && PIPE_BUF <= room {
        POLLOUT
    } else {
        0
    };
    let broken = if read { 0 } else { POLLERR };
    writable | broken
}

// The events at what no call waits for.
fn unfailing_events(events: u16) -> u16
    ensures { result ≡ unfailing_events events }
{
    let readable = if asks(events, POLLIN) { POLLIN } else { 0 };
    let writable = if asks(events, POLLOUT) { POLLOUT } else { 0 };
    readable | writable
}
