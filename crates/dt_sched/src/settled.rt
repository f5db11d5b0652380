// What the head of the queue is, and what its turn came to.
use dt_base::Verdict;

/// What can be done next.
#[derive(Clone, Copy, Debug, PartialEq, Eq)]
pub enum Head {
    /// The segment of the head, by its virtual pid, has not arrived.
    NotArrived(u32),
    /// The head, by its virtual pid, can take its turn.
    Ready(u32),
    /// Each live process waits, and its call was tried in vain since anything happened.
    AllWait,
    /// The run is over.
    Over(Verdict),
}

/// What a turn of the head came to.
#[derive(Clone, Copy, Debug, PartialEq, Eq)]
pub enum Settled {
    /// Its stop was served: it lives, and owes its next segment.
    Again,
    /// It lives, owes a segment again, and made a child of this virtual pid.
    Child(u32),
    /// It made a child of this virtual pid, and has ended.
    LastChild(u32),
    /// Its call was blocked, whatever call it is, and is tried again at its next turn.
    Waits,
    /// Its call has moved some bytes and not all, and goes on at its next turn.
    Moved,
    /// It has ended.
    Gone,
    /// It made a call, by its number, that is not supported, and the run is over.
    Stopped(u64),
}
