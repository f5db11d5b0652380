// A process as the queue knows it.

/// Where a live process stands between its turns, with what is known of a segment that was run. The queue knows its
/// count of steps; the definition of a run also knows why it stopped.
#[derive(Clone, Copy, Debug)]
pub enum Phase<S> {
    /// It owes a segment.
    Owes,
    /// Its segment was run.
    Ran(S),
    /// Its call is tried again, without a segment.
    Waits,
}

/// A live process, by its virtual pid.
#[derive(Clone, Copy, Debug)]
pub struct Process {
    pub vpid: u32,
    pub phase: Phase<u32>,
}
