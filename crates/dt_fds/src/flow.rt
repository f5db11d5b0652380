// What a read or a write of a pipe comes to.

/// What a read or a write of a pipe comes to, with the bytes that it has moved in all.
#[derive(Clone, Copy, Debug, PartialEq, Eq)]
pub enum Flow {
    /// It is done.
    Moved(u64),
    /// It has moved some now, and goes on.
    Part(u64),
    /// Nobody reads the pipe: the write is over.
    Broken(u64),
    /// It moved nothing now, and is to be tried again.
    Wait,
}
