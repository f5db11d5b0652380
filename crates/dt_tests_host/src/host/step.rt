// What a test does at a host and asks of it, row by row, and what each is to come to.
use dt_host::RawStat;

/// A row of a test: what is done or asked, and what that is to come to.
#[derive(Clone, Copy)]
pub enum Row {
    /// The host is asked for something that it chooses.
    Ask(Ask, Outcome),
    /// This is done in the directory.
    InDir(DirCall, Outcome),
    /// This is done with the file.
    InFile(FileCall, Outcome),
    /// This is done with the pipe.
    InPipe(PipeCall, Outcome),
    /// This is looked up, without a call that could fail.
    Check(Query, Outcome),
}

/// What a host chooses, whatever it keeps.
#[derive(Clone, Copy)]
pub enum Ask {
    /// The time of its clock.
    Clock,
    /// The count of its cycles.
    Cycles,
    /// Which of these stops next, of which there is one at least: its index.
    NextStop(&'static [u32]),
    /// A buffer is filled that holds the first of these bytes, and is to hold the others then.
    Random(&'static [u8], &'static [u8]),
}

/// What is done in a directory.
#[derive(Clone, Copy)]
pub enum DirCall {
    /// The directory gets a name in itself, which it doesn't have yet.
    BindItself(&'static str),
    /// A name that it has is taken out of it.
    Unbind(&'static str),
    /// Its entries in the host's order, which are to have these names and all to be of the directory itself.
    Names(&'static [&'static str]),
    /// The same in byte order.
    SortedNames(&'static [&'static str]),
    /// What the host says of it.
    Raw,
}

/// What is done with a file.
#[derive(Clone, Copy)]
pub enum FileCall {
    /// These bytes are written at its start.
    Write(&'static [u8]),
    /// It is cut to this length, or gets zeros up to it.
    Cut(u64),
    /// It is read from its start into a buffer of so many ones, and these bytes are to come.
    Read(usize, &'static [u8]),
    /// What the host says of it.
    Raw,
}

/// What is done with a pipe.
#[derive(Clone, Copy)]
pub enum PipeCall {
    /// These bytes, of which there is one at least and for which there is room, are put into it by one call: how many
    /// were put.
    Put(&'static [u8]),
    /// All of these bytes, for which there is room, are put into it.
    PutAll(&'static [u8]),
    /// At most so many bytes are taken by one call, which are to be these.
    Take(usize, &'static [u8]),
    /// Bytes are taken until there are so many or no more, which are to be these.
    TakeAll(usize, &'static [u8]),
    /// Bytes are taken by one call into a buffer that holds the first of these bytes, and is to hold the others then:
    /// how many came.
    TakeInto(&'static [u8], &'static [u8]),
}

/// What is looked up.
#[derive(Clone, Copy)]
pub enum Query {
    /// The number of what the rows are about.
    Number,
    /// How many calls failed so far.
    Faults,
}

/// What a row comes to.
#[derive(Clone, Copy, Debug, PartialEq, Eq)]
pub enum Outcome {
    /// It is done, and brought what the row says where it says that something comes.
    Done,
    /// The host failed.
    Failed,
    /// What a call that answers a number gave: that of a node, of a pipe, or a pid.
    Number(u64),
    /// So many, or an index.
    Count(usize),
    /// What the host says of a node.
    Raw(RawStat),
    /// Other bytes came than the row says, or were left in a buffer, from this index on.
    WrongBytes { index: usize },
    /// Other names came than the row says, or names of something else.
    WrongNames,
    /// The call may not be made so, and is not made: the row is a mistake, whatever it wants.
    Misused,
}
