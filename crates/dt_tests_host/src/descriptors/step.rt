// What a test does at a scene and asks of it, row by row, and what each is to come to.
use dt_base::Errno;
use dt_fds::{DescKind, Flow};

/// The access mode of a description that is read (O_RDONLY).
pub const RDONLY: u8 = 0;

/// That of one that is written (O_WRONLY).
pub const WRONLY: u8 = 1;

/// That of one that is both (O_RDWR).
pub const RDWR: u8 = 2;

/// A row of a test: what is done or asked, by the process or by its child, and what that is to come to.
#[derive(Clone, Copy)]
pub enum Row {
    /// The process does this.
    Do(Call, Outcome),
    /// The child does it.
    DoInChild(Call, Outcome),
    /// This is asked of the process.
    Check(Query, Outcome),
    /// It is asked of the child.
    CheckInChild(Query, Outcome),
}

/// What a process does.
#[derive(Clone, Copy)]
pub enum Call {
    /// The input is opened again.
    OpenInput,
    /// The input is opened again, 61 times or until that is refused; the count of those opened.
    Fill,
    /// What has this name in the root is opened, which is no link.
    Open(&'static [u8]),
    /// This name is taken out of the root, where it is there, and no directory that has entries.
    Unlink(&'static [u8]),
    /// A descriptor is closed.
    Close(u32),
    /// These descriptors are closed, up to the first that is refused; what that comes to.
    CloseEach(&'static [u32]),
    /// A descriptor is duplicated to the lowest free one from another one on, which is at most the limit (fcntl(2),
    /// F_DUPFD).
    Dup {
        fd: u32,
        from: u32,
    },
    /// The same, and the new descriptor gets the close-on-exec bit (F_DUPFD_CLOEXEC).
    DupCloexec {
        fd: u32,
        from: u32,
    },
    /// A descriptor is duplicated to another one, which is not the same.
    Dup3 {
        old: u32,
        new: u32,
    },
    /// A child gets a table like that of the process; one that was there before ends first. Only the process does this,
    /// and it can't be refused.
    Fork,
    /// The descriptors are closed whose close-on-exec bit is set. It can't be refused.
    Exec,
    /// All descriptors are closed. It can't be refused.
    Exit,
    /// The offset of a descriptor is set, which is of no directory. It can't be refused, and does nothing where the
    /// descriptor is not open.
    Seek {
        fd: u32,
        offset: u64,
    },
    /// A descriptor gets these flags, of O_APPEND and O_NONBLOCK. It can't be refused, and does nothing where the
    /// descriptor is not open.
    SetFlags(u32, u32),
    /// The close-on-exec bit of a descriptor is set or cleared. It can't be refused, and does nothing where the
    /// descriptor is not open.
    SetCloexec(u32, bool),
    /// A pipe is made with these flags.
    Pipe(u32),
    /// A descriptor is read from into a buffer that holds the first of these bytes, and is to hold the others then,
    /// which are as many.
    Read(u32, &'static [u8], &'static [u8]),
    /// These bytes are written to a descriptor.
    Write(u32, &'static [u8]),
    /// The same, of which so many are done.
    WriteRest {
        fd: u32,
        bytes: &'static [u8],
        done: u64,
    },
    /// So many bytes, each of which tells where it stands, are written to a descriptor, of which so many are done.
    WriteLong {
        fd: u32,
        count: usize,
        done: u64,
    },
    /// All that the pipe of a descriptor holds is read, which is to be the bytes of such a write from this one on.
    ReadLong {
        fd: u32,
        from: usize,
    },
    /// The node of a descriptor.
    Stat(u32),
}

/// What is asked of a process, without a call.
#[derive(Clone, Copy)]
pub enum Query {
    /// What a descriptor refers to.
    DescriptionOf(u32),
    /// Where its next read or write goes on.
    OffsetOf(u32),
    /// Which of O_APPEND and O_NONBLOCK it has.
    FlagsOf(u32),
    /// Its close-on-exec bit.
    CloexecOf(u32),
    /// Whether no descriptor is free.
    IsFull,
    /// The two lowest free descriptors.
    TwoFree,
    /// How many bytes the pipe of a descriptor holds.
    Held(u32),
    /// Whether a directory has this inode.
    IsDir(u64),
}

/// What a row comes to.
#[derive(Clone, Copy, Debug, PartialEq, Eq)]
pub enum Outcome {
    /// It is done, and answers nothing.
    Done,
    /// It is refused.
    Refused(Errno),
    /// A descriptor.
    Fd(u32),
    /// The descriptors of the ends of a pipe, or those that they would get: the one that is read from first.
    Ends(u32, u32),
    /// What a read or a write of a pipe comes to.
    Flowed(Flow),
    /// A read left other bytes in its buffer, from this index on.
    WrongBytes { index: usize },
    /// An inode, and the size of its node.
    Node { inode: u64, size: u64 },
    /// What a description is of, and its access mode.
    Description(DescKind, u8),
    /// Where the next read or write goes on.
    Offset(u64),
    /// The flags of a description, of O_APPEND and O_NONBLOCK.
    StatusFlags(u32),
    /// So many.
    Count(usize),
    /// Whether it is so.
    Bool(bool),
    /// There is none.
    Absent,
    /// The call may not be made so, and is not made: the row is a mistake, whatever it wants.
    Misused,
}
