// Open file descriptions.
ghost use Rattle.std.specs.Prelude.{◌≡◌};
ghost use Rattle.dt_fds.specs.Descriptions.{inode_of, pipe_of, read_pipe, write_pipe};

use dt_base::Blob;

/// How many descriptors a process may have open (getrlimit(2), RLIMIT_NOFILE).
pub const DESCRIPTOR_LIMIT: usize = 64;

/// What an open file description is of.
#[derive(Clone, Copy, Debug, PartialEq, Eq)]
pub enum DescKind {
    /// A file of the tree, by its inode.
    File(u64),
    /// A directory of the tree, by its inode.
    Dir(u64),
    /// A device of the tree, by its inode.
    Device(u64),
    /// The end of a pipe that is read from, by the pipe's number (pipe(2)).
    PipeRead(u32),
    /// The end of a pipe that is written to, by the pipe's number.
    PipeWrite(u32),
    /// The input (standard input at the start).
    Input,
    /// An output stream, by its number: 1 or 2.
    Stream(u8),
}

impl DescKind {
    /// The inode of the file, directory or device.
    pub fn inode(self) -> Option<u64>
        ensures { result ≡ inode_of self }
    {
        match self {
            DescKind::File(n) | DescKind::Dir(n) | DescKind::Device(n) => Some(n),
            DescKind::PipeRead(_)
            | DescKind::PipeWrite(_)
            | DescKind::Input
            | DescKind::Stream(_) => { None }
        }
    }

    /// The number of the pipe of which it is an end.
    pub fn pipe(self) -> Option<u32>
        ensures { result ≡ pipe_of self }
    {
        match self {
            DescKind::PipeRead(q) | DescKind::PipeWrite(q) => Some(q),
            DescKind::File(_)
            | DescKind::Dir(_)
            | DescKind::Device(_)
            | DescKind::Input
            | DescKind::Stream(_) => None,
        }
    }

    /// The number of the pipe of which it is the end that is read from.
    pub fn read_pipe(self) -> Option<u32>
        ensures { result ≡ read_pipe self }
    {
        match self {
            DescKind::PipeRead(q) => Some(q),
            DescKind::File(_)
            | DescKind::Dir(_)
            | DescKind::Device(_)
            | DescKind::PipeWrite(_)
            | DescKind::Input
            | DescKind::Stream(_) => None,
        }
    }

    /// The number of the pipe of which it is the end that is written to.
    pub fn write_pipe(self) -> Option<u32>
        ensures { result ≡ write_pipe self }
    {
        match self {
            DescKind::PipeWrite(q) => Some(q),
            DescKind::File(_)
            | DescKind::Dir(_)
            | DescKind::Device(_)
            | DescKind::PipeRead(_)
            | DescKind::Input
            | DescKind::Stream(_) => None,
        }
    }
}

/// Where the next read, write or listing goes on.
#[derive(Debug, Drop)]
pub enum Spot {
    /// At this offset, in bytes (lseek(2)).
    At(u64),
    /// After this name of a directory, or at the start of its listing (getdents64(2)).
    After(Option<Blob>),
}

/// An open file description (open(2)).
#[derive(Debug, Drop)]
pub struct Desc {
    pub kind: DescKind,
    pub spot: Spot,
    /// The access mode: 0 to read, 1 to write, 2 for both (O_RDONLY, O_WRONLY, O_RDWR).
    pub access: u8,
    /// Whether each write goes to the end of the file (O_APPEND).
    pub append: bool,
    /// Whether calls don't wait (O_NONBLOCK).
    pub nonblock: bool,
}

/// What a descriptor refers to: the description of that number. It may be closed at execve(2) (FD_CLOEXEC).
#[derive(Clone, Copy, Debug)]
pub struct Slot {
    pub number: u64,
    pub cloexec: bool,
}
