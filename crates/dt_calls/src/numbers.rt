//! The first process's file mode mask, and sizes of the structures that calls on processes write.

/// The permission bits that the first process's new nodes are not given (umask(2)).
pub const FIRST_UMASK: u32 = 0o022;

/// The bytes of a `struct rusage` (getrusage(2)).
pub const RUSAGE_SIZE: usize = 144;

/// The bytes of each field of a `struct utsname` (uname(2)).
pub const UTSNAME_FIELD: usize = 65;
