// The numbers of a tree. Code and definitions cite them by name.

/// The root's inode.
pub const ROOT: u64 = 1;

/// The inode of an image's first entry; each later entry has the next one.
pub const FIRST_INODE: u64 = 2;

/// The root's mode.
pub const ROOT_MODE: u32 = 0o755;

/// Nodes of a tree, the root included.
pub const NODE_LIMIT: u64 = 4_096;

/// Names of a tree, those of all its directories together.
pub const NAMES_LIMIT: u64 = 0x8000_0000;

/// What stat(2) gives as the size of a directory.
pub const DIR_SIZE: u64 = 4_096;
