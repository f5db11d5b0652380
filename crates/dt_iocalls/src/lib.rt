//! The calls on open files, one row each: on descriptors themselves, and what they read, write and list.
#![tactic(auto)]

mod calls;
mod descriptors;
pub mod entries;
mod offsets;
mod piping;
pub mod ranges;
mod reading;
mod seeking;
mod writing;

pub use calls::{io_call, is_io};
pub use descriptors::{close, dup, dup3, fcntl, ioctl};
pub use entries::getdents64;
pub use piping::pipe2;
pub use reading::{pread64, read, readv};
pub use seeking::lseek;
pub use writing::{ftruncate, pwrite64, write, writev};
