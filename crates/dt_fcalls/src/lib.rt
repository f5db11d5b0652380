//! The calls that open what a path leads to, tell of a node or change what is kept of one, one row each.
#![tactic(auto)]

mod calls;
pub mod modes;
mod nodes;
pub mod open;
pub mod stat;
mod status;

pub use calls::file_call;
pub use nodes::{chdir, faccessat, fchmodat, umask};
pub use open::openat;
pub use status::{fstat, getcwd, newfstatat, readlinkat};
