//! The calls that make, add, take away and move names, one row each.
#![tactic(auto)]

mod calls;
mod link;
pub mod names;
mod rename;
mod unlink;

pub use calls::{is_naming, name_call};
pub use link::linkat;
pub use names::{mkdirat, symlinkat};
pub use rename::renameat2;
pub use unlink::unlinkat;
