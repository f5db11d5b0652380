//! Paths in a tree (path_resolution(7)).
#![tactic(auto)]

mod names;
mod paths;
mod place;
mod step;

pub use names::ends_in_slash;
pub use paths::walk;
pub use place::{LINK_LIMIT, Last, Place};
