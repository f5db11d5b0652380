//! Workers that run the segments of a list of machines, on threads, a chunk of the list on each.
#![tactic(auto)]

mod slot;
mod workers;

pub use slot::Slot;
pub use workers::run_segments;
