//! A container: what processes share and each has of its own beside its machine, the start of a program, and the
//! system calls.
#![tactic(auto)]

mod at_home;
mod call;
mod container;
mod delivery;
mod ending;
pub mod numbers;
mod settling;
mod shared;
mod task;
mod timers;

pub use container::{Container, Launch, Served};
