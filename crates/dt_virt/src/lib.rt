//! Logical time and seeded words: what a guest reads of clocks and of chance, as functions of its own run.
#![tactic(auto)]

mod clock;
mod random;

pub use clock::{Clock, READING_TICKS, TICK_LIMIT};
pub use random::Rand;
