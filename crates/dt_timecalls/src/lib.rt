//! The calls that tell the time, let it pass and give random bytes, one row each.
#![tactic(auto)]

mod calls;
pub mod random;
pub mod time;

pub use calls::{is_time_call, time_call};
pub use random::getrandom;
pub use time::{clock_gettime, clock_nanosleep, gettimeofday, nanosleep};
