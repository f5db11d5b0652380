//! The calls that look ahead in logical time: those that set and tell a process's timer, setitimer(2) and getitimer(2), and
//! ppoll(2), which may wait until a point of it.
#![tactic(auto)]

mod due;
mod itimer;
pub mod numbers;
mod poll;

pub use itimer::{Itimerval, Timeval, getitimer, setitimer};
pub use poll::{Polling, ppoll};
