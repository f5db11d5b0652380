//! The processes of a container: their pids over those of the host, their parents, and the zombies that wait to be
//! reaped.
#![tactic(auto)]

mod error;
mod laws;
mod member;
mod pids;
mod row;

pub use error::ProcErr;
pub use laws::wait_finds_the_lowest;
pub use member::{Member, PID_LIMIT, PROCESS_LIMIT, Reaped};
pub use pids::Pids;
