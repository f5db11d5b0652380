//! The queue of live processes: whose turn it is, what turns cost, and when a run is over.
#![tactic(auto)]

mod process;
mod queue;
mod schedule;
mod settled;

pub use queue::QUEUE_LIMIT;
pub use schedule::{
    Core, arrival_goes_beside_a_turn, arrivals_commute, head_stays_at_another_arrival,
};
pub use settled::{Head, Settled};
