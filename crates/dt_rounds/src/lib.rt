//! Who runs the segments of a run, and when its turns are taken.
//!
//! Where several processes compute, a round puts the machine of each that owes a segment on a board. Workers claim the
//! machines there and run their segments, and turns are taken beside them. What is taken from the board counts only where it
//! came of the copy that was kept, so the report is the run's whatever the workers did.
#![tactic(auto)]

mod crew;
mod desk;
mod lent;
mod live;
mod onward;
mod pace;
mod round;
mod run;
mod runner;

pub use run::{Ended, run_to_end};
