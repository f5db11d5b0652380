//! A live board between an engine and its workers: 64 places, each for one machine whose segment is to be run.
#![tactic(auto)]

mod board;
mod job;
mod passes;
mod steps;
mod view;
mod work;

pub use board::{Board, Claim, Taken};
pub use job::Job;
pub use passes::{EnginePass, WorkerPass};
pub use view::PLACES;
