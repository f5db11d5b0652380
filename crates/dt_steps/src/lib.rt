//! Steps: commands that are run one after the other, each on the image of the tree that the one before it left, with a
//! cache of steps that were run before.
#![tactic(auto)]

mod cache;
mod error;
mod input;
mod step;
mod steps;

pub use cache::{CACHE_LIMIT, Cache, CachedStep};
pub use error::StepsErr;
pub use input::StepInput;
pub use steps::run_steps;
