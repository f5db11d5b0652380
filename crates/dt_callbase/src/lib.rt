//! What the calls on files work on, where the paths that they are handed lead, and what their rows have in common.
#![tactic(auto)]

mod filling;
mod fs;
mod modes;
mod places;
mod start;
mod timespec;
pub mod wall_time;

pub use filling::fill;
pub use fs::Fs;
pub use modes::masked_mode;
pub use places::{LastLink, place_at, walk_from};
pub use start::start_of;
pub use timespec::Timespec;
