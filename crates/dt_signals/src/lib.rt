//! Signals of one process: what it does about each, which are pending and which are masked, their delivery, and the
//! return from a handler.
#![tactic(auto)]

mod action;
mod delivery;
mod frame;
mod laws;
pub mod numbers;
mod returning;
mod signals;
mod timer;

pub use action::Action;
pub use delivery::{CallState, Delivery, deliver};
pub use laws::{entry_leaves_its_frame, return_gives_back_what_the_entry_kept};
pub use returning::sigreturn;
pub use signals::Sig;
