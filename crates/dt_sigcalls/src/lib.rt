//! The calls by which a process changes what it does about signals: rt_sigaction(2) and rt_sigprocmask(2).
#![tactic(auto)]

mod actions;
mod buffers;
mod masks;
pub mod numbers;

pub use actions::rt_sigaction;
pub use masks::rt_sigprocmask;
