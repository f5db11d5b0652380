//! The pipes of a container: numbers of its own over the pipes of its host, and transfers at them.
#![tactic(auto)]

mod pipe;
mod pipes;

pub use pipe::{FIRST_PIPE, PIPE_NUMBER_LIMIT, Pipe};
pub use pipes::Pipes;
