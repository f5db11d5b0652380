//! Programs: what the start of a run and execve(2) have in common.
#![tactic(auto)]

mod arguments;
pub mod limits;
mod lookup;
mod program;
mod script;
mod word_list;

pub use program::{Program, execve_program, start_program};
