//! Executables: reading an ELF-64 file, and the machine that starts it.
#![tactic(auto)]

mod elf;
mod first_machine;
mod header;
pub mod layout;
mod pages;
mod stack;

pub use elf::{Elf, ElfErr, Segment, read_elf};
pub use first_machine::{StartErr, start};
pub use stack::are_too_many;
