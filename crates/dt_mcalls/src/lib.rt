//! The calls by which a process changes its memory: brk(2), mmap(2), munmap(2) and mprotect(2).
#![tactic(auto)]

mod lengths;
mod mapping;
mod program_break;
mod ranges;

pub use mapping::{MAP_KNOWN, MAP_REQUIRED, mmap};
pub use program_break::{Break, brk};
pub use ranges::{mprotect, munmap};
