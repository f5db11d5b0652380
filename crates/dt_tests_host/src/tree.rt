//! The virtual tree and paths in it, over a host in memory.

mod calls;
mod changes;
mod failures;
mod fixture;
mod held;
mod listings;
mod names;
mod nodes;
mod play;
mod reads;
mod row;
mod walks;
