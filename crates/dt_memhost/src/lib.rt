//! Host, store and sink in memory. They choose by words, and fail at the calls that are listed.
#![tactic(auto)]

mod dir;
mod entry_tree;
mod forest;
mod host;
mod node;
mod nodes;
mod number;
mod order;
mod picker;
mod pids;
mod pipe;
mod script;
mod sink;
mod store;
mod transfer;

pub use host::MemHost;
pub use number::{INODE_NUMBERS, PID_NUMBERS};
pub use picker::Picker;
pub use sink::MemSink;
pub use store::MemStore;
