//! What the program hands to the call that is proved: the files of a folder as a store, and a stream as a sink.
#![tactic(auto)]

mod folder_store;
mod std_sink;

pub use folder_store::FolderStore;
pub use std_sink::StdSink;
