//! The outside of dettrace: host, store, sink and gate, and whole transfers over calls that move a part.
#![tactic(auto)]

mod entry;
mod error;
mod gate;
mod gathering;
mod host;
mod kind;
mod names;
mod pipe;
mod raw;
mod sink;
mod store;
mod whole;

pub use entry::HostEntry;
pub use error::{CallErr, HostErr, SinkErr, StoreErr};
pub use gate::{Gate, NoGate};
pub use gathering::VecSink;
pub use host::Host;
pub use kind::NodeKind;
pub use names::sorted_names;
pub use pipe::{put_whole, take_whole};
pub use raw::RawStat;
pub use sink::Sink;
pub use store::Store;
pub use whole::{read_whole, sink_all, store_whole, write_whole};
