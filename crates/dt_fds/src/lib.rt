//! Open file descriptions, and the tables of descriptors by which processes refer to them.
#![tactic(auto)]

mod calls;
mod changes;
mod desc;
mod descriptors;
mod ends;
mod files;
mod first;
mod flow;
mod pipes;
pub mod poll;

pub use desc::{DESCRIPTOR_LIMIT, Desc, DescKind, Slot, Spot};
pub use descriptors::Descriptors;
pub use ends::Ends;
pub use files::Files;
pub use flow::Flow;
