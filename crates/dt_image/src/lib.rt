//! Images, read from a folder of a store, and the texts of a report.
#![tactic(auto)]

mod blobs;
mod folder;
mod image;
mod index;
mod input;
mod json;
mod lines;
mod order;
mod parents;
mod paths;
mod report;

pub use folder::{bytes_in, name_below, size_in};
pub use image::read_image;
pub use index::is_blob_name;
pub use json::parse;
pub use lines::{device_name, tree_lines};
pub use paths::{TreePath, paths_of};
pub use report::{event_text, events_text, header, verdict_text};
