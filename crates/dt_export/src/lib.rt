//! The export of a file tree: the image that it is, and the files that say so in a folder. And the steps of a run of
//! several commands, read from a folder.
#![tactic(auto)]

mod folder;
mod image;
mod index;
mod limits;
mod prepare;
mod refusal;
mod steps;

pub use folder::has_index;
pub use image::image_of_tree;
pub use index::index_text;
pub use prepare::{Export, prepare_export};
pub use refusal::{ExportErr, ExportRefusal};
pub use steps::{STEP_LIMIT, read_steps};
