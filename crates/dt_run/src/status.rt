//! The exit statuses of the program.

pub use dt_engine::status::{ENDED_OTHERWISE, ENDED_ZERO, NOT_ENDED};

/// The words of the command line ask for no run, and none was made.
pub const WORDS_REFUSED: u8 = 2;

/// Something is wrong with the image, and no run was made.
pub const IMAGE_REFUSED: u8 = 3;

/// The store failed.
pub const STORE_FAULT: u8 = 4;

/// The host failed.
pub const HOST_FAULT: u8 = 5;

/// The sink of the report failed.
pub const OUTPUT_FAULT: u8 = 6;

/// Memory ran out.
pub const OUT_OF_MEMORY: u8 = 7;

/// The export is refused, and nothing was put; or between two steps the tree has no image.
pub const EXPORT_REFUSED: u8 = 8;
