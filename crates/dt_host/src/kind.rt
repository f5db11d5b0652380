// The kinds of what a host makes.
use dt_base::{Blob, Device};

/// What a host makes.
#[derive(Debug, Drop)]
pub enum NodeKind {
    /// An empty file.
    File,
    /// A directory without entries.
    Dir,
    /// A pipe that holds nothing.
    Pipe,
    /// A symbolic link with this target.
    Link(Blob),
    /// A device.
    Device(Device),
}
