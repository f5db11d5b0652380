//! Open file descriptions over the virtual tree and a host in memory.

mod files;
mod given;
mod image;
mod nodes;
mod pipes;
mod play;
mod scene;
mod sharing;
mod step;
