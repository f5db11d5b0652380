//! The outside in memory: a host, a store and a sink.

mod ask;
mod directory;
mod file;
mod hosts;
mod outputs;
mod pids;
mod pipe;
mod pipes;
mod play;
mod scene;
mod step;
