//! The virtual tree: files, directories and links under inodes of its own, which stands for the nodes of a host.
#![tactic(auto)]

mod above;
mod clear;
mod hold;
mod inode;
mod inodes;
mod install;
mod limits;
mod list;
mod look;
mod make;
mod meta;
mod read;
mod rename;
mod start;
mod steps;
mod tree;
mod unlink;
mod write;

pub use limits::{DIR_SIZE, FIRST_INODE, NAMES_LIMIT, NODE_LIMIT, ROOT, ROOT_MODE};
pub use list::Listed;
pub use meta::Meta;
pub use tree::Tree;
