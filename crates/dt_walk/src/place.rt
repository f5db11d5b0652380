// Where a path leads.
ghost use Rattle.std.specs.Prelude.{◌≡◌};
ghost use Rattle.dt_walk.specs.Walk.{is_nil};
ghost use Rattle.dt_walk.specs.Placed.{is_dot, is_dot_dot, is_special};

use dt_base::Blob;

/// Links that one walk follows.
pub const LINK_LIMIT: u32 = 40;

/// Whether a link that is a path's last name is followed.
#[derive(Clone, Copy, Debug, PartialEq, Eq)]
pub enum Last {
    /// It is.
    Follow,
    /// The place is the link itself.
    Keep,
}

/// Where a path leads: the directory in which its last name was looked up, that name, what stands there,
/// and whether the path ends in a slash. Where the last name is a link that was followed, directory and name are its
/// target's, and a slash at the target's end counts.
/// A path without names has the empty name, and the root as parent and node.
#[derive(Debug, Drop)]
pub struct Place {
    pub parent: u64,
    pub name: Blob,
    pub node: Option<u64>,
    pub slash: bool,
}

impl Place {
    /// Whether the name is one that no entry can have: `.`, `..`, or the empty one of a path without names.
    pub fn is_special(&self) -> bool
        ensures { result ≡ is_special self.now.name }
    {
        self.is_empty_name() || self.is_dot() || self.is_dot_dot()
    }

    /// Whether the name is `.`.
    pub fn is_dot(&self) -> bool
        ensures { result ≡ is_dot self.now.name }
    {
        self.name.as_slice() == b".".as_slice()
    }

    /// Whether the name is `..`.
    pub fn is_dot_dot(&self) -> bool
        ensures { result ≡ is_dot_dot self.now.name }
    {
        self.name.as_slice() == b"..".as_slice()
    }

    /// Whether the name is empty: the path has no names, and leads to the root.
    pub fn is_empty_name(&self) -> bool
        ensures { result ≡ is_nil self.now.name }
    {
        self.name.is_empty()
    }
}
