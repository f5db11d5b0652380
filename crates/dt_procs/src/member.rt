// A process as its kin see it, and what a wait for a child finds.
ghost use Rattle.std.specs.Prelude.{◌≡◌, ◌==◌, ◌&&◌};
ghost use Rattle.std.specs.Option.{is_none};
ghost use Rattle.dt_procs.specs.Members.{newborn, has_pid, is_live, member_after_end, is_asked, is_child, is_ready};
ghost use Rattle.dt_procs.specs.Members.{got_or};

use dt_base::{End, FIRST_PID};

/// How many processes there may be, zombies included.
pub const PROCESS_LIMIT: usize = 64;

/// Pids are below this number, since a pid_t is a signed number of 32 bits.
pub const PID_LIMIT: u32 = 0x8000_0000;

/// A process, by its virtual pid: it lives, or it has ended and is a zombie.
#[derive(Clone, Copy, Debug, PartialEq, Eq)]
pub struct Member {
    pub vpid: u32,
    /// The pid of its parent; 0 at the first process.
    pub parent: u32,
    /// How it ended, if it has.
    pub end: Option<End>,
}

/// What a wait for a child finds.
#[derive(Clone, Copy, Debug, PartialEq, Eq)]
pub enum Reaped {
    /// A child, by its virtual pid, has ended in this way.
    Got(u32, End),
    /// No child has ended.
    NoneReady,
    /// There is no child that could be waited for.
    NoChild,
}

// Whether a process is the one that is asked for, if one is.
fn is_asked(which: Option<u32>, vpid: u32) -> bool
    ensures { result ≡ is_asked which vpid }
{
    match which {
        None => true,
        Some(pid) => vpid == pid,
    }
}

impl Member {
    // A process that lives.
    pub(crate) fn new(vpid: u32, parent: u32) -> Self
        ensures { result ≡ newborn vpid parent }
    {
        Member {
            vpid,
            parent,
            end: None,
        }
    }

    // Whether it is found by this virtual pid, which a zombie keeps until it is reaped.
    pub(crate) fn has_pid(self, vpid: u32) -> bool
        ensures { result ≡ has_pid vpid self }
    {
        self.vpid == vpid
    }

    // Whether it has this pid and has not ended.
    pub(crate) fn is_live(self, vpid: u32) -> bool
        ensures { result ≡ is_live vpid self }
    {
        self.vpid == vpid && self.end.is_none()
    }

    // Whether it is a child of this parent that is asked for.
    pub(crate) fn is_child(self, parent: u32, which: Option<u32>) -> bool
        ensures { result ≡ is_child parent which self }
    {
        self.parent == parent && is_asked(which, self.vpid)
    }

    // Whether it is such a child that has ended.
    pub(crate) fn is_ready(self, parent: u32, which: Option<u32>) -> bool
        ensures { result ≡ is_ready parent which self }
    {
        self.is_child(parent, which) && self.end.is_some()
    }

    // What a wait finds that comes to it first: its end, or else what there is.
    pub(crate) fn found_or(self, rest: Reaped) -> Reaped
        ensures { result ≡ got_or rest self.vpid self.end }
    {
        match self.end {
            None => rest,
            Some(end) => Reaped::Got(self.vpid, end),
        }
    }

    // What the end of a process makes of it: if it is that process, it is a zombie, and if it is a child of that
    // process, the first process becomes its parent.
    pub(crate) fn after_end(self, vpid: u32, end: End) -> Self
        ensures { result ≡ member_after_end vpid end self }
    {
        Member {
            vpid: self.vpid,
            parent: if self.parent == vpid {
                FIRST_PID
            } else {
                self.parent
            },
            end: if self.vpid == vpid {
                Some(end)
            } else {
                self.end
            },
        }
    }
}
