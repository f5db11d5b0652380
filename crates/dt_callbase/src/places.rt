// The places that the paths of a call lead to.
ghost use Rattle.std.specs.Prelude.{◌≡◌, IfOk, IsTrue};
ghost use Rattle.dt_base.specs.Path.{has_no_nul};
ghost use Rattle.dt_host.specs.Asks.{Asks};
ghost use Rattle.dt_host.specs.World.{IsDir};
ghost use Rattle.dt_tree.specs.Table.{Stands, shape_of};
ghost use Rattle.dt_walk.specs.Placed.{IsPlaceIn, IsNamedWell, IsFollowed};
ghost use Rattle.dt_walk.specs.Walk.{walk_of};
ghost use Rattle.dt_callbase.specs.Places.{last_of, place_at};
ghost use Rattle.dt_callbase.specs.Sound.{Sound, stage, scene};

use crate::fs::Fs;
use crate::start::start_of;
use dt_base::{Caller, Errno};
use dt_host::{CallErr, Host, HostErr};
use dt_space::{Space, path_argument};
use dt_tree::Tree;
use dt_walk::{Last, Place, ends_in_slash, walk};
use std::alloc::Global;

/// What becomes of a link that is the last name of a path.
#[derive(Clone, Copy, Debug)]
pub enum LastLink {
    /// It is followed: the call is about what it leads to.
    Follow,
    /// It is not followed.
    Keep,
    /// It is followed where the path ends in a slash.
    KeepWithoutSlash,
}

impl LastLink {
    // What becomes of it in this path.
    fn last_of(self, path: &[u8]) -> Last
        ensures { result ≡ last_of self path.now }
    {
        match self {
            LastLink::Follow => Last::Follow,
            LastLink::Keep => Last::Keep,
            LastLink::KeepWithoutSlash if ends_in_slash(path) => Last::Follow,
            LastLink::KeepWithoutSlash => Last::Keep,
        }
    }
}

/// The place of the path at an address.
#[tactic(auto, unfolding(crate::specs::Places::place_at))]
pub fn place_at<H: Host>(
    alloc: Global,
    fs: &Fs,
    host: &mut H,
    caller: &Caller,
    space: &Space,
    dirfd: u64,
    address: u64,
    rule: LastLink,
) -> Result<Result<Place, Errno>, HostErr>
    requires { Sound (stage fs.now (H.view host.old) caller.now space.now) }
    ensures place { IfOk result (λ found. found
        ≡ place_at (scene (stage fs.now (H.view host.old) caller.now space.now)) dirfd address rule) }
    ensures fits { IfOk result (λ found.
        IfOk found (IsPlaceIn (shape_of fs.now.tree (H.view host.old).forest))) }
    ensures named { IfOk result (λ found. IfOk found IsNamedWell) }
    ensures followed { IfOk result (λ found. IfOk found
        (λ place. rule ≡ LastLink.Follow
        → IsFollowed (shape_of fs.now.tree (H.view host.old).forest) Last.Follow place)) }
    ensures asks { Asks H.view H.count host.old host.new result }
{
    let _before = host.faults();
    match path_argument(space, address)? {
        Ok(path) => match start_of(fs, host, caller, space, dirfd, path.as_slice()) {
            Ok(start) => walk_from(alloc, &fs.tree, host, start, path.as_slice(), rule),
            Err(errno) => Ok(Err(errno)),
        },
        Err(errno) => Ok(Err(errno)),
    }
}

/// The place of a path from a directory.
pub fn walk_from<H: Host>(
    alloc: Global,
    tree: &Tree,
    host: &mut H,
    start: u64,
    path: &[u8],
    rule: LastLink,
) -> Result<Result<Place, Errno>, HostErr>
    requires stands { Stands tree.now (H.view host.old).forest }
    requires directory { IsDir (shape_of tree.now (H.view host.old).forest) start }
    requires no_nul { IsTrue (has_no_nul path.now) }
    ensures place { IfOk result (λ found. found
        ≡ walk_of (shape_of tree.now (H.view host.old).forest) start path.now (last_of rule path.now)) }
    ensures fits { IfOk result (λ found.
        IfOk found (IsPlaceIn (shape_of tree.now (H.view host.old).forest))) }
    ensures named { IfOk result (λ found. IfOk found IsNamedWell) }
    ensures followed { IfOk result (λ found. IfOk found
        (λ place. rule ≡ LastLink.Follow
        → IsFollowed (shape_of tree.now (H.view host.old).forest) Last.Follow place)) }
    ensures asks { Asks H.view H.count host.old host.new result }
{
    match walk(alloc, host, tree, start, path, rule.last_of(path)) {
        Ok(place) => Ok(Ok(place)),
        Err(CallErr::Errno(errno)) => Ok(Err(errno)),
        Err(CallErr::Host(e)) => Err(e),
    }
}
