// The walk along a whole path.
ghost use Rattle.std.specs.Prelude.{◌≡◌, ◌++◌, ◌||◌, ◌&&◌, reverse, Err, IfOk, OnErr, IsTrue};
ghost use Rattle.dt_host.specs.declared.error.CallErr.TheVariants.{Host as host_failed};
ghost use Rattle.dt_host.specs.declared.error.HostErr.TheVariants.{NoMemory as no_memory};
ghost use Rattle.dt_host.specs.Asks.{Asks, AsksOr};
ghost use Rattle.dt_host.specs.World.{IsDir};
ghost use Rattle.dt_tree.specs.Table.{Stands, shape_of};
ghost use Rattle.dt_walk.specs.Answer.{IsAnswer};
ghost use Rattle.dt_base.specs.Path.{has_no_nul};
ghost use Rattle.dt_walk.specs.Placed.{IsPlaceIn, IsNamedWell, IsFollowed};
ghost use Rattle.dt_walk.specs.Walk.{is_nil, path_names, ends_in_slash, start_of, walk_of};
ghost use Rattle.dt_walk.specs.inner.Stretch.{stretch_of, goes_on, stretch_end_of};

use crate::names::{ends_in_slash, push_names, start_of};
use crate::place::{LINK_LIMIT, Last, Place};
use crate::step::{Step, take_step};
use dt_base::{Blob, Errno, NoMemory};
use dt_host::{CallErr, Host, HostErr};
use dt_tree::{ROOT, Tree};
use std::alloc::Global;

/// How far a walk came.
#[derive(Debug, Drop)]
pub enum Stretch {
    /// To this place.
    Done(Place),
    /// It was refused.
    Refused(Errno),
    /// To a link that is followed: the names that are left are looked up at this node.
    Follow {
        /// The node.
        at: u64,
        /// Whether the path ends in a slash.
        slash: bool,
    },
}

/// Where a path leads from the directory `start`, or from the root if it begins with `/` (then any directory will do).
/// A link that is its last name is followed unless `last` is `Keep`. The errors are ENOTDIR, ENAMETOOLONG (a name over
/// 255 bytes), ENOENT and ELOOP (more than 40 links), the first that a name of the path meets. How long the path is,
/// is not looked at, and a path without a byte leads to the root: its callers refuse both.
pub fn walk<H: Host>(
    alloc: Global,
    host: &mut H,
    tree: &Tree,
    start: u64,
    path: &[u8],
    last: Last,
) -> Result<Place, CallErr>
    requires stands { Stands tree.now (H.view host.old).forest }
    requires directory { IsDir (shape_of tree.now (H.view host.old).forest) start }
    ensures exact { IsAnswer result
        (walk_of (shape_of tree.now (H.view host.old).forest) start path.now last) }
    ensures place { IfOk result (IsPlaceIn (shape_of tree.now (H.view host.old).forest)) }
    ensures named { IsTrue (has_no_nul path.now) → IfOk result IsNamedWell }
    ensures followed { IfOk result (IsFollowed (shape_of tree.now (H.view host.old).forest) last) }
    ensures asks { AsksOr H.view H.count (host_failed HostErr.Failed) host.old host.new result }
{
    let _before = host.faults();
    let keep = last == Last::Keep;
    let mut at = start_of(start, path);
    let mut slash = ends_in_slash(path);
    let mut names = names_of(alloc, path)?;
    for _i in 0..=LINK_LIMIT {
        match walk_on(alloc, host, tree, at, &mut names, keep, slash)? {
            Stretch::Done(place) => return Ok(place),
            Stretch::Refused(e) => return Err(CallErr::Errno(e)),
            Stretch::Follow {
                at: next,
                slash: ends,
            } => {
                at = next;
                slash = ends;
            }
        }
    }
    Err(CallErr::Errno(Errno::Loop))
}

// The names of a path, the first of which stands last.
fn names_of(alloc: Global, path: &[u8]) -> Result<Vec<Blob>, HostErr>
    ensures names { IfOk result (λ names. reverse names.items ≡ path_names path.now) }
    ensures err { OnErr result (result ≡ Err no_memory) }
{
    let mut names = Vec::new(alloc);
    push_names(alloc, path, &mut names)?;
    Ok(names)
}

// Walks up to the end, or up to a link that is followed. The names that are left are put in their place.
fn walk_on<H: Host>(
    alloc: Global,
    host: &mut H,
    tree: &Tree,
    start: u64,
    names: &mut Vec<Blob>,
    keep: bool,
    slash: bool,
) -> Result<Stretch, HostErr>
    requires { Stands tree.now (H.view host.old).forest }
    ensures ok { IfOk result (λ reached. stretch_end_of reached names.new.items
        ≡ stretch_of (shape_of tree.now (H.view host.old).forest) keep start
        (reverse names.old.items) slash) }
    ensures asks { Asks H.view H.count host.old host.new result }
{
    let mut at = start;
    while let Some(name) = names.pop() {
        match take_step(host, tree, at, name, keep, names.is_empty(), slash)? {
            Step::On(n) => at = n,
            Step::Done(place) => return Ok(Stretch::Done(place)),
            Step::Refused(e) => return Ok(Stretch::Refused(e)),
            Step::Follow(target) => {
                return Ok(follow(alloc, at, target.as_slice(), names, slash)?);
            }
        }
    }
    Ok(Stretch::Done(Place {
        parent: ROOT,
        name: Blob::new(Vec::new(alloc)),
        node: Some(ROOT),
        slash,
    }))
}

// Where a walk goes on at a link with this target, whose names are put before those that are left.
fn follow(
    alloc: Global,
    at: u64,
    target: &[u8],
    names: &mut Vec<Blob>,
    slash: bool,
) -> Result<Stretch, NoMemory>
    ensures { IfOk result (λ reached. stretch_end_of reached names.new.items
        ≡ goes_on (start_of at target.now) (path_names target.now ++ reverse names.old.items)
        (slash || (is_nil names.old.items && ends_in_slash target.now))) }
{
    let ends = slash || (names.is_empty() && ends_in_slash(target));
    push_names(alloc, target, names)?;
    Ok(Stretch::Follow {
        at: start_of(at, target),
        slash: ends,
    })
}
