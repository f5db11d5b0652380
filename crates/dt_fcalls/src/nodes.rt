// The calls that look at a node, or change what is kept of one.
ghost use Rattle.std.specs.Prelude.{◌≡◌, ◌≤◌, IfOk, OnOk, IsErrOf, false};
ghost use Rattle.dt_base.specs.Abi.{low_word};
ghost use Rattle.dt_base.specs.declared.abi.TheConstants.{CWD_DIRFD as FROM_CWD};
ghost use Rattle.dt_base.specs.declared.limits.TheConstants.{MODE_LIMIT as MOST};
ghost use Rattle.dt_host.specs.Cause.{HasCause};
ghost use Rattle.dt_host.specs.World.{IsDir, IsLive, OnlyForest};
ghost use Rattle.dt_tree.specs.Changes.{tree_after_hold, tree_after_release};
ghost use Rattle.dt_tree.specs.FileTree.{holds_of};
ghost use Rattle.dt_tree.specs.Shape.{is_link};
ghost use Rattle.dt_tree.specs.Table.{Stands, shape_of, tree_of};
ghost use Rattle.dt_walk.specs.declared.place.Last.TheVariants.{Follow as followed};
ghost use Rattle.dt_walk.specs.Placed.{IsPlaceIn, IsFollowed};
ghost use Rattle.dt_callbase.specs.Arguments.{argument};
ghost use Rattle.dt_fcalls.specs.Nodes.{umask_row, faccessat_row, chmod_reply, fchmodat_row, cwd_reply, chdir_row};
ghost use Rattle.dt_callbase.specs.Places.{place_at};
ghost use Rattle.dt_callbase.specs.Scene.{Scene};
ghost use Rattle.dt_callbase.specs.Sound.{Sound, HasRowReply, HasReplyOf, stage, scene};

use crate::modes::PERMISSIONS;
use dt_base::abi::{ACCESS_ALL, CWD_DIRFD, low_word};
use dt_base::{Answer, Caller, Errno, MODE_LIMIT};
use dt_callbase::{Fs, LastLink, place_at};
use dt_host::{Host, HostErr};
use dt_space::Space;
use dt_tree::Tree;
use dt_walk::Place;
use std::alloc::Global;

/// umask(2): sets the mask of new nodes, and answers the old one.
#[tactic(auto, unfolding(crate::specs::Nodes::umask_row))]
pub fn umask(caller: &mut Caller, args: [u64; 6]) -> Answer
    ensures row { (s : Scene) → s.caller ≡ caller.old
        → umask_row args s ≡ record { next = record s { caller = caller.new }; answer = result } }
    ensures cwd { caller.new.cwd ≡ caller.old.cwd }
    ensures vpid { caller.new.vpid ≡ caller.old.vpid }
{
    let old = caller.umask;
    caller.umask = low_word(args[0]) & PERMISSIONS;
    Answer::Value(u64::from(old))
}

/// faccessat(2): whether a path leads to a node. All may be done with one that is there, so the answer is 0. The
/// errors are EINVAL (the mode is over 7), those of the path, and ENOENT.
#[tactic(auto, unfolding(crate::specs::Nodes::faccessat_row), using(crate::proofs::Kept::after_asking))]
pub fn faccessat<H: Host>(
    alloc: Global,
    fs: &Fs,
    host: &mut H,
    caller: &Caller,
    space: &Space,
    args: [u64; 6],
) -> Result<Answer, HostErr>
    requires { Sound (stage fs.now (H.view host.old) caller.now space.now) }
    ensures { HasRowReply faccessat_row args (stage fs.now (H.view host.old) caller.now space.now)
        (stage fs.now (H.view host.new) caller.now space.now) result
        (H.count host.old) (H.count host.new) }
{
    let _before = host.faults();
    if low_word(args[2]) > ACCESS_ALL {
        return Ok(Answer::Refused(Errno::Inval));
    }
    let found = place_at(
        alloc,
        fs,
        host,
        caller,
        space,
        args[0],
        args[1],
        LastLink::Follow,
    )?;
    access(fs, host, caller, space, args, found)
}

// Tells whether there is a node at the place of a path.
#[tactic(auto, unfolding(crate::specs::Nodes::faccessat_row))]
fn access<H: Host>(
    fs: &Fs,
    host: &H,
    caller: &Caller,
    space: &Space,
    args: [u64; 6],
    found: Result<Place, Errno>,
) -> Result<Answer, HostErr>
    requires sound { Sound (stage fs.now (H.view host.now) caller.now space.now) }
    requires known { low_word (argument args 2) ≤ ACCESS_ALL }
    requires found { found ≡ place_at (scene (stage fs.now (H.view host.now) caller.now space.now))
        (argument args 0) (argument args 1) LastLink.Follow }
    ensures { HasRowReply faccessat_row args (stage fs.now (H.view host.now) caller.now space.now)
        (stage fs.now (H.view host.now) caller.now space.now) result
        (H.count host.now) (H.count host.now) }
{
    match found {
        Ok(place) if place.node.is_some() => Ok(Answer::Value(0)),
        Ok(_) => Ok(Answer::Refused(Errno::NoEnt)),
        Err(errno) => Ok(Answer::Refused(errno)),
    }
}

/// fchmodat(2): gives the node that a path leads to the low 12 bits of the mode, which takes no time, and answers 0.
/// The errors are those of the path, and ENOENT.
#[tactic(auto, using(crate::proofs::Kept::after_asking))]
pub fn fchmodat<H: Host>(
    alloc: Global,
    fs: &mut Fs,
    host: &mut H,
    caller: &Caller,
    space: &Space,
    args: [u64; 6],
) -> Result<Answer, HostErr>
    requires { Sound (stage fs.old (H.view host.old) caller.now space.now) }
    ensures { HasRowReply fchmodat_row args (stage fs.old (H.view host.old) caller.now space.now)
        (stage fs.new (H.view host.new) caller.now space.now) result
        (H.count host.old) (H.count host.new) }
{
    let found = place_at(
        alloc,
        fs,
        host,
        caller,
        space,
        args[0],
        args[1],
        LastLink::Follow,
    )?;
    change_mode(fs, host, caller, space, args, found)
}

// Gives the node at the place of a path another mode.
#[tactic(auto, unfolding(crate::specs::Nodes::fchmodat_row), using(crate::proofs::Kept::in_other_words))]
fn change_mode<H: Host>(
    fs: &mut Fs,
    host: &H,
    caller: &Caller,
    space: &Space,
    args: [u64; 6],
    found: Result<Place, Errno>,
) -> Result<Answer, HostErr>
    requires sound { Sound (stage fs.old (H.view host.now) caller.now space.now) }
    requires found { found ≡ place_at (scene (stage fs.old (H.view host.now) caller.now space.now))
        (argument args 0) (argument args 1) LastLink.Follow }
    requires place { IfOk found (IsPlaceIn (shape_of fs.old.tree (H.view host.now).forest)) }
    requires followed { IfOk found (IsFollowed (shape_of fs.old.tree (H.view host.now).forest) followed) }
    ensures { HasRowReply fchmodat_row args (stage fs.old (H.view host.now) caller.now space.now)
        (stage fs.new (H.view host.now) caller.now space.now) result
        (H.count host.now) (H.count host.now) }
{
    let place = match found {
        Ok(place) => place,
        Err(errno) => return Ok(Answer::Refused(errno)),
    };
    let Some(n) = place.node else {
        return Ok(Answer::Refused(Errno::NoEnt));
    };
    set_mode(fs, host, caller, space, low_word(args[2]) & MODE_LIMIT, n)
}

// Gives a node another mode.
#[tactic(auto, using(crate::proofs::Kept::kept))]
fn set_mode<H: Host>(
    fs: &mut Fs,
    host: &H,
    caller: &Caller,
    space: &Space,
    mode: u32,
    n: u64,
) -> Result<Answer, HostErr>
    requires sound { Sound (stage fs.old (H.view host.now) caller.now space.now) }
    requires live { IsLive (shape_of fs.old.tree (H.view host.now).forest) n }
    requires no_link { is_link (shape_of fs.old.tree (H.view host.now).forest) n ≡ false }
    requires mode { mode ≤ MOST }
    ensures { HasReplyOf (chmod_reply mode n) (stage fs.old (H.view host.now) caller.now space.now)
        (stage fs.new (H.view host.now) caller.now space.now) result
        (H.count host.now) (H.count host.now) }
{
    fs.tree.set_mode(host, n, mode);
    Ok(Answer::Value(0))
}

/// chdir(2): makes the directory that a path leads to the working directory, and answers 0. It is held from then on,
/// and the old one no more. The errors are those of the path, ENOENT, and ENOTDIR.
#[tactic(auto, using(crate::proofs::Kept::after_asking))]
pub fn chdir<H: Host>(
    alloc: Global,
    fs: &mut Fs,
    host: &mut H,
    caller: &mut Caller,
    space: &Space,
    args: [u64; 6],
) -> Result<Answer, HostErr>
    requires { Sound (stage fs.old (H.view host.old) caller.old space.now) }
    ensures { HasRowReply chdir_row args (stage fs.old (H.view host.old) caller.old space.now)
        (stage fs.new (H.view host.new) caller.new space.now) result
        (H.count host.old) (H.count host.new) }
{
    let found = place_at(
        alloc,
        fs,
        host,
        caller,
        space,
        CWD_DIRFD,
        args[0],
        LastLink::Follow,
    )?;
    enter_dir(fs, host, caller, space, args, found)
}

// Makes the directory at the place of a path the working directory.
#[tactic(auto, unfolding(crate::specs::Nodes::chdir_row), using(crate::proofs::Kept::in_other_words))]
fn enter_dir<H: Host>(
    fs: &mut Fs,
    host: &mut H,
    caller: &mut Caller,
    space: &Space,
    args: [u64; 6],
    found: Result<Place, Errno>,
) -> Result<Answer, HostErr>
    requires sound { Sound (stage fs.old (H.view host.old) caller.old space.now) }
    requires found { found ≡ place_at (scene (stage fs.old (H.view host.old) caller.old space.now))
        FROM_CWD (argument args 0) LastLink.Follow }
    ensures { HasRowReply chdir_row args (stage fs.old (H.view host.old) caller.old space.now)
        (stage fs.new (H.view host.new) caller.new space.now) result
        (H.count host.old) (H.count host.new) }
{
    let _before = host.faults();
    let place = match found {
        Ok(place) => place,
        Err(errno) => return Ok(Answer::Refused(errno)),
    };
    let Some(n) = place.node else {
        return Ok(Answer::Refused(Errno::NoEnt));
    };
    if !fs.tree.is_dir(n) {
        return Ok(Answer::Refused(Errno::NotDir));
    }
    set_cwd(fs, host, caller, space, n)
}

// Makes a directory the working directory.
fn set_cwd<H: Host>(
    fs: &mut Fs,
    host: &mut H,
    caller: &mut Caller,
    space: &Space,
    n: u64,
) -> Result<Answer, HostErr>
    requires sound { Sound (stage fs.old (H.view host.old) caller.old space.now) }
    requires directory { IsDir (shape_of fs.old.tree (H.view host.old).forest) n }
    ensures { HasReplyOf (cwd_reply n) (stage fs.old (H.view host.old) caller.old space.now)
        (stage fs.new (H.view host.new) caller.new space.now) result
        (H.count host.old) (H.count host.new) }
{
    let _before = host.faults();
    swap_hold(&mut fs.tree, host, caller.cwd, n)?;
    caller.cwd = n;
    Ok(Answer::Value(0))
}

// Holds a directory in the place of another, which goes if it is removed and nothing else holds it.
#[tactic(auto, using(crate::proofs::Moved::held_still))]
fn swap_hold<H: Host>(tree: &mut Tree, host: &mut H, last: u64, next: u64) -> Result<(), HostErr>
    requires stands { Stands tree.old (H.view host.old).forest }
    requires directory { IsDir (shape_of tree.old (H.view host.old).forest) next }
    requires held { 1 ≤ holds_of (tree_of tree.old (H.view host.old).forest) last }
    ensures tree { OnOk result (tree_of tree.new (H.view host.new).forest
        ≡ tree_after_release (tree_after_hold (tree_of tree.old (H.view host.old).forest) next) last) }
    ensures stands { OnOk result (Stands tree.new (H.view host.new).forest) }
    ensures rest { OnlyForest (H.view host.old) (H.view host.new) }
    ensures cause { HasCause (H.count host.old) (H.count host.new)
        (IsErrOf result HostErr.Failed) }
{
    let _before = host.faults();
    tree.hold(host, next)?;
    tree.release(host, last)
}
