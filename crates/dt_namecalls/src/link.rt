// The call that adds a name to a node (linkat(2)).
ghost use Rattle.std.specs.Prelude.{◌≡◌, true, IfOk};
ghost use Rattle.dt_base.specs.Abi.{low_word};
ghost use Rattle.dt_host.specs.World.{IsLive};
ghost use Rattle.dt_tree.specs.Calls.{MayAdd};
ghost use Rattle.dt_tree.specs.Table.{shape_of, tree_of};
ghost use Rattle.dt_callbase.specs.Arguments.{argument, has_only};
ghost use Rattle.dt_namecalls.specs.Names.{add_name_reply, link_reply, old_rule, linkat_row};
ghost use Rattle.dt_callbase.specs.Places.{IsFound, place_at};
ghost use Rattle.dt_callbase.specs.Sound.{Sound, HasRowReply, HasReplyOf, stage, scene};

use crate::names::new_refusal;
use dt_base::abi::{AT_SYMLINK_FOLLOW, has_flag, low_word};
use dt_base::{Answer, Caller, Errno};
use dt_callbase::{Fs, LastLink, place_at};
use dt_host::{CallErr, Host, HostErr};
use dt_space::Space;
use dt_walk::Place;
use std::alloc::Global;

/// linkat(2): a dirfd and the old path, another dirfd and the new path, and flags. It answers 0. The errors are EINVAL
/// for flags but AT_SYMLINK_FOLLOW; those of the old path, and ENOENT where nothing is there; those of the new path;
/// then EEXIST where something is there, ENOENT where it ends in a slash, EPERM for a directory, and ENOENT in a
/// removed directory.
#[tactic(auto, unfolding(crate::specs::Names::linkat_row), using(crate::proofs::Kept::after_asking))]
pub fn linkat<H: Host>(
    alloc: Global,
    fs: &mut Fs,
    host: &mut H,
    caller: &Caller,
    space: &Space,
    args: [u64; 6],
) -> Result<Answer, HostErr>
    requires { Sound (stage fs.old (H.view host.old) caller.now space.now) }
    ensures { HasRowReply linkat_row args (stage fs.old (H.view host.old) caller.now space.now)
        (stage fs.new (H.view host.new) caller.now space.now) result
        (H.count host.old) (H.count host.new) }
{
    let _before = host.faults();
    let flags = low_word(args[4]);
    if flags | AT_SYMLINK_FOLLOW != AT_SYMLINK_FOLLOW {
        return Ok(Answer::Refused(Errno::Inval));
    }
    let found = place_at(
        alloc,
        fs,
        host,
        caller,
        space,
        args[0],
        args[1],
        old_rule(flags),
    )?;
    link(alloc, fs, host, caller, space, args, found)
}

// Whether a link that is the last name of the old path is followed.
fn old_rule(flags: u32) -> LastLink
    ensures { result ≡ old_rule flags }
{
    if has_flag(flags, AT_SYMLINK_FOLLOW) {
        LastLink::Follow
    } else {
        LastLink::KeepWithoutSlash
    }
}

// Gives the node at the place of the old path another name.
#[tactic(auto, unfolding(crate::specs::Names::linkat_row), using(crate::proofs::Kept::in_other_words))]
fn link<H: Host>(
    alloc: Global,
    fs: &mut Fs,
    host: &mut H,
    caller: &Caller,
    space: &Space,
    args: [u64; 6],
    found: Result<Place, Errno>,
) -> Result<Answer, HostErr>
    requires sound { Sound (stage fs.old (H.view host.old) caller.now space.now) }
    requires flags { has_only (low_word (argument args 4)) AT_SYMLINK_FOLLOW ≡ true }
    requires found { found ≡ place_at (scene (stage fs.old (H.view host.old) caller.now space.now))
        (argument args 0) (argument args 1) (old_rule (low_word (argument args 4))) }
    requires place { IfOk found (IsFound (shape_of fs.old.tree (H.view host.old).forest)) }
    ensures { HasRowReply linkat_row args (stage fs.old (H.view host.old) caller.now space.now)
        (stage fs.new (H.view host.new) caller.now space.now) result
        (H.count host.old) (H.count host.new) }
{
    let _before = host.faults();
    let old = match found {
        Ok(old) => old,
        Err(errno) => return Ok(Answer::Refused(errno)),
    };
    match old.node {
        Some(n) => link_to_path(alloc, fs, host, caller, space, args, n),
        None => Ok(Answer::Refused(Errno::NoEnt)),
    }
}

// Gives a node a name at the place of the new path.
#[tactic(auto, using(crate::proofs::Kept::after_asking))]
fn link_to_path<H: Host>(
    alloc: Global,
    fs: &mut Fs,
    host: &mut H,
    caller: &Caller,
    space: &Space,
    args: [u64; 6],
    n: u64,
) -> Result<Answer, HostErr>
    requires sound { Sound (stage fs.old (H.view host.old) caller.now space.now) }
    requires live { IsLive (shape_of fs.old.tree (H.view host.old).forest) n }
    ensures { HasReplyOf (link_reply (argument args 2) (argument args 3) n)
        (stage fs.old (H.view host.old) caller.now space.now)
        (stage fs.new (H.view host.new) caller.now space.now) result
        (H.count host.old) (H.count host.new) }
{
    let found = place_at(
        alloc,
        fs,
        host,
        caller,
        space,
        args[2],
        args[3],
        LastLink::Keep,
    )?;
    link_to_place(fs, host, caller, space, args, n, found)
}

// Gives a node a name at a place.
#[tactic(auto, using(crate::proofs::Kept::in_other_words, crate::proofs::May::may_add))]
fn link_to_place<H: Host>(
    fs: &mut Fs,
    host: &mut H,
    caller: &Caller,
    space: &Space,
    args: [u64; 6],
    n: u64,
    found: Result<Place, Errno>,
) -> Result<Answer, HostErr>
    requires sound { Sound (stage fs.old (H.view host.old) caller.now space.now) }
    requires live { IsLive (shape_of fs.old.tree (H.view host.old).forest) n }
    requires found { found ≡ place_at (scene (stage fs.old (H.view host.old) caller.now space.now))
        (argument args 2) (argument args 3) LastLink.Keep }
    requires place { IfOk found (IsFound (shape_of fs.old.tree (H.view host.old).forest)) }
    ensures { HasReplyOf (link_reply (argument args 2) (argument args 3) n)
        (stage fs.old (H.view host.old) caller.now space.now)
        (stage fs.new (H.view host.new) caller.now space.now) result
        (H.count host.old) (H.count host.new) }
{
    let _before = host.faults();
    let place = match found {
        Ok(place) => place,
        Err(errno) => return Ok(Answer::Refused(errno)),
    };
    match new_refusal(&place) {
        Some(errno) => Ok(Answer::Refused(errno)),
        None if fs.tree.is_dir(n) => Ok(Answer::Refused(Errno::Perm)),
        None => add_name(fs, host, caller, space, &place, n),
    }
}

// Gives a node the name of a place.
#[tactic(auto, using(crate::proofs::Kept::kept))]
fn add_name<H: Host>(
    fs: &mut Fs,
    host: &mut H,
    caller: &Caller,
    space: &Space,
    place: &Place,
    n: u64,
) -> Result<Answer, HostErr>
    requires sound { Sound (stage fs.old (H.view host.old) caller.now space.now) }
    requires may { MayAdd (tree_of fs.old.tree (H.view host.old).forest) place.now.parent place.now.name n }
    ensures { HasReplyOf (add_name_reply place.now n)
        (stage fs.old (H.view host.old) caller.now space.now)
        (stage fs.new (H.view host.new) caller.now space.now) result
        (H.count host.old) (H.count host.new) }
{
    let stamp = fs.next_stamp();
    match fs
        .tree
        .add_name(host, place.parent, place.name.as_slice(), n, stamp)
    {
        Ok(()) => {
            fs.clock.stamp();
            Ok(Answer::Value(0))
        }
        Err(CallErr::Errno(errno)) => Ok(Answer::Refused(errno)),
        Err(CallErr::Host(error)) => Err(error),
    }
}
