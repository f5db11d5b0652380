//! The calls that make a node under a new name (mkdirat(2), symlinkat(2)).
ghost use Rattle.std.specs.Prelude.{◌≡◌, IsTrue, IfOk};
ghost use Rattle.dt_base.specs.Image.{is_good_what, is_target};
ghost use Rattle.dt_tree.specs.Calls.{IsNewName};
ghost use Rattle.dt_tree.specs.Table.{shape_of, tree_of};
ghost use Rattle.dt_callbase.specs.Arguments.{argument};
ghost use Rattle.dt_callbase.specs.Places.{IsFound, place_at};
ghost use Rattle.dt_namecalls.specs.Names.{make_node_reply, make_link_reply, new_refusal, mkdirat_row, symlinkat_row};
ghost use Rattle.dt_callbase.specs.Sound.{Sound, HasRowReply, HasReplyOf, stage, scene};

use dt_base::abi::low_word;
use dt_base::{Answer, Blob, Caller, Errno, LINK_MODE, What};
use dt_callbase::{Fs, LastLink, masked_mode, place_at};
use dt_host::{CallErr, Host, HostErr};
use dt_space::{Space, path_argument};
use dt_walk::Place;
use std::alloc::Global;

/// The bits of a new directory's mode: the sticky bit and the permission bits (mkdir(2)).
pub const DIR_MODES: u32 = 0o1777;

// Makes a node under a new name.
#[tactic(auto, using(crate::proofs::Kept::kept))]
fn make_node<H: Host>(
    fs: &mut Fs,
    host: &mut H,
    caller: &Caller,
    space: &Space,
    place: &Place,
    what: &What,
    mode: u32,
) -> Result<Answer, HostErr>
    requires sound { Sound (stage fs.old (H.view host.old) caller.now space.now) }
    requires new { IsNewName (tree_of fs.old.tree (H.view host.old).forest) place.now.parent place.now.name }
    requires good { IsTrue (is_good_what fs.old.tree.version what.now mode) }
    ensures { HasReplyOf (make_node_reply what.now mode place.now)
        (stage fs.old (H.view host.old) caller.now space.now)
        (stage fs.new (H.view host.new) caller.now space.now) result
        (H.count host.old) (H.count host.new) }
{
    let stamp = fs.next_stamp();
    match fs.tree.make_node(host, place.parent, place.name.as_slice(), what, mode, stamp) {
        Ok(_) => {
            fs.clock.stamp();
            Ok(Answer::Value(0))
        }
        Err(CallErr::Errno(errno)) => Ok(Answer::Refused(errno)),
        Err(CallErr::Host(error)) => Err(error),
    }
}

/// mkdirat(2): a dirfd, a path and a mode, which loses the bits of the umask. It answers 0. The errors are those of the
/// path; then EEXIST where something is there, ENOENT in a removed directory, and ENOSPC where the tree is full.
#[tactic(auto, using(crate::proofs::Kept::after_asking))]
pub fn mkdirat<H: Host>(
    alloc: Global,
    fs: &mut Fs,
    host: &mut H,
    caller: &Caller,
    space: &Space,
    args: [u64; 6],
) -> Result<Answer, HostErr>
    requires { Sound (stage fs.old (H.view host.old) caller.now space.now) }
    ensures { HasRowReply mkdirat_row args (stage fs.old (H.view host.old) caller.now space.now)
        (stage fs.new (H.view host.new) caller.now space.now) result
        (H.count host.old) (H.count host.new) }
{
    let found = place_at(
        alloc,
        fs,
        host,
        caller,
        space,
        args[0],
        args[1],
        LastLink::Keep,
    )?;
    make_dir(fs, host, caller, space, args, found)
}

// Makes a directory at the place of a path.
#[tactic(auto, unfolding(crate::specs::Names::mkdirat_row), using(crate::proofs::Kept::in_other_words))]
fn make_dir<H: Host>(
    fs: &mut Fs,
    host: &mut H,
    caller: &Caller,
    space: &Space,
    args: [u64; 6],
    found: Result<Place, Errno>,
) -> Result<Answer, HostErr>
    requires sound { Sound (stage fs.old (H.view host.old) caller.now space.now) }
    requires found { found ≡ place_at (scene (stage fs.old (H.view host.old) caller.now space.now))
        (argument args 0) (argument args 1) LastLink.Keep }
    requires place { IfOk found (IsFound (shape_of fs.old.tree (H.view host.old).forest)) }
    ensures { HasRowReply mkdirat_row args (stage fs.old (H.view host.old) caller.now space.now)
        (stage fs.new (H.view host.new) caller.now space.now) result
        (H.count host.old) (H.count host.new) }
{
    let _before = host.faults();
    let place = match found {
        Ok(place) => place,
        Err(errno) => return Ok(Answer::Refused(errno)),
    };
    if place.node.is_some() {
        return Ok(Answer::Refused(Errno::Exist));
    }
    let mode = masked_mode(low_word(args[2]) & DIR_MODES, caller.umask);
    make_node(fs, host, caller, space, &place, &What::Dir, mode)
}

// Why a node that is no directory can't have its name at a place, if so.
pub(crate) fn new_refusal(place: &Place) -> Option<Errno>
    ensures { result ≡ new_refusal place.now }
{
    if place.node.is_some() {
        return Some(Errno::Exist);
    }
    if place.slash {
        return Some(Errno::NoEnt);
    }
    None
}

/// symlinkat(2): the target, a dirfd and a path. It answers 0. The errors are those of the target's text, and of the
/// path and its walk; then EEXIST where something is there, ENOENT where the path ends in a slash or the directory is
/// removed, and ENOSPC where the tree is full.
#[tactic(auto, unfolding(crate::specs::Names::symlinkat_row), using(crate::proofs::Kept::in_other_words, crate::proofs::Targets::target_good))]
pub fn symlinkat<H: Host>(
    alloc: Global,
    fs: &mut Fs,
    host: &mut H,
    caller: &Caller,
    space: &Space,
    args: [u64; 6],
) -> Result<Answer, HostErr>
    requires { Sound (stage fs.old (H.view host.old) caller.now space.now) }
    ensures { HasRowReply symlinkat_row args (stage fs.old (H.view host.old) caller.now space.now)
        (stage fs.new (H.view host.new) caller.now space.now) result
        (H.count host.old) (H.count host.new) }
{
    let _before = host.faults();
    match path_argument(space, args[0])? {
        Ok(target) => symlink(alloc, fs, host, caller, space, args, target),
        Err(errno) => Ok(Answer::Refused(errno)),
    }
}

// Makes a link with this target at the place of the path.
#[tactic(auto, using(crate::proofs::Kept::after_asking))]
fn symlink<H: Host>(
    alloc: Global,
    fs: &mut Fs,
    host: &mut H,
    caller: &Caller,
    space: &Space,
    args: [u64; 6],
    target: Blob,
) -> Result<Answer, HostErr>
    requires sound { Sound (stage fs.old (H.view host.old) caller.now space.now) }
    requires target { IsTrue (is_target target) }
    ensures { HasReplyOf (make_link_reply (argument args 1) (argument args 2) target)
        (stage fs.old (H.view host.old) caller.now space.now)
        (stage fs.new (H.view host.new) caller.now space.now) result
        (H.count host.old) (H.count host.new) }
{
    let found = place_at(
        alloc,
        fs,
        host,
        caller,
        space,
        args[1],
        args[2],
        LastLink::Keep,
    )?;
    make_link(fs, host, caller, space, args, target, found)
}

// Makes a link at the place of a path.
#[tactic(auto, using(crate::proofs::Kept::in_other_words, crate::proofs::May::new_name))]
fn make_link<H: Host>(
    fs: &mut Fs,
    host: &mut H,
    caller: &Caller,
    space: &Space,
    args: [u64; 6],
    target: Blob,
    found: Result<Place, Errno>,
) -> Result<Answer, HostErr>
    requires sound { Sound (stage fs.old (H.view host.old) caller.now space.now) }
    requires target { IsTrue (is_target target) }
    requires found { found ≡ place_at (scene (stage fs.old (H.view host.old) caller.now space.now))
        (argument args 1) (argument args 2) LastLink.Keep }
    requires place { IfOk found (IsFound (shape_of fs.old.tree (H.view host.old).forest)) }
    ensures { HasReplyOf (make_link_reply (argument args 1) (argument args 2) target)
        (stage fs.old (H.view host.old) caller.now space.now)
        (stage fs.new (H.view host.new) caller.now space.now) result
        (H.count host.old) (H.count host.new) }
{
    let _before = host.faults();
    let place = match found {
        Ok(place) => place,
        Err(errno) => return Ok(Answer::Refused(errno)),
    };
    match new_refusal(&place) {
        Some(errno) => Ok(Answer::Refused(errno)),
        None => make_node(
            fs,
            host,
            caller,
            space,
            &place,
            &What::Link(target),
            LINK_MODE,
        ),
    }
}
