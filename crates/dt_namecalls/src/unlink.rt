// The call that takes a name away (unlinkat(2)).
ghost use Rattle.std.specs.Prelude.{◌≡◌, true, Some, IfOk};
ghost use Rattle.dt_base.specs.Abi.{low_word};
ghost use Rattle.dt_host.specs.Asks.{Asks};
ghost use Rattle.dt_tree.specs.Calls.{MayDrop};
ghost use Rattle.dt_tree.specs.Table.{Stands, shape_of};
ghost use Rattle.dt_callbase.specs.Arguments.{argument, has_only};
ghost use Rattle.dt_callbase.specs.Places.{IsFound, place_at};
ghost use Rattle.dt_namecalls.specs.inner.Names.{IsNameIn};
ghost use Rattle.dt_namecalls.specs.Unlink.{special_refusal, node_refusal, drop_name_reply, drop_node_reply};
ghost use Rattle.dt_namecalls.specs.Unlink.{unlinkat_row};
ghost use Rattle.dt_callbase.specs.Sound.{Sound, HasRowReply, HasReplyOf, stage, scene};

use dt_base::abi::{AT_REMOVEDIR, low_word};
use dt_base::{Answer, Caller, Errno};
use dt_callbase::{Fs, LastLink, place_at};
use dt_host::{CallErr, Host, HostErr};
use dt_space::Space;
use dt_tree::Tree;
use dt_walk::Place;
use std::alloc::Global;

/// unlinkat(2): a dirfd, a path and flags. It answers 0. The errors are EINVAL for flags but AT_REMOVEDIR, and those
/// of the path; then, without that flag, EISDIR for a last name that no entry can have, ENOENT where nothing is there,
/// and EISDIR for a directory; with it EINVAL for `.`, ENOTEMPTY for `..`, EBUSY for a path without names, ENOENT
/// where nothing is there, ENOTDIR for what is no directory, and ENOTEMPTY for one that has entries.
#[tactic(auto, unfolding(crate::specs::Unlink::unlinkat_row), using(crate::proofs::Kept::after_asking))]
pub fn unlinkat<H: Host>(
    alloc: Global,
    fs: &mut Fs,
    host: &mut H,
    caller: &Caller,
    space: &Space,
    args: [u64; 6],
) -> Result<Answer, HostErr>
    requires { Sound (stage fs.old (H.view host.old) caller.now space.now) }
    ensures { HasRowReply unlinkat_row args (stage fs.old (H.view host.old) caller.now space.now)
        (stage fs.new (H.view host.new) caller.now space.now) result
        (H.count host.old) (H.count host.new) }
{
    let _before = host.faults();
    if low_word(args[2]) | AT_REMOVEDIR != AT_REMOVEDIR {
        return Ok(Answer::Refused(Errno::Inval));
    }
    let found = place_at(
        alloc,
        fs,
        host,
        caller,
        space,
        args[0],
        args[1],
        LastLink::Keep,
    )?;
    unlink(fs, host, caller, space, args, found)
}

// Takes away the name at the place of a path.
#[tactic(auto, unfolding(crate::specs::Unlink::unlinkat_row), using(crate::proofs::Kept::in_other_words, crate::proofs::May::name_in))]
fn unlink<H: Host>(
    fs: &mut Fs,
    host: &mut H,
    caller: &Caller,
    space: &Space,
    args: [u64; 6],
    found: Result<Place, Errno>,
) -> Result<Answer, HostErr>
    requires sound { Sound (stage fs.old (H.view host.old) caller.now space.now) }
    requires flags { has_only (low_word (argument args 2)) AT_REMOVEDIR ≡ true }
    requires found { found ≡ place_at (scene (stage fs.old (H.view host.old) caller.now space.now))
        (argument args 0) (argument args 1) LastLink.Keep }
    requires place { IfOk found (IsFound (shape_of fs.old.tree (H.view host.old).forest)) }
    ensures { HasRowReply unlinkat_row args (stage fs.old (H.view host.old) caller.now space.now)
        (stage fs.new (H.view host.new) caller.now space.now) result
        (H.count host.old) (H.count host.new) }
{
    let _before = host.faults();
    let removes_dir = low_word(args[2]) & AT_REMOVEDIR == AT_REMOVEDIR;
    let place = match found {
        Ok(place) => place,
        Err(errno) => return Ok(Answer::Refused(errno)),
    };
    if place.is_special() {
        return Ok(Answer::Refused(special_refusal(removes_dir, &place)));
    }
    match place.node {
        Some(n) => drop_node(fs, host, caller, space, &place, removes_dir, n),
        None => Ok(Answer::Refused(Errno::NoEnt)),
    }
}

// Why a name that no entry can have can't go.
fn special_refusal(removes_dir: bool, place: &Place) -> Errno
    ensures { result ≡ special_refusal removes_dir place.now.name }
{
    if !removes_dir {
        return Errno::IsDir;
    }
    if place.is_dot() {
        return Errno::Inval;
    }
    if place.is_dot_dot() {
        return Errno::NotEmpty;
    }
    Errno::Busy
}

// Why a node can't lose a name, if so.
fn node_refusal<H: Host>(
    tree: &Tree,
    host: &mut H,
    removes_dir: bool,
    n: u64,
) -> Result<Option<Errno>, HostErr>
    requires { Stands tree.now (H.view host.old).forest }
    ensures ok { IfOk result (λ refusal. refusal
        ≡ node_refusal (shape_of tree.now (H.view host.old).forest) removes_dir n) }
    ensures asks { Asks H.view H.count host.old host.new result }
{
    let _before = host.faults();
    let is_dir = tree.is_dir(n);
    if !removes_dir {
        return Ok(if is_dir { Some(Errno::IsDir) } else { None });
    }
    if !is_dir {
        return Ok(Some(Errno::NotDir));
    }
    let is_bare = tree.is_bare(host, n)?;
    Ok(if is_bare { None } else { Some(Errno::NotEmpty) })
}

// Takes the name of a node away, unless that is refused.
#[tactic(auto, using(crate::proofs::Kept::after_asking))]
fn drop_node<H: Host>(
    fs: &mut Fs,
    host: &mut H,
    caller: &Caller,
    space: &Space,
    place: &Place,
    removes_dir: bool,
    n: u64,
) -> Result<Answer, HostErr>
    requires sound { Sound (stage fs.old (H.view host.old) caller.now space.now) }
    requires place { IsNameIn (shape_of fs.old.tree (H.view host.old).forest) place.now }
    requires node { place.now.node ≡ Some n }
    ensures { HasReplyOf (drop_node_reply removes_dir place.now n)
        (stage fs.old (H.view host.old) caller.now space.now) (stage fs.new (H.view host.new) caller.now space.now)
        result (H.count host.old) (H.count host.new) }
{
    let refusal = node_refusal(&fs.tree, host, removes_dir, n)?;
    drop_unless_refused(fs, host, caller, space, place, removes_dir, n, refusal)
}

// Takes the name of a node away, unless there is a reason to refuse it.
#[tactic(auto, using(crate::proofs::Kept::in_other_words, crate::proofs::May::may_drop))]
fn drop_unless_refused<H: Host>(
    fs: &mut Fs,
    host: &mut H,
    caller: &Caller,
    space: &Space,
    place: &Place,
    removes_dir: bool,
    n: u64,
    refusal: Option<Errno>,
) -> Result<Answer, HostErr>
    requires sound { Sound (stage fs.old (H.view host.old) caller.now space.now) }
    requires place { IsNameIn (shape_of fs.old.tree (H.view host.old).forest) place.now }
    requires node { place.now.node ≡ Some n }
    requires refusal { refusal ≡ node_refusal (shape_of fs.old.tree (H.view host.old).forest) removes_dir n }
    ensures { HasReplyOf (drop_node_reply removes_dir place.now n)
        (stage fs.old (H.view host.old) caller.now space.now) (stage fs.new (H.view host.new) caller.now space.now)
        result (H.count host.old) (H.count host.new) }
{
    let _before = host.faults();
    match refusal {
        Some(errno) => Ok(Answer::Refused(errno)),
        None => drop_name(fs, host, caller, space, place),
    }
}

// Takes the name at a place away.
#[tactic(auto, using(crate::proofs::Kept::kept))]
fn drop_name<H: Host>(
    fs: &mut Fs,
    host: &mut H,
    caller: &Caller,
    space: &Space,
    place: &Place,
) -> Result<Answer, HostErr>
    requires sound { Sound (stage fs.old (H.view host.old) caller.now space.now) }
    requires may { MayDrop (shape_of fs.old.tree (H.view host.old).forest) place.now.parent place.now.name }
    ensures { HasReplyOf (drop_name_reply place.now)
        (stage fs.old (H.view host.old) caller.now space.now) (stage fs.new (H.view host.new) caller.now space.now)
        result (H.count host.old) (H.count host.new) }
{
    let stamp = fs.next_stamp();
    match fs
        .tree
        .drop_name(host, place.parent, place.name.as_slice(), stamp)
    {
        Ok(()) => {
            fs.clock.stamp();
            Ok(Answer::Value(0))
        }
        Err(CallErr::Errno(errno)) => Ok(Answer::Refused(errno)),
        Err(CallErr::Host(error)) => Err(error),
    }
}
