// The call that moves a name (renameat2(2)).
ghost use Rattle.std.specs.Prelude.{◌≡◌, true, false, Some, IfOk};
ghost use Rattle.dt_base.specs.Abi.{low_word};
ghost use Rattle.dt_host.specs.Asks.{Asks};
ghost use Rattle.dt_tree.specs.Above.{is_below, is_this};
ghost use Rattle.dt_tree.specs.Calls.{MayMove};
ghost use Rattle.dt_tree.specs.Table.{Stands, shape_of};
ghost use Rattle.dt_callbase.specs.Arguments.{argument, has_only};
ghost use Rattle.dt_callbase.specs.Places.{IsFound, place_at};
ghost use Rattle.dt_namecalls.specs.inner.Names.{IsNameIn};
ghost use Rattle.dt_namecalls.specs.Rename.{replace_refusal, arrive_refusal, target_refusal, move_name_reply};
ghost use Rattle.dt_namecalls.specs.Rename.{move_node_reply};
ghost use Rattle.dt_namecalls.specs.Rename.{move_to_path_reply, renameat2_row};
ghost use Rattle.dt_callbase.specs.Sound.{Sound, HasRowReply, HasReplyOf, stage, scene};

use dt_base::abi::{RENAME_NOREPLACE, has_flag, low_word};
use dt_base::{Answer, Caller, Errno};
use dt_callbase::{Fs, LastLink, place_at};
use dt_host::{CallErr, Host, HostErr};
use dt_space::Space;
use dt_tree::Tree;
use dt_walk::Place;
use std::alloc::Global;

/// renameat2(2): a dirfd and the old path, another dirfd and the new path, and flags. It answers 0, and does nothing
/// where both are names of one node. The errors are EINVAL for flags but RENAME_NOREPLACE; those of the old path,
/// EBUSY for a last name that no entry can have, and ENOENT where nothing is there; those of the new path, EBUSY for
/// such a name, or EEXIST for it and for anything that is there where nothing may be replaced; then EINVAL for a
/// directory that would go into itself or below, ENOTDIR, EISDIR and ENOTEMPTY where the one node can't replace the
/// other, ENOTDIR where the path ends in a slash and the node is no directory, and ENOENT in a removed directory.
#[tactic(auto, unfolding(crate::specs::Rename::renameat2_row), using(crate::proofs::Kept::after_asking))]
pub fn renameat2<H: Host>(
    alloc: Global,
    fs: &mut Fs,
    host: &mut H,
    caller: &Caller,
    space: &Space,
    args: [u64; 6],
) -> Result<Answer, HostErr>
    requires { Sound (stage fs.old (H.view host.old) caller.now space.now) }
    ensures { HasRowReply renameat2_row args (stage fs.old (H.view host.old) caller.now space.now)
        (stage fs.new (H.view host.new) caller.now space.now) result
        (H.count host.old) (H.count host.new) }
{
    let _before = host.faults();
    if low_word(args[4]) | RENAME_NOREPLACE != RENAME_NOREPLACE {
        return Ok(Answer::Refused(Errno::Inval));
    }
    let found = place_at(
        alloc,
        fs,
        host,
        caller,
        space,
        args[0],
        args[1],
        LastLink::Keep,
    )?;
    rename(alloc, fs, host, caller, space, args, found)
}

// Moves the name at the place of the old path.
#[tactic(auto, unfolding(crate::specs::Rename::renameat2_row), using(crate::proofs::Kept::in_other_words, crate::proofs::May::name_in))]
fn rename<H: Host>(
    alloc: Global,
    fs: &mut Fs,
    host: &mut H,
    caller: &Caller,
    space: &Space,
    args: [u64; 6],
    found: Result<Place, Errno>,
) -> Result<Answer, HostErr>
    requires sound { Sound (stage fs.old (H.view host.old) caller.now space.now) }
    requires flags { has_only (low_word (argument args 4)) RENAME_NOREPLACE ≡ true }
    requires found { found ≡ place_at (scene (stage fs.old (H.view host.old) caller.now space.now))
        (argument args 0) (argument args 1) LastLink.Keep }
    requires place { IfOk found (IsFound (shape_of fs.old.tree (H.view host.old).forest)) }
    ensures { HasRowReply renameat2_row args (stage fs.old (H.view host.old) caller.now space.now)
        (stage fs.new (H.view host.new) caller.now space.now) result
        (H.count host.old) (H.count host.new) }
{
    let _before = host.faults();
    let noreplace = has_flag(low_word(args[4]), RENAME_NOREPLACE);
    let from = match found {
        Ok(from) => from,
        Err(errno) => return Ok(Answer::Refused(errno)),
    };
    if from.is_special() {
        return Ok(Answer::Refused(Errno::Busy));
    }
    match from.node {
        Some(n) => move_to_path(alloc, fs, host, caller, space, args, noreplace, &from, n),
        None => Ok(Answer::Refused(Errno::NoEnt)),
    }
}

// Moves the name of a node to the place of the new path.
#[tactic(auto, using(crate::proofs::Kept::after_asking))]
fn move_to_path<H: Host>(
    alloc: Global,
    fs: &mut Fs,
    host: &mut H,
    caller: &Caller,
    space: &Space,
    args: [u64; 6],
    noreplace: bool,
    from: &Place,
    n: u64,
) -> Result<Answer, HostErr>
    requires sound { Sound (stage fs.old (H.view host.old) caller.now space.now) }
    requires from { IsNameIn (shape_of fs.old.tree (H.view host.old).forest) from.now }
    requires node { from.now.node ≡ Some n }
    ensures { HasReplyOf (move_to_path_reply noreplace (argument args 2) (argument args 3) from.now n)
        (stage fs.old (H.view host.old) caller.now space.now)
        (stage fs.new (H.view host.new) caller.now space.now) result
        (H.count host.old) (H.count host.new) }
{
    let found = place_at(
        alloc,
        fs,
        host,
        caller,
        space,
        args[2],
        args[3],
        LastLink::Keep,
    )?;
    move_to_place(fs, host, caller, space, args, noreplace, from, n, found)
}

// Moves the name of a node to a place. Where that is a name of the node too, nothing is done.
#[tactic(auto, using(crate::proofs::Kept::in_other_words, crate::proofs::May::target_name))]
fn move_to_place<H: Host>(
    fs: &mut Fs,
    host: &mut H,
    caller: &Caller,
    space: &Space,
    args: [u64; 6],
    noreplace: bool,
    from: &Place,
    n: u64,
    found: Result<Place, Errno>,
) -> Result<Answer, HostErr>
    requires sound { Sound (stage fs.old (H.view host.old) caller.now space.now) }
    requires from { IsNameIn (shape_of fs.old.tree (H.view host.old).forest) from.now }
    requires node { from.now.node ≡ Some n }
    requires found { found ≡ place_at (scene (stage fs.old (H.view host.old) caller.now space.now))
        (argument args 2) (argument args 3) LastLink.Keep }
    requires place { IfOk found (IsFound (shape_of fs.old.tree (H.view host.old).forest)) }
    ensures { HasReplyOf (move_to_path_reply noreplace (argument args 2) (argument args 3) from.now n)
        (stage fs.old (H.view host.old) caller.now space.now)
        (stage fs.new (H.view host.new) caller.now space.now) result
        (H.count host.old) (H.count host.new) }
{
    let _before = host.faults();
    let to = match found {
        Ok(to) => to,
        Err(errno) => return Ok(Answer::Refused(errno)),
    };
    match target_refusal(noreplace, &to) {
        Some(errno) => Ok(Answer::Refused(errno)),
        None if is_this(n, to.node) => Ok(Answer::Value(0)),
        None => move_node(fs, host, caller, space, from, n, &to),
    }
}

// What may be there is that number.
fn is_this(n: u64, found: Option<u64>) -> bool
    ensures { result ≡ is_this n found }
{
    match found {
        Some(other) => n == other,
        None => false,
    }
}

// Why a place can't have a new name, if so.
fn target_refusal(noreplace: bool, to: &Place) -> Option<Errno>
    ensures { result ≡ target_refusal noreplace to.now }
{
    if to.is_special() {
        return Some(if noreplace { Errno::Exist } else { Errno::Busy });
    }
    if noreplace && to.node.is_some() {
        return Some(Errno::Exist);
    }
    None
}

// Moves the name of a node, unless that is refused.
#[tactic(auto, using(crate::proofs::Kept::after_asking))]
fn move_node<H: Host>(
    fs: &mut Fs,
    host: &mut H,
    caller: &Caller,
    space: &Space,
    from: &Place,
    n: u64,
    to: &Place,
) -> Result<Answer, HostErr>
    requires sound { Sound (stage fs.old (H.view host.old) caller.now space.now) }
    requires from { IsNameIn (shape_of fs.old.tree (H.view host.old).forest) from.now }
    requires node { from.now.node ≡ Some n }
    requires to { IsNameIn (shape_of fs.old.tree (H.view host.old).forest) to.now }
    requires apart { is_this n to.now.node ≡ false }
    ensures { HasReplyOf (move_node_reply from.now n to.now)
        (stage fs.old (H.view host.old) caller.now space.now)
        (stage fs.new (H.view host.new) caller.now space.now) result
        (H.count host.old) (H.count host.new) }
{
    let _before = host.faults();
    if fs.tree.is_below(host, to.parent, n) {
        return Ok(Answer::Refused(Errno::Inval));
    }
    let refusal = arrive_refusal(&fs.tree, host, n, to)?;
    move_unless_refused(fs, host, caller, space, from, n, to, refusal)
}

// Why a node can't replace another, if so.
fn replace_refusal<H: Host>(
    tree: &Tree,
    host: &mut H,
    n: u64,
    replaced: u64,
) -> Result<Option<Errno>, HostErr>
    requires { Stands tree.now (H.view host.old).forest }
    ensures ok { IfOk result (λ refusal. refusal
        ≡ replace_refusal (shape_of tree.now (H.view host.old).forest) n replaced) }
    ensures asks { Asks H.view H.count host.old host.new result }
{
    let _before = host.faults();
    let is_dir = tree.is_dir(n);
    if !tree.is_dir(replaced) {
        return Ok(if is_dir { Some(Errno::NotDir) } else { None });
    }
    if !is_dir {
        return Ok(Some(Errno::IsDir));
    }
    let is_bare = tree.is_bare(host, replaced)?;
    Ok(if is_bare { None } else { Some(Errno::NotEmpty) })
}

// Why a node can't have its name at a place, if so.
fn arrive_refusal<H: Host>(
    tree: &Tree,
    host: &mut H,
    n: u64,
    to: &Place,
) -> Result<Option<Errno>, HostErr>
    requires { Stands tree.now (H.view host.old).forest }
    ensures ok { IfOk result (λ refusal. refusal
        ≡ arrive_refusal (shape_of tree.now (H.view host.old).forest) n to.now to.now.node) }
    ensures asks { Asks H.view H.count host.old host.new result }
{
    let _before = host.faults();
    match to.node {
        Some(replaced) => replace_refusal(tree, host, n, replaced),
        None if to.slash && !tree.is_dir(n) => Ok(Some(Errno::NotDir)),
        None => Ok(None),
    }
}

// Moves the name of a node, unless there is a reason to refuse it.
#[tactic(auto, using(crate::proofs::Kept::in_other_words, crate::proofs::May::may_move))]
fn move_unless_refused<H: Host>(
    fs: &mut Fs,
    host: &mut H,
    caller: &Caller,
    space: &Space,
    from: &Place,
    n: u64,
    to: &Place,
    refusal: Option<Errno>,
) -> Result<Answer, HostErr>
    requires sound { Sound (stage fs.old (H.view host.old) caller.now space.now) }
    requires from { IsNameIn (shape_of fs.old.tree (H.view host.old).forest) from.now }
    requires node { from.now.node ≡ Some n }
    requires to { IsNameIn (shape_of fs.old.tree (H.view host.old).forest) to.now }
    requires apart { is_this n to.now.node ≡ false }
    requires outside { is_below (shape_of fs.old.tree (H.view host.old).forest) to.now.parent n ≡ false }
    requires refusal { refusal ≡ arrive_refusal (shape_of fs.old.tree (H.view host.old).forest) n to.now to.now.node }
    ensures { HasReplyOf (move_node_reply from.now n to.now)
        (stage fs.old (H.view host.old) caller.now space.now)
        (stage fs.new (H.view host.new) caller.now space.now) result
        (H.count host.old) (H.count host.new) }
{
    let _before = host.faults();
    match refusal {
        Some(errno) => Ok(Answer::Refused(errno)),
        None => move_name(fs, host, caller, space, from, to),
    }
}

#[tactic(auto, using(crate::proofs::Kept::kept))]
fn move_name<H: Host>(
    fs: &mut Fs,
    host: &mut H,
    caller: &Caller,
    space: &Space,
    from: &Place,
    to: &Place,
) -> Result<Answer, HostErr>
    requires sound { Sound (stage fs.old (H.view host.old) caller.now space.now) }
    requires may { MayMove (shape_of fs.old.tree (H.view host.old).forest)
        from.now.parent from.now.name to.now.parent to.now.name }
    ensures { HasReplyOf (move_name_reply from.now to.now)
        (stage fs.old (H.view host.old) caller.now space.now)
        (stage fs.new (H.view host.new) caller.now space.now) result
        (H.count host.old) (H.count host.new) }
{
    let stamp = fs.next_stamp();
    let (from_name, to_name) = (from.name.as_slice(), to.name.as_slice());
    match fs
        .tree
        .move_name(host, from.parent, from_name, to.parent, to_name, stamp)
    {
        Ok(()) => {
            fs.clock.stamp();
            Ok(Answer::Value(0))
        }
        Err(CallErr::Errno(errno)) => Ok(Answer::Refused(errno)),
        Err(CallErr::Host(error)) => Err(error),
    }
}
