// The status of a node.
ghost use Rattle.std.specs.Prelude.{◌≡◌, IfOk, Some, true, false};
ghost use Rattle.dt_base.specs.Abi.{has_flag, low_word};
ghost use Rattle.dt_host.specs.World.{IsLive};
ghost use Rattle.dt_tree.specs.Meta.{meta_of};
ghost use Rattle.dt_tree.specs.Table.{shape_of, tree_of};
ghost use Rattle.dt_walk.specs.Placed.{IsPlaceIn};
ghost use Rattle.dt_callbase.specs.Arguments.{argument, has_only};
ghost use Rattle.dt_callbase.specs.Places.{place_at};
ghost use Rattle.dt_callbase.specs.Sound.{Sound, HasRowReply, HasReplyOf, stage, scene};
ghost use Rattle.dt_fcalls.specs.Status.{status_reply, descriptor_status_reply, is_of_dirfd, status_rule, fstat_row};
ghost use Rattle.dt_fcalls.specs.Status.{newfstatat_row};

use crate::stat::{STAT_FLAGS, pipe_stat, stat_of, stream_stat};
use dt_base::abi::{AT_EMPTY_PATH, AT_FDCWD, AT_SYMLINK_NOFOLLOW, has_flag, low_word, signed_word};
use dt_base::{Answer, Caller, Errno, NoMemory};
use dt_callbase::{Fs, LastLink, fill, place_at};
use dt_fds::DescKind;
use dt_host::{Host, HostErr};
use dt_space::{Space, text_argument};
use dt_tree::Meta;
use dt_walk::Place;
use std::alloc::Global;

// What becomes of a link that is the last name.
fn status_rule(flags: u32) -> LastLink
    ensures { result ≡ status_rule flags }
{
    if has_flag(flags, AT_SYMLINK_NOFOLLOW) {
        LastLink::KeepWithoutSlash
    } else {
        LastLink::Follow
    }
}

// Whether the path is empty, and the flags say that it then stands for the dirfd.
fn is_of_dirfd(space: &Space, address: u64, flags: u32) -> Result<bool, NoMemory>
    ensures { IfOk result (λ is. is ≡ is_of_dirfd space.now address flags) }
{
    if !has_flag(flags, AT_EMPTY_PATH) {
        return Ok(false);
    }
    match text_argument(space, address)? {
        Ok(text) => Ok(text.is_empty()),
        Err(_) => Ok(false),
    }
}

/// newfstatat(2): puts the 128 bytes of `struct stat` of the node that a path leads to into a buffer, and answers 0.
/// An empty path stands for the dirfd with AT_EMPTY_PATH. The errors are EINVAL (an unknown flag), those of the path,
/// ENOENT, and EFAULT.
#[tactic(auto, unfolding(crate::specs::Status::newfstatat_row), using(crate::proofs::Kept::after_asking))]
pub fn newfstatat<H: Host>(
    alloc: Global,
    fs: &Fs,
    host: &mut H,
    caller: &Caller,
    space: &mut Space,
    args: [u64; 6],
) -> Result<Answer, HostErr>
    requires { Sound (stage fs.now (H.view host.old) caller.now space.old) }
    ensures { HasRowReply newfstatat_row args (stage fs.now (H.view host.old) caller.now space.old)
        (stage fs.now (H.view host.new) caller.now space.new) result
        (H.count host.old) (H.count host.new) }
{
    let _before = host.faults();
    let flags = low_word(args[3]);
    if flags | STAT_FLAGS != STAT_FLAGS {
        return Ok(Answer::Refused(Errno::Inval));
    }
    if is_of_dirfd(space, args[1], flags)? {
        return tell_dirfd(fs, host, caller, space, args);
    }
    let rule = status_rule(flags);
    let found = place_at(alloc, fs, host, caller, space, args[0], args[1], rule)?;
    tell_found(fs, host, caller, space, args, found)
}

// Tells the status of what the dirfd stands for.
#[tactic(auto, unfolding(crate::specs::Status::newfstatat_row), using(crate::proofs::Kept::in_other_words))]
fn tell_dirfd<H: Host>(
    fs: &Fs,
    host: &mut H,
    caller: &Caller,
    space: &mut Space,
    args: [u64; 6],
) -> Result<Answer, HostErr>
    requires sound { Sound (stage fs.now (H.view host.old) caller.now space.old) }
    requires flags { has_only (low_word (argument args 3)) STAT_FLAGS ≡ true }
    requires empty { is_of_dirfd space.old (argument args 1) (low_word (argument args 3)) ≡ true }
    ensures { HasRowReply newfstatat_row args (stage fs.now (H.view host.old) caller.now space.old)
        (stage fs.now (H.view host.new) caller.now space.new) result
        (H.count host.old) (H.count host.new) }
{
    let _before = host.faults();
    if signed_word(args[0]) != AT_FDCWD {
        return tell_descriptor(fs, host, caller, space, low_word(args[0]), args[2]);
    }
    tell_status(fs, host, caller, space, args[2], caller.cwd)
}

/// fstat(2): puts the 128 bytes of `struct stat` of what a descriptor refers to into a buffer, and answers 0. The
/// errors are EBADF and EFAULT.
#[tactic(auto, unfolding(crate::specs::Status::fstat_row), using(crate::proofs::Kept::in_other_words))]
pub fn fstat<H: Host>(
    fs: &Fs,
    host: &mut H,
    caller: &Caller,
    space: &mut Space,
    args: [u64; 6],
) -> Result<Answer, HostErr>
    requires { Sound (stage fs.now (H.view host.old) caller.now space.old) }
    ensures { HasRowReply fstat_row args (stage fs.now (H.view host.old) caller.now space.old)
        (stage fs.now (H.view host.new) caller.now space.new) result
        (H.count host.old) (H.count host.new) }
{
    tell_descriptor(fs, host, caller, space, low_word(args[0]), args[1])
}

// Tells the status of what a descriptor refers to.
#[tactic(auto, unfolding(crate::specs::Status::descriptor_status_reply), using(crate::proofs::Kept::in_other_words, crate::proofs::Described::is_there))]
fn tell_descriptor<H: Host>(
    fs: &Fs,
    host: &mut H,
    caller: &Caller,
    space: &mut Space,
    fd: u32,
    buffer: u64,
) -> Result<Answer, HostErr>
    requires { Sound (stage fs.now (H.view host.old) caller.now space.old) }
    ensures { HasReplyOf (descriptor_status_reply fd buffer)
        (stage fs.now (H.view host.old) caller.now space.old)
        (stage fs.now (H.view host.new) caller.now space.new) result
        (H.count host.old) (H.count host.new) }
{
    let _before = host.faults();
    let Some(desc) = fs.files.look(caller.vpid, fd) else {
        return Ok(Answer::Refused(Errno::BadF));
    };
    match desc.kind {
        DescKind::File(n) | DescKind::Dir(n) | DescKind::Device(n) => {
            tell_status(fs, host, caller, space, buffer, n)
        }
        DescKind::PipeRead(q) | DescKind::PipeWrite(q) => {
            fill(fs, host, caller, space, buffer, &pipe_stat(q), 0)
        }
        DescKind::Input | DescKind::Stream(_) => {
            fill(fs, host, caller, space, buffer, &stream_stat(), 0)
        }
    }
}

// Tells the status of the node at the place of a path.
#[tactic(auto, unfolding(crate::specs::Status::newfstatat_row), using(crate::proofs::Kept::in_other_words))]
fn tell_found<H: Host>(
    fs: &Fs,
    host: &mut H,
    caller: &Caller,
    space: &mut Space,
    args: [u64; 6],
    found: Result<Place, Errno>,
) -> Result<Answer, HostErr>
    requires sound { Sound (stage fs.now (H.view host.old) caller.now space.old) }
    requires flags { has_only (low_word (argument args 3)) STAT_FLAGS ≡ true }
    requires path { is_of_dirfd space.old (argument args 1) (low_word (argument args 3)) ≡ false }
    requires found { found ≡ place_at (scene (stage fs.now (H.view host.old) caller.now space.old))
        (argument args 0) (argument args 1) (status_rule (low_word (argument args 3))) }
    requires place { IfOk found (IsPlaceIn (shape_of fs.now.tree (H.view host.old).forest)) }
    ensures { HasRowReply newfstatat_row args (stage fs.now (H.view host.old) caller.now space.old)
        (stage fs.now (H.view host.new) caller.now space.new) result
        (H.count host.old) (H.count host.new) }
{
    let _before = host.faults();
    let place = match found {
        Ok(place) => place,
        Err(errno) => return Ok(Answer::Refused(errno)),
    };
    let Some(n) = place.node else {
        return Ok(Answer::Refused(Errno::NoEnt));
    };
    tell_status(fs, host, caller, space, args[2], n)
}

#[tactic(auto, using(crate::proofs::Kept::after_asking))]
fn tell_status<H: Host>(
    fs: &Fs,
    host: &mut H,
    caller: &Caller,
    space: &mut Space,
    buffer: u64,
    n: u64,
) -> Result<Answer, HostErr>
    requires sound { Sound (stage fs.now (H.view host.old) caller.now space.old) }
    requires live { IsLive (shape_of fs.now.tree (H.view host.old).forest) n }
    ensures { HasReplyOf (status_reply buffer n)
        (stage fs.now (H.view host.old) caller.now space.old)
        (stage fs.now (H.view host.new) caller.now space.new) result
        (H.count host.old) (H.count host.new) }
{
    let meta = fs.tree.meta(host, n)?;
    fill_status(fs, host, caller, space, buffer, n, &meta)
}

// Fills a buffer with the status of a node.
#[tactic(auto, using(crate::proofs::Kept::in_other_words))]
fn fill_status<H: Host>(
    fs: &Fs,
    host: &H,
    caller: &Caller,
    space: &mut Space,
    buffer: u64,
    n: u64,
    meta: &Meta,
) -> Result<Answer, HostErr>
    requires sound { Sound (stage fs.now (H.view host.now) caller.now space.old) }
    requires meta { meta_of (tree_of fs.now.tree (H.view host.now).forest) n ≡ Some meta.now }
    ensures { HasReplyOf (status_reply buffer n)
        (stage fs.now (H.view host.now) caller.now space.old)
        (stage fs.now (H.view host.now) caller.now space.new) result
        (H.count host.now) (H.count host.now) }
{
    let bytes = stat_of(n, meta, fs.tree.device(n));
    fill(fs, host, caller, space, buffer, &bytes, 0)
}
