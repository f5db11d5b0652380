// The calls that tell of a node or a path.
ghost use Rattle.std.specs.Prelude.{◌≡◌, ◌∷◌, ◌++◌, [], IfOk, take, Some, pos, int_le, false};
ghost use Rattle.dt_base.specs.Abi.{low_word, signed_word};
ghost use Rattle.dt_host.specs.World.{target_at};
ghost use Rattle.dt_tree.specs.Above.{path_of};
ghost use Rattle.dt_tree.specs.Table.{shape_of};
ghost use Rattle.dt_walk.specs.Placed.{IsPlaceIn};
ghost use Rattle.dt_callbase.specs.Arguments.{argument};
ghost use Rattle.dt_callbase.specs.Places.{place_at};
ghost use Rattle.dt_callbase.specs.Sound.{Sound, HasRowReply, HasReplyOf, stage, scene};
ghost use Rattle.dt_fcalls.specs.Status.{getcwd_row, target_reply, readlinkat_row};

mod node;

use dt_base::abi::{low_word, signed_word};
use dt_base::{Answer, Blob, Caller, Errno, NoMemory};
use dt_callbase::{Fs, LastLink, fill, place_at};
use dt_host::{Host, HostErr};
use dt_space::Space;
use dt_walk::Place;
pub use node::{fstat, newfstatat};
use std::alloc::Global;

// A text and the NUL that ends it.
fn with_nul(alloc: Global, text: &Blob) -> Result<Vec<u8>, NoMemory>
    ensures { IfOk result (λ bytes. bytes.items ≡ text.now ++ (0 ∷ [])) }
{
    let mut bytes = Vec::from_slice(alloc, text.as_slice())?;
    bytes.push(0)?;
    Ok(bytes)
}

/// getcwd(2): puts the path of the working directory and a NUL into a buffer, and answers how many bytes these are. The
/// errors are ENOENT (the directory is removed), ERANGE (the buffer has fewer bytes), and EFAULT.
#[tactic(auto, using(crate::proofs::Kept::after_asking))]
pub fn getcwd<H: Host>(
    alloc: Global,
    fs: &Fs,
    host: &mut H,
    caller: &Caller,
    space: &mut Space,
    args: [u64; 6],
) -> Result<Answer, HostErr>
    requires { Sound (stage fs.now (H.view host.old) caller.now space.old) }
    ensures { HasRowReply getcwd_row args (stage fs.now (H.view host.old) caller.now space.old)
        (stage fs.now (H.view host.new) caller.now space.new) result
        (H.count host.old) (H.count host.new) }
{
    let path = fs.tree.path_of(host, caller.cwd)?;
    tell_path(alloc, fs, host, caller, space, args, path)
}

// Tells the path of the working directory.
#[tactic(auto, unfolding(crate::specs::Status::getcwd_row), using(crate::proofs::Kept::in_other_words))]
fn tell_path<H: Host>(
    alloc: Global,
    fs: &Fs,
    host: &H,
    caller: &Caller,
    space: &mut Space,
    args: [u64; 6],
    path: Option<Blob>,
) -> Result<Answer, HostErr>
    requires sound { Sound (stage fs.now (H.view host.now) caller.now space.old) }
    requires path { path ≡ path_of (shape_of fs.now.tree (H.view host.now).forest) caller.now.cwd }
    ensures { HasRowReply getcwd_row args (stage fs.now (H.view host.now) caller.now space.old)
        (stage fs.now (H.view host.now) caller.now space.new) result
        (H.count host.now) (H.count host.now) }
{
    let Some(path) = path else {
        return Ok(Answer::Refused(Errno::NoEnt));
    };
    let text = with_nul(alloc, &path)?;
    let len = text.len() as u64;
    if args[1] < len {
        return Ok(Answer::Refused(Errno::Range));
    }
    fill(fs, host, caller, space, args[0], &text, len)
}

/// readlinkat(2): puts the target of the link that a path leads to into a buffer, cut to its size and without a NUL,
/// and answers how many bytes it put there. The errors are EINVAL (the size is not above 0), those of the path,
/// ENOENT, EINVAL (the node is no link), and EFAULT.
#[tactic(auto, unfolding(crate::specs::Status::readlinkat_row), using(crate::proofs::Kept::after_asking))]
pub fn readlinkat<H: Host>(
    alloc: Global,
    fs: &Fs,
    host: &mut H,
    caller: &Caller,
    space: &mut Space,
    args: [u64; 6],
) -> Result<Answer, HostErr>
    requires { Sound (stage fs.now (H.view host.old) caller.now space.old) }
    ensures { HasRowReply readlinkat_row args (stage fs.now (H.view host.old) caller.now space.old)
        (stage fs.now (H.view host.new) caller.now space.new) result
        (H.count host.old) (H.count host.new) }
{
    let _before = host.faults();
    if signed_word(args[3]) <= 0 {
        return Ok(Answer::Refused(Errno::Inval));
    }
    let found = place_at(
        alloc,
        fs,
        host,
        caller,
        space,
        args[0],
        args[1],
        LastLink::KeepWithoutSlash,
    )?;
    read_link(fs, host, caller, space, args, found)
}

// Tells the target of the link at the place of a path.
#[tactic(auto, unfolding(crate::specs::Status::readlinkat_row), using(crate::proofs::Kept::in_other_words))]
fn read_link<H: Host>(
    fs: &Fs,
    host: &mut H,
    caller: &Caller,
    space: &mut Space,
    args: [u64; 6],
    found: Result<Place, Errno>,
) -> Result<Answer, HostErr>
    requires sound { Sound (stage fs.now (H.view host.old) caller.now space.old) }
    requires size { int_le (signed_word (argument args 3)) (pos 0) ≡ false }
    requires found { found ≡ place_at (scene (stage fs.now (H.view host.old) caller.now space.old))
        (argument args 0) (argument args 1) LastLink.KeepWithoutSlash }
    requires place { IfOk found (IsPlaceIn (shape_of fs.now.tree (H.view host.old).forest)) }
    ensures { HasRowReply readlinkat_row args (stage fs.now (H.view host.old) caller.now space.old)
        (stage fs.now (H.view host.new) caller.now space.new) result
        (H.count host.old) (H.count host.new) }
{
    let _before = host.faults();
    let place = match found {
        Ok(place) => place,
        Err(errno) => return Ok(Answer::Refused(errno)),
    };
    let Some(n) = place.node else {
        return Ok(Answer::Refused(Errno::NoEnt));
    };
    tell_target(fs, host, caller, space, args, n)
}

#[tactic(auto, using(crate::proofs::Kept::after_asking))]
fn tell_target<H: Host>(
    fs: &Fs,
    host: &mut H,
    caller: &Caller,
    space: &mut Space,
    args: [u64; 6],
    n: u64,
) -> Result<Answer, HostErr>
    requires { Sound (stage fs.now (H.view host.old) caller.now space.old) }
    ensures { HasReplyOf (target_reply (argument args 2) (low_word (argument args 3)) n)
        (stage fs.now (H.view host.old) caller.now space.old)
        (stage fs.now (H.view host.new) caller.now space.new) result
        (H.count host.old) (H.count host.new) }
{
    let _before = host.faults();
    if !fs.tree.is_link(n) {
        return Ok(Answer::Refused(Errno::Inval));
    }
    let target = fs.tree.target(host, n)?;
    fill_target(fs, host, caller, space, args, n, &target)
}

// Fills a buffer with the target of a link.
#[tactic(auto, using(crate::proofs::Kept::in_other_words))]
fn fill_target<H: Host>(
    fs: &Fs,
    host: &H,
    caller: &Caller,
    space: &mut Space,
    args: [u64; 6],
    n: u64,
    target: &Blob,
) -> Result<Answer, HostErr>
    requires sound { Sound (stage fs.now (H.view host.now) caller.now space.old) }
    requires target { target_at (shape_of fs.now.tree (H.view host.now).forest) n ≡ Some target.now }
    ensures { HasReplyOf (target_reply (argument args 2) (low_word (argument args 3)) n)
        (stage fs.now (H.view host.now) caller.now space.old)
        (stage fs.now (H.view host.now) caller.now space.new) result
        (H.count host.now) (H.count host.now) }
{
    let bytes = prefix(target.as_slice(), low_word(args[3]));
    fill(fs, host, caller, space, args[2], bytes, bytes.len() as u64)
}

// So many bytes of a text, or all where it has fewer.
fn prefix(text: &[u8], size: u32) -> &[u8]
    ensures { result.now ≡ take size text.now }
{
    &text[..text.len().min(size as usize)]
}
