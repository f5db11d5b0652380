// The call that moves the offset of a description (lseek(2)).
ghost use Rattle.std.specs.Prelude.{◌≡◌, true, false, IfOk, IfSome};
ghost use Rattle.dt_base.specs.Abi.{low_word};
ghost use Rattle.dt_fds.specs.Descriptions.{description_at, is_of_dir};
ghost use Rattle.dt_host.specs.Asks.{Asks};
ghost use Rattle.dt_host.specs.World.{IsFile};
ghost use Rattle.dt_iocalls.specs.Seeking.{shifted_offset, seek_offset, seek_to_reply, rewind_reply, device_seek_reply, lseek_row};
ghost use Rattle.dt_callbase.specs.Sound.{Sound, HasRowReply, HasReplyOf, HasReply, stage, scene};
ghost use Rattle.dt_tree.specs.Table.{Stands, shape_of, tree_of};

use crate::offsets::offset_of;
use dt_base::abi::{SEEK_CUR, SEEK_END, SEEK_SET, low_word};
use dt_base::{Answer, Caller, Errno, OFFSET_LIMIT};
use dt_callbase::Fs;
use dt_fds::{DescKind, Spot};
use dt_host::{Host, HostErr};
use dt_space::Space;
use dt_tree::Tree;

/// lseek(2): moves the offset of a file's description, counted from the start of the file (SEEK_SET), from where it
/// stands (SEEK_CUR) or from the end (SEEK_END), and answers the new one; a listing can only start again, and a device
/// stays at 0. The errors are EBADF, ESPIPE (neither a file, a directory nor a device), and EINVAL (another whence, or
/// no such offset).
#[tactic(auto, unfolding(crate::specs::Seeking::lseek_row), using(crate::proofs::Described::node_in))]
pub fn lseek<H: Host>(
    fs: &mut Fs,
    host: &mut H,
    caller: &Caller,
    space: &Space,
    args: [u64; 6],
) -> Result<Answer, HostErr>
    requires { Sound (stage fs.old (H.view host.old) caller.now space.now) }
    ensures { HasRowReply lseek_row args (stage fs.old (H.view host.old) caller.now space.now)
        (stage fs.new (H.view host.new) caller.now space.now) result
        (H.count host.old) (H.count host.new) }
{
    let _before = host.faults();
    let (fd, by, whence) = (low_word(args[0]), args[1], low_word(args[2]));
    let Some(desc) = fs.files.look(caller.vpid, fd) else {
        return Ok(Answer::Refused(Errno::BadF));
    };
    match desc.kind {
        DescKind::File(n) => {
            let offset = offset_of(&desc.spot);
            seek(fs, host, caller, space, fd, n, offset, by, whence)
        }
        DescKind::Device(_) => seek_device(fs, host, caller, space, whence),
        DescKind::Dir(_) => rewind(fs, host, caller, space, fd, by, whence),
        DescKind::PipeRead(_) | DescKind::PipeWrite(_) | DescKind::Input | DescKind::Stream(_) =>
            Ok(Answer::Refused(Errno::SPipe)),
    }
}

// Seeks in a device, which has no offset to move.
fn seek_device<H: Host>(
    fs: &Fs,
    host: &H,
    caller: &Caller,
    space: &Space,
    whence: u32,
) -> Result<Answer, HostErr>
    requires { Sound (stage fs.now (H.view host.now) caller.now space.now) }
    ensures { HasReplyOf (device_seek_reply whence) (stage fs.now (H.view host.now) caller.now space.now)
        (stage fs.now (H.view host.now) caller.now space.now) result
        (H.count host.now) (H.count host.now) }
{
    match whence {
        SEEK_SET | SEEK_CUR | SEEK_END => Ok(Answer::Value(0)),
        _ => Ok(Answer::Refused(Errno::Inval)),
    }
}

// Moves the offset of a file's description.
#[tactic(auto, using(crate::proofs::Scenes::after_asking))]
fn seek<H: Host>(
    fs: &mut Fs,
    host: &mut H,
    caller: &Caller,
    space: &Space,
    fd: u32,
    n: u64,
    offset: u64,
    by: u64,
    whence: u32,
) -> Result<Answer, HostErr>
    requires sound { Sound (stage fs.old (H.view host.old) caller.now space.now) }
    requires file { IsFile (shape_of fs.old.tree (H.view host.old).forest) n }
    requires of_file { IfSome (description_at fs.old.files.descriptors caller.now.vpid fd)
        (λ desc. false ≡ is_of_dir desc.kind) }
    ensures { HasReplyOf (λ s. seek_to_reply fd s (seek_offset s.tree n offset by whence))
        (stage fs.old (H.view host.old) caller.now space.now)
        (stage fs.new (H.view host.new) caller.now space.now) result
        (H.count host.old) (H.count host.new) }
{
    let found = seek_offset(&fs.tree, host, n, offset, by, whence)?;
    set_offset(fs, host, caller, space, fd, found)
}

// The offset that a seek in a file leads to.
#[tactic(auto, unfolding(crate::specs::Seeking::seek_offset), using(crate::proofs::Parts::told))]
fn seek_offset<H: Host>(
    tree: &Tree,
    host: &mut H,
    n: u64,
    offset: u64,
    by: u64,
    whence: u32,
) -> Result<Option<u64>, HostErr>
    requires stands { Stands tree.now (H.view host.old).forest }
    requires file { IsFile (shape_of tree.now (H.view host.old).forest) n }
    ensures ok { IfOk result
        (λ found. found ≡ seek_offset (tree_of tree.now (H.view host.old).forest) n offset by whence) }
    ensures asks { Asks H.view H.count host.old host.new result }
{
    let _before = host.faults();
    match whence {
        SEEK_SET => Ok(shifted_offset(0, by)),
        SEEK_CUR => Ok(shifted_offset(offset, by)),
        SEEK_END => Ok(shifted_offset(tree.meta(host, n)?.size, by)),
        _ => Ok(None),
    }
}

// An offset moved by a number that may be negative, if that is an offset.
#[tactic(auto, unfolding(crate::specs::Seeking::shifted_offset))]
fn shifted_offset(base: u64, by: u64) -> Option<u64>
    ensures { result ≡ shifted_offset base by }
{
    let (moved, wraps) = base.overflowing_add(by);
    if wraps == (by > i64::MAX as u64) && moved <= OFFSET_LIMIT {
        Some(moved)
    } else {
        None
    }
}

// Moves the offset of a file's description to an offset, if there is one, and answers that.
fn set_offset<H: Host>(
    fs: &mut Fs,
    host: &H,
    caller: &Caller,
    space: &Space,
    fd: u32,
    found: Option<u64>,
) -> Result<Answer, HostErr>
    requires sound { Sound (stage fs.old (H.view host.now) caller.now space.now) }
    requires of_file { IfSome (description_at fs.old.files.descriptors caller.now.vpid fd)
        (λ desc. false ≡ is_of_dir desc.kind) }
    ensures { HasReply (seek_to_reply fd (scene (stage fs.old (H.view host.now) caller.now space.now)) found)
        (stage fs.old (H.view host.now) caller.now space.now)
        (stage fs.new (H.view host.now) caller.now space.now) result
        (H.count host.now) (H.count host.now) }
{
    match found {
        Some(offset) => {
            fs.files.set_place(caller.vpid, fd, Spot::At(offset));
            Ok(Answer::Value(offset))
        }
        None => Ok(Answer::Refused(Errno::Inval)),
    }
}

// Lets a listing start again.
fn rewind<H: Host>(
    fs: &mut Fs,
    host: &H,
    caller: &Caller,
    space: &Space,
    fd: u32,
    by: u64,
    whence: u32,
) -> Result<Answer, HostErr>
    requires sound { Sound (stage fs.old (H.view host.now) caller.now space.now) }
    requires of_dir { IfSome (description_at fs.old.files.descriptors caller.now.vpid fd)
        (λ desc. true ≡ is_of_dir desc.kind) }
    ensures { HasReplyOf (rewind_reply fd by whence) (stage fs.old (H.view host.now) caller.now space.now)
        (stage fs.new (H.view host.now) caller.now space.now) result
        (H.count host.now) (H.count host.now) }
{
    if by != 0 || whence != SEEK_SET {
        return Ok(Answer::Refused(Errno::Inval));
    }
    fs.files.set_place(caller.vpid, fd, Spot::After(None));
    Ok(Answer::Value(0))
}
