// The calls that write or cut a file.
ghost use Rattle.std.specs.Prelude.{◌≡◌, ◌≢◌, ◌≤◌, [], false, length, None, Ok, Err};
ghost use Rattle.std.specs.Prelude.{IfOk, IfSome, IsOk, MatchResult};
ghost use Rattle.dt_base.specs.Abi.{low_word};
ghost use Rattle.dt_base.specs.declared.abi.TheConstants.{TRANSFER_LIMIT};
ghost use Rattle.dt_fds.specs.Backs.{IsIn};
ghost use Rattle.dt_fds.specs.Descriptions.{description_at, is_of_dir, write_pipe as pipe_of_write};
ghost use Rattle.dt_fds.specs.declared.desc.Spot.TheVariants.{At as at_offset};
ghost use Rattle.dt_host.specs.Asks.{Asks};
ghost use Rattle.dt_host.specs.World.{IsFile};
ghost use Rattle.dt_tree.specs.Table.{Stands, shape_of, tree_of};
ghost use Rattle.dt_iocalls.specs.Offsets.{with_spot};
ghost use Rattle.dt_iocalls.specs.Ranges.{gathered_bytes, total_len};
ghost use Rattle.dt_iocalls.specs.Writing.{device_write_reply};
ghost use Rattle.dt_iocalls.specs.Writing.{write_offset, file_write_reply, moving_write_reply, appending_write_reply};
ghost use Rattle.dt_iocalls.specs.Writing.{write_reply_by_kind, descriptor_write_reply};
ghost use Rattle.dt_iocalls.specs.Writing.{write_row, writev_row, bytes_write_at_reply, file_write_at_reply};
ghost use Rattle.dt_iocalls.specs.Writing.{pwrite64_row};
ghost use Rattle.dt_iocalls.specs.Writing.{truncate_reply_by_kind, on_bytes, pipe_write_reply, ftruncate_row};
ghost use Rattle.dt_iocalls.specs.inner.Written.{is_of_device, ranges_write_reply};
ghost use Rattle.dt_callbase.specs.Arguments.{argument};
ghost use Rattle.dt_callbase.specs.Scene.{value_reply};
ghost use Rattle.dt_callbase.specs.Sound.{Sound, HasRowReply, HasReplyOf, HasReply, stage, scene};

use crate::offsets::{is_writable, offset_of};
use crate::piping::pipe_answer;
use crate::ranges::{Range, gather, gather_piece, ranges_at, readable, total_len};
use dt_base::abi::{byte_count, low_word};
use dt_base::{Answer, Blob, Caller, Errno};
use dt_callbase::Fs;
use dt_fds::{DescKind, Spot};
use dt_host::{CallErr, Host, HostErr};
use dt_space::{ReadErr, Space};
use dt_tree::Tree;
use std::alloc::Global;

/// write(2): writes the bytes of a buffer to where the description stands, or to the end of its file with O_APPEND,
/// and answers how many these are; those of a stream go out. Those of a pipe stand behind the ones that it holds: where
/// they have no room the call waits, or goes on where it has moved some. The errors are EBADF (not open, or not for
/// writing), EFAULT, EISDIR, EBADF (the input), EFBIG, EAGAIN (it would wait, and the description has O_NONBLOCK), and
/// EPIPE with SIGPIPE (nobody reads the pipe).
#[tactic(auto, unfolding(crate::specs::Writing::write_row))]
pub fn write<H: Host>(
    alloc: Global,
    fs: &mut Fs,
    host: &mut H,
    caller: &Caller,
    space: &Space,
    args: [u64; 6],
) -> Result<Answer, HostErr>
    requires { Sound (stage fs.old (H.view host.old) caller.now space.now) }
    ensures { HasRowReply write_row args (stage fs.old (H.view host.old) caller.now space.now)
        (stage fs.new (H.view host.new) caller.now space.now) result
        (H.count host.old) (H.count host.new) }
{
    let ranges = [Range {
        address: args[1],
        len: byte_count(args[2]),
    }];
    write_descriptor(alloc, fs, host, caller, space, low_word(args[0]), &ranges)
}

/// writev(2): as write(2), with the bytes of a list of buffers. The errors are EINVAL (more than 1,024 buffers), EFAULT
/// (the list may not be read), EINVAL (too many bytes), and those of write(2).
#[tactic(auto, unfolding(crate::specs::Writing::writev_row))]
pub fn writev<H: Host>(
    alloc: Global,
    fs: &mut Fs,
    host: &mut H,
    caller: &Caller,
    space: &Space,
    args: [u64; 6],
) -> Result<Answer, HostErr>
    requires { Sound (stage fs.old (H.view host.old) caller.now space.now) }
    ensures { HasRowReply writev_row args (stage fs.old (H.view host.old) caller.now space.now)
        (stage fs.new (H.view host.new) caller.now space.now) result
        (H.count host.old) (H.count host.new) }
{
    let _before = host.faults();
    match ranges_at(alloc, space, args[1], low_word(args[2]))? {
        Ok(ranges) => write_descriptor(alloc, fs, host, caller, space, low_word(args[0]), &ranges),
        Err(errno) => Ok(Answer::Refused(errno)),
    }
}

// Writes the bytes of ranges to a descriptor.
fn write_descriptor<H: Host>(
    alloc: Global,
    fs: &mut Fs,
    host: &mut H,
    caller: &Caller,
    space: &Space,
    fd: u32,
    ranges: &[Range],
) -> Result<Answer, HostErr>
    requires sound { Sound (stage fs.old (H.view host.old) caller.now space.now) }
    requires few { total_len ranges.now ≤ TRANSFER_LIMIT }
    ensures { HasReplyOf (descriptor_write_reply fd ranges.now) (stage fs.old (H.view host.old) caller.now space.now)
        (stage fs.new (H.view host.new) caller.now space.now) result
        (H.count host.old) (H.count host.new) }
{
    let _before = host.faults();
    let Some(desc) = fs.files.look(caller.vpid, fd) else {
        return Ok(Answer::Refused(Errno::BadF));
    };
    if !is_writable(desc) {
        return Ok(Answer::Refused(Errno::BadF));
    }
    let (kind, append, offset) = (desc.kind, desc.append, offset_of(&desc.spot));
    match kind {
        DescKind::PipeWrite(_) => write_pipe(alloc, fs, host, caller, space, fd, ranges),
        DescKind::Device(_) => write_device(fs, host, caller, space, ranges),
        DescKind::File(_)
        | DescKind::Dir(_)
        | DescKind::PipeRead(_)
        | DescKind::Input
        | DescKind::Stream(_) => write_gathered(
            alloc, fs, host, caller, space, fd, kind, append, offset, ranges,
        ),
    }
}

// Writes the bytes of ranges to a device, which takes them all and changes nothing. They are not copied.
fn write_device<H: Host>(
    fs: &Fs,
    host: &H,
    caller: &Caller,
    space: &Space,
    ranges: &[Range],
) -> Result<Answer, HostErr>
    requires sound { Sound (stage fs.now (H.view host.now) caller.now space.now) }
    requires few { total_len ranges.now ≤ TRANSFER_LIMIT }
    ensures { HasReplyOf (ranges_write_reply device_write_reply ranges.now)
        (stage fs.now (H.view host.now) caller.now space.now)
        (stage fs.now (H.view host.now) caller.now space.now) result
        (H.count host.now) (H.count host.now) }
{
    match readable(space, ranges) {
        Ok(()) => Ok(Answer::Value(total_len(ranges))),
        Err(_) => Ok(Answer::Refused(Errno::Fault)),
    }
}

// Writes all bytes of ranges to what a descriptor refers to, which is neither a pipe nor a device.
fn write_gathered<H: Host>(
    alloc: Global,
    fs: &mut Fs,
    host: &mut H,
    caller: &Caller,
    space: &Space,
    fd: u32,
    kind: DescKind,
    append: bool,
    offset: u64,
    ranges: &[Range],
) -> Result<Answer, HostErr>
    requires sound { Sound (stage fs.old (H.view host.old) caller.now space.now) }
    requires there { IsIn (shape_of fs.old.tree (H.view host.old).forest) kind }
    requires is { IfSome (description_at fs.old.files.descriptors caller.now.vpid fd) (λ desc. desc.kind ≡ kind) }
    requires no_pipe { pipe_of_write kind ≡ None }
    requires no_device { is_of_device kind ≡ false }
    ensures { HasReplyOf (ranges_write_reply (write_reply_by_kind fd append offset kind) ranges.now)
        (stage fs.old (H.view host.old) caller.now space.now)
        (stage fs.new (H.view host.new) caller.now space.now) result
        (H.count host.old) (H.count host.new) }
{
    let _before = host.faults();
    let bytes = match gather(alloc, space, ranges) {
        Ok(bytes) => bytes,
        Err(ReadErr::Miss(_)) => return Ok(Answer::Refused(Errno::Fault)),
        Err(ReadErr::NoMemory) => return Err(HostErr::NoMemory),
    };
    if bytes.is_empty() {
        return Ok(Answer::Value(0));
    }
    write_by_kind(fs, host, caller, space, fd, kind, append, offset, bytes)
}

// Writes some bytes to what a descriptor refers to, which is neither a pipe nor a device.
fn write_by_kind<H: Host>(
    fs: &mut Fs,
    host: &mut H,
    caller: &Caller,
    space: &Space,
    fd: u32,
    kind: DescKind,
    append: bool,
    offset: u64,
    bytes: Vec<u8>,
) -> Result<Answer, HostErr>
    requires sound { Sound (stage fs.old (H.view host.old) caller.now space.now) }
    requires there { IsIn (shape_of fs.old.tree (H.view host.old).forest) kind }
    requires is { IfSome (description_at fs.old.files.descriptors caller.now.vpid fd) (λ desc. desc.kind ≡ kind) }
    requires no_pipe { pipe_of_write kind ≡ None }
    requires no_device { is_of_device kind ≡ false }
    ensures { HasReplyOf (write_reply_by_kind fd append offset kind bytes.items)
        (stage fs.old (H.view host.old) caller.now space.now)
        (stage fs.new (H.view host.new) caller.now space.now) result
        (H.count host.old) (H.count host.new) }
{
    let _before = host.faults();
    match kind {
        DescKind::File(n) => write_file(fs, host, caller, space, fd, n, append, offset, &bytes),
        DescKind::Dir(_) => Ok(Answer::Refused(Errno::IsDir)),
        DescKind::PipeWrite(_) | DescKind::Device(_) => unreachable!(),
        DescKind::PipeRead(_) | DescKind::Input => Ok(Answer::Refused(Errno::BadF)),
        DescKind::Stream(stream) => Ok(Answer::Output(stream, Blob::new(bytes))),
    }
}

// Writes the bytes of ranges to a pipe. Each of them has to be readable, also where the call only waits.
fn write_pipe<H: Host>(
    alloc: Global,
    fs: &mut Fs,
    host: &mut H,
    caller: &Caller,
    space: &Space,
    fd: u32,
    ranges: &[Range],
) -> Result<Answer, HostErr>
    requires sound { Sound (stage fs.old (H.view host.old) caller.now space.now) }
    requires few { total_len ranges.now ≤ TRANSFER_LIMIT }
    ensures { HasReplyOf (ranges_write_reply (pipe_write_reply fd) ranges.now)
        (stage fs.old (H.view host.old) caller.now space.now)
        (stage fs.new (H.view host.new) caller.now space.now) result
        (H.count host.old) (H.count host.new) }
{
    let _before = host.faults();
    match readable(space, ranges) {
        Ok(()) => {}
        Err(_) => return Ok(Answer::Refused(Errno::Fault)),
    }
    let whole = total_len(ranges);
    if whole == 0 {
        return Ok(Answer::Value(0));
    }
    write_pipe_piece(alloc, fs, host, caller, space, fd, ranges, whole)
}

// Writes some bytes of ranges to a pipe, of which the call has moved a part before where it goes on. Only the piece
// that moves now is copied: a call may wait or go on many times, and be long.
fn write_pipe_piece<H: Host>(
    alloc: Global,
    fs: &mut Fs,
    host: &mut H,
    caller: &Caller,
    space: &Space,
    fd: u32,
    ranges: &[Range],
    whole: u64,
) -> Result<Answer, HostErr>
    requires sound { Sound (stage fs.old (H.view host.old) caller.now space.now) }
    requires readable { IsOk (gathered_bytes space.now ranges.now) }
    requires whole { total_len ranges.now ≡ whole }
    ensures { HasReplyOf (λ s. on_bytes s (gathered_bytes s.space ranges.now) (λ bytes. pipe_write_reply fd bytes s))
        (stage fs.old (H.view host.old) caller.now space.now)
        (stage fs.new (H.view host.new) caller.now space.now) result
        (H.count host.old) (H.count host.new) }
{
    let _before = host.faults();
    let done = caller.done.min(whole);
    let moved = fs.files.pipe_transfer_count(caller.vpid, fd, whole, done);
    let piece = gather_piece(alloc, space, ranges, done, moved)?;
    pipe_answer(
        fs.files
            .pipe_write_part(host, caller.vpid, fd, whole, done, &piece),
    )
}

// Writes bytes to a file at an offset, or at its end, and moves the offset of its description.
#[tactic(auto, using(crate::proofs::Scenes::after_asking))]
fn write_file<H: Host>(
    fs: &mut Fs,
    host: &mut H,
    caller: &Caller,
    space: &Space,
    fd: u32,
    n: u64,
    append: bool,
    offset: u64,
    bytes: &[u8],
) -> Result<Answer, HostErr>
    requires sound { Sound (stage fs.old (H.view host.old) caller.now space.now) }
    requires file { IsFile (shape_of fs.old.tree (H.view host.old).forest) n }
    requires of_file { IfSome (description_at fs.old.files.descriptors caller.now.vpid fd)
        (λ desc. false ≡ is_of_dir desc.kind) }
    ensures { HasReplyOf (appending_write_reply fd n append offset bytes.now)
        (stage fs.old (H.view host.old) caller.now space.now)
        (stage fs.new (H.view host.new) caller.now space.now) result
        (H.count host.old) (H.count host.new) }
{
    let at = write_offset(&fs.tree, host, append, n, offset)?;
    write_and_move(fs, host, caller, space, fd, n, at, bytes)
}

// Where a write goes: to an offset, or to the end of the file with O_APPEND.
#[tactic(auto, using(crate::proofs::Parts::told))]
fn write_offset<H: Host>(
    tree: &Tree,
    host: &mut H,
    append: bool,
    n: u64,
    offset: u64,
) -> Result<u64, HostErr>
    requires stands { Stands tree.now (H.view host.old).forest }
    requires file { IsFile (shape_of tree.now (H.view host.old).forest) n }
    ensures ok { IfOk result
        (λ at. at ≡ write_offset (tree_of tree.now (H.view host.old).forest) append n offset) }
    ensures asks { Asks H.view H.count host.old host.new result }
{
    let _before = host.faults();
    if append {
        Ok(tree.meta(host, n)?.size)
    } else {
        Ok(offset)
    }
}

// Writes bytes to an offset of a file, and moves the offset of its description behind them.
fn write_and_move<H: Host>(
    fs: &mut Fs,
    host: &mut H,
    caller: &Caller,
    space: &Space,
    fd: u32,
    n: u64,
    offset: u64,
    bytes: &[u8],
) -> Result<Answer, HostErr>
    requires sound { Sound (stage fs.old (H.view host.old) caller.now space.now) }
    requires file { IsFile (shape_of fs.old.tree (H.view host.old).forest) n }
    requires of_file { IfSome (description_at fs.old.files.descriptors caller.now.vpid fd)
        (λ desc. false ≡ is_of_dir desc.kind) }
    ensures { HasReplyOf (moving_write_reply fd n offset bytes.now)
        (stage fs.old (H.view host.old) caller.now space.now)
        (stage fs.new (H.view host.new) caller.now space.now) result
        (H.count host.old) (H.count host.new) }
{
    let written = write_at(fs, host, caller, space, n, offset, bytes)?;
    let Answer::Value(count) = written else {
        return Ok(written);
    };
    move_offset(fs, host, caller, space, fd, offset + count, count)
}

// Writes bytes to an offset of a file.
#[tactic(auto, using(crate::proofs::Scenes::kept))]
fn write_at<H: Host>(
    fs: &mut Fs,
    host: &mut H,
    caller: &Caller,
    space: &Space,
    n: u64,
    offset: u64,
    bytes: &[u8],
) -> Result<Answer, HostErr>
    requires sound { Sound (stage fs.old (H.view host.old) caller.now space.now) }
    requires file { IsFile (shape_of fs.old.tree (H.view host.old).forest) n }
    ensures row { HasReplyOf (file_write_reply n offset bytes.now (λ next. next))
        (stage fs.old (H.view host.old) caller.now space.now)
        (stage fs.new (H.view host.new) caller.now space.now) result
        (H.count host.old) (H.count host.new) }
    ensures files { fs.new.files ≡ fs.old.files }
{
    let stamp = fs.next_stamp();
    match fs.tree.write_at(host, n, offset, bytes, stamp) {
        Ok(()) => {
            fs.clock.stamp();
            Ok(Answer::Value(bytes.len() as u64))
        }
        Err(CallErr::Errno(errno)) => Ok(Answer::Refused(errno)),
        Err(CallErr::Host(error)) => Err(error),
    }
}

// Moves the offset of a description, and answers so many bytes.
#[tactic(auto, using(crate::proofs::Described::same_nodes))]
fn move_offset<H: Host>(
    fs: &mut Fs,
    host: &H,
    caller: &Caller,
    space: &Space,
    fd: u32,
    offset: u64,
    count: u64,
) -> Result<Answer, HostErr>
    requires sound { Sound (stage fs.old (H.view host.now) caller.now space.now) }
    requires of_file { IfSome (description_at fs.old.files.descriptors caller.now.vpid fd)
        (λ desc. false ≡ is_of_dir desc.kind) }
    ensures { HasReply (value_reply (with_spot (scene (stage fs.old (H.view host.now) caller.now space.now)) fd
        (at_offset offset)) count)
        (stage fs.old (H.view host.now) caller.now space.now)
        (stage fs.new (H.view host.now) caller.now space.now) result
        (H.count host.now) (H.count host.now) }
{
    fs.files.set_place(caller.vpid, fd, Spot::At(offset));
    Ok(Answer::Value(count))
}

/// pwrite64(2): writes the bytes of a buffer to an offset of a file, or to its end with O_APPEND, and answers how many
/// these are. The errors are EINVAL (a negative offset), EBADF (not open, or not for writing), EISDIR, ESPIPE, EFAULT,
/// and EFBIG.
#[tactic(auto, unfolding(crate::specs::Writing::pwrite64_row), using(crate::proofs::Described::node_in))]
pub fn pwrite64<H: Host>(
    alloc: Global,
    fs: &mut Fs,
    host: &mut H,
    caller: &Caller,
    space: &Space,
    args: [u64; 6],
) -> Result<Answer, HostErr>
    requires { Sound (stage fs.old (H.view host.old) caller.now space.now) }
    ensures { HasRowReply pwrite64_row args (stage fs.old (H.view host.old) caller.now space.now)
        (stage fs.new (H.view host.new) caller.now space.now) result
        (H.count host.old) (H.count host.new) }
{
    let _before = host.faults();
    if args[3] > i64::MAX as u64 {
        return Ok(Answer::Refused(Errno::Inval));
    }
    let Some(desc) = fs.files.look(caller.vpid, low_word(args[0])) else {
        return Ok(Answer::Refused(Errno::BadF));
    };
    if !is_writable(desc) {
        return Ok(Answer::Refused(Errno::BadF));
    }
    let append = desc.append;
    let ranges = [Range {
        address: args[1],
        len: byte_count(args[2]),
    }];
    match desc.kind {
        DescKind::File(n) => {
            write_ranges_at(alloc, fs, host, caller, space, n, append, args[3], &ranges)
        }
        DescKind::Dir(_) => Ok(Answer::Refused(Errno::IsDir)),
        DescKind::Device(_) => write_device(fs, host, caller, space, &ranges),
        DescKind::PipeRead(_) | DescKind::PipeWrite(_) | DescKind::Input | DescKind::Stream(_) =>
            Ok(Answer::Refused(Errno::SPipe)),
    }
}

// Writes the bytes of ranges to an offset of a file, or to its end.
#[tactic(auto, using(crate::proofs::Scenes::after_asking))]
fn write_ranges_at<H: Host>(
    alloc: Global,
    fs: &mut Fs,
    host: &mut H,
    caller: &Caller,
    space: &Space,
    n: u64,
    append: bool,
    offset: u64,
    ranges: &[Range],
) -> Result<Answer, HostErr>
    requires sound { Sound (stage fs.old (H.view host.old) caller.now space.now) }
    requires file { IsFile (shape_of fs.old.tree (H.view host.old).forest) n }
    ensures { HasReplyOf (file_write_at_reply n append offset ranges.now)
        (stage fs.old (H.view host.old) caller.now space.now)
        (stage fs.new (H.view host.new) caller.now space.now) result
        (H.count host.old) (H.count host.new) }
{
    let _before = host.faults();
    let bytes = match gather(alloc, space, ranges) {
        Ok(bytes) => bytes,
        Err(ReadErr::Miss(_)) => return Ok(Answer::Refused(Errno::Fault)),
        Err(ReadErr::NoMemory) => return Err(HostErr::NoMemory),
    };
    if bytes.is_empty() {
        return Ok(Answer::Value(0));
    }
    let at = write_offset(&fs.tree, host, append, n, offset)?;
    write_at(fs, host, caller, space, n, at, &bytes)
}

/// ftruncate(2): cuts a file to a length, or puts zeros behind its bytes up to it, and answers 0. The errors are EINVAL
/// (a negative length), EBADF, EINVAL (no file that is open for writing), and EFBIG.
#[tactic(auto, unfolding(crate::specs::Writing::ftruncate_row), using(crate::proofs::Described::node_in))]
pub fn ftruncate<H: Host>(
    fs: &mut Fs,
    host: &mut H,
    caller: &Caller,
    space: &Space,
    args: [u64; 6],
) -> Result<Answer, HostErr>
    requires { Sound (stage fs.old (H.view host.old) caller.now space.now) }
    ensures { HasRowReply ftruncate_row args (stage fs.old (H.view host.old) caller.now space.now)
        (stage fs.new (H.view host.new) caller.now space.now) result
        (H.count host.old) (H.count host.new) }
{
    let _before = host.faults();
    if args[1] > i64::MAX as u64 {
        return Ok(Answer::Refused(Errno::Inval));
    }
    let Some(desc) = fs.files.look(caller.vpid, low_word(args[0])) else {
        return Ok(Answer::Refused(Errno::BadF));
    };
    if !is_writable(desc) {
        return Ok(Answer::Refused(Errno::Inval));
    }
    match desc.kind {
        DescKind::File(n) => cut(fs, host, caller, space, n, args[1]),
        DescKind::Dir(_)
        | DescKind::Device(_)
        | DescKind::PipeRead(_)
        | DescKind::PipeWrite(_)
        | DescKind::Input
        | DescKind::Stream(_) => Ok(Answer::Refused(Errno::Inval)),
    }
}

// Cuts a file to a length, or makes it longer.
#[tactic(auto, using(crate::proofs::Scenes::kept))]
fn cut<H: Host>(
    fs: &mut Fs,
    host: &mut H,
    caller: &Caller,
    space: &Space,
    n: u64,
    len: u64,
) -> Result<Answer, HostErr>
    requires sound { Sound (stage fs.old (H.view host.old) caller.now space.now) }
    requires file { IsFile (shape_of fs.old.tree (H.view host.old).forest) n }
    ensures { HasReplyOf (truncate_reply_by_kind len (DescKind.File n))
        (stage fs.old (H.view host.old) caller.now space.now)
        (stage fs.new (H.view host.new) caller.now space.now) result
        (H.count host.old) (H.count host.new) }
{
    let stamp = fs.next_stamp();
    match fs.tree.cut(host, n, len, stamp) {
        Ok(()) => {
            fs.clock.stamp();
            Ok(Answer::Value(0))
        }
        Err(CallErr::Errno(errno)) => Ok(Answer::Refused(errno)),
        Err(CallErr::Host(error)) => Err(error),
    }
}
