//! The calls that read: read(2), readv(2), pread64(2).
ghost use Rattle.std.specs.Prelude.{◌≡◌, ◌+◌, ◌<◌, ◌≤◌, ◌^◌, IfOk, IfSome, None, Some, IsOk, ◌≢◌, List, ℕ, length, min, replicate, take, drop};
ghost use Rattle.std.specs.Result.{IsErr};
ghost use Rattle.dt_base.specs.Abi.{low_word};
ghost use Rattle.dt_base.specs.declared.abi.TheConstants.{TRANSFER_LIMIT};
ghost use Rattle.dt_host.specs.Asks.{Asks};
ghost use Rattle.dt_host.specs.World.{IsFile, IsDevice, content};
ghost use Rattle.dt_tree.specs.Table.{Stands, shape_of};
ghost use Rattle.dt_fds.specs.Backs.{IsIn};
ghost use Rattle.dt_fds.specs.OpenFiles.{pipes_at};
ghost use Rattle.dt_fds.specs.Pipes.{pipe_content_at};
ghost use Rattle.dt_fds.specs.Descriptions.{is_after, is_of_dir, write_pipe};
ghost use Rattle.dt_iocalls.specs.Ranges.{total_len, scattered_pages};
ghost use Rattle.dt_iocalls.specs.Reading.{file_read_at_reply, received_reply, file_read_reply, read_reply_by_kind};
ghost use Rattle.dt_iocalls.specs.Reading.{read_reply, read_at_reply_by_kind, read_row};
ghost use Rattle.dt_iocalls.specs.Reading.{pipe_read_reply, input_read_reply, device_read_reply, bytes_of_device_reply};
ghost use Rattle.dt_iocalls.specs.Reading.{readv_row, pread64_row};
ghost use Rattle.dt_callbase.specs.Filling.{filled_reply};
ghost use Rattle.dt_callbase.specs.Scene.{description_of, on_description};
ghost use Rattle.dt_callbase.specs.Sound.{Sound, HasRowReply, HasReplyOf, stage, scene};

use crate::offsets::{is_readable, offset_of};
use crate::piping::pipe_answer;
use crate::ranges::{Range, may_scatter, put, ranges_at, scatter, total_len, writable};
use dt_base::abi::{byte_count, low_word};
use dt_base::{Answer, Blob, Caller, Device, Errno, NoMemory};
use dt_callbase::Fs;
use dt_fds::{DescKind, Spot};
use dt_host::{Host, HostErr};
use dt_space::Space;
use dt_tree::Tree;
use std::alloc::Global;

/// read(2): puts the bytes of a file at the offset of its description into a buffer, as many as are left and the buffer
/// takes, and answers how many these are; the description goes on behind them. The same holds of the input. A device
/// gives no bytes, zeros, or the bytes that getrandom(2) would. A pipe gives the oldest bytes that it holds; where it
/// holds none the answer is 0 if nobody writes to it, and else the call waits. The
/// errors are EBADF (the descriptor is not open, or not for reading), EISDIR (it is of a directory), EFAULT, and EAGAIN
/// (it would wait, and the description has O_NONBLOCK).
#[tactic(auto, unfolding(crate::specs::Reading::read_row))]
pub fn read<H: Host>(
    alloc: Global,
    fs: &mut Fs,
    host: &mut H,
    caller: &Caller,
    space: &mut Space,
    args: [u64; 6],
) -> Result<Answer, HostErr>
    requires { Sound (stage fs.old (H.view host.old) caller.now space.old) }
    ensures { HasRowReply read_row args (stage fs.old (H.view host.old) caller.now space.old)
        (stage fs.new (H.view host.new) caller.now space.new) result
        (H.count host.old) (H.count host.new) }
{
    let range = Range {
        address: args[1],
        len: byte_count(args[2]),
    };
    read_descriptor(alloc, fs, host, caller, space, low_word(args[0]), &[range])
}

/// readv(2): read(2) into several buffers, one after the other as one. The errors are EINVAL (more than 1,024 buffers),
/// EFAULT (the list of them may not be read), EINVAL (their lengths together pass the greatest signed number), and
/// those of read(2).
#[tactic(auto, unfolding(crate::specs::Reading::readv_row))]
pub fn readv<H: Host>(
    alloc: Global,
    fs: &mut Fs,
    host: &mut H,
    caller: &Caller,
    space: &mut Space,
    args: [u64; 6],
) -> Result<Answer, HostErr>
    requires { Sound (stage fs.old (H.view host.old) caller.now space.old) }
    ensures { HasRowReply readv_row args (stage fs.old (H.view host.old) caller.now space.old)
        (stage fs.new (H.view host.new) caller.now space.new) result
        (H.count host.old) (H.count host.new) }
{
    let _before = host.faults();
    match ranges_at(alloc, space, args[1], low_word(args[2]))? {
        Ok(ranges) => read_descriptor(alloc, fs, host, caller, space, low_word(args[0]), &ranges),
        Err(errno) => Ok(Answer::Refused(errno)),
    }
}

// Reads at the offset of a descriptor's description.
#[tactic(auto, using(crate::proofs::Described::same_kind))]
fn read_descriptor<H: Host>(
    alloc: Global,
    fs: &mut Fs,
    host: &mut H,
    caller: &Caller,
    space: &mut Space,
    fd: u32,
    ranges: &[Range],
) -> Result<Answer, HostErr>
    requires sound { Sound (stage fs.old (H.view host.old) caller.now space.old) }
    requires few { total_len ranges.now ≤ TRANSFER_LIMIT }
    ensures { HasReplyOf (λ s. on_description s (description_of s fd) (λ desc. read_reply fd ranges.now desc s))
        (stage fs.old (H.view host.old) caller.now space.old)
        (stage fs.new (H.view host.new) caller.now space.new) result
        (H.count host.old) (H.count host.new) }
{
    let _before = host.faults();
    let Some(desc) = fs.files.look(caller.vpid, fd) else {
        return Ok(Answer::Refused(Errno::BadF));
    };
    if !is_readable(desc) {
        return Ok(Answer::Refused(Errno::BadF));
    }
    let (kind, offset) = (desc.kind, offset_of(&desc.spot));
    read_by_kind(alloc, fs, host, caller, space, fd, ranges, kind, offset)
}

// Reads by what the descriptor refers to.
#[tactic(auto, unfolding(crate::specs::Reading::read_reply_by_kind), using(crate::proofs::Described::file_offset))]
fn read_by_kind<H: Host>(
    alloc: Global,
    fs: &mut Fs,
    host: &mut H,
    caller: &Caller,
    space: &mut Space,
    fd: u32,
    ranges: &[Range],
    kind: DescKind,
    offset: u64,
) -> Result<Answer, HostErr>
    requires sound { Sound (stage fs.old (H.view host.old) caller.now space.old) }
    requires few { total_len ranges.now ≤ TRANSFER_LIMIT }
    requires there { IsIn (shape_of fs.old.tree (H.view host.old).forest) kind }
    requires of_kind { IfSome (description_of (scene (stage fs.old (H.view host.old) caller.now space.old)) fd)
        (λ desc. desc.kind ≡ kind) }
    ensures { HasReplyOf (read_reply_by_kind fd ranges.now kind offset)
        (stage fs.old (H.view host.old) caller.now space.old)
        (stage fs.new (H.view host.new) caller.now space.new) result
        (H.count host.old) (H.count host.new) }
{
    let _before = host.faults();
    match kind {
        DescKind::File(n) => read_file(fs, host, caller, space, fd, ranges, n, offset),
        DescKind::Dir(_) => Ok(Answer::Refused(Errno::IsDir)),
        DescKind::Device(n) => read_device(alloc, fs, host, caller, space, ranges, n),
        DescKind::PipeRead(_) => read_from_pipe(alloc, fs, host, caller, space, fd, ranges),
        DescKind::Input => read_input(alloc, fs, host, caller, space, fd, ranges, offset),
        DescKind::PipeWrite(_) | DescKind::Stream(_) => Ok(Answer::Refused(Errno::BadF)),
    }
}

// Reads the input where its description stands.
fn read_input<H: Host>(
    alloc: Global,
    fs: &mut Fs,
    host: &H,
    caller: &Caller,
    space: &mut Space,
    fd: u32,
    ranges: &[Range],
    offset: u64,
) -> Result<Answer, HostErr>
    requires sound { Sound (stage fs.old (H.view host.now) caller.now space.old) }
    requires few { total_len ranges.now ≤ TRANSFER_LIMIT }
    requires at_offset { IfSome (description_of (scene (stage fs.old (H.view host.now) caller.now space.old)) fd)
        (λ desc. is_after (Spot.At offset) ≡ is_of_dir desc.kind) }
    ensures { HasReplyOf (input_read_reply fd offset ranges.now)
        (stage fs.old (H.view host.now) caller.now space.old)
        (stage fs.new (H.view host.now) caller.now space.new) result
        (H.count host.now) (H.count host.now) }
{
    let bytes = input_part(alloc, &fs.input, offset, total_len(ranges))?;
    receive(fs, host, caller, space, fd, ranges, offset, &bytes)
}

// At most so many bytes of the input, from an offset on.
fn input_part(alloc: Global, input: &Blob, offset: u64, most: u64) -> Result<Vec<u8>, NoMemory>
    ensures ok { IfOk result (λ bytes. bytes.items ≡ take most (drop offset input.now)) }
    ensures fits { IfOk result (λ bytes. offset + length bytes.items < 2 ^ 64) }
{
    let bytes = input.as_slice();
    let left = (bytes.len() as u64).saturating_sub(offset);
    if left == 0 {
        return Ok(Vec::new(alloc));
    }
    let start = offset as usize;
    let end = start + left.min(most) as usize;
    Ok(Vec::from_slice(alloc, &bytes[start..end])?)
}

// Reads a device.
fn read_device<H: Host>(
    alloc: Global,
    fs: &mut Fs,
    host: &H,
    caller: &Caller,
    space: &mut Space,
    ranges: &[Range],
    n: u64,
) -> Result<Answer, HostErr>
    requires sound { Sound (stage fs.old (H.view host.now) caller.now space.old) }
    requires few { total_len ranges.now ≤ TRANSFER_LIMIT }
    requires device { IsDevice (shape_of fs.old.tree (H.view host.now).forest) n }
    ensures { HasReplyOf (device_read_reply n ranges.now)
        (stage fs.old (H.view host.now) caller.now space.old)
        (stage fs.new (H.view host.now) caller.now space.new) result
        (H.count host.now) (H.count host.now) }
{
    match fs.tree.device(n) {
        None | Some(Device::Null) => Ok(Answer::Value(0)),
        Some(Device::Zero) => read_zeros(alloc, fs, host, caller, space, ranges),
        Some(Device::Random) => read_random(alloc, fs, host, caller, space, ranges),
    }
}

// Fills ranges with zeros.
fn read_zeros<H: Host>(
    alloc: Global,
    fs: &Fs,
    host: &H,
    caller: &Caller,
    space: &mut Space,
    ranges: &[Range],
) -> Result<Answer, HostErr>
    requires sound { Sound (stage fs.now (H.view host.now) caller.now space.old) }
    requires few { total_len ranges.now ≤ TRANSFER_LIMIT }
    ensures { HasReplyOf (bytes_of_device_reply (Some Device.Zero) ranges.now)
        (stage fs.now (H.view host.now) caller.now space.old)
        (stage fs.now (H.view host.now) caller.now space.new) result
        (H.count host.now) (H.count host.now) }
{
    let Some(bytes) = room_for(alloc, space, ranges)? else {
        return Ok(Answer::Refused(Errno::Fault));
    };
    put(space, ranges, &bytes)?;
    Ok(Answer::Value(bytes.len() as u64))
}

// Fills ranges with the next bytes of the seed's words.
fn read_random<H: Host>(
    alloc: Global,
    fs: &mut Fs,
    host: &H,
    caller: &Caller,
    space: &mut Space,
    ranges: &[Range],
) -> Result<Answer, HostErr>
    requires sound { Sound (stage fs.old (H.view host.now) caller.now space.old) }
    requires few { total_len ranges.now ≤ TRANSFER_LIMIT }
    ensures { HasReplyOf (bytes_of_device_reply (Some Device.Random) ranges.now)
        (stage fs.old (H.view host.now) caller.now space.old)
        (stage fs.new (H.view host.now) caller.now space.new) result
        (H.count host.now) (H.count host.now) }
{
    let Some(mut bytes) = room_for(alloc, space, ranges)? else {
        return Ok(Answer::Refused(Errno::Fault));
    };
    fs.rand.fill(&mut bytes);
    put(space, ranges, &bytes)?;
    Ok(Answer::Value(bytes.len() as u64))
}

// As many zeros as ranges have bytes, if each of these may be written. That is looked at first, since they may be near
// 2 GiB, and a process has 64 MiB at most.
fn room_for(alloc: Global, space: &Space, ranges: &[Range]) -> Result<Option<Vec<u8>>, NoMemory>
    requires { total_len ranges.now ≤ TRANSFER_LIMIT }
    ensures zeros { IfOk result (λ found. IfSome found (λ bytes. bytes.items ≡ replicate (total_len ranges.now) 0)) }
    ensures room { IfOk result (λ found. IfSome found (λ _. (bytes : List ℕ) → length bytes ≡ total_len ranges.now
        → IsOk (scattered_pages space.now ranges.now bytes))) }
    ensures none { IfOk result (λ found. found ≡ None → (bytes : List ℕ) → length bytes ≡ total_len ranges.now
        → IsErr (scattered_pages space.now ranges.now bytes)) }
{
    if writable(space, ranges).is_err() {
        return Ok(None);
    }
    Ok(Some(vec![in alloc; 0; total_len(ranges) as usize]?))
}

#[tactic(auto, unfolding(crate::specs::Reading::pipe_read_reply))]
fn read_from_pipe<H: Host>(
    alloc: Global,
    fs: &mut Fs,
    host: &mut H,
    caller: &Caller,
    space: &mut Space,
    fd: u32,
    ranges: &[Range],
) -> Result<Answer, HostErr>
    requires sound { Sound (stage fs.old (H.view host.old) caller.now space.old) }
    requires of_pipe { IfSome (description_of (scene (stage fs.old (H.view host.old) caller.now space.old)) fd)
        (λ desc. write_pipe desc.kind ≡ None) }
    ensures { HasReplyOf (pipe_read_reply fd ranges.now)
        (stage fs.old (H.view host.old) caller.now space.old)
        (stage fs.new (H.view host.new) caller.now space.new) result
        (H.count host.old) (H.count host.new) }
{
    let _before = host.faults();
    let most = total_len(ranges);
    if most == 0 {
        return Ok(Answer::Value(0));
    }
    let held = fs.files.held(caller.vpid, fd) as u64;
    let mut bytes = vec![in alloc; 0; held.min(most) as usize]?;
    read_through(fs, host, caller, space, fd, ranges, &mut bytes)
}

// Reads a pipe into a buffer that takes as much as comes, and puts that into the ranges; where it may not be put there
// nothing is read.
fn read_through<H: Host>(
    fs: &mut Fs,
    host: &mut H,
    caller: &Caller,
    space: &mut Space,
    fd: u32,
    ranges: &[Range],
    buf: &mut [u8],
) -> Result<Answer, HostErr>
    requires sound { Sound (stage fs.old (H.view host.old) caller.now space.old) }
    requires of_pipe { IfSome (description_of (scene (stage fs.old (H.view host.old) caller.now space.old)) fd)
        (λ desc. write_pipe desc.kind ≡ None) }
    requires some { total_len ranges.now ≢ 0 }
    requires size { length buf.old ≡ min (length (pipe_content_at (pipes_at fs.old.files (H.view host.old).pipes)
        (description_of (scene (stage fs.old (H.view host.old) caller.now space.old)) fd))) (total_len ranges.now) }
    ensures { HasReplyOf (pipe_read_reply fd ranges.now)
        (stage fs.old (H.view host.old) caller.now space.old)
        (stage fs.new (H.view host.new) caller.now space.new) result
        (H.count host.old) (H.count host.new) }
{
    let _before = host.faults();
    match may_scatter(space, ranges, buf) {
        Ok(()) => {}
        Err(_) => return Ok(Answer::Refused(Errno::Fault)),
    }
    let answer = pipe_answer(fs.files.pipe_read(host, caller.vpid, fd, buf))?;
    put(space, ranges, buf)?;
    Ok(answer)
}

// Reads a file where its description stands.
#[tactic(auto, using(crate::proofs::Parts::came))]
fn read_file<H: Host>(
    fs: &mut Fs,
    host: &mut H,
    caller: &Caller,
    space: &mut Space,
    fd: u32,
    ranges: &[Range],
    n: u64,
    offset: u64,
) -> Result<Answer, HostErr>
    requires sound { Sound (stage fs.old (H.view host.old) caller.now space.old) }
    requires file { IsFile (shape_of fs.old.tree (H.view host.old).forest) n }
    requires at_offset { IfSome (description_of (scene (stage fs.old (H.view host.old) caller.now space.old)) fd)
        (λ desc. is_after (Spot.At offset) ≡ is_of_dir desc.kind) }
    ensures { HasReplyOf (file_read_reply fd n offset ranges.now)
        (stage fs.old (H.view host.old) caller.now space.old)
        (stage fs.new (H.view host.new) caller.now space.new) result
        (H.count host.old) (H.count host.new) }
{
    let bytes = read_part(host, &fs.tree, ranges, n, offset)?;
    receive(fs, host, caller, space, fd, ranges, offset, &bytes)
}

// Puts the bytes that came into ranges, and lets the description go on behind them.
#[tactic(auto, using(crate::proofs::Described::same_nodes))]
fn receive<H: Host>(
    fs: &mut Fs,
    host: &H,
    caller: &Caller,
    space: &mut Space,
    fd: u32,
    ranges: &[Range],
    offset: u64,
    bytes: &[u8],
) -> Result<Answer, HostErr>
    requires sound { Sound (stage fs.old (H.view host.now) caller.now space.old) }
    requires fits { offset + length bytes.now < 2 ^ 64 }
    requires at_offset { IfSome (description_of (scene (stage fs.old (H.view host.now) caller.now space.old)) fd)
        (λ desc. is_after (Spot.At offset) ≡ is_of_dir desc.kind) }
    ensures { HasReplyOf (λ s. received_reply s fd offset (length bytes.now)
        (scattered_pages s.space ranges.now bytes.now))
        (stage fs.old (H.view host.now) caller.now space.old)
        (stage fs.new (H.view host.now) caller.now space.new) result
        (H.count host.now) (H.count host.now) }
{
    if scatter(space, ranges, bytes)?.is_err() {
        return Ok(Answer::Refused(Errno::Fault));
    }
    let count = bytes.len() as u64;
    fs.files
        .set_place(caller.vpid, fd, Spot::At(offset + count));
    Ok(Answer::Value(count))
}

/// pread64(2): read(2) at an offset, while the description stays where it is. The errors are EINVAL (a negative
/// offset), EBADF (the descriptor is not open, or not for reading), EISDIR, ESPIPE (it is of no file), and EFAULT.
#[tactic(auto, unfolding(crate::specs::Reading::pread64_row))]
pub fn pread64<H: Host>(
    alloc: Global,
    fs: &mut Fs,
    host: &mut H,
    caller: &Caller,
    space: &mut Space,
    args: [u64; 6],
) -> Result<Answer, HostErr>
    requires { Sound (stage fs.old (H.view host.old) caller.now space.old) }
    ensures { HasRowReply pread64_row args (stage fs.old (H.view host.old) caller.now space.old)
        (stage fs.new (H.view host.new) caller.now space.new) result
        (H.count host.old) (H.count host.new) }
{
    let _before = host.faults();
    if args[3] > i64::MAX as u64 {
        return Ok(Answer::Refused(Errno::Inval));
    }
    let Some(desc) = fs.files.look(caller.vpid, low_word(args[0])) else {
        return Ok(Answer::Refused(Errno::BadF));
    };
    if !is_readable(desc) {
        return Ok(Answer::Refused(Errno::BadF));
    }
    let range = Range {
        address: args[1],
        len: byte_count(args[2]),
    };
    let kind = desc.kind;
    read_by_kind_at(alloc, fs, host, caller, space, &[range], kind, args[3])
}

// Reads at an offset by what the descriptor refers to.
fn read_by_kind_at<H: Host>(
    alloc: Global,
    fs: &mut Fs,
    host: &mut H,
    caller: &Caller,
    space: &mut Space,
    ranges: &[Range],
    kind: DescKind,
    offset: u64,
) -> Result<Answer, HostErr>
    requires sound { Sound (stage fs.old (H.view host.old) caller.now space.old) }
    requires few { total_len ranges.now ≤ TRANSFER_LIMIT }
    requires there { IsIn (shape_of fs.old.tree (H.view host.old).forest) kind }
    ensures { HasReplyOf (read_at_reply_by_kind offset ranges.now kind)
        (stage fs.old (H.view host.old) caller.now space.old)
        (stage fs.new (H.view host.new) caller.now space.new) result
        (H.count host.old) (H.count host.new) }
{
    let _before = host.faults();
    match kind {
        DescKind::File(n) => read_file_at(fs, host, caller, space, ranges, n, offset),
        DescKind::Dir(_) => Ok(Answer::Refused(Errno::IsDir)),
        DescKind::Device(n) => read_device(alloc, fs, host, caller, space, ranges, n),
        DescKind::PipeRead(_) | DescKind::PipeWrite(_) | DescKind::Input | DescKind::Stream(_) =>
            Ok(Answer::Refused(Errno::SPipe)),
    }
}

// Reads a file from an offset on.
#[tactic(auto, using(crate::proofs::Parts::came))]
fn read_file_at<H: Host>(
    fs: &Fs,
    host: &mut H,
    caller: &Caller,
    space: &mut Space,
    ranges: &[Range],
    n: u64,
    offset: u64,
) -> Result<Answer, HostErr>
    requires sound { Sound (stage fs.now (H.view host.old) caller.now space.old) }
    requires file { IsFile (shape_of fs.now.tree (H.view host.old).forest) n }
    ensures { HasReplyOf (file_read_at_reply n offset ranges.now)
        (stage fs.now (H.view host.old) caller.now space.old)
        (stage fs.now (H.view host.new) caller.now space.new) result
        (H.count host.old) (H.count host.new) }
{
    let bytes = read_part(host, &fs.tree, ranges, n, offset)?;
    fill_ranges(fs, host, caller, space, ranges, &bytes)
}

// Puts the bytes that came into ranges.
fn fill_ranges<H: Host>(
    fs: &Fs,
    host: &H,
    caller: &Caller,
    space: &mut Space,
    ranges: &[Range],
    bytes: &[u8],
) -> Result<Answer, HostErr>
    requires { Sound (stage fs.now (H.view host.now) caller.now space.old) }
    ensures { HasReplyOf (λ s. filled_reply s (length bytes.now) (scattered_pages s.space ranges.now bytes.now))
        (stage fs.now (H.view host.now) caller.now space.old)
        (stage fs.now (H.view host.now) caller.now space.new) result
        (H.count host.now) (H.count host.now) }
{
    if scatter(space, ranges, bytes)?.is_err() {
        return Ok(Answer::Refused(Errno::Fault));
    }
    Ok(Answer::Value(bytes.len() as u64))
}

// As much of a file as ranges take, from an offset on.
fn read_part<H: Host>(
    host: &mut H,
    tree: &Tree,
    ranges: &[Range],
    n: u64,
    offset: u64,
) -> Result<Vec<u8>, HostErr>
    requires stands { Stands tree.now (H.view host.old).forest }
    requires file { IsFile (shape_of tree.now (H.view host.old).forest) n }
    ensures ok { IfOk result (λ bytes. bytes.items ≡ take (total_len ranges.now)
        (drop offset (content (shape_of tree.now (H.view host.old).forest) n))) }
    ensures fits { IfOk result (λ bytes. offset + length bytes.items < 2 ^ 64) }
    ensures asks { Asks H.view H.count host.old host.new result }
{
    tree.read_part(host, n, offset, total_len(ranges))
}
