// The calls on descriptors themselves.
ghost use Rattle.std.specs.Prelude.{◌≡◌, ◌≢◌, ◌≤◌, false, unwrap_or};
ghost use Rattle.dt_fds.specs.Descriptions.{cloexec_at};
ghost use Rattle.dt_fds.specs.Holding.{dup_call};
ghost use Rattle.dt_iocalls.specs.Descriptors.{close_row, dup_row, dup_at_reply, dup3_row, is_command, dup_from_reply};
ghost use Rattle.dt_iocalls.specs.Descriptors.{set_cloexec_reply, set_flags_reply, flags_of, command_reply, fcntl_row};
ghost use Rattle.dt_iocalls.specs.Descriptors.{ioctl_row};
ghost use Rattle.dt_base.specs.Abi.{has_flag};
ghost use Rattle.dt_callbase.specs.Scene.{files_call_reply, holding};
ghost use Rattle.dt_callbase.specs.Sound.{Sound, HasRowReply, HasReplyOf, stage, scene};

use dt_base::abi::{
    F_DUPFD, F_DUPFD_CLOEXEC, F_GETFD, F_GETFL, F_SETFD, F_SETFL, FD_CLOEXEC, O_APPEND, O_CLOEXEC,
    O_NONBLOCK, has_flag, low_word,
};
use dt_base::{Answer, Caller, Errno};
use dt_callbase::Fs;
use dt_fds::{DESCRIPTOR_LIMIT, Desc};
use dt_host::{CallErr, Host, HostErr};
use dt_space::Space;

/// close(2): closes a descriptor, and answers 0. The error is EBADF.
#[tactic(auto, unfolding(crate::specs::Descriptors::close_row))]
pub fn close<H: Host>(
    fs: &mut Fs,
    host: &mut H,
    caller: &Caller,
    space: &Space,
    args: [u64; 6],
) -> Result<Answer, HostErr>
    requires { Sound (stage fs.old (H.view host.old) caller.now space.now) }
    ensures { HasRowReply close_row args (stage fs.old (H.view host.old) caller.now space.now)
        (stage fs.new (H.view host.new) caller.now space.now) result
        (H.count host.old) (H.count host.new) }
{
    let _before = host.faults();
    match fs
        .files
        .close(host, &mut fs.tree, caller.vpid, low_word(args[0]))
    {
        Ok(()) => Ok(Answer::Value(0)),
        Err(CallErr::Errno(errno)) => Ok(Answer::Refused(errno)),
        Err(CallErr::Host(error)) => Err(error),
    }
}

/// dup(2): duplicates a descriptor under the lowest free one, and answers that. The errors are EBADF and EMFILE.
#[tactic(auto, unfolding(crate::specs::Descriptors::dup_row))]
pub fn dup<H: Host>(
    fs: &mut Fs,
    host: &H,
    caller: &Caller,
    space: &Space,
    args: [u64; 6],
) -> Result<Answer, HostErr>
    requires { Sound (stage fs.old (H.view host.now) caller.now space.now) }
    ensures { HasRowReply dup_row args (stage fs.old (H.view host.now) caller.now space.now)
        (stage fs.new (H.view host.now) caller.now space.now) result
        (H.count host.now) (H.count host.now) }
{
    duplicate(fs, host, caller, space, low_word(args[0]), 0, false)
}

// Duplicates a descriptor under the lowest free one from a given one on, and answers that.
fn duplicate<H: Host>(
    fs: &mut Fs,
    host: &H,
    caller: &Caller,
    space: &Space,
    fd: u32,
    from: u32,
    cloexec: bool,
) -> Result<Answer, HostErr>
    requires { Sound (stage fs.old (H.view host.now) caller.now space.now) }
    ensures { HasReplyOf (λ s. files_call_reply (λ new. new) s (dup_call s.caller.vpid fd from cloexec (holding s)))
        (stage fs.old (H.view host.now) caller.now space.now)
        (stage fs.new (H.view host.now) caller.now space.now) result
        (H.count host.now) (H.count host.now) }
{
    match fs.files.dup(caller.vpid, fd, from, cloexec) {
        Ok(new) => Ok(Answer::Value(u64::from(new))),
        Err(CallErr::Errno(errno)) => Ok(Answer::Refused(errno)),
        Err(CallErr::Host(error)) => Err(error),
    }
}

/// dup3(2): lets a descriptor refer to the description of another one, and answers it; it is closed first, if it is
/// open. The errors are EINVAL (a flag that is not O_CLOEXEC, or the same descriptor twice) and EBADF (the old one is
/// not open, or the new one is past the limit).
#[tactic(auto, unfolding(crate::specs::Descriptors::dup3_row))]
pub fn dup3<H: Host>(
    fs: &mut Fs,
    host: &mut H,
    caller: &Caller,
    space: &Space,
    args: [u64; 6],
) -> Result<Answer, HostErr>
    requires { Sound (stage fs.old (H.view host.old) caller.now space.now) }
    ensures { HasRowReply dup3_row args (stage fs.old (H.view host.old) caller.now space.now)
        (stage fs.new (H.view host.new) caller.now space.now) result
        (H.count host.old) (H.count host.new) }
{
    let _before = host.faults();
    let (old, new) = (low_word(args[0]), low_word(args[1]));
    let flags = low_word(args[2]);
    if flags | O_CLOEXEC != O_CLOEXEC || old == new {
        return Ok(Answer::Refused(Errno::Inval));
    }
    dup_at(fs, host, caller, space, old, new, flags)
}

// Lets a descriptor refer to the description of another one, and answers it.
fn dup_at<H: Host>(
    fs: &mut Fs,
    host: &mut H,
    caller: &Caller,
    space: &Space,
    old: u32,
    new: u32,
    flags: u32,
) -> Result<Answer, HostErr>
    requires sound { Sound (stage fs.old (H.view host.old) caller.now space.now) }
    requires apart { old ≢ new }
    ensures { HasReplyOf (dup_at_reply old new flags) (stage fs.old (H.view host.old) caller.now space.now)
        (stage fs.new (H.view host.new) caller.now space.now) result
        (H.count host.old) (H.count host.new) }
{
    let _before = host.faults();
    let cloexec = has_flag(flags, O_CLOEXEC);
    match fs
        .files
        .dup_at(host, &mut fs.tree, caller.vpid, old, new, cloexec)
    {
        Ok(()) => Ok(Answer::Value(u64::from(new))),
        Err(CallErr::Errno(errno)) => Ok(Answer::Refused(errno)),
        Err(CallErr::Host(error)) => Err(error),
    }
}

/// fcntl(2): F_DUPFD and F_DUPFD_CLOEXEC duplicate a descriptor under the lowest free one from the argument on, and
/// answer that; F_GETFD and F_SETFD tell and set the close-on-exec bit, F_GETFL and F_SETFL the flags of the
/// description. Other commands are not supported. The errors are EBADF, EINVAL (no descriptor is so high), and EMFILE.
#[tactic(auto, unfolding(crate::specs::Descriptors::fcntl_row))]
pub fn fcntl<H: Host>(
    fs: &mut Fs,
    host: &H,
    caller: &Caller,
    space: &Space,
    args: [u64; 6],
) -> Result<Answer, HostErr>
    requires { Sound (stage fs.old (H.view host.now) caller.now space.now) }
    ensures { HasRowReply fcntl_row args (stage fs.old (H.view host.now) caller.now space.now)
        (stage fs.new (H.view host.now) caller.now space.now) result
        (H.count host.now) (H.count host.now) }
{
    if !is_command(args[1]) {
        return Ok(Answer::Unsupported);
    }
    let fd = low_word(args[0]);
    match fs.files.look(caller.vpid, fd) {
        Some(desc) => {
            let flags = flags_of(desc);
            carry_out(fs, host, caller, space, args[1], fd, args[2], flags)
        }
        None => Ok(Answer::Refused(Errno::BadF)),
    }
}

// Whether a command of fcntl(2) is supported.
fn is_command(command: u64) -> bool
    ensures { result ≡ is_command command }
{
    matches!(
        command,
        F_DUPFD | F_GETFD | F_SETFD | F_GETFL | F_SETFL | F_DUPFD_CLOEXEC
    )
}

// The access mode and the flags of a description.
fn flags_of(desc: &Desc) -> u32
    ensures { result ≡ flags_of desc.now }
{
    let append = if desc.append { O_APPEND } else { 0 };
    let nonblock = if desc.nonblock { O_NONBLOCK } else { 0 };
    u32::from(desc.access) + append + nonblock
}

// Carries out a command, where the flags of the description are these.
#[tactic(auto, unfolding(crate::specs::Descriptors::command_reply))]
fn carry_out<H: Host>(
    fs: &mut Fs,
    host: &H,
    caller: &Caller,
    space: &Space,
    command: u64,
    fd: u32,
    arg: u64,
    flags: u32,
) -> Result<Answer, HostErr>
    requires { Sound (stage fs.old (H.view host.now) caller.now space.now) }
    ensures { HasReplyOf (command_reply command fd arg flags)
        (stage fs.old (H.view host.now) caller.now space.now)
        (stage fs.new (H.view host.now) caller.now space.now) result
        (H.count host.now) (H.count host.now) }
{
    match command {
        F_DUPFD => dup_from(fs, host, caller, space, fd, arg, false),
        F_DUPFD_CLOEXEC => dup_from(fs, host, caller, space, fd, arg, true),
        F_GETFD if is_cloexec(fs, caller, fd) => Ok(Answer::Value(FD_CLOEXEC)),
        F_GETFD => Ok(Answer::Value(0)),
        F_SETFD => set_cloexec(fs, host, caller, space, fd, arg),
        F_GETFL => Ok(Answer::Value(u64::from(flags))),
        _ => set_flags(fs, host, caller, space, fd, arg),
    }
}

// Duplicates a descriptor under the lowest free one from a given one on, if a process can have that.
fn dup_from<H: Host>(
    fs: &mut Fs,
    host: &H,
    caller: &Caller,
    space: &Space,
    fd: u32,
    from: u64,
    cloexec: bool,
) -> Result<Answer, HostErr>
    requires { Sound (stage fs.old (H.view host.now) caller.now space.now) }
    ensures { HasReplyOf (dup_from_reply fd from cloexec)
        (stage fs.old (H.view host.now) caller.now space.now)
        (stage fs.new (H.view host.now) caller.now space.now) result
        (H.count host.now) (H.count host.now) }
{
    if from >= DESCRIPTOR_LIMIT as u64 {
        return Ok(Answer::Refused(Errno::Inval));
    }
    duplicate(fs, host, caller, space, fd, from as u32, cloexec)
}

// Whether a descriptor is closed at execve(2).
fn is_cloexec(fs: &Fs, caller: &Caller, fd: u32) -> bool
    ensures { result ≡ unwrap_or (cloexec_at fs.now.files.descriptors caller.now.vpid fd) false }
{
    fs.files.is_cloexec(caller.vpid, fd).unwrap_or(false)
}

// Sets the close-on-exec bit of a descriptor.
fn set_cloexec<H: Host>(
    fs: &mut Fs,
    host: &H,
    caller: &Caller,
    space: &Space,
    fd: u32,
    arg: u64,
) -> Result<Answer, HostErr>
    requires { Sound (stage fs.old (H.view host.now) caller.now space.now) }
    ensures { HasReplyOf (set_cloexec_reply fd arg)
        (stage fs.old (H.view host.now) caller.now space.now)
        (stage fs.new (H.view host.now) caller.now space.now) result
        (H.count host.now) (H.count host.now) }
{
    fs.files
        .set_cloexec(caller.vpid, fd, asks_for(arg, FD_CLOEXEC));
    Ok(Answer::Value(0))
}

// Sets the flags of a descriptor's description.
fn set_flags<H: Host>(
    fs: &mut Fs,
    host: &H,
    caller: &Caller,
    space: &Space,
    fd: u32,
    arg: u64,
) -> Result<Answer, HostErr>
    requires { Sound (stage fs.old (H.view host.now) caller.now space.now) }
    ensures { HasReplyOf (set_flags_reply fd arg)
        (stage fs.old (H.view host.now) caller.now space.now)
        (stage fs.new (H.view host.now) caller.now space.now) result
        (H.count host.now) (H.count host.now) }
{
    let append = asks_for(arg, u64::from(O_APPEND));
    let nonblock = asks_for(arg, u64::from(O_NONBLOCK));
    fs.files.set_flags(caller.vpid, fd, append, nonblock);
    Ok(Answer::Value(0))
}

// Whether a flag is among those of an argument.
fn asks_for(arg: u64, flag: u64) -> bool
    ensures { result ≡ has_flag arg flag }
{
    arg & flag == flag
}

/// ioctl(2): nothing that is open is a terminal. The errors are EBADF and ENOTTY.
#[tactic(auto, unfolding(crate::specs::Descriptors::ioctl_row))]
pub fn ioctl<H: Host>(
    fs: &Fs,
    host: &H,
    caller: &Caller,
    space: &Space,
    args: [u64; 6],
) -> Result<Answer, HostErr>
    requires { Sound (stage fs.now (H.view host.now) caller.now space.now) }
    ensures { HasRowReply ioctl_row args (stage fs.now (H.view host.now) caller.now space.now)
        (stage fs.now (H.view host.now) caller.now space.now) result
        (H.count host.now) (H.count host.now) }
{
    match fs.files.look(caller.vpid, low_word(args[0])) {
        Some(_) => Ok(Answer::Refused(Errno::NoTty)),
        None => Ok(Answer::Refused(Errno::BadF)),
    }
}
