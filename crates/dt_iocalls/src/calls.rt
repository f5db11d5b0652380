// The calls on open files, by their numbers.
ghost use Rattle.std.specs.Prelude.{◌≡◌};
ghost use Rattle.dt_iocalls.specs.Calls.{is_io, io_row};
ghost use Rattle.dt_callbase.specs.Sound.{Sound, HasRowReply, stage};

use crate::descriptors::{close, dup, dup3, fcntl, ioctl};
use crate::entries::getdents64;
use crate::piping::pipe2;
use crate::reading::{pread64, read, readv};
use crate::seeking::lseek;
use crate::writing::{ftruncate, pwrite64, write, writev};
use dt_base::abi::{
    CLOSE, DUP, DUP3, FCNTL, FTRUNCATE, GETDENTS64, IOCTL, LSEEK, PIPE2, PREAD64, PWRITE64, READ,
    READV, WRITE, WRITEV,
};
use dt_base::{Answer, Caller};
use dt_callbase::Fs;
use dt_host::{Host, HostErr};
use dt_space::Space;
use std::alloc::Global;

/// Whether a number is that of a call on open files.
pub fn is_io(number: u64) -> bool
    ensures { result ≡ is_io number }
{
    matches!(
        number,
        DUP | DUP3
            | FCNTL
            | IOCTL
            | FTRUNCATE
            | CLOSE
            | PIPE2
            | GETDENTS64
            | LSEEK
            | READ
            | WRITE
            | READV
            | WRITEV
            | PREAD64
            | PWRITE64
    )
}

/// Serves the call of a number. One that is none of these calls is answered `Unsupported`.
#[tactic(auto, unfolding(crate::specs::Calls::io_row), using(crate::proofs::Scenes::in_other_words))]
pub fn io_call<H: Host>(
    alloc: Global,
    fs: &mut Fs,
    host: &mut H,
    caller: &Caller,
    space: &mut Space,
    number: u64,
    args: [u64; 6],
) -> Result<Answer, HostErr>
    requires { Sound (stage fs.old (H.view host.old) caller.now space.old) }
    ensures { HasRowReply (io_row number) args (stage fs.old (H.view host.old) caller.now space.old)
        (stage fs.new (H.view host.new) caller.now space.new) result
        (H.count host.old) (H.count host.new) }
{
    let _before = host.faults();
    match number {
        DUP => dup(fs, host, caller, space, args),
        DUP3 => dup3(fs, host, caller, space, args),
        FCNTL => fcntl(fs, host, caller, space, args),
        IOCTL => ioctl(fs, host, caller, space, args),
        FTRUNCATE => ftruncate(fs, host, caller, space, args),
        CLOSE => close(fs, host, caller, space, args),
        PIPE2 => pipe2(fs, host, caller, space, args),
        GETDENTS64 => getdents64(alloc, fs, host, caller, space, args),
        LSEEK => lseek(fs, host, caller, space, args),
        READ => read(alloc, fs, host, caller, space, args),
        WRITE => write(alloc, fs, host, caller, space, args),
        READV => readv(alloc, fs, host, caller, space, args),
        WRITEV => writev(alloc, fs, host, caller, space, args),
        PREAD64 => pread64(alloc, fs, host, caller, space, args),
        PWRITE64 => pwrite64(alloc, fs, host, caller, space, args),
        _ => Ok(Answer::Unsupported),
    }
}
