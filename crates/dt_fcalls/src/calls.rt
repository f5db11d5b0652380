// The calls on paths, by their numbers.
ghost use Rattle.dt_fcalls.specs.Calls.{file_row};
ghost use Rattle.dt_callbase.specs.Sound.{Sound, HasRowReply, stage};

use crate::nodes::{chdir, faccessat, fchmodat, umask};
use crate::open::openat;
use crate::status::{fstat, getcwd, newfstatat, readlinkat};
use dt_base::abi::{
    CHDIR, FACCESSAT, FCHMODAT, FSTAT, GETCWD, NEWFSTATAT, OPENAT, READLINKAT, UMASK,
};
use dt_base::{Answer, Caller};
use dt_callbase::Fs;
use dt_host::{Host, HostErr};
use dt_space::Space;
use std::alloc::Global;

/// Serves the call of a number. One that is none of these calls is answered `Unsupported`.
#[tactic(auto, unfolding(crate::specs::Calls::file_row), using(crate::proofs::Kept::in_other_words))]
pub fn file_call<H: Host>(
    alloc: Global,
    fs: &mut Fs,
    host: &mut H,
    caller: &mut Caller,
    space: &mut Space,
    number: u64,
    args: [u64; 6],
) -> Result<Answer, HostErr>
    requires { Sound (stage fs.old (H.view host.old) caller.old space.old) }
    ensures { HasRowReply (file_row number) args (stage fs.old (H.view host.old) caller.old space.old)
        (stage fs.new (H.view host.new) caller.new space.new) result
        (H.count host.old) (H.count host.new) }
{
    let _before = host.faults();
    match number {
        GETCWD => getcwd(alloc, fs, host, caller, space, args),
        FACCESSAT => faccessat(alloc, fs, host, caller, space, args),
        CHDIR => chdir(alloc, fs, host, caller, space, args),
        FCHMODAT => fchmodat(alloc, fs, host, caller, space, args),
        OPENAT => openat(alloc, fs, host, caller, space, args),
        READLINKAT => readlinkat(alloc, fs, host, caller, space, args),
        NEWFSTATAT => newfstatat(alloc, fs, host, caller, space, args),
        FSTAT => fstat(fs, host, caller, space, args),
        UMASK => Ok(umask(caller, args)),
        _ => Ok(Answer::Unsupported),
    }
}
