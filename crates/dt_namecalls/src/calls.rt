// The calls on names, by their numbers.
ghost use Rattle.std.specs.Prelude.{◌≡◌};
ghost use Rattle.dt_namecalls.specs.Calls.{is_naming, name_row};
ghost use Rattle.dt_callbase.specs.Sound.{Sound, HasRowReply, stage};

use crate::link::linkat;
use crate::names::{mkdirat, symlinkat};
use crate::rename::renameat2;
use crate::unlink::unlinkat;
use dt_base::abi::{LINKAT, MKDIRAT, RENAMEAT2, SYMLINKAT, UNLINKAT};
use dt_base::{Answer, Caller};
use dt_callbase::Fs;
use dt_host::{Host, HostErr};
use dt_space::Space;
use std::alloc::Global;

/// Whether a number is that of a call on names.
pub fn is_naming(number: u64) -> bool
    ensures { result ≡ is_naming number }
{
    matches!(number, MKDIRAT | UNLINKAT | SYMLINKAT | LINKAT | RENAMEAT2)
}

/// Serves the call of a number. One that is none of these calls is answered `Unsupported`.
#[tactic(auto, unfolding(crate::specs::Calls::name_row), using(crate::proofs::Kept::in_other_words))]
pub fn name_call<H: Host>(
    alloc: Global,
    fs: &mut Fs,
    host: &mut H,
    caller: &Caller,
    space: &Space,
    number: u64,
    args: [u64; 6],
) -> Result<Answer, HostErr>
    requires { Sound (stage fs.old (H.view host.old) caller.now space.now) }
    ensures { HasRowReply (name_row number) args (stage fs.old (H.view host.old) caller.now space.now)
        (stage fs.new (H.view host.new) caller.now space.now) result
        (H.count host.old) (H.count host.new) }
{
    let _before = host.faults();
    match number {
        MKDIRAT => mkdirat(alloc, fs, host, caller, space, args),
        UNLINKAT => unlinkat(alloc, fs, host, caller, space, args),
        SYMLINKAT => symlinkat(alloc, fs, host, caller, space, args),
        LINKAT => linkat(alloc, fs, host, caller, space, args),
        RENAMEAT2 => renameat2(alloc, fs, host, caller, space, args),
        _ => Ok(Answer::Unsupported),
    }
}
