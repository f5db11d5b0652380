// The calls on time and random bytes, by their numbers.
ghost use Rattle.std.specs.Prelude.{◌≡◌};
ghost use Rattle.dt_callbase.specs.Sound.{Sound, HasRowReply, stage};
ghost use Rattle.dt_timecalls.specs.Calls.{is_time_call, time_row};

use crate::random::getrandom;
use crate::time::{clock_gettime, clock_nanosleep, gettimeofday, nanosleep};
use dt_base::abi::{CLOCK_GETTIME, CLOCK_NANOSLEEP, GETRANDOM, GETTIMEOFDAY, NANOSLEEP};
use dt_base::{Answer, Caller};
use dt_callbase::Fs;
use dt_host::{Host, HostErr};
use dt_space::Space;
use std::alloc::Global;

/// Whether a number is that of a call on time or random bytes.
pub fn is_time_call(number: u64) -> bool
    ensures { result ≡ is_time_call number }
{
    matches!(
        number,
        NANOSLEEP | CLOCK_GETTIME | CLOCK_NANOSLEEP | GETTIMEOFDAY | GETRANDOM
    )
}

/// Serves the call of a number. One that is none of these calls is answered `Unsupported`.
#[tactic(auto, unfolding(crate::specs::Calls::time_row), using(crate::proofs::Kept::in_other_words))]
pub fn time_call<H: Host>(
    alloc: Global,
    fs: &mut Fs,
    host: &mut H,
    caller: &Caller,
    space: &mut Space,
    number: u64,
    args: [u64; 6],
) -> Result<Answer, HostErr>
    requires { Sound (stage fs.old (H.view host.old) caller.now space.old) }
    ensures { HasRowReply (time_row number) args (stage fs.old (H.view host.old) caller.now space.old)
        (stage fs.new (H.view host.new) caller.now space.new) result
        (H.count host.old) (H.count host.new) }
{
    let _before = host.faults();
    match number {
        NANOSLEEP => nanosleep(fs, host, caller, space, args),
        CLOCK_GETTIME => clock_gettime(fs, host, caller, space, args),
        CLOCK_NANOSLEEP => clock_nanosleep(fs, host, caller, space, args),
        GETTIMEOFDAY => gettimeofday(fs, host, caller, space, args),
        GETRANDOM => getrandom(alloc, fs, host, caller, space, args),
        _ => Ok(Answer::Unsupported),
    }
}
