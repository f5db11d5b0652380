// The call that tells and changes what a process does about a signal (rt_sigaction(2)).
ghost use Rattle.std.specs.Prelude.{◌≡◌, ◌≤◌, IfOk, OnErr};
ghost use Rattle.dt_space.specs.Space.{IsSpace};
ghost use Rattle.dt_sigcalls.specs.Called.{signal_call_result, IsDone};
ghost use Rattle.dt_signals.specs.Signals.{is_signal};
ghost use Rattle.dt_sigcalls.specs.Sigaction.{is_fixed, action_bytes, action_in, new_action, sigaction_by_new};
ghost use Rattle.dt_sigcalls.specs.Sigaction.{sigaction_of};

use crate::buffers::store_unless_null;
use crate::numbers::{SA_FLAGS, SA_HANDLER, SA_MASK, SIGACTION_SIZE};
use dt_base::abi::{SIGKILL, SIGNAL_LIMIT, SIGSET_SIZE, SIGSTOP, low_word};
use dt_base::{Answer, Errno, NoMemory, get64, put64};
use dt_signals::{Action, Sig};
use dt_space::{Miss, Space, WriteErr};

/// rt_sigaction(2): puts the old action of a signal into a buffer, and another action in its place; either address may
/// be 0. EINVAL for a set of another size than 8, for a number that is no signal's, and for a new action of SIGKILL or
/// SIGSTOP; EFAULT where the new action can't be read, or else where the old one can't be put into its buffer. A call
/// that is refused changes nothing. Neither does one that wants memory, which only a call can that would else be done.
#[tactic(auto, unfolding(crate::specs::Sigaction::sigaction_of))]
pub fn rt_sigaction(
    sig: &mut Sig,
    space: &mut Space,
    number: u64,
    act: u64,
    old: u64,
    size: u64,
) -> Result<Answer, NoMemory>
    ensures called { IfOk result (λ answer.
        sigaction_of sig.old space.old number act old size ≡ signal_call_result sig.new space.new answer) }
    ensures memory { OnErr result (IsDone (sigaction_of sig.old space.old number act old size)) }
    ensures signals_kept { OnErr result (sig.new ≡ sig.old) }
    ensures pages_kept { OnErr result (space.new ≡ space.old) }
    ensures sound { IsSpace space.new }
{
    let _sound = space.pages();
    let signal = low_word(number);
    if size != SIGSET_SIZE || !is_signal(signal) || act != 0 && is_fixed(signal) {
        return Ok(Answer::Refused(Errno::Inval));
    }
    change_action(sig, space, signal as u8, act, old)
}

// Puts the old action of a signal into its buffer, and the new one in its place.
fn change_action(
    sig: &mut Sig,
    space: &mut Space,
    signal: u8,
    act: u64,
    old: u64,
) -> Result<Answer, NoMemory>
    requires least { 1 ≤ signal }
    requires greatest { signal ≤ SIGNAL_LIMIT }
    ensures called { IfOk result (λ answer.
        sigaction_by_new sig.old space.old signal old (new_action space.old act)
        ≡ signal_call_result sig.new space.new answer) }
    ensures memory { OnErr result
        (IsDone (sigaction_by_new sig.old space.old signal old (new_action space.old act))) }
    ensures signals_kept { OnErr result (sig.new ≡ sig.old) }
    ensures pages_kept { OnErr result (space.new ≡ space.old) }
    ensures sound { IsSpace space.new }
{
    let _sound = space.pages();
    let Ok(action) = new_action(space, act) else {
        return Ok(Answer::Refused(Errno::Fault));
    };
    let bytes = action_bytes(sig.action(signal));
    match store_unless_null(space, old, &bytes) {
        Ok(()) => {}
        Err(WriteErr::Miss(_)) => return Ok(Answer::Refused(Errno::Fault)),
        Err(WriteErr::NoMemory) => return Err(NoMemory),
    }
    if let Some(action) = action {
        sig.set_action(signal, action);
    }
    Ok(Answer::Value(0))
}

// The new action, or none where the address is 0.
fn new_action(space: &Space, address: u64) -> Result<Option<Action>, Miss>
    ensures { result ≡ new_action space.now address }
{
    if address == 0 {
        return Ok(None);
    }
    let mut bytes = [0; SIGACTION_SIZE];
    space.read_bytes(address, &mut bytes)?;
    Ok(Some(action_in(&bytes)))
}

// Whether there is a signal of this number.
fn is_signal(number: u32) -> bool
    ensures { result ≡ is_signal number }
{
    1 <= number && number <= SIGNAL_LIMIT as u32
}

// Whether what is done about these signals can't be changed.
fn is_fixed(signal: u32) -> bool
    ensures { result ≡ is_fixed signal }
{
    signal == u32::from(SIGKILL) || signal == u32::from(SIGSTOP)
}

// An action as it stands in memory.
fn action_bytes(action: Action) -> [u8; SIGACTION_SIZE]
    ensures { result ≡ action_bytes action }
{
    let mut bytes = [0; SIGACTION_SIZE];
    put64(&mut bytes, SA_HANDLER, action.handler);
    put64(&mut bytes, SA_FLAGS, action.flags);
    put64(&mut bytes, SA_MASK, action.mask);
    bytes
}

// The action of these bytes.
fn action_in(bytes: &[u8; SIGACTION_SIZE]) -> Action
    ensures { result ≡ action_in bytes.now }
{
    Action {
        handler: get64(bytes, SA_HANDLER).unwrap_or(0),
        flags: get64(bytes, SA_FLAGS).unwrap_or(0),
        mask: get64(bytes, SA_MASK).unwrap_or(0),
    }
}
