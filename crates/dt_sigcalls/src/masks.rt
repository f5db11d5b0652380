// The call that tells and changes which signals a process blocks (rt_sigprocmask(2)).
ghost use Rattle.std.specs.Prelude.{◌≡◌, Ok, IfOk, OnErr};
ghost use Rattle.dt_space.specs.Space.{IsSpace};
ghost use Rattle.dt_sigcalls.specs.Called.{signal_call_result, IsDone};
ghost use Rattle.dt_sigcalls.specs.Sigprocmask.{new_set, changed_mask, sigprocmask_by_set, sigprocmask_of};

use crate::buffers::store_unless_null;
use dt_base::abi::{SIG_BLOCK, SIG_SETMASK, SIG_UNBLOCK, SIGSET_SIZE, low_word};
use dt_base::{Answer, Errno, NoMemory};
use dt_signals::Sig;
use dt_space::{Miss, Space, WriteErr};

/// rt_sigprocmask(2): puts the old mask into a buffer, and changes it by a set of signals; either address may be 0.
/// EINVAL for a set of another size than 8; EFAULT where the set can't be read; EINVAL then for a way to change the
/// mask that isn't known; EFAULT then where the old mask can't be put into its buffer. A call that is refused changes
/// nothing. Neither does one that wants memory, which only a call can that would else be done.
#[tactic(auto, unfolding(crate::specs::Sigprocmask::sigprocmask_of))]
pub fn rt_sigprocmask(
    sig: &mut Sig,
    space: &mut Space,
    how: u64,
    set: u64,
    old: u64,
    size: u64,
) -> Result<Answer, NoMemory>
    ensures called { IfOk result (λ answer.
        sigprocmask_of sig.old space.old how set old size ≡ signal_call_result sig.new space.new answer) }
    ensures memory { OnErr result (IsDone (sigprocmask_of sig.old space.old how set old size)) }
    ensures signals_kept { OnErr result (sig.new ≡ sig.old) }
    ensures pages_kept { OnErr result (space.new ≡ space.old) }
    ensures sound { IsSpace space.new }
{
    let _sound = space.pages();
    if size != SIGSET_SIZE {
        return Ok(Answer::Refused(Errno::Inval));
    }
    let Ok(set) = new_set(space, set) else {
        return Ok(Answer::Refused(Errno::Fault));
    };
    change_mask(sig, space, low_word(how), old, set)
}

// Puts the old mask into its buffer, and changes it by a set, if there is one.
fn change_mask(
    sig: &mut Sig,
    space: &mut Space,
    how: u32,
    old: u64,
    set: Option<u64>,
) -> Result<Answer, NoMemory>
    ensures called { IfOk result (λ answer.
        sigprocmask_by_set sig.old space.old how old (Ok set) ≡ signal_call_result sig.new space.new answer) }
    ensures memory { OnErr result (IsDone (sigprocmask_by_set sig.old space.old how old (Ok set))) }
    ensures signals_kept { OnErr result (sig.new ≡ sig.old) }
    ensures pages_kept { OnErr result (space.new ≡ space.old) }
    ensures sound { IsSpace space.new }
{
    let _sound = space.pages();
    if set.is_some() && how > SIG_SETMASK {
        return Ok(Answer::Refused(Errno::Inval));
    }
    match store_unless_null(space, old, &sig.mask().to_le_bytes()) {
        Ok(()) => {}
        Err(WriteErr::Miss(_)) => return Ok(Answer::Refused(Errno::Fault)),
        Err(WriteErr::NoMemory) => return Err(NoMemory),
    }
    if let Some(set) = set {
        sig.set_mask(changed_mask(how, set, sig.mask()));
    }
    Ok(Answer::Value(0))
}

// The set that is handed in, or none where the address is 0.
fn new_set(space: &Space, address: u64) -> Result<Option<u64>, Miss>
    ensures { result ≡ new_set space.now address }
{
    if address == 0 {
        return Ok(None);
    }
    Ok(Some(space.load8(address)?))
}

// A mask with the signals of a set added or taken out, or the set itself.
fn changed_mask(how: u32, set: u64, mask: u64) -> u64
    ensures { result ≡ changed_mask how set mask }
{
    match how {
        SIG_BLOCK => mask | set,
        SIG_UNBLOCK => mask & !set,
        _ => set,
    }
}
