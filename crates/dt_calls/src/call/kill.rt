// Signals that a process sends.
ghost use Rattle.std.specs.Prelude.{◌≡◌, None};
ghost use Rattle.dt_host.specs.World.{World};
ghost use Rattle.dt_calls.specs.Kill.{is_below_one, is_unsupported_signal};
ghost use Rattle.dt_calls.specs.Kill.{kill_call, tkill_call, tgkill_call, send_effect_to};
ghost use Rattle.dt_calls.specs.InCode.{shared_of, effect_as};
ghost use Rattle.dt_calls.specs.Sound.{ChangesTasks};

use super::Effect;
use crate::container::Served;
use crate::shared::Shared;
use dt_base::Errno;
use dt_base::abi::{
    A0, A1, A2, GREATEST_PID, KILL, SIGCHLD, SIGNAL_LIMIT, TGKILL, TKILL, low_word,
};
use dt_rv64::Machine;
use std::alloc::Global;

/// kill(2) of one process; to a group of processes it isn't supported.
#[tactic(auto, unfolding(crate::specs::Kill::kill_call))]
pub fn kill(alloc: Global, shared: &mut Shared, machine: &mut Machine) -> Effect
    ensures served { (w : World) → kill_call (shared_of shared.old w) machine.old
        ≡ effect_as (shared_of shared.new w) machine.new result }
    ensures kept { ChangesTasks shared.old shared.new }
    ensures child { result.child ≡ None }
{
    let (pid, signal) = (low_word(machine.reg(A0)), low_word(machine.reg(A1)));
    if is_below_one(pid) || is_unsupported_signal(signal) {
        return Effect::quiet(alloc, Served::Unsupported(KILL));
    }
    send(alloc, shared, machine, pid, signal)
}

/// Sends a signal to a process by the id of its one thread. EINVAL for an id below 1 (tkill(2)).
#[tactic(auto, unfolding(crate::specs::Kill::tkill_call))]
pub fn tkill(alloc: Global, shared: &mut Shared, machine: &mut Machine) -> Effect
    ensures served { (w : World) → tkill_call (shared_of shared.old w) machine.old
        ≡ effect_as (shared_of shared.new w) machine.new result }
    ensures kept { ChangesTasks shared.old shared.new }
    ensures child { result.child ≡ None }
{
    let (tid, signal) = (low_word(machine.reg(A0)), low_word(machine.reg(A1)));
    if is_unsupported_signal(signal) {
        return Effect::quiet(alloc, Served::Unsupported(TKILL));
    }
    if is_below_one(tid) {
        return Effect::refused(alloc, machine, Errno::Inval);
    }
    send(alloc, shared, machine, tid, signal)
}

/// tgkill(2): ESRCH also where the thread is of another process.
#[tactic(auto, unfolding(crate::specs::Kill::tgkill_call))]
pub fn tgkill(alloc: Global, shared: &mut Shared, machine: &mut Machine) -> Effect
    ensures served { (w : World) → tgkill_call (shared_of shared.old w) machine.old
        ≡ effect_as (shared_of shared.new w) machine.new result }
    ensures kept { ChangesTasks shared.old shared.new }
    ensures child { result.child ≡ None }
{
    let (tgid, tid) = (low_word(machine.reg(A0)), low_word(machine.reg(A1)));
    let signal = low_word(machine.reg(A2));
    if is_unsupported_signal(signal) {
        return Effect::quiet(alloc, Served::Unsupported(TGKILL));
    }
    if is_below_one(tgid) || is_below_one(tid) || signal > SIGNAL_LIMIT as u32 {
        return Effect::refused(alloc, machine, Errno::Inval);
    }
    if tgid != tid {
        return Effect::refused(alloc, machine, Errno::Srch);
    }
    send(alloc, shared, machine, tid, signal)
}

// Whether a pid, as a signed number, is below 1: no process has it.
fn is_below_one(pid: u32) -> bool
    ensures { result ≡ is_below_one pid }
{
    pid == 0 || pid > GREATEST_PID
}

// Whether these calls are not supported with a signal.
fn is_unsupported_signal(signal: u32) -> bool
    ensures { result ≡ is_unsupported_signal signal }
{
    signal > u32::from(SIGCHLD) && signal <= SIGNAL_LIMIT as u32
}

// Sends a signal to a process: EINVAL where there is none of this number, ESRCH where no such process is there.
fn send(alloc: Global, shared: &mut Shared, machine: &mut Machine, pid: u32, signal: u32) -> Effect
    ensures served { (w : World) → send_effect_to (shared_of shared.old w) machine.old pid signal
        ≡ effect_as (shared_of shared.new w) machine.new result }
    ensures kept { ChangesTasks shared.old shared.new }
    ensures child { result.child ≡ None }
{
    if signal > SIGNAL_LIMIT as u32 {
        return Effect::refused(alloc, machine, Errno::Inval);
    }
    if shared.pids.parent(pid).is_none() {
        return Effect::refused(alloc, machine, Errno::Srch);
    }
    if signal != 0 {
        shared.raise(pid, signal as u8);
    }
    Effect::done(alloc, machine, 0)
}
