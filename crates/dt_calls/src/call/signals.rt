// The calls of a process on its own signals.
ghost use Rattle.std.specs.Prelude.{◌≡◌, None, IsSome, IfOk, OnOk};
ghost use Rattle.std.specs.FinMap.{get};
ghost use Rattle.dt_host.specs.World.{World};
ghost use Rattle.dt_sigcalls.specs.Sigaction.{sigaction_of};
ghost use Rattle.dt_sigcalls.specs.Sigprocmask.{sigprocmask_of};
ghost use Rattle.dt_rv64.specs.Effects.{register};
ghost use Rattle.dt_calls.specs.SignalCalls.{sigaction_call, sigprocmask_call, sigreturn_call, after_sigreturn};
ghost use Rattle.dt_calls.specs.Container.{task_in};
ghost use Rattle.dt_calls.specs.InCode.{SigreturnAt, CalledAt, shared_of, effect_as};
ghost use Rattle.dt_calls.specs.Sound.{ChangesTasks, IsSound, HasEffect, left};

use super::Effect;
use super::memory::give_answer;
use crate::container::Served;
use crate::shared::Shared;
use crate::task::Task;
use dt_base::abi::{A0, A1, A2, A3, RT_SIGACTION, RT_SIGPROCMASK, SIGSEGV};
use dt_base::{Answer, End, NoMemory};
use dt_host::{Host, HostErr};
use dt_rv64::Machine;
use dt_signals::{Sig, sigreturn};
use dt_tables::Numbered;
use std::alloc::Global;

/// Tells what the process does about a signal, and may put another action in its place (rt_sigaction(2)).
#[tactic(auto, unfolding(crate::specs::SignalCalls::sigaction_call))]
pub fn rt_sigaction(
    alloc: Global,
    shared: &mut Shared,
    vpid: u32,
    machine: &mut Machine,
) -> Result<Effect, NoMemory>
    requires { IsSome (get shared.old.tasks vpid) }
    ensures served { (w : World) → IfOk result
        (λ e. sigaction_call (shared_of shared.old w) vpid machine.old
        ≡ effect_as (shared_of shared.new w) machine.new e) }
    ensures kept { OnOk result (ChangesTasks shared.old shared.new) }
    ensures child { IfOk result (λ e. e.child ≡ None) }
{
    let answer = change_action(&mut shared.tasks, vpid, machine)?;
    give_answer(alloc, machine, RT_SIGACTION, answer)
}

/// Tells the process's signal mask, and may change it by a set (rt_sigprocmask(2)).
#[tactic(auto, unfolding(crate::specs::SignalCalls::sigprocmask_call))]
pub fn rt_sigprocmask(
    alloc: Global,
    shared: &mut Shared,
    vpid: u32,
    machine: &mut Machine,
) -> Result<Effect, NoMemory>
    requires { IsSome (get shared.old.tasks vpid) }
    ensures served { (w : World) → IfOk result
        (λ e. sigprocmask_call (shared_of shared.old w) vpid machine.old
        ≡ effect_as (shared_of shared.new w) machine.new e) }
    ensures kept { OnOk result (ChangesTasks shared.old shared.new) }
    ensures child { IfOk result (λ e. e.child ≡ None) }
{
    let answer = change_mask(&mut shared.tasks, vpid, machine)?;
    give_answer(alloc, machine, RT_SIGPROCMASK, answer)
}

/// rt_sigreturn(2): a frame that can't be read ends the process.
#[tactic(auto, unfolding(crate::specs::SignalCalls::sigreturn_call))]
pub fn rt_sigreturn<H: Host>(
    alloc: Global,
    host: &mut H,
    shared: &mut Shared,
    vpid: u32,
    machine: &mut Machine,
) -> Result<Effect, HostErr>
    requires sound { IsSound shared.old (H.view host.old) }
    requires lives { IsSome (get shared.old.tasks vpid) }
    ensures { HasEffect vpid (sigreturn_call (shared_of shared.old (H.view host.old)) vpid machine.old)
        shared.old (left shared.new (H.view host.new) machine.new) result
        (H.count host.old) (H.count host.new) }
{
    let _before = host.faults();
    if return_from_handler(&mut shared.tasks, vpid, machine) {
        return Ok(Effect::quiet(alloc, Served::Done));
    }
    Effect::ended(alloc, host, shared, vpid, End::Signal(SIGSEGV))
}

// Does what rt_sigaction asks for.
fn change_action(
    tasks: &mut Numbered<Task>,
    vpid: u32,
    machine: &mut Machine,
) -> Result<Answer, NoMemory>
    requires { IsSome (get tasks.old vpid) }
    ensures { IfOk result (CalledAt (sigaction_of (task_in tasks.old vpid).signals machine.old.space
        (register machine.old A0) (register machine.old A1) (register machine.old A2) (register machine.old A3))
        vpid tasks.old tasks.new machine.old machine.new) }
{
    let (number, act) = (machine.reg(A0), machine.reg(A1));
    let (old, size) = (machine.reg(A2), machine.reg(A3));
    match tasks.get_mut(u64::from(vpid)) {
        Some(task) => dt_sigcalls::rt_sigaction(
            &mut task.signals,
            &mut machine.space,
            number,
            act,
            old,
            size,
        ),
        None => unreachable!(),
    }
}

// Does what rt_sigprocmask asks for.
fn change_mask(
    tasks: &mut Numbered<Task>,
    vpid: u32,
    machine: &mut Machine,
) -> Result<Answer, NoMemory>
    requires { IsSome (get tasks.old vpid) }
    ensures { IfOk result (CalledAt (sigprocmask_of (task_in tasks.old vpid).signals machine.old.space
        (register machine.old A0) (register machine.old A1) (register machine.old A2) (register machine.old A3))
        vpid tasks.old tasks.new machine.old machine.new) }
{
    let (how, set) = (machine.reg(A0), machine.reg(A1));
    let (old, size) = (machine.reg(A2), machine.reg(A3));
    match tasks.get_mut(u64::from(vpid)) {
        Some(task) => dt_sigcalls::rt_sigprocmask(
            &mut task.signals,
            &mut machine.space,
            how,
            set,
            old,
            size,
        ),
        None => unreachable!(),
    }
}

// Returns from a handler, where its frame can be read.
fn return_from_handler(tasks: &mut Numbered<Task>, vpid: u32, machine: &mut Machine) -> bool
    requires { IsSome (get tasks.old vpid) }
    ensures { SigreturnAt (after_sigreturn (task_in tasks.old vpid).signals machine.old)
        vpid tasks.old tasks.new machine.new result }
{
    match tasks.get_mut(u64::from(vpid)) {
        Some(task) => return_from_handler_in(&mut task.signals, machine),
        None => unreachable!(),
    }
}

// Returns from a handler with this signal state.
fn return_from_handler_in(sig: &mut Sig, machine: &mut Machine) -> bool
    ensures { after_sigreturn sig.old machine.old
        ≡ record { signals = sig.new; machine = machine.new; is_read = result } }
{
    match sigreturn(machine, sig) {
        Ok(()) => true,
        Err(_) => false,
    }
}
