// The calls that look ahead in time.
ghost use Rattle.std.specs.Prelude.{◌≡◌, None, IsSome, IfOk, OnOk};
ghost use Rattle.std.specs.FinMap.{get};
ghost use Rattle.dt_fds.specs.Backs.{HasEnds, IsPiped};
ghost use Rattle.dt_host.specs.World.{World, PipeContents};
ghost use Rattle.dt_late.specs.Itimer.{setitimer_of, getitimer_of};
ghost use Rattle.dt_late.specs.Poll.{events_found, ppoll_of};
ghost use Rattle.dt_rv64.specs.Effects.{register};
ghost use Rattle.dt_calls.specs.Container.{task_in};
ghost use Rattle.dt_calls.specs.FileCalls.{arguments};
ghost use Rattle.dt_calls.specs.LateCalls.{setitimer_call, getitimer_call, ppoll_call};
ghost use Rattle.dt_calls.specs.InCode.{CalledAt, PolledAt, shared_of, effect_as};
ghost use Rattle.dt_calls.specs.Sound.{ChangesTasks, IsSound};

use super::Effect;
use super::files::arguments;
use super::memory::give_answer;
use crate::shared::Shared;
use crate::task::Task;
use dt_base::abi::{A0, A1, A2};
use dt_base::{Answer, NoMemory};
use dt_callbase::Fs;
use dt_late::numbers::{GETITIMER, PPOLL, SETITIMER};
use dt_rv64::Machine;
use dt_tables::Numbered;
use dt_virt::Clock;
use std::alloc::Global;

/// Tells the process's timer, and puts another one in its place (setitimer(2)).
#[tactic(auto, unfolding(crate::specs::LateCalls::setitimer_call))]
pub fn setitimer(
    alloc: Global,
    shared: &mut Shared,
    vpid: u32,
    machine: &mut Machine,
) -> Result<Effect, NoMemory>
    requires { IsSome (get shared.old.tasks vpid) }
    ensures served { (w : World) → IfOk result
        (λ e. setitimer_call (shared_of shared.old w) vpid machine.old
        ≡ effect_as (shared_of shared.new w) machine.new e) }
    ensures kept { OnOk result (ChangesTasks shared.old shared.new) }
    ensures child { IfOk result (λ e. e.child ≡ None) }
{
    let answer = change_timer(&shared.fs.clock, &mut shared.tasks, vpid, machine)?;
    give_answer(alloc, machine, SETITIMER, answer)
}

/// Tells the process's timer (getitimer(2)).
#[tactic(auto, unfolding(crate::specs::LateCalls::getitimer_call))]
pub fn getitimer(
    alloc: Global,
    shared: &mut Shared,
    vpid: u32,
    machine: &mut Machine,
) -> Result<Effect, NoMemory>
    requires { IsSome (get shared.old.tasks vpid) }
    ensures served { (w : World) → IfOk result
        (λ e. getitimer_call (shared_of shared.old w) vpid machine.old
        ≡ effect_as (shared_of shared.new w) machine.new e) }
    ensures kept { OnOk result (ChangesTasks shared.old shared.new) }
    ensures child { IfOk result (λ e. e.child ≡ None) }
{
    let answer = tell_timer(&shared.fs.clock, &mut shared.tasks, vpid, machine)?;
    give_answer(alloc, machine, GETITIMER, answer)
}

/// Looks for events at descriptors, and may wait for them (ppoll(2)).
#[tactic(auto, unfolding(crate::specs::LateCalls::ppoll_call))]
pub fn ppoll(
    alloc: Global,
    shared: &mut Shared,
    vpid: u32,
    machine: &mut Machine,
) -> Result<Effect, NoMemory>
    requires ends { HasEnds shared.old.fs.files }
    requires lives { IsSome (get shared.old.tasks vpid) }
    ensures served { (w : World) → IsSound shared.old w → IfOk result
        (λ e. ppoll_call (shared_of shared.old w) vpid machine.old
        ≡ effect_as (shared_of shared.new w) machine.new e) }
    ensures kept { OnOk result (ChangesTasks shared.old shared.new) }
    ensures child { IfOk result (λ e. e.child ≡ None) }
{
    let answer = try_poll(alloc, &shared.fs, &mut shared.tasks, vpid, machine)?;
    give_answer(alloc, machine, PPOLL, answer)
}

// Does what setitimer asks for.
fn change_timer(
    clock: &Clock,
    tasks: &mut Numbered<Task>,
    vpid: u32,
    machine: &mut Machine,
) -> Result<Answer, NoMemory>
    requires { IsSome (get tasks.old vpid) }
    ensures { IfOk result (CalledAt (setitimer_of (task_in tasks.old vpid).signals machine.old.space clock.now
        (register machine.old A0) (register machine.old A1) (register machine.old A2))
        vpid tasks.old tasks.new machine.old machine.new) }
{
    let (which, new, old) = (machine.reg(A0), machine.reg(A1), machine.reg(A2));
    match tasks.get_mut(u64::from(vpid)) {
        Some(task) => dt_late::setitimer(
            &mut task.signals,
            &mut machine.space,
            clock,
            which,
            new,
            old,
        ),
        None => unreachable!(),
    }
}

// Does what getitimer asks for.
fn tell_timer(
    clock: &Clock,
    tasks: &mut Numbered<Task>,
    vpid: u32,
    machine: &mut Machine,
) -> Result<Answer, NoMemory>
    requires { IsSome (get tasks.old vpid) }
    ensures { IfOk result (CalledAt (getitimer_of (task_in tasks.old vpid).signals machine.old.space clock.now
        (register machine.old A0) (register machine.old A1))
        vpid tasks.old tasks.new machine.old machine.new) }
{
    let (which, buffer) = (machine.reg(A0), machine.reg(A1));
    match tasks.get_mut(u64::from(vpid)) {
        Some(task) => dt_late::getitimer(&task.signals, &mut machine.space, clock, which, buffer),
        None => unreachable!(),
    }
}

// Does what ppoll asks for.
fn try_poll(
    alloc: Global,
    fs: &Fs,
    tasks: &mut Numbered<Task>,
    vpid: u32,
    machine: &mut Machine,
) -> Result<Answer, NoMemory>
    requires ends { HasEnds fs.now.files }
    requires lives { IsSome (get tasks.old vpid) }
    ensures { (pipes : PipeContents) → IsPiped fs.now.files pipes → IfOk result (PolledAt
        (ppoll_of (events_found vpid fs.now.files pipes) fs.now.clock (task_in tasks.old vpid).polling
        machine.old.space (arguments machine.old)) vpid tasks.old tasks.new machine.old machine.new) }
{
    let args = arguments(machine);
    match tasks.get_mut(u64::from(vpid)) {
        Some(task) => dt_late::ppoll(
            alloc,
            &fs.files,
            &fs.clock,
            vpid,
            &mut task.polling,
            &mut machine.space,
            args,
        ),
        None => unreachable!(),
    }
}
