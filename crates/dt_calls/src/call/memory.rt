// Calls on a process's memory.
ghost use Rattle.std.specs.Prelude.{◌≡◌, None, IsSome, IfOk};
ghost use Rattle.std.specs.FinMap.{get};
ghost use Rattle.dt_host.specs.World.{World};
ghost use Rattle.dt_mcalls.specs.Brk.{brk_of};
ghost use Rattle.dt_rv64.specs.Effects.{register};
ghost use Rattle.dt_calls.specs.Container.{task_in};
ghost use Rattle.dt_calls.specs.Effect.{effect_of_answer};
ghost use Rattle.dt_calls.specs.MemoryCalls.{brk_call, munmap_call, mmap_call, mprotect_call};
ghost use Rattle.dt_calls.specs.InCode.{BreakAt, shared_of, effect_as};
ghost use Rattle.dt_calls.specs.Sound.{ChangesTasks};

use super::Effect;
use crate::container::Served;
use crate::shared::Shared;
use crate::task::Task;
use dt_base::abi::{A0, A1, A2, A3, MMAP, MPROTECT, MUNMAP};
use dt_base::{Answer, NoMemory};
use dt_rv64::Machine;
use dt_tables::Numbered;
use std::alloc::Global;

/// Moves the end of the process's break, or leaves it where it is, and answers where it is then (brk(2)).
#[tactic(auto, unfolding(crate::specs::MemoryCalls::brk_call))]
pub fn brk(
    alloc: Global,
    shared: &mut Shared,
    vpid: u32,
    machine: &mut Machine,
) -> Result<Effect, NoMemory>
    requires { IsSome (get shared.old.tasks vpid) }
    ensures served { (w : World) → IfOk result
        (λ e. brk_call (shared_of shared.old w) vpid machine.old ≡ effect_as (shared_of shared.new w) machine.new e) }
    ensures kept { IfOk result (λ _. ChangesTasks shared.old shared.new) }
    ensures child { IfOk result (λ e. e.child ≡ None) }
{
    let end = move_break(&mut shared.tasks, vpid, machine)?;
    Ok(Effect::done(alloc, machine, end))
}

// Moves the end of the break of a live process.
fn move_break(tasks: &mut Numbered<Task>, vpid: u32, machine: &mut Machine) -> Result<u64, NoMemory>
    requires { IsSome (get tasks.old vpid) }
    ensures { IfOk result (λ end. BreakAt
        (brk_of (task_in tasks.old vpid).program_break machine.old.space (register machine.old A0))
        vpid tasks.old tasks.new machine.old machine.new end) }
{
    let address = machine.reg(A0);
    match tasks.get_mut(u64::from(vpid)) {
        Some(task) => dt_mcalls::brk(&mut task.program_break, &mut machine.space, address),
        None => unreachable!(),
    }
}

/// Takes away the pages of a range, whichever are there (munmap(2)).
#[tactic(auto, unfolding(crate::specs::MemoryCalls::munmap_call))]
pub fn munmap(alloc: Global, machine: &mut Machine) -> Result<Effect, NoMemory>
    ensures served { (c : _) → IfOk result
        (λ e. munmap_call c machine.old ≡ effect_as c machine.new e) }
    ensures child { IfOk result (λ e. e.child ≡ None) }
{
    let (address, len) = (machine.reg(A0), machine.reg(A1));
    let answer = dt_mcalls::munmap(&mut machine.space, address, len);
    give_answer(alloc, machine, MUNMAP, answer)
}

/// Maps pages of zeros, with MAP_FIXED at the address, and answers where they begin (mmap(2)).
#[tactic(auto, unfolding(crate::specs::MemoryCalls::mmap_call))]
pub fn mmap(alloc: Global, machine: &mut Machine) -> Result<Effect, NoMemory>
    ensures served { (c : _) → IfOk result
        (λ e. mmap_call c machine.old ≡ effect_as c machine.new e) }
    ensures child { IfOk result (λ e. e.child ≡ None) }
{
    let (address, len) = (machine.reg(A0), machine.reg(A1));
    let (prot, flags) = (machine.reg(A2), machine.reg(A3));
    let answer = dt_mcalls::mmap(&mut machine.space, address, len, prot, flags)?;
    give_answer(alloc, machine, MMAP, answer)
}

/// Gives the pages of a range other rights, if all of them are there (mprotect(2)).
#[tactic(auto, unfolding(crate::specs::MemoryCalls::mprotect_call))]
pub fn mprotect(alloc: Global, machine: &mut Machine) -> Result<Effect, NoMemory>
    ensures served { (c : _) → IfOk result
        (λ e. mprotect_call c machine.old ≡ effect_as c machine.new e) }
    ensures child { IfOk result (λ e. e.child ≡ None) }
{
    let (address, len, prot) = (machine.reg(A0), machine.reg(A1), machine.reg(A2));
    let answer = dt_mcalls::mprotect(&mut machine.space, address, len, prot);
    give_answer(alloc, machine, MPROTECT, answer)
}

/// Gives the answer of a call of this number.
pub fn give_answer(
    alloc: Global,
    machine: &mut Machine,
    number: u64,
    answer: Answer,
) -> Result<Effect, NoMemory>
    ensures served { (c : _) → IfOk result
        (λ e. effect_of_answer c machine.old number answer ≡ effect_as c machine.new e) }
    ensures child { IfOk result (λ e. e.child ≡ None) }
{
    match answer {
        Answer::Value(value) => Ok(Effect::done(alloc, machine, value)),
        Answer::Refused(errno) => Ok(Effect::refused(alloc, machine, errno)),
        Answer::Output(stream, bytes) => Effect::output(alloc, machine, stream, bytes),
        Answer::Waits => Ok(Effect::quiet(alloc, Served::Blocked)),
        Answer::Part(_) => Ok(Effect::quiet(alloc, Served::Progress)),
        Answer::Pipe(Ok(moved)) => Ok(Effect::done(alloc, machine, moved)),
        Answer::Pipe(Err(errno)) => Ok(Effect::refused(alloc, machine, errno)),
        Answer::Unsupported => Ok(Effect::quiet(alloc, Served::Unsupported(number))),
    }
}
