// Calls on files, on time and on random bytes.
ghost use Rattle.std.specs.Prelude.{◌≡◌, IsSome};
ghost use Rattle.std.specs.FinMap.{get, insert};
ghost use Rattle.dt_callbase.specs.Sound.{Sound, HasRowReply, stage};
ghost use Rattle.dt_calls.specs.Container.{task_in};
ghost use Rattle.dt_calls.specs.FileCalls.{arguments, row_of, file_call};
ghost use Rattle.dt_calls.specs.InCode.{shared_of};
ghost use Rattle.dt_calls.specs.Sound.{IsSound, HasEffect, left};

use super::Effect;
use super::memory::give_answer;
use crate::shared::Shared;
use crate::task::{Task, answer_task};
use dt_base::abi::{A0, A1, A2, A3, A4, A5};
use dt_base::{Answer, Caller};
use dt_callbase::Fs;
use dt_fcalls::file_call;
use dt_host::{Host, HostErr};
use dt_iocalls::{io_call, is_io};
use dt_namecalls::{is_naming, name_call};
use dt_rv64::Machine;
use dt_space::Space;
use dt_tables::Numbered;
use dt_timecalls::{is_time_call, time_call};
use std::alloc::Global;

/// Serves the call of a number, if it is one on files, on time or on random bytes.
#[tactic(auto, unfolding(crate::specs::FileCalls::file_call))]
pub fn call<H: Host>(
    alloc: Global,
    host: &mut H,
    shared: &mut Shared,
    vpid: u32,
    machine: &mut Machine,
    number: u64,
) -> Result<Effect, HostErr>
    requires sound { IsSound shared.old (H.view host.old) }
    requires lives { IsSome (get shared.old.tasks vpid) }
    ensures { HasEffect vpid (file_call number (shared_of shared.old (H.view host.old)) vpid machine.old)
        shared.old (left shared.new (H.view host.new) machine.new) result
        (H.count host.old) (H.count host.new) }
{
    let Shared { fs, tasks, .. } = shared;
    let answer = serve_row_at(alloc, host, fs, tasks, vpid, machine, number)?;
    answer_task(tasks, vpid, &answer);
    Ok(give_answer(alloc, machine, number, answer)?)
}

// Serves the row of a number for a live process.
fn serve_row_at<H: Host>(
    alloc: Global,
    host: &mut H,
    fs: &mut Fs,
    tasks: &mut Numbered<Task>,
    vpid: u32,
    machine: &mut Machine,
    number: u64,
) -> Result<Answer, HostErr>
    requires sound { Sound
        (stage fs.old (H.view host.old) (task_in tasks.old vpid).caller machine.old.space) }
    requires lives { IsSome (get tasks.old vpid) }
    ensures row { HasRowReply (row_of number) (arguments machine.old)
        (stage fs.old (H.view host.old) (task_in tasks.old vpid).caller machine.old.space)
        (stage fs.new (H.view host.new) (task_in tasks.new vpid).caller machine.new.space) result
        (H.count host.old) (H.count host.new) }
    ensures task { tasks.new ≡ insert tasks.old vpid
        (record (task_in tasks.old vpid) { caller = (task_in tasks.new vpid).caller }) }
    ensures rest { machine.new ≡ record machine.old { space = machine.new.space } }
{
    let args = arguments(machine);
    match tasks.get_mut(u64::from(vpid)) {
        Some(task) => {
            let space = &mut machine.space;
            serve_row(alloc, host, fs, &mut task.caller, space, number, args)
        }
        None => unreachable!(),
    }
}

#[tactic(auto, unfolding(crate::specs::FileCalls::row_of))]
fn serve_row<H: Host>(
    alloc: Global,
    host: &mut H,
    fs: &mut Fs,
    caller: &mut Caller,
    space: &mut Space,
    number: u64,
    args: [u64; 6],
) -> Result<Answer, HostErr>
    requires { Sound (stage fs.old (H.view host.old) caller.old space.old) }
    ensures { HasRowReply (row_of number) args (stage fs.old (H.view host.old) caller.old space.old)
        (stage fs.new (H.view host.new) caller.new space.new) result
        (H.count host.old) (H.count host.new) }
{
    if is_io(number) {
        io_call(alloc, fs, host, caller, space, number, args)
    } else if is_naming(number) {
        name_call(alloc, fs, host, caller, space, number, args)
    } else if is_time_call(number) {
        time_call(alloc, fs, host, caller, space, number, args)
    } else {
        file_call(alloc, fs, host, caller, space, number, args)
    }
}

/// The arguments of a call (syscall(2)).
pub fn arguments(machine: &Machine) -> [u64; 6]
    ensures { result ≡ arguments machine.now }
{
    [
        machine.reg(A0),
        machine.reg(A1),
        machine.reg(A2),
        machine.reg(A3),
        machine.reg(A4),
        machine.reg(A5),
    ]
}
