// Another program for a process.
ghost use Rattle.std.specs.Prelude.{IsSome, Ok};
ghost use Rattle.std.specs.FinMap.{get};
ghost use Rattle.dt_calls.specs.Execve.{execve_call, effect_of_program};
ghost use Rattle.dt_calls.specs.InCode.{shared_of};
ghost use Rattle.dt_calls.specs.Sound.{IsSound, HasEffect, left};

use super::Effect;
use crate::container::Served;
use crate::shared::Shared;
use crate::task::exec_task;
use dt_base::abi::{A0, A1, A2};
use dt_base::has_atomics;
use dt_exec::{Program, execve_program};
use dt_host::{Host, HostErr};
use dt_rv64::Machine;
use std::alloc::Global;

/// execve(2): the process goes on as another program; what is marked close-on-exec is closed, and handlers are gone.
#[tactic(auto, unfolding(crate::specs::Execve::execve_call))]
pub fn execve<H: Host>(
    alloc: Global,
    host: &mut H,
    shared: &mut Shared,
    vpid: u32,
    machine: &mut Machine,
) -> Result<Effect, HostErr>
    requires sound { IsSound shared.old (H.view host.old) }
    requires lives { IsSome (get shared.old.tasks vpid) }
    ensures { HasEffect vpid (execve_call (shared_of shared.old (H.view host.old)) vpid machine.old)
        shared.old (left shared.new (H.view host.new) machine.new) result
        (H.count host.old) (H.count host.new) }
{
    let (cwd, random) = (shared.cwd(vpid), shared.fs.rand.start16());
    let (path, argv, envp) = (machine.reg(A0), machine.reg(A1), machine.reg(A2));
    let found = execve_program(
        alloc,
        host,
        &shared.fs.tree,
        cwd,
        &machine.space,
        path,
        argv,
        envp,
        &random,
        has_atomics(shared.fs.tree.version()),
    )?;
    match found {
        Ok(program) => replace_program(alloc, host, shared, vpid, machine, program),
        Err(errno) => Ok(Effect::refused(alloc, machine, errno)),
    }
}

// Takes up a program that can be started.
fn replace_program<H: Host>(
    alloc: Global,
    host: &mut H,
    shared: &mut Shared,
    vpid: u32,
    machine: &mut Machine,
    program: Program,
) -> Result<Effect, HostErr>
    requires sound { IsSound shared.old (H.view host.old) }
    requires lives { IsSome (get shared.old.tasks vpid) }
    ensures { HasEffect vpid (effect_of_program (shared_of shared.old (H.view host.old)) vpid machine.old (Ok program))
        shared.old (left shared.new (H.view host.new) machine.new) result
        (H.count host.old) (H.count host.new) }
{
    let _before = host.faults();
    let fs = &mut shared.fs;
    fs.files.close_exec(host, &mut fs.tree, vpid)?;
    exec_task(&mut shared.tasks, vpid, program.break_start);
    *machine = program.machine;
    Ok(Effect::quiet(alloc, Served::Done))
}
