// The start of a process.
ghost use Rattle.std.specs.Prelude.{◌≡◌, ◌↔◌, ◌+◌, [], IfOk, OnOk, IsTrue, Some, IsSome, IsErrOf};
ghost use Rattle.std.specs.FinMap.{get, insert};
ghost use Rattle.dt_procs.specs.declared.error.ProcErr.TheVariants.{Host as host_failed};
ghost use Rattle.dt_procs.specs.Members.{is_full};
ghost use Rattle.dt_host.specs.Cause.{HasCause};
ghost use Rattle.dt_calls.specs.Clone.{clone_call, is_supported, with_pid, with_stack, child_machine, parent_machine};
ghost use Rattle.dt_calls.specs.Clone.{child_task, with_child_of};
ghost use Rattle.dt_calls.specs.Container.{task_in};
ghost use Rattle.dt_calls.specs.InCode.{shared_of};
ghost use Rattle.dt_calls.specs.Sound.{IsSound, HasEffect, left};

use super::{Effect, Newborn};
use crate::container::Served;
use crate::shared::Shared;
use dt_base::abi::{
    A0, A1, A2, A4, CLONE, CLONE_CHILD_CLEARTID, CLONE_CHILD_SETTID, CLONE_PARENT_SETTID, CSIGNAL,
    SIGCHLD, SP,
};
use dt_base::{Errno, NoMemory};
use dt_host::{Host, HostErr};
use dt_procs::ProcErr;
use dt_rv64::Machine;
use dt_space::WriteErr;
use std::alloc::Global;

/// clone(2) of a process (fork(2)): EAGAIN where 64 processes and zombies are there.
#[tactic(auto, unfolding(crate::specs::Clone::clone_call))]
pub fn clone<H: Host>(
    alloc: Global,
    host: &mut H,
    shared: &mut Shared,
    vpid: u32,
    machine: &mut Machine,
) -> Result<Effect, HostErr>
    requires sound { IsSound shared.old (H.view host.old) }
    requires lives { IsSome (get shared.old.tasks vpid) }
    ensures { HasEffect vpid (clone_call (shared_of shared.old (H.view host.old)) shared.old.pids.next vpid machine.old)
        shared.old (left shared.new (H.view host.new) machine.new) result
        (H.count host.old) (H.count host.new) }
{
    let _before = host.faults();
    if !is_supported(machine.reg(A0)) {
        return Ok(Effect::quiet(alloc, Served::Unsupported(CLONE)));
    }
    match shared.add_child(host, vpid) {
        Ok(child) => Ok(copy_machine(alloc, machine, child)?),
        Err(ProcErr::Full) => Ok(Effect::refused(alloc, machine, Errno::Again)),
        Err(ProcErr::Host(error)) => Err(error),
    }
}

// Whether a child is asked for as this profile has it: a process of its own, with SIGCHLD at its end, and of the other
// flags at most these three.
fn is_supported(flags: u64) -> bool
    ensures { result ≡ is_supported flags }
{
    let known = CSIGNAL | (CLONE_PARENT_SETTID | (CLONE_CHILD_CLEARTID | CLONE_CHILD_SETTID));
    flags & CSIGNAL == u64::from(SIGCHLD) && flags | known == known
}

// The machine with a pid at an address, if a flag asks for it; an address that can't be written is ignored.
fn put_pid(machine: &mut Machine, flag: bool, address: u64, vpid: u32) -> Result<(), NoMemory>
    ensures { OnOk result (machine.new ≡ with_pid flag address vpid machine.old) }
{
    if !flag {
        return Ok(());
    }
    match machine.space.write_bytes(address, &vpid.to_le_bytes()) {
        Ok(()) | Err(WriteErr::Miss(_)) => Ok(()),
        Err(WriteErr::NoMemory) => Err(NoMemory),
    }
}

// The machine with another stack, unless the address is 0.
fn put_stack(machine: &mut Machine, stack: u64)
    ensures { machine.new ≡ with_stack stack machine.old }
{
    if stack != 0 {
        machine.regs[usize::from(SP)] = stack;
    }
}

// The machine of a child with this pid, and the end of its parent's call. The child's is made first.
fn copy_machine(alloc: Global, machine: &mut Machine, vpid: u32) -> Result<Effect, NoMemory>
    ensures child { IfOk result (λ e. e.child ≡ Some (child_machine machine.old vpid)) }
    ensures parent { OnOk result (machine.new ≡ parent_machine machine.old vpid) }
    ensures events { IfOk result (λ e. e.events.items ≡ []) }
    ensures served { IfOk result (λ e. e.served ≡ Served.Child vpid) }
{
    let flags = machine.reg(A0);
    let mut child = machine.fork()?;
    child.answer(0);
    put_stack(&mut child, machine.reg(A1));
    put_pid(
        &mut child,
        flags & CLONE_CHILD_SETTID == CLONE_CHILD_SETTID,
        machine.reg(A4),
        vpid,
    )?;
    let address = machine.reg(A2);
    machine.answer(u64::from(vpid));
    put_pid(
        machine,
        flags & CLONE_PARENT_SETTID == CLONE_PARENT_SETTID,
        address,
        vpid,
    )?;
    Ok(Effect {
        child: Some(Newborn::new(alloc, child)?),
        events: Vec::new(alloc),
        served: Served::Child(vpid),
    })
}

impl Shared {
    // Enters a child: it holds its working directory, and has its parent's descriptors, actions and mask. Full exactly
    // where 64 processes and zombies are there.
    fn add_child<H: Host>(&mut self, host: &mut H, parent: u32) -> Result<u32, ProcErr>
        requires sound { IsSound self.old (H.view host.old) }
        requires lives { IsSome (get self.old.tasks parent) }
        ensures full { (IsErrOf result ProcErr.Full)
            ↔ IsTrue (is_full (shared_of self.old (H.view host.old)).members) }
        ensures kept { IsErrOf result ProcErr.Full → (self.new ≡ self.old) × (H.view host.new ≡ H.view host.old) }
        ensures vpid { IfOk result (λ vpid. vpid ≡ self.old.pids.next) }
        ensures made { IfOk result (λ vpid. shared_of self.new (H.view host.new)
            ≡ with_child_of (shared_of self.old (H.view host.old)) parent vpid) }
        ensures next { OnOk result (self.new.pids.next ≡ self.old.pids.next + 1) }
        ensures sound { OnOk result (IsSound self.new (H.view host.new)) }
        ensures cause { HasCause (H.count host.old) (H.count host.new)
            (IsErrOf result (host_failed HostErr.Failed)) }
    {
        let cwd = self.cwd(parent);
        let vpid = self.pids.child(host, parent)?;
        self.fs.tree.hold(host, cwd)?;
        self.fs.files.share_all(parent, vpid)?;
        match self.enter(parent, vpid) {
            Ok(()) => Ok(vpid),
            Err(_) => Err(ProcErr::Host(HostErr::NoMemory)),
        }
    }

    // Enters a child's task.
    fn enter(&mut self, parent: u32, vpid: u32) -> Result<(), NoMemory>
        requires { IsSome (get self.old.tasks parent) }
        ensures { OnOk result (self.new ≡ record self.old {
          tasks = insert self.old.tasks vpid (child_task (task_in self.old.tasks parent) vpid);
        }) }
    {
        let Some(task) = self.tasks.get(u64::from(parent)) else {
            unreachable!()
        };
        let child = task.fork(vpid);
        self.tasks.put(u64::from(vpid), child)?;
        Ok(())
    }
}
