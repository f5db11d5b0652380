// The wait for a child that ends.
ghost use Rattle.std.specs.Prelude.{◌≡◌, ◌&&◌, IsSome};
ghost use Rattle.std.specs.FinMap.{get};
ghost use Rattle.dt_base.specs.Abi.{low_word};
ghost use Rattle.dt_rv64.specs.Effects.{register};
ghost use Rattle.dt_space.specs.Argument.{is_writable_or_null};
ghost use Rattle.dt_calls.specs.declared.numbers.TheConstants.{RUSAGE_SIZE as RUSAGE};
ghost use Rattle.dt_procs.specs.declared.member.Reaped.{Reaped as Found};
ghost use Rattle.dt_procs.specs.Members.{look_for};
ghost use Rattle.dt_calls.specs.Wait.{wait4_call, effect_of_reaped, which_child, is_group, status_of};
ghost use Rattle.dt_calls.specs.InCode.{shared_of};
ghost use Rattle.dt_calls.specs.Sound.{IsSound, HasEffect, left};

use super::Effect;
use crate::container::Served;
use crate::numbers::RUSAGE_SIZE;
use crate::shared::Shared;
use dt_base::abi::{
    A0, A1, A2, A3, ANY_CHILD, GREATEST_PID, WAIT_OPTIONS, WAIT4, WNOHANG, has_flag, low_word,
};
use dt_base::{End, Errno};
use dt_host::{Host, HostErr};
use dt_procs::Reaped;
use dt_rv64::Machine;
use dt_space::{Space, fill_unless_null, is_writable_or_null};
use std::alloc::Global;

/// wait4(2): reaps a child that has ended; the process waits where one may still.
#[tactic(auto, unfolding(crate::specs::Wait::wait4_call))]
pub fn wait4<H: Host>(
    alloc: Global,
    host: &mut H,
    shared: &mut Shared,
    vpid: u32,
    machine: &mut Machine,
) -> Result<Effect, HostErr>
    requires sound { IsSound shared.old (H.view host.old) }
    requires lives { IsSome (get shared.old.tasks vpid) }
    ensures { HasEffect vpid (wait4_call (shared_of shared.old (H.view host.old)) vpid machine.old)
        shared.old (left shared.new (H.view host.new) machine.new) result
        (H.count host.old) (H.count host.new) }
{
    let _before = host.faults();
    let (pid, options) = (low_word(machine.reg(A0)), low_word(machine.reg(A2)));
    if is_group(pid) {
        return Ok(Effect::quiet(alloc, Served::Unsupported(WAIT4)));
    }
    if options | WAIT_OPTIONS != WAIT_OPTIONS {
        return Ok(Effect::refused(alloc, machine, Errno::Inval));
    }
    let which = which_child(pid);
    match shared.pids.look_for(vpid, which) {
        Reaped::Got(child, end) => reap(alloc, host, shared, vpid, machine, child, end),
        Reaped::NoneReady if has_flag(options, WNOHANG) => Ok(Effect::done(alloc, machine, 0)),
        Reaped::NoneReady => Ok(Effect::quiet(alloc, Served::Blocked)),
        Reaped::NoChild => Ok(Effect::refused(alloc, machine, Errno::Child)),
    }
}

// Whether a pid, as a signed number, is below -1: that of a process group.
fn is_group(pid: u32) -> bool
    ensures { result ≡ is_group pid }
{
    pid > GREATEST_PID && pid < ANY_CHILD
}

// The child that is waited for: any where the pid is 0 or -1.
fn which_child(pid: u32) -> Option<u32>
    ensures { result ≡ which_child pid }
{
    match pid {
        0 | ANY_CHILD => None,
        pid => Some(pid),
    }
}

// The status word of an end: an exit code is its second byte, a signal its first.
fn status_of(end: End) -> u32
    ensures { result ≡ status_of end }
{
    match end {
        End::Code(code) => u32::from(code) * 256,
        End::Signal(signal) => u32::from(signal),
    }
}

// Whether a status and the use of resources can be written there.
fn takes_both(space: &Space, status: u64, usage: u64) -> bool
    ensures { result ≡ (is_writable_or_null space.now status 4 && is_writable_or_null space.now usage RUSAGE) }
{
    is_writable_or_null(space, status, 4) && is_writable_or_null(space, usage, RUSAGE_SIZE)
}

// Reaps a zombie that was found, if its status and the use of resources can be given.
fn reap<H: Host>(
    alloc: Global,
    host: &mut H,
    shared: &mut Shared,
    vpid: u32,
    machine: &mut Machine,
    child: u32,
    end: End,
) -> Result<Effect, HostErr>
    requires sound { IsSound shared.old (H.view host.old) }
    requires found { look_for (shared_of shared.old (H.view host.old)).members vpid
        (which_child (low_word (register machine.old A0))) ≡ Found.Got child end }
    ensures { HasEffect vpid (effect_of_reaped (shared_of shared.old (H.view host.old)) machine.old
        (Found.Got child end))
        shared.old (left shared.new (H.view host.new) machine.new) result
        (H.count host.old) (H.count host.new) }
{
    let _before = host.faults();
    let (status, usage) = (machine.reg(A1), machine.reg(A3));
    if !takes_both(&machine.space, status, usage) {
        return Ok(Effect::refused(alloc, machine, Errno::Fault));
    }
    let _next = shared.pids.next();
    let which = which_child(low_word(machine.reg(A0)));
    shared.pids.wait_for(host, vpid, which)?;
    fill_unless_null(&mut machine.space, status, &status_of(end).to_le_bytes())?;
    fill_unless_null(&mut machine.space, usage, &[0; RUSAGE_SIZE])?;
    Ok(Effect::done(alloc, machine, u64::from(child)))
}
