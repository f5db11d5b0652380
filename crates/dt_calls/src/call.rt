// The system calls, by their numbers.
ghost use Rattle.std.specs.Prelude.{IsSome};
ghost use Rattle.std.specs.FinMap.{get};
ghost use Rattle.dt_rv64.specs.Effects.{register};
ghost use Rattle.dt_calls.specs.Call.{effect_of_stop, call_of, memory_call, identity_call, signal_call};
ghost use Rattle.dt_calls.specs.Settle.{served_effect};
ghost use Rattle.dt_calls.specs.InCode.{shared_of};
ghost use Rattle.dt_calls.specs.LateCalls.{late_call};
ghost use Rattle.dt_calls.specs.Timers.{effect_after_timers};
ghost use Rattle.dt_calls.specs.Sound.{IsSound, HasEffect, left};

mod clone;
mod effect;
mod execve;
mod exit;
mod files;
mod identity;
mod kill;
mod late;
mod memory;
mod newborn;
mod signals;
mod wait;

use crate::container::Served;
use crate::delivery::{deliver_at, forced_signal};
use crate::shared::Shared;
use dt_base::abi::{
    A7, BRK, CLONE, EXECVE, EXIT, EXIT_GROUP, GETEGID, GETEUID, GETGID, GETPID, GETPPID, GETTID,
    GETUID, KILL, MADVISE, MMAP, MPROTECT, MREMAP, MUNMAP, PRLIMIT64, RSEQ, RT_SIGACTION,
    RT_SIGPROCMASK, RT_SIGRETURN, SCHED_YIELD, SET_ROBUST_LIST, SET_TID_ADDRESS, STATX, TGKILL,
    TKILL, UNAME, WAIT4,
};
use dt_base::{End, Errno};
use dt_host::{Host, HostErr};
use dt_late::numbers::{GETITIMER, PPOLL, SETITIMER};
use dt_rv64::{Machine, Stop};
use dt_signals::Delivery;
pub use effect::Effect;
pub use newborn::Newborn;
use std::alloc::Global;

/// Serves a stop, lets the timers fire that are due, and delivers a signal to the process where there is one: that of a
/// fault, or a pending one.
pub fn serve_and_deliver<H: Host>(
    alloc: Global,
    host: &mut H,
    shared: &mut Shared,
    vpid: u32,
    machine: &mut Machine,
    stop: Stop,
) -> Result<Effect, HostErr>
    requires sound { IsSound shared.old (H.view host.old) }
    requires lives { IsSome (get shared.old.tasks vpid) }
    ensures { HasEffect vpid
        (served_effect (shared_of shared.old (H.view host.old)) shared.old.pids.next vpid machine.old stop)
        shared.old (left shared.new (H.view host.new) machine.new) result
        (H.count host.old) (H.count host.new) }
{
    let mut effect = serve_and_fire(alloc, host, shared, vpid, machine, stop)?;
    if !effect.served.takes_signals() {
        return Ok(effect);
    }
    let forced = forced_signal(stop);
    match deliver_at(&mut shared.tasks, vpid, machine, forced, effect.served)? {
        Delivery::Nothing => Ok(effect),
        Delivery::Handler => {
            effect.served = effect.served.at_handler();
            Ok(effect)
        }
        Delivery::Ends(signal) => {
            effect.end(host, shared, vpid, End::Signal(signal))?;
            Ok(effect)
        }
    }
}

// Serves a stop, and lets the timers fire that are due.
fn serve_and_fire<H: Host>(
    alloc: Global,
    host: &mut H,
    shared: &mut Shared,
    vpid: u32,
    machine: &mut Machine,
    stop: Stop,
) -> Result<Effect, HostErr>
    requires sound { IsSound shared.old (H.view host.old) }
    requires lives { IsSome (get shared.old.tasks vpid) }
    ensures { HasEffect vpid (effect_after_timers (effect_of_stop
        (shared_of shared.old (H.view host.old)) shared.old.pids.next vpid machine.old stop))
        shared.old (left shared.new (H.view host.new) machine.new) result
        (H.count host.old) (H.count host.new) }
{
    let effect = serve_stop(alloc, host, shared, vpid, machine, stop)?;
    shared.fire();
    Ok(effect)
}

// Serves a stop: a call by its number, a counter by the logical time, a fault and the end of a slice by nothing.
#[tactic(auto, unfolding(crate::specs::Call::effect_of_stop))]
fn serve_stop<H: Host>(
    alloc: Global,
    host: &mut H,
    shared: &mut Shared,
    vpid: u32,
    machine: &mut Machine,
    stop: Stop,
) -> Result<Effect, HostErr>
    requires sound { IsSound shared.old (H.view host.old) }
    requires lives { IsSome (get shared.old.tasks vpid) }
    ensures { HasEffect vpid (effect_of_stop
        (shared_of shared.old (H.view host.old)) shared.old.pids.next vpid machine.old stop)
        shared.old (left shared.new (H.view host.new) machine.new) result
        (H.count host.old) (H.count host.new) }
{
    let _before = host.faults();
    match stop {
        Stop::Call => call(alloc, host, shared, vpid, machine),
        Stop::Counter(rd) => Ok(exit::read_counter(alloc, shared, machine, rd)),
        Stop::Fault(_) | Stop::Slice => Ok(Effect::quiet(alloc, Served::Done)),
    }
}

#[tactic(auto, unfolding(crate::specs::Call::call_of))]
fn call<H: Host>(
    alloc: Global,
    host: &mut H,
    shared: &mut Shared,
    vpid: u32,
    machine: &mut Machine,
) -> Result<Effect, HostErr>
    requires sound { IsSound shared.old (H.view host.old) }
    requires lives { IsSome (get shared.old.tasks vpid) }
    ensures { HasEffect vpid (call_of (register machine.old A7) (shared_of shared.old (H.view host.old))
        shared.old.pids.next vpid machine.old)
        shared.old (left shared.new (H.view host.new) machine.new) result
        (H.count host.old) (H.count host.new) }
{
    let _before = host.faults();
    match machine.reg(A7) {
        EXIT | EXIT_GROUP => exit::exit(alloc, host, shared, vpid, machine),
        CLONE => clone::clone(alloc, host, shared, vpid, machine),
        EXECVE => execve::execve(alloc, host, shared, vpid, machine),
        WAIT4 => wait::wait4(alloc, host, shared, vpid, machine),
        number => memory_call(alloc, host, shared, vpid, machine, number),
    }
}

// Serves a call on memory, or another one.
#[tactic(auto, unfolding(crate::specs::Call::memory_call))]
fn memory_call<H: Host>(
    alloc: Global,
    host: &mut H,
    shared: &mut Shared,
    vpid: u32,
    machine: &mut Machine,
    number: u64,
) -> Result<Effect, HostErr>
    requires sound { IsSound shared.old (H.view host.old) }
    requires lives { IsSome (get shared.old.tasks vpid) }
    ensures { HasEffect vpid (memory_call number (shared_of shared.old (H.view host.old)) vpid machine.old)
        shared.old (left shared.new (H.view host.new) machine.new) result
        (H.count host.old) (H.count host.new) }
{
    let _before = host.faults();
    match number {
        BRK => Ok(memory::brk(alloc, shared, vpid, machine)?),
        MUNMAP => Ok(memory::munmap(alloc, machine)?),
        MMAP => Ok(memory::mmap(alloc, machine)?),
        MPROTECT => Ok(memory::mprotect(alloc, machine)?),
        _ => identity_call(alloc, host, shared, vpid, machine, number),
    }
}

// Serves a call that tells a process who it is or does nothing, or another one.
#[tactic(auto, unfolding(crate::specs::Call::identity_call))]
fn identity_call<H: Host>(
    alloc: Global,
    host: &mut H,
    shared: &mut Shared,
    vpid: u32,
    machine: &mut Machine,
    number: u64,
) -> Result<Effect, HostErr>
    requires sound { IsSound shared.old (H.view host.old) }
    requires lives { IsSome (get shared.old.tasks vpid) }
    ensures { HasEffect vpid (identity_call number (shared_of shared.old (H.view host.old)) vpid machine.old)
        shared.old (left shared.new (H.view host.new) machine.new) result
        (H.count host.old) (H.count host.new) }
{
    let _before = host.faults();
    match number {
        GETPID | GETTID | SET_TID_ADDRESS => Ok(identity::getpid(alloc, vpid, machine)),
        GETPPID => Ok(identity::getppid(alloc, shared, vpid, machine)),
        SET_ROBUST_LIST => Ok(identity::set_robust_list(alloc, machine)),
        UNAME => Ok(identity::uname(alloc, machine)?),
        SCHED_YIELD | GETUID | GETEUID | GETGID | GETEGID => Ok(Effect::done(alloc, machine, 0)),
        MREMAP | MADVISE | PRLIMIT64 | STATX | RSEQ => Ok(Effect::refused(
            alloc,
            machine,
            Errno::NoSys,
        )),
        _ => signal_call(alloc, host, shared, vpid, machine, number),
    }
}

// Serves a call on signals, or another one.
#[tactic(auto, unfolding(crate::specs::Call::signal_call))]
fn signal_call<H: Host>(
    alloc: Global,
    host: &mut H,
    shared: &mut Shared,
    vpid: u32,
    machine: &mut Machine,
    number: u64,
) -> Result<Effect, HostErr>
    requires sound { IsSound shared.old (H.view host.old) }
    requires lives { IsSome (get shared.old.tasks vpid) }
    ensures { HasEffect vpid (signal_call number (shared_of shared.old (H.view host.old)) vpid machine.old)
        shared.old (left shared.new (H.view host.new) machine.new) result
        (H.count host.old) (H.count host.new) }
{
    let _before = host.faults();
    match number {
        KILL => Ok(kill::kill(alloc, shared, machine)),
        TKILL => Ok(kill::tkill(alloc, shared, machine)),
        TGKILL => Ok(kill::tgkill(alloc, shared, machine)),
        RT_SIGACTION => Ok(signals::rt_sigaction(alloc, shared, vpid, machine)?),
        RT_SIGPROCMASK => Ok(signals::rt_sigprocmask(alloc, shared, vpid, machine)?),
        RT_SIGRETURN => signals::rt_sigreturn(alloc, host, shared, vpid, machine),
        _ => late_call(alloc, host, shared, vpid, machine, number),
    }
}

// Serves a call that looks ahead in time, or one on files, time or random bytes.
#[tactic(auto, unfolding(crate::specs::LateCalls::late_call))]
fn late_call<H: Host>(
    alloc: Global,
    host: &mut H,
    shared: &mut Shared,
    vpid: u32,
    machine: &mut Machine,
    number: u64,
) -> Result<Effect, HostErr>
    requires sound { IsSound shared.old (H.view host.old) }
    requires lives { IsSome (get shared.old.tasks vpid) }
    ensures { HasEffect vpid (late_call number (shared_of shared.old (H.view host.old)) vpid machine.old)
        shared.old (left shared.new (H.view host.new) machine.new) result
        (H.count host.old) (H.count host.new) }
{
    let _before = host.faults();
    match number {
        SETITIMER => Ok(late::setitimer(alloc, shared, vpid, machine)?),
        GETITIMER => Ok(late::getitimer(alloc, shared, vpid, machine)?),
        PPOLL => Ok(late::ppoll(alloc, shared, vpid, machine)?),
        _ => files::call(alloc, host, shared, vpid, machine, number),
    }
}
