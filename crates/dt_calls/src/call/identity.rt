// Calls that tell a process who and where it is, and calls that do nothing.
ghost use Rattle.std.specs.Prelude.{◌≡◌, ◌-◌, ◌++◌, length, replicate, IfOk, OnOk, ◌≤◌, None};
ghost use Rattle.dt_host.specs.World.{World};
ghost use Rattle.dt_calls.specs.Identity.{getpid_call, getppid_call, set_robust_list_call, uname_call};
ghost use Rattle.dt_calls.specs.Identity.{padded_field, utsname};
ghost use Rattle.dt_calls.specs.InCode.{shared_of, effect_as};
ghost use Rattle.dt_calls.specs.declared.numbers.TheConstants.{UTSNAME_FIELD as WIDTH};

use super::Effect;
use crate::numbers::UTSNAME_FIELD;
use crate::shared::Shared;
use dt_base::abi::{A0, A1, ROBUST_LIST_SIZE};
use dt_base::{Errno, NoMemory};
use dt_rv64::Machine;
use dt_space::WriteErr;
use std::alloc::Global;

/// Tells the process's pid, which is also the id of its one thread (getpid(2), gettid(2), set_tid_address(2)).
#[tactic(auto, unfolding(crate::specs::Identity::getpid_call))]
pub fn getpid(alloc: Global, vpid: u32, machine: &mut Machine) -> Effect
    ensures served { (c : _) → getpid_call c vpid machine.old ≡ effect_as c machine.new result }
    ensures child { result.child ≡ None }
{
    Effect::done(alloc, machine, u64::from(vpid))
}

/// Tells the pid of the process's parent, and 0 to the first process (getppid(2)).
#[tactic(auto, unfolding(crate::specs::Identity::getppid_call))]
pub fn getppid(alloc: Global, shared: &Shared, vpid: u32, machine: &mut Machine) -> Effect
    ensures served { (w : World) → getppid_call (shared_of shared.now w) vpid machine.old
        ≡ effect_as (shared_of shared.now w) machine.new result }
    ensures child { result.child ≡ None }
{
    let parent = shared.pids.parent(vpid).unwrap_or(0);
    Effect::done(alloc, machine, u64::from(parent))
}

/// Does nothing, since a process has one thread. EINVAL where the size of the list's head is another
/// (set_robust_list(2)).
#[tactic(auto, unfolding(crate::specs::Identity::set_robust_list_call))]
pub fn set_robust_list(alloc: Global, machine: &mut Machine) -> Effect
    ensures served { (c : _) → set_robust_list_call c machine.old
        ≡ effect_as c machine.new result }
    ensures child { result.child ≡ None }
{
    if machine.reg(A1) == ROBUST_LIST_SIZE {
        Effect::done(alloc, machine, 0)
    } else {
        Effect::refused(alloc, machine, Errno::Inval)
    }
}

/// Puts the names of the system into a buffer. EFAULT where a byte of it can't be written (uname(2)).
#[tactic(auto, unfolding(crate::specs::Identity::uname_call))]
pub fn uname(alloc: Global, machine: &mut Machine) -> Result<Effect, NoMemory>
    ensures served { (c : _) → IfOk result
        (λ e. uname_call c machine.old ≡ effect_as c machine.new e) }
    ensures child { IfOk result (λ e. e.child ≡ None) }
{
    let name = utsname(alloc)?;
    let buffer = machine.reg(A0);
    match machine.space.write_bytes(buffer, &name) {
        Ok(()) => Ok(Effect::done(alloc, machine, 0)),
        Err(WriteErr::Miss(_)) => Ok(Effect::refused(alloc, machine, Errno::Fault)),
        Err(WriteErr::NoMemory) => Err(NoMemory),
    }
}

// A `struct utsname`: system, node, release, version, machine, domain.
fn utsname(alloc: Global) -> Result<Vec<u8>, NoMemory>
    ensures { IfOk result (λ bytes. bytes.items ≡ utsname) }
{
    let mut bytes = Vec::new(alloc);
    put_field(&mut bytes, b"Linux")?;
    put_field(&mut bytes, b"dettrace")?;
    put_field(&mut bytes, b"6.1.0")?;
    put_field(&mut bytes, b"#1")?;
    put_field(&mut bytes, b"riscv64")?;
    put_field(&mut bytes, b"(none)")?;
    Ok(bytes)
}

// Adds a field: a text, padded with zeros to the field's width.
fn put_field(bytes: &mut Vec<u8>, text: &[u8]) -> Result<(), NoMemory>
    requires { length text.now ≤ WIDTH }
    ensures { OnOk result (bytes.new.items ≡ bytes.old.items ++ padded_field text.now) }
{
    bytes.extend_from_slice(text)?;
    bytes.resize(bytes.len() + (UTSNAME_FIELD - text.len()), 0)?;
    Ok(())
}
