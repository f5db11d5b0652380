// The end of a process, and the reading of a counter.
ghost use Rattle.std.specs.Prelude.{◌≡◌, None, IsSome};
ghost use Rattle.std.specs.FinMap.{get};
ghost use Rattle.dt_host.specs.World.{World};
ghost use Rattle.dt_calls.specs.Call.{exit_call};
ghost use Rattle.dt_calls.specs.Effect.{counter_effect};
ghost use Rattle.dt_calls.specs.InCode.{shared_of, effect_as};
ghost use Rattle.dt_calls.specs.Sound.{IsSound, HasEffect, left};

use super::Effect;
use crate::container::Served;
use crate::shared::Shared;
use dt_base::End;
use dt_base::abi::{A0, exit_code};
use dt_host::{Host, HostErr};
use dt_rv64::Machine;
use std::alloc::Global;

/// A counter gives the logical time, and its reading takes some.
pub fn read_counter(alloc: Global, shared: &mut Shared, machine: &mut Machine, rd: u8) -> Effect
    ensures served { (w : World) → counter_effect (shared_of shared.old w) machine.old rd
        ≡ effect_as (shared_of shared.new w) machine.new result }
    ensures rest { shared.new ≡ record shared.old { fs = shared.new.fs } }
    ensures child { result.child ≡ None }
    ensures files { shared.new.fs ≡ record shared.old.fs { clock = shared.new.fs.clock } }
{
    let ticks = shared.fs.clock.read();
    machine.read_counter(rd, ticks);
    Effect::quiet(alloc, Served::Done)
}

/// Ends the process with the lowest byte of its argument as its code (exit(2), exit_group(2)).
#[tactic(auto, unfolding(crate::specs::Call::exit_call))]
pub fn exit<H: Host>(
    alloc: Global,
    host: &mut H,
    shared: &mut Shared,
    vpid: u32,
    machine: &Machine,
) -> Result<Effect, HostErr>
    requires sound { IsSound shared.old (H.view host.old) }
    requires lives { IsSome (get shared.old.tasks vpid) }
    ensures { HasEffect vpid (exit_call (shared_of shared.old (H.view host.old)) vpid machine.now)
        shared.old (left shared.new (H.view host.new) machine.now) result
        (H.count host.old) (H.count host.new) }
{
    let code = exit_code(machine.reg(A0));
    Effect::ended(alloc, host, shared, vpid, End::Code(code))
}
