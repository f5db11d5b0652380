// What is done with the machine of a process in its place: a machine is too big to be moved in each turn.
ghost use Rattle.std.specs.Prelude.{◌≡◌, IsSome, IfSome, IfOk};
ghost use Rattle.std.specs.FinMap.{get};
ghost use Rattle.dt_rv64.specs.Segment.{segment_of};
ghost use Rattle.dt_calls.specs.Settle.{effect_of_turn, machine_to_serve};
ghost use Rattle.dt_calls.specs.InCode.{machines_at_home, shared_of};
ghost use Rattle.dt_calls.specs.AtHome.{RunsAt, HasEffectAt};
ghost use Rattle.dt_calls.specs.Sound.{IsSound, HasEffect, left};

use crate::call::{Effect, serve_and_deliver};
use crate::shared::Shared;
use dt_base::NoMemory;
use dt_host::{Host, HostErr};
use dt_rv64::{Hints, Machine, Seg, Stop, segment};
use dt_tables::Numbered;
use std::alloc::Global;

/// Runs a segment of the machine of a process, which is at home.
pub(crate) fn run_at(
    places: &mut Numbered<Option<Machine>>,
    vpid: u32,
    hints: &mut Hints,
) -> Result<Seg, NoMemory>
    requires { IsSome (get (machines_at_home places.old) vpid) }
    ensures { IfOk result (RunsAt places.old places.new vpid) }
{
    match places.get_mut(u64::from(vpid)) {
        Some(place) => run_in(place, hints),
        None => unreachable!(),
    }
}

/// Serves the stop of a process, whose machine is at home.
pub(crate) fn serve_at<H: Host>(
    alloc: Global,
    host: &mut H,
    shared: &mut Shared,
    places: &mut Numbered<Option<Machine>>,
    vpid: u32,
    stop: Stop,
) -> Result<Effect, HostErr>
    requires sound { IsSound shared.old (H.view host.old) }
    requires lives { IsSome (get shared.old.tasks vpid) }
    requires home { IsSome (get (machines_at_home places.old) vpid) }
    ensures { HasEffectAt
        (λ m. effect_of_turn (shared_of shared.old (H.view host.old)) shared.old.pids.next vpid m stop)
        shared.old shared.new (H.view host.new)
        places.old places.new vpid result (H.count host.old) (H.count host.new) }
{
    match places.get_mut(u64::from(vpid)) {
        Some(place) => serve_in(alloc, host, shared, vpid, place, stop),
        None => unreachable!(),
    }
}

// Runs a segment of the machine in a place.
fn run_in(place: &mut Option<Machine>, hints: &mut Hints) -> Result<Seg, NoMemory>
    requires { IsSome place.old }
    ensures stays { IsSome place.new }
    ensures run { IfOk result (λ seg. IfSome place.old (λ was. IfSome place.new (λ now.
        segment_of was ≡ record { count = seg.count; stop = seg.stop; machine = now }))) }
{
    match place {
        Some(machine) => segment(machine, hints),
        None => unreachable!(),
    }
}

// Serves the stop of a process, whose machine is in this place.
fn serve_in<H: Host>(
    alloc: Global,
    host: &mut H,
    shared: &mut Shared,
    vpid: u32,
    place: &mut Option<Machine>,
    stop: Stop,
) -> Result<Effect, HostErr>
    requires sound { IsSound shared.old (H.view host.old) }
    requires lives { IsSome (get shared.old.tasks vpid) }
    requires some { IsSome place.old }
    ensures stays { IsSome place.new }
    ensures served { IfSome place.old (λ was. IfSome place.new (λ now. HasEffect vpid
        (effect_of_turn (shared_of shared.old (H.view host.old)) shared.old.pids.next vpid was stop)
        shared.old (left shared.new (H.view host.new) now) result
        (H.count host.old) (H.count host.new))) }
{
    match place {
        Some(machine) => {
            drop_reserved(machine, stop);
            serve_and_deliver(alloc, host, shared, vpid, machine, stop)
        }
        None => unreachable!(),
    }
}

// Drops what a load reserved, unless the stop is a slice's end.
fn drop_reserved(machine: &mut Machine, stop: Stop)
    ensures { machine.new ≡ machine_to_serve stop machine.old }
{
    match stop {
        Stop::Slice => {}
        Stop::Call | Stop::Counter(_) | Stop::Fault(_) => machine.unreserve(),
    }
}
