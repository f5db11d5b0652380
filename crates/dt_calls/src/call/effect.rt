// What a stop that is served does.
ghost use Rattle.std.specs.Prelude.{◌≡◌, ◌≢◌, ℕ, ◌-◌, ◌^◌, [], ◌∷◌, None, IsSome, length, IfOk, OnOk, IsErrOf};
ghost use Rattle.std.specs.FinMap.{get};
ghost use Rattle.dt_base.specs.declared.event.Event.TheVariants.{Out};
ghost use Rattle.dt_base.specs.Errno.{errno_number};
ghost use Rattle.dt_host.specs.Cause.{HasCause};
ghost use Rattle.dt_rv64.specs.Effects.{machine_after_answer};
ghost use Rattle.dt_calls.specs.Delivery.{served_at_handler, takes_signals};
ghost use Rattle.dt_calls.specs.Effect.{quiet_effect};
ghost use Rattle.dt_calls.specs.Ends.{has_ended, served_after_end, with_end};
ghost use Rattle.dt_calls.specs.InCode.{shared_of, effect_as};
ghost use Rattle.dt_calls.specs.Settle.{is_end_of_all};
ghost use Rattle.dt_calls.specs.Sound.{IsSound, HasEffect, left};

use super::Newborn;
use crate::container::Served;
use crate::shared::Shared;
use dt_base::{Blob, End, Errno, Event, FIRST_PID, NoMemory};
use dt_host::{Host, HostErr};
use dt_rv64::Machine;
use std::alloc::Global;

/// What serving a stop made and showed outside, and what became of the process.
#[derive(Drop)]
pub struct Effect {
    /// The machine of a child.
    pub child: Option<Newborn>,
    pub events: Vec<Event>,
    pub served: Served,
}

impl Effect {
    /// Nothing shows.
    pub fn quiet(alloc: Global, served: Served) -> Self
        ensures child { result.child ≡ None }
        ensures events { result.events.items ≡ [] }
        ensures served { result.served ≡ served }
    {
        Effect {
            child: None,
            events: Vec::new(alloc),
            served,
        }
    }

    /// The call is done, and answers a number.
    pub fn done(alloc: Global, machine: &mut Machine, value: u64) -> Self
        ensures machine { machine.new ≡ machine_after_answer machine.old value }
        ensures child { result.child ≡ None }
        ensures events { result.events.items ≡ [] }
        ensures served { result.served ≡ Served.Done }
    {
        machine.answer(value);
        Effect::quiet(alloc, Served::Done)
    }

    /// The call is refused: its answer is minus the errno.
    pub fn refused(alloc: Global, machine: &mut Machine, errno: Errno) -> Self
        ensures machine { machine.new ≡ machine_after_answer machine.old (2 ^ 64 - errno_number errno) }
        ensures child { result.child ≡ None }
        ensures events { result.events.items ≡ [] }
        ensures served { result.served ≡ Served.Done }
    {
        Effect::done(alloc, machine, u64::from(errno.number()).wrapping_neg())
    }

    /// The call is done: bytes go out on a stream, and their number is its answer.
    pub fn output(
        alloc: Global,
        machine: &mut Machine,
        stream: u8,
        bytes: Blob,
    ) -> Result<Self, NoMemory>
        ensures machine { OnOk result (machine.new ≡ machine_after_answer machine.old (length bytes)) }
        ensures child { IfOk result (λ e. e.child ≡ None) }
        ensures events { IfOk result (λ e. e.events.items ≡ Out stream bytes ∷ []) }
        ensures served { IfOk result (λ e. e.served ≡ Served.Done) }
    {
        let mut effect = Effect::done(alloc, machine, bytes.len() as u64);
        effect.events.push(Event::Out(stream, bytes))?;
        Ok(effect)
    }

    /// The process ends, which shows; after the first one all others do (_exit(2)).
    pub fn ended<H: Host>(
        alloc: Global,
        host: &mut H,
        shared: &mut Shared,
        vpid: u32,
        end: End,
    ) -> Result<Self, HostErr>
        requires sound { IsSound shared.old (H.view host.old) }
        requires lives { IsSome (get shared.old.tasks vpid) }
        ensures { (m : Machine) → HasEffect vpid
            (with_end vpid end (quiet_effect (shared_of shared.old (H.view host.old)) m Served.Done))
            shared.old (left shared.new (H.view host.new) m) result (H.count host.old) (H.count host.new) }
    {
        let mut effect = Effect::quiet(alloc, Served::Done);
        effect.end(host, shared, vpid, end)?;
        Ok(effect)
    }

    /// Lets the process end after what it did.
    pub fn end<H: Host>(
        &mut self,
        host: &mut H,
        shared: &mut Shared,
        vpid: u32,
        end: End,
    ) -> Result<(), HostErr>
        requires sound { IsSound shared.old (H.view host.old) }
        requires lives { IsSome (get shared.old.tasks vpid) }
        ensures ended { (m : Machine) → OnOk result
            (with_end vpid end (effect_as (shared_of shared.old (H.view host.old)) m self.old)
            ≡ effect_as (shared_of shared.new (H.view host.new)) m self.new) }
        ensures sound { OnOk result (IsSound shared.new (H.view host.new)) }
        ensures next { OnOk result (shared.new.pids.next ≡ shared.old.pids.next) }
        ensures others { (q : ℕ) → vpid ≢ FIRST_PID → q ≢ vpid → OnOk result
            (IsSome (get shared.old.tasks q) → IsSome (get shared.new.tasks q)) }
        ensures cause { HasCause (H.count host.old) (H.count host.new) (IsErrOf result HostErr.Failed) }
    {
        shared.end(host, vpid, end, &mut self.events)?;
        self.served = self.served.ended();
        Ok(())
    }
}

impl Served {
    // What became of the process if it ends.
    fn ended(self) -> Self
        ensures { result ≡ served_after_end self }
    {
        match self {
            Served::Child(vpid) | Served::LastChild(vpid) => Served::LastChild(vpid),
            Served::Done
            | Served::Blocked
            | Served::Progress
            | Served::Ended
            | Served::Unsupported(_) => Served::Ended,
        }
    }

    /// What became of the process if its handler is to be run: a call that waited is over.
    pub(crate) fn at_handler(self) -> Self
        ensures { result ≡ served_at_handler self }
    {
        match self {
            Served::Blocked | Served::Progress => Served::Done,
            served => served,
        }
    }

    /// Whether a signal may be delivered: the process has not ended, and does not stay at a call that isn't supported.
    pub(crate) fn takes_signals(self) -> bool
        ensures { result ≡ takes_signals self }
    {
        match self {
            Served::Done | Served::Child(_) | Served::Blocked | Served::Progress => true,
            Served::LastChild(_) | Served::Ended | Served::Unsupported(_) => false,
        }
    }

    /// Whether the process has ended.
    pub(crate) fn has_ended(self) -> bool
        ensures { result ≡ has_ended self }
    {
        match self {
            Served::LastChild(_) | Served::Ended => true,
            Served::Done
            | Served::Child(_)
            | Served::Blocked
            | Served::Progress
            | Served::Unsupported(_) => false,
        }
    }

    /// Whether all processes have ended, where this became of one.
    pub(crate) fn is_end_of_all(self, vpid: u32) -> bool
        ensures { result ≡ is_end_of_all vpid self }
    {
        match self {
            Served::LastChild(_) | Served::Ended => vpid == FIRST_PID,
            Served::Done
            | Served::Child(_)
            | Served::Blocked
            | Served::Progress
            | Served::Unsupported(_) => false,
        }
    }
}
