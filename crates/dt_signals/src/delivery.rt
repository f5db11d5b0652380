// Delivery of a signal at the end of a process's turn.
ghost use Rattle.std.specs.Prelude.{◌≡◌, ◌≤◌, IfOk, OnErr};
ghost use Rattle.dt_rv64.specs.Valid.{IsMachine};
ghost use Rattle.dt_signals.specs.Signals.{action_of};
ghost use Rattle.dt_signals.specs.Delivery.{delivery_result, refused_by_interrupt, after_interrupt, at_handler, handler_entry, action_result};
ghost use Rattle.dt_signals.specs.Delivery.{forced_delivery, delivery_of};

use crate::action::Action;
use crate::frame::{frame_address, frame_of};
use crate::signals::{Sig, bit_of, is_in, is_signal};
use dt_base::abi::{A0, A1, A2, RA, SA_RESTART, SIGNAL_LIMIT, SIGSEGV, SP};
use dt_base::{Errno, NoMemory};
use dt_elf::layout::TRAMPOLINE;
use dt_rv64::Machine;
use dt_space::WriteErr;

/// Whether a process is in a call that waits, which a handler interrupts.
#[derive(Clone, Copy, Debug, PartialEq, Eq)]
pub enum CallState {
    Plain,
    /// A call that waits, with so many bytes moved.
    Waits(u64),
    /// A ppoll(2) that waits, which no handler restarts (signal(7)).
    Polls,
}

/// What a delivery came to.
#[derive(Clone, Copy, Debug, PartialEq, Eq)]
pub enum Delivery {
    Nothing,
    /// The machine stands at the start of a handler.
    Handler,
    /// The process ends by this signal.
    Ends(u8),
}

/// Delivers the signal of a fault, which ends the process where it is masked or ignored; else drops the pending signals
/// that would do nothing, and delivers the lowest that is left and not masked (signal(7)). A call that waits is over
/// before a handler runs. At want of memory for its frame nothing is delivered, and all stays.
#[tactic(auto, unfolding(crate::specs::Delivery::delivery_of))]
pub fn deliver(
    machine: &mut Machine,
    sig: &mut Sig,
    forced: Option<u8>,
    call: CallState,
) -> Result<Delivery, NoMemory>
    ensures delivered { IfOk result (λ delivery.
        delivery_of forced call sig.old machine.old ≡ delivery_result delivery sig.new machine.new) }
    ensures machine { OnErr result (machine.new ≡ machine.old) }
    ensures signals { OnErr result (sig.new ≡ sig.old) }
    ensures sound { IsMachine machine.old → IsMachine machine.new }
{
    match forced {
        Some(signal) => force(machine, sig, signal, call),
        None => deliver_pending(machine, sig, call),
    }
}

// Delivers the signal of a fault.
fn force(
    machine: &mut Machine,
    sig: &mut Sig,
    signal: u8,
    call: CallState,
) -> Result<Delivery, NoMemory>
    ensures forced { IfOk result (λ delivery.
        forced_delivery sig.old signal call machine.old ≡ delivery_result delivery sig.new machine.new) }
    ensures machine { OnErr result (machine.new ≡ machine.old) }
    ensures signals { OnErr result (sig.new ≡ sig.old) }
    ensures sound { IsMachine machine.old → IsMachine machine.new }
{
    if !is_signal(signal) || is_in(signal, sig.mask) {
        return Ok(Delivery::Ends(signal));
    }
    act(machine, sig, signal, call)
}

// Delivers the lowest pending signal that can be delivered.
#[tactic(auto, unfolding(crate::specs::Delivery::delivery_of))]
fn deliver_pending(
    machine: &mut Machine,
    sig: &mut Sig,
    call: CallState,
) -> Result<Delivery, NoMemory>
    ensures delivered { IfOk result (λ delivery.
        delivery_of None call sig.old machine.old ≡ delivery_result delivery sig.new machine.new) }
    ensures machine { OnErr result (machine.new ≡ machine.old) }
    ensures signals { OnErr result (sig.new ≡ sig.old) }
    ensures sound { IsMachine machine.old → IsMachine machine.new }
{
    let pending = sig.pending;
    sig.drop_ignored();
    match sig.deliverable() {
        Some(signal) => {
            sig.take(signal);
            match act(machine, sig, signal, call) {
                Ok(delivery) => Ok(delivery),
                Err(error) => {
                    sig.pending = pending;
                    Err(error)
                }
            }
        }
        None => Ok(Delivery::Nothing),
    }
}

// A signal acts: its handler is entered, or it ends the process.
fn act(
    machine: &mut Machine,
    sig: &mut Sig,
    signal: u8,
    call: CallState,
) -> Result<Delivery, NoMemory>
    requires least { 1 ≤ signal }
    requires greatest { signal ≤ SIGNAL_LIMIT }
    ensures acted { IfOk result (λ delivery. action_result sig.old signal (action_of sig.old signal) call machine.old
        ≡ delivery_result delivery sig.new machine.new) }
    ensures machine { OnErr result (machine.new ≡ machine.old) }
    ensures signals { OnErr result (sig.new ≡ sig.old) }
    ensures sound { IsMachine machine.old → IsMachine machine.new }
{
    let action = sig.action(signal);
    if !action.has_handler() {
        return Ok(Delivery::Ends(signal));
    }
    let (regs, pc) = (machine.regs, machine.pc);
    interrupt(machine, call, action);
    match enter(machine, sig, signal, action) {
        Ok(delivery) => Ok(delivery),
        Err(error) => {
            machine.regs = regs;
            machine.pc = pc;
            Err(error)
        }
    }
}

// Ends the call that waits: with how many bytes it has moved, else it is made again or refused; a ppoll(2) is refused.
fn interrupt(machine: &mut Machine, call: CallState, action: Action)
    ensures interrupted { machine.new ≡ after_interrupt call action machine.old }
    ensures sound { IsMachine machine.old → IsMachine machine.new }
{
    match call {
        CallState::Plain => {}
        CallState::Waits(0) => {
            if action.flags & SA_RESTART != SA_RESTART {
                refuse_interrupted(machine);
            }
        }
        CallState::Waits(done) => machine.answer(done),
        CallState::Polls => refuse_interrupted(machine),
    }
}

// Refuses the call that waits, since a handler runs.
fn refuse_interrupted(machine: &mut Machine)
    ensures interrupted { machine.new ≡ refused_by_interrupt machine.old }
    ensures sound { IsMachine machine.old → IsMachine machine.new }
{
    machine.answer(u64::from(Errno::Intr.number()).wrapping_neg());
}

// Enters a handler, if its frame can be written.
fn enter(
    machine: &mut Machine,
    sig: &mut Sig,
    signal: u8,
    action: Action,
) -> Result<Delivery, NoMemory>
    requires least { 1 ≤ signal }
    requires greatest { signal ≤ SIGNAL_LIMIT }
    ensures entered { IfOk result (λ delivery.
        handler_entry sig.old signal action machine.old ≡ delivery_result delivery sig.new machine.new) }
    ensures machine { OnErr result (machine.new ≡ machine.old) }
    ensures signals { OnErr result (sig.new ≡ sig.old) }
    ensures sound { IsMachine machine.old → IsMachine machine.new }
{
    let at = frame_address(machine.reg(SP));
    let frame = frame_of(signal, machine, sig.mask);
    match machine.space.write_bytes(at, &frame) {
        Ok(()) => {}
        Err(WriteErr::Miss(_)) => return Ok(Delivery::Ends(SIGSEGV)),
        Err(WriteErr::NoMemory) => return Err(NoMemory),
    }
    machine.regs[usize::from(SP)] = at;
    machine.regs[usize::from(RA)] = TRAMPOLINE;
    machine.regs[usize::from(A0)] = u64::from(signal);
    machine.regs[usize::from(A1)] = at;
    machine.regs[usize::from(A2)] = 0;
    machine.pc = action.handler;
    machine.reserved = None;
    sig.set_mask(sig.mask | action.mask | bit_of(signal));
    Ok(Delivery::Handler)
}
