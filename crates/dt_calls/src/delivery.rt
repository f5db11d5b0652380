// Delivery of a signal to a process whose stop was served.
ghost use Rattle.std.specs.Prelude.{◌≡◌, IsSome, IfOk};
ghost use Rattle.std.specs.FinMap.{get};
ghost use Rattle.dt_signals.specs.Delivery.{delivery_of, delivery_result};
ghost use Rattle.dt_calls.specs.Container.{task_in, with_signals};
ghost use Rattle.dt_calls.specs.Delivery.{forced_signal, waiting_state, call_state, task_after_delivery};
ghost use Rattle.dt_calls.specs.InCode.{DeliveredAt};

use crate::container::Served;
use crate::task::Task;
use dt_base::NoMemory;
use dt_late::Polling;
use dt_rv64::{Machine, Stop};
use dt_signals::{CallState, Delivery, deliver};
use dt_tables::Numbered;

/// Delivers the signal of a fault, or the lowest that is pending and not masked, to a live process whose stop was
/// served.
pub fn deliver_at(
    tasks: &mut Numbered<Task>,
    vpid: u32,
    machine: &mut Machine,
    forced: Option<u8>,
    served: Served,
) -> Result<Delivery, NoMemory>
    requires { IsSome (get tasks.old vpid) }
    ensures { IfOk result (DeliveredAt (delivery_of forced (call_state (task_in tasks.old vpid) served)
        (task_in tasks.old vpid).signals machine.old) vpid tasks.old tasks.new machine.new) }
{
    match tasks.get_mut(u64::from(vpid)) {
        Some(task) => deliver_to(task, machine, forced, served),
        None => unreachable!(),
    }
}

// Delivers to a process with this task.
fn deliver_to(
    task: &mut Task,
    machine: &mut Machine,
    forced: Option<u8>,
    served: Served,
) -> Result<Delivery, NoMemory>
    ensures delivered { IfOk result (λ came.
        delivery_of forced (call_state task.old served) task.old.signals machine.old
        ≡ delivery_result came task.new.signals machine.new) }
    ensures task { IfOk result (λ came.
        task.new ≡ task_after_delivery came (with_signals task.old task.new.signals)) }
{
    let call = call_state(task, served);
    match deliver(machine, &mut task.signals, forced, call)? {
        Delivery::Nothing => Ok(Delivery::Nothing),
        Delivery::Handler => {
            task.caller.done = 0;
            task.polling = Polling::Idle;
            Ok(Delivery::Handler)
        }
        Delivery::Ends(signal) => Ok(Delivery::Ends(signal)),
    }
}

// The call of a process, as delivery sees it.
fn call_state(task: &Task, served: Served) -> CallState
    ensures { result ≡ call_state task.now served }
{
    match served {
        Served::Blocked => waiting_state(task.polling, task.caller.done),
        Served::Progress => CallState::Waits(task.caller.done),
        Served::Done
        | Served::Child(_)
        | Served::LastChild(_)
        | Served::Ended
        | Served::Unsupported(_) => CallState::Plain,
    }
}

// A call that waits, as delivery sees it.
fn waiting_state(polling: Polling, done: u64) -> CallState
    ensures { result ≡ waiting_state polling done }
{
    match polling {
        Polling::Idle => CallState::Waits(done),
        Polling::Until(_) | Polling::Forever => CallState::Polls,
    }
}

/// The signal of a fault.
pub fn forced_signal(stop: Stop) -> Option<u8>
    ensures { result ≡ forced_signal stop }
{
    match stop {
        Stop::Fault(signal) => Some(signal),
        Stop::Call | Stop::Counter(_) | Stop::Slice => None,
    }
}
