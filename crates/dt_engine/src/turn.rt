// One turn of a run.
ghost use Rattle.std.specs.Prelude.{◌≡◌, ◌<◌, List, Some, IsSome, IfOk, OnOk, IsErrOf};
ghost use Rattle.std.specs.FinMap.{get};
ghost use Rattle.dt_base.specs.declared.event.Event.{Event as EventView};
ghost use Rattle.dt_host.specs.Cause.{HasCause};
ghost use Rattle.dt_host.specs.World.{World};
ghost use Rattle.dt_sched.specs.Core.{head, is_vpid_waiting, IsCore};
ghost use Rattle.dt_sched.specs.declared.settled.Head.TheVariants.{Ready, AllWait};
ghost use Rattle.dt_calls.specs.AtHome.{KeepPlaces};
ghost use Rattle.dt_calls.specs.InCode.{container_of, machines_at_home, container_turn_as};
ghost use Rattle.dt_calls.specs.Settle.{turn_of_container};
ghost use Rattle.dt_calls.specs.Sound.{IsSoundContainer};
ghost use Rattle.dt_engine.specs.Turn.{turn, settled_of};
ghost use Rattle.dt_engine.specs.inner.InCode.{state_of, turn_as, turn_after_waiting, noted_stop, due_stop, stops_after};
ghost use Rattle.dt_engine.specs.inner.Good.{IsGood, steps_left};
ghost use Rattle.dt_engine.specs.InPlay.{IsKept, IsAwake};

use crate::state::State;
use dt_base::{Event, NoMemory};
use dt_calls::Served;
use dt_host::{Host, HostErr};
use dt_rv64::Stop;
use dt_sched::{Head, Settled};
use dt_tables::Numbered;

impl State {
    /// Takes the turn of the head of the queue, which is ready, and answers what it shows. Where all processes wait
    /// then, the time comes to the earliest point that one waits for; where there is none the run is over.
    pub fn turn<H: Host>(&mut self, host: &mut H, vpid: u32) -> Result<Vec<Event>, HostErr>
        requires sound { IsSoundContainer self.old.container (H.view host.old) }
        requires kept { IsKept self.old }
        requires core { IsCore self.old.core }
        requires ready { head self.old.core ≡ Ready vpid }
        ensures ok { IfOk result (λ events. turn (state_of self.old (H.view host.old))
            ≡ turn_as (state_of self.new (H.view host.new)) events.items self.new.core.verdict) }
        ensures sound { OnOk result (IsSoundContainer self.new.container (H.view host.new)) }
        ensures kept { OnOk result (IsKept self.new) }
        ensures good { IsGood self.old → OnOk result (IsGood self.new) }
        ensures awake { OnOk result (IsAwake self.new.core) }
        ensures smaller { OnOk result (steps_left self.new.core < steps_left self.old.core) }
        ensures cause { HasCause (H.count host.old) (H.count host.new) (IsErrOf result HostErr.Failed) }
    {
        let _before = host.faults();
        let events = self.take(host, vpid)?;
        self.wake();
        Ok(events)
    }

    // Takes the turn, but for what follows where all processes wait then.
    fn take<H: Host>(&mut self, host: &mut H, vpid: u32) -> Result<Vec<Event>, HostErr>
        requires sound { IsSoundContainer self.old.container (H.view host.old) }
        requires kept { IsKept self.old }
        requires core { IsCore self.old.core }
        requires ready { head self.old.core ≡ Ready vpid }
        ensures ok { IfOk result (λ events. turn (state_of self.old (H.view host.old))
            ≡ turn_after_waiting (turn_as (state_of self.new (H.view host.new)) events.items self.new.core.verdict)) }
        ensures sound { OnOk result (IsSoundContainer self.new.container (H.view host.new)) }
        ensures kept { OnOk result (IsKept self.new) }
        ensures good { IsGood self.old → OnOk result (IsGood self.new) }
        ensures smaller { OnOk result (steps_left self.new.core < steps_left self.old.core) }
        ensures cause { HasCause (H.count host.old) (H.count host.new) (IsErrOf result HostErr.Failed) }
    {
        let served = self.serve(host, vpid)?;
        note(&mut self.stops, vpid, served)?;
        self.core.settle(settled_of(served));
        Ok(self.container.take_events())
    }

    // Where all processes wait, the time comes to the earliest point that one waits for, or the run is over.
    fn wake(&mut self)
        ensures turned { (w : World) → (events : List EventView)
            → turn_after_waiting (turn_as (state_of self.old w) events self.old.core.verdict)
            ≡ turn_as (state_of self.new w) events self.new.core.verdict }
        ensures sound { (w : World) → IsSoundContainer self.old.container w → IsSoundContainer self.new.container w }
        ensures kept { IsKept self.old → IsKept self.new }
        ensures good { IsGood self.old → IsGood self.new }
        ensures awake { IsAwake self.new.core }
        ensures steps { steps_left self.new.core ≡ steps_left self.old.core }
    {
        match self.core.head() {
            Head::AllWait => self.pass_time(),
            _ => {}
        }
    }

    // The time comes to the earliest point that a process waits for, or the run is over. All processes wait.
    fn pass_time(&mut self)
        requires waits { head self.old.core ≡ AllWait }
        requires core { IsCore self.old.core }
        ensures turned { (w : World) → (events : List EventView)
            → turn_after_waiting (turn_as (state_of self.old w) events self.old.core.verdict)
            ≡ turn_as (state_of self.new w) events self.new.core.verdict }
        ensures sound { (w : World) → IsSoundContainer self.old.container w → IsSoundContainer self.new.container w }
        ensures kept { IsKept self.old → IsKept self.new }
        ensures good { IsGood self.old → IsGood self.new }
        ensures awake { IsAwake self.new.core }
        ensures steps { steps_left self.new.core ≡ steps_left self.old.core }
    {
        match self.container.earliest() {
            Some(_) => {
                self.container.jump();
                self.core.resume();
            }
            None => self.core.dead(),
        }
    }

    // Serves the stop of the last segment that a process has run, or again its call that waits or goes on.
    fn serve<H: Host>(&mut self, host: &mut H, vpid: u32) -> Result<Served, HostErr>
        requires sound { IsSoundContainer self.old.container (H.view host.old) }
        requires home { IsSome (get (machines_at_home self.old.container.places) vpid) }
        requires noted { IsSome (get self.old.stops vpid) }
        ensures ok { IfOk result (λ served.
            turn_of_container (container_of self.old.container (H.view host.old)) vpid
            (due_stop (is_vpid_waiting vpid self.old.core.queue) (noted_stop (get self.old.stops vpid)))
            ≡ Some (container_turn_as (container_of self.new.container (H.view host.new)) served)) }
        ensures rest { self.new ≡ record self.old { container = self.new.container } }
        ensures places { IfOk result
            (λ served. KeepPlaces vpid served self.old.container.places self.new.container.places) }
        ensures sound { OnOk result (IsSoundContainer self.new.container (H.view host.new)) }
        ensures cause { HasCause (H.count host.old) (H.count host.new) (IsErrOf result HostErr.Failed) }
    {
        if self.core.waits(vpid) {
            return self.container.retry(host, vpid);
        }
        let stop = self.stop(vpid);
        self.container.serve(host, vpid, stop)
    }
}

// Notes what came of a process: a child has run no segment, and one that has ended runs none any more.
fn note(stops: &mut Numbered<Stop>, vpid: u32, served: Served) -> Result<(), NoMemory>
    ensures { OnOk result (stops.new ≡ stops_after stops.old vpid served) }
{
    match served {
        Served::Child(child) => stops.put(u64::from(child), Stop::Slice)?,
        Served::LastChild(child) => {
            stops.take(u64::from(vpid));
            stops.put(u64::from(child), Stop::Slice)?;
        }
        Served::Ended => {
            stops.take(u64::from(vpid));
        }
        Served::Done | Served::Blocked | Served::Progress | Served::Unsupported(_) => {}
    }
    Ok(())
}

// What the queue is told of a turn.
fn settled_of(served: Served) -> Settled
    ensures { result ≡ settled_of served }
{
    match served {
        Served::Done => Settled::Again,
        Served::Child(vpid) => Settled::Child(vpid),
        Served::LastChild(vpid) => Settled::LastChild(vpid),
        Served::Blocked => Settled::Waits,
        Served::Progress => Settled::Moved,
        Served::Ended => Settled::Gone,
        Served::Unsupported(number) => Settled::Stopped(number),
    }
}
