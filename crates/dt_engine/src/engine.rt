// A run in play, which is taken on by segments and admissions in any order.
ghost use Rattle.std.specs.Prelude.{◌≡◌, ◌==◌, ◌<◌, ◌≤◌, ℕ, List, [], true, false, Some, None, is_some, IsSome, IsTrue, IsOk, IfOk, OnOk, IsErrOf};
ghost use Rattle.std.specs.Prelude.{length};
ghost use Rattle.std.specs.FinMap.{get};
ghost use Rattle.std.specs.List.{list_any, Contains};
ghost use Rattle.dt_host.specs.Cause.{HasCause};
ghost use Rattle.dt_host.specs.Sink.{added, AddsPart};
ghost use Rattle.dt_host.specs.World.{World};
ghost use Rattle.dt_image.specs.Report.{events_text};
ghost use Rattle.dt_sched.specs.Core.{head, is_segment_count, owing_vpids, IsCore};
ghost use Rattle.dt_sched.specs.declared.settled.Head.TheVariants.{Ready};
ghost use Rattle.dt_calls.specs.Sound.{IsSoundContainer};
ghost use Rattle.dt_engine.specs.Work.{owing_work};
ghost use Rattle.dt_engine.specs.Turn.{turn};
ghost use Rattle.dt_engine.specs.Ahead.{with_segment_of};
ghost use Rattle.dt_engine.specs.Admission.{admission, admission_of_turn, awaited, is_idle};
ghost use Rattle.dt_engine.specs.Happenings.{is_live, is_owing_work};
ghost use Rattle.dt_engine.specs.Lent.{playing_without_work, playing_with_work, returned_work};
ghost use Rattle.dt_engine.specs.InPlay.{playing_of, works_of, with_places, owing_of, IsFull, IsInPlay, steps_left};
ghost use Rattle.dt_engine.specs.InCode.{state_of};
ghost use Rattle.dt_engine.specs.inner.Good.{IsGood};

use crate::error::RunErr;
use crate::happening::Admitted;
use crate::state::State;
use dt_base::{Event, NoMemory, Verdict};
use dt_calls::Container;
use dt_host::{Host, Sink, SinkErr, sink_all};
use dt_image::events_text;
use dt_rv64::{Hints, Machine, Seg, Stop};
use dt_sched::Head;
use std::alloc::Global;
use std::marker::Model;

/// A run in play. Machines can be lent, so that their segments are run elsewhere, and come back in any order. The head
/// of the queue is admitted once its segment has arrived, and what its turn shows is written at once.
///
/// After an error an engine may only be dropped, or closed where a verdict stands.
#[derive(Drop)]
pub struct Engine {
    pub(crate) alloc: Global,
    pub(crate) state: State,
    pub(crate) verdict: Option<Verdict>,
    pub(crate) finished: bool,
}

impl Engine {
    /// The virtual pids of the processes that owe a segment, in the order of their turns. Those whose machines are lent
    /// are among them.
    pub fn owing(&self) -> &[u32]
        requires { IsInPlay self.now }
        ensures { (w : World) → result.now ≡ owing_of (let e = playing_of self.now w in e.state) }
    {
        self.state.core.owing()
    }

    /// The virtual pids of the processes that owe a segment, as the queue tells them.
    pub fn owing_queue(&self) -> &[u32]
        ensures order { result.now ≡ owing_vpids self.now.state.core.queue }
        ensures core { IsCore self.now.state.core }
    {
        self.state.core.owing()
    }

    // Whether a process owes a segment, by the queue.
    fn owes(&self, vpid: u32) -> bool
        ensures { result ≡ list_any (λ q. q == vpid) (owing_vpids self.now.state.core.queue) }
    {
        self.state.core.owing().contains(&vpid)
    }

    /// How many processes live.
    pub fn live(&self) -> usize
        ensures { result ≡ length self.now.state.core.queue }
    {
        self.state.core.live()
    }

    /// The virtual pid of the head of the queue, where no verdict stands and its segment has not arrived.
    pub fn awaited(&self) -> Option<u32>
        requires { IsInPlay self.now }
        ensures running { IsSome result → self.now.verdict ≡ None }
        ensures head { self.now.verdict ≡ None
            → (w : World) → (let e = playing_of self.now w in awaited e.state) ≡ result }
    {
        match self.verdict {
            Some(_) => None,
            None => match self.state.core.head() {
                Head::NotArrived(vpid) => Some(vpid),
                Head::Ready(_) => None,
                Head::Over(_) => None,
                Head::AllWait => unreachable!(),
            },
        }
    }

    /// Whether a verdict stands.
    pub fn is_over(&self) -> bool
        ensures { result ≡ is_some self.now.verdict }
    {
        self.verdict.is_some()
    }

    /// Gives the container of a run that is over. A machine that is lent then is not in it.
    pub fn close(self) -> Container
        requires { IsSome self.verdict }
        ensures { result ≡ self.state.container }
    {
        self.state.container
    }

    /// Lends the machine of a process that owes a segment and has it at home.
    pub fn lend(&mut self, vpid: u32) -> Machine
        requires whole { IsInPlay self.old }
        requires owing { IsTrue (is_owing_work (get (works_of self.old) vpid)) }
        ensures work { get (works_of self.old) vpid ≡ Some (owing_work result) }
        ensures run { (w : World) → playing_of self.new w ≡ playing_without_work vpid (playing_of self.old w) }
        ensures rest { self.new ≡ with_places self.old self.new.state.container.places }
        ensures whole { IsInPlay self.new }
        ensures sound { (w : World) → IsSoundContainer self.old.state.container w
            → IsSoundContainer self.new.state.container w }
        ensures open { self.new.finished ≡ self.old.finished }
    {
        let _queue = self.state.core.owing();
        self.state.container.take_machine(vpid)
    }

    /// Runs the segment that a process owes, where each live process's machine is at home, and lets it arrive. The answer is
    /// how it stopped. No answer depends on the hints.
    pub fn arrive(&mut self, vpid: u32, hints: &mut Hints) -> Result<Stop, NoMemory>
        requires whole { IsInPlay self.old }
        requires full { (w : World) → let e = playing_of self.old w in IsFull e.state }
        requires owing { Contains (owing_vpids self.old.state.core.queue) vpid }
        ensures ran { (w : World) → OnOk result (playing_of self.new w
            ≡ (let e = playing_of self.old w in record e { state = with_segment_of vpid e.state })) }
        ensures whole { OnOk result (IsInPlay self.new) }
        ensures full { (w : World) → OnOk result (let e = playing_of self.new w in IsFull e.state) }
        ensures sound { (w : World) → IsSoundContainer self.old.state.container w
            → OnOk result (IsSoundContainer self.new.state.container w) }
        ensures smaller { OnOk result (steps_left self.new.state.core < steps_left self.old.state.core) }
        ensures open { self.new.finished ≡ self.old.finished }
    {
        let _queue = self.state.core.owing();
        let stop = self.state.arrive(vpid, hints)?;
        Ok(stop)
    }

    /// Takes a machine back that was lent, with the segment that it has run, of 1 to 65,536 steps. Nothing is charged
    /// for it yet. Where the process has ended meanwhile both are dropped.
    pub fn ran(&mut self, vpid: u32, machine: Machine, seg: Seg)
        requires whole { IsInPlay self.old }
        requires away { get (works_of self.old) vpid ≡ None }
        requires count { IsTrue (is_segment_count seg.count) }
        ensures run { (w : World)
            → playing_of self.new w ≡ playing_with_work vpid (returned_work machine seg) (playing_of self.old w) }
        ensures nearer { (w : World) → (let e = playing_of self.old w in is_live vpid e.state ≡ true)
            → steps_left self.new.state.core < steps_left self.old.state.core }
        ensures whole { IsInPlay self.new }
        ensures sound { (w : World) → IsSoundContainer self.old.state.container w
            → IsSoundContainer self.new.state.container w }
        ensures open { self.new.finished ≡ self.old.finished }
    {
        if self.owes(vpid) {
            self.state.bring_home(vpid, machine, seg);
        }
    }

    /// Admits the head of the queue, if its segment has arrived and no verdict stands, and writes what its turn shows. Else
    /// nothing changes: the answer is whose segment has not arrived, or the verdict.
    pub fn admit<H: Host, O: Sink>(&mut self, host: &mut H, out: &mut O) -> Result<Admitted, RunErr>
        requires whole { IsInPlay self.old }
        requires sound { IsSoundContainer self.old.state.container (H.view host.old) }
        ensures answer { IfOk result
            (λ answer. let a = admission (playing_of self.old (H.view host.old)) in a.answer ≡ answer) }
        ensures run { OnOk result (let a = admission (playing_of self.old (H.view host.old)) in
            a.next ≡ playing_of self.new (H.view host.new)) }
        ensures wrote { OnOk result (let a = admission (playing_of self.old (H.view host.old)) in
            O.told out.new ≡ added (O.told out.old) (events_text a.events)) }
        ensures part { let a = admission (playing_of self.old (H.view host.old)) in
            AddsPart (O.told out.old) (O.told out.new) (events_text a.events) }
        ensures whole { OnOk result (IsInPlay self.new) }
        ensures sound { OnOk result (IsSoundContainer self.new.state.container (H.view host.new)) }
        ensures full { (let e = playing_of self.old (H.view host.old) in IsFull e.state)
            → OnOk result (let e = playing_of self.new (H.view host.new) in IsFull e.state) }

        // Where it has nothing to do it doesn't fail, and asks nothing of host and sink.
        ensures idle { IsTrue (is_idle (playing_of self.old (H.view host.old))) → IsOk result }
        ensures idle_host { IsTrue (is_idle (playing_of self.old (H.view host.old)))
            → (H.view host.new ≡ H.view host.old) × (H.count host.new ≡ H.count host.old) }
        ensures idle_sink { IsTrue (is_idle (playing_of self.old (H.view host.old)))
            → (O.told out.new ≡ O.told out.old) × (O.count out.new ≡ O.count out.old) }

        // Each turn brings the end nearer.
        ensures no_farther { OnOk result (steps_left self.new.state.core ≤ steps_left self.old.state.core) }
        ensures nearer { IfOk result
            (λ answer. answer ≡ Admitted.Turn → steps_left self.new.state.core < steps_left self.old.state.core) }

        ensures open { self.new.finished ≡ self.old.finished }
        ensures host { HasCause (H.count host.old) (H.count host.new) (IsErrOf result RunErr.Host) }
        ensures sink { HasCause (O.count out.old) (O.count out.new) (IsErrOf result RunErr.Sink) }
    {
        let _before = (host.faults(), out.faults());
        match self.verdict {
            Some(verdict) => Ok(Admitted::Over(verdict)),
            None => match self.state.core.head() {
                Head::NotArrived(vpid) => Ok(Admitted::NotArrived(vpid)),
                Head::Ready(vpid) => self.take_turn(host, out, vpid),
                Head::AllWait => unreachable!(),
                Head::Over(verdict) => {
                    self.verdict = Some(verdict);
                    Ok(Admitted::Over(verdict))
                }
            },
        }
    }

    // Takes the turn of the head, which is ready, and writes what it shows.
    fn take_turn<H: Host, O: Sink>(
        &mut self,
        host: &mut H,
        out: &mut O,
        vpid: u32,
    ) -> Result<Admitted, RunErr>
        requires whole { IsInPlay self.old }
        requires sound { IsSoundContainer self.old.state.container (H.view host.old) }
        requires core { IsCore self.old.state.core }
        requires ready { head self.old.state.core ≡ Ready vpid }
        ensures answer { IfOk result (λ answer.
            let a = admission_of_turn (turn (state_of self.old.state (H.view host.old))) in a.answer ≡ answer) }
        ensures run { OnOk result (let a = admission_of_turn (turn (state_of self.old.state (H.view host.old))) in
            a.next ≡ playing_of self.new (H.view host.new)) }
        ensures wrote { OnOk result (let a = admission_of_turn (turn (state_of self.old.state (H.view host.old))) in
            O.told out.new ≡ added (O.told out.old) (events_text a.events)) }
        ensures part { let a = admission_of_turn (turn (state_of self.old.state (H.view host.old))) in
            AddsPart (O.told out.old) (O.told out.new) (events_text a.events) }
        ensures whole { OnOk result (IsInPlay self.new) }
        ensures sound { OnOk result (IsSoundContainer self.new.state.container (H.view host.new)) }
        ensures good { IsGood self.old.state → OnOk result (IsGood self.new.state) }
        ensures smaller { OnOk result (steps_left self.new.state.core < steps_left self.old.state.core) }
        ensures open { self.new.finished ≡ self.old.finished }
        ensures host { HasCause (H.count host.old) (H.count host.new) (IsErrOf result RunErr.Host) }
        ensures sink { HasCause (O.count out.old) (O.count out.new) (IsErrOf result RunErr.Sink) }
    {
        let _before = out.faults();
        let events = self.state.turn(host, vpid)?;
        self.verdict = self.state.core.verdict();
        write_events(self.alloc, &events, out)?;
        Ok(match self.verdict {
            None => Admitted::Turn,
            Some(verdict) => Admitted::Over(verdict),
        })
    }
}

// Writes the texts of events.
fn write_events<O: Sink>(alloc: Global, events: &[Event], out: &mut O) -> Result<(), SinkErr>
    ensures wrote { OnOk result (O.told out.new ≡ added (O.told out.old) (events_text events.now)) }
    ensures part { AddsPart (O.told out.old) (O.told out.new) (events_text events.now) }
    ensures cause { HasCause (O.count out.old) (O.count out.new) (IsErrOf result SinkErr.Failed) }
{
    // Most turns show nothing.
    if events.is_empty() {
        return Ok(());
    }
    let text = events_text(alloc, events)?;
    sink_all(out, text.as_slice())
}

impl Model for Engine {
    ghost use Rattle.std.specs.Coded.{codes};
    ghost use Rattle.dt_engine.specs.contracts.state.State as the_state;
    ghost use Rattle.dt_engine.specs.InPlay.{EngineView};

    ghost Value = { EngineView };

    ghost coded = { Prim.hlevel (codes, the_state.the_row.coded) };

    ghost view = { λ e. record { state = e.state; verdict = e.verdict; finished = e.finished } };
}
