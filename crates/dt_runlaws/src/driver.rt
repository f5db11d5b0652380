// A driver of an engine: it lends machines, takes them back and admits turns in any order.
ghost use Rattle.std.specs.Prelude.{◌≡◌, ◌==◌, ℕ, List, [], Option, None, Some, Ok};
ghost use Rattle.std.specs.Prelude.{slice_get, is_some, if◌then◌else◌, IfSome, IfOk, OnOk, IsErrOf};
ghost use Rattle.std.specs.List.{list_any};
ghost use Rattle.dt_base.specs.declared.event.Event.{Event};
ghost use Rattle.dt_base.specs.declared.event.Verdict.{Verdict};
ghost use Rattle.dt_host.specs.Cause.{HasCause};
ghost use Rattle.dt_host.specs.Sink.{AddsPart};
ghost use Rattle.dt_host.specs.World.{World, IsEmptyStart};
ghost use Rattle.dt_calls.specs.Sound.{IsSoundContainer};
ghost use Rattle.dt_engine.specs.Admission.{admission};
ghost use Rattle.dt_engine.specs.InPlay.{playing_of, owing_of};
ghost use Rattle.dt_engine.specs.Run.{Run, run_of, report_of};
ghost use Rattle.dt_engine.specs.Completed.{Completes};
ghost use Rattle.dt_runlaws.specs.Shown.{HasWritten, WritesPrefix};
ghost use Rattle.dt_runlaws.specs.Driver.{lent_of, may_lend, IsDriving, IsDrivingAt, HasShown, HasReported};
ghost use Rattle.dt_runlaws.specs.Driver.{first_point, point_of, IsAt};
ghost use Rattle.dt_runlaws.specs.Driver.{point_after_lending, point_after_return, point_after_admission};
ghost use Rattle.dt_runlaws.specs.Driver.{point_after_happening, point_after, point_after_all};

use dt_base::{Command, Image, NoMemory};
use dt_engine::{Admitted, Engine, Happening, RunErr};
use dt_host::{Host, Sink};
use dt_rv64::{Hints, Machine, segment};
use std::alloc::Global;

/// What a driver is to do next.
#[derive(Clone, Copy, Debug)]
pub enum Action {
    /// Lend the machine of the process of this virtual pid, if it owes a segment and has its machine at home.
    Lend(u32),
    /// Run the segment of the machine at this index among those that are lent, if there is one, and take it back.
    Return(usize),
    /// Admit the head of the queue.
    Admit,
    /// Let this happen, if no machine is lent.
    Play(Happening),
}

/// A machine that is lent, with the virtual pid of its process.
#[derive(Drop)]
pub struct LentMachine {
    pub vpid: u32,
    pub machine: Machine,
}

/// A run in play, and the machines of it that are lent.
///
/// After an error, or once its report is finished, it may only be dropped.
#[derive(Drop)]
pub struct Driver {
    pub engine: Engine,
    pub lent: Vec<LentMachine>,
}

impl Driver {
    /// Begins a run, and writes the report's first line.
    pub fn begin<H: Host, O: Sink>(
        alloc: Global,
        host: &mut H,
        out: &mut O,
        image: &Image,
        command: &Command,
        seed: u64,
        budget: u64,
    ) -> Result<Self, RunErr>
        requires { IsEmptyStart (H.view host.old) }
        ensures driving { IfOk result (λ f. IsDrivingAt f (H.view host.new)) }
        ensures at { IfOk result
            (λ f. IsAt (first_point image.now command.now seed budget) f (H.view host.new)) }
        ensures reported { IfOk result (λ f. HasReported image.now.version (run_of image.now command.now seed budget) []
            (O.told out.old) f (H.view host.new) (O.told out.new)) }
        ensures part { AddsPart (O.told out.old) (O.told out.new)
            (report_of image.now.version (run_of image.now command.now seed budget)) }
        ensures host { HasCause (H.count host.old) (H.count host.new) (IsErrOf result RunErr.Host) }
        ensures sink { HasCause (O.count out.old) (O.count out.new) (IsErrOf result RunErr.Sink) }
    {
        let engine = Engine::begin(alloc, host, out, image, command, seed, budget)?;
        Ok(Driver {
            engine,
            lent: Vec::new(alloc),
        })
    }

    // Whether the machine of a process is lent.
    fn is_lent(&self, vpid: u32) -> bool
        ensures { result ≡ list_any (λ l. l.vpid == vpid) self.now.lent.items }
    {
        self.lent.iter().any(|lent| lent.vpid == vpid)
    }

    // Whether a process owes a segment, by the engine.
    fn owes(&self, vpid: u32) -> bool
        requires { IsDriving self.now }
        ensures { (w : World) → result
            ≡ list_any (λ q. q == vpid) (owing_of (let e = playing_of self.now.engine w in e.state)) }
    {
        self.engine.owing().contains(&vpid)
    }

    /// Whether a process owes a segment and has its machine at home.
    pub fn may_lend(&self, vpid: u32) -> bool
        requires { IsDriving self.now }
        ensures { (w : World) → result ≡ may_lend (playing_of self.now.engine w) (lent_of self.now.lent.items) vpid }
    {
        self.owes(vpid) && !self.is_lent(vpid)
    }

    /// Lends the machine of a process, if it owes a segment and has its machine at home.
    pub fn lend(&mut self, vpid: u32) -> Result<(), NoMemory>
        requires { IsDriving self.old }
        ensures driving { OnOk result (IsDriving self.new) }
        ensures at { (w : World) (shown : List Event) → let before = point_of self.old w shown in
            OnOk result (IsAt
            (if may_lend before.playing before.lent vpid then point_after_lending vpid before else before) self.new w) }
        ensures shows { (w : World) (all : Run) (shown : List Event) → HasShown all shown self.old w
            → OnOk result (HasShown all shown self.new w) }
        ensures sound { (w : World) → IsSoundContainer self.old.engine.state.container w
            → OnOk result (IsSoundContainer self.new.engine.state.container w) }
    {
        if !self.may_lend(vpid) {
            return Ok(());
        }
        let machine = self.engine.lend(vpid);
        self.lent.push(LentMachine { vpid, machine })?;
        Ok(())
    }

    /// Runs the segment of the machine at an index among those that are lent, if there is one, and takes it back.
    pub fn bring_back(&mut self, index: usize) -> Result<(), NoMemory>
        requires { IsDriving self.old }
        ensures driving { OnOk result (IsDriving self.new) }
        ensures at { (w : World) (shown : List Event) → let before = point_of self.old w shown in
            OnOk result (IsAt (point_after_return index (slice_get before.lent index) before) self.new w) }
        ensures shows { (w : World) (all : Run) (shown : List Event) → HasShown all shown self.old w
            → OnOk result (HasShown all shown self.new w) }
        ensures sound { (w : World) → IsSoundContainer self.old.engine.state.container w
            → OnOk result (IsSoundContainer self.new.engine.state.container w) }
    {
        if self.lent.len() <= index {
            return Ok(());
        }
        let mut lent = self.lent.remove(index);
        let mut hints = Hints::new();
        let seg = segment(&mut lent.machine, &mut hints)?;
        self.engine.ran(lent.vpid, lent.machine, seg);
        Ok(())
    }

    /// Admits the head of the queue, if its segment has arrived and no verdict stands.
    pub fn admit<H: Host, O: Sink>(&mut self, host: &mut H, out: &mut O) -> Result<Admitted, RunErr>
        requires { IsDrivingAt self.old (H.view host.old) }
        ensures driving { OnOk result (IsDrivingAt self.new (H.view host.new)) }
        ensures answer { IfOk result
            (λ answer. let a = admission (playing_of self.old.engine (H.view host.old)) in a.answer ≡ answer) }
        ensures at { (shown : List Event) → let before = point_of self.old (H.view host.old) shown in
            OnOk result (IsAt (point_after_admission before) self.new (H.view host.new)) }
        ensures reported { (version : ℕ) (all : Run) (shown : List Event) (start : Option (List ℕ))
            → HasReported version all shown start self.old (H.view host.old) (O.told out.old)
            → OnOk result (let before = point_of self.old (H.view host.old) shown in
            let after = point_after_admission before in
            HasReported version all after.shown start self.new (H.view host.new) (O.told out.new)) }
        ensures part { (version : ℕ) (all : Run) (shown : List Event) (start : Option (List ℕ))
            → HasReported version all shown start self.old (H.view host.old) (O.told out.old)
            → WritesPrefix version all shown start (O.told out.new) }
        ensures over { IfOk result (λ answer. (w : Verdict) → answer ≡ Admitted.Over w
            → self.new.engine.verdict ≡ Some w) }
        ensures host { HasCause (H.count host.old) (H.count host.new) (IsErrOf result RunErr.Host) }
        ensures sink { HasCause (O.count out.old) (O.count out.new) (IsErrOf result RunErr.Sink) }
    {
        self.engine.admit(host, out)
    }

    /// Lets something happen, if it may and no machine is lent.
    pub fn play<H: Host, O: Sink>(
        &mut self,
        host: &mut H,
        out: &mut O,
        happening: Happening,
    ) -> Result<(), RunErr>
        requires { IsDrivingAt self.old (H.view host.old) }
        ensures driving { OnOk result (IsDrivingAt self.new (H.view host.new)) }
        ensures at { (shown : List Event) → let before = point_of self.old (H.view host.old) shown in
            OnOk result (IsAt (point_after_happening happening before.lent before) self.new (H.view host.new)) }
        ensures reported { (version : ℕ) (all : Run) (shown : List Event) (start : Option (List ℕ))
            → HasReported version all shown start self.old (H.view host.old) (O.told out.old)
            → OnOk result (let before = point_of self.old (H.view host.old) shown in
            let after = point_after_happening happening before.lent before in
            HasReported version all after.shown start self.new (H.view host.new) (O.told out.new)) }
        ensures part { (version : ℕ) (all : Run) (shown : List Event) (start : Option (List ℕ))
            → HasReported version all shown start self.old (H.view host.old) (O.told out.old)
            → WritesPrefix version all shown start (O.told out.new) }
        ensures host { HasCause (H.count host.old) (H.count host.new) (IsErrOf result RunErr.Host) }
        ensures sink { HasCause (O.count out.old) (O.count out.new) (IsErrOf result RunErr.Sink) }
    {
        let _before = (host.faults(), out.faults());
        if !self.lent.is_empty() {
            return Ok(());
        }
        self.engine.play(host, out, &[happening])?;
        Ok(())
    }

    /// Does an action, if it may be done.
    pub fn step<H: Host, O: Sink>(
        &mut self,
        host: &mut H,
        out: &mut O,
        action: Action,
    ) -> Result<(), RunErr>
        requires { IsDrivingAt self.old (H.view host.old) }
        ensures driving { OnOk result (IsDrivingAt self.new (H.view host.new)) }
        ensures at { (shown : List Event) → let before = point_of self.old (H.view host.old) shown in
            OnOk result (IsAt (point_after action before) self.new (H.view host.new)) }
        ensures reported { (version : ℕ) (all : Run) (shown : List Event) (start : Option (List ℕ))
            → HasReported version all shown start self.old (H.view host.old) (O.told out.old)
            → OnOk result (let before = point_of self.old (H.view host.old) shown in
            let after = point_after action before in
            HasReported version all after.shown start self.new (H.view host.new) (O.told out.new)) }
        ensures part { (version : ℕ) (all : Run) (shown : List Event) (start : Option (List ℕ))
            → HasReported version all shown start self.old (H.view host.old) (O.told out.old)
            → WritesPrefix version all shown start (O.told out.new) }
        ensures host { HasCause (H.count host.old) (H.count host.new) (IsErrOf result RunErr.Host) }
        ensures sink { HasCause (O.count out.old) (O.count out.new) (IsErrOf result RunErr.Sink) }
    {
        let _before = (host.faults(), out.faults());
        match action {
            Action::Lend(vpid) => Ok(self.lend(vpid)?),
            Action::Return(index) => Ok(self.bring_back(index)?),
            Action::Admit => {
                self.admit(host, out)?;
                Ok(())
            }
            Action::Play(happening) => self.play(host, out, happening),
        }
    }

    /// Admits the head of the queue once more, and ends the report if the run is over. The answer is the status, or
    /// `None` where the run goes on.
    pub fn end<H: Host, O: Sink>(&mut self, host: &mut H, out: &mut O) -> Result<Option<u8>, RunErr>
        requires { IsDrivingAt self.old (H.view host.old) }
        ensures completed { (version : ℕ) (all : Run) (shown : List Event) (start : Option (List ℕ))
            → HasReported version all shown start self.old (H.view host.old) (O.told out.old)
            → IfOk result (λ ended. IfSome ended (λ status.
            Completes version all status start (O.told out.new) (H.view host.new))) }
        ensures driving { result ≡ Ok None → IsDrivingAt self.new (H.view host.new) }
        ensures at { (shown : List Event) → result ≡ Ok None
            → IsAt (point_after_admission (point_of self.old (H.view host.old) shown)) self.new (H.view host.new) }
        ensures reported { (version : ℕ) (all : Run) (shown : List Event) (start : Option (List ℕ))
            → HasReported version all shown start self.old (H.view host.old) (O.told out.old)
            → result ≡ Ok None → let after = point_after_admission (point_of self.old (H.view host.old) shown) in
            HasReported version all after.shown start self.new (H.view host.new) (O.told out.new) }
        ensures over { IfOk result (λ ended. let a = admission (playing_of self.old.engine (H.view host.old)) in
            is_some ended ≡ is_some a.next.verdict) }
        ensures part { (version : ℕ) (all : Run) (shown : List Event) (start : Option (List ℕ))
            → HasReported version all shown start self.old (H.view host.old) (O.told out.old)
            → WritesPrefix version all shown start (O.told out.new) }
        ensures host { HasCause (H.count host.old) (H.count host.new) (IsErrOf result RunErr.Host) }
        ensures sink { HasCause (O.count out.old) (O.count out.new) (IsErrOf result RunErr.Sink) }
    {
        let _before = (host.faults(), out.faults());
        match self.admit(host, out)? {
            Admitted::Over(_) => Ok(Some(self.engine.finish(host, out)?)),
            Admitted::NotArrived(_) | Admitted::Turn => Ok(None),
        }
    }
}

/// Runs a command on an image by these actions, in their order, then admits the head of the queue once more, and ends
/// the report if the run is over. An action that may not be done is left out. The answer is the status, or `None` where
/// the run goes on.
///
/// Whatever the actions are, what was written is a prefix of the run's report, also after an error.
pub fn drive<H: Host, O: Sink>(
    alloc: Global,
    host: &mut H,
    out: &mut O,
    image: &Image,
    command: &Command,
    seed: u64,
    budget: u64,
    actions: &[Action],
) -> Result<Option<u8>, RunErr>
    requires { IsEmptyStart (H.view host.old) }
    ensures completed { IfOk result (λ ended. IfSome ended (λ status.
        Completes image.now.version (run_of image.now command.now seed budget) status
        (O.told out.old) (O.told out.new) (H.view host.new))) }
    ensures shown { result ≡ Ok None
        → let first = first_point image.now command.now seed budget in
        let last = point_after_admission (point_after_all actions.now first) in
        HasWritten image.now.version last.shown (O.told out.old) (O.told out.new) }
    ensures over { IfOk result (λ ended. let first = first_point image.now command.now seed budget in
        let last = point_after_admission (point_after_all actions.now first) in
        is_some ended ≡ is_some last.playing.verdict) }
    ensures part { AddsPart (O.told out.old) (O.told out.new) (report_of image.now.version (run_of image.now command.now seed budget)) }
    ensures host { HasCause (H.count host.old) (H.count host.new) (IsErrOf result RunErr.Host) }
    ensures sink { HasCause (O.count out.old) (O.count out.new) (IsErrOf result RunErr.Sink) }
{
    let _before = (host.faults(), out.faults());
    let mut driver = Driver::begin(alloc, host, out, image, command, seed, budget)?;
    for action in actions {
        driver.step(host, out, *action)?;
    }
    driver.end(host, out)
}
