// Happenings in any order.
ghost use Rattle.std.specs.Prelude.{◌≡◌, take, IfOk, OnOk, IsErrOf};
ghost use Rattle.dt_host.specs.Cause.{HasCause};
ghost use Rattle.dt_host.specs.Sink.{added, AddsPart};
ghost use Rattle.dt_host.specs.World.{World};
ghost use Rattle.dt_image.specs.Report.{events_text};
ghost use Rattle.dt_calls.specs.Sound.{IsSoundContainer};
ghost use Rattle.dt_engine.specs.Playing.{playing_with_all_segments};
ghost use Rattle.dt_engine.specs.Happenings.{may_happen, step_if_allowed, step_of_turn};
ghost use Rattle.dt_engine.specs.Played.{played, admissions, turns};
ghost use Rattle.dt_engine.specs.InPlay.{playing_of, IsFull, IsInPlay};
ghost use Rattle.dt_engine.specs.inner.Good.{IsGood};

use crate::engine::Engine;
use crate::error::RunErr;
use crate::happening::Happening;
use dt_base::NoMemory;
use dt_host::{Host, Sink};
use dt_rv64::Hints;

impl Engine {
    /// Does the longest prefix of these happenings that may happen, and answers its length. Segments are run here, so no
    /// machine may be lent.
    pub fn play<H: Host, O: Sink>(
        &mut self,
        host: &mut H,
        out: &mut O,
        happenings: &[Happening],
    ) -> Result<usize, RunErr>
        requires whole { IsInPlay self.old }
        requires sound { IsSoundContainer self.old.state.container (H.view host.old) }
        requires full { let e = playing_of self.old (H.view host.old) in IsFull e.state }
        ensures count { IfOk result
            (λ n. let d = played (playing_of self.old (H.view host.old)) happenings.now in d.count ≡ n) }
        ensures run { OnOk result (let d = played (playing_of self.old (H.view host.old)) happenings.now in
            d.step.next ≡ playing_of self.new (H.view host.new)) }
        ensures wrote { OnOk result (let d = played (playing_of self.old (H.view host.old)) happenings.now in
            O.told out.new ≡ added (O.told out.old) (events_text d.step.events)) }
        ensures part { let d = played (playing_of self.old (H.view host.old)) happenings.now in
            AddsPart (O.told out.old) (O.told out.new) (events_text d.step.events) }

        // What shows is what as many turns show as there were admissions, and once all segments were run the run is as
        // after these turns.
        ensures turns { IfOk result
            (λ n. let t = turns (admissions (take n happenings.now)) (playing_of self.old (H.view host.old)) in
            playing_with_all_segments (playing_of self.new (H.view host.new)) ≡ playing_with_all_segments t.next) }
        ensures shown { IfOk result
            (λ n. let t = turns (admissions (take n happenings.now)) (playing_of self.old (H.view host.old)) in
            O.told out.new ≡ added (O.told out.old) (events_text t.events)) }

        ensures whole { OnOk result (IsInPlay self.new) }
        ensures sound { OnOk result (IsSoundContainer self.new.state.container (H.view host.new)) }
        ensures full { OnOk result (let e = playing_of self.new (H.view host.new) in IsFull e.state) }
        ensures open { self.new.finished ≡ self.old.finished }
        ensures host { HasCause (H.count host.old) (H.count host.new) (IsErrOf result RunErr.Host) }
        ensures sink { HasCause (O.count out.old) (O.count out.new) (IsErrOf result RunErr.Sink) }
    {
        let _before = (host.faults(), out.faults());
        self.play_longest(host, out, happenings)
    }

    // Lets the longest prefix of these happenings come that may.
    fn play_longest<H: Host, O: Sink>(
        &mut self,
        host: &mut H,
        out: &mut O,
        happenings: &[Happening],
    ) -> Result<usize, RunErr>
        requires whole { IsInPlay self.old }
        requires sound { IsSoundContainer self.old.state.container (H.view host.old) }
        requires full { let e = playing_of self.old (H.view host.old) in IsFull e.state }
        ensures count { IfOk result
            (λ n. let d = played (playing_of self.old (H.view host.old)) happenings.now in d.count ≡ n) }
        ensures run { OnOk result (let d = played (playing_of self.old (H.view host.old)) happenings.now in
            d.step.next ≡ playing_of self.new (H.view host.new)) }
        ensures wrote { OnOk result (let d = played (playing_of self.old (H.view host.old)) happenings.now in
            O.told out.new ≡ added (O.told out.old) (events_text d.step.events)) }
        ensures part { let d = played (playing_of self.old (H.view host.old)) happenings.now in
            AddsPart (O.told out.old) (O.told out.new) (events_text d.step.events) }
        ensures whole { OnOk result (IsInPlay self.new) }
        ensures sound { OnOk result (IsSoundContainer self.new.state.container (H.view host.new)) }
        ensures full { OnOk result (let e = playing_of self.new (H.view host.new) in IsFull e.state) }
        ensures open { self.new.finished ≡ self.old.finished }
        ensures host { HasCause (H.count host.old) (H.count host.new) (IsErrOf result RunErr.Host) }
        ensures sink { HasCause (O.count out.old) (O.count out.new) (IsErrOf result RunErr.Sink) }
    {
        let _before = (host.faults(), out.faults());
        let mut count = 0;
        for happening in happenings {
            if !self.happen(host, out, *happening)? {
                return Ok(count);
            }
            count += 1;
        }
        Ok(count)
    }

    // Lets one happening come, if it may.
    fn happen<H: Host, O: Sink>(
        &mut self,
        host: &mut H,
        out: &mut O,
        happening: Happening,
    ) -> Result<bool, RunErr>
        requires whole { IsInPlay self.old }
        requires sound { IsSoundContainer self.old.state.container (H.view host.old) }
        requires full { let e = playing_of self.old (H.view host.old) in IsFull e.state }
        ensures may { IfOk result (λ b. may_happen (playing_of self.old (H.view host.old)) happening ≡ b) }
        ensures run { OnOk result (let t = step_if_allowed (playing_of self.old (H.view host.old)) happening in
            t.next ≡ playing_of self.new (H.view host.new)) }
        ensures wrote { OnOk result (let t = step_if_allowed (playing_of self.old (H.view host.old)) happening in
            O.told out.new ≡ added (O.told out.old) (events_text t.events)) }
        ensures part { let t = step_if_allowed (playing_of self.old (H.view host.old)) happening in
            AddsPart (O.told out.old) (O.told out.new) (events_text t.events) }
        ensures whole { OnOk result (IsInPlay self.new) }
        ensures sound { OnOk result (IsSoundContainer self.new.state.container (H.view host.new)) }
        ensures full { OnOk result (let e = playing_of self.new (H.view host.new) in IsFull e.state) }
        ensures open { self.new.finished ≡ self.old.finished }
        ensures host { HasCause (H.count host.old) (H.count host.new) (IsErrOf result RunErr.Host) }
        ensures sink { HasCause (O.count out.old) (O.count out.new) (IsErrOf result RunErr.Sink) }
    {
        let _before = (host.faults(), out.faults());
        match happening {
            Happening::Ran(vpid) => Ok(self.run_owed(vpid)?),
            Happening::Admit => self.admit_next(host, out),
        }
    }

    // Runs the segment of a process, where it lives and owes one.
    fn run_owed(&mut self, vpid: u32) -> Result<bool, NoMemory>
        requires whole { IsInPlay self.old }
        requires good { IsGood self.old.state }
        ensures may { (w : World) → IfOk result (λ b. may_happen (playing_of self.old w) (Happening.Ran vpid) ≡ b) }
        ensures run { (w : World) → OnOk result (let t = step_if_allowed (playing_of self.old w) (Happening.Ran vpid) in
            t.next ≡ playing_of self.new w) }
        ensures whole { OnOk result (IsInPlay self.new) }
        ensures good { OnOk result (IsGood self.new.state) }
        ensures sound { (w : World) → IsSoundContainer self.old.state.container w
            → OnOk result (IsSoundContainer self.new.state.container w) }
        ensures open { self.new.finished ≡ self.old.finished }
    {
        if !self.state.core.owing().contains(&vpid) {
            return Ok(false);
        }
        let mut hints = Hints::new();
        self.state.arrive(vpid, &mut hints)?;
        Ok(true)
    }

    // Admits the head, where no verdict stands and its segment has arrived.
    fn admit_next<H: Host, O: Sink>(&mut self, host: &mut H, out: &mut O) -> Result<bool, RunErr>
        requires whole { IsInPlay self.old }
        requires sound { IsSoundContainer self.old.state.container (H.view host.old) }
        requires full { let e = playing_of self.old (H.view host.old) in IsFull e.state }
        ensures may { IfOk result (λ b. may_happen (playing_of self.old (H.view host.old)) Happening.Admit ≡ b) }
        ensures run { OnOk result (let t = step_if_allowed (playing_of self.old (H.view host.old)) Happening.Admit in
            t.next ≡ playing_of self.new (H.view host.new)) }
        ensures wrote { OnOk result (let t = step_if_allowed (playing_of self.old (H.view host.old)) Happening.Admit in
            O.told out.new ≡ added (O.told out.old) (events_text t.events)) }
        ensures part { let t = step_if_allowed (playing_of self.old (H.view host.old)) Happening.Admit in
            AddsPart (O.told out.old) (O.told out.new) (events_text t.events) }
        ensures whole { OnOk result (IsInPlay self.new) }
        ensures sound { OnOk result (IsSoundContainer self.new.state.container (H.view host.new)) }
        ensures full { OnOk result (let e = playing_of self.new (H.view host.new) in IsFull e.state) }
        ensures open { self.new.finished ≡ self.old.finished }
        ensures host { HasCause (H.count host.old) (H.count host.new) (IsErrOf result RunErr.Host) }
        ensures sink { HasCause (O.count out.old) (O.count out.new) (IsErrOf result RunErr.Sink) }
    {
        let _before = (host.faults(), out.faults());
        match self.verdict {
            Some(_) => Ok(false),
            None => Ok(self.admit(host, out)?.has_come()),
        }
    }
}
