// A run in play, taken on until a verdict stands.
ghost use Rattle.std.specs.Prelude.{◌≡◌, ◌<◌, [], All, length, None, OnOk, IsErrOf};
ghost use Rattle.dt_host.specs.Cause.{HasCause};
ghost use Rattle.dt_host.specs.Sink.{AddsPart};
ghost use Rattle.dt_image.specs.Report.{events_text};
ghost use Rattle.dt_sched.specs.Core.{owing_vpids};
ghost use Rattle.dt_calls.specs.Sound.{IsSoundContainer};
ghost use Rattle.dt_engine.specs.Playing.{playing_with_all_segments};
ghost use Rattle.dt_engine.specs.InPlay.{playing_of, IsFull, IsInPlay, steps_left};
ghost use Rattle.dt_engine.specs.Onward.{left_of, IsDone, IsAtRest};
ghost use Rattle.dt_rounds.specs.inner.Crew.{IsIdle};
ghost use Rattle.dt_rounds.specs.inner.Round.{TakesOn};

use crate::live::Live;
use crate::runner::Runner;
use dt_engine::{Admitted, RunErr};
use dt_host::{Gate, Host, HostErr, Sink};
use dt_rv64::Hints;
use std::thread::Threads;
use std::time::Clock;

impl Live {
    /// Takes the run on until a verdict stands. What each turn shows is written before the next one.
    pub fn go_on<
        R: AllocGlobal + Clock + Threads + Sync,
        H: Host + Send,
        O: Sink + Send,
        G: Gate + Sync,
    >(
        &mut self,
        host: &mut H,
        out: &mut O,
        runner: &mut Runner<'_, R, G>,
        hints: &mut Hints,
    ) -> Result<(), RunErr>
        requires board { self.old.desk.pass.board ≡ runner.old.board.now }
        requires crew { All (IsIdle runner.old.board.now) runner.old.crew.items }
        requires rest { IsAtRest self.old.engine (H.view host.old) }
        requires home { self.old.lents.items ≡ [] }
        ensures done { OnOk result (IsDone (left_of (playing_of self.old.engine (H.view host.old))) (O.told out.old)
            self.new.engine (H.view host.new) (O.told out.new)) }
        ensures board { OnOk result (self.new.desk.pass.board ≡ self.old.desk.pass.board) }
        ensures runner { runner.new.board.now ≡ runner.old.board.now }
        ensures crew { All (IsIdle runner.new.board.now) runner.new.crew.items }
        ensures part { let r = left_of (playing_of self.old.engine (H.view host.old)) in
            AddsPart (O.told out.old) (O.told out.new) (events_text r.events) }
        ensures sound { OnOk result (IsSoundContainer self.new.engine.state.container (H.view host.new)) }
        ensures open { self.new.engine.finished ≡ self.old.engine.finished }
        ensures host { HasCause (H.count host.old) (H.count host.new) (IsErrOf result RunErr.Host) }
        ensures sink { HasCause (O.count out.old) (O.count out.new) (IsErrOf result RunErr.Sink) }
    {
        let _before = (host.faults(), out.faults());
        loop {
            if self.engine.is_over() {
                return Ok(());
            }
            self.take_on(host, out, runner, hints)?;
        }
    }

    // Takes the run on by a round, or by less where threads are not worth their start.
    fn take_on<
        R: AllocGlobal + Clock + Threads + Sync,
        H: Host + Send,
        O: Sink + Send,
        G: Gate + Sync,
    >(
        &mut self,
        host: &mut H,
        out: &mut O,
        runner: &mut Runner<'_, R, G>,
        hints: &mut Hints,
    ) -> Result<(), RunErr>
        requires board { self.old.desk.pass.board ≡ runner.old.board.now }
        requires crew { All (IsIdle runner.old.board.now) runner.old.crew.items }
        requires rest { IsAtRest self.old.engine (H.view host.old) }
        requires running { self.old.engine.verdict ≡ None }
        requires home { self.old.lents.items ≡ [] }
        ensures on { OnOk result (TakesOn self.old.engine (H.view host.old) (O.told out.old)
            self.new.engine (H.view host.new) (O.told out.new)) }
        ensures home { OnOk result (self.new.engine.verdict ≡ None → self.new.lents.items ≡ []) }
        ensures board { OnOk result (self.new.desk.pass.board ≡ self.old.desk.pass.board) }
        ensures runner { runner.new.board.now ≡ runner.old.board.now }
        ensures crew { All (IsIdle runner.new.board.now) runner.new.crew.items }
        ensures part { let r = left_of (playing_of self.old.engine (H.view host.old)) in
            AddsPart (O.told out.old) (O.told out.new) (events_text r.events) }
        ensures open { self.new.engine.finished ≡ self.old.engine.finished }
        ensures host { HasCause (H.count host.old) (H.count host.new) (IsErrOf result RunErr.Host) }
        ensures sink { HasCause (O.count out.old) (O.count out.new) (IsErrOf result RunErr.Sink) }
    {
        let owing = self.engine.owing_queue().len();
        let live = self.engine.live();
        if runner.prefers_workers(&mut self.tally, owing, live) {
            self.round(host, out, runner)
        } else {
            self.step(host, out, runner.gate, hints)
        }
    }

    // Takes the turn of the head, or where its segment has not arrived lets one arrive that is owed.
    fn step<H: Host, O: Sink, G: Gate>(
        &mut self,
        host: &mut H,
        out: &mut O,
        gate: &G,
        hints: &mut Hints,
    ) -> Result<(), RunErr>
        requires rest { IsAtRest self.old.engine (H.view host.old) }
        requires running { self.old.engine.verdict ≡ None }
        ensures on { OnOk result (TakesOn self.old.engine (H.view host.old) (O.told out.old)
            self.new.engine (H.view host.new) (O.told out.new)) }
        ensures board { self.new.desk.pass.board ≡ self.old.desk.pass.board }
        ensures lents { self.new.lents.items ≡ self.old.lents.items }
        ensures part { let r = left_of (playing_of self.old.engine (H.view host.old)) in
            AddsPart (O.told out.old) (O.told out.new) (events_text r.events) }
        ensures open { self.new.engine.finished ≡ self.old.engine.finished }
        ensures host { HasCause (H.count host.old) (H.count host.new) (IsErrOf result RunErr.Host) }
        ensures sink { HasCause (O.count out.old) (O.count out.new) (IsErrOf result RunErr.Sink) }
    {
        let _before = (host.faults(), out.faults());
        match self.engine.admit(host, out)? {
            Admitted::NotArrived(_) => Ok(self.let_arrive(host, gate, hints)?),
            Admitted::Turn | Admitted::Over(_) => Ok(()),
        }
    }

    // Runs a segment that is owed, of the process that the host chooses, and lets it arrive. This thread passes the gate
    // before it.
    fn let_arrive<H: Host, G: Gate>(
        &mut self,
        host: &mut H,
        gate: &G,
        hints: &mut Hints,
    ) -> Result<(), HostErr>
        requires whole { IsInPlay self.old.engine }
        requires full { let e = playing_of self.old.engine (H.view host.old) in IsFull e.state }
        requires some { 0 < length (owing_vpids self.old.engine.state.core.queue) }
        ensures alike { OnOk result (playing_with_all_segments (playing_of self.new.engine (H.view host.new))
            ≡ playing_with_all_segments (playing_of self.old.engine (H.view host.old))) }
        ensures whole { OnOk result (IsInPlay self.new.engine) }
        ensures full { OnOk result (let e = playing_of self.new.engine (H.view host.new) in IsFull e.state) }
        ensures sound { IsSoundContainer self.old.engine.state.container (H.view host.old)
            → OnOk result (IsSoundContainer self.new.engine.state.container (H.view host.new)) }
        ensures smaller { OnOk result
            (steps_left self.new.engine.state.core < steps_left self.old.engine.state.core) }
        ensures board { self.new.desk.pass.board ≡ self.old.desk.pass.board }
        ensures lents { self.new.lents.items ≡ self.old.lents.items }
        ensures open { self.new.engine.finished ≡ self.old.engine.finished }
        ensures cause { HasCause (H.count host.old) (H.count host.new) (IsErrOf result HostErr.Failed) }
    {
        let _before = host.faults();
        let owing = self.engine.owing_queue();
        let index = host.next_stop(owing)?;
        let vpid = owing[index];
        gate.pass(0);
        let stop = self.engine.arrive(vpid, hints)?;
        self.tally.note(stop);
        Ok(())
    }
}
