// A round: jobs of all that owe a segment are put on the board, as far as there are places, and turns are taken beside the
// workers.
ghost use Rattle.std.specs.Prelude.{◌≡◌, ◌<◌, [], All, length, None, IfOk, OnOk, IsErrOf};
ghost use Rattle.std.specs.Thread.{IsSync};
ghost use Rattle.dt_host.specs.Cause.{HasCause};
ghost use Rattle.dt_host.specs.Sink.{AddsPart};
ghost use Rattle.dt_image.specs.Report.{events_text};
ghost use Rattle.dt_sched.specs.Core.{owing_vpids};
ghost use Rattle.dt_engine.specs.InPlay.{playing_of};
ghost use Rattle.dt_engine.specs.Onward.{left_of, left_with, IsAtRest};
ghost use Rattle.dt_rounds.specs.inner.Crew.{IsIdle};
ghost use Rattle.dt_rounds.specs.inner.Round.{lent_vpids, lent_works, IsLive, KeepsRun, GoesOn, TakesOn};

use crate::crew::sweep_all;
use crate::live::Live;
use crate::runner::Runner;
use dt_base::NoMemory;
use dt_board::Board;
use dt_engine::{Admitted, RunErr};
use dt_host::{Gate, Host, HostErr, Sink};
use std::alloc::Global;
use std::thread::{Threads, join_mut};
use std::time::Clock;

impl Live {
    /// Has workers run the segments of all that owe one, takes turns beside them, and lets the segments arrive in the
    /// order that the host chooses.
    pub fn round<
        R: AllocGlobal + Clock + Threads + Sync,
        H: Host + Send,
        O: Sink + Send,
        G: Gate + Sync,
    >(&mut self, host: &mut H, out: &mut O, runner: &mut Runner<'_, R, G>) -> Result<(), RunErr>
        requires board { self.old.desk.pass.board ≡ runner.old.board.now }
        requires crew { All (IsIdle runner.old.board.now) runner.old.crew.items }
        requires rest { IsAtRest self.old.engine (H.view host.old) }
        requires running { self.old.engine.verdict ≡ None }
        requires home { self.old.lents.items ≡ [] }
        requires some { 0 < length (owing_vpids self.old.engine.state.core.queue) }
        ensures on { OnOk result (TakesOn self.old.engine (H.view host.old) (O.told out.old)
            self.new.engine (H.view host.new) (O.told out.new)) }
        ensures home { OnOk result (self.new.engine.verdict ≡ None → self.new.lents.items ≡ []) }
        ensures board { OnOk result (self.new.desk.pass.board ≡ self.old.desk.pass.board) }
        ensures runner { runner.new.board.now ≡ runner.old.board.now }
        ensures crew { All (IsIdle runner.new.board.now) runner.new.crew.items }
        ensures part { let r = left_of (playing_of self.old.engine (H.view host.old)) in
            AddsPart (O.told out.old) (O.told out.new) (events_text r.events) }
        ensures open { self.new.engine.finished ≡ self.old.engine.finished }
        ensures host { HasCause (H.count host.old) (H.count host.new) (IsErrOf result RunErr.Host) }
        ensures sink { HasCause (O.count out.old) (O.count out.new) (IsErrOf result RunErr.Sink) }
    {
        let _before = (host.faults(), out.faults());
        let _queue = self.engine.owing_queue();
        let most = self.turns_beside();
        self.lend_all(runner.alloc(), runner.board)?;
        self.run_all(host, out, runner, most)?;
        if self.engine.is_over() {
            return Ok(());
        }
        self.fetch_all(runner.alloc(), host, runner.board)?;
        Ok(())
    }

    // How many turns are taken beside a round at most: half of the processes that owe no segment, rounded up.
    fn turns_beside(&self) -> usize {
        let owing = self.engine.owing_queue().len();
        self.engine.live().saturating_sub(owing).div_ceil(2)
    }

    // Has workers run the segments of all that are away, and beside them admits the head. Where its machine has not come
    // home after that, they go back to it once.
    fn run_all<
        R: AllocGlobal + Clock + Threads + Sync,
        H: Host + Send,
        O: Sink + Send,
        G: Gate + Sync,
    >(
        &mut self,
        host: &mut H,
        out: &mut O,
        runner: &mut Runner<'_, R, G>,
        most: usize,
    ) -> Result<(), RunErr>
        requires board { self.old.desk.pass.board ≡ runner.old.board.now }
        requires crew { All (IsIdle runner.old.board.now) runner.old.crew.items }
        requires live { IsLive self.old.engine self.old.lents.items (H.view host.old) }
        ensures on { OnOk result
            (GoesOn self.old.engine self.old.lents.items (H.view host.old) (O.told out.old)
            self.new.engine self.new.lents.items (H.view host.new) (O.told out.new)) }
        ensures board { OnOk result (self.new.desk.pass.board ≡ self.old.desk.pass.board) }
        ensures runner { runner.new.board.now ≡ runner.old.board.now }
        ensures crew { All (IsIdle runner.new.board.now) runner.new.crew.items }
        ensures part { let r = left_with (playing_of self.old.engine (H.view host.old)) (lent_works self.old.lents.items) in
            AddsPart (O.told out.old) (O.told out.new) (events_text r.events) }
        ensures open { self.new.engine.finished ≡ self.old.engine.finished }
        ensures host { HasCause (H.count host.old) (H.count host.new) (IsErrOf result RunErr.Host) }
        ensures sink { HasCause (O.count out.old) (O.count out.new) (IsErrOf result RunErr.Sink) }
    {
        let _before = (host.faults(), out.faults());
        self.run_beside(host, out, runner, most)?;
        if self.fetch_head(runner.board)? {
            return Ok(());
        }
        self.run_beside(host, out, runner, most)
    }

    // Has workers sweep over the board, and beside them admits the head while it has arrived, at most so many times.
    // Where that is never, no thread is started for it.
    fn run_beside<
        R: AllocGlobal + Clock + Threads + Sync,
        H: Host + Send,
        O: Sink + Send,
        G: Gate + Sync,
    >(
        &mut self,
        host: &mut H,
        out: &mut O,
        runner: &mut Runner<'_, R, G>,
        most: usize,
    ) -> Result<(), RunErr>
        requires board { self.old.desk.pass.board ≡ runner.old.board.now }
        requires crew { All (IsIdle runner.old.board.now) runner.old.crew.items }
        requires live { IsLive self.old.engine self.old.lents.items (H.view host.old) }
        ensures on { OnOk result
            (GoesOn self.old.engine self.old.lents.items (H.view host.old) (O.told out.old)
            self.new.engine self.new.lents.items (H.view host.new) (O.told out.new)) }
        ensures board { OnOk result (self.new.desk.pass.board ≡ self.old.desk.pass.board) }
        ensures runner { runner.new.board.now ≡ runner.old.board.now }
        ensures crew { All (IsIdle runner.new.board.now) runner.new.crew.items }
        ensures part { let r = left_with (playing_of self.old.engine (H.view host.old)) (lent_works self.old.lents.items) in
            AddsPart (O.told out.old) (O.told out.new) (events_text r.events) }
        ensures open { self.new.engine.finished ≡ self.old.engine.finished }
        ensures host { HasCause (H.count host.old) (H.count host.new) (IsErrOf result RunErr.Host) }
        ensures sink { HasCause (O.count out.old) (O.count out.new) (IsErrOf result RunErr.Sink) }
    {
        let rt = runner.rt;
        let gate = runner.gate;
        let board = runner.board;
        let crew = &mut runner.crew;
        let count = self.lents.len();
        if most == 0 {
            sweep_all(rt, board, crew, count, gate);
            return Ok(());
        }
        let mut sweeps = ||
            requires { IsSync R.row × IsSync G.row × All (IsIdle board.now) crew.now.items }
            ensures { All (IsIdle board.entry.now) crew.exit.now.items }
        { sweep_all(rt, board, crew, count, gate) };
        let (_, admitted) = join_mut(
            rt,
            &mut sweeps,
            &mut || self.admit_some(host, out, board, most),
        );
        admitted
    }

    // Admits the head while its segment has arrived, or its job is finished, and no verdict stands, at most so many times.
    fn admit_some<H: Host, O: Sink>(
        &mut self,
        host: &mut H,
        out: &mut O,
        board: &Board,
        most: usize,
    ) -> Result<(), RunErr>
        requires board { self.old.desk.pass.board ≡ board.now }
        requires live { IsLive self.old.engine self.old.lents.items (H.view host.old) }
        ensures on { OnOk result
            (GoesOn self.old.engine self.old.lents.items (H.view host.old) (O.told out.old)
            self.new.engine self.new.lents.items (H.view host.new) (O.told out.new)) }
        ensures board { OnOk result (self.new.desk.pass.board ≡ self.old.desk.pass.board) }
        ensures part { let r = left_with (playing_of self.old.engine (H.view host.old)) (lent_works self.old.lents.items) in
            AddsPart (O.told out.old) (O.told out.new) (events_text r.events) }
        ensures open { self.new.engine.finished ≡ self.old.engine.finished }
        ensures host { HasCause (H.count host.old) (H.count host.new) (IsErrOf result RunErr.Host) }
        ensures sink { HasCause (O.count out.old) (O.count out.new) (IsErrOf result RunErr.Sink) }
    {
        let _before = (host.faults(), out.faults());
        for _ in 0..most {
            self.fetch_head(board)?;
            let _queue = self.engine.owing_queue();
            match self.engine.admit(host, out)? {
                Admitted::Turn => {}
                Admitted::NotArrived(_) | Admitted::Over(_) => return Ok(()),
            }
        }
        Ok(())
    }

    // Brings all machines home that are away, one after the other, as the host chooses.
    fn fetch_all<H: Host>(
        &mut self,
        alloc: Global,
        host: &mut H,
        board: &Board,
    ) -> Result<(), HostErr>
        requires board { self.old.desk.pass.board ≡ board.now }
        requires live { IsLive self.old.engine self.old.lents.items (H.view host.old) }
        requires running { self.old.engine.verdict ≡ None }
        ensures keeps { OnOk result (KeepsRun self.old.engine self.old.lents.items
            self.new.engine self.new.lents.items (H.view host.new)) }
        ensures home { OnOk result (self.new.lents.items ≡ []) }
        ensures board { OnOk result (self.new.desk.pass.board ≡ self.old.desk.pass.board) }
        ensures stays { H.view host.new ≡ H.view host.old }
        ensures open { self.new.engine.finished ≡ self.old.engine.finished }
        ensures cause { HasCause (H.count host.old) (H.count host.new) (IsErrOf result HostErr.Failed) }
    {
        let _before = host.faults();
        let mut vpids = self.lent_vpids(alloc)?;
        while !vpids.is_empty() {
            let index = host.next_stop(&vpids)?;
            vpids.remove(index);
            self.fetch(board, index)?;
        }
        Ok(())
    }

    // The pids of the processes whose machines are away.
    fn lent_vpids(&self, alloc: Global) -> Result<Vec<u32>, NoMemory>
        ensures { IfOk result (λ vpids. vpids.items ≡ lent_vpids self.now.lents.items) }
    {
        let mut vpids = Vec::with_capacity(alloc, self.lents.len())?;
        for index in 0..self.lents.len() {
            vpids.push(self.lents[index].vpid)?;
        }
        Ok(vpids)
    }
}
