// A run in play whose machines may be away, and how they go and come home.
ghost use Rattle.std.specs.Prelude.{◌≡◌, ◌<◌, ◌+◌, [], None, false, IfSome, IfOk, OnOk, IsTrue, length};
ghost use Rattle.std.specs.FinMap.{get};
ghost use Rattle.dt_host.specs.World.{World};
ghost use Rattle.dt_sched.specs.Core.{owing_vpids};
ghost use Rattle.dt_board.specs.Board.{is_put};
ghost use Rattle.dt_calls.specs.Sound.{IsSoundContainer};
ghost use Rattle.dt_engine.specs.Happenings.{is_owing_work};
ghost use Rattle.dt_engine.specs.InPlay.{works_of, IsInPlay};
ghost use Rattle.dt_engine.specs.inner.Good.{IsGood};
ghost use Rattle.dt_rounds.specs.inner.Round.{lent_vpids, HasRun, AreAway, Lends, HasLent, IsLive, KeepsRun};

use crate::desk::Desk;
use crate::lent::{Late, Lent, come_home, run_copy};
use crate::runner::Tally;
use dt_base::NoMemory;
use dt_board::{Board, Job, PLACES};
use dt_engine::Engine;
use dt_rv64::{Machine, Seg};
use std::alloc::Global;

/// A run in play, and what of it is on the board.
#[derive(Drop)]
pub(crate) struct Live {
    pub engine: Engine,
    pub desk: Desk,
    pub lents: Vec<Lent>,
    pub lates: Vec<Late>,
    pub tally: Tally,
}

impl Live {
    /// Lends the machines of all that owe a segment.
    pub fn lend_all(&mut self, alloc: Global, board: &Board) -> Result<(), NoMemory>
        requires board { self.old.desk.pass.board ≡ board.now }
        requires whole { IsInPlay self.old.engine }
        requires good { IsGood self.old.engine.state }
        requires home { self.old.lents.items ≡ [] }
        ensures board { OnOk result (self.new.desk.pass.board ≡ self.old.desk.pass.board) }
        ensures lent { OnOk result (HasLent self.old.engine self.new.lents.items self.new.engine) }
        ensures vpids { OnOk result
            (lent_vpids self.new.lents.items ≡ owing_vpids self.old.engine.state.core.queue) }
        ensures whole { OnOk result (IsInPlay self.new.engine) }
        ensures sound { (w : World) → IsSoundContainer self.old.engine.state.container w
            → OnOk result (IsSoundContainer self.new.engine.state.container w) }
        ensures open { self.new.engine.finished ≡ self.old.engine.finished }
    {
        self.drop_late(board);
        let vpids = Vec::from_slice(alloc, self.engine.owing_queue())?;
        for index in 0..vpids.len() {
            self.lend(board, vpids[index])?;
        }
        Ok(())
    }

    // Lends the machine of a process that owes a segment, and keeps it. A job of a copy is put on the board, where there is
    // a place for it.
    fn lend(&mut self, board: &Board, vpid: u32) -> Result<(), NoMemory>
        requires board { self.old.desk.pass.board ≡ board.now }
        requires whole { IsInPlay self.old.engine }
        requires owing { IsTrue (is_owing_work (get (works_of self.old.engine) vpid)) }
        ensures board { OnOk result (self.new.desk.pass.board ≡ self.old.desk.pass.board) }
        ensures lends { OnOk result
            (Lends vpid self.old.engine self.old.lents.items self.new.engine self.new.lents.items) }
        ensures open { self.new.engine.finished ≡ self.old.engine.finished }
    {
        let mut copy = self.engine.lend(vpid);
        let place = self.place_for(vpid);
        if let Some(place) = place {
            let job = Job::new(copy.fork()?)?;
            self.desk.put(board, place, job);
        }
        self.lents.push(Lent { vpid, place, copy })?;
        Ok(())
    }

    // A place for the machine of a process, if there is one: none where an old job of it is still on the board.
    fn place_for(&self, vpid: u32) -> Option<usize>
        ensures { IfSome result (λ place. (place < PLACES) × (is_put self.now.desk.pass.puts place ≡ false)) }
    {
        if self.lates.iter().any(|late| late.vpid == vpid) {
            return None;
        }
        self.desk.free_place()
    }

    // Drops the old jobs that are finished.
    fn drop_late(&mut self, board: &Board)
        requires { self.old.desk.pass.board ≡ board.now }
        ensures board { self.new.desk.pass.board ≡ self.old.desk.pass.board }
        ensures engine { self.new.engine ≡ self.old.engine }
        ensures lents { self.new.lents.items ≡ self.old.lents.items }
    {
        let mut index = 0;
        while index < self.lates.len() {
            let place = self.lates[index].place;
            match self.desk.take(board, place) {
                None => index += 1,
                Some(_) => {
                    self.lates.swap_remove(index);
                }
            }
        }
    }

    /// Takes the job of the queue's head, where its machine is away and the job is finished, and lets it arrive. Whether
    /// the head's machine is away no more.
    pub fn fetch_head(&mut self, board: &Board) -> Result<bool, NoMemory>
        requires board { self.old.desk.pass.board ≡ board.now }
        requires whole { IsInPlay self.old.engine }
        requires away { AreAway self.old.engine self.old.lents.items }
        ensures board { OnOk result (self.new.desk.pass.board ≡ self.old.desk.pass.board) }
        ensures keeps { (w : World) → IsLive self.old.engine self.old.lents.items w → OnOk result
            (KeepsRun self.old.engine self.old.lents.items self.new.engine self.new.lents.items w) }
        ensures open { self.new.engine.finished ≡ self.old.engine.finished }
    {
        let Some(vpid) = self.engine.awaited() else {
            return Ok(true);
        };
        match self.lents.iter().position(|lent| lent.vpid == vpid) {
            Some(index) => self.take(board, index),
            None => Ok(true),
        }
    }

    // Takes the job of a machine that is away, where it is finished, and lets it arrive. Whether it was.
    fn take(&mut self, board: &Board, index: usize) -> Result<bool, NoMemory>
        requires board { self.old.desk.pass.board ≡ board.now }
        requires index { index < length self.old.lents.items }
        requires whole { IsInPlay self.old.engine }
        requires away { AreAway self.old.engine self.old.lents.items }
        requires running { self.old.engine.verdict ≡ None }
        ensures board { OnOk result (self.new.desk.pass.board ≡ self.old.desk.pass.board) }
        ensures keeps { (w : World) → IsLive self.old.engine self.old.lents.items w → OnOk result
            (KeepsRun self.old.engine self.old.lents.items self.new.engine self.new.lents.items w) }
        ensures open { self.new.engine.finished ≡ self.old.engine.finished }
    {
        let Some(place) = self.lents[index].place else {
            return Ok(false);
        };
        let Some(job) = self.desk.take(board, place) else {
            return Ok(false);
        };
        let lent = self.lents.remove(index);
        let (machine, seg) = come_home(job, lent.copy)?;
        self.tally.note(seg.stop);
        self.engine.ran(lent.vpid, machine, seg);
        Ok(true)
    }

    /// Brings a machine home that is away, and lets it arrive: by its job, where that is finished, and else by its copy.
    pub fn fetch(&mut self, board: &Board, index: usize) -> Result<(), NoMemory>
        requires board { self.old.desk.pass.board ≡ board.now }
        requires index { index < length self.old.lents.items }
        requires whole { IsInPlay self.old.engine }
        requires away { AreAway self.old.engine self.old.lents.items }
        requires running { self.old.engine.verdict ≡ None }
        ensures board { OnOk result (self.new.desk.pass.board ≡ self.old.desk.pass.board) }
        ensures keeps { (w : World) → IsLive self.old.engine self.old.lents.items w → OnOk result
            (KeepsRun self.old.engine self.old.lents.items self.new.engine self.new.lents.items w) }
        ensures fewer { OnOk result (length self.new.lents.items + 1 ≡ length self.old.lents.items) }
        ensures open { self.new.engine.finished ≡ self.old.engine.finished }
    {
        let lent = self.lents.remove(index);
        let vpid = lent.vpid;
        let (machine, seg) = self.home_of(board, lent)?;
        self.tally.note(seg.stop);
        self.engine.ran(vpid, machine, seg);
        Ok(())
    }

    // What comes home of a machine that was away: of its job, where that is finished. Else the job is an old one, and
    // the copy's segment is run.
    fn home_of(&mut self, board: &Board, lent: Lent) -> Result<(Machine, Seg), NoMemory>
        requires board { self.old.desk.pass.board ≡ board.now }
        ensures board { OnOk result (self.new.desk.pass.board ≡ self.old.desk.pass.board) }
        ensures ran { IfOk result (HasRun lent.copy) }
        ensures engine { self.new.engine ≡ self.old.engine }
        ensures lents { self.new.lents.items ≡ self.old.lents.items }
    {
        let Lent { vpid, place, copy } = lent;
        let Some(place) = place else {
            return run_copy(copy);
        };
        match self.desk.take(board, place) {
            Some(job) => come_home(job, copy),
            None => {
                self.lates.push(Late { vpid, place })?;
                run_copy(copy)
            }
        }
    }
}
