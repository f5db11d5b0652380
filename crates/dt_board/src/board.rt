// The board: a table with a word and a slot for each place, and word 0, which belongs to none.
ghost use Rattle.std.specs.Prelude.{◌≡◌, ◌≢◌, ◌<◌, ◌≤◌, false, true, None, []};
ghost use Rattle.std.specs.Prelude.{replicate, slice_set, IfOk};
ghost use Rattle.std.specs.VecDeque.{deque_capacity};
ghost use Rattle.dt_board.specs.Job.{finished};
ghost use Rattle.dt_board.specs.Board.{is_put};
ghost use Rattle.dt_board.specs.Passes.{IsIdleAt};
ghost use Rattle.dt_board.specs.Answers.{IsClaimResult, IsTakeResult};
ghost use Rattle.dt_board.specs.inner.Held.{places_from};

use crate::job::Job;
use crate::passes::{EnginePass, WorkerPass, bring};
use crate::steps::{ClaimStep, FinishStep, OpeningStep, PutStep, Rule, TakeStep, WorkerCut};
use crate::view::{PLACES, View};
use atomic_table::Table;
use dt_base::NoMemory;
use std::alloc::Global;
use std::collections::VecDeque;
use std::marker::Model;

// Word 0, and a word for each place.
const WORDS: usize = 65;

// The words of a place.
const FREE: u64 = 0;

const WAITING: u64 = 1;

const CLAIMED: u64 = 2;

const FINISHED: u64 = 3;

/// Places for jobs, which an engine puts and takes, and workers claim and finish.
#[derive(Drop)]
pub struct Board {
    table: Table<Option<Job>, View, (), Rule, Global>,
}

impl Model for Board {
    ghost use Rattle.std.specs.Prelude.{◌≡◌, suc};
    ghost use Rattle.atomic_table.specs.Seated.{TableId};
    ghost use Rattle.dt_board.specs.declared.view.TheConstants.{PLACES};

    ghost Value = { TableId };

    ghost view = { λ b. b.table.shared.table_id };

    ghost invariant = { λ b.
        (b.table.shared.table_id.words ≡ suc PLACES) × (b.table.shared.table_id.slots ≡ PLACES) };
}

/// What a worker found at a place.
#[derive(Drop)]
pub enum Claim {
    /// A job, which is open and the worker's now.
    Got(Job),
    /// No job that waits: the place's word.
    Nothing(u64),
}

/// What the engine found at a place.
#[derive(Drop)]
pub enum Taken {
    /// A job, which is finished and the engine's now.
    Stopped(Job),
    /// No job that is finished: the place's word.
    NotYet(u64),
}

// The places in order.
fn all_places(alloc: Global) -> Result<VecDeque<usize>, NoMemory>
    ensures places { IfOk result (λ order. order.items ≡ places_from 0 PLACES) }
    ensures room { IfOk result (λ order. PLACES ≤ deque_capacity order) }
{
    let mut order = VecDeque::with_capacity(alloc, PLACES)?;
    for place in 0..PLACES {
        order.push_back_reserved(place);
    }
    Ok(order)
}

impl Board {
    /// A board whose places are free, and the engine's pass.
    pub fn new(alloc: Global) -> Result<(Board, EnginePass), NoMemory>
        ensures { IfOk result (λ made.
            made.1 ≡ record { board = made.0; puts = replicate PLACES false; tries = [] }) }
    {
        let order = all_places(alloc)?;
        let (table, mut seat) = Table::vacant(alloc, &[FREE; WORDS], PLACES, &())?;
        table.shared.load::<OpeningStep>(&mut seat, 0);
        Ok((Board { table }, EnginePass { seat, order }))
    }

    /// A pass for one more worker, which has claimed no place.
    pub fn split(&self, pass: &mut EnginePass) -> WorkerPass
        requires board { pass.old.board ≡ self.now }
        ensures same { pass.new ≡ pass.old }
        ensures worker { result ≡ record { board = self.now; claimed = None; tries = [] } }
    {
        let seat = self.table.shared.split_seat::<WorkerCut>(&mut pass.seat);
        WorkerPass {
            seat,
            claimed: None,
        }
    }

    /// Ends a worker's pass, which has claimed no place. No clause sees what becomes of the worker's view.
    pub fn join(&self, pass: &mut EnginePass, worker: WorkerPass)
        requires board { pass.old.board ≡ self.now }
        requires none { IsIdleAt self.now worker }
        ensures same { pass.new ≡ pass.old }
    {
        let WorkerPass { seat, claimed: _ } = worker;
        self.table
            .shared
            .join_seat::<WorkerCut>(&mut pass.seat, seat);
    }

    /// Puts an open job at a free place.
    pub fn put(&self, pass: &mut EnginePass, place: usize, job: Job)
        requires board { pass.old.board ≡ self.now }
        requires place { place < PLACES }
        requires free { is_put pass.old.puts place ≡ false }
        requires open { finished job ≡ false }
        ensures { pass.new ≡ record pass.old { puts = slice_set pass.old.puts place true } }
    {
        let shared = &self.table.shared;
        bring(&mut pass.seat, &mut pass.order, place);
        drop(shared.exchange(&mut pass.seat, place, Some(job)));
        shared.store::<PutStep>(&mut pass.seat, place + 1, WAITING);
        pass.order.pop_front();
    }

    /// Claims the job at a place, if one waits there.
    pub fn claim(&self, pass: &mut WorkerPass, place: usize) -> Claim
        requires place { place < PLACES }
        requires none { IsIdleAt self.now pass.old }
        ensures { IsClaimResult place pass.old result pass.new }
    {
        let shared = &self.table.shared;
        let found = shared.compare_exchange::<ClaimStep>(
            &mut pass.seat,
            place + 1,
            WAITING,
            CLAIMED,
        );
        if found != WAITING {
            return Claim::Nothing(found);
        }
        pass.claimed = Some(place);
        Claim::Got(shared.exchange(&mut pass.seat, place, None).unwrap())
    }

    /// Gives a finished job back to the place that is claimed.
    pub fn finish(&self, pass: &mut WorkerPass, job: Job)
        requires board { pass.old.board ≡ self.now }
        requires claimed { pass.old.claimed ≢ None }
        requires finished { finished job ≡ true }
        ensures { pass.new ≡ record pass.old { claimed = None } }
    {
        let shared = &self.table.shared;
        let place = pass.claimed.unwrap();
        drop(shared.exchange(&mut pass.seat, place, Some(job)));
        shared.store::<FinishStep>(&mut pass.seat, place + 1, FINISHED);
        pass.claimed = None;
    }

    /// Takes the job at a place where one is put, if it is finished.
    pub fn take(&self, pass: &mut EnginePass, place: usize) -> Taken
        requires board { pass.old.board ≡ self.now }
        requires place { place < PLACES }
        requires put { is_put pass.old.puts place ≡ true }
        ensures { IsTakeResult place pass.old result pass.new }
    {
        let shared = &self.table.shared;
        let found = shared.compare_exchange::<TakeStep>(&mut pass.seat, place + 1, FINISHED, FREE);
        if found != FINISHED {
            return Taken::NotYet(found);
        }
        pass.order.push_front_reserved(place);
        Taken::Stopped(shared.exchange(&mut pass.seat, place, None).unwrap())
    }
}
