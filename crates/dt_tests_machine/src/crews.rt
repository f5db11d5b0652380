// A job at each place of a board, which are run by workers on threads of their own.
ghost use Rattle.std.specs.Prelude.{◌≡◌, ◌<◌, true, All, IfOk, OnOk, IfSome};
ghost use Rattle.dt_board.specs.Job.{finished};
ghost use Rattle.dt_board.specs.Passes.{IsIdleAt};

use crate::boards::{SEGMENT, open_job};
use crate::expect::same_at;
use dt_base::NoMemory;
use dt_board::{Board, EnginePass, Job, PLACES, Taken, WorkerPass};
use dt_host::NoGate;
use dt_rv64::Hints;
use std::alloc::Global;
use std::process::Abort;
use std::test::Fail;
use std::thread;
use std::thread::Threads;

// The engine's pass, and of each place whether a job is put there.
#[derive(Drop)]
struct Desk {
    pass: EnginePass,
    marks: [bool; 64],
    ghost same: { marks ≡ pass.puts },
}

impl Desk {
    fn new(alloc: Global) -> Result<(Board, Desk), NoMemory>
        ensures { IfOk result (λ made. made.1.pass.board ≡ made.0) }
    {
        let (board, pass) = Board::new(alloc)?;
        let desk = Desk {
            pass,
            marks: [false; 64],
        };
        Ok((board, desk))
    }

    // Puts a job of this number at a place, if it is free.
    fn put(&mut self, alloc: Global, board: &Board, place: usize, number: u64) -> Result<(), Fail>
        requires board { self.old.pass.board ≡ board.now }
        requires place { place < PLACES }
        ensures { self.new.pass.board ≡ self.old.pass.board }
    {
        if !self.marks[place] {
            let job = open_job(alloc, number)?;
            board.put(&mut self.pass, place, job);
            self.marks[place] = true;
        }
        Ok(())
    }

    // Takes what is finished at a place.
    fn take(&mut self, board: &Board, place: usize) -> Option<Job>
        requires board { self.old.pass.board ≡ board.now }
        requires place { place < PLACES }
        ensures same { self.new.pass.board ≡ self.old.pass.board }
        ensures finished { IfSome result (λ job. finished job ≡ true) }
    {
        if !self.marks[place] {
            return None;
        }
        match board.take(&mut self.pass, place) {
            Taken::NotYet(_) => None,
            Taken::Stopped(job) => {
                self.marks[place] = false;
                Some(job)
            }
        }
    }
}

// Puts a job at each place.
fn put_all(alloc: Global, board: &Board, desk: &mut Desk) -> Result<(), Fail>
    requires { desk.old.pass.board ≡ board.now }
    ensures { OnOk result (desk.new.pass.board ≡ desk.old.pass.board) }
{
    for place in 0..PLACES {
        desk.put(alloc, board, place, place as u64)?;
    }
    Ok(())
}

// So many workers' passes.
fn hire(
    alloc: Global,
    board: &Board,
    pass: &mut EnginePass,
    workers: usize,
) -> Result<Vec<WorkerPass>, NoMemory>
    requires { pass.old.board ≡ board.now }
    ensures same { pass.new ≡ pass.old }
    ensures none { IfOk result (λ crew. All (IsIdleAt board.now) crew.items) }
{
    let mut crew = Vec::new(alloc);
    for _ in 0..workers {
        crew.push(board.split(pass))?;
    }
    Ok(crew)
}

// Sweeps until a sweep finds nothing.
fn sweep(board: &Board, pass: &mut WorkerPass)
    requires { IsIdleAt board.now pass.old }
    ensures { IsIdleAt board.now pass.new }
{
    let mut hints = Hints::new();
    for _ in 0..PLACES {
        if board.work(pass, &mut hints, &NoGate) == 0 {
            return;
        }
    }
}

// Each worker sweeps on a thread of its own.
fn sweep_all<R: Threads + Sync>(rt: &R, board: &Board, crew: &mut [WorkerPass])
    requires { All (IsIdleAt board.now) crew.old }
    ensures { All (IsIdleAt board.now) crew.new }
{
    if crew.is_empty() {
        return;
    }
    let threads = crew.len();
    thread::for_each_mut(rt, crew, threads, &|_, pass| sweep(board, pass));
}

// Ends the workers' passes.
fn end(board: &Board, pass: &mut EnginePass, mut crew: Vec<WorkerPass>)
    requires pass { pass.old.board ≡ board.now }
    requires none { All (IsIdleAt board.now) crew.items }
    ensures { pass.new ≡ pass.old }
{
    while let Some(worker) = crew.pop() {
        board.join(pass, worker);
    }
}

// Whether the job that was taken at a place is the one that was put there, after its segment.
fn is_from(taken: Option<Job>, place: usize) -> bool
    requires { IfSome taken (λ job. finished job ≡ true) }
{
    let Some(job) = taken else { return false };
    let (machine, outcome) = job.parts();
    outcome == Ok(SEGMENT) && machine.reg(5) == (place as u64).wrapping_add(2)
}

// The places where a job was run that was put there. What workers did not claim stays.
fn run_all<R: Threads + Sync>(
    rt: &R,
    alloc: Global,
    board: &Board,
    desk: &mut Desk,
    workers: usize,
) -> Result<usize, Fail>
    requires { desk.old.pass.board ≡ board.now }
{
    put_all(alloc, board, desk)?;
    let mut crew = hire(alloc, board, &mut desk.pass, workers)?;
    sweep_all(rt, board, &mut crew);
    end(board, &mut desk.pass, crew);
    let mut count = 0;
    for place in 0..PLACES {
        if is_from(desk.take(board, place), place) {
            count += 1;
        }
    }
    Ok(count)
}

#[test]
fn each_job_is_run_by_any_number_of_workers(rt: HostRuntime) -> Result<(), Fail> {
    for (workers, count) in [(0, 0), (1, 64), (3, 64), (64, 64)] {
        let (board, mut desk) = Desk::new(rt.alloc())?;
        let ran = run_all(&rt, rt.alloc(), &board, &mut desk, workers)?;
        same_at(&rt, workers, ran, count);
    }
    Ok(())
}
