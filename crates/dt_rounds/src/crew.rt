// The workers of a run: their passes, and what each does in a round.
ghost use Rattle.std.specs.Prelude.{◌≡◌, All, IfOk};
ghost use Rattle.std.specs.Thread.{IsSync};
ghost use Rattle.dt_rounds.specs.inner.Crew.{IsIdle};

use dt_base::NoMemory;
use dt_board::{Board, EnginePass, PLACES, WorkerPass};
use dt_host::Gate;
use dt_rv64::Hints;
use std::alloc::Global;
use std::thread::{Threads, join_mut};

/// A worker: its pass, and what is kept from segment to segment.
#[derive(Drop)]
pub(crate) struct Worker {
    pub pass: WorkerPass,
    hints: Hints,
}

// Sweeps until one finds nothing, and not too often.
fn sweep<G: Gate>(board: &Board, worker: &mut Worker, gate: &G)
    requires { IsIdle board.now worker.old }
    ensures { IsIdle board.now worker.new }
{
    for _ in 0..PLACES {
        if board.work(&mut worker.pass, &mut worker.hints, gate) == 0 {
            return;
        }
    }
}

/// The first workers sweep, so many: the last of them on this thread, and each other on one of its own. All of those are
/// started before the last one sweeps: a thread that is started by one that computes may wait for its processor until
/// that one is done.
#[cycle(sweeps)]
pub(crate) fn sweep_all<R: Threads + Sync, G: Gate + Sync>(
    rt: &R,
    board: &Board,
    crew: &mut [Worker],
    count: usize,
    gate: &G,
)
    requires { All (IsIdle board.now) crew.old }
    ensures { All (IsIdle board.now) crew.new }
{
    if count <= 1 || crew.len() <= 1 {
        sweep_first(board, crew, gate);
        return;
    }
    let left = count - 1;
    let (first, others) = crew.split_at_mut(1);
    let mut one = ||
        requires { IsSync G.row × All (IsIdle board.now) first.now }
        ensures { All (IsIdle board.entry.now) first.exit.now }
    { sweep_first(board, first, gate) };
    let mut rest = ||
        requires { IsSync R.row × IsSync G.row × All (IsIdle board.now) others.now }
        ensures { All (IsIdle board.entry.now) others.exit.now }
    { sweep_all(rt, board, others, left, gate) };
    join_mut(rt, &mut one, &mut rest);
}

// The first worker sweeps, if there is one.
fn sweep_first<G: Gate>(board: &Board, crew: &mut [Worker], gate: &G)
    requires { All (IsIdle board.now) crew.old }
    ensures { All (IsIdle board.now) crew.new }
{
    if !crew.is_empty() {
        sweep(board, &mut crew[0], gate);
    }
}

/// So many workers.
pub(crate) fn hire(
    alloc: Global,
    board: &Board,
    pass: &mut EnginePass,
    workers: usize,
) -> Result<Vec<Worker>, NoMemory>
    requires { pass.old.board ≡ board.now }
    ensures same { pass.new ≡ pass.old }
    ensures idle { IfOk result (λ crew. All (IsIdle board.now) crew.items) }
{
    let mut crew = Vec::with_capacity(alloc, workers)?;
    for _ in 0..workers {
        crew.push(Worker {
            pass: board.split(pass),
            hints: Hints::new(),
        })?;
    }
    Ok(crew)
}

/// Ends the workers' passes.
pub(crate) fn dismiss(board: &Board, pass: &mut EnginePass, mut crew: Vec<Worker>)
    requires pass { pass.old.board ≡ board.now }
    requires idle { All (IsIdle board.now) crew.items }
    ensures { pass.new ≡ pass.old }
{
    while let Some(worker) = crew.pop() {
        board.join(pass, worker.pass);
    }
}
