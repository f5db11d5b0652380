// The rule of a board's table, and what each kind of step tells.
ghost use Rattle.std.specs.Prelude.{None, []};
ghost use Rattle.dt_board.specs.Board.{BoardRule};
ghost use Rattle.dt_board.specs.Steps.{opening_tells, put_tells, claim_tells, finish_tells, take_tells};
ghost use Rattle.dt_board.specs.declared.view.View.TheVariants.{Opening, Worker, Spent as SpentView};

use crate::job::Job;
use crate::view::View;
use atomic_table::{Join, Play, Split, TableRule};

pub struct Rule;

impl TableRule<Option<Job>, View, ()> for Rule {
    ghost holds = { λ _. BoardRule };

    ghost first = { λ _. Opening };
}

// The engine's pass takes the empty slots.
pub struct OpeningStep;

impl Play<Option<Job>, View> for OpeningStep {
    ghost then = { opening_tells };
}

pub struct PutStep;

impl Play<Option<Job>, View> for PutStep {
    ghost then = { put_tells };
}

pub struct ClaimStep;

impl Play<Option<Job>, View> for ClaimStep {
    ghost then = { claim_tells };
}

pub struct FinishStep;

impl Play<Option<Job>, View> for FinishStep {
    ghost then = { finish_tells };
}

pub struct TakeStep;

impl Play<Option<Job>, View> for TakeStep {
    ghost then = { take_tells };
}

// A worker's pass is cut from the engine's, and joined to it.
pub struct WorkerCut;

impl Split<View> for WorkerCut {
    ghost left = { λ v. v };

    ghost right = { λ v. Worker None [] };
}

impl Join<View> for WorkerCut {
    ghost both = { λ v w. v };

    ghost spent = { SpentView };
}
