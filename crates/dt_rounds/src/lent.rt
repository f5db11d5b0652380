// A machine that is away, and what comes home for it.
ghost use Rattle.std.specs.Prelude.{◌≡◌, true, IfOk};
ghost use Rattle.dt_board.specs.Job.{finished};
ghost use Rattle.dt_rounds.specs.inner.Round.{HasRun};

use dt_base::NoMemory;
use dt_board::Job;
use dt_rv64::{Hints, Machine, Seg, segment};

/// A machine that is away: its process, the place where a job of it was put, and the machine itself, which is the copy that
/// the job has to have started as. There is no place where no job of it is on the board.
#[derive(Drop)]
pub(crate) struct Lent {
    pub vpid: u32,
    pub place: Option<usize>,
    pub copy: Machine,
}

/// A place whose job was put for a process, and whose machine came home another way.
#[derive(Clone, Copy, Debug)]
pub(crate) struct Late {
    pub vpid: u32,
    pub place: usize,
}

/// What comes home where the job is not to be had: the copy's segment is run here.
pub(crate) fn run_copy(copy: Machine) -> Result<(Machine, Seg), NoMemory>
    ensures { IfOk result (HasRun copy) }
{
    let mut machine = copy;
    let seg = segment(&mut machine, &mut Hints::new())?;
    Ok((machine, seg))
}

/// What comes home of a job that was taken: what it came to, where it started as the copy, and else the copy's segment.
pub(crate) fn come_home(job: Job, copy: Machine) -> Result<(Machine, Seg), NoMemory>
    requires { finished job ≡ true }
    ensures { IfOk result (HasRun copy) }
{
    if !job.is_of(&copy) {
        return run_copy(copy);
    }
    let (machine, outcome) = job.parts();
    Ok((machine, outcome?))
}
