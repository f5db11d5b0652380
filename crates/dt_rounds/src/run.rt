// A run from its start to its end.
ghost use Rattle.std.specs.Prelude.{◌≡◌, ◌≤◌, IfOk, IsErrOf};
ghost use Rattle.dt_host.specs.Cause.{HasCause};
ghost use Rattle.dt_host.specs.Sink.{AddsPart};
ghost use Rattle.dt_host.specs.World.{IsEmptyStart};
ghost use Rattle.dt_calls.specs.InCode.{shared_of};
ghost use Rattle.dt_calls.specs.Sound.{IsSoundContainer};
ghost use Rattle.dt_engine.specs.Run.{run_of, report_of};
ghost use Rattle.dt_engine.specs.Completed.{Completes};

use crate::crew::{dismiss, hire};
use crate::desk::Desk;
use crate::live::Live;
use crate::runner::{Runner, Tally};
use dt_base::{Command, Image};
use dt_calls::Container;
use dt_engine::{Engine, RunErr};
use dt_host::{Gate, Host, Sink};
use dt_rv64::Hints;
use std::thread::Threads;
use std::time::Clock;

/// A run that was completed: its status, and the container that it left.
#[derive(Drop)]
pub struct Ended {
    pub status: u8,
    pub container: Container,
}

/// Runs a command on an image at a host that holds nothing, and writes the run's report to `out`, what each turn shows
/// before the next one. The answer has the container that the run left.
///
/// `budget` is counted in steps. Where several processes compute, `workers` run their segments side by side, on threads
/// of `rt`, and pass the gate before each. The report does not depend on either.
pub fn run_to_end<
    R: AllocGlobal + Clock + Threads + Sync,
    H: Host + Send,
    O: Sink + Send,
    G: Gate + Sync,
>(
    rt: &R,
    image: &Image,
    command: &Command,
    seed: u64,
    budget: u64,
    workers: usize,
    host: &mut H,
    out: &mut O,
    gate: &G,
) -> Result<Ended, RunErr>
    requires empty { IsEmptyStart (H.view host.old) }
    requires budget { (1 ≤ budget) × (budget ≤ 1000000000) }
    requires workers { (1 ≤ workers) × (workers ≤ 64) }

    ensures completed { IfOk result (λ ended. Completes image.now.version (run_of image.now command.now seed budget) ended.status
        (O.told out.old) (O.told out.new) (H.view host.new)) }
    ensures left { IfOk result (λ ended. let run = run_of image.now command.now seed budget in
        run.last ≡ shared_of ended.container.shared (H.view host.new)) }
    ensures sound { IfOk result (λ ended. IsSoundContainer ended.container (H.view host.new)) }
    ensures part { AddsPart (O.told out.old) (O.told out.new)
        (report_of image.now.version (run_of image.now command.now seed budget)) }
    ensures host { HasCause (H.count host.old) (H.count host.new) (IsErrOf result RunErr.Host) }
    ensures sink { HasCause (O.count out.old) (O.count out.new) (IsErrOf result RunErr.Sink) }
{
    let alloc = rt.alloc();
    let (board, mut desk) = Desk::new(alloc)?;
    let crew = hire(alloc, &board, &mut desk.pass, workers)?;
    let mut runner = Runner::new(rt, gate, &board, crew);
    let mut hints = Hints::new();
    let engine = Engine::begin(alloc, host, out, image, command, seed, budget)?;
    let mut live = Live {
        engine,
        desk,
        lents: Vec::new(alloc),
        lates: Vec::new(alloc),
        tally: Tally::new(),
    };
    live.go_on(host, out, &mut runner, &mut hints)?;
    dismiss(&board, &mut live.desk.pass, runner.crew);
    let status = live.engine.finish(host, out)?;
    Ok(Ended {
        status,
        container: live.engine.close(),
    })
}
