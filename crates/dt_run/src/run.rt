// A whole run of a command on an image.
ghost use Rattle.std.specs.Prelude.{◌≤◌, IfOk, IsErrOf};
ghost use Rattle.dt_host.specs.Cause.{HasCause};
ghost use Rattle.dt_host.specs.Sink.{AddsPart};
ghost use Rattle.dt_host.specs.World.{IsEmptyStart};
ghost use Rattle.dt_engine.specs.Run.{run_of, report_of};
ghost use Rattle.dt_engine.specs.Completed.{Completes};

use dt_base::{Command, Image};
use dt_engine::RunErr;
use dt_host::{Gate, Host, Sink};
use dt_rounds::run_to_end;
use std::thread::Threads;
use std::time::Clock;

/// Runs a command on an image at a host that holds nothing, and writes the run's report to `out`, what each turn
/// shows before the next one. The answer is the status.
///
/// `budget` is counted in steps. Where several processes compute, `workers` run their segments side by side, on threads of
/// `rt`, and pass the gate before each. The report does not depend on either.
pub fn run_container<
    R: AllocGlobal + Clock + Threads + Sync,
    H: Host + Send,
    O: Sink + Send,
    G: Gate + Sync,
>(
    rt: &R,
    image: &Image,
    command: &Command,
    seed: u64,
    budget: u64,
    workers: usize,
    host: &mut H,
    out: &mut O,
    gate: &G,
) -> Result<u8, RunErr>
    requires empty { IsEmptyStart (H.view host.old) }
    requires budget { (1 ≤ budget) × (budget ≤ 1000000000) }
    requires workers { (1 ≤ workers) × (workers ≤ 64) }

    ensures completed { IfOk result (λ status. Completes image.now.version (run_of image.now command.now seed budget) status
        (O.told out.old) (O.told out.new) (H.view host.new)) }
    ensures part { AddsPart (O.told out.old) (O.told out.new)
        (report_of image.now.version (run_of image.now command.now seed budget)) }
    ensures host { HasCause (H.count host.old) (H.count host.new) (IsErrOf result RunErr.Host) }
    ensures sink { HasCause (O.count out.old) (O.count out.new) (IsErrOf result RunErr.Sink) }
{
    let ended = run_to_end(rt, image, command, seed, budget, workers, host, out, gate)?;
    Ok(ended.status)
}
