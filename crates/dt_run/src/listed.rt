// Commands that a file lists, each run on the image of the tree that the one before it left.
ghost use Rattle.std.specs.Prelude.{◌≤◌, IfOk, IfErr, IsErrOf};
ghost use Rattle.dt_host.specs.Cause.{HasCause};
ghost use Rattle.dt_host.specs.World.{IsEmptyStart};
ghost use Rattle.dt_steps.specs.Steps.{steps_on};
ghost use Rattle.dt_run.specs.Outcome.{FinishesSteps};
ghost use Rattle.dt_run.specs.inner.Listing.{FailsSteps};

use crate::failure::Failure;
use crate::top::disturb;
use dt_base::{Command, Image};
use dt_host::{Gate, Host, Sink};
use dt_options::StepsOptions;
use dt_steps::{CACHE_LIMIT, Cache, run_steps};
use std::thread::Threads;
use std::time::Clock;

/// Runs commands one after the other as the options ask for it, the first on an image. The answer is the status.
pub fn run_listed<R: AllocGlobal + Clock + Threads + Sync, H: Host + Send, O: Sink, G: Gate + Sync>(
    rt: &R,
    options: &StepsOptions,
    image: &Image,
    commands: &[Command],
    host: &mut H,
    out: &mut O,
    gate: &G,
) -> Result<u8, Failure>
    requires empty { IsEmptyStart (H.view host.old) }
    requires budget { (1 ≤ options.now.budget) × (options.now.budget ≤ 1000000000) }
    requires workers { (1 ≤ options.now.workers) × (options.now.workers ≤ 64) }
    ensures completed { IfOk result (λ status.
        let steps = steps_on image.now commands.now options.now.seed options.now.budget in
        FinishesSteps steps status (O.told out.old) (O.told out.new) (H.view host.new)) }
    ensures failed { IfErr result (λ f.
        let steps = steps_on image.now commands.now options.now.seed options.now.budget in
        FailsSteps f steps (O.told out.old) (O.told out.new)) }
    ensures host { HasCause (H.count host.old) (H.count host.new) (IsErrOf result Failure.Host) }
    ensures output { HasCause (O.count out.old) (O.count out.new) (IsErrOf result Failure.Output) }
{
    let _before = out.faults();
    disturb(options.host, host)?;
    let mut cache = Cache::new(rt.alloc(), CACHE_LIMIT)?;
    let status = run_steps(
        rt,
        &mut cache,
        image,
        commands,
        options.seed,
        options.budget,
        options.workers,
        host,
        out,
        gate,
    )?;
    Ok(status)
}
