// Steps, one after the other.
ghost use Rattle.std.specs.Prelude.{◌≡◌, ◌≤◌, IfSome, IsSome, OnOk, IsErrOf};
ghost use Rattle.std.specs.List.{All};
ghost use Rattle.dt_host.specs.Cause.{HasCause};
ghost use Rattle.dt_host.specs.Sink.{AddsPart};
ghost use Rattle.dt_host.specs.World.{IsEmptyStart};
ghost use Rattle.dt_engine.specs.declared.error.RunErr.TheVariants.{Host as host_failed, Sink as sink_failed};
ghost use Rattle.dt_steps.specs.Steps.{steps_on};
ghost use Rattle.dt_steps.specs.Cache.{Knows};
ghost use Rattle.dt_steps.specs.Answered.{answer_of, Answers, IsAfterSome};

use crate::cache::Cache;
use crate::error::StepsErr;
use crate::input::StepInput;
use crate::step::take_step;
use dt_base::{Command, Image};
use dt_engine::status::ENDED_ZERO;
use dt_host::{Gate, Host, Sink};
use std::alloc::Global;
use std::thread::Threads;
use std::time::Clock;

/// Runs commands one after the other at a host that holds nothing, the first on an image and each later one on the image
/// of the tree that the one before it left. A step that the cache has is taken from it. What is written of each step is
/// its number and its report. They stop after the first status that is not 0, and the answer is that one, or 0.
///
/// `budget`, in steps of the machine, is that of each command, and `workers` run segments as in `run_container`.
pub fn run_steps<R: AllocGlobal + Clock + Threads + Sync, H: Host + Send, O: Sink, G: Gate + Sync>(
    rt: &R,
    cache: &mut Cache,
    image: &Image,
    commands: &[Command],
    seed: u64,
    budget: u64,
    workers: usize,
    host: &mut H,
    out: &mut O,
    gate: &G,
) -> Result<u8, StepsErr>
    requires empty { IsEmptyStart (H.view host.old) }
    requires budget { (1 ≤ budget) × (budget ≤ 1000000000) }
    requires workers { (1 ≤ workers) × (workers ≤ 64) }

    // For every cache the bytes and the status are those of the steps, or a prefix where a run was not completed.
    ensures answers { IfSome (answer_of result) (Answers (steps_on image.now commands.now seed budget)
        (O.told out.old) (O.told out.new) cache.old cache.new) }
    ensures part { let steps = steps_on image.now commands.now seed budget in
        AddsPart (O.told out.old) (O.told out.new) steps.output }

    // Whatever fails, the cache has the steps behind it that were written whole, and the host is empty again where nothing
    // failed.
    ensures cache { let steps = steps_on image.now commands.now seed budget in
        IsAfterSome steps.run (O.told out.old) (O.told out.new) cache.old cache.new }
    ensures empty { IsSome (answer_of result) → IsEmptyStart (H.view host.new) }

    // Where the cache has all steps from the start the host is not asked.
    ensures known { (let steps = steps_on image.now commands.now seed budget in All (Knows cache.old) steps.run)
        → (H.view host.new ≡ H.view host.old) × (H.count host.new ≡ H.count host.old) }

    ensures host { HasCause (H.count host.old) (H.count host.new) (IsErrOf result (StepsErr.Run host_failed)) }
    ensures sink { HasCause (O.count out.old) (O.count out.new) (IsErrOf result (StepsErr.Run sink_failed)) }
{
    let _before = (host.faults(), out.faults());
    let mut next = Ok(image.copy()?);
    for index in 0..commands.len() {
        let input = StepInput {
            image: next?,
            command: commands[index].copy()?,
            seed,
            budget,
        };
        let step = take_step(rt, cache, input, index as u64 + 1, workers, host, out, gate)?;
        if step.status != ENDED_ZERO {
            return Ok(step.status);
        }
        next = step.left;
    }
    Ok(ENDED_ZERO)
}
