// One step: found in the cache, or run.
ghost use Rattle.std.specs.Prelude.{◌≡◌, ◌≤◌, ◌++◌, Some, Ok, codes, IfOk, OnOk, OnErr, IsErrOf};
ghost use Rattle.std.specs.Fmt.{decimal};
ghost use Rattle.dt_calls.specs.InCode.{shared_of};
ghost use Rattle.dt_calls.specs.Sound.{IsSoundContainer};
ghost use Rattle.dt_export.specs.ExportedImage.{image_of_tree};
ghost use Rattle.dt_host.specs.Asks.{Asks};
ghost use Rattle.dt_host.specs.Cause.{HasCause};
ghost use Rattle.dt_host.specs.Sink.{added, AddsPart};
ghost use Rattle.dt_host.specs.World.{IsEmptyStart};
ghost use Rattle.dt_engine.specs.Run.{report_of, status_of_run};
ghost use Rattle.dt_tree.specs.Table.{Stands, tree_of};
ghost use Rattle.dt_steps.specs.Steps.{run_of_step, image_after, step_text};
ghost use Rattle.dt_steps.specs.Cache.{IsAfterStep, Knows, with_step};
ghost use Rattle.dt_steps.specs.inner.Left.{IsStep, IsOfPaths, image_or_refusal, refusal_of};

use crate::cache::Cache;
use crate::input::StepInput;
use dt_base::{Image, NoMemory};
use dt_engine::RunErr;
use dt_export::{ExportErr, ExportRefusal, image_of_tree};
use dt_host::{Gate, Host, HostErr, Sink, SinkErr, VecSink, sink_all};
use dt_rounds::{Ended, run_to_end};
use dt_tree::Tree;
use std::alloc::Global;
use std::io::Write;
use std::thread::Threads;
use std::time::Clock;

/// Why a tree has no image.
#[derive(Clone, Copy, Debug, PartialEq, Eq)]
pub enum NoImage {
    LongPath,
    TooMany,
}

/// What a step came to: its status, and the image of the tree that it left, or why that has none.
#[derive(Drop)]
pub struct Step {
    pub status: u8,
    pub left: Result<Image, NoImage>,
}

/// Takes a step: it is found in the cache, or it is run at a host that holds nothing and kept in the cache. What is
/// written is its number and its report. The host holds nothing again then.
pub fn take_step<R: AllocGlobal + Clock + Threads + Sync, H: Host + Send, O: Sink, G: Gate + Sync>(
    rt: &R,
    cache: &mut Cache,
    input: StepInput,
    number: u64,
    workers: usize,
    host: &mut H,
    out: &mut O,
    gate: &G,
) -> Result<Step, RunErr>
    requires empty { IsEmptyStart (H.view host.old) }
    requires budget { (1 ≤ input.budget) × (input.budget ≤ 1000000000) }
    requires workers { (1 ≤ workers) × (workers ≤ 64) }
    ensures step { IfOk result (IsStep (run_of_step input)) }
    ensures wrote { OnOk result (O.told out.new ≡ added (O.told out.old) (step_text number input.image.version (run_of_step input))) }
    ensures part { AddsPart (O.told out.old) (O.told out.new) (step_text number input.image.version (run_of_step input)) }
    ensures after { OnOk result (IsAfterStep input cache.old cache.new) }
    ensures err { OnErr result (cache.new ≡ cache.old) }
    ensures empty { OnOk result (IsEmptyStart (H.view host.new)) }
    ensures known { Knows cache.old input → host.new ≡ host.old }
    ensures host { HasCause (H.count host.old) (H.count host.new) (IsErrOf result RunErr.Host) }
    ensures sink { HasCause (O.count out.old) (O.count out.new) (IsErrOf result RunErr.Sink) }
{
    let _before = (host.faults(), out.faults());
    match cache.find(&input) {
        Some(step) => {
            write_step(rt.alloc(), out, number, step.report.as_slice())?;
            Ok(Step {
                status: step.status,
                left: Ok(step.left.copy()?),
            })
        }
        None => run_step(rt, cache, input, number, workers, host, out, gate),
    }
}

// Runs a step that the cache has not, and keeps it there.
fn run_step<R: AllocGlobal + Clock + Threads + Sync, H: Host + Send, O: Sink, G: Gate + Sync>(
    rt: &R,
    cache: &mut Cache,
    input: StepInput,
    number: u64,
    workers: usize,
    host: &mut H,
    out: &mut O,
    gate: &G,
) -> Result<Step, RunErr>
    requires empty { IsEmptyStart (H.view host.old) }
    requires budget { (1 ≤ input.budget) × (input.budget ≤ 1000000000) }
    requires workers { (1 ≤ workers) × (workers ≤ 64) }
    ensures step { IfOk result (IsStep (run_of_step input)) }
    ensures wrote { OnOk result (O.told out.new ≡ added (O.told out.old) (step_text number input.image.version (run_of_step input))) }
    ensures part { AddsPart (O.told out.old) (O.told out.new) (step_text number input.image.version (run_of_step input)) }
    ensures kept { OnOk result (cache.new ≡ with_step cache.old input (image_after (run_of_step input))) }
    ensures err { OnErr result (cache.new ≡ cache.old) }
    ensures empty { OnOk result (IsEmptyStart (H.view host.new)) }
    ensures host { HasCause (H.count host.old) (H.count host.new) (IsErrOf result RunErr.Host) }
    ensures sink { HasCause (O.count out.old) (O.count out.new) (IsErrOf result RunErr.Sink) }
{
    let _before = (host.faults(), out.faults());
    let alloc = rt.alloc();
    let mut report = VecSink::new(alloc);
    let step = run_alone(rt, &input, workers, host, &mut report, gate)?;
    write_step(alloc, out, number, report.bytes())?;
    if let Ok(left) = &step.left {
        cache.keep(input, report.bytes(), step.status, left)?;
    }
    Ok(step)
}

// Runs a step at a host that holds nothing, and gathers its report. The host holds nothing again then.
#[tactic(auto, unfolding(crate::specs::Steps::run_of_step))]
fn run_alone<R: AllocGlobal + Clock + Threads + Sync, H: Host + Send, G: Gate + Sync>(
    rt: &R,
    input: &StepInput,
    workers: usize,
    host: &mut H,
    report: &mut VecSink,
    gate: &G,
) -> Result<Step, HostErr>
    requires empty { IsEmptyStart (H.view host.old) }
    requires budget { (1 ≤ input.now.budget) × (input.now.budget ≤ 1000000000) }
    requires workers { (1 ≤ workers) × (workers ≤ 64) }
    ensures step { IfOk result (IsStep (run_of_step input.now)) }
    ensures report { OnOk result (report.new ≡ report.old ++ report_of input.now.image.version (run_of_step input.now)) }
    ensures empty { OnOk result (IsEmptyStart (H.view host.new)) }
    ensures cause { HasCause (H.count host.old) (H.count host.new) (IsErrOf result HostErr.Failed) }
{
    let Ended { status, container } = gather(rt, input, workers, host, report, gate)?;
    let left = image_left(rt.alloc(), host, container.tree())?;
    container.clear(host)?;
    Ok(Step { status, left })
}

// Runs a step at a host that holds nothing, and gathers its report.
#[tactic(auto, unfolding(crate::specs::Steps::run_of_step))]
fn gather<R: AllocGlobal + Clock + Threads + Sync, H: Host + Send, G: Gate + Sync>(
    rt: &R,
    input: &StepInput,
    workers: usize,
    host: &mut H,
    report: &mut VecSink,
    gate: &G,
) -> Result<Ended, HostErr>
    requires empty { IsEmptyStart (H.view host.old) }
    requires budget { (1 ≤ input.now.budget) × (input.now.budget ≤ 1000000000) }
    requires workers { (1 ≤ workers) × (workers ≤ 64) }
    ensures status { IfOk result (λ ended. ended.status ≡ status_of_run (run_of_step input.now)) }
    ensures report { OnOk result (report.new ≡ report.old ++ report_of input.now.image.version (run_of_step input.now)) }
    ensures left { IfOk result (λ ended. (let run = run_of_step input.now in run.last)
        ≡ shared_of ended.container.shared (H.view host.new)) }
    ensures sound { IfOk result (λ ended. IsSoundContainer ended.container (H.view host.new)) }
    ensures cause { HasCause (H.count host.old) (H.count host.new) (IsErrOf result HostErr.Failed) }
{
    let ran = run_to_end(
        rt,
        &input.image,
        &input.command,
        input.seed,
        input.budget,
        workers,
        host,
        report,
        gate,
    );
    match ran {
        Ok(ended) => Ok(ended),
        Err(RunErr::Host) => Err(HostErr::Failed),
        Err(RunErr::NoMemory) => Err(HostErr::NoMemory),
        Err(RunErr::Sink) => unreachable!(),
    }
}

// The image of a tree, or why it has none.
fn image_left<H: Host>(
    alloc: Global,
    host: &mut H,
    tree: &Tree,
) -> Result<Result<Image, NoImage>, HostErr>
    requires { Stands tree.now (H.view host.old).forest }
    ensures ok { IfOk result
        (λ left. image_or_refusal left ≡ image_of_tree (tree_of tree.now (H.view host.old).forest)) }
    ensures asks { Asks H.view H.count host.old host.new result }
{
    match image_of_tree(alloc, host, tree, tree.version()) {
        Ok(image) => Ok(Ok(image)),
        Err(ExportErr::Refused(refusal)) => Ok(Err(no_image(refusal))),
        Err(ExportErr::Host) => Err(HostErr::Failed),
        Err(ExportErr::NoMemory) => Err(HostErr::NoMemory),
    }
}

// Why there is no image, by the refusal.
fn no_image(refusal: ExportRefusal) -> NoImage
    requires { IsOfPaths refusal }
    ensures { refusal_of result ≡ refusal }
{
    match refusal {
        ExportRefusal::LongPath => NoImage::LongPath,
        ExportRefusal::TooMany => NoImage::TooMany,
        ExportRefusal::Exists | ExportRefusal::NotText | ExportRefusal::BigIndex => unreachable!(),
    }
}

// Writes the number and the report of a step.
fn write_step<O: Sink>(
    alloc: Global,
    out: &mut O,
    number: u64,
    report: &[u8],
) -> Result<(), SinkErr>
    ensures wrote { OnOk result (O.told out.new ≡ added (O.told out.old)
        (codes "step " ++ (decimal number ++ (codes "\n" ++ report.now)))) }
    ensures part { AddsPart (O.told out.old) (O.told out.new)
        (codes "step " ++ (decimal number ++ (codes "\n" ++ report.now))) }
    ensures cause { HasCause (O.count out.old) (O.count out.new) (IsErrOf result SinkErr.Failed) }
{
    let _before = out.faults();
    let line = step_line(alloc, number)?;
    sink_all(out, &line)?;
    sink_all(out, report)
}

// The line with the number of a step.
fn step_line(alloc: Global, number: u64) -> Result<Vec<u8>, NoMemory>
    ensures { IfOk result (λ line. line.items ≡ codes "step " ++ (decimal number ++ codes "\n")) }
{
    let mut line = Vec::new(alloc);
    write!(&mut line, "step {number}\n").map_err(|_| NoMemory)?;
    Ok(line)
}
