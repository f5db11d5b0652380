// The demonstration: a run of an image and a command of its own, and a summary of the run's report.
ghost use Rattle.std.specs.Prelude.{◌≡◌, ◌≤◌, [], Some, IfOk, IsErrOf, string_bytes};
ghost use Rattle.dt_base.specs.declared.profile.TheConstants.{FIRST_VERSION as FIRST};
ghost use Rattle.dt_host.specs.Cause.{HasCause};
ghost use Rattle.dt_host.specs.Sink.{AddsPart};
ghost use Rattle.dt_host.specs.World.{IsEmptyStart};
ghost use Rattle.hex.specs.Hex.{encode_lower};
ghost use Rattle.sha2.specs.Sha256.{sha256};
ghost use Rattle.dt_run.specs.Written.{demo_run, summary, demonstrated};
ghost use Rattle.dt_engine.specs.Completed.{Completes, Finishes};

use crate::run::run_container;
use crate::top::disturb;
use dt_asm::demo_image;
use dt_base::NoMemory;
use dt_engine::RunErr;
use dt_host::{Gate, Host, HostErr, Sink, VecSink, sink_all};
use dt_options::DemoOptions;
use sha2::{Digest, Sha256};
use std::alloc::{AllocError, Global};
use std::io::Write;
use std::thread::Threads;
use std::time::Clock;

// How many steps a demonstration may take.
const DEMO_BUDGET: u64 = 100_000_000;

/// Runs the demonstration of a number, and writes a summary of its report to `out`. The answer is the status.
pub fn demonstrate<
    R: AllocGlobal + Clock + Threads + Sync,
    H: Host + Send,
    O: Sink + Send,
    G: Gate + Sync,
>(rt: &R, options: &DemoOptions, host: &mut H, out: &mut O, gate: &G) -> Result<u8, RunErr>
    requires empty { IsEmptyStart (H.view host.old) }
    requires workers { (1 ≤ options.now.workers) × (options.now.workers ≤ 64) }
    ensures completed { IfOk result (λ status. Finishes (demonstrated options.now.number) status
        (O.told out.old) (O.told out.new) (H.view host.new)) }
    ensures part { AddsPart (O.told out.old) (O.told out.new) (demonstrated options.now.number).text }
    ensures host { HasCause (H.count host.old) (H.count host.new) (IsErrOf result RunErr.Host) }
    ensures output { HasCause (O.count out.old) (O.count out.new) (IsErrOf result RunErr.Sink) }
{
    let _before = out.faults();
    let alloc = rt.alloc();
    let mut report = VecSink::new(alloc);
    let status = gather(rt, options, host, &mut report, gate)?;
    let text = summary(alloc, options.number, status, report.bytes())?;
    sink_all(out, &text)?;
    Ok(status)
}

// Runs the demonstration of a number, and gathers its report.
fn gather<R: AllocGlobal + Clock + Threads + Sync, H: Host + Send, G: Gate + Sync>(
    rt: &R,
    options: &DemoOptions,
    host: &mut H,
    report: &mut VecSink,
    gate: &G,
) -> Result<u8, HostErr>
    requires empty { IsEmptyStart (H.view host.old) }
    requires workers { (1 ≤ options.now.workers) × (options.now.workers ≤ 64) }
    ensures completed { IfOk result (λ status. Completes FIRST (demo_run options.now.number) status
        (Some report.old) (Some report.new) (H.view host.new)) }
    ensures cause { HasCause (H.count host.old) (H.count host.new) (IsErrOf result HostErr.Failed) }
{
    let (image, command) = demo_image(rt.alloc(), options.number)?;
    disturb(options.host, host)?;
    let ran = run_container(
        rt,
        &image,
        &command,
        options.number,
        DEMO_BUDGET,
        options.workers,
        host,
        report,
        gate,
    );
    match ran {
        Ok(status) => Ok(status),
        Err(RunErr::Host) => Err(HostErr::Failed),
        Err(RunErr::NoMemory) => Err(HostErr::NoMemory),
        Err(RunErr::Sink) => unreachable!(),
    }
}

// The summary of a demonstration's status and report.
#[tactic(auto, unfolding(crate::specs::Written::summary))]
fn summary(alloc: Global, number: u64, status: u8, report: &[u8]) -> Result<Vec<u8>, NoMemory>
    ensures { IfOk result (λ text. text.items ≡ summary number status report.now) }
{
    let length = report.len();
    let digest = digest_text(alloc, report)?;
    let mut text = Vec::new(alloc);
    write!(
        &mut text,
        "demo {number}\nstatus {status}\nreport {length} {digest}\n"
    )
    .map_err(|_| NoMemory)?;
    Ok(text)
}

fn digest_text(alloc: Global, bytes: &[u8]) -> Result<String, AllocError>
    ensures { IfOk result (λ text. string_bytes text ≡ encode_lower (sha256 bytes.now)) }
{
    hex::encode(alloc, Sha256::digest(bytes))
}
