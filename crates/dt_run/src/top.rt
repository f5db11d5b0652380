// The call that the program makes.
ghost use Rattle.std.specs.Prelude.{◌≡◌, ◌≢◌, ◌≤◌, ◌⊎◌, false, [], None, Some, Err, map, option_map, string_bytes, IsTrue, IfSome, IfOk};
ghost use Rattle.std.specs.Prelude.{IfErr, OnErr, IsErrOf};
ghost use Rattle.dt_base.specs.declared.refusal.Refusal.{Refusal};
ghost use Rattle.dt_host.specs.Asks.{AsksOr};
ghost use Rattle.dt_image.specs.ImageOf.{image_of};
ghost use Rattle.dt_host.specs.Asks.{Asks};
ghost use Rattle.dt_host.specs.Cause.{HasCause};
ghost use Rattle.dt_host.specs.Sink.{AddsPart};
ghost use Rattle.dt_host.specs.World.{IsEmptyStart};
ghost use Rattle.dt_options.specs.Options.{form_of};
ghost use Rattle.dt_calls.specs.InCode.{shared_of};
ghost use Rattle.dt_calls.specs.Sound.{IsSoundContainer};
ghost use Rattle.dt_run.specs.declared.status.TheConstants.{WORDS_REFUSED, IMAGE_REFUSED, STORE_FAULT, HOST_FAULT};
ghost use Rattle.dt_run.specs.declared.status.TheConstants.{OUTPUT_FAULT, OUT_OF_MEMORY, EXPORT_REFUSED};
ghost use Rattle.dt_engine.specs.Run.{run_of, report_of};
ghost use Rattle.dt_engine.specs.Completed.{Completes};
ghost use Rattle.dt_run.specs.Failure.{failure_status, failure_line};
ghost use Rattle.dt_run.specs.Outcome.{status_of_outcome, IsCompleted};
ghost use Rattle.dt_run.specs.Wanted.{wanted, ReadsStore, AsksExport};
ghost use Rattle.dt_run.specs.SomeRun.{SomeRun, AddsTextPart, AddsExportText};
ghost use Rattle.dt_run.specs.Exports.{HasPut, PutsPart, MayPut};
ghost use Rattle.dt_run.specs.Statuses.{is_status, is_run_status, precedes_run, precedes_export, fails_run, Stayed};
ghost use Rattle.dt_run.specs.Statuses.{RefusesImage, RefusesFolder, status_line, AddsLine};
ghost use Rattle.dt_run.specs.Statuses.{AddsSomeLine, AddsRefusal, AddsExportRefusal};
ghost use Rattle.dt_run.specs.inner.Fails.{HasFailureCause};

use crate::demo::demonstrate;
use crate::export::run_export;
use crate::failure::Failure;
use crate::listed::run_listed;
use dt_base::{Blob, Image, ImageErr};
use dt_engine::RunErr;
use dt_export::{ExportRefusal, has_index, read_steps};
use dt_host::{Gate, Host, HostErr, Sink, SinkErr, Store, sink_all};
use dt_image::read_image;
use dt_options::{ExportOptions, Options, RunOptions, read_options};
use dt_rounds::{Ended, run_to_end};
use std::alloc::Global;
use std::thread::Threads;
use std::time::Clock;

/// Runs what the words ask for, on the image that the store holds, at a host that holds nothing.
/// Writes the report to `out`, and why there is no whole report or no export to `err`; the answer is the status.
/// A demonstration has an image of its own, and a summary of its report is written in the report's place. After the report
/// of an export the image of the last file tree is put into the store. Steps are the commands that a file lists, each run on
/// the image of the tree that the one before left.
pub fn dettrace<
    R: AllocGlobal + Clock + Threads + Sync,
    S: Store,
    H: Host + Send,
    O: Sink + Send,
    E: Sink,
    G: Gate + Sync,
>(rt: &R, words: &[String], store: &mut S, host: &mut H, out: &mut O, err: &mut E, gate: &G) -> u8
    requires { IsEmptyStart (H.view host.old) }

    // At 0, 1 and 10 a run that the words ask for was completed: on the store's image where its files are known, and on
    // some image where they are not. Its report was added, or of a demonstration the summary, the status is its own, the
    // host holds its last tree, and its export was put, where one is asked for. Or steps were completed: the reports of those
    // that ran were added, the status is theirs, and the host holds nothing.
    ensures statuses { IsTrue (is_status result) }
    ensures some_image { IsTrue (is_run_status result) → SomeRun (S.told store.old) (map string_bytes words.now)
        (λ outcome. IsCompleted outcome result (O.told out.old) (O.told out.new) (H.view host.new)
        × HasPut outcome (S.told store.old) (S.told store.new)) }

    // At 5 and 6 a prefix of what is written of such a run or of steps was added, at 7 such a prefix or nothing, at 2 and 3
    // nothing, and at 4 nothing, or after the report of an export that report. What was added at 8 stands with its line
    // below.
    ensures part { IsTrue (fails_run result)
        → AddsTextPart (S.told store.old) (map string_bytes words.now) (O.told out.old) (O.told out.new) }
    ensures memory { result ≡ OUT_OF_MEMORY
        → AddsTextPart (S.told store.old) (map string_bytes words.now) (O.told out.old) (O.told out.new)
        ⊎ (O.told out.new ≡ O.told out.old) }
    ensures stored { result ≡ STORE_FAULT → (O.told out.new ≡ O.told out.old)
        ⊎ AddsExportText (S.told store.old) (map string_bytes words.now) (O.told out.old) (O.told out.new) }
    ensures nothing { IsTrue (precedes_run result) → O.told out.new ≡ O.told out.old }

    // Refused words and each fault have their cause; those of a refused image and of a refused export stand with their
    // lines below. A demonstration reads no store.
    ensures usage { result ≡ WORDS_REFUSED
        → wanted (S.told store.old) (map string_bytes words.now) ≡ Some (Err Failure.Usage) }
    ensures store { HasCause (S.count store.old) (S.count store.new) (result ≡ STORE_FAULT) }
    ensures reads { result ≡ STORE_FAULT → ReadsStore (map string_bytes words.now) }
    ensures host { HasCause (H.count host.old) (H.count host.new) (result ≡ HOST_FAULT) }
    ensures output { HasCause (O.count out.old) (O.count out.new) (result ≡ OUTPUT_FAULT) }

    // Where no call failed, the answer is the run's, or that of a refusal, unless memory was wanting.
    ensures complete { Stayed (S.count store.old) (S.count store.new) → Stayed (H.count host.old) (H.count host.new)
        → Stayed (O.count out.old) (O.count out.new) → IfSome (wanted (S.told store.old) (map string_bytes words.now))
        (λ found. IfOk found (λ outcome. (result ≡ status_of_outcome outcome) ⊎ (result ≡ OUT_OF_MEMORY))) }
    ensures refused_words { wanted (S.told store.old) (map string_bytes words.now) ≡ Some (Err Failure.Usage)
        → (result ≡ WORDS_REFUSED) ⊎ (result ≡ OUT_OF_MEMORY) }
    ensures refused_image { Stayed (S.count store.old) (S.count store.new)
        → IfSome (wanted (S.told store.old) (map string_bytes words.now))
        (λ found. RefusesImage found → (result ≡ IMAGE_REFUSED) ⊎ (result ≡ OUT_OF_MEMORY)) }
    ensures refused_folder { Stayed (S.count store.old) (S.count store.new)
        → IfSome (wanted (S.told store.old) (map string_bytes words.now))
        (λ found. RefusesFolder found → (result ≡ EXPORT_REFUSED) ⊎ (result ≡ OUT_OF_MEMORY)) }

    // The error stream gets the status's line, at 3 and 8 with the refusal's number; where that stream fails, a prefix of
    // it.
    ensures line { result ≢ IMAGE_REFUSED → result ≢ EXPORT_REFUSED → result ≢ OUT_OF_MEMORY
        → AddsLine (status_line result) (E.told err.old) (E.told err.new) (E.count err.old) (E.count err.new) }
    ensures image_line { result ≡ IMAGE_REFUSED
        → AddsRefusal (S.told store.old) (map string_bytes words.now)
        (E.told err.old) (E.told err.new) (E.count err.old) (E.count err.new) }
    ensures export_line { result ≡ EXPORT_REFUSED
        → AddsExportRefusal (S.told store.old) (map string_bytes words.now) (O.told out.old) (O.told out.new)
        (E.told err.old) (E.told err.new) (E.count err.old) (E.count err.new) }
    ensures memory_line { result ≡ OUT_OF_MEMORY → AddsSomeLine (E.told err.old) (E.told err.new) }

    // The store is only read, but that an export may put an index and blobs into its folder, unless it is refused. Where no
    // run was completed it holds what it held, or after the report of an export the first files of that export.
    ensures keeps { MayPut (form_of (map string_bytes words.now)) (S.told store.old) (S.told store.new) }
    ensures untouched { IsTrue (precedes_export result) → S.told store.new ≡ S.told store.old }
    ensures begun { is_run_status result ≡ false → (S.told store.new ≡ S.told store.old)
        ⊎ SomeRun (S.told store.old) (map string_bytes words.now)
        (PutsPart (O.told out.old) (O.told out.new) (S.told store.old) (S.told store.new)) }

    // The host is not asked where words, image, file of steps or folder are refused, nor where the store could not be read.
    // The store is asked only where the words ask for a run, an export or steps.
    ensures unasked { IsTrue (precedes_run result)
        → (H.view host.new ≡ H.view host.old) × (H.count host.new ≡ H.count host.old) }
    ensures refused_unasked { IfSome (wanted (S.told store.old) (map string_bytes words.now)) (λ found. IfErr found
        (λ _. (H.view host.new ≡ H.view host.old) × (H.count host.new ≡ H.count host.old))) }
    ensures unread_unasked { result ≡ STORE_FAULT → AsksExport (map string_bytes words.now)
        ⊎ ((H.view host.new ≡ H.view host.old) × (H.count host.new ≡ H.count host.old)) }
    ensures unread { (ReadsStore (map string_bytes words.now) → ⊥) → S.count store.new ≡ S.count store.old }
{
    match run_words(rt, words, store, host, out, gate) {
        Ok(status) => status,
        Err(failure) => write_failure(failure, err),
    }
}

/// Writes a failure's line to `err`, and answers the failure's status, or want of memory's where `err` wants memory.
pub fn write_failure<E: Sink>(failure: Failure, err: &mut E) -> u8
    ensures status { (result ≡ failure_status failure) ⊎ (result ≡ OUT_OF_MEMORY) }
    ensures line { result ≢ OUT_OF_MEMORY
        → AddsLine (failure_line failure) (E.told err.old) (E.told err.new) (E.count err.old) (E.count err.new) }
    ensures part { AddsPart (E.told err.old) (E.told err.new) (failure_line failure) }
{
    match sink_all(err, failure.line().as_bytes()) {
        Ok(()) => failure.status(),
        Err(SinkErr::Failed) => failure.status(),
        Err(SinkErr::NoMemory) => Failure::NoMemory.status(),
    }
}

// The run, the export, the demonstration or the steps that the words ask for, or the first failure.
fn run_words<
    R: AllocGlobal + Clock + Threads + Sync,
    S: Store,
    H: Host + Send,
    O: Sink + Send,
    G: Gate + Sync,
>(
    rt: &R,
    words: &[String],
    store: &mut S,
    host: &mut H,
    out: &mut O,
    gate: &G,
) -> Result<u8, Failure>
    requires { IsEmptyStart (H.view host.old) }
    ensures completed { IfOk result (λ status. SomeRun (S.told store.old) (map string_bytes words.now)
        (λ outcome. IsCompleted outcome status (O.told out.old) (O.told out.new) (H.view host.new)
        × HasPut outcome (S.told store.old) (S.told store.new))) }
    ensures failed { IfErr result
        (λ f. HasFailureCause f (S.told store.old) (map string_bytes words.now) (O.told out.old) (O.told out.new)) }
    ensures keeps { MayPut (form_of (map string_bytes words.now)) (S.told store.old) (S.told store.new) }
    ensures untouched { IfErr result
        (λ f. IsTrue (precedes_export (failure_status f)) → S.told store.new ≡ S.told store.old) }
    ensures begun { OnErr result ((S.told store.new ≡ S.told store.old)
        ⊎ SomeRun (S.told store.old) (map string_bytes words.now)
        (PutsPart (O.told out.old) (O.told out.new) (S.told store.old) (S.told store.new))) }
    ensures unasked { IfErr result (λ f. IsTrue (precedes_run (failure_status f))
        → (H.view host.new ≡ H.view host.old) × (H.count host.new ≡ H.count host.old)) }
    ensures refused_unasked { IfSome (wanted (S.told store.old) (map string_bytes words.now)) (λ found. IfErr found
        (λ _. (H.view host.new ≡ H.view host.old) × (H.count host.new ≡ H.count host.old))) }
    ensures unread_unasked { result ≡ Err Failure.Store → AsksExport (map string_bytes words.now)
        ⊎ ((H.view host.new ≡ H.view host.old) × (H.count host.new ≡ H.count host.old)) }
    ensures unread { (ReadsStore (map string_bytes words.now) → ⊥) → S.count store.new ≡ S.count store.old }
    ensures store { HasCause (S.count store.old) (S.count store.new) (IsErrOf result Failure.Store) }
    ensures host { HasCause (H.count host.old) (H.count host.new) (IsErrOf result Failure.Host) }
    ensures output { HasCause (O.count out.old) (O.count out.new) (IsErrOf result Failure.Output) }
{
    let alloc = rt.alloc();
    match read_options(alloc, words)? {
        Options::Run(options) => {
            let (image, input) = read_run_image(alloc, store, &options)?;
            let options = options.with_input(input);
            Ok(run_image(rt, &options, &image, host, out, gate)?.status)
        }
        Options::Export(options) => {
            let (image, input) = read_run_image(alloc, store, &options.run)?;
            if has_index(alloc, store, options.to.as_str())? {
                return Err(Failure::Export(ExportRefusal::Exists));
            }
            let ExportOptions { run, to } = options;
            let run = run.with_input(input);
            let options = ExportOptions { run, to };
            run_export(rt, &options, &image, store, host, out, gate)
        }
        Options::Demo(options) => Ok(demonstrate(rt, &options, host, out, gate)?),
        Options::Steps(options) => {
            let (image, _input) = read_image(alloc, store, options.image.as_str(), None)?;
            let folder = options.image.as_str();
            let commands = read_steps(alloc, store, folder, options.file.as_str())?;
            run_listed(rt, &options, &image, &commands, host, out, gate)
        }
    }
}

// The image of a run, and its input.
fn read_run_image<S: Store>(
    alloc: Global,
    store: &mut S,
    options: &RunOptions,
) -> Result<(Image, Blob), ImageErr>
    ensures ok { IfSome (S.told store.old) (λ files. IfOk result
        (λ found. image_of files options.now.image options.now.input ≡ Ok found)) }
    ensures refused { (r : Refusal) → result ≡ Err (ImageErr.Refused r) →
        IfSome (S.told store.old) (λ files. image_of files options.now.image options.now.input ≡ Err r) }
    ensures unnamed { options.now.input ≡ None → IfOk result (λ found. found.1 ≡ []) }
    ensures no_steps { result ≢ Err (ImageErr.Refused Refusal.BadSteps) }
    ensures asks { AsksOr S.told S.count ImageErr.Store store.old store.new result }
{
    read_image(alloc, store, options.image.as_str(), input_name(options))
}

// The name of the blob that is a run's input, if one is named.
fn input_name(options: &RunOptions) -> Option<&str>
    ensures { option_map (λ name. name.now) result ≡ options.now.input }
{
    match &options.input {
        Some(name) => Some(name.as_str()),
        None => None,
    }
}

/// The run that the options ask for on an image.
pub fn run_image<
    R: AllocGlobal + Clock + Threads + Sync,
    H: Host + Send,
    O: Sink + Send,
    G: Gate + Sync,
>(
    rt: &R,
    options: &RunOptions,
    image: &Image,
    host: &mut H,
    out: &mut O,
    gate: &G,
) -> Result<Ended, RunErr>
    requires empty { IsEmptyStart (H.view host.old) }
    requires budget { (1 ≤ options.now.budget) × (options.now.budget ≤ 1000000000) }
    requires workers { (1 ≤ options.now.workers) × (options.now.workers ≤ 64) }
    ensures completed { IfOk result (λ ended. Completes image.now.version
        (run_of image.now options.now.command options.now.seed options.now.budget) ended.status
        (O.told out.old) (O.told out.new) (H.view host.new)) }
    ensures left { IfOk result (λ ended.
        let run = run_of image.now options.now.command options.now.seed options.now.budget in
        run.last ≡ shared_of ended.container.shared (H.view host.new)) }
    ensures sound { IfOk result (λ ended. IsSoundContainer ended.container (H.view host.new)) }
    ensures part { AddsPart (O.told out.old) (O.told out.new)
        (report_of image.now.version (run_of image.now options.now.command options.now.seed options.now.budget)) }
    ensures host { HasCause (H.count host.old) (H.count host.new) (IsErrOf result RunErr.Host) }
    ensures output { HasCause (O.count out.old) (O.count out.new) (IsErrOf result RunErr.Sink) }
{
    disturb(options.host, host)?;
    run_to_end(
        rt,
        image,
        &options.command,
        options.seed,
        options.budget,
        options.workers,
        host,
        out,
        gate,
    )
}

/// Has the host choose otherwise, where a number for that is given.
pub fn disturb<H: Host>(number: Option<u64>, host: &mut H) -> Result<(), HostErr>
    ensures asks { Asks H.view H.count host.old host.new result }
{
    match number {
        Some(number) => host.disturb(number),
        None => Ok(()),
    }
}
