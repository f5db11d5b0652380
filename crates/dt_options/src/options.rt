// The command line.
ghost use Rattle.std.specs.Prelude.{◌≡◌, ◌≤◌, ◌+◌, drop, length, map, string_bytes, codes, not, Some, None, IfSome};
ghost use Rattle.std.specs.Prelude.{IfOk, Err, ◌<◌};
ghost use Rattle.std.specs.List.{list_all, position};
ghost use Rattle.std.specs.Str.{bytes_eq};
ghost use Rattle.dt_base.specs.Path.{has_no_nul};
ghost use Rattle.clap.specs.Words.{found_of, rows_of};
ghost use Rattle.dt_options.specs.Arguments.{text_in};
ghost use Rattle.dt_options.specs.Options.{form_of, form_with_command, form_without_command, as_form, HasBudget};
ghost use Rattle.dt_options.specs.Options.{IsBudget, workers_of, request, request_in, export_in, demo_in, steps_in};
ghost use Rattle.dt_options.specs.Options.{as_request, as_export_request, as_demo_request, as_steps_request};
ghost use Rattle.dt_options.specs.Options.{begins_with, command_in};
ghost use Rattle.dt_base.specs.Assignment.{is_assignment};
ghost use Rattle.dt_options.specs.declared.options.UsageErr.TheVariants.{NoMemory as OutOfMemory};

mod arguments;

use arguments::{
    budget, number, operand, read_demo_arguments, read_export_arguments, read_run_arguments,
    read_steps_arguments, seed, text, workers,
};
use clap::ArgMatches;
use clap::error::ErrorKind;
use dt_base::{Blob, Command, NoMemory, Text, has_no_nul, is_assignment};
use std::alloc::{AllocError, AllocFailed, Global};
use thiserror::Error;

/// How many workers run segments, at most.
pub const WORKERS_LIMIT: u64 = 64;

/// What the words of the command line ask for.
#[derive(Debug, Drop)]
pub enum Options {
    /// A run of a command on an image.
    Run(RunOptions),
    /// A run whose last file tree is written as an image.
    Export(ExportOptions),
    /// The demonstration of a number.
    Demo(DemoOptions),
    /// A run for each command of a file, each on the image of the tree that the one before left.
    Steps(StepsOptions),
}

/// What the words ask of a run.
#[derive(Debug, Drop)]
pub struct RunOptions {
    /// The name of the folder that holds the image.
    pub image: Text,
    /// The name of the blob in it that standard input gives, where the words name one.
    pub input: Option<Text>,
    /// What runs in it.
    pub command: Command,
    /// The key of what looks random to the command.
    pub seed: u64,
    /// How many steps of the machine the run may take, from 1 to 1,000,000,000.
    pub budget: u64,
    /// How many workers run segments, from 1 to 64.
    pub workers: usize,
    /// What the host's choices start from, where the words say so.
    pub host: Option<u64>,
}

impl RunOptions {
    /// The same, with these bytes as the input of the command.
    pub fn with_input(self, input: Blob) -> Self
        ensures { result ≡ record self { command = record self.command { input = input } } }
    {
        let RunOptions {
            image,
            input: name,
            command,
            seed,
            budget,
            workers,
            host,
        } = self;
        RunOptions {
            image,
            input: name,
            command: command.with_input(input),
            seed,
            budget,
            workers,
            host,
        }
    }
}

/// What the words ask of an export.
#[derive(Debug, Drop)]
pub struct ExportOptions {
    /// The run whose last file tree is written.
    pub run: RunOptions,
    /// The name of the folder that it is written to.
    pub to: Text,
}

/// What the words ask of a demonstration.
#[derive(Clone, Copy, Debug, Drop, PartialEq, Eq)]
pub struct DemoOptions {
    /// The number that it is made of.
    pub number: u64,
    /// How many workers run segments, from 1 to 64.
    pub workers: usize,
    /// What the host's choices start from, where the words say so.
    pub host: Option<u64>,
}

/// What the words ask of steps.
#[derive(Debug, Drop)]
pub struct StepsOptions {
    /// The name of the folder that holds the image.
    pub image: Text,
    /// The name of the file in it that lists the commands.
    pub file: Text,
    /// The key of what looks random to each command.
    pub seed: u64,
    /// How many steps of the machine each run may take, from 1 to 1,000,000,000.
    pub budget: u64,
    /// How many workers run segments, from 1 to 64.
    pub workers: usize,
    /// What the host's choices start from, where the words say so.
    pub host: Option<u64>,
}

/// Why there are no options.
#[derive(Clone, Copy, Debug, PartialEq, Eq, Error)]
pub enum UsageErr {
    #[error("the words ask for nothing that there is")]
    Refused,
    #[error("out of memory")]
    NoMemory,
}

impl From<NoMemory> for UsageErr {
    ghost from_gives = { λ _ e. e ≡ OutOfMemory };

    fn from(_: NoMemory) -> Self {
        UsageErr::NoMemory
    }
}

impl From<AllocError> for UsageErr {
    ghost from_gives = { λ _ e. e ≡ OutOfMemory };

    fn from(_: AllocError) -> Self {
        UsageErr::NoMemory
    }
}

impl From<clap::Error> for UsageErr {
    ghost use Rattle.dt_options.specs.UsageErr.{usage_err_of_kind};
    ghost use Rattle.clap.specs.Words.{kind_of};

    ghost from_gives = { λ c e. e ≡ usage_err_of_kind (kind_of c) };

    fn from(e: clap::Error) -> Self {
        match e.kind() {
            ErrorKind::OutOfMemory => UsageErr::NoMemory,
            _ => UsageErr::Refused,
        }
    }
}

/// Reads the words of argv after the program's name, which are to be
/// `run IMAGE [--seed N] [--budget N] [--workers N] [--host N] -- [NAME=VALUE ..] PROGRAM [ARG ..]`,
/// `export IMAGE TO` with the same options and words behind them, `demo N [--workers N] [--host N]` or
/// `steps IMAGE FILE [--seed N] [--budget N] [--workers N] [--host N]`.
pub fn read_options(alloc: Global, argv: &[String]) -> Result<Options, UsageErr>
    ensures ok { IfOk result (λ o. form_of (map string_bytes argv.now) ≡ Some (as_form o)) }
    ensures refused { result ≡ Err UsageErr.Refused → form_of (map string_bytes argv.now) ≡ None }
    ensures budget { IfOk result HasBudget }
    ensures workers { IfOk result (λ o. (1 ≤ workers_of o) × (workers_of o ≤ WORKERS_LIMIT)) }
{
    match dashes(argv) {
        Some(index) => read_with_command(alloc, &argv[..index], after(argv, index)),
        None => read_without_command(alloc, argv),
    }
}

// The index of the first `--`.
fn dashes(argv: &[String]) -> Option<usize>
    ensures value { result ≡ position (λ word. bytes_eq (string_bytes word) (codes "--")) argv.now }
    ensures within { IfSome result (λ index. index < length argv.now) }
{
    argv.iter().position(|word| word.as_str() == "--")
}

// The words after an index.
fn after(argv: &[String], index: usize) -> &[String]
    requires { index < length argv.now }
    ensures { result.now ≡ drop (index + 1) argv.entry.now }
{
    let (_, rest) = argv.split_at(index + 1);
    rest
}

// Reads the words before and after `--`.
fn read_with_command(
    alloc: Global,
    before: &[String],
    after: &[String],
) -> Result<Options, UsageErr>
    ensures ok { IfOk result (λ o.
        form_with_command (map string_bytes before.now) (map string_bytes after.now) ≡ Some (as_form o)) }
    ensures refused { result ≡ Err UsageErr.Refused →
        form_with_command (map string_bytes before.now) (map string_bytes after.now) ≡ None }
    ensures budget { IfOk result HasBudget }
    ensures workers { IfOk result (λ o. (1 ≤ workers_of o) × (workers_of o ≤ WORKERS_LIMIT)) }
{
    if begins_with("run", before) {
        Ok(Options::Run(read_run(alloc, before, after)?))
    } else if begins_with("export", before) {
        Ok(Options::Export(read_export(alloc, before, after)?))
    } else {
        Err(UsageErr::Refused)
    }
}

// Reads words without a `--`.
fn read_without_command(alloc: Global, words: &[String]) -> Result<Options, UsageErr>
    ensures ok { IfOk result (λ o. form_without_command (map string_bytes words.now) ≡ Some (as_form o)) }
    ensures refused { result ≡ Err UsageErr.Refused → form_without_command (map string_bytes words.now) ≡ None }
    ensures budget { IfOk result HasBudget }
    ensures workers { IfOk result (λ o. (1 ≤ workers_of o) × (workers_of o ≤ WORKERS_LIMIT)) }
{
    if begins_with("demo", words) {
        Ok(Options::Demo(read_demo(alloc, words)?))
    } else if begins_with("steps", words) {
        Ok(Options::Steps(read_steps(alloc, words)?))
    } else {
        Err(UsageErr::Refused)
    }
}

// Whether the first word is this one.
fn begins_with(name: &str, words: &[String]) -> bool
    ensures { result ≡ begins_with name.now (map string_bytes words.now) }
{
    match words.split_first() {
        Some((word, _)) => word.as_str() == name,
        None => false,
    }
}

// Reads the words of a run before and after `--`.
fn read_run(alloc: Global, before: &[String], after: &[String]) -> Result<RunOptions, UsageErr>
    ensures ok { IfOk result (λ o.
        request_in (map string_bytes before.now) (map string_bytes after.now) ≡ Some (as_request o)) }
    ensures refused { result ≡ Err UsageErr.Refused →
        request_in (map string_bytes before.now) (map string_bytes after.now) ≡ None }
    ensures budget { IfOk result (λ o. IsBudget o.budget) }
    ensures workers { IfOk result (λ o. (1 ≤ o.workers) × (o.workers ≤ WORKERS_LIMIT)) }
{
    let matches = read_run_arguments(alloc, before)?;
    let Some((_, run)) = matches.subcommand() else {
        return Err(UsageErr::Refused);
    };
    let command = read_command(alloc, after)?;
    Ok(run_options(alloc, run, command)?)
}

// Reads the words of an export before and after `--`.
fn read_export(
    alloc: Global,
    before: &[String],
    after: &[String],
) -> Result<ExportOptions, UsageErr>
    ensures ok { IfOk result (λ o.
        export_in (map string_bytes before.now) (map string_bytes after.now) ≡ Some (as_export_request o)) }
    ensures refused { result ≡ Err UsageErr.Refused →
        export_in (map string_bytes before.now) (map string_bytes after.now) ≡ None }
    ensures budget { IfOk result (λ o. IsBudget o.run.budget) }
    ensures workers { IfOk result (λ o. (1 ≤ o.run.workers) × (o.run.workers ≤ WORKERS_LIMIT)) }
{
    let matches = read_export_arguments(alloc, before)?;
    let Some((_, export)) = matches.subcommand() else {
        return Err(UsageErr::Refused);
    };
    let command = read_command(alloc, after)?;
    Ok(ExportOptions {
        run: run_options(alloc, export, command)?,
        to: text_of(alloc, operand(export, "to"))?,
    })
}

// The options of a run, as clap found them, and its command.
fn run_options(
    alloc: Global,
    found: &ArgMatches<'_>,
    command: Command,
) -> Result<RunOptions, NoMemory>
    ensures { IfOk result (λ o. as_request o ≡ request (rows_of (found_of found.now)) command) }
{
    Ok(RunOptions {
        image: text_of(alloc, operand(found, "image"))?,
        input: input_of(alloc, found)?,
        command,
        seed: seed(found),
        budget: budget(found),
        workers: workers(found),
        host: number(found, "host"),
    })
}

// The text of `--stdin`, if it was given.
fn input_of(alloc: Global, found: &ArgMatches<'_>) -> Result<Option<Text>, NoMemory>
    ensures { IfOk result (λ input. input ≡ text_in (codes "stdin") (rows_of (found_of found.now))) }
{
    match text(found, "stdin") {
        Some(name) => Ok(Some(text_of(alloc, name)?)),
        None => Ok(None),
    }
}

// A text in memory of its own.
fn text_of(alloc: Global, text: &str) -> Result<Text, NoMemory>
    ensures { IfOk result (λ t. t ≡ text.now) }
{
    Ok(Text::new(String::from_str(alloc, text)?))
}

// Reads the words of a demonstration.
fn read_demo(alloc: Global, words: &[String]) -> Result<DemoOptions, UsageErr>
    ensures ok { IfOk result (λ o. demo_in (map string_bytes words.now) ≡ Some (as_demo_request o)) }
    ensures refused { result ≡ Err UsageErr.Refused → demo_in (map string_bytes words.now) ≡ None }
    ensures workers { IfOk result (λ o. (1 ≤ o.workers) × (o.workers ≤ WORKERS_LIMIT)) }
{
    let matches = read_demo_arguments(alloc, words)?;
    let Some((_, demo)) = matches.subcommand() else {
        return Err(UsageErr::Refused);
    };
    let Some(given) = number(demo, "number") else {
        return Err(UsageErr::Refused);
    };
    Ok(DemoOptions {
        number: given,
        workers: workers(demo),
        host: number(demo, "host"),
    })
}

// Reads the words of steps.
fn read_steps(alloc: Global, words: &[String]) -> Result<StepsOptions, UsageErr>
    ensures ok { IfOk result (λ o. steps_in (map string_bytes words.now) ≡ Some (as_steps_request o)) }
    ensures refused { result ≡ Err UsageErr.Refused → steps_in (map string_bytes words.now) ≡ None }
    ensures budget { IfOk result (λ o. IsBudget o.budget) }
    ensures workers { IfOk result (λ o. (1 ≤ o.workers) × (o.workers ≤ WORKERS_LIMIT)) }
{
    let matches = read_steps_arguments(alloc, words)?;
    let Some((_, steps)) = matches.subcommand() else {
        return Err(UsageErr::Refused);
    };
    Ok(StepsOptions {
        image: text_of(alloc, operand(steps, "image"))?,
        file: text_of(alloc, operand(steps, "file"))?,
        seed: seed(steps),
        budget: budget(steps),
        workers: workers(steps),
        host: number(steps, "host"),
    })
}

// Reads the words after `--`.
fn read_command(alloc: Global, words: &[String]) -> Result<Command, UsageErr>
    ensures ok { IfOk result (λ command. command_in (map string_bytes words.now) ≡ Some command) }
    ensures refused { result ≡ Err UsageErr.Refused → command_in (map string_bytes words.now) ≡ None }
{
    if !have_no_nul(words) {
        return Err(UsageErr::Refused);
    }
    let Some(program) = program(words) else {
        return Err(UsageErr::Refused);
    };
    let (env, argv) = words.split_at(program);
    Ok(Command::new(blobs(alloc, argv)?, blobs(alloc, env)?))
}

fn have_no_nul(words: &[String]) -> bool
    ensures { result ≡ list_all (λ word. has_no_nul (string_bytes word)) words.now }
{
    words.iter().all(|word| has_no_nul(word.as_bytes()))
}

// The index of the first word that sets no variable.
fn program(words: &[String]) -> Option<usize>
    ensures value { result ≡ position (λ word. not (is_assignment (string_bytes word))) words.now }
    ensures within { IfSome result (λ index. index < length words.now) }
{
    words
        .iter()
        .position(|word| !is_assignment(word.as_bytes()))
}

// The bytes of words, in memory of their own.
fn blobs(alloc: Global, words: &[String]) -> Result<Vec<Blob>, NoMemory>
    ensures { IfOk result (λ blobs. blobs.items ≡ map string_bytes words.now) }
{
    let mut blobs = Vec::new(alloc);
    for word in words {
        blobs.push(Blob::new(Vec::from_slice(alloc, word.as_bytes())?))?;
    }
    Ok(blobs)
}
