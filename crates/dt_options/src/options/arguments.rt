// The words that clap reads: the arguments of `run`, `export`, `demo` and `steps`.
ghost use Rattle.std.specs.Prelude.{◌≡◌, Option, false, map, string_bytes, codes, IfOk, option_and_then, unwrap_or, option_map};
ghost use Rattle.clap.specs.Words.{FailsBy, app_of, fault_of, found_of, one_of, rows_of, rule_of, shape_of};
ghost use Rattle.clap.specs.Words.{subcommand_of, subcommand_rows_of};
ghost use Rattle.clap.specs.declared.builder.command.Command.TheViews.{out-Command as fields_of};
ghost use Rattle.dt_options.specs.Arguments.{operand_rule, demo_rule, number_rule, text_rule, budget_rule, workers_rule};
ghost use Rattle.dt_options.specs.Arguments.{run_shape, export_shape, demo_shape, steps_shape};
ghost use Rattle.dt_options.specs.Arguments.{run_app, export_app, demo_app, steps_app, app_with};
ghost use Rattle.dt_options.specs.Arguments.{operand_in, number_in, text_in, default_seed, default_budget, default_workers};

use super::WORKERS_LIMIT;
use clap::{Arg, ArgMatches, Command, Error};
use dt_base::BUDGET_LIMIT;
use std::alloc::{AllocError, Global};

// The seed, the budget and the number of workers where the words give none.
const SEED: u64 = 0;

const BUDGET: u64 = 100_000_000;

const WORKERS: u64 = 4;

/// What clap makes of the words of a run before `--`.
pub fn read_run_arguments<'a>(alloc: Global, words: &'a [String]) -> Result<ArgMatches<'a>, Error>
    ensures refused { FailsBy (fault_of run_app (map string_bytes words.entry.now)) result }
    ensures exact { IfOk result (λ m.
        subcommand_rows_of m ≡ subcommand_of run_app (map string_bytes words.entry.now)) }
{
    program(alloc, run_command(alloc)?)?.try_get_matches_from(words)
}

/// What clap makes of the words of an export before `--`.
pub fn read_export_arguments<'a>(
    alloc: Global,
    words: &'a [String],
) -> Result<ArgMatches<'a>, Error>
    ensures refused { FailsBy (fault_of export_app (map string_bytes words.entry.now)) result }
    ensures exact { IfOk result (λ m.
        subcommand_rows_of m ≡ subcommand_of export_app (map string_bytes words.entry.now)) }
{
    program(alloc, export_command(alloc)?)?.try_get_matches_from(words)
}

/// What clap makes of the words of a demonstration.
pub fn read_demo_arguments<'a>(alloc: Global, words: &'a [String]) -> Result<ArgMatches<'a>, Error>
    ensures refused { FailsBy (fault_of demo_app (map string_bytes words.entry.now)) result }
    ensures exact { IfOk result (λ m.
        subcommand_rows_of m ≡ subcommand_of demo_app (map string_bytes words.entry.now)) }
{
    program(alloc, demo_command(alloc)?)?.try_get_matches_from(words)
}

/// What clap makes of the words of steps.
pub fn read_steps_arguments<'a>(alloc: Global, words: &'a [String]) -> Result<ArgMatches<'a>, Error>
    ensures refused { FailsBy (fault_of steps_app (map string_bytes words.entry.now)) result }
    ensures exact { IfOk result (λ m.
        subcommand_rows_of m ≡ subcommand_of steps_app (map string_bytes words.entry.now)) }
{
    program(alloc, steps_command(alloc)?)?.try_get_matches_from(words)
}

// The program with one subcommand.
fn program<'a>(alloc: Global, command: Command<'a>) -> Result<Command<'a>, AllocError>
    requires { (fields_of command).has_globals ≡ false }
    ensures { IfOk result (λ c. app_of c ≡ app_with (shape_of command.entry)) }
{
    Command::new(alloc, "dettrace")
        .no_binary_name(true)
        .subcommand_required(true)
        .subcommand(command)
}

fn run_command<'a>(alloc: Global) -> Result<Command<'a>, AllocError>
    ensures shape { IfOk result (λ c. shape_of c ≡ run_shape) }
    ensures local { IfOk result (λ c. (fields_of c).has_globals ≡ false) }
{
    Command::new(alloc, "run")
        .arg(operand_arg(alloc, "image"))?
        .arg(number_arg(alloc, "seed"))?
        .arg(budget_arg(alloc))?
        .arg(workers_arg(alloc))?
        .arg(number_arg(alloc, "host"))?
        .arg(text_arg(alloc, "stdin"))
}

fn export_command<'a>(alloc: Global) -> Result<Command<'a>, AllocError>
    ensures shape { IfOk result (λ c. shape_of c ≡ export_shape) }
    ensures local { IfOk result (λ c. (fields_of c).has_globals ≡ false) }
{
    Command::new(alloc, "export")
        .arg(operand_arg(alloc, "image"))?
        .arg(operand_arg(alloc, "to"))?
        .arg(number_arg(alloc, "seed"))?
        .arg(budget_arg(alloc))?
        .arg(workers_arg(alloc))?
        .arg(number_arg(alloc, "host"))?
        .arg(text_arg(alloc, "stdin"))
}

fn demo_command<'a>(alloc: Global) -> Result<Command<'a>, AllocError>
    ensures shape { IfOk result (λ c. shape_of c ≡ demo_shape) }
    ensures local { IfOk result (λ c. (fields_of c).has_globals ≡ false) }
{
    Command::new(alloc, "demo")
        .arg(demo_arg(alloc))?
        .arg(workers_arg(alloc))?
        .arg(number_arg(alloc, "host"))
}

fn steps_command<'a>(alloc: Global) -> Result<Command<'a>, AllocError>
    ensures shape { IfOk result (λ c. shape_of c ≡ steps_shape) }
    ensures local { IfOk result (λ c. (fields_of c).has_globals ≡ false) }
{
    Command::new(alloc, "steps")
        .arg(operand_arg(alloc, "image"))?
        .arg(operand_arg(alloc, "file"))?
        .arg(number_arg(alloc, "seed"))?
        .arg(budget_arg(alloc))?
        .arg(workers_arg(alloc))?
        .arg(number_arg(alloc, "host"))
}

fn operand_arg<'a>(alloc: Global, name: &'a str) -> Arg<'a>
    ensures rule { rule_of result ≡ operand_rule name.entry.now }
    ensures local { result.global ≡ false }
{
    Arg::new(alloc, name).required(true)
}

fn demo_arg<'a>(alloc: Global) -> Arg<'a>
    ensures rule { rule_of result ≡ demo_rule }
    ensures local { result.global ≡ false }
{
    Arg::new(alloc, "number")
        .required(true)
        .value_parser(clap::value_parser!(u64))
}

fn number_arg<'a>(alloc: Global, name: &'a str) -> Arg<'a>
    ensures rule { rule_of result ≡ number_rule name.entry.now }
    ensures local { result.global ≡ false }
{
    Arg::new(alloc, name)
        .long(name)
        .value_parser(clap::value_parser!(u64))
}

fn text_arg<'a>(alloc: Global, name: &'a str) -> Arg<'a>
    ensures rule { rule_of result ≡ text_rule name.entry.now }
    ensures local { result.global ≡ false }
{
    Arg::new(alloc, name).long(name)
}

fn budget_arg<'a>(alloc: Global) -> Arg<'a>
    ensures rule { rule_of result ≡ budget_rule }
    ensures local { result.global ≡ false }
{
    Arg::new(alloc, "budget")
        .long("budget")
        .value_parser(clap::value_parser!(u64).range(1..=BUDGET_LIMIT as i64))
}

fn workers_arg<'a>(alloc: Global) -> Arg<'a>
    ensures rule { rule_of result ≡ workers_rule }
    ensures local { result.global ≡ false }
{
    Arg::new(alloc, "workers")
        .long("workers")
        .value_parser(clap::value_parser!(u64).range(1..=WORKERS_LIMIT as i64))
}

/// An operand, as it was given.
pub fn operand<'a>(found: &ArgMatches<'a>, name: &str) -> &'a str
    ensures { result.now ≡ operand_in name.now (rows_of (found_of found.now)) }
{
    found.get_str(name).unwrap_or("")
}

/// The number of a demonstration, or of an option, if it was given.
pub fn number(found: &ArgMatches<'_>, name: &str) -> Option<u64>
    ensures { result ≡ number_in name.now (rows_of (found_of found.now)) }
{
    found.get_one::<u64>(name)
}

/// The text of an option, if it was given.
pub fn text<'a>(found: &ArgMatches<'a>, name: &str) -> Option<&'a str>
    ensures { option_map (λ text. text.now) result ≡ text_in name.now (rows_of (found_of found.now)) }
{
    found.get_str(name)
}

/// The number of `--seed`, or what a run has without it.
pub fn seed(run: &ArgMatches<'_>) -> u64
    ensures { result ≡ unwrap_or (number_in (codes "seed") (rows_of (found_of run.now))) default_seed }
{
    number(run, "seed").unwrap_or(SEED)
}

/// The number of `--budget`, or what a run has without it.
pub fn budget(run: &ArgMatches<'_>) -> u64
    ensures { result ≡ unwrap_or (number_in (codes "budget") (rows_of (found_of run.now))) default_budget }
{
    number(run, "budget").unwrap_or(BUDGET)
}

/// The number of `--workers`, or what there is without it.
pub fn workers(found: &ArgMatches<'_>) -> usize
    ensures { result ≡ unwrap_or (number_in (codes "workers") (rows_of (found_of found.now))) default_workers }
{
    number(found, "workers").unwrap_or(WORKERS) as usize
}
