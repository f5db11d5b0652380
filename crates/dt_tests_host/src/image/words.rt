// The words of the command line.
use crate::expect::{same, same_at};
use dt_options::{
    DemoOptions, ExportOptions, Options, RunOptions, StepsOptions, UsageErr, read_options,
};
use std::alloc::{AllocError, Global};
use std::process::Abort;

// The words of a line, of which each two have one blank between them.
fn words(alloc: Global, line: &str) -> Result<Vec<String>, AllocError> {
    let mut words = Vec::new(alloc);
    for word in line.split(' ') {
        words.push(String::from_str(alloc, word)?)?;
    }
    Ok(words)
}

// Each line, and whether it is taken.
const LINES: &[(&str, bool)] = &[
    ("run img --seed 18446744073709551615 --budget=1 -- /p", true),
    (
        "run --budget 1000000000 --host +7 - -- A=1 _b= /p A=3 --",
        true,
    ),
    ("run img -- ", true),
    ("run img -- 1A=1", true),
    ("", false),
    ("run img", false),
    ("run -- /p", false),
    ("run img -- A=1", false),
    ("run img -- /p \0", false),
    ("run img --budget 0 -- /p", false),
    ("run img --budget 1000000001 -- /p", false),
    ("run img --seed 18446744073709551616 -- /p", false),
    ("run img --seed 1 --seed 1 -- /p", false),
    ("run img --workers 64 -- /p", true),
    ("run img --workers 0 -- /p", false),
    ("run img --workers 65 -- /p", false),
    ("run img --workers  -- /p", false),
    ("run img --workers 2 --workers 2 -- /p", false),
    ("run --help -- /p", false),
    ("demo 18446744073709551615 --workers 1 --host 0", true),
    ("demo --host=5 0", true),
    ("demo", false),
    ("demo 1 2", false),
    ("demo -1", false),
    ("demo 18446744073709551616", false),
    ("demo x", false),
    ("demo 1 --seed 1", false),
    ("demo 1 --budget 1", false),
    ("demo 1 --workers 65", false),
    ("demo 1 --", false),
    ("demo 1 -- /p", false),
    ("export img to --host 5 -- A=1 /p --", true),
    ("export --budget 1 img to -- /p", true),
    ("export - img -- /p", true),
    ("export img to", false),
    ("export img -- /p", false),
    ("export img to more -- /p", false),
    ("export img to -- A=1", false),
    ("export img to --budget 0 -- /p", false),
    ("export img to --workers 65 -- /p", false),
    ("--seed 1 export img to -- /p", false),
    ("-- export img to", false),
    (
        "steps img file --seed 1 --budget=7 --workers 64 --host 0",
        true,
    ),
    ("steps --host 5 img image.json", true),
    ("steps img", false),
    ("steps img file more", false),
    ("steps img file --budget 0", false),
    ("steps img file --workers 65", false),
    ("steps img file --", false),
    ("steps img file -- /p", false),
    ("step img file", false),
    ("Run img -- /p", false),
];

// Why the words of a line are refused; None where they are taken.
fn refused(alloc: Global, line: &str) -> Result<Option<UsageErr>, UsageErr> {
    let words = words(alloc, line)?;
    Ok(read_options(alloc, &words).err())
}

// Ends the test unless each line is taken or refused as its row says.
fn expect_lines(rt: &impl Abort, alloc: Global, rows: &[(&str, bool)]) -> Result<(), UsageErr> {
    for (line, taken) in rows {
        let want = if *taken {
            None
        } else {
            Some(UsageErr::Refused)
        };
        same_at(rt, *line, refused(alloc, line)?, want);
    }
    Ok(())
}

#[test]
fn lines_are_taken_or_refused(rt: HostRuntime) -> Result<(), UsageErr> {
    expect_lines(&rt, rt.alloc(), LINES)
}

// What the words of a line ask of a run, if they do.
fn run_options(alloc: Global, line: &str) -> Result<Option<RunOptions>, UsageErr> {
    match read_options(alloc, &words(alloc, line)?)? {
        Options::Run(options) => Ok(Some(options)),
        _ => Ok(None),
    }
}

// What the words of a line ask of an export, if they do.
fn export_options(alloc: Global, line: &str) -> Result<Option<ExportOptions>, UsageErr> {
    match read_options(alloc, &words(alloc, line)?)? {
        Options::Export(options) => Ok(Some(options)),
        _ => Ok(None),
    }
}

// What the words of a line ask of steps, if they do.
fn steps_options(alloc: Global, line: &str) -> Result<Option<StepsOptions>, UsageErr> {
    match read_options(alloc, &words(alloc, line)?)? {
        Options::Steps(options) => Ok(Some(options)),
        _ => Ok(None),
    }
}

// What the words of a line ask of a demonstration, if they do.
fn demo_options(alloc: Global, line: &str) -> Result<Option<DemoOptions>, UsageErr> {
    match read_options(alloc, &words(alloc, line)?)? {
        Options::Demo(options) => Ok(Some(options)),
        _ => Ok(None),
    }
}

// The seed, the budget, the workers and the number of the host.
fn numbers(options: &RunOptions) -> (u64, u64, usize, Option<u64>) {
    (options.seed, options.budget, options.workers, options.host)
}

#[test]
fn words_are_read(rt: HostRuntime) -> Result<(), UsageErr> {
    let line = "run img --seed 7 --workers 3 --host +9 -- A=1 A=2 /p -x A=3";
    let Some(options) = run_options(rt.alloc(), line)? else {
        return Err(UsageErr::Refused);
    };
    same(&rt, numbers(&options), (7, 100_000_000, 3, Some(9)));
    same(&rt, options.image.as_str(), "img");
    let args = options.command.args();
    assert_eq!(rt; args.len(), 3);
    same(&rt, args[0].as_slice(), b"/p".as_slice());
    same(&rt, options.command.env().len(), 2);
    Ok(())
}

#[test]
fn numbers_that_are_not_given_have_defaults(rt: HostRuntime) -> Result<(), UsageErr> {
    let Some(options) = run_options(rt.alloc(), "run img -- /p")? else {
        return Err(UsageErr::Refused);
    };
    same(&rt, numbers(&options), (0, 100_000_000, 4, None));
    Ok(())
}

#[test]
fn words_of_a_demonstration_are_read(rt: HostRuntime) -> Result<(), UsageErr> {
    let want = DemoOptions {
        number: 7,
        workers: 4,
        host: Some(9),
    };
    same(
        &rt,
        demo_options(rt.alloc(), "demo 7 --host 9")?,
        Some(want),
    );
    Ok(())
}

#[test]
fn words_of_an_export_are_read(rt: HostRuntime) -> Result<(), UsageErr> {
    let line = "export img --budget 9 to --workers 3 -- A=1 /p -x";
    let Some(options) = export_options(rt.alloc(), line)? else {
        return Err(UsageErr::Refused);
    };
    same(&rt, numbers(&options.run), (0, 9, 3, None));
    same(&rt, options.run.image.as_str(), "img");
    same(&rt, options.to.as_str(), "to");
    same(&rt, options.run.command.args().len(), 2);
    same(&rt, options.run.command.env().len(), 1);
    Ok(())
}

#[test]
fn words_of_steps_are_read(rt: HostRuntime) -> Result<(), UsageErr> {
    let Some(options) = steps_options(rt.alloc(), "steps img --seed 7 file --host 9")? else {
        return Err(UsageErr::Refused);
    };
    same(&rt, options.image.as_str(), "img");
    same(&rt, options.file.as_str(), "file");
    same(&rt, (options.seed, options.budget), (7, 100_000_000));
    same(&rt, (options.workers, options.host), (4, Some(9)));
    Ok(())
}
