//! Runs the cases that stand in files: whole runs of guests, each with what it has to show. Of each file it prints how
//! many cases and runs there were, and of each run that comes otherwise what came.
#![tactic(auto)]

mod bench;
mod calls;
mod error;
mod folder;
mod numbers;
mod report;
mod runs;
mod steps;
mod text;

use crate::error::CaseErr;
use crate::folder::{case_files, read_lines};
use crate::numbers::Numbers;
use crate::report::{Tally, print_counts, print_tally};
use std::env::{self, Env};
use std::process::ExitCode;
use std::rt::Files;
use std::thread::Threads;
use std::time::Clock;

fn main(rt: HostRuntime) -> ExitCode {
    match all_files(&rt) {
        Ok(true) => ExitCode::SUCCESS,
        Ok(false) => ExitCode::FAILURE,
        Err(error) => {
            let _ = println!(rt; "{error}");
            ExitCode::FAILURE
        }
    }
}

// Whether all files of the folder that is the first argument are as they have to be.
fn all_files<R: AllocGlobal + Clock + Env + Files + Print + Threads + Sync + Clone + Drop>(
    rt: &R,
) -> Result<bool, CaseErr> {
    let mut words = env::args(rt)?;
    let _program = words.next();
    let Some(folder) = words.next() else {
        return Err(CaseErr::NoFolder);
    };
    let numbers = Numbers::read(rt, folder.as_str())?;
    let mut total = Tally::new(rt.alloc());
    for file in case_files(rt, folder.as_str())? {
        let tally = one_file(rt, folder.as_str(), file.as_str(), &numbers)?;
        print_tally(rt, file.as_str(), &tally)?;
        total.add(&tally)?;
    }
    print_counts(rt, "all", &total)?;
    Ok(total.wrong.is_empty())
}

// What comes of a file's cases. A file that is not read to its end, or that has no case, is wrong too.
fn one_file<R: AllocGlobal + Clock + Files + Threads + Sync>(
    rt: &R,
    folder: &str,
    file: &str,
    numbers: &Numbers,
) -> Result<Tally, CaseErr> {
    match cases_of(rt, folder, file, numbers) {
        Ok(tally) if 0 < tally.cases => Ok(tally),
        Ok(_) => Tally::unread(rt.alloc(), CaseErr::Empty),
        Err(error) => Tally::unread(rt.alloc(), error),
    }
}

// What comes of a file's cases, by the kind that the end of its name says.
fn cases_of<R: AllocGlobal + Clock + Files + Threads + Sync>(
    rt: &R,
    folder: &str,
    file: &str,
    numbers: &Numbers,
) -> Result<Tally, CaseErr> {
    let text = read_lines(rt, folder, file)?;
    let numbers = numbers.copy(rt.alloc())?;
    if file.ends_with(".steps") {
        steps::run(rt, text.as_str(), numbers)
    } else if file.ends_with(".calls") {
        calls::run(rt, text.as_str(), numbers)
    } else if file.ends_with(".runs") {
        runs::run(rt, text.as_str(), numbers)
    } else {
        Err(CaseErr::Kind)
    }
}
