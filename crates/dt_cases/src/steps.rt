// Files of guests that take steps.
pub mod blocks;
mod code;
mod layout;
pub mod plan;
pub mod shown;
mod step;
pub mod trial;

use crate::error::CaseErr;
use crate::numbers::Numbers;
use crate::report::Tally;
use crate::steps::blocks::{Blocks, Row, is_of_rows, rows, with_steps, without_steps};
use crate::steps::layout::ADDRESSES;
use crate::steps::plan::Plan;
use crate::steps::trial::Trial;
use crate::text::split_word;
use std::alloc::Global;
use std::thread::Threads;
use std::time::Clock;

/// What comes of the cases of a file.
pub fn run<R: AllocGlobal + Clock + Threads + Sync>(
    rt: &R,
    text: &str,
    mut numbers: Numbers,
) -> Result<Tally, CaseErr> {
    let alloc = rt.alloc();
    for (name, number) in ADDRESSES {
        numbers.add(name, *number)?;
    }
    let blocks = Blocks::of(alloc, text)?;
    let head = named_numbers(alloc, &blocks.head, &mut numbers)?;
    let mut tally = Tally::new(alloc);
    for case in &blocks.cases {
        let lines = with_steps(alloc, case, &blocks.head)?;
        if let Err(error) = add_case(rt, &mut tally, &head, &lines, &numbers) {
            return Err(in_case(alloc, case, error));
        }
    }
    Ok(tally)
}

// Adds what comes of a case, once for each of its rows.
fn add_case<R: AllocGlobal + Clock + Threads + Sync>(
    rt: &R,
    tally: &mut Tally,
    head: &[&str],
    lines: &[&str],
    numbers: &Numbers,
) -> Result<(), CaseErr> {
    let alloc = rt.alloc();
    for row in rows(alloc, lines, numbers)? {
        let plan = planned(alloc, head, lines, &row, numbers)?;
        Trial::new(alloc, &plan)?.run(rt, tally)?;
    }
    Ok(())
}

/// An error with the first line of the case in which it came.
pub fn in_case(alloc: Global, case: &[&str], error: CaseErr) -> CaseErr {
    let line = case.first().copied().unwrap_or("");
    match format!(in alloc; "{line}: {error}") {
        Ok(text) => CaseErr::Case(text),
        Err(_) => CaseErr::NoMemory,
    }
}

/// Names the numbers of the lines `let`, and hands back the other lines of the head that stand for all cases.
pub fn named_numbers<'a>(
    alloc: Global,
    head: &[&'a str],
    numbers: &mut Numbers,
) -> Result<Vec<&'a str>, CaseErr> {
    let mut lines = Vec::new(alloc);
    for line in without_steps(alloc, head)? {
        match split_word(line) {
            ("let", rest) => numbers.add_line(rest)?,
            _ => lines.push(line)?,
        }
    }
    Ok(lines)
}

// A case with the cells of a row.
fn planned(
    alloc: Global,
    head: &[&str],
    lines: &[&str],
    row: &Row,
    numbers: &Numbers,
) -> Result<Plan, CaseErr> {
    let mut plan = Plan::new(alloc)?;
    for line in head.iter().chain(lines) {
        if !is_of_rows(line) {
            plan.read(numbers, row.filled(alloc, line)?.as_str())?;
        }
    }
    Ok(plan)
}
