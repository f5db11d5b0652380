// Files of whole runs: their words, what they meet, and all that comes of them.
mod case;

use crate::error::CaseErr;
use crate::numbers::Numbers;
use crate::report::Tally;
use crate::runs::case::Case;
use crate::steps::blocks::{Blocks, Row, is_of_rows, rows};
use crate::steps::named_numbers;
use crate::text::split_word;
use std::alloc::Global;
use std::thread::Threads;
use std::time::Clock;

/// What comes of the cases of a file.
pub fn run<R: AllocGlobal + Clock + Threads + Sync>(
    rt: &R,
    text: &str,
    mut numbers: Numbers,
) -> Result<Tally, CaseErr> {
    let alloc = rt.alloc();
    let blocks = Blocks::of(alloc, text)?;
    let head = named_numbers(alloc, &blocks.head, &mut numbers)?;
    let mut tally = Tally::new(alloc);
    for lines in &blocks.cases {
        for row in rows(alloc, lines, &numbers)? {
            read(alloc, &head, lines, &row, &numbers)?.run(rt, &mut tally)?;
        }
    }
    Ok(tally)
}

// A case with the cells of a row. The braces of an index are its own.
fn read(
    alloc: Global,
    head: &[&str],
    lines: &[&str],
    row: &Row,
    numbers: &Numbers,
) -> Result<Case, CaseErr> {
    let mut case = Case::new(alloc)?;
    for line in head.iter().chain(lines) {
        if split_word(line).0 == "index" {
            case.read(numbers, line)?;
        } else if !is_of_rows(line) {
            case.read(numbers, row.filled(alloc, line)?.as_str())?;
        }
    }
    Ok(case)
}
