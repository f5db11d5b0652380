// Files of guests that make calls one after the other, each with its answer.
mod effects;
mod instructions;
mod patches;
mod player;
pub mod tokens;

use crate::calls::player::Player;
use crate::error::CaseErr;
use crate::numbers::Numbers;
use crate::report::Tally;
use crate::steps::blocks::{Blocks, Row, is_of_rows, rows, with_steps};
use crate::steps::named_numbers;
use crate::steps::plan::Plan;
use crate::steps::trial::Trial;
use std::alloc::Global;
use std::thread::Threads;
use std::time::Clock;

/// What comes of the cases of a file.
pub fn run<R: AllocGlobal + Clock + Threads + Sync>(
    rt: &R,
    text: &str,
    mut numbers: Numbers,
) -> Result<Tally, CaseErr> {
    let alloc = rt.alloc();
    let blocks = Blocks::of(alloc, text)?;
    let head = named_numbers(alloc, &blocks.head, &mut numbers)?;
    let mut tally = Tally::new(alloc);
    for case in &blocks.cases {
        let lines = with_steps(alloc, case, &blocks.head)?;
        for row in rows(alloc, &lines, &numbers)? {
            let plan = played(alloc, &head, &lines, &row, &numbers)?;
            Trial::new(alloc, &plan)?.run(rt, &mut tally)?;
        }
    }
    Ok(tally)
}

// A case with the cells of a row.
fn played(
    alloc: Global,
    head: &[&str],
    lines: &[&str],
    row: &Row,
    numbers: &Numbers,
) -> Result<Plan, CaseErr> {
    let mut player = Player::new(alloc)?;
    for line in head.iter().chain(lines) {
        if !is_of_rows(line) {
            player.read(numbers, row.filled(alloc, line)?.as_str())?;
        }
    }
    player.plan()
}
