// What came of the cases of a file.
use crate::error::CaseErr;
use std::alloc::{AllocError, Global};
use std::io;

/// How many cases there were, in how many runs, and what came otherwise, each on a line.
#[derive(Drop)]
pub struct Tally {
    pub cases: u64,
    pub runs: u64,
    pub wrong: String,
}

impl Tally {
    /// No cases.
    pub fn new(alloc: Global) -> Self {
        Tally {
            cases: 0,
            runs: 0,
            wrong: String::new(alloc),
        }
    }

    /// A file that is not read to its end, by this error.
    pub fn unread(alloc: Global, error: CaseErr) -> Result<Self, CaseErr> {
        Ok(Tally {
            cases: 0,
            runs: 0,
            wrong: format!(in alloc; "{error}\n")?,
        })
    }

    /// Adds those of another file.
    pub fn add(&mut self, other: &Tally) -> Result<(), AllocError> {
        self.cases = self.cases.saturating_add(other.cases);
        self.runs = self.runs.saturating_add(other.runs);
        self.wrong.push_str(other.wrong.as_str())
    }
}

/// Prints what came otherwise in a file, and how many cases and runs it has.
pub fn print_tally(rt: &impl Print, file: &str, tally: &Tally) -> io::Result<()> {
    for line in tally.wrong.lines() {
        println!(rt; "{file}: {line}")?;
    }
    print_counts(rt, file, tally)
}

/// Prints how many cases and runs there are.
pub fn print_counts(rt: &impl Print, file: &str, tally: &Tally) -> io::Result<()> {
    let (cases, runs) = (tally.cases, tally.runs);
    println!(rt; "{file}: {cases} cases, {runs} runs")
}
