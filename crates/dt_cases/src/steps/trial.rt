// The runs of a case.
use crate::bench::{Call, Came, Words};
use crate::error::CaseErr;
use crate::report::Tally;
use crate::steps::plan::Plan;
use crate::steps::shown::with_verdict;
use crate::text::{split_word, unreadable};
use sha2::{Digest, Sha256};
use std::alloc::{AllocError, Global};
use std::thread::Threads;
use std::time::Clock;

// More calls of the host than a run makes.
const FAULT_LIMIT: u64 = 10_000;

/// What a run starts with, and what its report has to say of the tree.
#[derive(Drop)]
pub struct Trial<'a> {
    alloc: Global,
    plan: &'a Plan,
    status: u8,
    index: String,
    first: Vec<u8>,
    second: Vec<u8>,
    tree: String,
}

/// What has to come of a run: a report up to the verdict, and an exit status.
#[derive(Drop)]
struct Outcome {
    shown: Vec<u8>,
    status: u8,
}

impl<'a> Trial<'a> {
    /// The runs of a case that says all that a case has to say.
    pub fn new(alloc: Global, plan: &'a Plan) -> Result<Self, CaseErr> {
        let Some(status) = plan.status else {
            return Err(unreadable(alloc, "no status"));
        };
        if plan.verdict.is_empty() || plan.hosts.is_empty() {
            return Err(unreadable(alloc, "no verdict or no hosts"));
        }
        let first = plan.first.elf()?;
        let second = plan.second.elf()?;
        Ok(Trial {
            alloc,
            plan,
            status,
            index: plan.index()?,
            tree: tree(alloc, plan, &first, &second)?,
            first,
            second,
        })
    }

    /// Makes all runs of the case, and counts them.
    pub fn run<R: AllocGlobal + Clock + Threads + Sync>(
        &self,
        rt: &R,
        tally: &mut Tally,
    ) -> Result<(), CaseErr> {
        tally.cases = tally.cases.saturating_add(1);
        if self.plan.turns.is_empty() {
            let words = self.words(None)?;
            self.under_hosts(rt, tally, &words, &self.outcome(&self.plan.shown)?)?;
        } else {
            self.with_budgets(rt, tally)?;
        }
        match self.plan.faults {
            Some(least) => self.with_faults(rt, tally, least),
            None => Ok(()),
        }
    }

    // What has to come of a run that is not cut short.
    fn outcome(&self, shown: &[u8]) -> Result<Outcome, CaseErr> {
        Ok(Outcome {
            shown: with_verdict(self.alloc, shown, self.plan.verdict.as_str())?,
            status: self.status,
        })
    }

    // The words after the program's name, with a budget if there is one.
    fn words(&self, budget: Option<u64>) -> Result<Vec<String>, AllocError> {
        let mut words = Vec::new(self.alloc);
        let mut left = budget;
        for word in &self.plan.words {
            if let ("--", Some(budget)) = (word.as_str(), left) {
                words.push(String::from_str(self.alloc, "--budget")?)?;
                words.push(format!(in self.alloc; "{budget}")?)?;
                left = None;
            }
            words.push(word.clone()?)?;
        }
        Ok(words)
    }

    // A turn for which the budget lacks one instruction shows nothing, and the run is over; so it is where the budget
    // is spent by the turns before it. Where it covers all turns the run ends as it has to.
    fn with_budgets<R: AllocGlobal + Clock + Threads + Sync>(
        &self,
        rt: &R,
        tally: &mut Tally,
    ) -> Result<(), CaseErr> {
        let mut spent = 0u64;
        for turn in &self.plan.turns {
            let before = self.plan.shown.get(..turn.start).unwrap_or(&[]);
            let stopped = Outcome {
                shown: with_verdict(self.alloc, before, "budget")?,
                status: 10,
            };
            if 0 < spent {
                self.under_hosts(rt, tally, &self.words(Some(spent))?, &stopped)?;
            }
            spent = spent.saturating_add(turn.cost);
            let short = spent.saturating_sub(1);
            self.under_hosts(rt, tally, &self.words(Some(short))?, &stopped)?;
        }
        let words = self.words(Some(spent))?;
        self.under_hosts(rt, tally, &words, &self.outcome(&self.plan.shown)?)
    }

    // Each call of the host fails once, until none is left that fails: a report is cut short, and the run ends with a
    // fault. The run at which none fails is as it has to be.
    fn with_faults<R: AllocGlobal + Clock + Threads + Sync>(
        &self,
        rt: &R,
        tally: &mut Tally,
        least: u64,
    ) -> Result<(), CaseErr> {
        let words = self.words(None)?;
        let whole = self.report(&self.outcome(&self.plan.shown)?.shown)?;
        let mut failed = 0u64;
        for number in 1..FAULT_LIMIT {
            let came = self.came(rt, &words, Words::Stream(1), Some(number))?;
            let ended = came.status == self.status;
            if !(ended && is_report(self.plan, &came.out, &whole) || is_cut(&came, &whole)) {
                let under = format!(in self.alloc; "call {number} fails")?;
                add_wrong(self.alloc, tally, self.plan, under.as_str(), &came, &whole)?;
            }
            if ended {
                break;
            }
            failed = number;
        }
        self.count_faults(tally, failed, least)
    }

    // Counts these runs as one: how often a host is asked depends on which jobs of workers are finished first. Adds it if
    // fewer calls fail than have to, or if there seems to be no end of them.
    fn count_faults(&self, tally: &mut Tally, failed: u64, least: u64) -> Result<(), CaseErr> {
        tally.runs = tally.runs.saturating_add(1);
        if failed < least || FAULT_LIMIT <= failed.saturating_add(1) {
            let what = self.plan.what.as_str();
            let line = format!(in self.alloc; "{what}: {failed} calls fail\n")?;
            tally.wrong.push_str(line.as_str())?;
        }
        Ok(())
    }

    // Runs it under each host, and adds what comes otherwise.
    fn under_hosts<R: AllocGlobal + Clock + Threads + Sync>(
        &self,
        rt: &R,
        tally: &mut Tally,
        words: &[String],
        outcome: &Outcome,
    ) -> Result<(), CaseErr> {
        let want = self.report(&outcome.shown)?;
        for host in &self.plan.hosts {
            let came = self.came(rt, words, *host, None)?;
            tally.runs = tally.runs.saturating_add(1);
            if !is_report(self.plan, &came.out, &want)
                || came.status != outcome.status
                || !came.err.is_empty()
            {
                let under = format!(in self.alloc; "{words:?} {host:?}")?;
                add_wrong(self.alloc, tally, self.plan, under.as_str(), &came, &want)?;
            }
        }
        Ok(())
    }

    // The whole report that begins with this, as far as it is looked at.
    fn report(&self, shown: &[u8]) -> Result<Vec<u8>, AllocError> {
        let mut report = Vec::from_slice(self.alloc, shown)?;
        report.extend_from_slice(self.tree.as_bytes())?;
        Ok(report)
    }

    // What comes of a run.
    fn came<R: AllocGlobal + Clock + Threads + Sync>(
        &self,
        rt: &R,
        words: &[String],
        choices: Words,
        host_fails: Option<u64>,
    ) -> Result<Came, CaseErr> {
        let mut files = Vec::new(self.alloc);
        files.push(("img/image.json", self.index.as_bytes()))?;
        files.push(("img/p", self.first.as_slice()))?;
        files.push(("img/q", self.second.as_slice()))?;
        for blob in &self.plan.blobs {
            files.push((blob.name.as_str(), blob.bytes.as_slice()))?;
        }
        let mut call = Call::new(words, &files);
        call.choices = choices;
        call.host_fails = host_fails;
        call.make(rt)
    }
}

// A run was cut short by a fault of the host.
fn is_cut(came: &Came, whole: &[u8]) -> bool {
    whole.starts_with(&came.out)
        && came.status == 5
        && came.err.as_slice() == b"dettrace: host fault\n".as_slice()
}

/// This is the report, as far as it is looked at.
pub fn is_report(plan: &Plan, came: &[u8], want: &[u8]) -> bool {
    came == want || (is_open(plan) && came.starts_with(want))
}

/// Adds a run that comes otherwise.
pub fn add_wrong(
    alloc: Global,
    tally: &mut Tally,
    plan: &Plan,
    under: &str,
    came: &Came,
    want: &[u8],
) -> Result<(), CaseErr> {
    let what = plan.what.as_str();
    let (offset, bytes) = first_difference(&came.out, want);
    let found = readable(alloc, bytes)?;
    let wanted = readable(alloc, part(want, offset))?;
    let err = readable(alloc, &came.err)?;
    let status = came.status;
    let place = plan.line_at(offset);
    let line = format!(in alloc;
        "{what}: {under}: {place}: from {offset} on \"{found}\" and not \"{wanted}\", status {status} {err}\n"
    )?;
    Ok(tally.wrong.push_str(line.as_str())?)
}

// Of the tree no more is looked at: nothing at all, or the lines of the case up to `...`.
fn is_open(plan: &Plan) -> bool {
    match &plan.tree {
        Some(lines) => lines.last().is_some_and(|line| line.as_str() == "..."),
        None => true,
    }
}

/// What a report says of the tree: the lines of the case, in which `program INODE NAME` stands for that of a program,
/// which has the mode 0755, and `...` for what is not looked at.
pub fn tree(alloc: Global, plan: &Plan, first: &[u8], second: &[u8]) -> Result<String, CaseErr> {
    let Some(lines) = &plan.tree else {
        return Ok(String::from_str(alloc, "tree ")?);
    };
    let mut tree = String::new(alloc);
    for line in lines {
        let (word, rest) = split_word(line.as_str());
        let line = match (word, split_word(rest)) {
            ("program", (inode, "p")) => program(alloc, inode, "p", first)?,
            ("program", (inode, "q")) => program(alloc, inode, "q", second)?,
            ("...", _) => String::new(alloc),
            _ => format!(in alloc; "{line}\n")?,
        };
        tree.push_str(line.as_str())?;
    }
    Ok(tree)
}

// The line of a program.
fn program(alloc: Global, inode: &str, name: &str, file: &[u8]) -> Result<String, AllocError> {
    let size = file.len();
    let digest = hex::encode(alloc, Sha256::digest(file))?;
    format!(in alloc; "file {inode} 0755 0 {size} {digest} /{name}\n")
}

// The offset of the first byte by which a text differs from another one, and some bytes from there on.
fn first_difference<'a>(came: &'a [u8], want: &[u8]) -> (usize, &'a [u8]) {
    let mut offset = 0usize;
    for (byte, wanted) in came.iter().zip(want) {
        if byte != wanted {
            break;
        }
        offset = offset.saturating_add(1);
    }
    (offset, part(came, offset))
}

// Up to 80 bytes of a text from an offset on.
fn part(text: &[u8], offset: usize) -> &[u8] {
    let rest = text.get(offset..).unwrap_or(&[]);
    rest.get(..80).unwrap_or(rest)
}

/// Bytes as they stand in quotes.
pub fn readable(alloc: Global, bytes: &[u8]) -> Result<String, AllocError> {
    let mut text = String::new(alloc);
    for byte in bytes {
        match *byte {
            b'\n' => text.push_str("\\n")?,
            b' '..=b'~' => text.push(char::from(*byte))?,
            other => text.push_str(format!(in alloc; "\\x{other:02x}")?.as_str())?,
        }
    }
    Ok(text)
}
