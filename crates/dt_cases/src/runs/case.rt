// A whole run, and what has to come of it.
use crate::bench::{Call, Came, Words};
use crate::calls::tokens::tokens;
use crate::error::CaseErr;
use crate::numbers::Numbers;
use crate::report::Tally;
use crate::steps::plan::{Plan, Stored};
use crate::steps::shown::with_verdict;
use crate::steps::trial::{add_wrong, is_report, readable, tree};
use crate::text::{bytes, split_word, unreadable};
use std::alloc::Global;
use std::thread::Threads;
use std::time::Clock;

/// A case, as far as its lines were read.
#[derive(Drop)]
pub struct Case {
    alloc: Global,
    plan: Plan,
    // The folder of the image; none where it has no name.
    folder: String,
    // The image's index, if it is not that of the entries.
    index: Option<Vec<u8>>,
    store_fails: Option<u64>,
    host_fails: Option<u64>,
    out_room: Option<u64>,
    err_room: Option<u64>,
    // What comes on standard output where there is no report, and on the error stream.
    out: Vec<u8>,
    err: Vec<u8>,
}

impl Case {
    /// A case of which nothing was read.
    pub fn new(alloc: Global) -> Result<Self, CaseErr> {
        Ok(Case {
            alloc,
            plan: Plan::new(alloc)?,
            folder: String::from_str(alloc, "img")?,
            index: None,
            store_fails: None,
            host_fails: None,
            out_room: None,
            err_room: None,
            out: Vec::new(alloc),
            err: Vec::new(alloc),
        })
    }

    /// Reads a line.
    pub fn read(&mut self, numbers: &Numbers, line: &str) -> Result<(), CaseErr> {
        let (word, rest) = split_word(line);
        match word {
            "words" => self.plan.words = words(self.alloc, rest)?,
            "folder" => self.folder = String::from_str(self.alloc, rest)?,
            "index" => self.add_index(rest)?,
            "store-fails" => self.store_fails = Some(count(numbers, rest)?),
            "host-fails" => self.host_fails = Some(count(numbers, rest)?),
            "out-room" => self.out_room = Some(count(numbers, rest)?),
            "err-room" => self.err_room = Some(count(numbers, rest)?),
            "stdout" => self.out = bytes(self.alloc, rest)?,
            "stderr" => self.err = bytes(self.alloc, rest)?,
            _ => self.plan.read(numbers, line)?,
        }
        Ok(())
    }

    // Adds to the index a line as it is, or bytes in quotes.
    fn add_index(&mut self, text: &str) -> Result<(), CaseErr> {
        let mut index = match self.index.take() {
            Some(index) => index,
            None => Vec::new(self.alloc),
        };
        if text.starts_with('"') {
            index.extend_from_slice(&bytes(self.alloc, text)?)?;
        } else {
            index.extend_from_slice(text.as_bytes())?;
        }
        self.index = Some(index);
        Ok(())
    }

    /// Makes its runs, one under each host, and counts them.
    pub fn run<R: AllocGlobal + Clock + Threads + Sync>(
        &self,
        rt: &R,
        tally: &mut Tally,
    ) -> Result<(), CaseErr> {
        let Some(status) = self.plan.status else {
            return Err(unreadable(self.alloc, "no status"));
        };
        if self.plan.hosts.is_empty() {
            return Err(unreadable(self.alloc, "no hosts"));
        }
        tally.cases = tally.cases.saturating_add(1);
        let report = self.report()?;
        let out = cut(&report, self.out_room);
        let err = cut(&self.err, self.err_room);
        for host in &self.plan.hosts {
            let came = self.came(rt, *host)?;
            tally.runs = tally.runs.saturating_add(1);
            if came.status != status
                || !self.is_wanted(&came.out, out)
                || came.err.as_slice() != err
            {
                let wanted = readable(self.alloc, err)?;
                let under = format!(in self.alloc; "{host:?}: wanted status {status} {wanted}")?;
                add_wrong(self.alloc, tally, &self.plan, under.as_str(), &came, out)?;
            }
        }
        Ok(())
    }

    // This is what is wanted on standard output. A report without a tree is not looked at behind its verdict, but where
    // there is no verdict, or no room, nothing more may come.
    fn is_wanted(&self, came: &[u8], want: &[u8]) -> bool {
        if self.plan.verdict.is_empty() || self.out_room.is_some() {
            came == want
        } else {
            is_report(&self.plan, came, want)
        }
    }

    // What comes on standard output: the whole report, or where the run has no verdict what is said of it.
    fn report(&self) -> Result<Vec<u8>, CaseErr> {
        let plan = &self.plan;
        if plan.verdict.is_empty() {
            return Ok(Vec::from_slice(self.alloc, &self.out)?);
        }
        let mut report = with_verdict(self.alloc, &plan.shown, plan.verdict.as_str())?;
        report.extend_from_slice(tree(self.alloc, plan, &[], &[])?.as_bytes())?;
        Ok(report)
    }

    // What comes of a run.
    fn came<R: AllocGlobal + Clock + Threads + Sync>(
        &self,
        rt: &R,
        host: Words,
    ) -> Result<Came, CaseErr> {
        let files = self.files()?;
        let mut listed = Vec::new(self.alloc);
        for file in &files {
            listed.push((file.name.as_str(), file.bytes.as_slice()))?;
        }
        let mut call = Call::new(&self.plan.words, &listed);
        call.choices = host;
        call.store_fails = self.store_fails;
        call.host_fails = self.host_fails;
        call.out_room = self.out_room;
        call.err_room = self.err_room;
        call.make(rt)
    }

    // The index of the image, and its blobs.
    fn files(&self) -> Result<Vec<Stored>, CaseErr> {
        let mut files = Vec::new(self.alloc);
        files.push(self.stored("image.json", &self.index()?)?)?;
        for blob in &self.plan.blobs {
            let name = blob.name.as_str();
            files.push(self.stored(name.strip_prefix("img/").unwrap_or(name), &blob.bytes)?)?;
        }
        Ok(files)
    }

    // A file of the image's folder.
    fn stored(&self, name: &str, bytes: &[u8]) -> Result<Stored, CaseErr> {
        let folder = self.folder.as_str();
        let name = if folder.is_empty() {
            String::from_str(self.alloc, name)?
        } else {
            format!(in self.alloc; "{folder}/{name}")?
        };
        Ok(Stored {
            name,
            bytes: Vec::from_slice(self.alloc, bytes)?,
        })
    }

    fn index(&self) -> Result<Vec<u8>, CaseErr> {
        match &self.index {
            Some(index) => Ok(Vec::from_slice(self.alloc, index)?),
            None => {
                let index = self.plan.index()?;
                Ok(Vec::from_slice(self.alloc, index.as_bytes())?)
            }
        }
    }
}

// The words of a text; one in quotes may have any letters.
fn words(alloc: Global, text: &str) -> Result<Vec<String>, CaseErr> {
    let mut words = Vec::new(alloc);
    for token in tokens(alloc, text)? {
        let word = if token.starts_with('"') {
            match String::from_utf8(bytes(alloc, token)?) {
                Ok(word) => word,
                Err(_) => return Err(unreadable(alloc, token)),
            }
        } else {
            String::from_str(alloc, token)?
        };
        words.push(word)?;
    }
    Ok(words)
}

fn count(numbers: &Numbers, text: &str) -> Result<u64, CaseErr> {
    let number = numbers.number(text)?;
    u64::try_from(number).map_err(|_| CaseErr::Range(number))
}

// What has room of a text.
fn cut(text: &[u8], room: Option<u64>) -> &[u8] {
    match room {
        Some(room) => text
            .get(..usize::try_from(room).unwrap_or(usize::MAX))
            .unwrap_or(text),
        None => text,
    }
}
