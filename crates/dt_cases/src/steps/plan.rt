// What a case says: an image, hosts, two programs, and what has to come of their run.
use crate::bench::Words;
use crate::error::CaseErr;
use crate::numbers::Numbers;
use crate::steps::code::S0;
use crate::steps::layout::{ANSWERS, MEMORY_SIZE};
use crate::steps::shown::{add_shown, header};
use crate::steps::step::take;
use crate::text::{bytes, split_word, unreadable};
use dt_asm::Guest;
use std::alloc::{AllocError, Global};

/// A blob, by its name in the image's folder.
#[derive(Drop)]
pub struct Stored {
    pub name: String,
    pub bytes: Vec<u8>,
}

/// A line by which a part of the report stands, and where that part begins.
#[derive(Drop)]
pub struct Part {
    pub start: usize,
    pub line: String,
}

/// A turn: what it costs, which is its segment or 1 where a call is tried again, and how long the report is before it.
#[derive(Clone, Copy)]
pub struct Turn {
    pub cost: u64,
    pub start: usize,
}

// To what the lines that come belong.
#[derive(Clone, Copy)]
enum Place {
    Setting,
    Tree,
    First,
    Second,
    Shown,
}

/// A case, as far as its lines were read.
#[derive(Drop)]
pub struct Plan {
    alloc: Global,
    place: Place,
    /// What it is.
    pub what: String,
    /// The words after the program's name.
    pub words: Vec<String>,
    /// The version of the image.
    pub version: u64,
    /// The entries of the image's index.
    pub entries: String,
    pub blobs: Vec<Stored>,
    /// What the report says of the tree, if that is looked at.
    pub tree: Option<Vec<String>>,
    pub hosts: Vec<Words>,
    pub first: Guest,
    pub second: Guest,
    /// The turns, if the run is to be tried with each budget.
    pub turns: Vec<Turn>,
    /// How many calls of the host have to fail in turn, at least, if they are to fail.
    pub faults: Option<u64>,
    /// What the report says before the verdict.
    pub shown: Vec<u8>,
    /// The lines by which parts of that stand, as far as it is known, in order.
    pub parts: Vec<Part>,
    pub verdict: String,
    pub status: Option<u8>,
}

impl Plan {
    /// A case of which nothing was read.
    pub fn new(alloc: Global) -> Result<Self, CaseErr> {
        Ok(Plan {
            alloc,
            place: Place::Setting,
            what: String::new(alloc),
            words: Vec::new(alloc),
            version: 1,
            entries: String::new(alloc),
            blobs: Vec::new(alloc),
            tree: None,
            hosts: Vec::new(alloc),
            first: guest(alloc)?,
            second: guest(alloc)?,
            turns: Vec::new(alloc),
            faults: None,
            shown: header(alloc, 1)?,
            parts: Vec::new(alloc),
            verdict: String::new(alloc),
            status: None,
        })
    }

    /// The index of the image.
    pub fn index(&self) -> Result<String, AllocError> {
        let (version, entries) = (self.version, self.entries.as_str());
        format!(in self.alloc; "{{\"version\":{version},\"entries\":[{entries}]}}")
    }

    /// Says that the report has a part from here on by a line.
    pub fn add_part(&mut self, start: usize, line: &str) -> Result<(), AllocError> {
        let line = String::from_str(self.alloc, line)?;
        self.parts.push(Part { start, line })?;
        Ok(())
    }

    /// The line by which the byte at this offset of the report stands; nothing where that is not known.
    pub fn line_at(&self, offset: usize) -> &str {
        for part in self.parts.iter().rev() {
            if part.start <= offset {
                return part.line.as_str();
            }
        }
        ""
    }

    /// Reads a line.
    pub fn read(&mut self, numbers: &Numbers, line: &str) -> Result<(), CaseErr> {
        let (word, rest) = split_word(line);
        if self.enter(numbers, word, rest)? || self.set(numbers, word, rest)? {
            return Ok(());
        }
        match (self.place, &mut self.tree) {
            (Place::Tree, Some(tree)) => Ok(tree.push(String::from_str(self.alloc, line)?)?),
            (Place::First, _) => take(self.alloc, &mut self.first, numbers, line),
            (Place::Second, _) => take(self.alloc, &mut self.second, numbers, line),
            (Place::Shown, _) => add_shown(self.alloc, &mut self.shown, numbers, line),
            _ => Err(unreadable(self.alloc, line)),
        }
    }

    // Whether a line begins a part of the case.
    fn enter(&mut self, numbers: &Numbers, word: &str, rest: &str) -> Result<bool, CaseErr> {
        match (word, rest) {
            ("tree", "") => {
                self.tree = Some(Vec::new(self.alloc));
                self.place = Place::Tree;
            }
            ("first", "") => self.place = Place::First,
            ("second", "") => self.place = Place::Second,
            ("shown", "") => self.place = Place::Shown,
            ("turn", cost) => {
                self.place = Place::Shown;
                let cost = count(numbers, cost)?;
                let start = self.shown.len();
                self.turns.push(Turn { cost, start })?;
            }
            _ => return Ok(false),
        }
        Ok(true)
    }

    /// Whether a line says one thing by itself.
    pub fn set(&mut self, numbers: &Numbers, word: &str, rest: &str) -> Result<bool, CaseErr> {
        let alloc = self.alloc;
        match word {
            "case" => self.what = String::from_str(alloc, rest)?,
            "words" => self.words = words(alloc, rest)?,
            "version" => self.set_version(count(numbers, rest)?)?,
            "entry" => self.add_entry(numbers, rest)?,
            "blob" => {
                let (name, text) = split_word(rest);
                self.add_blob(name, bytes(alloc, text)?)?;
            }
            "guest" => {
                let (name, guest) = split_word(rest);
                self.add_blob(name, known_guest(alloc, guest)?)?;
            }
            "hosts" => self.hosts = hosts(alloc, numbers, rest)?,
            "faults" => self.faults = Some(count(numbers, rest)?),
            "verdict" => self.verdict = String::from_str(alloc, rest)?,
            "status" => self.status = Some(status(numbers, rest)?),
            _ => return Ok(false),
        }
        Ok(true)
    }

    fn add_blob(&mut self, name: &str, bytes: Vec<u8>) -> Result<(), CaseErr> {
        let name = format!(in self.alloc; "img/{name}")?;
        self.blobs.push(Stored { name, bytes })?;
        Ok(())
    }

    // Says the version of the image, before anything shows.
    fn set_version(&mut self, version: u64) -> Result<(), CaseErr> {
        self.version = version;
        self.shown = header(self.alloc, version)?;
        Ok(())
    }

    // Adds an entry to the index: `dir PATH MODE`, `file PATH MODE BLOB`, `link PATH TARGET` or `dev PATH MODE DEVICE`.
    fn add_entry(&mut self, numbers: &Numbers, text: &str) -> Result<(), CaseErr> {
        let alloc = self.alloc;
        let words: Vec<&str> = text.split_whitespace().collect(alloc)?;
        let entry = match words.as_slice() {
            ["dir", path, mode] => {
                let mode = numbers.number(mode)?;
                format!(in alloc; "{{\"path\":\"{path}\",\"type\":\"dir\",\"mode\":{mode}}}")?
            }
            ["file", path, mode, blob] => {
                let mode = numbers.number(mode)?;
                format!(in alloc;
                    "{{\"path\":\"{path}\",\"type\":\"file\",\"mode\":{mode},\"blob\":\"{blob}\"}}"
                )?
            }
            ["link", path, target] => {
                format!(in alloc;
                    "{{\"path\":\"{path}\",\"type\":\"link\",\"target\":\"{target}\"}}"
                )?
            }
            ["dev", path, mode, device] => {
                let mode = numbers.number(mode)?;
                format!(in alloc;
                    "{{\"path\":\"{path}\",\"type\":\"dev\",\"mode\":{mode},\"device\":\"{device}\"}}"
                )?
            }
            _ => return Err(unreadable(alloc, text)),
        };
        if !self.entries.is_empty() {
            self.entries.push(',')?;
        }
        Ok(self.entries.push_str(entry.as_str())?)
    }
}

// A guest before its first step.
fn guest(alloc: Global) -> Result<Guest, CaseErr> {
    let mut guest = Guest::new(alloc);
    guest.memsz(MEMORY_SIZE)?;
    guest.li(S0, ANSWERS)?;
    Ok(guest)
}

// The file of a guest that has a name.
fn known_guest(alloc: Global, name: &str) -> Result<Vec<u8>, CaseErr> {
    let guest = match name {
        "trio" => dt_asm::trio(alloc)?,
        "cat1" => dt_asm::cat1(alloc)?,
        "late" => dt_asm::late(alloc)?,
        "first" => dt_asm::first(alloc)?,
        "hello" => dt_asm::hello(alloc)?,
        _ => return Err(unreadable(alloc, name)),
    };
    Ok(guest.elf()?)
}

// The words of a text.
fn words(alloc: Global, text: &str) -> Result<Vec<String>, AllocError> {
    let mut words = Vec::new(alloc);
    for word in text.split_whitespace() {
        words.push(String::from_str(alloc, word)?)?;
    }
    Ok(words)
}

// Hosts, which `,` parts: `zeros COUNT`, and `stream` or `digits` with numbers.
fn hosts(alloc: Global, numbers: &Numbers, text: &str) -> Result<Vec<Words>, CaseErr> {
    let mut hosts = Vec::new(alloc);
    for host in text.split(',') {
        let (kind, rest) = split_word(host);
        for number in numbers.list(rest)? {
            hosts.push(choices(alloc, kind, number)?)?;
        }
    }
    Ok(hosts)
}

fn choices(alloc: Global, kind: &str, number: i64) -> Result<Words, CaseErr> {
    let range = |_| CaseErr::Range(number);
    match kind {
        "zeros" => Ok(Words::Zeros(usize::try_from(number).map_err(range)?)),
        "stream" => Ok(Words::Stream(u64::from_le_bytes(number.to_le_bytes()))),
        "digits" => Ok(Words::Digits(u32::try_from(number).map_err(range)?)),
        _ => Err(unreadable(alloc, kind)),
    }
}

fn count(numbers: &Numbers, text: &str) -> Result<u64, CaseErr> {
    let number = numbers.number(text)?;
    u64::try_from(number).map_err(|_| CaseErr::Range(number))
}

fn status(numbers: &Numbers, text: &str) -> Result<u8, CaseErr> {
    let number = numbers.number(text)?;
    u8::try_from(number).map_err(|_| CaseErr::Range(number))
}
