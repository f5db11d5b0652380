// A guest that makes the calls of a case, and what has to come of them.
use crate::calls::effects::written;
use crate::calls::instructions::{
    A0, T0, T1, exit, keep, nops, point_at, store, store_behind, write,
};
use crate::calls::patches::patch;
use crate::calls::tokens::tokens;
use crate::error::CaseErr;
use crate::numbers::Numbers;
use crate::steps::plan::Plan;
use crate::steps::shown::{add_shown, add_write};
use crate::text::{bytes, split_word, unreadable};
use dt_asm::Guest;
use dt_rv64::Instr;
use std::alloc::Global;

// The counter that time(1) reads.
const TIME: u16 = 0xc01;

// What reading the time takes, and what a call takes that changes something, in nanoseconds.
const TICK: i64 = 1_000;

/// A case, as far as its lines were read.
#[derive(Drop)]
pub struct Player {
    alloc: Global,
    plan: Plan,
    guest: Guest,
    // The lines that come are calls.
    calls: bool,
    // Where the guest keeps answers, and to which stream it writes them.
    answers: i64,
    stream: i64,
    // The time is read after each call, and kept behind its answer.
    timed: bool,
    time: i64,
    // What the guest has to keep, and the lines of the calls whose answers that are.
    kept: Vec<u8>,
    lines: Vec<String>,
    labels: u32,
}

impl Player {
    /// A case of which nothing was read.
    pub fn new(alloc: Global) -> Result<Self, CaseErr> {
        Ok(Player {
            alloc,
            plan: Plan::new(alloc)?,
            guest: Guest::new(alloc),
            calls: false,
            answers: 0,
            stream: 2,
            timed: false,
            time: 0,
            kept: Vec::new(alloc),
            lines: Vec::new(alloc),
            labels: 0,
        })
    }

    /// Reads a line.
    pub fn read(&mut self, numbers: &Numbers, line: &str) -> Result<(), CaseErr> {
        let (word, rest) = split_word(line);
        if self.set(numbers, word, rest)? {
            return Ok(());
        }
        match word {
            "calls" => self.calls = true,
            "tree" | "shown" => {
                self.calls = false;
                self.plan.read(numbers, line)?;
            }
            "out" | "err" | "told" => add_shown(self.alloc, &mut self.plan.shown, numbers, line)?,
            _ if self.calls => self.take(numbers, line)?,
            _ => self.plan.read(numbers, line)?,
        }
        Ok(())
    }

    /// The whole case. Where no verdict is given the guest writes the answers, and ends with code 0.
    pub fn plan(mut self) -> Result<Plan, CaseErr> {
        if self.plan.verdict.is_empty() {
            self.tell()?;
        }
        let Player {
            mut plan,
            guest,
            ..
        } = self;
        plan.first = guest;
        Ok(plan)
    }

    // Whether a line says one thing by itself of the guest or of what it meets.
    fn set(&mut self, numbers: &Numbers, word: &str, rest: &str) -> Result<bool, CaseErr> {
        match word {
            "memory" => self.guest.memsz(small(numbers.number(rest)?)?)?,
            "answers" => self.answers = numbers.number(rest)?,
            "stream" => self.stream = numbers.number(rest)?,
            "timed" => self.timed = true,
            _ => return Ok(self.patch(numbers, word, rest)? || self.plan.set(numbers, word, rest)?),
        }
        Ok(true)
    }

    // Whether a line changes the blob that was named last.
    fn patch(&mut self, numbers: &Numbers, word: &str, rest: &str) -> Result<bool, CaseErr> {
        let alloc = self.alloc;
        match self.plan.blobs.last_mut() {
            Some(blob) => patch(alloc, &mut blob.bytes, numbers, word, rest),
            None => Ok(false),
        }
    }

    // Writes the answers, and ends.
    fn tell(&mut self) -> Result<(), CaseErr> {
        let count = (self.kept.len() & 0xffff) as i64;
        write(
            &mut self.guest,
            self.stream,
            self.answers.wrapping_sub(count),
            count,
        )?;
        exit(&mut self.guest)?;
        let stream = byte(self.stream)?;
        if !self.kept.is_empty() {
            add_write(self.alloc, &mut self.plan.shown, stream, &self.kept)?;
            self.add_parts()?;
        }
        self.plan
            .shown
            .extend_from_slice(b"exit 1 code 0\n".as_slice())?;
        self.plan.verdict = String::from_str(self.alloc, "ended")?;
        self.plan.status = Some(0);
        Ok(())
    }

    // Says of each answer by which line it stands. They are what was written last, and a line's end follows them.
    fn add_parts(&mut self) -> Result<(), CaseErr> {
        let end = self.plan.shown.len();
        let mut start = end.saturating_sub(self.kept.len()).saturating_sub(1);
        for line in &self.lines {
            self.plan.add_part(start, line.as_str())?;
            start = start.saturating_add(if self.timed { 16 } else { 8 });
        }
        Ok(self.plan.add_part(end, "")?)
    }

    // Does what a line says: a call or another act, and behind ` = ` its answer and what it shows. The answer of an act
    // without one is not kept.
    fn take(&mut self, numbers: &Numbers, line: &str) -> Result<(), CaseErr> {
        match line.split_once(" = ") {
            Some((act, outcome)) => {
                let register = self.act(numbers, act)?;
                let (answer, shown) = split_word(outcome);
                self.keep(register, numbers.number(answer)?, shown)?;
                self.lines.push(String::from_str(self.alloc, line)?)?;
                if !shown.is_empty() {
                    let start = self.plan.shown.len();
                    self.plan.add_part(start, line)?;
                }
                self.show(numbers, shown)
            }
            None => {
                let _ = self.act(numbers, line)?;
                Ok(())
            }
        }
    }

    // Does it. The answer is in the register that comes back.
    fn act(&mut self, numbers: &Numbers, line: &str) -> Result<u8, CaseErr> {
        let tokens = tokens(self.alloc, line)?;
        match tokens.as_slice() {
            ["store", at, value] => {
                let value = self.eight(numbers, value)?;
                store(&mut self.guest, numbers.number(at)?, value)?;
            }
            ["counter", counter] => {
                let counter = (numbers.number(counter)? & 0xfff) as u16;
                self.guest.ins(Instr::ReadCounter { rd: A0, counter })?;
            }
            ["keep", register] => return byte(numbers.number(register)?),
            ["word", word] => {
                let word = small(numbers.number(word)?)?;
                self.guest.bytes(&word.to_le_bytes())?;
            }
            ["nops", count] => nops(&mut self.guest, numbers.number(count)?)?,
            [number, arguments @ ..] => self.call(numbers, number, arguments)?,
            [] => return Err(unreadable(self.alloc, line)),
        }
        Ok(A0)
    }

    // A number, or eight bytes in quotes.
    fn eight(&self, numbers: &Numbers, word: &str) -> Result<i64, CaseErr> {
        if !word.starts_with('"') {
            return numbers.number(word);
        }
        match bytes(self.alloc, word)?.as_slice() {
            [a, b, c, d, e, f, g, h] => { Ok(i64::from_le_bytes([*a, *b, *c, *d, *e, *f, *g, *h])) }
            _ => Err(unreadable(self.alloc, word)),
        }
    }

    // Makes a call with arguments in the registers from a0 on.
    fn call(&mut self, numbers: &Numbers, number: &str, arguments: &[&str]) -> Result<(), CaseErr> {
        let mut register = A0;
        for argument in arguments {
            self.load(numbers, register, argument)?;
            register = register.wrapping_add(1);
        }
        Ok(self.guest.call(small(numbers.number(number)?)?)?)
    }

    // Loads an argument: a number; the address of bytes in quotes and a NUL; or that of a list of ranges in brackets.
    fn load(&mut self, numbers: &Numbers, register: u8, argument: &str) -> Result<(), CaseErr> {
        let text = if argument.starts_with('"') {
            bytes(self.alloc, argument)?
        } else if let Some(ranges) = argument.strip_prefix('[') {
            self.ranges(numbers, ranges)?
        } else {
            return Ok(self.guest.li(register, numbers.number(argument)?)?);
        };
        self.labels = self.labels.wrapping_add(1);
        Ok(point_at(&mut self.guest, register, text, self.labels)?)
    }

    // A list of `struct iovec`, as readv(2) takes it: `ADDRESS:LENGTH,..]`.
    fn ranges(&self, numbers: &Numbers, text: &str) -> Result<Vec<u8>, CaseErr> {
        let Some(ranges) = text.strip_suffix(']') else {
            return Err(unreadable(self.alloc, text));
        };
        let mut bytes = Vec::new(self.alloc);
        for range in ranges.split(',') {
            let Some((address, length)) = range.split_once(':') else {
                return Err(unreadable(self.alloc, range));
            };
            bytes.extend_from_slice(&numbers.number(address)?.to_le_bytes())?;
            bytes.extend_from_slice(&numbers.number(length)?.to_le_bytes())?;
        }
        Ok(bytes)
    }

    // Keeps a register, which has to have this answer, and the time, if it is read.
    fn keep(&mut self, register: u8, answer: i64, shown: &str) -> Result<(), CaseErr> {
        self.kept.extend_from_slice(&answer.to_le_bytes())?;
        if self.timed {
            self.guest.ins(Instr::ReadCounter {
                rd: T1,
                counter: TIME,
            })?;
        }
        keep(&mut self.guest, self.answers, register)?;
        self.answers = self.answers.wrapping_add(8);
        if self.timed {
            store_behind(&mut self.guest, T1, 8)?;
            self.answers = self.answers.wrapping_add(8);
            let taken = if shown == "ticks" { TICK } else { 0 };
            self.time = self.time.wrapping_add(taken).wrapping_add(TICK);
            self.kept.extend_from_slice(&self.time.to_le_bytes())?;
        }
        Ok(())
    }

    // What a call shows: what it wrote to the buffer, which the guest then writes to stream 1; or what it wrote to a
    // stream itself. A call that takes time shows nothing.
    fn show(&mut self, numbers: &Numbers, text: &str) -> Result<(), CaseErr> {
        if text.is_empty() || (self.timed && text == "ticks") {
            return Ok(());
        }
        match written(self.alloc, numbers, text)? {
            Some(bytes) => {
                let count = (bytes.len() & 0xffff) as i64;
                write(&mut self.guest, 1, numbers.number("BUFFER")?, count)?;
                add_write(self.alloc, &mut self.plan.shown, 1, &bytes)?;
                Ok(())
            }
            None => add_shown(self.alloc, &mut self.plan.shown, numbers, text),
        }
    }
}

fn small(number: i64) -> Result<u32, CaseErr> {
    u32::try_from(number).map_err(|_| CaseErr::Range(number))
}

fn byte(number: i64) -> Result<u8, CaseErr> {
    u8::try_from(number).map_err(|_| CaseErr::Range(number))
}
