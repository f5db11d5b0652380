// What a report shows before the tree, as lines of a case say it.
use crate::error::CaseErr;
use crate::numbers::Numbers;
use crate::text::{bytes, split_word, unreadable};
use std::alloc::{AllocError, Global};

/// What a report on an image of that version begins with.
pub fn header(alloc: Global, version: u64) -> Result<Vec<u8>, AllocError> {
    let line = format!(in alloc; "dettrace {version}\n")?;
    Vec::from_slice(alloc, line.as_bytes())
}

/// Adds to a report what a line says that shows:
/// `told` with answers: a process writes them to stream 2;
/// `out` or `err` with bytes: they are written to stream 1 or 2;
/// `given` with a count and bytes: a program finds so many arguments, and the bytes from the first one on;
/// `counted` with numbers by twos: what is written to stream 1 at once are parts of the bytes of all numbers, each of
/// which has eight: where each part begins, and how many bytes it has;
/// `code` or `signal` with a pid and a number: by which the process ends.
pub fn add_shown(
    alloc: Global,
    report: &mut Vec<u8>,
    numbers: &Numbers,
    line: &str,
) -> Result<(), CaseErr> {
    let (word, rest) = split_word(line);
    match word {
        "told" => add_write(alloc, report, 2, &told(alloc, &numbers.list(rest)?)?)?,
        "out" => add_write(alloc, report, 1, &bytes(alloc, rest)?)?,
        "err" => add_write(alloc, report, 2, &bytes(alloc, rest)?)?,
        "given" => {
            let (count, text) = split_word(rest);
            add_write(alloc, report, 1, &numbers.number(count)?.to_le_bytes())?;
            add_write(alloc, report, 1, &bytes(alloc, text)?)?;
        }
        "counted" => add_write(alloc, report, 1, &counted(alloc, &numbers.list(rest)?)?)?,
        "code" | "signal" => match numbers.list(rest)?.as_slice() {
            [pid, number] => {
                let end = format!(in alloc; "exit {pid} {word} {number}\n")?;
                report.extend_from_slice(end.as_bytes())?;
            }
            _ => return Err(unreadable(alloc, line)),
        },
        _ => return Err(unreadable(alloc, line)),
    }
    Ok(())
}

/// A report so far, and its verdict.
pub fn with_verdict(alloc: Global, report: &[u8], verdict: &str) -> Result<Vec<u8>, AllocError> {
    let mut ended = Vec::from_slice(alloc, report)?;
    ended.extend_from_slice(format!(in alloc; "verdict {verdict}\n")?.as_bytes())?;
    Ok(ended)
}

// The bytes of answers.
fn told(alloc: Global, answers: &[i64]) -> Result<Vec<u8>, AllocError> {
    let mut bytes = Vec::new(alloc);
    for answer in answers {
        bytes.extend_from_slice(&answer.to_le_bytes())?;
    }
    Ok(bytes)
}

// The bytes of parts of the numbers.
fn counted(alloc: Global, parts: &[i64]) -> Result<Vec<u8>, CaseErr> {
    let mut bytes = Vec::new(alloc);
    for part in parts.chunks(2) {
        match part {
            [start, count] => add_counted(&mut bytes, offset_of(*start)?, *count)?,
            _ => return Err(CaseErr::Range(0)),
        }
    }
    Ok(bytes)
}

fn offset_of(number: i64) -> Result<u64, CaseErr> {
    u64::try_from(number).map_err(|_| CaseErr::Range(number))
}

fn add_counted(bytes: &mut Vec<u8>, start: u64, count: i64) -> Result<(), AllocError> {
    let mut offset = start;
    for _ in 0..count {
        bytes.push(counted_byte(offset))?;
        offset = offset.wrapping_add(1);
    }
    Ok(())
}

// The byte at this offset of all numbers.
fn counted_byte(offset: u64) -> u8 {
    let bytes = (offset >> 3).to_le_bytes();
    bytes[(offset & 7) as usize]
}

/// Adds what is written to a stream.
pub fn add_write(
    alloc: Global,
    report: &mut Vec<u8>,
    stream: u8,
    bytes: &[u8],
) -> Result<(), AllocError> {
    let count = bytes.len();
    report.extend_from_slice(format!(in alloc; "out {stream} {count}\n")?.as_bytes())?;
    report.extend_from_slice(bytes)?;
    report.extend_from_slice(b"\n".as_slice())
}
