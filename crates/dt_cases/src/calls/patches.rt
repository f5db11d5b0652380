// Files of guests that are changed by hand.
use crate::error::CaseErr;
use crate::numbers::Numbers;
use crate::text::{bytes, split_word};
use std::alloc::Global;

/// Changes a file, if a line's word is one of these:
/// `put` with an offset and bytes, which then stand there;
/// `number` with an offset and a number of 64 bits, which then stands there;
/// `append` with numbers of 64 bits, which then stand behind the file;
/// `cut` with a size, up to which bytes stay.
pub fn patch(
    alloc: Global,
    file: &mut Vec<u8>,
    numbers: &Numbers,
    word: &str,
    rest: &str,
) -> Result<bool, CaseErr> {
    let (first, text) = split_word(rest);
    match word {
        "put" => put(file, numbers.number(first)?, &bytes(alloc, text)?)?,
        "number" => {
            let number = numbers.number(text)?;
            put(file, numbers.number(first)?, &number.to_le_bytes())?;
        }
        "append" => append(file, &numbers.list(rest)?)?,
        "cut" => {
            let end = offset(file, numbers.number(rest)?)?;
            file.truncate(end);
        }
        _ => return Ok(false),
    }
    Ok(true)
}

// Puts bytes in the place of others.
fn put(file: &mut Vec<u8>, at: i64, bytes: &[u8]) -> Result<(), CaseErr> {
    let mut offset = offset(file, at)?;
    for byte in bytes {
        match file.get_mut(offset) {
            Some(there) => *there = *byte,
            None => return Err(CaseErr::Range(at)),
        }
        offset = offset.saturating_add(1);
    }
    Ok(())
}

fn append(file: &mut Vec<u8>, numbers: &[i64]) -> Result<(), CaseErr> {
    for number in numbers {
        file.extend_from_slice(&number.to_le_bytes())?;
    }
    Ok(())
}

// An offset within a file.
fn offset(file: &[u8], at: i64) -> Result<usize, CaseErr> {
    match usize::try_from(at) {
        Ok(offset) if offset < file.len() => Ok(offset),
        _ => Err(CaseErr::Range(at)),
    }
}
