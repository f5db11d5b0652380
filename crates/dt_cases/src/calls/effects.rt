// What a call writes to the buffer that it is handed.
use crate::calls::tokens::tokens;
use crate::error::CaseErr;
use crate::numbers::Numbers;
use crate::text::{bytes, split_word, unreadable};
use std::alloc::{AllocError, Global};

// The second at which logical time begins: the year 2000.
const FIRST_SECOND: i64 = 946_684_800;

/// The bytes that a text names, if its word is one of these:
/// `text` with bytes, behind which a NUL stands;
/// `bytes` with bytes;
/// `stat` with a node's status;
/// `entries` with those of a directory.
pub fn written(alloc: Global, numbers: &Numbers, text: &str) -> Result<Option<Vec<u8>>, CaseErr> {
    let (word, rest) = split_word(text);
    let written = match word {
        "text" => {
            let mut written = bytes(alloc, rest)?;
            written.push(0)?;
            written
        }
        "bytes" => bytes(alloc, rest)?,
        "stat" => stat(alloc, numbers, rest)?,
        "entries" => entries(alloc, numbers, rest)?,
        _ => return Ok(None),
    };
    Ok(Some(written))
}

// The members of `struct stat` in order (asm-generic/stat.h): `ino=N mode=N nlink=N size=N blocks=N mtime=N`, where the
// last one is in nanoseconds of logical time. The times of access, modification and change are one. Behind them
// `rdev=N` may stand; without it st_rdev is 0.
fn stat(alloc: Global, numbers: &Numbers, text: &str) -> Result<Vec<u8>, CaseErr> {
    let words: Vec<&str> = text.split_whitespace().collect(alloc)?;
    let (ino, mode, nlink, size, blocks, mtime, rdev) = match words.as_slice() {
        [ino, mode, nlink, size, blocks, mtime] => {
            (*ino, *mode, *nlink, *size, *blocks, *mtime, "rdev=0")
        }
        [ino, mode, nlink, size, blocks, mtime, rdev] => {
            (*ino, *mode, *nlink, *size, *blocks, *mtime, *rdev)
        }
        _ => return Err(unreadable(alloc, text)),
    };
    let mut stat = Vec::new(alloc);
    // st_dev and st_ino.
    add(&mut stat, 1)?;
    add(&mut stat, member(alloc, numbers, ino, "ino=")?)?;
    // st_mode and st_nlink, with 32 bits each.
    add_half(&mut stat, member(alloc, numbers, mode, "mode=")?)?;
    add_half(&mut stat, member(alloc, numbers, nlink, "nlink=")?)?;
    // st_uid and st_gid.
    add(&mut stat, 0)?;
    add(&mut stat, member(alloc, numbers, rdev, "rdev=")?)?;
    // 8 bytes that are not used.
    add(&mut stat, 0)?;
    add(&mut stat, member(alloc, numbers, size, "size=")?)?;
    // st_blksize and 4 bytes that are not used.
    add(&mut stat, 4_096)?;
    add(&mut stat, member(alloc, numbers, blocks, "blocks=")?)?;
    let mtime = member(alloc, numbers, mtime, "mtime=")?;
    for _ in 0..3 {
        add(&mut stat, FIRST_SECOND)?;
        add(&mut stat, mtime)?;
    }
    // 8 bytes that are not used.
    add(&mut stat, 0)?;
    Ok(stat)
}

// The number behind a member's name.
fn member(alloc: Global, numbers: &Numbers, word: &str, name: &str) -> Result<i64, CaseErr> {
    match word.strip_prefix(name) {
        Some(number) => numbers.number(number),
        None => Err(unreadable(alloc, word)),
    }
}

// Adds a number of 64 bits.
fn add(bytes: &mut Vec<u8>, number: i64) -> Result<(), AllocError> {
    bytes.extend_from_slice(&number.to_le_bytes())
}

// Adds a number of 32 bits.
fn add_half(bytes: &mut Vec<u8>, number: i64) -> Result<(), AllocError> {
    let [a, b, c, d, ..] = number.to_le_bytes();
    bytes.extend_from_slice(&[a, b, c, d])
}

// Records of a directory, one behind the other, as getdents64(2) gives them: `INODE:TYPE:NAME` for each.
fn entries(alloc: Global, numbers: &Numbers, text: &str) -> Result<Vec<u8>, CaseErr> {
    let mut records = Vec::new(alloc);
    for token in tokens(alloc, text)? {
        let Some((inode, rest)) = token.split_once(':') else {
            return Err(unreadable(alloc, token));
        };
        let Some((kind, name)) = rest.split_once(':') else {
            return Err(unreadable(alloc, token));
        };
        let kind = numbers.number(kind)?;
        let name = bytes(alloc, name)?;
        add(&mut records, numbers.number(inode)?)?;
        add_record(&mut records, kind, &name)?;
    }
    Ok(records)
}

// Adds what stands behind a record's inode.
fn add_record(records: &mut Vec<u8>, kind: i64, name: &[u8]) -> Result<(), CaseErr> {
    // As many zeros as end the record at a multiple of 8, and one at least. The fields before the name have 19 bytes.
    let zeros = 8 - (name.len().wrapping_add(3) & 7);
    let length = (name.len() & 0xff) + 19 + zeros;
    // d_off, which is not used.
    records.extend_from_slice(&[0; 8])?;
    records.extend_from_slice(&(length as u16).to_le_bytes())?;
    records.push(u8::try_from(kind).map_err(|_| CaseErr::Range(kind))?)?;
    records.extend_from_slice(name)?;
    records.extend_from_slice([0; 8].get(..zeros).unwrap_or(&[]))?;
    Ok(())
}
