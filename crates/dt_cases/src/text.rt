// What a line says.
use crate::error::CaseErr;
use std::alloc::Global;

/// The first word of a line, and what stands behind it; both without blanks around them.
pub fn split_word(line: &str) -> (&str, &str) {
    let line = line.trim();
    match line.split_once(' ') {
        Some((word, rest)) => (word, rest.trim()),
        None => (line, ""),
    }
}

/// A line says nothing: it is empty, or a comment.
pub fn is_blank(line: &str) -> bool {
    let line = line.trim();
    line.is_empty() || line.starts_with('#')
}

/// The error of a line that cannot be read.
pub fn unreadable(alloc: Global, line: &str) -> CaseErr {
    match String::from_str(alloc, line) {
        Ok(line) => CaseErr::Line(line),
        Err(_) => CaseErr::NoMemory,
    }
}

/// The bytes that a text gives: pieces in quotes, one behind the other, each of which may stand so many times, as
/// `"ab" "x"*250 "\n"` does.
pub fn bytes(alloc: Global, text: &str) -> Result<Vec<u8>, CaseErr> {
    let mut bytes = Vec::new(alloc);
    let mut rest = text.trim();
    for _ in 0..text.len() {
        if rest.is_empty() {
            break;
        }
        let Some((piece, behind)) = piece(alloc, rest)? else {
            return Err(unreadable(alloc, text));
        };
        let Some((times, behind)) = times(behind) else {
            return Err(unreadable(alloc, text));
        };
        add(&mut bytes, &piece, times)?;
        rest = behind;
    }
    Ok(bytes)
}

// Adds bytes so many times.
fn add(bytes: &mut Vec<u8>, piece: &[u8], times: usize) -> Result<(), CaseErr> {
    for _ in 0..times {
        bytes.extend_from_slice(piece)?;
    }
    Ok(())
}

// How many times a piece stands, by what stands behind it, and what stands behind that; nothing if that is no number.
fn times(behind: &str) -> Option<(usize, &str)> {
    match behind.strip_prefix('*') {
        Some(behind) => {
            let (count, rest) = split_word(behind);
            Some((count.parse::<usize>().ok()?, rest))
        }
        None => Some((1, behind.trim())),
    }
}

// The bytes of the piece in quotes that comes first, and what stands behind it; nothing if none comes.
fn piece(alloc: Global, text: &str) -> Result<Option<(Vec<u8>, &str)>, CaseErr> {
    let mut bytes = Vec::new(alloc);
    let Some(mut rest) = text.strip_prefix('"') else {
        return Ok(None);
    };
    for _ in 0..text.len() {
        if let Some(behind) = rest.strip_prefix('"') {
            return Ok(Some((bytes, behind)));
        }
        let Some((byte, behind)) = letter(rest) else {
            return Ok(None);
        };
        bytes.push(byte)?;
        rest = behind;
    }
    Ok(None)
}

// The byte that the first letter or escape gives, and what stands behind it.
fn letter(text: &str) -> Option<(u8, &str)> {
    match text.strip_prefix('\\') {
        Some(rest) => escape(rest),
        None => first_byte(text),
    }
}

fn first_byte(text: &str) -> Option<(u8, &str)> {
    let (letter, rest) = text.split_at_checked(1)?;
    Some((*letter.as_bytes().first()?, rest))
}

// The byte of what stands behind a backslash, and what stands behind that.
fn escape(text: &str) -> Option<(u8, &str)> {
    let (byte, rest) = first_byte(text)?;
    match byte {
        b'0' => Some((0, rest)),
        b'n' => Some((b'\n', rest)),
        b't' => Some((b'\t', rest)),
        b'r' => Some((b'\r', rest)),
        b'\\' | b'"' => Some((byte, rest)),
        b'x' => {
            let (digits, rest) = rest.split_at_checked(2)?;
            Some((u8::from_str_radix(digits, 16).ok()?, rest))
        }
        _ => None,
    }
}
