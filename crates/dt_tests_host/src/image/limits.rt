// Each limit of an image, told from its neighbours.
use super::folder::{index, many, refusal};
use crate::expect::same_at;
use dt_base::{ImageErr, Refusal};
use std::alloc::{AllocError, Global};
use std::process::Abort;

// An image of one entry, but for one number: how many files there are, the bytes of the index, of a file's blob, of its
// name, of a path that leads through directories, of the blob's name or of a link's target, or the mode.
#[derive(Clone, Copy)]
enum With {
    Entries(u32),
    Index(usize),
    Blob(usize),
    Name(usize),
    Path(usize),
    BlobName(usize),
    Target(usize),
    Mode(u32),
}

// A good path that leads through directories is refused since they are not listed.
type LimitRow = (With, Option<Refusal>);

const LIMITS: &[LimitRow] = &[
    (With::Entries(4_095), None),
    (With::Entries(4_096), Some(Refusal::TooMany)),
    (With::Index(4_194_304), None),
    (With::Index(4_194_305), Some(Refusal::BadIndex)),
    (With::Blob(16_777_216), None),
    (With::Blob(16_777_217), Some(Refusal::TooBig)),
    (With::Name(255), None),
    (With::Name(256), Some(Refusal::BadPath)),
    (With::Path(4_095), Some(Refusal::NoParent)),
    (With::Path(4_096), Some(Refusal::BadPath)),
    (With::BlobName(255), None),
    (With::BlobName(256), Some(Refusal::BadPath)),
    (With::Target(0), Some(Refusal::BadPath)),
    (With::Target(1), None),
    (With::Target(4_095), None),
    (With::Target(4_096), Some(Refusal::BadPath)),
    (With::Mode(4_095), None),
    (With::Mode(4_096), Some(Refusal::BadIndex)),
];

// Ends the test unless that is said of the image of each row.
fn expect_limits(rt: &impl Abort, alloc: Global, rows: &[LimitRow]) -> Result<(), ImageErr> {
    for (index, (with, want)) in rows.iter().enumerate() {
        same_at(rt, index, refusal_with(alloc, *with)?, *want);
    }
    Ok(())
}

#[test]
fn images_at_each_limit_and_one_past_it(rt: HostRuntime) -> Result<(), ImageErr> {
    expect_limits(&rt, rt.alloc(), LIMITS)
}

// What is said of the image of that number.
fn refusal_with(alloc: Global, with: With) -> Result<Option<Refusal>, ImageErr> {
    let text = text_with(alloc, with)?;
    let (length, size) = match with {
        With::BlobName(length) => (length, 1),
        With::Blob(size) => (1, size),
        _ => (1, 1),
    };
    let name = "b".repeat(alloc, length)?;
    refusal(alloc, Some(text.as_bytes()), &[(name.as_str(), size)])
}

// Its index.
fn text_with(alloc: Global, with: With) -> Result<String, AllocError> {
    match with {
        With::Entries(count) => many(alloc, count),
        With::Index(length) => of_length(alloc, length),
        With::Blob(_) => index(alloc, "file:/a:420:b"),
        With::Name(length) => of_path(alloc, "/", "n", length),
        With::Path(length) => through(alloc, length),
        With::BlobName(length) => of_blob(alloc, length),
        With::Target(length) => of_link(alloc, length),
        With::Mode(mode) => index(alloc, format!(in alloc; "file:/a:{mode}:b")?.as_str()),
    }
}

// An index of so many bytes, of which the last are blanks.
fn of_length(alloc: Global, length: usize) -> Result<String, AllocError> {
    let mut text = index(alloc, "file:/a:420:b")?;
    let blanks = " ".repeat(alloc, length.saturating_sub(text.len()))?;
    text.push_str(blanks.as_str())?;
    Ok(text)
}

// That of a file whose path ends in a letter so many times.
fn of_path(alloc: Global, start: &str, letter: &str, times: usize) -> Result<String, AllocError> {
    let end = letter.repeat(alloc, times)?;
    index(
        alloc,
        format!(in alloc; "file:{start}{end}:420:b")?.as_str(),
    )
}

// That of a file whose path has so many bytes, and leads through directories of one letter.
fn through(alloc: Global, length: usize) -> Result<String, AllocError> {
    let start = "/d".repeat(alloc, length / 2)?;
    of_path(alloc, start.as_str(), "f", length % 2)
}

// That of a file whose blob has a name of so many bytes.
fn of_blob(alloc: Global, length: usize) -> Result<String, AllocError> {
    let name = "b".repeat(alloc, length)?;
    index(alloc, format!(in alloc; "file:/a:420:{name}")?.as_str())
}

// That of a link with a target of so many bytes.
fn of_link(alloc: Global, length: usize) -> Result<String, AllocError> {
    let target = "t".repeat(alloc, length)?;
    index(alloc, format!(in alloc; "link:/l:0:{target}")?.as_str())
}
