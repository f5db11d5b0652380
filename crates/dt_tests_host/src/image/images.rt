// Images that are read, and the first reason against one.
use super::folder::{BlobSize, folder, image_of_sizes, index, many, refusal};
use crate::expect::{same, same_at};
use dt_base::{Entry, FIRST_FILE_LIMIT, ImageErr, NoMemory, Refusal, What};
use dt_host::Store;
use dt_image::read_image;
use dt_memhost::{MemStore, Picker};
use std::alloc::Global;
use std::process::Abort;

const BLOBS: &[BlobSize<'static>] = &[("a", 1), ("b", 2)];

const PAST_LIMIT: usize = FIRST_FILE_LIMIT as usize + 1;

// The entries of an index, each with its path, its mode, and its bytes or its target.
type EntryRow = (&'static [u8], u32, &'static [u8]);

const ENTRIES: &[EntryRow] = &[
    (b"/a", 0o1777, b"a directory"),
    (b"/a b", 0, b"x"),
    (b"/a/b", 0o644, b"xx"),
    (b"/l", 0o777, b"../x y"),
];

// Ends the test unless the entries are what these rows say.
fn expect_entries(rt: &impl Abort, entries: &[Entry], rows: &[EntryRow]) {
    same(rt, entries.len(), rows.len());
    for index in 0..entries.len().min(rows.len()) {
        let row = &rows[index];
        same_at(rt, row.0, holds(&entries[index], row), true);
    }
}

#[test]
fn entries_of_an_index_stand_in_order(rt: HostRuntime) -> Result<(), ImageErr> {
    let line = "link:/l:9999:../x y,file:/a/b:420:b,dir:/a:1023:.,file:/a b:0:a";
    let image = image_of_sizes(rt.alloc(), line, BLOBS)?;
    expect_entries(&rt, image.entries(), ENTRIES);
    Ok(())
}

// Whether an entry has that path, mode, and bytes or target.
fn holds(entry: &Entry, row: &EntryRow) -> bool {
    let (path, mode, held) = *row;
    let bytes = match &entry.what {
        What::File(bytes) => bytes.as_slice(),
        What::Dir => b"a directory",
        What::Link(target) => target.as_slice(),
        What::Dev(_) => b"a device",
    };
    entry.path.as_slice() == path && entry.mode == mode && bytes == held
}

// Entries, and what is said of them. Of the blobs, `a` and `b` are there, `c` is too long, and `none` is not there.
const ROWS: &[(&str, Option<Refusal>)] = &[
    ("file:/d/b:0:b,dir:/d:0:,link:/d/l:0:/", None),
    ("dir:a:0:,pipe:/p:0:", Some(Refusal::BadIndex)),
    ("dir:a:0:,dir:/a:4096:", Some(Refusal::BadIndex)),
    ("dir:/a:0:,dir:/a:0:,link:/l:0:", Some(Refusal::BadPath)),
    ("dir:/a:0:,dir:/a:0:,file:/f:0:.a", Some(Refusal::BadPath)),
    ("dir:/a:0:,dir:/a:0:,dir:/a/../b:0:", Some(Refusal::BadPath)),
    ("dir:/a:0:,dir:/a:0:,dir:/a//b:0:", Some(Refusal::BadPath)),
    ("dir:/x/y:0:,dir:/a:0:,link:/a:0:t", Some(Refusal::Twice)),
    ("dir:/a/b:0:,dir:/a/b:0:", Some(Refusal::Twice)),
    ("file:/f:0:none,file:/a/b:0:a", Some(Refusal::NoParent)),
    ("file:/a:0:a,dir:/a/b:0:", Some(Refusal::NoParent)),
    ("link:/l:0:d,dir:/d:0:,dir:/l/b:0:", Some(Refusal::NoParent)),
    ("dir:/d:0:,dir:/d/e/f:0:", Some(Refusal::NoParent)),
    ("dir:/d:0:,dir:/de/f:0:", Some(Refusal::NoParent)),
    ("file:/c:0:c,file:/f:0:none", Some(Refusal::NoBlob)),
    ("file:/b:0:b,file:/c:0:c", Some(Refusal::TooBig)),
    ("dir:/b:0:c,link:/c:0:none", None),
];

const THREE_BLOBS: &[BlobSize<'static>] = &[("a", 1), ("b", 2), ("c", PAST_LIMIT)];

// What is said of the entries of a line, over blobs.
fn refusal_of(
    alloc: Global,
    line: &str,
    blobs: &[BlobSize<'_>],
) -> Result<Option<Refusal>, ImageErr> {
    let text = index(alloc, line)?;
    refusal(alloc, Some(text.as_bytes()), blobs)
}

// Ends the test unless that is said of the entries of each row.
fn expect_refusals(
    rt: &impl Abort,
    alloc: Global,
    rows: &[(&str, Option<Refusal>)],
) -> Result<(), ImageErr> {
    for (line, want) in rows {
        same_at(rt, *line, refusal_of(alloc, line, THREE_BLOBS)?, *want);
    }
    Ok(())
}

#[test]
fn the_first_refusal_comes(rt: HostRuntime) -> Result<(), ImageErr> {
    expect_refusals(&rt, rt.alloc(), ROWS)
}

// An entry that lacks a member of its type, or has another kind of value there.
const LACKING: &[&str] = &[
    r#"{"type":"dir","path":"/a"}"#,
    r#"{"type":"dir","mode":0}"#,
    r#"{"path":"/a","mode":0}"#,
    r#"{"type":"dir","path":"/a","mode":1.0}"#,
    r#"{"type":"link","path":"/l"}"#,
    r#"{"type":"file","path":"/f","mode":0}"#,
];

// What is said of an index of this entry alone.
fn refusal_of_entry(alloc: Global, entry: &str) -> Result<Option<Refusal>, ImageErr> {
    let text = format!(in alloc; "{{\"version\":1,\"entries\":[{entry}]}}")?;
    refusal(alloc, Some(text.as_bytes()), BLOBS)
}

// Ends the test unless an index of any of these entries is refused.
fn expect_bad(rt: &impl Abort, alloc: Global, entries: &[&str]) -> Result<(), ImageErr> {
    for entry in entries {
        let found = refusal_of_entry(alloc, entry)?;
        same_at(rt, *entry, found, Some(Refusal::BadIndex));
    }
    Ok(())
}

#[test]
fn an_entry_has_the_members_of_its_type(rt: HostRuntime) -> Result<(), ImageErr> {
    let alloc = rt.alloc();
    expect_bad(&rt, alloc, LACKING)?;
    same(&rt, refusal_of_entry(alloc, "")?, None);
    same(&rt, refusal(alloc, None, &[])?, Some(Refusal::NoIndex));
    Ok(())
}

#[test]
fn too_big_comes_before_too_many(rt: HostRuntime) -> Result<(), ImageErr> {
    let small = refusal_of_many(rt.alloc(), 1)?;
    same(&rt, small, Some(Refusal::TooMany));
    let big = refusal_of_many(rt.alloc(), PAST_LIMIT)?;
    same(&rt, big, Some(Refusal::TooBig));
    Ok(())
}

// What is said of one file too many, whose blob has so many bytes.
fn refusal_of_many(alloc: Global, size: usize) -> Result<Option<Refusal>, ImageErr> {
    let text = many(alloc, 4_096)?;
    refusal(alloc, Some(text.as_bytes()), &[("b", size)])
}

// Why a folder has no image, and how many calls of its store failed.
type Ended = (Option<ImageErr>, u64);

// How it ends with a store that gives the index byte by byte, then the sizes of blobs, and fails at that one of the
// calls behind the index.
fn ended(alloc: Global, text: &str, call: u64, blobs: &[BlobSize<'_>]) -> Result<Ended, ImageErr> {
    let mut store = failing(alloc, text, call, blobs)?;
    let error = read_image(alloc, &mut store, "img", None).err();
    Ok((error, store.faults()))
}

fn failing(
    alloc: Global,
    text: &str,
    call: u64,
    blobs: &[BlobSize<'_>],
) -> Result<MemStore, NoMemory> {
    let picker = Picker::new(vec![in alloc; 0; text.len()]?, 1);
    // Before the sizes of blobs it gives that of the index.
    let before = (text.len() as u64).saturating_add(1);
    let fails = vec![in alloc; before.saturating_add(call)]?;
    folder(alloc, picker, fails, Some(text.as_bytes()), blobs)
}

// The same of the entries of a line.
fn ended_line(
    alloc: Global,
    line: &str,
    call: u64,
    blobs: &[BlobSize<'_>],
) -> Result<Ended, ImageErr> {
    let text = index(alloc, line)?;
    ended(alloc, text.as_str(), call, blobs)
}

// The same of one file too many.
fn ended_many(alloc: Global, call: u64) -> Result<Ended, ImageErr> {
    let text = many(alloc, 4_096)?;
    ended(alloc, text.as_str(), call, BLOBS)
}

// A folder that the store has until it fails, and some that are refused before.
const FAILED: Ended = (Some(ImageErr::Store), 1);

const TOO_BIG: Ended = (Some(ImageErr::Refused(Refusal::TooBig)), 0);

const NO_BLOB: Ended = (Some(ImageErr::Refused(Refusal::NoBlob)), 0);

const TOO_MANY: Ended = (Some(ImageErr::Refused(Refusal::TooMany)), 0);

fn expect_ended(rt: &impl Abort, found: Ended, want: Ended) {
    same(rt, found, want);
}

// The store fails at the call after that for the size of the blob.
#[test]
fn a_blob_past_the_limit_is_not_read(rt: HostRuntime) -> Result<(), ImageErr> {
    let (most, more) = ([("a", FIRST_FILE_LIMIT as usize)], [("a", PAST_LIMIT)]);
    let line = "file:/a:420:a";
    expect_ended(&rt, ended_line(rt.alloc(), line, 2, &most)?, FAILED);
    expect_ended(&rt, ended_line(rt.alloc(), line, 2, &more)?, TOO_BIG);
    Ok(())
}

// The store fails at the size of the first blob that is not there, or at the call after that.
#[test]
fn no_blob_is_read_before_all_checks(rt: HostRuntime) -> Result<(), ImageErr> {
    let two = "file:/a:420:a,file:/b:420:none";
    expect_ended(&rt, ended_line(rt.alloc(), two, 2, BLOBS)?, FAILED);
    expect_ended(&rt, ended_line(rt.alloc(), two, 3, BLOBS)?, NO_BLOB);
    expect_ended(&rt, ended_many(rt.alloc(), 4_096)?, FAILED);
    expect_ended(&rt, ended_many(rt.alloc(), 4_097)?, TOO_MANY);
    Ok(())
}
