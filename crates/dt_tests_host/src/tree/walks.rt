// Where paths lead, and how they are refused.
use super::play::{Table, expect, expect_all};
use super::row::Call::Walk;
use super::row::Outcome::{self, Leads, Refused};
use super::row::Row;
use dt_base::{Blob, Errno};
use dt_host::HostErr;
use dt_walk::Last::{Follow, Keep};
use std::alloc::{AllocError, Global};
use std::process::Abort;

// A path: how it starts, a text that comes so many times then, and how it ends.
type Long = (&'static [u8], &'static [u8], usize, &'static [u8]);

fn path_of(alloc: Global, long: Long) -> Result<Blob, HostErr> {
    let (start, text, times, end) = long;
    let mut path = Vec::from_slice(alloc, start)?;
    repeat(&mut path, text, times)?;
    path.extend_from_slice(end)?;
    Ok(Blob::new(path))
}

// Adds a text so many times.
fn repeat(path: &mut Vec<u8>, text: &[u8], times: usize) -> Result<(), AllocError> {
    for _ in 0..times {
        path.extend_from_slice(text)?;
    }
    Ok(())
}

// Ends the test unless a walk on this path, where a link that is its last name is kept, comes to that.
fn expect_walk(
    rt: &impl Abort,
    alloc: Global,
    what: &str,
    stream: u64,
    long: Long,
    outcome: Outcome<'_>,
) -> Result<(), HostErr> {
    let path = path_of(alloc, long)?;
    let rows = [Row(Walk(path.as_slice(), Keep), outcome)];
    expect(rt, alloc, what, stream, &rows)
}

const PLACES: &[Row] = &[
    Row(Walk(b"/hello", Follow), Leads(1, b"hello", Some(5), false)),
    Row(Walk(b"//d///f", Keep), Leads(2, b"f", Some(3), false)),
    Row(Walk(b"/d/", Keep), Leads(1, b"d", Some(2), true)),
    Row(Walk(b"/d/.", Follow), Leads(2, b".", Some(2), false)),
    Row(Walk(b"/d/..", Follow), Leads(2, b"..", Some(1), false)),
    Row(Walk(b"/../..", Follow), Leads(1, b"..", Some(1), false)),
    Row(Walk(b"/", Follow), Leads(1, b"", Some(1), true)),
    Row(Walk(b"", Keep), Leads(1, b"", Some(1), false)),
    Row(Walk(b"/d/no", Follow), Leads(2, b"no", None, false)),
    Row(Walk(b"/no/", Keep), Leads(1, b"no", None, true)),
];

const LINKS: &[Row] = &[
    Row(Walk(b"/l", Follow), Leads(1, b"hello", Some(5), false)),
    Row(Walk(b"/l", Keep), Leads(1, b"l", Some(6), false)),
    Row(Walk(b"/m", Keep), Leads(1, b"m", Some(7), false)),
    Row(Walk(b"/s", Follow), Leads(1, b"", Some(1), true)),
    Row(Walk(b"/s/d/f", Keep), Leads(2, b"f", Some(3), false)),
    Row(Walk(b"/t", Follow), Leads(1, b"d", Some(2), true)),
    Row(Walk(b"/t/f", Follow), Leads(2, b"f", Some(3), false)),
    Row(
        Walk(b"/d/up/hello", Keep),
        Leads(1, b"hello", Some(5), false),
    ),
];

const REFUSALS: &[Row] = &[
    Row(Walk(b"/hello/", Follow), Refused(Errno::NotDir)),
    Row(Walk(b"/hello/x", Follow), Refused(Errno::NotDir)),
    Row(Walk(b"/hello/.", Keep), Refused(Errno::NotDir)),
    Row(Walk(b"/../l/.", Follow), Refused(Errno::NotDir)),
    Row(Walk(b"/l/", Keep), Refused(Errno::NotDir)),
    Row(Walk(b"/s/", Keep), Refused(Errno::NotDir)),
    Row(Walk(b"/l/", Follow), Refused(Errno::NotDir)),
    Row(Walk(b"/no/x", Follow), Refused(Errno::NoEnt)),
    Row(Walk(b"/m", Follow), Refused(Errno::Loop)),
    Row(Walk(b"/m/x", Keep), Refused(Errno::Loop)),
];

const TABLES: &[Table<'static>] = &[
    ("paths lead to places", 1, PLACES),
    ("links are followed or kept", 2, LINKS),
    ("refusals come in their order", 3, REFUSALS),
];

#[test]
fn paths_lead_to_places_or_are_refused(rt: HostRuntime) -> Result<(), HostErr> {
    expect_all(&rt, rt.alloc(), TABLES)
}

#[test]
fn forty_links_are_followed(rt: HostRuntime) -> Result<(), HostErr> {
    let what = "forty links are followed";
    let most: Long = (b"", b"/d/up", 40, b"/hello");
    let file = Leads(1, b"hello", Some(5), false);
    expect_walk(&rt, rt.alloc(), what, 4, most, file)?;
    let more: Long = (b"", b"/d/up", 41, b"/hello");
    expect_walk(&rt, rt.alloc(), what, 4, more, Refused(Errno::Loop))
}

#[test]
fn names_end_at_255_bytes(rt: HostRuntime) -> Result<(), HostErr> {
    let what = "names end at 255 bytes";
    let most: Long = (b"", b"a", 255, b"");
    let name = path_of(rt.alloc(), most)?;
    let new = Leads(1, name.as_slice(), None, false);
    expect_walk(&rt, rt.alloc(), what, 5, most, new)?;
    let more: Long = (b"", b"a", 256, b"");
    expect_walk(&rt, rt.alloc(), what, 5, more, Refused(Errno::NameTooLong))?;
    let in_file: Long = (b"/hello/", b"a", 256, b"");
    expect_walk(&rt, rt.alloc(), what, 5, in_file, Refused(Errno::NotDir))
}

#[test]
fn a_path_of_4095_bytes_is_walked(rt: HostRuntime) -> Result<(), HostErr> {
    let what = "a path of 4095 bytes is walked";
    let path: Long = (b"", b"/", 4_090, b"hello");
    let file = Leads(1, b"hello", Some(5), false);
    expect_walk(&rt, rt.alloc(), what, 6, path, file)
}
