// Rows of a test, done at a new scene.
ghost use Rattle.std.specs.Prelude.{OnOk};
ghost use Rattle.dt_fds.specs.Backs.{IsBacked, at};

use super::scene::{CHILD, PID, Scene};
use super::step::{Call, Outcome, Query, Row};
use crate::expect::same_at;
use dt_base::abi::{O_APPEND, O_NONBLOCK};
use dt_fds::{Desc, DescKind, Files, Spot};
use dt_host::HostErr;
use std::alloc::Global;
use std::fmt::Debug;
use std::process::Abort;

/// The first row of a test that came to something else than it wants: its index, and what it came to.
pub type Mismatch = (usize, Outcome);

/// Does these rows at a new scene, up to the first that comes to something else than it wants. Gives that one, if there
/// is one, and the numbers that the host gives its next two nodes: the least that no node and no pipe has, as long as it
/// has chosen no more than a thousand times.
pub fn play(alloc: Global, rows: &[Row]) -> Result<(Option<Mismatch>, u64, u64), HostErr> {
    let mut scene = Scene::new(alloc)?;
    play_at(&mut scene, alloc, rows)
}

// The same at this scene.
fn play_at(
    scene: &mut Scene,
    alloc: Global,
    rows: &[Row],
) -> Result<(Option<Mismatch>, u64, u64), HostErr>
    requires { IsBacked (at scene.old.files scene.old.tree scene.old.host.view) }
{
    let mismatch = first_mismatch(scene, alloc, rows)?;
    let (first, second) = (scene.make_node()?, scene.make_node()?);
    Ok((mismatch, first, second))
}

/// Ends the test unless these rows come to what they want at a new scene, whatever numbers the host gives then; says
/// where.
pub fn expect<A: Debug + Drop>(
    rt: &impl Abort,
    alloc: Global,
    place: A,
    rows: &[Row],
) -> Result<(), HostErr> {
    let (mismatch, _, _) = play(alloc, rows)?;
    same_at(rt, place, mismatch, None);
    Ok(())
}

/// What rows show, the rows, and the number that the host gives after them.
pub type Table = (&'static str, &'static [Row], u64);

/// Ends the test unless the rows of each table come to what they want, and the host then gives the number.
pub fn expect_all(rt: &impl Abort, alloc: Global, tables: &[Table]) -> Result<(), HostErr> {
    for (what, rows, number) in tables {
        expect_at(rt, alloc, *what, rows, *number)?;
    }
    Ok(())
}

/// Ends the test unless these rows come to what they want at a new scene, and the host then gives this number; says
/// where.
pub fn expect_at<A: Debug + Drop>(
    rt: &impl Abort,
    alloc: Global,
    place: A,
    rows: &[Row],
    number: u64,
) -> Result<(), HostErr> {
    let (mismatch, first, _) = play(alloc, rows)?;
    same_at(rt, place, (mismatch, first), (None, number));
    Ok(())
}

// Does these rows, up to the first that comes to something else than it wants.
fn first_mismatch(
    scene: &mut Scene,
    alloc: Global,
    rows: &[Row],
) -> Result<Option<Mismatch>, HostErr>
    requires { IsBacked (at scene.old.files scene.old.tree scene.old.host.view) }
{
    for (index, row) in rows.iter().enumerate() {
        if let Some(found) = otherwise(scene, alloc, *row)? {
            return Ok(Some((index, found)));
        }
    }
    Ok(None)
}

// Does a row; what it comes to, if that is something else than it wants.
fn otherwise(scene: &mut Scene, alloc: Global, row: Row) -> Result<Option<Outcome>, HostErr>
    requires { IsBacked (at scene.old.files scene.old.tree scene.old.host.view) }
    ensures { OnOk result (IsBacked (at scene.new.files scene.new.tree scene.new.host.view)) }
{
    let found = found_by(scene, alloc, row)?;
    Ok(unlike(found, wanted_by(row)))
}

// What a row comes to.
fn found_by(scene: &mut Scene, alloc: Global, row: Row) -> Result<Outcome, HostErr>
    requires { IsBacked (at scene.old.files scene.old.tree scene.old.host.view) }
    ensures { OnOk result (IsBacked (at scene.new.files scene.new.tree scene.new.host.view)) }
{
    match row {
        Row::Do(call, _) => make(scene, alloc, PID, call),
        Row::DoInChild(call, _) => make(scene, alloc, CHILD, call),
        Row::Check(query, _) => Ok(answer(scene, PID, query)),
        Row::CheckInChild(query, _) => Ok(answer(scene, CHILD, query)),
    }
}

// What it is to come to.
fn wanted_by(row: Row) -> Outcome {
    match row {
        Row::Do(_, want)
        | Row::DoInChild(_, want)
        | Row::Check(_, want)
        | Row::CheckInChild(_, want) => want,
    }
}

// What a row comes to, if that is something else than it wants. A row that misuses a call never gets what it wants.
fn unlike(found: Outcome, want: Outcome) -> Option<Outcome> {
    if found == want && found != Outcome::Misused {
        None
    } else {
        Some(found)
    }
}

// Makes a call of the process with a pid.
fn make(scene: &mut Scene, alloc: Global, pid: u32, call: Call) -> Result<Outcome, HostErr>
    requires { IsBacked (at scene.old.files scene.old.tree scene.old.host.view) }
    ensures { OnOk result (IsBacked (at scene.new.files scene.new.tree scene.new.host.view)) }
{
    match call {
        Call::OpenInput => scene.add(pid, DescKind::Input),
        Call::Fill => scene.fill(pid),
        Call::Open(name) => scene.open(pid, name),
        Call::Unlink(name) => scene.unlink(name),
        Call::Close(fd) => scene.close(pid, fd),
        Call::CloseEach(fds) => scene.close_each(pid, fds),
        Call::Dup { fd, from } => scene.dup(pid, fd, from, false),
        Call::DupCloexec { fd, from } => scene.dup(pid, fd, from, true),
        Call::Dup3 { old, new } => scene.dup3(pid, old, new),
        Call::Fork => scene.fork(pid),
        Call::Exec => scene.exec(pid),
        Call::Exit => scene.exit(pid),
        Call::Seek { fd, offset } => scene.seek(pid, fd, offset),
        Call::SetFlags(fd, flags) => scene.set_flags(pid, fd, flags),
        Call::SetCloexec(fd, cloexec) => scene.set_cloexec(pid, fd, cloexec),
        Call::Pipe(flags) => scene.pipe(pid, flags),
        Call::Read(fd, before, after) => scene.read_into(alloc, pid, fd, before, after),
        Call::Write(fd, bytes) => scene.write(pid, fd, bytes, 0),
        Call::WriteRest { fd, bytes, done } => scene.write(pid, fd, bytes, done),
        Call::WriteLong { fd, count, done } => scene.write_long(alloc, pid, fd, count, done),
        Call::ReadLong { fd, from } => scene.read_long(alloc, pid, fd, from),
        Call::Stat(fd) => scene.stat(pid, fd),
    }
}

// What is asked of the process with a pid.
fn answer(scene: &Scene, pid: u32, query: Query) -> Outcome
    requires { IsBacked (at scene.now.files scene.now.tree scene.now.host.view) }
{
    match query {
        Query::DescriptionOf(fd) => description(&scene.files, pid, fd),
        Query::OffsetOf(fd) => offset(&scene.files, pid, fd),
        Query::FlagsOf(fd) => flags(&scene.files, pid, fd),
        Query::CloexecOf(fd) => cloexec(&scene.files, pid, fd),
        Query::IsFull => Outcome::Bool(scene.files.is_full(pid)),
        Query::TwoFree => two_free(&scene.files, pid),
        Query::Held(fd) => Outcome::Count(scene.held(pid, fd)),
        Query::IsDir(inode) => Outcome::Bool(scene.tree.is_dir(inode)),
    }
}

// What a description is of, and its access mode; none where the descriptor is not open.
fn description(files: &Files, pid: u32, fd: u32) -> Outcome {
    match files.look(pid, fd) {
        Some(desc) => Outcome::Description(desc.kind, desc.access),
        None => Outcome::Absent,
    }
}

// The offset of a descriptor; none where it is not open, or is of a directory.
fn offset(files: &Files, pid: u32, fd: u32) -> Outcome {
    match files.look(pid, fd) {
        Some(desc) => match &desc.spot {
            Spot::At(offset) => Outcome::Offset(*offset),
            Spot::After(_) => Outcome::Absent,
        },
        None => Outcome::Absent,
    }
}

// The flags of a description; none where the descriptor is not open.
fn flags(files: &Files, pid: u32, fd: u32) -> Outcome {
    match files.look(pid, fd) {
        Some(desc) => Outcome::StatusFlags(status_flags(desc)),
        None => Outcome::Absent,
    }
}

fn status_flags(desc: &Desc) -> u32 {
    let append = if desc.append { O_APPEND } else { 0 };
    let nonblock = if desc.nonblock { O_NONBLOCK } else { 0 };
    append | nonblock
}

// The close-on-exec bit; none where the descriptor is not open.
fn cloexec(files: &Files, pid: u32, fd: u32) -> Outcome {
    match files.is_cloexec(pid, fd) {
        Some(cloexec) => Outcome::Bool(cloexec),
        None => Outcome::Absent,
    }
}

// The two lowest free descriptors; none where fewer are free.
fn two_free(files: &Files, pid: u32) -> Outcome {
    match files.two_free(pid) {
        Some((first, second)) => Outcome::Ends(first, second),
        None => Outcome::Absent,
    }
}
