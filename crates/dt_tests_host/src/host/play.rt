// Rows of a test, done at a new scene.
ghost use Rattle.dt_tests_host.specs.Subject.{IsOf};

use super::scene::{At, Scene, Script};
use super::step::{Outcome, Query, Row};
use crate::expect::same_at;
use dt_host::{Host, HostErr};
use std::alloc::Global;
use std::fmt::Debug;
use std::process::Abort;

/// What rows show, what they are about, what the host goes by, and the rows.
pub type Table = (&'static str, At, Script<'static>, &'static [Row]);

/// Ends the test unless the rows of each table come to what they want.
pub fn expect_all(rt: &impl Abort, alloc: Global, tables: &[Table]) -> Result<(), HostErr> {
    for (what, at, script, rows) in tables {
        expect(rt, alloc, *what, *at, script, rows)?;
    }
    Ok(())
}

/// Ends the test unless these rows come to what they want at a new scene; says where.
pub fn expect<A: Debug + Drop>(
    rt: &impl Abort,
    alloc: Global,
    place: A,
    at: At,
    script: &Script<'_>,
    rows: &[Row],
) -> Result<(), HostErr> {
    same_at(rt, place, play(alloc, at, script, rows)?, None);
    Ok(())
}

// Does these rows at a new scene: the first that comes to something else than it wants.
fn play(
    alloc: Global,
    at: At,
    script: &Script<'_>,
    rows: &[Row],
) -> Result<Option<(usize, Outcome)>, HostErr> {
    let mut scene = Scene::new(alloc, at, script)?;
    first_mismatch(&mut scene, alloc, rows)
}

// Does these rows, up to the first that comes to something else than it wants: its index, and what it came to.
fn first_mismatch(
    scene: &mut Scene,
    alloc: Global,
    rows: &[Row],
) -> Result<Option<(usize, Outcome)>, HostErr>
    requires { IsOf scene.old.host.view scene.old.kind scene.old.number scene.old.most }
{
    for (index, row) in rows.iter().enumerate() {
        if let Some(found) = otherwise(scene, alloc, *row)? {
            return Ok(Some((index, found)));
        }
    }
    Ok(None)
}

// Does a row; what it comes to, if that is something else than it wants.
fn otherwise(scene: &mut Scene, alloc: Global, row: Row) -> Result<Option<Outcome>, HostErr>
    requires { IsOf scene.old.host.view scene.old.kind scene.old.number scene.old.most }
    ensures { IsOf scene.new.host.view scene.new.kind scene.new.number scene.new.most }
{
    let found = found_by(scene, alloc, row)?;
    Ok(unlike(found, wanted_by(row)))
}

// What a row comes to.
fn found_by(scene: &mut Scene, alloc: Global, row: Row) -> Result<Outcome, HostErr>
    requires { IsOf scene.old.host.view scene.old.kind scene.old.number scene.old.most }
    ensures { IsOf scene.new.host.view scene.new.kind scene.new.number scene.new.most }
{
    match row {
        Row::Ask(call, _) => scene.ask(alloc, call),
        Row::InDir(call, _) => scene.in_dir(call),
        Row::InFile(call, _) => scene.in_file(alloc, call),
        Row::InPipe(call, _) => scene.in_pipe(alloc, call),
        Row::Check(query, _) => Ok(looked_up(scene, query)),
    }
}

// What it is to come to.
fn wanted_by(row: Row) -> Outcome {
    match row {
        Row::Ask(_, want)
        | Row::InDir(_, want)
        | Row::InFile(_, want)
        | Row::InPipe(_, want)
        | Row::Check(_, want) => want,
    }
}

// What a row comes to, if that is something else than it wants. A row that misuses a call never gets what it wants.
fn unlike(found: Outcome, want: Outcome) -> Option<Outcome> {
    if found == want && found != Outcome::Misused {
        None
    } else {
        Some(found)
    }
}

fn looked_up(scene: &Scene, query: Query) -> Outcome {
    match query {
        Query::Number => Outcome::Number(scene.number),
        Query::Faults => Outcome::Number(scene.host.faults()),
    }
}
