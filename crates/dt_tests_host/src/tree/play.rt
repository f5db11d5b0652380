// Rows of a test, played at a new tree.
ghost use Rattle.std.specs.Prelude.{OnOk};
ghost use Rattle.dt_tree.specs.Table.{Stands};

use super::calls::{cut, dot_dot, go, list, path_of, target_of, told, told_of_file, write};
use super::fixture::{host, load};
use super::held::held;
use super::names::{add_other, drop_node, make_new, move_away};
use super::row::{Call, Found, Row, is_met};
use crate::expect::same_at;
use dt_host::HostErr;
use dt_memhost::MemHost;
use dt_tree::Tree;
use std::alloc::Global;
use std::process::Abort;

/// What rows show, the stream that the host chooses by, and the rows.
pub type Table<'a> = (&'a str, u64, &'a [Row<'a>]);

/// Ends the test unless the rows of each table come to what they want.
pub fn expect_all(rt: &impl Abort, alloc: Global, tables: &[Table<'_>]) -> Result<(), HostErr> {
    for (what, stream, rows) in tables {
        expect(rt, alloc, what, *stream, rows)?;
    }
    Ok(())
}

/// Ends the test unless these rows come to what they want, over a host that chooses by the stream of a number; says
/// what they show.
pub fn expect(
    rt: &impl Abort,
    alloc: Global,
    what: &str,
    stream: u64,
    rows: &[Row],
) -> Result<(), HostErr> {
    let mismatch = play(alloc, stream, rows)?;
    let is_met = mismatch.is_none();
    same_at(rt, (what, stream, mismatch), is_met, true);
    Ok(())
}

// Plays rows at the tree of the image, up to the first that comes to something else: its index, and what it came to.
fn play(alloc: Global, stream: u64, rows: &[Row]) -> Result<Option<(usize, Found)>, HostErr> {
    let mut host = host(alloc, stream, 0)?;
    let mut tree = load(alloc, &mut host)?;
    for (index, row) in rows.iter().enumerate() {
        let found = found_by(alloc, &mut host, &mut tree, row.0)?;
        if !is_met(&row.1, &found) {
            return Ok(Some((index, found)));
        }
    }
    Ok(None)
}

// Makes a call.
fn found_by(
    alloc: Global,
    host: &mut MemHost,
    tree: &mut Tree,
    call: Call,
) -> Result<Found, HostErr>
    requires { Stands tree.old host.old.view.forest }
    ensures { OnOk result (Stands tree.new host.new.view.forest) }
{
    match call {
        Call::Walk(path, last) => go(alloc, host, tree, path, last),
        Call::Tell(path) => told(alloc, host, tree, path),
        Call::TellFile(name) => told_of_file(host, tree, name),
        Call::Target(name) => target_of(host, tree, name),
        Call::PathOf(dir) => path_of(host, tree, dir),
        Call::DotDot(dir) => Ok(dot_dot(tree, dir)),
        Call::List(dir, last, most) => list(host, tree, dir, last, most),
        Call::Write(name, off, bytes) => write(host, tree, name, off, bytes),
        Call::Cut(name, len) => cut(host, tree, name, len),
        Call::Make(node) => make_new(alloc, host, tree, node),
        Call::Link(name) => add_other(host, tree, name),
        Call::Move(name) => move_away(host, tree, name),
        Call::Drop(name) => drop_node(host, tree, name),
        Call::Held(names) => held(alloc, host, tree, names),
    }
}
