// The calls of rows, each at a tree that stands over its host.
ghost use Rattle.std.specs.Prelude.{OnOk};
ghost use Rattle.dt_tree.specs.Table.{Stands};

use super::fixture::file_in_root;
use super::row::Found;
use dt_host::{CallErr, HostErr};
use dt_memhost::MemHost;
use dt_tree::{ROOT, Tree};
use dt_walk::{Last, walk};
use std::alloc::Global;

/// A walk from the root.
pub fn go(
    alloc: Global,
    host: &mut MemHost,
    tree: &Tree,
    path: &[u8],
    last: Last,
) -> Result<Found, HostErr>
    requires { Stands tree.now host.old.view.forest }
    ensures { Stands tree.now host.new.view.forest }
{
    match walk(alloc, host, tree, ROOT, path, last) {
        Ok(place) => Ok(Found::Place(place)),
        Err(CallErr::Errno(errno)) => Ok(Found::Refused(errno)),
        Err(CallErr::Host(error)) => Err(error),
    }
}

/// What is told of the node that a path leads to, where a link that is its last name is kept.
pub fn told(alloc: Global, host: &mut MemHost, tree: &Tree, path: &[u8]) -> Result<Found, HostErr>
    requires { Stands tree.now host.old.view.forest }
    ensures { Stands tree.now host.new.view.forest }
{
    match walk(alloc, host, tree, ROOT, path, Last::Keep) {
        Ok(place) => match place.node {
            Some(node) => Ok(Found::Meta(tree.meta(host, node)?)),
            None => Ok(Found::Absent),
        },
        Err(CallErr::Errno(errno)) => Ok(Found::Refused(errno)),
        Err(CallErr::Host(error)) => Err(error),
    }
}

/// What is told of a file in the root.
pub fn told_of_file(host: &mut MemHost, tree: &Tree, name: &[u8]) -> Result<Found, HostErr>
    requires { Stands tree.now host.old.view.forest }
    ensures { OnOk result (Stands tree.now host.new.view.forest) }
{
    let Some(inode) = file_in_root(host, tree, name)? else {
        return Ok(Found::Absent);
    };
    Ok(Found::Meta(tree.meta(host, inode)?))
}

/// The target of a link in the root.
pub fn target_of(host: &mut MemHost, tree: &Tree, name: &[u8]) -> Result<Found, HostErr>
    requires { Stands tree.now host.old.view.forest }
    ensures { Stands tree.now host.new.view.forest }
{
    match tree.find(host, ROOT, name)? {
        Some(node) if tree.is_link(node) => Ok(Found::Text(tree.target(host, node)?)),
        _ => Ok(Found::Absent),
    }
}

/// The path of a directory.
pub fn path_of(host: &mut MemHost, tree: &Tree, dir: u64) -> Result<Found, HostErr>
    requires { Stands tree.now host.old.view.forest }
    ensures { Stands tree.now host.new.view.forest }
{
    if !tree.is_dir(dir) {
        return Ok(Found::Absent);
    }
    match tree.path_of(host, dir)? {
        Some(path) => Ok(Found::Text(path)),
        None => Ok(Found::Absent),
    }
}

/// The directory that `..` names in a directory.
pub fn dot_dot(tree: &Tree, dir: u64) -> Found {
    match tree.dot_dot(dir) {
        Some(above) => Found::Dir(above),
        None => Found::Absent,
    }
}

/// A listing of a directory behind a name, or from its start.
pub fn list(
    host: &mut MemHost,
    tree: &Tree,
    dir: u64,
    last: Option<&[u8]>,
    most: usize,
) -> Result<Found, HostErr>
    requires { Stands tree.now host.old.view.forest }
    ensures { Stands tree.now host.new.view.forest }
{
    if !tree.is_dir(dir) {
        return Ok(Found::Absent);
    }
    let path = tree.path_of(host, dir)?;
    if path.is_none() {
        return Ok(Found::Absent);
    }
    let entries = tree.list_after(host, dir, last, most)?;
    Ok(Found::Entries(entries))
}

/// Writes to a file in the root, at the time 1,000.
pub fn write(
    host: &mut MemHost,
    tree: &mut Tree,
    name: &[u8],
    off: u64,
    bytes: &[u8],
) -> Result<Found, HostErr>
    requires { Stands tree.old host.old.view.forest }
    ensures { OnOk result (Stands tree.new host.new.view.forest) }
{
    let Some(inode) = file_in_root(host, tree, name)? else {
        return Ok(Found::Absent);
    };
    match tree.write_at(host, inode, off, bytes, 1_000) {
        Ok(()) => Ok(Found::Done),
        Err(CallErr::Errno(errno)) => Ok(Found::Refused(errno)),
        Err(CallErr::Host(error)) => Err(error),
    }
}

/// Gives a file in the root another length, at the time 2,000.
pub fn cut(host: &mut MemHost, tree: &mut Tree, name: &[u8], len: u64) -> Result<Found, HostErr>
    requires { Stands tree.old host.old.view.forest }
    ensures { OnOk result (Stands tree.new host.new.view.forest) }
{
    let Some(inode) = file_in_root(host, tree, name)? else {
        return Ok(Found::Absent);
    };
    match tree.cut(host, inode, len, 2_000) {
        Ok(()) => Ok(Found::Done),
        Err(CallErr::Errno(errno)) => Ok(Found::Refused(errno)),
        Err(CallErr::Host(error)) => Err(error),
    }
}
