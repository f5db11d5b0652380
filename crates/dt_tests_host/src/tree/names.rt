// The calls of rows that change the names in the root, each at a tree that stands over its host.
ghost use Rattle.std.specs.Prelude.{◌≡◌, Some, OnOk, IfOk, IfSome, IsTrue};
ghost use Rattle.dt_base.specs.Image.{is_good_what};
ghost use Rattle.dt_host.specs.World.{IsFile, entry};
ghost use Rattle.dt_tree.specs.declared.limits.TheConstants.{ROOT};
ghost use Rattle.dt_tree.specs.Table.{Stands, shape_of};

use super::fixture::file_in_root;
use super::row::{Found, NewNode};
use dt_base::{Blob, NoMemory, What, file_limit};
use dt_host::{CallErr, HostErr};
use dt_memhost::MemHost;
use dt_tree::{ROOT, Tree};
use std::alloc::Global;

// A node to be made in a tree of that version, and its mode; None for a file that is too big.
fn what_of(alloc: Global, version: u64, node: NewNode) -> Result<Option<(What, u32)>, NoMemory>
    ensures { IfOk result (λ found. IfSome found (λ made. IsTrue (is_good_what version made.0 made.1))) }
{
    let (what, mode) = match node {
        NewNode::File(bytes) if bytes.len() as u64 > file_limit(version) => return Ok(None),
        NewNode::File(bytes) => (What::File(Blob::new(Vec::from_slice(alloc, bytes)?)), 0o644),
        NewNode::Dir => (What::Dir, 0o755),
        NewNode::Link => (
            What::Link(Blob::new(Vec::from_slice(alloc, b"hello")?)),
            0o777,
        ),
    };
    Ok(Some((what, mode)))
}

/// Makes a node in the root, under the name `new`, at the time 3,000.
pub fn make_new(
    alloc: Global,
    host: &mut MemHost,
    tree: &mut Tree,
    node: NewNode,
) -> Result<Found, HostErr>
    requires { Stands tree.old host.old.view.forest }
    ensures { OnOk result (Stands tree.new host.new.view.forest) }
{
    match what_of(alloc, tree.version(), node)? {
        Some((what, mode)) => make_of(host, tree, &what, mode),
        None => Ok(Found::Absent),
    }
}

// The same of what is good for an image.
fn make_of(host: &mut MemHost, tree: &mut Tree, what: &What, mode: u32) -> Result<Found, HostErr>
    requires stands { Stands tree.old host.old.view.forest }
    requires good { IsTrue (is_good_what tree.old.version what.now mode) }
    ensures { OnOk result (Stands tree.new host.new.view.forest) }
{
    if tree.find(host, ROOT, b"new")?.is_some() {
        return Ok(Found::Absent);
    }
    match tree.make_node(host, ROOT, b"new", what, mode, 3_000) {
        Ok(_) => Ok(Found::Done),
        Err(CallErr::Errno(errno)) => Ok(Found::Refused(errno)),
        Err(CallErr::Host(error)) => Err(error),
    }
}

/// Gives a file in the root a second name there, `other`, at the time 4,000.
pub fn add_other(host: &mut MemHost, tree: &mut Tree, name: &[u8]) -> Result<Found, HostErr>
    requires { Stands tree.old host.old.view.forest }
    ensures { OnOk result (Stands tree.new host.new.view.forest) }
{
    let Some(inode) = file_in_root(host, tree, name)? else {
        return Ok(Found::Absent);
    };
    if tree.find(host, ROOT, b"other")?.is_some() {
        return Ok(Found::Absent);
    }
    match tree.add_name(host, ROOT, b"other", inode, 4_000) {
        Ok(()) => Ok(Found::Done),
        Err(CallErr::Errno(errno)) => Ok(Found::Refused(errno)),
        Err(CallErr::Host(error)) => Err(error),
    }
}

/// Gives a file in the root the name `moved` there, at the time 5,000.
pub fn move_away(host: &mut MemHost, tree: &mut Tree, name: &[u8]) -> Result<Found, HostErr>
    requires { Stands tree.old host.old.view.forest }
    ensures { OnOk result (Stands tree.new host.new.view.forest) }
{
    let Some(_) = file_in_root(host, tree, name)? else {
        return Ok(Found::Absent);
    };
    if tree.find(host, ROOT, b"moved")?.is_some() {
        return Ok(Found::Absent);
    }
    match tree.move_name(host, ROOT, name, ROOT, b"moved", 5_000) {
        Ok(()) => Ok(Found::Done),
        Err(CallErr::Errno(errno)) => Ok(Found::Refused(errno)),
        Err(CallErr::Host(error)) => Err(error),
    }
}

/// Takes a name in the root away, unless it is that of a directory with entries, at the time 6,000.
pub fn drop_node(host: &mut MemHost, tree: &mut Tree, name: &[u8]) -> Result<Found, HostErr>
    requires { Stands tree.old host.old.view.forest }
    ensures { OnOk result (Stands tree.new host.new.view.forest) }
{
    let Some(inode) = tree.find(host, ROOT, name)? else {
        return Ok(Found::Absent);
    };
    if tree.is_dir(inode) && !tree.is_bare(host, inode)? {
        return Ok(Found::Absent);
    }
    match tree.drop_name(host, ROOT, name, 6_000) {
        Ok(()) => Ok(Found::Done),
        Err(CallErr::Errno(errno)) => Ok(Found::Refused(errno)),
        Err(CallErr::Host(error)) => Err(error),
    }
}
