// What the host itself holds, read by its own calls from its root: the image once it is installed, and each change as
// soon as it is made.
ghost use Rattle.std.specs.Prelude.{◌≡◌, Some, IfOk, IfSome};
ghost use Rattle.dt_host.specs.World.{IsDir, IsFile, IsLink, IsLive};
ghost use Rattle.dt_tree.specs.declared.limits.TheConstants.{ROOT};
ghost use Rattle.dt_tree.specs.Table.{Stands, real_of, shape_of};

use super::play::{Table, expect_all};
use super::row::Call::{Cut, Drop, Held, Link, Make, Move, Write};
use super::row::Outcome::{Done, Text};
use super::row::{Found, NewNode, Row};
use dt_base::Blob;
use dt_host::{Host, HostEntry, HostErr, read_whole, sorted_names};
use dt_memhost::MemHost;
use dt_tree::{ROOT, Tree};
use std::alloc::{AllocError, Global};

// A directory of the host: the names of its entries.
fn dir_text(alloc: Global, host: &mut MemHost, real: u64) -> Result<Vec<u8>, HostErr>
    requires { IsDir host.old.view.forest real }
    ensures { host.new.view ≡ host.old.view }
{
    let entries = sorted_names(host, real)?;
    let mut text = Vec::from_slice(alloc, b"dir")?;
    add_names(&mut text, &entries)?;
    Ok(text)
}

// Adds the names of entries, each behind a blank.
fn add_names(text: &mut Vec<u8>, entries: &[HostEntry]) -> Result<(), AllocError> {
    for entry in entries {
        text.push(b' ')?;
        text.extend_from_slice(entry.name.as_slice())?;
    }
    Ok(())
}

// A link of the host: its target.
fn link_text(alloc: Global, host: &mut MemHost, real: u64) -> Result<Vec<u8>, HostErr>
    requires { IsLink host.old.view.forest real }
    ensures { host.new.view ≡ host.old.view }
{
    let target = host.target(real)?;
    let mut text = Vec::from_slice(alloc, b"link ")?;
    text.extend_from_slice(target.as_slice())?;
    Ok(text)
}

// A file of the host: its first bytes.
fn file_text(alloc: Global, host: &mut MemHost, real: u64) -> Result<Vec<u8>, HostErr>
    requires { IsFile host.old.view.forest real }
    ensures { host.new.view ≡ host.old.view }
{
    let mut bytes = [0; 16];
    let count = read_whole(host, real, 0, &mut bytes)?;
    let mut text = Vec::from_slice(alloc, b"file ")?;
    text.extend_from_slice(&bytes[..count])?;
    Ok(text)
}

// What the host holds under a number, of a device nothing. The inode that it has in the tree tells what kind of node it is.
fn text_of(
    alloc: Global,
    host: &mut MemHost,
    tree: &Tree,
    inode: u64,
    real: u64,
) -> Result<Vec<u8>, HostErr>
    requires stands { Stands tree.now host.old.view.forest }
    requires live { IsLive (shape_of tree.now host.old.view.forest) inode }
    requires number { real_of tree.now inode ≡ Some real }
    ensures { host.new.view ≡ host.old.view }
{
    if tree.is_dir(inode) {
        dir_text(alloc, host, real)
    } else if tree.is_link(inode) {
        link_text(alloc, host, real)
    } else if tree.device(inode).is_some() {
        Ok(Vec::new(alloc))
    } else {
        file_text(alloc, host, real)
    }
}

// The host's number of the root.
fn root_of(host: &mut MemHost, tree: &Tree) -> Result<u64, HostErr>
    requires { Stands tree.now host.old.view.forest }
    ensures stands { Stands tree.now host.new.view.forest }
    ensures number { IfOk result (λ real. real_of tree.now ROOT ≡ Some real) }
{
    host.root()
}

// The inode and the host's number that a name has in a directory.
fn entry_of(
    host: &mut MemHost,
    tree: &Tree,
    dir: u64,
    real: u64,
    name: &[u8],
) -> Result<Option<(u64, u64)>, HostErr>
    requires stands { Stands tree.now host.old.view.forest }
    requires directory { IsDir (shape_of tree.now host.old.view.forest) dir }
    requires number { real_of tree.now dir ≡ Some real }
    ensures stands { Stands tree.now host.new.view.forest }
    ensures live { IfOk result (λ found. IfSome found
        (λ at. IsLive (shape_of tree.now host.new.view.forest) at.0)) }
    ensures number { IfOk result (λ found. IfSome found (λ at. real_of tree.now at.0 ≡ Some at.1)) }
{
    let Some(inode) = tree.find(host, dir, name)? else {
        return Ok(None);
    };
    match host.find(real, name)? {
        Some(real) => Ok(Some((inode, real))),
        None => Ok(None),
    }
}

/// What the host holds where names lead to from its root.
pub fn held(
    alloc: Global,
    host: &mut MemHost,
    tree: &Tree,
    names: &[&str],
) -> Result<Found, HostErr>
    requires { Stands tree.now host.old.view.forest }
    ensures { Stands tree.now host.new.view.forest }
{
    let mut inode = ROOT;
    let mut real = root_of(host, tree)?;
    for name in names {
        if !tree.is_dir(inode) {
            return Ok(Found::Absent);
        }
        match entry_of(host, tree, inode, real, name.as_bytes())? {
            Some(at) => {
                inode = at.0;
                real = at.1;
            }
            None => return Ok(Found::Absent),
        }
    }
    let text = text_of(alloc, host, tree, inode, real)?;
    Ok(Found::Text(Blob::new(text)))
}

const IMAGE: &[Row] = &[
    Row(Held(&[]), Text(b"dir d hello l m s t")),
    Row(Held(&["d"]), Text(b"dir f up")),
    Row(Held(&["d", "f"]), Text(b"file deep")),
    Row(Held(&["d", "up"]), Text(b"link ..")),
    Row(Held(&["hello"]), Text(b"file hello")),
    Row(Held(&["l"]), Text(b"link hello")),
    Row(Held(&["m"]), Text(b"link /m")),
    Row(Held(&["s"]), Text(b"link //")),
    Row(Held(&["t"]), Text(b"link d/")),
];

const CHANGES: &[Row] = &[
    Row(Write(b"hello", 1, b"EL"), Done),
    Row(Held(&["hello"]), Text(b"file hELlo")),
    Row(Write(b"hello", 7, b"!"), Done),
    Row(Held(&["hello"]), Text(b"file hELlo\0\0!")),
    Row(Cut(b"hello", 2), Done),
    Row(Held(&["hello"]), Text(b"file hE")),
    Row(Cut(b"hello", 4), Done),
    Row(Held(&["hello"]), Text(b"file hE\0\0")),
    Row(Make(NewNode::File(b"made")), Done),
    Row(Held(&["new"]), Text(b"file made")),
    Row(Held(&[]), Text(b"dir d hello l m new s t")),
    Row(Link(b"new"), Done),
    Row(Held(&["other"]), Text(b"file made")),
    Row(Write(b"other", 0, b"MA"), Done),
    Row(Held(&["new"]), Text(b"file MAde")),
    Row(Drop(b"new"), Done),
    Row(Held(&[]), Text(b"dir d hello l m other s t")),
    Row(Move(b"other"), Done),
    Row(Held(&[]), Text(b"dir d hello l m moved s t")),
    Row(Held(&["moved"]), Text(b"file MAde")),
    Row(Drop(b"hello"), Done),
    Row(Held(&[]), Text(b"dir d l m moved s t")),
    Row(Make(NewNode::Dir), Done),
    Row(Held(&["new"]), Text(b"dir")),
    Row(Held(&[]), Text(b"dir d l m moved new s t")),
    Row(Drop(b"new"), Done),
    Row(Held(&[]), Text(b"dir d l m moved s t")),
    Row(Make(NewNode::Link), Done),
    Row(Held(&["new"]), Text(b"link hello")),
    Row(Held(&[]), Text(b"dir d l m moved new s t")),
    Row(Drop(b"l"), Done),
    Row(Held(&[]), Text(b"dir d m moved new s t")),
];

const TABLES: &[Table<'static>] = &[
    ("an image once it is installed", 1, IMAGE),
    ("an image once it is installed", 2, IMAGE),
    ("an image once it is installed", 3, IMAGE),
    ("changes", 1, CHANGES),
    ("changes", 2, CHANGES),
    ("changes", 3, CHANGES),
];

// A tree that keeps files in a map of its own, and brings them to the host at the end of a run, fails here.
#[test]
fn the_host_holds_an_image_and_each_change_right_after_it(rt: HostRuntime) -> Result<(), HostErr> {
    expect_all(&rt, rt.alloc(), TABLES)
}
