// Changes of a tree, and the limit of a file.
ghost use Rattle.std.specs.Prelude.{OnOk, IsTrue};
ghost use Rattle.dt_tree.specs.FileTree.{is_entry_name};
ghost use Rattle.dt_tree.specs.Table.{Stands};

use super::fixture::{host, load};
use super::play::expect;
use super::row::Call::{Cut, TellFile, Write};
use super::row::Outcome::{Done, Refused, Sized};
use super::row::Row;
use crate::expect::same;
use dt_base::{Errno, What};
use dt_host::{CallErr, HostErr};
use dt_memhost::MemHost;
use dt_tree::{ROOT, Tree};

// Makes a directory in the root: its inode. EEXIST where the name is there.
fn make(host: &mut MemHost, tree: &mut Tree, name: &[u8]) -> Result<Result<u64, Errno>, HostErr>
    requires stands { Stands tree.old host.old.view.forest }
    requires good { IsTrue (is_entry_name name.now) }
    ensures { OnOk result (Stands tree.new host.new.view.forest) }
{
    if tree.find(host, ROOT, name)?.is_some() {
        return Ok(Err(Errno::Exist));
    }
    match tree.make_node(host, ROOT, name, &What::Dir, 0o755, 3_000) {
        Ok(inode) => Ok(Ok(inode)),
        Err(CallErr::Errno(errno)) => Ok(Err(errno)),
        Err(CallErr::Host(error)) => Err(error),
    }
}

const FILE: &[u8] = b"hello";

const LENGTHS: &[Row] = &[
    Row(Write(FILE, 16_777_216, b"x"), Refused(Errno::FBig)),
    Row(Write(FILE, 16_777_215, b"xy"), Refused(Errno::FBig)),
    Row(Write(FILE, u64::MAX, b"x"), Refused(Errno::FBig)),
    Row(Cut(FILE, 16_777_217), Refused(Errno::FBig)),
    Row(TellFile(FILE), Sized(5, 0)),
    Row(Write(FILE, 16_777_215, b"x"), Done),
    Row(TellFile(FILE), Sized(16_777_216, 1_000)),
    Row(Cut(FILE, 3), Done),
    Row(TellFile(FILE), Sized(3, 2_000)),
    Row(Cut(FILE, 16_777_216), Done),
    Row(TellFile(FILE), Sized(16_777_216, 2_000)),
];

#[test]
fn a_file_has_16777216_bytes_at_most(rt: HostRuntime) -> Result<(), HostErr> {
    expect(&rt, rt.alloc(), "lengths of a file", 1, LENGTHS)
}

// What it comes to that `new` is made, made again, and then `d`.
type Made = (Result<u64, Errno>, Result<u64, Errno>, Result<u64, Errno>);

fn made(host: &mut MemHost, tree: &mut Tree) -> Result<Made, HostErr>
    requires { Stands tree.old host.old.view.forest }
{
    let new = make(host, tree, b"new")?;
    let again = make(host, tree, b"new")?;
    let there = make(host, tree, b"d")?;
    Ok((new, again, there))
}

#[test]
fn a_directory_is_made_once(rt: HostRuntime) -> Result<(), HostErr> {
    let mut host = host(rt.alloc(), 2, 0)?;
    let mut tree = load(rt.alloc(), &mut host)?;
    let exists = Err(Errno::Exist);
    same(&rt, made(&mut host, &mut tree)?, (Ok(10), exists, exists));
    Ok(())
}
