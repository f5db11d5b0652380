// Each call of the host fails in turn, while a tree is installed and while it is used.
ghost use Rattle.dt_host.specs.World.{IsEmptyStart};
ghost use Rattle.dt_tree.specs.Table.{Stands};

use super::calls::{list, target_of};
use super::fixture::{bytewise, file_in_root, load};
use crate::expect::{same, same_at};
use dt_host::{Host, HostErr};
use dt_memhost::MemHost;
use dt_tree::{ROOT, Tree};
use std::alloc::Global;
use std::process::Abort;

// Calls of the host that moves one byte a call, for the image: the root is asked for, and of eight nodes each is made
// and named, two of them files of four and of five bytes.
const INSTALL_CALLS: u64 = 26;

// And for its use. A file: its name, five bytes, their end and its size. A link: its name and its target. Then the
// names of directories: the root's for its listing, those of both for the path and the listing of `/d`, and the root's
// for how many links it has.
const USE_CALLS: u64 = 14;

// Reads a file, and what is told of it.
fn use_file(host: &mut MemHost, tree: &Tree) -> Result<(), HostErr>
    requires { Stands tree.now host.old.view.forest }
    ensures { Stands tree.now host.new.view.forest }
{
    if let Some(inode) = file_in_root(host, tree, b"hello")? {
        let mut buf = [0; 8];
        tree.read_at(host, inode, 0, &mut buf)?;
        tree.meta(host, inode)?;
    }
    Ok(())
}

// Installs the image, and makes each call of the tree that asks the host.
fn install_and_use(alloc: Global, host: &mut MemHost) -> Result<(), HostErr>
    requires { IsEmptyStart host.old.view }
{
    let tree = load(alloc, host)?;
    use_file(host, &tree)?;
    target_of(host, &tree, b"l")?;
    list(host, &tree, ROOT, None, 9)?;
    list(host, &tree, 2, None, 9)?;
    tree.meta(host, ROOT)?;
    Ok(())
}

// How that ends over a host that fails at these calls, and how many of them it made.
fn ended(alloc: Global, fails: Vec<u64>) -> Result<(Result<(), HostErr>, u64), HostErr> {
    let mut host = bytewise(alloc, fails)?;
    let ended = install_and_use(alloc, &mut host);
    Ok((ended, host.faults()))
}

// Ends the test unless a call that fails is the last one. The next call would fail as well, and be counted.
fn expect_last(rt: &impl Abort, alloc: Global, call: u64) -> Result<(), HostErr> {
    let fails = vec![in alloc; call, call.saturating_add(1)]?;
    same_at(rt, call, ended(alloc, fails)?, (Err(HostErr::Failed), 1));
    Ok(())
}

#[test]
fn a_call_that_fails_is_the_last_one(rt: HostRuntime) -> Result<(), HostErr> {
    for call in 1..INSTALL_CALLS + USE_CALLS + 1 {
        expect_last(&rt, rt.alloc(), call)?;
    }
    Ok(())
}

#[test]
fn no_more_calls_are_made(rt: HostRuntime) -> Result<(), HostErr> {
    let alloc = rt.alloc();
    let next = INSTALL_CALLS.saturating_add(USE_CALLS).saturating_add(1);
    same(&rt, ended(alloc, vec![in alloc; next]?)?, (Ok(()), 0));
    Ok(())
}
