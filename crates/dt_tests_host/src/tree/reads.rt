// Reads of a file, over hosts that move the bytes in pieces of their own choice.
ghost use Rattle.dt_host.specs.World.{IsEmptyStart};
ghost use Rattle.dt_tree.specs.Table.{Stands};

use super::fixture::{bytewise, file_in_root, host, load};
use crate::expect::{same, same_at};
use dt_host::HostErr;
use dt_memhost::MemHost;
use dt_tree::Tree;
use std::alloc::Global;
use std::process::Abort;

// A read of the file `/hello` into a buffer of that many `-`: how many bytes came, and the buffer.
fn read(
    alloc: Global,
    host: &mut MemHost,
    tree: &Tree,
    off: u64,
    size: usize,
) -> Result<Option<(usize, Vec<u8>)>, HostErr>
    requires { Stands tree.now host.old.view.forest }
    ensures { Stands tree.now host.new.view.forest }
{
    let Some(inode) = file_in_root(host, tree, b"hello")? else {
        return Ok(None);
    };
    let mut buf = vec![in alloc; b'-'; size]?;
    let count = tree.read_at(host, inode, off, &mut buf)?;
    Ok(Some((count, buf)))
}

// An offset in `hello`, the size of the buffer, how many bytes come, and what the buffer then holds.
const ROWS: &[(u64, usize, usize, &[u8])] = &[
    (0, 5, 5, b"hello"),
    (0, 4, 4, b"hell"),
    (0, 8, 5, b"hello---"),
    (0, 0, 0, b""),
    (1, 3, 3, b"ell"),
    (3, 4, 2, b"lo--"),
    (4, 1, 1, b"o"),
    (4, 2, 1, b"o-"),
    (5, 3, 0, b"---"),
    (6, 1, 0, b"-"),
    (u64::MAX, 2, 0, b"--"),
];

// Whether each read of the rows gives its count and its bytes.
fn reads_as_listed(alloc: Global, host: &mut MemHost, tree: &Tree) -> Result<bool, HostErr>
    requires { Stands tree.now host.old.view.forest }
{
    for (off, size, count, bytes) in ROWS {
        match read(alloc, host, tree, *off, *size)? {
            Some((came, buf)) if came == *count && buf.as_slice() == *bytes => {}
            _ => return Ok(false),
        }
    }
    Ok(true)
}

// The same over a host that is new.
fn load_and_read(alloc: Global, host: &mut MemHost) -> Result<bool, HostErr>
    requires { IsEmptyStart host.old.view }
{
    let tree = load(alloc, host)?;
    reads_as_listed(alloc, host, &tree)
}

// The same over one that chooses by the stream of a number.
fn reads_over(alloc: Global, stream: u64) -> Result<bool, HostErr> {
    let mut host = host(alloc, stream, 0)?;
    load_and_read(alloc, &mut host)
}

#[test]
fn reads_end_at_the_buffer_or_at_the_file(rt: HostRuntime) -> Result<(), HostErr> {
    let mut host = bytewise(rt.alloc(), Vec::new(rt.alloc()))?;
    same(&rt, load_and_read(rt.alloc(), &mut host)?, true);
    Ok(())
}

// Ends the test unless they are the same over hosts that choose by the streams of these numbers.
fn expect_reads(rt: &impl Abort, alloc: Global, streams: &[u64]) -> Result<(), HostErr> {
    for stream in streams {
        same_at(rt, *stream, reads_over(alloc, *stream)?, true);
    }
    Ok(())
}

#[test]
fn reads_are_the_same_in_pieces_of_other_sizes(rt: HostRuntime) -> Result<(), HostErr> {
    expect_reads(&rt, rt.alloc(), &[1, 2, 3])
}
