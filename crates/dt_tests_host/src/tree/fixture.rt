// A small image, a host in memory, and the tree of the image over it.
ghost use Rattle.std.specs.Prelude.{◌≡◌, Some, IfOk, IfSome};
ghost use Rattle.dt_host.specs.World.{IsEmptyStart, IsFile, entry};
ghost use Rattle.dt_tree.specs.declared.limits.TheConstants.{ROOT};
ghost use Rattle.dt_tree.specs.Table.{Stands, shape_of};

use crate::image::folder::{BlobBytes, good_image};
use dt_base::NoMemory;
use dt_host::HostErr;
use dt_memhost::{MemHost, Picker};
use dt_tree::{ROOT, Tree};
use std::alloc::Global;

// The words that a bytewise host has at least.
const ZEROS: usize = 1_000;

/// A host that chooses by the stream of a number, and fails at one call, or at none where that is 0.
pub fn host(alloc: Global, stream: u64, failing: u64) -> Result<MemHost, NoMemory>
    ensures { IfOk result (λ host. IsEmptyStart host.view) }
{
    MemHost::new(
        alloc,
        Picker::new(Vec::new(alloc), stream),
        vec![in alloc; failing]?,
    )
}

/// A host that chooses by words of 0, so that it moves one byte a call, and fails at these calls.
pub fn bytewise(alloc: Global, fails: Vec<u64>) -> Result<MemHost, NoMemory>
    ensures { IfOk result (λ host. IsEmptyStart host.view) }
{
    MemHost::new(alloc, Picker::new(vec![in alloc; 0; ZEROS]?, 1), fails)
}

/// The tree of the image over a host that is new.
pub fn load(alloc: Global, host: &mut MemHost) -> Result<Tree, HostErr>
    requires { IsEmptyStart host.old.view }
    ensures { IfOk result (λ tree. Stands tree host.new.view.forest) }
{
    let image = good_image(alloc, ENTRIES, BLOBS)?;
    let mut tree = Tree::new(alloc, host)?;
    tree.install(host, &image)?;
    Ok(tree)
}

/// The inode of a file in the root; None where it has no file of that name.
pub fn file_in_root(host: &mut MemHost, tree: &Tree, name: &[u8]) -> Result<Option<u64>, HostErr>
    requires { Stands tree.now host.old.view.forest }
    ensures stands { Stands tree.now host.new.view.forest }
    ensures file { IfOk result (λ found. IfSome found (IsFile (shape_of tree.now host.new.view.forest))) }
    ensures named { IfOk result (λ found. IfSome found
        (λ inode. entry (shape_of tree.now host.new.view.forest) ROOT name.now ≡ Some inode)) }
{
    let Some(inode) = tree.find(host, ROOT, name)? else {
        return Ok(None);
    };
    if tree.is_dir(inode) || tree.is_link(inode) || tree.device(inode).is_some() {
        return Ok(None);
    }
    Ok(Some(inode))
}

// A directory `/d` with a file and a link, a file, and links.
const ENTRIES: &str = "dir:/d:493:,file:/d/f:384:f,link:/d/up:511:..,file:/hello:2505:hello,\
    link:/l:511:hello,link:/m:511:/m,link:/s:511://,link:/t:511:d/";

const BLOBS: &[BlobBytes<'static>] = &[("img/f", b"deep"), ("img/hello", b"hello")];
