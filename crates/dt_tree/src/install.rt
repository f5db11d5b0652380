// An image, installed.
ghost use Rattle.std.specs.Prelude.{◌≡◌, ◌-◌, ℕ, length, not, OnOk, IsErrOf};
ghost use Rattle.std.specs.List.{suffix_len};
ghost use Rattle.dt_base.specs.Image.{IsImage};
ghost use Rattle.dt_base.specs.Path.{is_slash, parent_of};
ghost use Rattle.dt_host.specs.Cause.{HasCause};
ghost use Rattle.dt_host.specs.World.{OnlyForest};
ghost use Rattle.dt_tree.specs.ImageTree.{last_name, image_tree, root_tree};
ghost use Rattle.dt_tree.specs.Table.{Stands, tree_of};
ghost use Rattle.dt_tree.specs.inner.Places.{IsInodeOfPath};

use crate::limits::{FIRST_INODE, ROOT};
use crate::tree::Tree;
use dt_base::{Entry, Image};
use dt_host::{Host, HostErr};

impl Tree {
    /// Brings the files, directories, links and devices of an image into a tree that is new. They get the inodes 2, 3,
    /// .. in byte order of their paths. After an error the tree may only be dropped.
    pub fn install<H: Host>(&mut self, host: &mut H, image: &Image) -> Result<(), HostErr>
        requires stands { Stands self.old (H.view host.old).forest }
        requires new { tree_of self.old (H.view host.old).forest ≡ root_tree }
        ensures stands { OnOk result (Stands self.new (H.view host.new).forest) }
        ensures tree { OnOk result
            (tree_of self.new (H.view host.new).forest ≡ image_tree image.now) }
        ensures rest { OnlyForest (H.view host.old) (H.view host.new) }
        ensures cause { HasCause (H.count host.old) (H.count host.new)
            (IsErrOf result HostErr.Failed) }
    {
        let _before = host.faults();
        self.set_version(image.version());
        let entries = image.entries();
        for entry in entries {
            let (path, name) = split_path(entry.path.as_slice());
            let dir = inode_at(entries, path);
            self.create(host, dir, name, &entry.what, entry.mode, 0)?;
        }
        Ok(())
    }
}

// A path without its last name and the `/` before that, and the last name.
fn split_path(path: &[u8]) -> (&[u8], &[u8])
    ensures parent { result.0.now ≡ parent_of path.now }
    ensures name { result.1.now ≡ last_name path.now }
{
    let start = name_start(path);
    (&path[..start.saturating_sub(1)], &path[start..])
}

// The offset at which the last name of a path begins.
fn name_start(path: &[u8]) -> usize
    ensures { result ≡ length path.now - suffix_len (λ b. not (is_slash b)) path.now }
{
    let mut start = path.len();
    while start > 0 && path[start - 1] != b'/' {
        start -= 1;
    }
    start
}

// The inode of the entry at a path, and the root's for the empty path.
fn inode_at(entries: &[Entry], path: &[u8]) -> u64
    requires { (version : ℕ) × IsImage (record { version = version; entries = entries.now }) }
    ensures { IsInodeOfPath entries.now path.now result }
{
    if path.is_empty() {
        return ROOT;
    }
    match entries.binary_search_by(|entry| entry.path.as_slice().cmp(path)) {
        Ok(i) => FIRST_INODE + i as u64,
        Err(_) => ROOT,
    }
}
