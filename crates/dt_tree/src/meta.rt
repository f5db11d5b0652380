// What is told of a node.
ghost use Rattle.std.specs.Prelude.{◌≡◌, ◌≤◌, Some, length, not, ◌==◌, ◌&&◌, IsSome, IfOk, option_map};
ghost use Rattle.std.specs.List.{count_by};
ghost use Rattle.std.specs.FinMap.{get};
ghost use Rattle.dt_host.specs.Asks.{Asks};
ghost use Rattle.dt_host.specs.World.{Forest, IsDir, IsLive, node_at};
ghost use Rattle.dt_tree.specs.declared.limits.TheConstants.{NAMES_LIMIT};
ghost use Rattle.dt_tree.specs.Shape.{is_dir, is_removed, is_bare};
ghost use Rattle.dt_tree.specs.Meta.{nlink_of, meta_of, node_size, subdirectory_count};
ghost use Rattle.dt_tree.specs.Table.{Stands, vino_of, shape_of, tree_of};

use crate::inode::Kind;
use crate::limits::{DIR_SIZE, ROOT};
use crate::list::type_of;
use crate::tree::Tree;
use dt_host::{Host, HostEntry, HostErr};

/// What stat(2) tells of a node: its type as an entry's, its mode, its link count, its size and its stamp.
#[derive(Clone, Copy, Debug)]
pub struct Meta {
    pub kind: u8,
    pub mode: u32,
    pub nlink: u32,
    pub size: u64,
    pub stamp: u64,
}

impl Tree {
    /// What is told of a node. A directory's size is always 4,096, and a removed one has no links.
    pub fn meta<H: Host>(&self, host: &mut H, vino: u64) -> Result<Meta, HostErr>
        requires stands { Stands self.now (H.view host.old).forest }
        requires live { IsLive (shape_of self.now (H.view host.old).forest) vino }
        ensures ok { IfOk result
            (λ meta. meta_of (tree_of self.now (H.view host.old).forest) vino ≡ Some meta) }
        ensures asks { Asks H.view H.count host.old host.new result }
    {
        let nlink = self.nlink(host, vino)?;
        let size = self.size(host, vino)?;
        let inode = self.inode(vino);
        Ok(Meta {
            kind: type_of(inode.kind),
            mode: inode.mode,
            nlink,
            size,
            stamp: inode.stamp,
        })
    }

    /// Whether a directory has no entries.
    pub fn is_bare<H: Host>(&self, host: &mut H, dir: u64) -> Result<bool, HostErr>
        requires stands { Stands self.now (H.view host.old).forest }
        requires directory { IsDir (shape_of self.now (H.view host.old).forest) dir }
        ensures ok { IfOk result
            (λ b. b ≡ is_bare (shape_of self.now (H.view host.old).forest) dir) }
        ensures asks { Asks H.view H.count host.old host.new result }
    {
        let entries = host.names(self.inode(dir).real)?;
        Ok(entries.is_empty())
    }

    fn size<H: Host>(&self, host: &mut H, vino: u64) -> Result<u64, HostErr>
        requires stands { Stands self.now (H.view host.old).forest }
        requires live { IsLive (shape_of self.now (H.view host.old).forest) vino }
        ensures ok { IfOk result (λ size. option_map node_size
            (node_at (shape_of self.now (H.view host.old).forest) vino) ≡ Some size) }
        ensures asks { Asks H.view H.count host.old host.new result }
    {
        let _before = host.faults();
        let inode = self.inode(vino);
        match inode.kind {
            Kind::File => Ok(host.raw(inode.real)?.size),
            Kind::Dir => Ok(DIR_SIZE),
            Kind::Link => {
                let target = host.target(inode.real)?;
                Ok(target.len() as u64)
            }
            Kind::Device(_) => Ok(0),
        }
    }

    // The link count of a node: its names, or of a directory 2 and its subdirectories.
    fn nlink<H: Host>(&self, host: &mut H, vino: u64) -> Result<u32, HostErr>
        requires stands { Stands self.now (H.view host.old).forest }
        requires live { IsLive (shape_of self.now (H.view host.old).forest) vino }
        ensures ok { IfOk result
            (λ count. count ≡ nlink_of (shape_of self.now (H.view host.old).forest) vino) }
        ensures asks { Asks H.view H.count host.old host.new result }
    {
        let _before = host.faults();
        let inode = self.inode(vino);
        if inode.kind != Kind::Dir {
            return Ok(inode.names);
        }
        self.dir_nlink(host, vino)
    }

    // The link count of a directory.
    fn dir_nlink<H: Host>(&self, host: &mut H, dir: u64) -> Result<u32, HostErr>
        requires stands { Stands self.now (H.view host.old).forest }
        requires directory { IsDir (shape_of self.now (H.view host.old).forest) dir }
        ensures ok { IfOk result
            (λ count. count ≡ nlink_of (shape_of self.now (H.view host.old).forest) dir) }
        ensures asks { Asks H.view H.count host.old host.new result }
    {
        let _before = host.faults();
        if self.is_removed(dir) {
            return Ok(0);
        }
        Ok(2 + self.count_subdirectories(host, dir)?)
    }

    // Whether a directory is removed.
    pub(crate) fn is_removed(&self, dir: u64) -> bool
        requires { IsSome (get self.now.inodes dir) }
        ensures { (v : Forest) → Stands self.now v
            → result ≡ is_removed (shape_of self.now v) dir }
    {
        dir != ROOT && self.inode(dir).names == 0
    }

    // How many of a directory's entries are for directories.
    fn count_subdirectories<H: Host>(&self, host: &mut H, dir: u64) -> Result<u32, HostErr>
        requires stands { Stands self.now (H.view host.old).forest }
        requires directory { IsDir (shape_of self.now (H.view host.old).forest) dir }
        ensures ok { IfOk result
            (λ count. count ≡ subdirectory_count (shape_of self.now (H.view host.old).forest) dir) }
        ensures few { IfOk result (λ count. count ≤ NAMES_LIMIT) }
        ensures asks { Asks H.view H.count host.old host.new result }
    {
        let entries = host.names(self.inode(dir).real)?;
        Ok(self.count_dirs(&entries))
    }

    // How many of these entries are for directories.
    fn count_dirs(&self, entries: &[HostEntry]) -> u32
        requires { length entries.now ≤ NAMES_LIMIT }
        ensures count { (v : Forest) → Stands self.now v → result
            ≡ count_by (λ e. is_dir (shape_of self.now v) (vino_of self.now e.ino)) entries.now }
        ensures few { result ≤ length entries.now }
    {
        let mut count = 0;
        for entry in entries {
            if self.is_dir(self.vino(entry.ino)) {
                count += 1;
            }
        }
        count
    }
}
