// What is read of a node.
ghost use Rattle.std.specs.Prelude.{◌≡◌, ◌-◌, ◌++◌, Some, IfOk, is_some, length, not, take, drop, min};
ghost use Rattle.dt_host.specs.Asks.{Asks};
ghost use Rattle.dt_host.specs.World.{Forest, IsDir, IsFile, IsLink, content, device_at, entry, target_at};
ghost use Rattle.dt_tree.specs.Above.{dot_dot, parent_at};
ghost use Rattle.dt_tree.specs.Shape.{is_dir, is_link, is_removed};
ghost use Rattle.dt_tree.specs.Table.{Stands, shape_of};

use crate::inode::Kind;
use crate::limits::ROOT;
use crate::tree::Tree;
use dt_base::{Blob, Device};
use dt_host::{Host, HostErr, read_whole};

impl Tree {
    /// Whether there is a directory of this inode.
    pub fn is_dir(&self, vino: u64) -> bool
        ensures { (v : Forest) → Stands self.now v → result ≡ is_dir (shape_of self.now v) vino }
    {
        match self.found(vino) {
            Some(inode) => inode.kind == Kind::Dir,
            None => false,
        }
    }

    /// Whether there is a symbolic link of this inode.
    pub fn is_link(&self, vino: u64) -> bool
        ensures { (v : Forest) → Stands self.now v → result ≡ is_link (shape_of self.now v) vino }
    {
        match self.found(vino) {
            Some(inode) => inode.kind == Kind::Link,
            None => false,
        }
    }

    /// Which device is of this inode, if one is.
    pub fn device(&self, vino: u64) -> Option<Device>
        ensures { (v : Forest) → Stands self.now v → result ≡ device_at (shape_of self.now v) vino }
    {
        match self.found(vino) {
            Some(inode) => inode.kind.device(),
            None => None,
        }
    }

    /// What `..` of a directory is: the directory that names it, and of the root the root.
    /// None exactly where it is removed.
    pub fn dot_dot(&self, dir: u64) -> Option<u64>
        ensures value { (v : Forest) → Stands self.now v → IsDir (shape_of self.now v) dir
            → result ≡ dot_dot (shape_of self.now v) dir }
        ensures removed { (v : Forest) → Stands self.now v → IsDir (shape_of self.now v) dir
            → is_some result ≡ not (is_removed (shape_of self.now v) dir) }
    {
        if dir == ROOT {
            return Some(dir);
        }
        self.parent(dir)
    }

    // The directory that names another; None exactly where none does.
    pub(crate) fn parent(&self, dir: u64) -> Option<u64>
        ensures { (v : Forest) → Stands self.now v → IsDir (shape_of self.now v) dir
            → result ≡ parent_at (shape_of self.now v) dir }
    {
        match self.found(dir) {
            Some(inode) => inode.up,
            None => None,
        }
    }

    /// The inode that a directory has under a name; None exactly where it has no such entry.
    pub fn find<H: Host>(&self, host: &mut H, dir: u64, name: &[u8]) -> Result<Option<u64>, HostErr>
        requires stands { Stands self.now (H.view host.old).forest }
        requires directory { IsDir (shape_of self.now (H.view host.old).forest) dir }
        ensures ok { IfOk result
            (λ found. found ≡ entry (shape_of self.now (H.view host.old).forest) dir name.now) }
        ensures asks { Asks H.view H.count host.old host.new result }
    {
        let inode = self.inode(dir);
        match host.find(inode.real, name)? {
            None => Ok(None),
            Some(real) => Ok(Some(self.vino(real))),
        }
    }

    /// The target of a symbolic link.
    pub fn target<H: Host>(&self, host: &mut H, vino: u64) -> Result<Blob, HostErr>
        requires stands { Stands self.now (H.view host.old).forest }
        requires link { IsLink (shape_of self.now (H.view host.old).forest) vino }
        ensures ok { IfOk result
            (λ target. target_at (shape_of self.now (H.view host.old).forest) vino ≡ Some target) }
        ensures asks { Asks H.view H.count host.old host.new result }
    {
        host.target(self.inode(vino).real)
    }

    /// Reads a file from `off` on until the buffer is full or the file ends, and answers how many bytes came.
    /// After an error the buffer may hold anything.
    pub fn read_at<H: Host>(
        &self,
        host: &mut H,
        vino: u64,
        off: u64,
        buf: &mut [u8],
    ) -> Result<usize, HostErr>
        requires stands { Stands self.now (H.view host.old).forest }
        requires file { IsFile (shape_of self.now (H.view host.old).forest) vino }
        ensures count { IfOk result (λ n. n ≡ min (length buf.old)
            (length (content (shape_of self.now (H.view host.old).forest) vino) - off)) }
        ensures prefix { IfOk result (λ n. buf.new
            ≡ take n (drop off (content (shape_of self.now (H.view host.old).forest) vino))
            ++ drop n buf.old) }
        ensures asks { Asks H.view H.count host.old host.new result }
    {
        read_whole(host, self.inode(vino).real, off, buf)
    }
}
